//! The destination of text in UTF-8.

ghost use Rattle.std.specs.Prelude.{false, ◌≡◌, ◌-◌, ◌<◌, ◌≤◌, ◌∷◌, [], length, refl};
ghost use Rattle.std.specs.Prelude.{encode_utf8_all};
ghost use Rattle.std.specs.Char.{len_utf8};
ghost use Rattle.std.proofs.Common.{◌∙◌};
ghost use Rattle.encoding_mem.specs.calls.Writing.{Adds};
ghost use Rattle.encoding_mem.specs.laws.Writing.{adds_none, adds_encoded};

use crate::codec::sink::Sink;
use crate::mem::plain_units::put_plain_units;
use std::mem;

/// A destination of text in bytes of UTF-8: a slice that is filled from its start.
#[derive(Drop)]
pub struct Utf8Sink<'a> {
    bytes: &'a mut [u8],
    written: usize,
    ghost within: { written ≤ length bytes.now },
}

impl<'a> Utf8Sink<'a> {
    /// A sink over the slice, in which nothing is written yet.
    #[inline(always)]
    pub fn new(bytes: &'a mut [u8]) -> Utf8Sink<'a>
        ensures same_reference { result.bytes.ghost_name ≡ bytes.entry.ghost_name }
        ensures written { result.written ≡ 0 }
        ensures bytes { result.bytes.now ≡ bytes.old }
    {
        Utf8Sink { bytes, written: 0 }
    }

    #[inline(always)]
    fn put_byte(&mut self, b: u8)
        requires { self.old.written < length self.old.bytes.now }
        ensures same_reference { self.new.bytes.ghost_name ≡ self.old.bytes.ghost_name }
        ensures adds { Adds self.old.bytes.now self.old.written (b ∷ []) self.new.bytes.now self.new.written }
    {
        self.bytes[self.written] = b;
        self.written += 1;
    }

    #[inline(always)]
    fn put_bytes(&mut self, bytes: &[u8])
        requires { length bytes.now ≤ length self.old.bytes.now - self.old.written }
        ensures same_reference { self.new.bytes.ghost_name ≡ self.old.bytes.ghost_name }
        ensures adds { Adds self.old.bytes.now self.old.written bytes.now self.new.bytes.now self.new.written }
    {
        let end = self.written + bytes.len();
        self.bytes[self.written..end].copy_from_slice(bytes);
        self.written = end;
    }
}

impl<'a> Sink for Utf8Sink<'a> {
    ghost free = { λ s. length s.bytes.now - s.written };

    ghost count = { λ s. s.written };

    ghost cost = { len_utf8 };

    ghost room = { 4 };

    ghost is_units = { false };

    ghost writes = { λ s cs t. (t.bytes.ghost_name ≡ s.bytes.ghost_name) × Adds s.bytes.now s.written (encode_utf8_all cs) t.bytes.now t.written };

    #[inline(always)]
    fn free_len(&self) -> usize
        ensures within { result ≤ length self.now.bytes.now - self.now.written }
        ensures all { result ≡ length self.now.bytes.now - self.now.written }
    {
        self.bytes.len() - self.written
    }

    #[inline(always)]
    fn has_room(&self) -> bool {
        self.free_len() >= 4
    }

    // If any character fits, its length is not asked.
    #[inline(always)]
    fn fits(&self, c: char) -> bool {
        let free = self.free_len();
        free >= 4 || free >= c.len_utf8()
    }

    #[inline(always)]
    fn put(&mut self, c: char) {
        let code = c as u32;
        // Three bytes are tested first: runs of ASCII are put as a whole, and in an encoding of two
        // bytes a character most of what stands between them has three.
        if code >= 0x800 && code < 0x1_0000 {
            // One by one: three bytes are no size of a store, so an array of them would be slower.
            self.put_byte((0xE0 + code / 4096) as u8);
            self.put_byte((0x80 + code / 64 % 64) as u8);
            self.put_byte((0x80 + code % 64) as u8);
        } else if code < 0x80 {
            self.put_byte(code as u8);
        } else if code < 0x800 {
            self.put_bytes(&[(0xC0 + code / 64) as u8, (0x80 + code % 64) as u8]);
        } else {
            self.put_bytes(&[
                (0xF0 + code / 262144) as u8,
                (0x80 + code / 4096 % 64) as u8,
                (0x80 + code / 64 % 64) as u8,
                (0x80 + code % 64) as u8,
            ]);
        }
    }

    #[inline(always)]
    fn put_text(&mut self, text: &str) {
        self.put_bytes(text.as_bytes());
    }

    fn put_units(&mut self, units: &[u16]) {
        self.written += put_plain_units(units, &mut self.bytes[self.written..]);
    }

    #[inline(always)]
    fn written(&self) -> usize {
        self.written
    }

    #[inline(always)]
    fn detach(&mut self) -> Option<Self> {
        Some(mem::replace(self, Utf8Sink::new(&mut [])))
    }

    ghost cost_is = { λ _. refl };

    ghost room_is = { refl };

    ghost writes_none = { λ s. (refl, adds_none s.bytes.now s.written s.within) };

    ghost writes_more = { λ s t u a b h k. (k.0 ∙ h.0, adds_encoded s.bytes.now s.written a b t.bytes.now t.written u.bytes.now u.written h.1 k.1) };
}
