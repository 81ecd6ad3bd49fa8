//! The destination of text in UTF-16.

ghost use Rattle.std.specs.Prelude.{true, ◌≡◌, ◌-◌, ◌<◌, ◌≤◌, ◌∷◌, [], length, refl};
ghost use Rattle.std.proofs.Common.{◌∙◌};
ghost use Rattle.encoding_mem.specs.calls.Writing.{Adds, len_utf16, encode_utf16_all};
ghost use Rattle.encoding_mem.specs.laws.Writing.{adds_none, adds_encoded16};

use crate::codec::sink::Sink;
use crate::mem::utf8_conversions::convert_str_to_utf16;
use std::mem;

/// A destination of text in units of UTF-16: a slice that is filled from its start.
#[derive(Drop)]
pub struct Utf16Sink<'a> {
    units: &'a mut [u16],
    written: usize,
    ghost within: { written ≤ length units.now },
}

impl<'a> Utf16Sink<'a> {
    /// A sink over the slice, in which nothing is written yet.
    #[inline(always)]
    pub fn new(units: &'a mut [u16]) -> Utf16Sink<'a>
        ensures same_reference { result.units.ghost_name ≡ units.entry.ghost_name }
        ensures written { result.written ≡ 0 }
        ensures units { result.units.now ≡ units.old }
    {
        Utf16Sink { units, written: 0 }
    }

    #[inline(always)]
    fn put_unit(&mut self, unit: u16)
        requires { self.old.written < length self.old.units.now }
        ensures same_reference { self.new.units.ghost_name ≡ self.old.units.ghost_name }
        ensures adds { Adds self.old.units.now self.old.written (unit ∷ []) self.new.units.now self.new.written }
    {
        self.units[self.written] = unit;
        self.written += 1;
    }

    #[inline(always)]
    fn put_all(&mut self, units: &[u16])
        requires { length units.now ≤ length self.old.units.now - self.old.written }
        ensures same_reference { self.new.units.ghost_name ≡ self.old.units.ghost_name }
        ensures adds { Adds self.old.units.now self.old.written units.now
            self.new.units.now self.new.written }
    {
        let end = self.written + units.len();
        self.units[self.written..end].copy_from_slice(units);
        self.written = end;
    }
}

impl<'a> Sink for Utf16Sink<'a> {
    ghost free = { λ s. length s.units.now - s.written };

    ghost count = { λ s. s.written };

    ghost cost = { len_utf16 };

    ghost room = { 2 };

    ghost is_units = { true };

    ghost writes = { λ s cs t. (t.units.ghost_name ≡ s.units.ghost_name) × Adds s.units.now s.written (encode_utf16_all cs) t.units.now t.written };

    #[inline(always)]
    fn free_len(&self) -> usize
        ensures within { result ≤ length self.now.units.now - self.now.written }
        ensures all { result ≡ length self.now.units.now - self.now.written }
    {
        self.units.len() - self.written
    }

    #[inline(always)]
    fn has_room(&self) -> bool {
        self.free_len() >= 2
    }

    #[inline(always)]
    fn fits(&self, c: char) -> bool {
        self.free_len() >= c.len_utf16()
    }

    #[inline(always)]
    fn put(&mut self, c: char) {
        let code = c as u32;
        if code < 0x1_0000 {
            self.put_unit(code as u16);
        } else {
            let over = code - 0x1_0000;
            self.put_unit((0xD800 + over / 0x400) as u16);
            self.put_unit((0xDC00 + over % 0x400) as u16);
        }
    }

    fn put_text(&mut self, text: &str) {
        let count = convert_str_to_utf16(text, &mut self.units[self.written..]);
        self.written += count;
    }

    #[inline(always)]
    fn put_units(&mut self, units: &[u16]) {
        self.put_all(units);
    }

    #[inline(always)]
    fn written(&self) -> usize {
        self.written
    }

    #[inline(always)]
    fn detach(&mut self) -> Option<Self> {
        Some(mem::replace(self, Utf16Sink::new(&mut [])))
    }

    ghost cost_is = { λ _. refl };

    ghost room_is = { refl };

    ghost writes_none = { λ s. (refl, adds_none s.units.now s.written s.within) };

    ghost writes_more = { λ s t u a b h k. (k.0 ∙ h.0, adds_encoded16 s.units.now s.written a b t.units.now t.written u.units.now u.written h.1 k.1) };
}
