//! A destination of decoded text.

ghost use Rattle.std.specs.Prelude.{Bool, if◌then◌else◌, ◌≡◌, ℕ, ◌+◌, ◌<◌, ◌≤◌, ◌↔◌, IsTrue, List};
ghost use Rattle.std.specs.Prelude.{[], ◌∷◌, ◌++◌, length, slice_index, MatchOption};
ghost use Rattle.std.specs.Char.{len_utf8};
ghost use Rattle.std.specs.Str.{chars, encode_utf8_all};
ghost use Rattle.encoding_mem.specs.calls.Writing.{len_utf16};
ghost use Rattle.encoding_mem.specs.calls.TextRun.{text_len};
ghost use Rattle.encoding_mem.specs.laws.Writing.{cost_within, costs_within};

use crate::codec::scalar::scalar_of;
use crate::codec::source::first_char;

/// A destination of text, filled from its start, whose units are bytes of UTF-8 or units of UTF-16.
/// Decoders write into any.
pub trait Sink: Drop {
    /// How many units are free.
    ghost free: { Self → ℕ };

    /// How many units are written.
    ghost count: { Self → ℕ };

    /// How many units a scalar takes.
    ghost cost: { ℕ → ℕ };

    /// How many units are room for any scalar: 4 bytes or 2 units.
    ghost room: { ℕ };

    /// Whether the units are those of UTF-16.
    ghost is_units: { Bool };

    /// That the scalars of a list, written to the first sink, give the second.
    ghost writes: { Self → List ℕ → Self → Type 0 };

    /// Whether there is room for any character, which is also room for two below U+0800: 4 bytes or
    /// 2 units.
    fn has_room(&self) -> bool
        ensures { IsTrue result ↔ (room ≤ free self.now) };

    /// Whether there is room for this character: the test of the condition of `put`.
    fn fits(&self, c: char) -> bool
        ensures { IsTrue result ↔ (cost c ≤ free self.now) };

    /// Writes a character. The condition, that there is room for it, is tested by `fits`.
    fn put(&mut self, c: char)
        requires { cost c ≤ free self.old }
        ensures free { free self.new + cost c ≡ free self.old }
        ensures writes { writes self.old (c ∷ []) self.new };

    /// How many units are written: bytes of UTF-8 or units of UTF-16.
    fn written(&self) -> usize
        ensures { result ≡ count self.now };

    /// A number of units that are surely free, for which a run of text is put as a whole. It
    /// decides speed alone: it is 0 for a sink that says nothing, and all that are free for those
    /// of this crate.
    #[inline(always)]
    fn free_len(&self) -> usize
        ensures { result ≤ free self.now }
    {
        0
    }

    /// Writes a text. The condition, that it has at most as many bytes as units are free, is tested
    /// by comparing its length with `free_len`, or by what the caller knows of the room.
    fn put_text(&mut self, text: &str)
        requires { length text.now ≤ free self.old }
        ensures free { free self.new + text_len is_units text.now ≡ free self.old }
        ensures writes { writes self.old (chars text.now) self.new }
    {
        let mut rest = text;
        'characters: while let Some((c, more)) = first_char(rest) {
            self.put(c);
            rest = more;
        }
    }

    /// Writes at most 32 characters below U+D800, given as units of UTF-16. The conditions are
    /// tested by their number, by comparing each with D800 hex and `free_len` with 96.
    fn put_units(&mut self, units: &[u16])
        requires few { length units.now ≤ 32 }
        requires plain { (k : ℕ) → slice_index units.now k < 0xD800 }
        requires room { 96 ≤ free self.old }
        ensures free { free self.new + text_len is_units (encode_utf8_all units.now)
            ≡ free self.old }
        ensures writes { writes self.old units.now self.new }
    {
        for unit in units {
            self.put(scalar_of(u32::from(*unit)));
        }
    }

    /// Hands out the sink, and leaves one without room in its place, for a loop that puts it back
    /// at its end. A loop that owns its sink keeps in registers what it would load and store for
    /// each character. A sink that has none to leave in its place returns `None`, and the loop
    /// writes to it where it is.
    #[inline(always)]
    fn detach(&mut self) -> Option<Self>
        ensures { MatchOption result (self.new ≡ self.old) (λ s. s ≡ self.old) }
    {
        None
    }

    /// A scalar takes the units of its form in UTF-16, or in UTF-8.
    ghost cost_is: { (c : ℕ) → cost c ≡ (if is_units then len_utf16 c else len_utf8 c) };

    /// The room for any scalar is 2 units or 4 bytes.
    ghost room_is: { room ≡ (if is_units then 2 else 4) };

    /// No scalar takes more than `room`.
    ghost fits_room: { (c : ℕ) → cost c ≤ room } = { cost_within is_units cost room
        cost_is room_is };

    /// No two scalars below U+0800 take more than `room`.
    ghost fits_two: { (c d : ℕ) → c < 0x800 → d < 0x800
        → cost c + cost d ≤ room } = { costs_within is_units cost room cost_is room_is };

    /// Writing nothing changes nothing.
    ghost writes_none: { (s : Self) → writes s [] s };

    /// Writing one list and then another writes both.
    ghost writes_more: { (s t u : Self) (a b : List ℕ) → writes s a t → writes t b u → writes s (a ++ b) u };
}
