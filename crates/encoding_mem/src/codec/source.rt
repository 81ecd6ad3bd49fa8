//! A text that is read from its start.

ghost use Rattle.std.specs.Prelude.{◌≡◌, ◌↔◌, IsTrue, ℕ, ◌+◌, ◌-◌, ◌*◌, ◌<◌, ◌≤◌, Bool, true};
ghost use Rattle.std.specs.Prelude.{false, List, [], ◌∷◌, ◌++◌, length, take, drop, slice_index};
ghost use Rattle.std.specs.Prelude.{MatchOption, IfSome};
ghost use Rattle.std.specs.Str.{chars, IsAscii, IsCharBoundary};
ghost use Rattle.std.specs.Char.{len_utf8, encode_utf8};
ghost use Rattle.std.specs.Char.Utf16.{utf16_lossy_chars};
ghost use Rattle.encoding_mem.specs.Conversions.{IsUnitBoundary};
ghost use Rattle.encoding_mem.specs.calls.DecodedLength.{cost_in};
ghost use Rattle.encoding_mem.specs.calls.EncodedLength.{bound_for, encoded_length_utf8};
ghost use Rattle.encoding_mem.specs.calls.EncoderRule.{IsCopied};
ghost use Rattle.encoding_mem.specs.calls.TextRun.{IsSecondAscii};
ghost use Rattle.encoding_mem.specs.calls.Writing.{len_utf16};
ghost use Rattle.encoding_mem.specs.laws.EncodedLength.{sum_within};

use crate::codec::scalar::scalar_of;
use crate::mem::ascii::ascii_prefix;
use crate::mem::ascii_copies::copy_basic_latin_to_ascii;
use crate::mem::utf16_conversions::convert_utf16_to_utf8_partial;

/// A text that is read character by character from its start: a list of bytes of UTF-8 or of units
/// of UTF-16, which stays as it is, and an offset in it. Encoders read any.
pub trait Source {
    /// The text of a list of units.
    ghost text: { List ℕ → List ℕ };

    /// That an offset in a list is between characters: in UTF-16, not between the two units of a
    /// pair.
    ghost IsBoundary: { List ℕ → ℕ → Type 0 };

    /// Whether the list has units of UTF-16.
    ghost is_units: { Bool };

    /// The whole list.
    ghost all: { Self → List ℕ };

    /// How much of the list was read.
    ghost offset: { Self → ℕ };

    /// The next character, and its length in bytes or units, or `None` at the end. It stays unread.
    /// A surrogate in no pair is U+FFFD, of one unit.
    fn peek(&self) -> Option<(char, usize)>
        ensures next { MatchOption result (text (drop (offset self.now) (all self.now)) ≡ [])
            (λ p. text (drop (offset self.now) (all self.now)) ≡ p.0 ∷ text (drop (offset self.now + p.1) (all self.now))) }
        ensures boundary { IfSome result (λ p. IsBoundary (all self.now) (offset self.now + p.1)) }
        ensures first { IfSome result (λ p. IsBoundary (drop (offset self.now) (all self.now))
            p.1) }
        ensures size { IfSome result (λ p. (offset self.now + p.1 ≤ length (all self.now)) × (p.1 ≡ cost_in is_units p.0)) };

    /// Goes past the next character. The condition, that there is one, is tested by `peek`.
    fn advance(&mut self)
        requires { 0 < length (text (drop (offset self.old) (all self.old))) }
        ensures same { all self.new ≡ all self.old }
        ensures next { (c : ℕ) × (text (drop (offset self.old) (all self.old)) ≡ c ∷ text (drop (offset self.new) (all self.new)))
            × (offset self.new ≡ offset self.old + cost_in is_units c) };

    /// How many bytes or units were read. They end between characters: in UTF-16, not between the
    /// two units of a pair.
    fn read(&self) -> usize
        ensures offset { result ≡ offset self.now }
        ensures within { result ≤ length (all self.now) }
        ensures boundary { IsBoundary (all self.now) result };

    /// Goes past the next character, which has `len` bytes or units, as `advance` does. The
    /// condition, that there is one and that it has so many, is that `peek` returns it with `len`.
    #[inline(always)]
    fn advance_by(&mut self, _len: usize)
        requires next { (c : ℕ) × (text (drop (offset self.old) (all self.old))
            ≡ c ∷ text (drop (offset self.old + _len) (all self.old)))
            × (_len ≡ cost_in is_units c) }
        requires first { IsBoundary (drop (offset self.old) (all self.old)) _len }
        requires within { offset self.old + _len ≤ length (all self.old) }
        ensures same { all self.new ≡ all self.old }
        ensures next { (c : ℕ) × (text (drop (offset self.old) (all self.old))
            ≡ c ∷ text (drop (offset self.new) (all self.new)))
            × (offset self.new ≡ offset self.old + cost_in is_units c) }
    {
        self.advance();
    }

    /// Whether the second of the bytes or units that are next is surely there and ASCII. If the
    /// first is too, a run of at least two characters is next, which is worth a copy. It decides
    /// speed alone: a source that says nothing returns false, those of this crate know.
    #[inline(always)]
    fn is_second_ascii(&self) -> bool
        ensures { IsTrue result → IsSecondAscii (drop (offset self.now) (all self.now)) }
    {
        false
    }

    /// Copies the run of ASCII that is next to the start of `dst`, as much of it as fits, and goes
    /// past it. Returns its length in bytes, which is also its length in units.
    fn copy_ascii(&mut self, dst: &mut [u8]) -> usize
        ensures same { all self.new ≡ all self.old }
        ensures fits { result ≤ length dst.new }
        ensures offset { offset self.new ≡ offset self.old + result }
        ensures behind { drop result dst.new ≡ drop result dst.old }
        ensures ascii { IsAscii (take result dst.new) }
        ensures text { text (drop (offset self.old) (all self.old))
            ≡ take result dst.new ++ text (drop (offset self.new) (all self.new)) }
        ensures some { (c : ℕ) (rest : List ℕ) → text (drop (offset self.old) (all self.old)) ≡ c ∷ rest
            → c < 0x80 → 0 < length dst.old → 0 < result }
        ensures longest { result < length dst.old
            → (c : ℕ) (rest : List ℕ) → text (drop (offset self.new) (all self.new)) ≡ c ∷ rest → 0x80 ≤ c }
    {
        let mut copied = 0;
        'characters: while copied < dst.len() {
            match self.peek() {
                Some((c, _)) if c < '\u{80}' => {
                    dst[copied] = c as u8;
                    self.advance();
                    copied += 1;
                }
                _ => return copied,
            }
        }
        copied
    }

    /// Writes characters that are next in UTF-8 to the start of `dst`, and goes past them. Returns
    /// how many bytes they have. How many characters these are decides speed alone: a source that
    /// says nothing writes those of a run of ASCII, the sources of this crate as many as there is
    /// surely room for.
    fn copy_text(&mut self, dst: &mut [u8]) -> usize
        ensures same { all self.new ≡ all self.old }
        ensures fits { result ≤ length dst.new }
        ensures behind { drop result dst.new ≡ drop result dst.old }
        ensures after { offset self.old ≤ offset self.new }
        ensures bytes { result ≤ (bound_for encoded_length_utf8 is_units).factor
            * (offset self.new - offset self.old) }
        ensures text { IsCopied (text (drop (offset self.old) (all self.old))) (take result dst.new)
            (text (drop (offset self.new) (all self.new))) }
    {
        self.copy_ascii(dst)
    }

    /// The offset is at most the length of the list.
    ghost within: { (s : Self) → offset s ≤ length (all s) };
}

// The first character of a text, and what follows it.
#[inline(always)]
pub(crate) fn first_char(text: &str) -> Option<(char, &str)>
    ensures chars { MatchOption result (chars text.now ≡ []) (λ p. chars text.now ≡ p.0 ∷ chars p.1.now) }
    ensures bytes { IfSome result (λ p. text.now ≡ encode_utf8 p.0 ++ p.1.now) }
    ensures boundary { IfSome result (λ p. IsCharBoundary text.now (len_utf8 p.0)) }
{
    let mut rest = text.chars();
    match rest.next() {
        Some(c) => Some((c, rest.as_str())),
        None => None,
    }
}

// The run of ASCII at the start of a text, at most so many bytes of it, and what follows.
#[inline(always)]
fn ascii_run(text: &str, most: usize) -> (&str, &str)
    ensures bytes { text.now ≡ result.0.now ++ result.1.now }
    ensures chars { chars text.now ≡ result.0.now ++ chars result.1.now }
    ensures ascii { IsAscii result.0.now }
    ensures few { length result.0.now ≤ most }
    ensures boundary { IsCharBoundary text.now (length result.0.now) }
    ensures some { (c : ℕ) (rest : List ℕ) → chars text.now ≡ c ∷ rest → c < 0x80 → 0 < most → 0 < length result.0.now }
    ensures longest { length result.0.now < most → (c : ℕ) (rest : List ℕ) → chars result.1.now ≡ c ∷ rest → 0x80 ≤ c }
{
    let run = ascii_prefix(&text.as_bytes()[..text.len().min(most)]);
    text.split_at(run.len())
}

// The longest prefix of whole characters that has at most so many bytes, and what follows.
#[inline(always)]
fn whole_characters(text: &str, most: usize) -> (&str, &str)
    ensures bytes { text.now ≡ result.0.now ++ result.1.now }
    ensures chars { IsCopied (chars text.now) result.0.now (chars result.1.now) }
    ensures few { length result.0.now ≤ most }
    ensures boundary { IsCharBoundary text.now (length result.0.now) }
{
    text.split_at(text.floor_char_boundary(most))
}

/// The characters of a text in UTF-8, read from its start.
#[derive(Drop)]
pub struct Utf8Source<'a> {
    text: &'a str,
    rest: &'a str,
    read: usize,
    ghost sum: { read + length rest.now ≡ length text.now },
    ghost offset: { rest.now ≡ drop read text.now },
    ghost boundary: { IsCharBoundary text.now read },
}

impl<'a> Utf8Source<'a> {
    /// A source over the text, of which nothing is read yet.
    pub fn new(text: &'a str) -> Self
        ensures text { ⟦<Utf8Source<'a> as Source>⟧.all result ≡ text.now }
        ensures read { ⟦<Utf8Source<'a> as Source>⟧.offset result ≡ 0 }
    {
        Utf8Source {
            text,
            rest: text,
            read: 0,
        }
    }
}

impl<'a> Source for Utf8Source<'a> {
    ghost text = { chars };

    ghost IsBoundary = { IsCharBoundary };

    ghost is_units = { false };

    ghost all = { λ s. s.text.now };

    ghost offset = { λ s. s.read };

    #[inline(always)]
    fn peek(&self) -> Option<(char, usize)> {
        match first_char(self.rest) {
            Some((c, rest)) => Some((c, self.rest.len() - rest.len())),
            None => None,
        }
    }

    #[inline(always)]
    fn advance(&mut self) {
        if let Some((c, rest)) = first_char(self.rest) {
            self.rest = rest;
            self.read += c.len_utf8();
        }
    }

    #[inline(always)]
    fn advance_by(&mut self, len: usize) {
        let (_, rest) = self.rest.split_at(len);
        self.rest = rest;
        self.read += len;
    }

    #[inline(always)]
    fn is_second_ascii(&self) -> bool
        ensures { IsTrue result ↔ IsSecondAscii (drop self.now.read self.now.text.now) }
    {
        matches!(self.rest.as_bytes(), [_, b, ..] if *b < 0x80)
    }

    fn copy_ascii(&mut self, dst: &mut [u8]) -> usize {
        let (run, rest) = ascii_run(self.rest, dst.len());
        let count = run.len();
        dst[..count].copy_from_slice(run.as_bytes());
        self.rest = rest;
        self.read += count;
        count
    }

    fn copy_text(&mut self, dst: &mut [u8]) -> usize {
        let (text, rest) = whole_characters(self.rest, dst.len());
        let copied = text.len();
        dst[..copied].copy_from_slice(text.as_bytes());
        self.rest = rest;
        self.read += copied;
        copied
    }

    #[inline(always)]
    fn read(&self) -> usize {
        self.read
    }

    ghost within = { λ s. sum_within s.read (length s.rest.now) (length s.text.now) s.sum };
}

// The first character of units, and how many units it has. A surrogate in no pair gives U+FFFD.
#[inline(always)]
pub(crate) fn first_of_units(units: &[u16]) -> Option<(char, usize)>
    ensures value { MatchOption result (utf16_lossy_chars units.now ≡ [])
        (λ p. utf16_lossy_chars units.now ≡ p.0 ∷ utf16_lossy_chars (drop p.1 units.now)) }
    ensures within { IfSome result (λ p. p.1 ≤ length units.now) }
    ensures size { IfSome result (λ p. p.1 ≡ len_utf16 p.0) }
    ensures boundary { IfSome result (λ p. IsUnitBoundary units.now p.1) }
{
    if units.is_empty() {
        return None;
    }
    let u = units[0] as u32;
    if u < 0xd800 || u >= 0xe000 {
        return Some((scalar_of(u), 1));
    }
    if u < 0xdc00 && units.len() >= 2 {
        let v = units[1] as u32;
        if v >= 0xdc00 && v < 0xe000 {
            return Some((scalar_of(0x10000 + (u - 0xd800) * 0x400 + (v - 0xdc00)), 2));
        }
    }
    Some(('\u{fffd}', 1))
}

// Copies the run of ASCII at the start of units, as much of it as fits, and returns its length.
pub(crate) fn narrow_ascii(units: &[u16], dst: &mut [u8]) -> usize
    ensures within { result ≤ length units.now }
    ensures size { length dst.new ≡ length dst.old }
    ensures fits { result ≤ length dst.old }
    ensures behind { drop result dst.new ≡ drop result dst.old }
    ensures copied { take result dst.new ≡ take result units.now }
    ensures ascii { IsAscii (take result units.now) }
    ensures longest { result < length units.now → result < length dst.old → 0x80 ≤ slice_index units.now result }
{
    let end = units.len().min(dst.len());
    copy_basic_latin_to_ascii(&units[..end], dst)
}

/// The characters of units of UTF-16, read from their start. A surrogate in no pair is U+FFFD.
#[derive(Drop)]
pub struct Utf16Source<'a> {
    units: &'a [u16],
    offset: usize,
    ghost within: { offset ≤ length units.now },
    ghost boundary: { IsUnitBoundary units.now offset },
}

impl<'a> Utf16Source<'a> {
    /// A source over the units, of which none is read yet.
    pub fn new(units: &'a [u16]) -> Self
        ensures units { ⟦<Utf16Source<'a> as Source>⟧.all result ≡ units.now }
        ensures offset { ⟦<Utf16Source<'a> as Source>⟧.offset result ≡ 0 }
    {
        Utf16Source { units, offset: 0 }
    }
}

impl<'a> Source for Utf16Source<'a> {
    ghost text = { utf16_lossy_chars };

    ghost IsBoundary = { IsUnitBoundary };

    ghost is_units = { true };

    ghost all = { λ s. s.units.now };

    ghost offset = { λ s. s.offset };

    #[inline(always)]
    fn peek(&self) -> Option<(char, usize)> {
        first_of_units(&self.units[self.offset..])
    }

    #[inline(always)]
    fn advance(&mut self) {
        if let Some((_, n)) = first_of_units(&self.units[self.offset..]) {
            self.offset += n;
        }
    }

    #[inline(always)]
    fn advance_by(&mut self, len: usize) {
        self.offset += len;
    }

    #[inline(always)]
    fn is_second_ascii(&self) -> bool
        ensures { IsTrue result ↔ IsSecondAscii (drop self.now.offset self.now.units.now) }
    {
        matches!(&self.units[self.offset..], [_, unit, ..] if *unit < 0x80)
    }

    fn copy_ascii(&mut self, dst: &mut [u8]) -> usize {
        let count = narrow_ascii(&self.units[self.offset..], dst);
        self.offset += count;
        count
    }

    fn copy_text(&mut self, dst: &mut [u8]) -> usize {
        let (read, written) = convert_utf16_to_utf8_partial(&self.units[self.offset..], dst);
        self.offset += read;
        written
    }

    #[inline(always)]
    fn read(&self) -> usize {
        self.offset
    }

    ghost within = { λ s. s.within };
}
