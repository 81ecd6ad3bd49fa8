//! The run of ASCII at the start of some bytes, and when it is worth a copy.

ghost use Rattle.std.specs.Prelude.{◌≡◌, ◌<◌, ◌≤◌, length, take, slice_index};
ghost use Rattle.std.specs.Str.{IsAscii};

use crate::mem::first::first_byte_from;

/// The longest run of ASCII at the start of these bytes, as text; it may be empty.
pub fn ascii_prefix(bytes: &[u8]) -> &str
    ensures prefix { result.now ≡ take (length result.now) bytes.now }
    ensures ascii { IsAscii result.now }
    ensures longest { length result.now < length bytes.now → 0x80 ≤ slice_index bytes.now (length result.now) }
{
    let end = first_byte_from(bytes, 0x80);
    unsafe { std::str::from_utf8_unchecked(&bytes[..end]) }
}

/// The run of ASCII at the start of these bytes, at most `most` of it, if the first two bytes are
/// ASCII, and else an empty text: what `text_at` of a rule returns in which each ASCII byte is
/// itself. A run of one byte is cheaper as a character.
#[inline(always)]
pub fn longer_ascii_prefix(bytes: &[u8], most: usize) -> &str
    ensures prefix { result.now ≡ take (length result.now) bytes.now }
    ensures few { length result.now ≤ most }
    ensures ascii { IsAscii result.now }
    ensures some { 2 ≤ length bytes.now → 2 ≤ most → slice_index bytes.now 0 < 0x80
        → slice_index bytes.now 1 < 0x80 → 2 ≤ length result.now }
    ensures begins { 0 < length result.now → 2 ≤ length bytes.now
        × slice_index bytes.now 0 < 0x80 × slice_index bytes.now 1 < 0x80 }
    ensures longest { 0 < length result.now → length result.now < length bytes.now
        → length result.now < most → 0x80 ≤ slice_index bytes.now (length result.now) }
{
    match bytes {
        [a, b, ..] if *a < 0x80 && *b < 0x80 => ascii_prefix(&bytes[..bytes.len().min(most)]),
        _ => "",
    }
}
