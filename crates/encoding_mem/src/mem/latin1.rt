//! Text of the characters U+0000 to U+00FF.

ghost use Rattle.std.specs.Prelude.{◌↔◌, IsTrue};
ghost use Rattle.std.specs.Str.{chars};
ghost use Rattle.encoding_mem.specs.Latin1.{AllLatin1, IsLatin1Text};
ghost use Rattle.encoding_mem.specs.LongestPrefix.{IsLongestPrefix};

use crate::mem::ascii_text::is_ascii;
use crate::mem::first::{first_byte_from, first_unit_from};
use crate::mem::latin1_bytes::is_latin1_text;
use crate::mem::validity::utf8_valid_up_to;

// In UTF-8 each character up to U+00FF is written with bytes below this one, and each character above
// begins with this one or a greater one.
const ABOVE_LATIN1: u8 = 0xC4;

/// Whether each character of the text is at most U+00FF: the test of the condition of
/// `encode_latin1_lossy`.
pub fn is_str_latin1(text: &str) -> bool
    ensures { IsTrue result ↔ AllLatin1 (chars text.now) }
{
    str_latin1_up_to(text) == text.len()
}

/// Whether the bytes are well-formed UTF-8 in which each character is at most U+00FF: the test of
/// the condition of `convert_utf8_to_latin1_lossy`.
pub fn is_utf8_latin1(bytes: &[u8]) -> bool
    ensures { IsTrue result ↔ IsLatin1Text bytes.now }
{
    utf8_latin1_up_to(bytes) == bytes.len()
}

/// Whether each unit of UTF-16 is at most FF hex.
pub fn is_utf16_latin1(units: &[u16]) -> bool
    ensures { IsTrue result ↔ AllLatin1 units.now }
{
    first_unit_from(units, 0x100) == units.len()
}

/// The length in bytes of the longest prefix of the text in which each character is at most U+00FF.
pub fn str_latin1_up_to(text: &str) -> usize
    ensures { IsLongestPrefix IsLatin1Text text.now result }
{
    first_byte_from(text.as_bytes(), ABOVE_LATIN1)
}

/// The length in bytes of the longest prefix that is well-formed UTF-8 in which each character is
/// at most U+00FF.
pub fn utf8_latin1_up_to(bytes: &[u8]) -> usize
    ensures { IsLongestPrefix IsLatin1Text bytes.now result }
{
    // ASCII is read once.
    if is_ascii(bytes) {
        return bytes.len();
    }
    if is_latin1_text(bytes) {
        return bytes.len();
    }
    let low = first_byte_from(bytes, ABOVE_LATIN1);
    utf8_valid_up_to(&bytes[..low])
}
