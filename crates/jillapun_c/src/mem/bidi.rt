//! Right-to-left text: quick checks, which may return true for a text without right-to-left
//! characters, and never return false for one with them.

ghost use Rattle.std.specs.Prelude.{◌≡◌, ◌↔◌, ◌≤◌, IsTrue};
ghost use Rattle.encoding_mem.specs.Bidi.{HasBidiUnit, IsBidiBytes, is_bidi_char, is_bidi_unit};
ghost use Rattle.encoding_mem.specs.Latin1.{AllLatin1, IsLatin1Text};

use crate::status::{BIDI, LATIN1, LEFT_TO_RIGHT};
use encoding_mem::Latin1Bidi;

/// Returns whether a character, given as its code point, is in a block of right-to-left characters
/// or is a control that begins a right-to-left run: U+0590 to U+08FF, U+200F, U+202B, U+202E,
/// U+2067, U+FB1D to U+FDFF, U+FE70 to U+FEFE, U+10800 to U+10FFF and U+1E800 to U+1EFFF. False for
/// all other numbers.
#[unsafe(no_mangle)]
pub extern "C" fn jillapun_mem_is_char_bidi(c: u32) -> bool
    ensures { IsTrue result ↔ IsTrue (is_bidi_char c) }
{
    match char::from_u32(c) {
        Some(c) => encoding_mem::is_char_bidi(c),
        None => false,
    }
}

/// Returns whether a UTF-16 code unit is a character for which `jillapun_mem_is_char_bidi` returns
/// true, or the high surrogate of some such character: 0xD802, 0xD803, 0xD83A or 0xD83B.
#[unsafe(no_mangle)]
pub extern "C" fn jillapun_mem_is_utf16_code_unit_bidi(u: u16) -> bool
    ensures { IsTrue result ↔ IsTrue (is_bidi_unit u) }
{
    encoding_mem::is_utf16_code_unit_bidi(u)
}

/// Returns whether some character is one for which `jillapun_mem_is_char_bidi` returns true, or the
/// bytes are not UTF-8.
#[unsafe(no_mangle)]
pub extern "C" fn jillapun_mem_is_utf8_bidi(buffer: &[u8]) -> bool
    ensures { IsTrue result ↔ IsBidiBytes buffer.now }
{
    encoding_mem::is_utf8_bidi(buffer)
}

/// The same as `jillapun_mem_is_utf8_bidi`.
#[unsafe(no_mangle)]
pub extern "C" fn jillapun_mem_is_str_bidi(buffer: &[u8]) -> bool
    ensures { IsTrue result ↔ IsBidiBytes buffer.now }
{
    encoding_mem::is_utf8_bidi(buffer)
}

/// Returns whether `jillapun_mem_is_utf16_code_unit_bidi` returns true for some code unit. An
/// unpaired high surrogate counts as if it were paired.
#[unsafe(no_mangle)]
pub extern "C" fn jillapun_mem_is_utf16_bidi(buffer: &[u16]) -> bool
    ensures { IsTrue result ↔ HasBidiUnit buffer.now }
{
    encoding_mem::is_utf16_bidi(buffer)
}

// The number of an answer.
fn code_of(answer: Latin1Bidi) -> u32
    ensures latin1 { (result ≡ LATIN1) ↔ (answer ≡ Latin1Bidi.Latin1) }
    ensures bidi { (result ≡ BIDI) ↔ (answer ≡ Latin1Bidi.Bidi) }
    ensures known { result ≤ BIDI }
{
    match answer {
        Latin1Bidi::Latin1 => LATIN1,
        Latin1Bidi::LeftToRight => LEFT_TO_RIGHT,
        Latin1Bidi::Bidi => BIDI,
    }
}

/// Returns `LATIN1` if `jillapun_mem_is_utf8_latin1` returns true, `BIDI` if
/// `jillapun_mem_is_utf8_bidi` does, as for bytes that are not UTF-8, else `LEFT_TO_RIGHT`.
#[unsafe(no_mangle)]
pub extern "C" fn jillapun_mem_check_utf8_for_latin1_and_bidi(buffer: &[u8]) -> u32
    ensures latin1 { (result ≡ LATIN1) ↔ IsLatin1Text buffer.now }
    ensures bidi { (result ≡ BIDI) ↔ IsBidiBytes buffer.now }
    ensures known { result ≤ BIDI }
{
    code_of(encoding_mem::check_utf8_for_latin1_and_bidi(buffer))
}

/// The same as `jillapun_mem_check_utf8_for_latin1_and_bidi`.
#[unsafe(no_mangle)]
pub extern "C" fn jillapun_mem_check_str_for_latin1_and_bidi(buffer: &[u8]) -> u32
    ensures latin1 { (result ≡ LATIN1) ↔ IsLatin1Text buffer.now }
    ensures bidi { (result ≡ BIDI) ↔ IsBidiBytes buffer.now }
    ensures known { result ≤ BIDI }
{
    code_of(encoding_mem::check_utf8_for_latin1_and_bidi(buffer))
}

/// Returns `LATIN1` if `jillapun_mem_is_utf16_latin1` returns true, `BIDI` if
/// `jillapun_mem_is_utf16_bidi` does, else `LEFT_TO_RIGHT`.
#[unsafe(no_mangle)]
pub extern "C" fn jillapun_mem_check_utf16_for_latin1_and_bidi(buffer: &[u16]) -> u32
    ensures latin1 { (result ≡ LATIN1) ↔ AllLatin1 buffer.now }
    ensures bidi { (result ≡ BIDI) ↔ HasBidiUnit buffer.now }
    ensures known { result ≤ BIDI }
{
    code_of(encoding_mem::check_utf16_for_latin1_and_bidi(buffer))
}
