//! Well-formed UTF-8 and UTF-16.

ghost use Rattle.std.specs.Prelude.{◌↔◌, ◌<◌, IsTrue, length};
ghost use Rattle.std.specs.Str.{IsUtf8};
ghost use Rattle.encoding_mem.specs.LongestPrefix.{IsLongestPrefix};
ghost use Rattle.encoding_mem.specs.Surrogates.{IsHighSurrogate, IsLowSurrogate, IsLoneSurrogate};
ghost use Rattle.encoding_mem.specs.Surrogates.{IsUtf16, IsMended};

use crate::mem::ascii_text::is_ascii;
use crate::mem::first::first_unit_from;
use crate::mem::latin1_bytes::is_latin1_text;

/// The length in bytes of the longest prefix that is well-formed UTF-8 (RFC 3629): it ends before
/// the first byte of the first malformed sequence. If it is the length of the bytes, they are text:
/// the test of the condition of calls into text.
pub fn utf8_valid_up_to(bytes: &[u8]) -> usize
    ensures { IsLongestPrefix IsUtf8 bytes.now result }
{
    // ASCII needs none of the tables that the other test sets up.
    if is_ascii(bytes) {
        return bytes.len();
    }
    // Nor does Latin1.
    if is_latin1_text(bytes) {
        return bytes.len();
    }
    match simdutf8::compat::from_utf8(bytes) {
        Ok(text) => text.len(),
        Err(e) => e.valid_up_to(),
    }
}

fn is_high_surrogate(unit: u16) -> bool
    ensures { IsTrue result ↔ IsHighSurrogate unit }
{
    unit >= 0xD800 && unit <= 0xDBFF
}

fn is_low_surrogate(unit: u16) -> bool
    ensures { IsTrue result ↔ IsLowSurrogate unit }
{
    unit >= 0xDC00 && unit <= 0xDFFF
}

// Whether the unit there is a surrogate with no partner.
fn is_lone_surrogate(units: &[u16], at: usize) -> bool
    requires { at < length units.now }
    ensures { IsTrue result ↔ IsLoneSurrogate units.now at }
{
    let unit = units[at];
    if is_high_surrogate(unit) {
        at + 1 == units.len() || !is_low_surrogate(units[at + 1])
    } else if is_low_surrogate(unit) {
        at == 0 || !is_high_surrogate(units[at - 1])
    } else {
        false
    }
}

/// The length in units of the longest prefix that is well-formed UTF-16: it ends before the first
/// surrogate in no pair.
pub fn utf16_valid_up_to(units: &[u16]) -> usize
    ensures { IsLongestPrefix IsUtf16 units.now result }
{
    let mut at = first_unit_from(units, 0xD800);
    'units: while at < units.len() && !is_lone_surrogate(units, at) {
        at += 1;
    }
    at
}

/// Puts U+FFFD in place of each surrogate in no pair, and leaves all other units as they are.
pub fn ensure_utf16_validity(units: &mut [u16])
    ensures mended { IsMended units.old units.new }
    ensures valid { IsUtf16 units.new }
{
    let mut at = utf16_valid_up_to(units);
    'units: while at < units.len() {
        if is_lone_surrogate(units, at) {
            units[at] = 0xFFFD;
        }
        at += 1;
    }
}
