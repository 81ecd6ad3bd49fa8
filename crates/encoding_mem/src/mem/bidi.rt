//! Whether a text may have to be laid out from right to left: a quick test that may say yes of a
//! text without such characters, and never says no of one with them.

ghost use Rattle.std.specs.Prelude.{◌≡◌, ◌↔◌, ◌<◌, IsTrue, false};
ghost use Rattle.std.specs.List.{list_any};
ghost use Rattle.std.specs.Str.{chars};
ghost use Rattle.encoding_mem.specs.Latin1.{AllLatin1, IsLatin1Text};
ghost use Rattle.encoding_mem.specs.Bidi.{is_bidi_bmp, is_bidi_char, is_bidi_unit, HasBidi};
ghost use Rattle.encoding_mem.specs.Bidi.{HasBidiUnit, IsBidiBytes};

use crate::mem::ascii_text::is_ascii;
use crate::mem::bidi_bytes::any_char_bidi;
use crate::mem::first::{first_byte_from, first_unit_from, vectors_of_units_below};
use crate::mem::latin1::is_str_latin1;
use crate::mem::latin1_bytes::is_latin1_text;

/// What a text is, for layout.
#[derive(Clone, Copy, Debug, PartialEq, Eq)]
pub enum Latin1Bidi {
    /// Each character is at most U+00FF.
    Latin1,
    /// Some character is above U+00FF, and none is written from right to left.
    LeftToRight,
    /// Some character may be written from right to left.
    Bidi,
}

/// Whether a character may be written from right to left, or is a control that begins such a run:
/// those of the Unicode bidirectional classes R and AL and the controls RLM, RLE, RLO and RLI. Taken
/// by blocks: U+0590 to U+08FF, U+200F, U+202B, U+202E, U+2067, U+FB1D to U+FDFF, U+FE70 to U+FEFE,
/// U+10800 to U+10FFF and U+1E800 to U+1EFFF.
pub fn is_char_bidi(c: char) -> bool
    ensures { IsTrue result ↔ IsTrue (is_bidi_char c) }
{
    let code = c as u32;
    if code < 0x1_0000 {
        is_code_bidi(code)
    } else {
        code >= 0x1_0800 && code <= 0x1_0FFF || code >= 0x1_E800 && code <= 0x1_EFFF
    }
}

// Whether a character below U+10000 may be written from right to left. Most are below U+0590, or
// between the controls and the presentation forms: two tests are enough for these.
#[inline(always)]
fn is_code_bidi(code: u32) -> bool
    ensures { result ≡ is_bidi_bmp code }
{
    if code < 0x590 || code > 0x2067 && code < 0xFB1D {
        return false;
    }
    code <= 0x8FF
        || code == 0x200F
        || code == 0x202B
        || code == 0x202E
        || code == 0x2067
        || code >= 0xFB1D && code <= 0xFDFF
        || code >= 0xFE70 && code <= 0xFEFE
}

/// Whether a unit of UTF-16 is a character of which `is_char_bidi` holds, or a high surrogate with
/// which one of those above U+FFFF is written: D802, D803, D83A or D83B.
pub fn is_utf16_code_unit_bidi(unit: u16) -> bool
    ensures { IsTrue result ↔ IsTrue (is_bidi_unit unit) }
{
    is_unit_bidi(unit)
}

// In UTF-8 each character below U+0580 is written with bytes below this one.
const ABOVE_ARMENIAN: u8 = 0xD6;

/// Whether `is_char_bidi` holds of some character of the text.
pub fn is_str_bidi(text: &str) -> bool
    ensures { IsTrue result ↔ HasBidi (chars text.now) }
{
    let (_, rest) = text.split_at(first_byte_from(text.as_bytes(), ABOVE_ARMENIAN));
    any_char_bidi(rest)
}

/// Whether `is_char_bidi` holds of some character of the bytes, as UTF-8, or they are not
/// well-formed.
pub fn is_utf8_bidi(bytes: &[u8]) -> bool
    ensures { IsTrue result ↔ IsBidiBytes bytes.now }
{
    // ASCII is read once.
    if is_ascii(bytes) {
        return false;
    }
    // Latin1 needs none of the tables that the test of UTF-8 sets up.
    if is_latin1_text(bytes) {
        return false;
    }
    match simdutf8::compat::from_utf8(bytes) {
        Ok(text) => is_str_bidi(text),
        Err(_) => true,
    }
}

// How many units are tested at a time, without a look at which of them is found.
const BLOCK: usize = 16;

// Where the Hebrew block begins. No unit below it is one.
const HEBREW: u16 = 0x590;

// `is_utf16_code_unit_bidi` without a branch, so that the compiler tests several units by one
// vector.
#[inline(always)]
fn is_unit_bidi(unit: u16) -> bool
    ensures { result ≡ is_bidi_unit unit }
{
    (unit >= 0x590) & (unit <= 0x8FF)
        | (unit == 0x200F)
        | (unit == 0x202B)
        | (unit == 0x202E)
        | (unit == 0x2067)
        | (unit >= 0xFB1D) & (unit <= 0xFDFF)
        | (unit >= 0xFE70) & (unit <= 0xFEFE)
        | (unit >= 0xD802) & (unit <= 0xD803)
        | (unit >= 0xD83A) & (unit <= 0xD83B)
}

// Whether a unit is in one of the four ranges in which those of `is_unit_bidi` lie, without a
// branch.
#[inline(always)]
fn is_near_bidi(unit: u16) -> bool
    ensures { IsTrue (is_bidi_unit unit) → IsTrue result }
{
    (unit >= 0x590) & (unit <= 0x8FF)
        | (unit >= 0x200F) & (unit <= 0x2067)
        | (unit >= 0xD802) & (unit <= 0xD83B)
        | (unit >= 0xFB1D) & (unit <= 0xFEFE)
}

// Whether some unit is not below the Hebrew block, each of them tested.
#[inline(always)]
fn any_from_hebrew(units: &[u16]) -> bool
    ensures { result ≡ false → list_any is_bidi_unit units.now ≡ false }
{
    let mut any = false;
    for unit in units {
        any |= *unit >= HEBREW;
    }
    any
}

// Whether some unit is in one of the four ranges, each of them tested.
#[inline(always)]
fn any_near_bidi(units: &[u16]) -> bool
    ensures { result ≡ false → list_any is_bidi_unit units.now ≡ false }
{
    let mut any = false;
    for unit in units {
        any |= is_near_bidi(*unit);
    }
    any
}

// Whether some unit is, each of them tested.
#[inline(always)]
fn any_bidi_in(units: &[u16]) -> bool
    ensures { result ≡ list_any is_bidi_unit units.now }
{
    // Letters of the basic plane that are written from left to right, and Chinese characters, are
    // in none of the four ranges, which are tested faster.
    if !any_near_bidi(units) {
        return false;
    }
    let mut any = false;
    for unit in units {
        any |= is_unit_bidi(*unit);
    }
    any
}

// Whether some unit may be of a character that is written from right to left, for units that may
// all be below the Hebrew block: that is tested first.
#[inline(always)]
fn any_bidi_in_rest(units: &[u16]) -> bool
    ensures { result ≡ list_any is_bidi_unit units.now }
{
    any_from_hebrew(units) && any_bidi_in(units)
}

fn any_unit_bidi(units: &[u16]) -> bool
    ensures { result ≡ list_any is_bidi_unit units.now }
{
    let mut at = vectors_of_units_below(units, HEBREW);
    'wide: while units.len() - at >= BLOCK {
        if any_bidi_in(&units[at..at + BLOCK]) {
            return true;
        }
        at += BLOCK;
    }
    if at == units.len() {
        return false;
    }
    // The last block may begin within what was tested.
    if units.len() >= BLOCK {
        return any_bidi_in_rest(&units[units.len() - BLOCK..]);
    }
    any_bidi_in_rest(&units[at..])
}

/// Whether `is_utf16_code_unit_bidi` holds of some unit: in well-formed UTF-16, whether
/// `is_char_bidi` holds of some character. A lone high surrogate counts as if its pair were whole.
pub fn is_utf16_bidi(units: &[u16]) -> bool
    ensures { IsTrue result ↔ HasBidiUnit units.now }
{
    any_unit_bidi(units)
}

/// `Latin1` if `is_str_latin1` holds of the text, `Bidi` if `is_str_bidi` does, and else
/// `LeftToRight`.
pub fn check_str_for_latin1_and_bidi(text: &str) -> Latin1Bidi
    ensures latin1 { (result ≡ Latin1Bidi.Latin1) ↔ AllLatin1 (chars text.now) }
    ensures bidi { (result ≡ Latin1Bidi.Bidi) ↔ HasBidi (chars text.now) }
{
    if is_str_latin1(text) {
        Latin1Bidi::Latin1
    } else if is_str_bidi(text) {
        Latin1Bidi::Bidi
    } else {
        Latin1Bidi::LeftToRight
    }
}

/// `Latin1` if `is_utf8_latin1` holds of the bytes, `Bidi` if `is_utf8_bidi` does, even if they are
/// not well-formed, and else `LeftToRight`.
pub fn check_utf8_for_latin1_and_bidi(bytes: &[u8]) -> Latin1Bidi
    ensures latin1 { (result ≡ Latin1Bidi.Latin1) ↔ IsLatin1Text bytes.now }
    ensures bidi { (result ≡ Latin1Bidi.Bidi) ↔ IsBidiBytes bytes.now }
{
    // ASCII is read once.
    if is_ascii(bytes) {
        return Latin1Bidi::Latin1;
    }
    if is_latin1_text(bytes) {
        return Latin1Bidi::Latin1;
    }
    match simdutf8::compat::from_utf8(bytes) {
        Ok(text) => check_str_for_latin1_and_bidi(text),
        Err(_) => Latin1Bidi::Bidi,
    }
}

/// `Latin1` if `is_utf16_latin1` holds of the units, `Bidi` if `is_utf16_bidi` does, and else
/// `LeftToRight`.
pub fn check_utf16_for_latin1_and_bidi(units: &[u16]) -> Latin1Bidi
    ensures latin1 { (result ≡ Latin1Bidi.Latin1) ↔ AllLatin1 units.now }
    ensures bidi { (result ≡ Latin1Bidi.Bidi) ↔ HasBidiUnit units.now }
{
    let low = first_unit_from(units, 0x100);
    if low == units.len() {
        Latin1Bidi::Latin1
    } else if any_unit_bidi(&units[low..]) {
        Latin1Bidi::Bidi
    } else {
        Latin1Bidi::LeftToRight
    }
}
