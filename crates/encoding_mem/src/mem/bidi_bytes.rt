//! Text from right to left, by its bytes.

ghost use Rattle.std.specs.Prelude.{◌≡◌, ℕ, ◌<◌, ◌≤◌, IsTrue, false, length, slice_index};
ghost use Rattle.std.specs.List.{list_any};
ghost use Rattle.std.specs.Str.{chars};
ghost use Rattle.encoding_mem.specs.Bidi.{is_bidi_char};
ghost use Rattle.encoding_mem.specs.BidiBytes.{is_bidi_bytes, is_bidi_at, is_bidi_lead};

use crate::mem::bidi::is_char_bidi;

// How many offsets are tested at a time, without a look at which of them is found.
const BLOCK: usize = 16;

// A text of fewer bytes does not have a whole block and two bytes after it, and is read character
// by character.
const SHORT: usize = BLOCK + 2;

// Whether a character from right to left begins with three bytes. It has no branch, so that the
// compiler tests several offsets by one vector.
#[inline(always)]
fn is_bidi_bytes(byte: u8, next: u8, after: u8) -> bool
    ensures { result ≡ is_bidi_bytes byte next after }
{
    let bytes = byte as u32 * 0x1_0000 + next as u32 * 0x100 + after as u32;
    (bytes >= 0xD6_9000) & (bytes <= 0xE0_A3FF)
        | (bytes == 0xE2_808F)
        | (bytes == 0xE2_80AB)
        | (bytes == 0xE2_80AE)
        | (bytes == 0xE2_81A7)
        | (bytes >= 0xEF_AC9D) & (bytes <= 0xEF_B7BF)
        | (bytes >= 0xEF_B9B0) & (bytes <= 0xEF_BBBE)
        | (bytes >= 0xF0_90A0) & (bytes <= 0xF0_90BF)
        | (bytes >= 0xF0_9EA0) & (bytes <= 0xF0_9EBF)
}

// Whether a character from right to left may begin with this byte, without a branch.
#[inline(always)]
fn is_bidi_lead(byte: u8) -> bool
    ensures { result ≡ is_bidi_lead byte }
{
    (byte >= 0xD6) & (byte <= 0xE0) | (byte == 0xE2) | (byte >= 0xEF) & (byte <= 0xF0)
}

// Whether one may begin with some of these bytes.
#[inline(always)]
fn any_bidi_lead(bytes: &[u8]) -> bool
    ensures { result ≡ list_any is_bidi_lead bytes.now }
{
    let mut any = false;
    for byte in bytes {
        any |= is_bidi_lead(*byte);
    }
    any
}

// Whether one begins at some of the first offsets.
#[inline(always)]
fn any_bidi_in(bytes: &[u8]) -> bool
    requires { 17 < length bytes.now }
    ensures none { result ≡ false → (k : ℕ) → k < 16 → is_bidi_at bytes.now k ≡ false }
    ensures some { IsTrue result → (k : ℕ) × IsTrue (is_bidi_at bytes.now k) }
{
    // Most Latin, Greek, Cyrillic, kana, Chinese and Korean letters have none of these bytes, and a
    // byte is tested faster than three.
    if !any_bidi_lead(&bytes[..BLOCK]) {
        return false;
    }
    let mut any = false;
    for i in 0..BLOCK {
        any |= is_bidi_bytes(bytes[i], bytes[i + 1], bytes[i + 2]);
    }
    any
}

// The byte at an offset, or 00 beyond the end.
#[inline(always)]
fn byte_at(bytes: &[u8], at: usize) -> u8
    ensures { result ≡ slice_index bytes.now at }
{
    if at < bytes.len() { bytes[at] } else { 0 }
}

// Whether one begins at an offset.
#[inline(always)]
fn is_bidi_at(bytes: &[u8], at: usize) -> bool
    requires { at < length bytes.now }
    ensures { result ≡ is_bidi_at bytes.now at }
{
    is_bidi_bytes(bytes[at], byte_at(bytes, at + 1), byte_at(bytes, at + 2))
}

// Whether one begins somewhere in bytes that are not short.
fn any_bidi_at(bytes: &[u8]) -> bool
    requires { 18 ≤ length bytes.now }
    ensures none { result ≡ false → (k : ℕ) → k < length bytes.now
        → is_bidi_at bytes.now k ≡ false }
    ensures some { IsTrue result → (k : ℕ) × IsTrue (is_bidi_at bytes.now k) }
{
    let mut at = 0;
    'wide: while bytes.len() - at > BLOCK + 1 {
        if any_bidi_in(&bytes[at..]) {
            return true;
        }
        at += BLOCK;
    }
    // The last block may begin within what was tested. It ends before the last two bytes.
    let last = bytes.len() - 2;
    if any_bidi_in(&bytes[last - BLOCK..]) {
        return true;
    }
    is_bidi_at(bytes, last) || is_bidi_at(bytes, last + 1)
}

// Whether some character of a text is written from right to left.
pub(crate) fn any_char_bidi(text: &str) -> bool
    ensures { result ≡ list_any is_bidi_char (chars text.now) }
{
    if text.len() < SHORT {
        return text.chars().any(|c| is_char_bidi(c));
    }
    any_bidi_at(text.as_bytes())
}
