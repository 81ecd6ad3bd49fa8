//! ASCII, in bytes and in units.

ghost use Rattle.std.specs.Prelude.{◌↔◌, ℕ, ◌<◌, IsTrue, length, slice_index};
ghost use Rattle.std.specs.Str.{IsAscii};
ghost use Rattle.encoding_mem.specs.LongestPrefix.{IsLongestPrefix};
ghost use Rattle.encoding_mem.specs.Iso2022JpAscii.{IsIso2022JpAscii, IsIso2022JpAsciiByte};

use crate::mem::first::{first_byte_from, first_unit_from};

/// Whether each byte is ASCII: below 80 hex.
pub fn is_ascii(bytes: &[u8]) -> bool
    ensures { IsTrue result ↔ IsAscii bytes.now }
{
    bytes.is_ascii()
}

/// Whether each unit of UTF-16 is below 80 hex: all is in Basic Latin, Unicode's block of the ASCII
/// characters.
pub fn is_basic_latin(units: &[u16]) -> bool
    ensures { IsTrue result ↔ IsAscii units.now }
{
    first_unit_from(units, 0x80) == units.len()
}

/// The length in bytes of the longest prefix that is ASCII: it ends before the first byte from 80
/// hex on.
pub fn ascii_valid_up_to(bytes: &[u8]) -> usize
    ensures { IsLongestPrefix IsAscii bytes.now result }
{
    first_byte_from(bytes, 0x80)
}

/// The length in bytes of the longest prefix that ISO-2022-JP, at the start of an input, reads as
/// ASCII: it ends before the first 0E, 0F, 1B or byte from 80 hex on (the Encoding Standard,
/// section 12.2.1).
pub fn iso_2022_jp_ascii_valid_up_to(bytes: &[u8]) -> usize
    ensures { IsLongestPrefix IsIso2022JpAscii bytes.now result }
{
    let mut at = 0;
    'wide: while bytes.len() - at >= BLOCK && are_iso_2022_jp_ascii(&bytes[at..at + BLOCK]) {
        at += BLOCK;
    }
    'bytes: while at < bytes.len() && is_iso_2022_jp_ascii(bytes[at]) {
        at += 1;
    }
    at
}

// How many bytes are tested at a time, without a look at which of them is another.
const BLOCK: usize = 64;

// Without a branch, so that the compiler tests several bytes by one vector.
#[inline(always)]
fn is_iso_2022_jp_ascii(byte: u8) -> bool
    ensures { IsTrue result ↔ IsIso2022JpAsciiByte byte }
{
    (byte < 0x80) & (byte != 0x0E) & (byte != 0x0F) & (byte != 0x1B)
}

// Whether each byte is one.
#[inline(always)]
fn are_iso_2022_jp_ascii(bytes: &[u8]) -> bool
    ensures { IsTrue result → (k : ℕ) → k < length bytes.now
        → IsIso2022JpAsciiByte (slice_index bytes.now k) }
{
    let mut all = true;
    for byte in bytes {
        all &= is_iso_2022_jp_ascii(*byte);
    }
    all
}
