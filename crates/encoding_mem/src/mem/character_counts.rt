//! How many characters a text has, in either form.

ghost use Rattle.std.specs.Prelude.{◌≡◌, count_by, length};
ghost use Rattle.std.specs.Char.Utf16.{utf16_lossy_chars};
ghost use Rattle.std.specs.Str.{chars};
ghost use Rattle.encoding_mem.specs.Characters.{begins_character};

use crate::codec::source::first_of_units;
use crate::mem::first::first_unit_from;
use std::simd::prelude::*;

/// How many characters a text has.
pub fn count_characters(text: &str) -> usize
    ensures { result ≡ length (chars text.now) }
{
    count_beginnings(text.as_bytes())
}

// How many bytes are looked at together.
const LANES: usize = 64;

// How many bytes of a vector begin a character: all of them if it is ASCII.
#[inline(always)]
fn beginnings_in(block: u8x64) -> usize
    ensures { result ≡ count_by begins_character block }
{
    let others = block.simd_ge(u8x64::splat(0x80)).to_bitmask();
    if others == 0 {
        return LANES;
    }
    let leads = block.simd_ge(u8x64::splat(0xC0)).to_bitmask();
    LANES - others.count_ones() as usize + leads.count_ones() as usize
}

// How many bytes begin a character, one by one.
fn count_singly(bytes: &[u8]) -> usize
    ensures { result ≡ count_by begins_character bytes.now }
{
    bytes.iter().filter(|b| **b < 0x80 || **b >= 0xC0).count()
}

// How many bytes begin a character, by vectors and then one by one.
fn count_beginnings(bytes: &[u8]) -> usize
    ensures { result ≡ count_by begins_character bytes.now }
{
    let mut at = 0;
    let mut count = 0;
    'vectors: while bytes.len() - at >= LANES {
        count += beginnings_in(u8x64::from_slice(&bytes[at..]));
        at += LANES;
    }
    count + count_singly(&bytes[at..])
}

/// How many characters units of UTF-16 have. A surrogate in no pair is one, since it is read as
/// U+FFFD.
pub fn count_in_units(units: &[u16]) -> usize
    ensures { result ≡ length (utf16_lossy_chars units.now) }
{
    let mut read = 0;
    let mut count = 0;
    // After each character a run without surrogates has a character for each unit.
    'characters: while let Some((_, size)) = first_of_units(&units[read..]) {
        read += size;
        let run = first_unit_from(&units[read..], 0xD800);
        read += run;
        count += 1 + run;
    }
    count
}
