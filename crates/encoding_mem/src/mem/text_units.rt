//! Text in units of UTF-16, by runs of characters of one length in bytes.

ghost use Rattle.std.specs.Prelude.{◌≡◌, ℕ, ◌+◌, ◌-◌, ◌*◌, ◌/◌, ◌<◌, ◌≤◌, List, ◌++◌};
ghost use Rattle.std.specs.Prelude.{length, drop, slice_index, take};
ghost use Rattle.std.specs.Char.Escape.{encode_utf16};
ghost use Rattle.std.specs.Char.{encode_utf8};
ghost use Rattle.std.specs.Str.{IsCharBoundary};
ghost use Rattle.encoding_mem.specs.calls.TextUnits.{IsInUnits, size_from_lead};
ghost use Rattle.encoding_mem.specs.calls.Writing.{len_utf16};

use crate::codec::source::first_char;
use crate::mem::first::{BYTE_LANES, first_byte_from, is_long_run, lanes_below};
use crate::mem::latin1_conversions::convert_latin1_to_utf16;
use std::simd::prelude::*;

/// How many bytes the character has that this byte begins.
#[inline(always)]
pub(crate) fn size_of_lead(lead: u8) -> usize
    ensures { result ≡ size_from_lead lead }
{
    if lead < 0x80 {
        1
    } else if lead < 0xE0 {
        2
    } else if lead < 0xF0 {
        3
    } else {
        4
    }
}

// The unit of the character at an offset, which has so many bytes.
#[inline(always)]
fn unit_at(text: &str, at: usize, size: usize) -> u16
    requires boundary { IsCharBoundary text.now at }
    requires inside { at < length text.now }
    requires size { size_from_lead (slice_index text.now at) ≡ size }
    requires small { size < 4 }
    ensures { (c : ℕ) (rest : List ℕ) → drop at text.now ≡ encode_utf8 c ++ rest → result ≡ c }
{
    let bytes = text.as_bytes();
    let lead = bytes[at] as u16;
    if size == 1 {
        return lead;
    }
    let second = bytes[at + 1] as u16 % 64;
    if size == 2 {
        return lead % 32 * 64 + second;
    }
    lead % 16 * 4096 + second * 64 + bytes[at + 2] as u16 % 64
}

/// Puts the run of characters of so many bytes that begins at an offset, each of them one unit.
/// Returns the offsets after it. The size is a literal at each call, so that no loop asks for it.
#[inline(always)]
pub(crate) fn put_run(
    text: &str,
    at: usize,
    size: usize,
    dst: &mut [u16],
    to: usize,
) -> (usize, usize)
    requires so_far { IsInUnits text.now at dst.old to }
    requires inside { at < length text.now }
    requires size { size_from_lead (slice_index text.now at) ≡ size }
    requires small { size < 4 }
    ensures some { at < result.0 }
    ensures after { to ≤ result.1 }
    ensures dense { result.0 + 3 * to ≤ at + 3 * result.1 }
    ensures further { IsInUnits text.now result.0 dst.new result.1 }
    ensures behind { drop result.1 dst.new ≡ drop result.1 dst.old }
{
    let mut read = at;
    let mut written = to;
    'characters: while read < text.len() && size_of_lead(text.as_bytes()[read]) == size {
        dst[written] = unit_at(text, read, size);
        written += 1;
        read += size;
    }
    (read, written)
}

// Puts the ASCII at the start of a vector of bytes as units, and returns how many these are. The
// other lanes are stored too: so no branch asks how many they are.
#[inline(always)]
fn widen_lanes(bytes: &[u8], dst: &mut [u16]) -> usize
    requires bytes { 16 ≤ length bytes.now }
    requires room { 16 ≤ length dst.old }
    ensures within { result ≤ 16 }
    ensures low { (k : ℕ) → k < result → slice_index bytes.now k < 0x80 }
    ensures ends { result < 16 → 0x80 ≤ slice_index bytes.now result }
    ensures copied { take 16 dst.new ≡ take 16 bytes.now }
    ensures behind { drop 16 dst.new ≡ drop 16 dst.old }
{
    let lanes = u8x16::from_slice(bytes);
    lanes.cast::<u16>().copy_to_slice(dst);
    lanes_below(lanes, 0x80)
}

/// Puts ASCII that begins at an offset, and returns the offsets after it. Units after it may
/// change, one for every three bytes that are left: these have at least one unit, which is put over
/// it.
#[inline(always)]
pub(crate) fn put_ascii(text: &str, at: usize, dst: &mut [u16], to: usize) -> (usize, usize)
    requires so_far { IsInUnits text.now at dst.old to }
    requires inside { at < length text.now }
    requires ascii { slice_index text.now at < 0x80 }
    ensures some { at < result.0 }
    ensures after { to ≤ result.1 }
    ensures dense { result.0 + 3 * to ≤ at + 3 * result.1 }
    ensures further { IsInUnits text.now result.0 dst.new result.1 }
    ensures behind { let end = result.1 + (length text.now - result.0) / 3 in drop end dst.new ≡ drop end dst.old }
{
    let bytes = text.as_bytes();
    if is_long_run(&bytes[at..]) {
        let run = first_byte_from(&bytes[at..], 0x80);
        convert_latin1_to_utf16(&bytes[at..at + run], &mut dst[to..]);
        return (at + run, to + run);
    }
    // Of a vector that is not all ASCII all lanes are stored, if the text has units for them.
    if bytes.len() - at >= 3 * BYTE_LANES {
        let run = widen_lanes(&bytes[at..], &mut dst[to..]);
        return (at + run, to + run);
    }
    put_run(text, at, 1, dst, to)
}

// Puts the units of a character at an offset, if there is room for them, and returns the offset
// after them.
#[inline(always)]
fn put_char_units(dst: &mut [u16], at: usize, c: char) -> usize
    requires { at + len_utf16 c ≤ length dst.old }
    ensures end { result ≡ at + len_utf16 c }
    ensures prefix { take result dst.new ≡ take at dst.old ++ encode_utf16 c }
    ensures back { drop result dst.new ≡ drop result dst.old }
    ensures size { length dst.new ≡ length dst.old }
{
    let code = u32::from(c);
    if code < 0x1_0000 {
        dst[at] = code as u16;
        at + 1
    } else {
        let over = code - 0x1_0000;
        dst[at] = (0xD800 + over / 0x400) as u16;
        dst[at + 1] = (0xDC00 + over % 0x400) as u16;
        at + 2
    }
}

/// Puts the character at an offset, and returns the offsets after it.
#[inline(always)]
pub(crate) fn put_next(text: &str, at: usize, dst: &mut [u16], to: usize) -> (usize, usize)
    requires so_far { IsInUnits text.now at dst.old to }
    requires inside { at < length text.now }
    ensures some { at < result.0 }
    ensures after { to ≤ result.1 }
    ensures dense { result.0 + 3 * to ≤ at + 3 * result.1 }
    ensures further { IsInUnits text.now result.0 dst.new result.1 }
    ensures behind { drop result.1 dst.new ≡ drop result.1 dst.old }
{
    match first_char(&text[at..]) {
        Some((c, _)) => (at + c.len_utf8(), put_char_units(dst, to, c)),
        None => unreachable!(),
    }
}
