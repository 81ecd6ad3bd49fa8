//! Blocks of UTF-16, and shorter runs, in UTF-8, where there is room for whatever they are.

ghost use Rattle.std.specs.Prelude.{◌≡◌, ℕ, ◌*◌, ◌<◌, ◌≤◌, [], ◌∷◌};
ghost use Rattle.std.specs.Prelude.{length, take, drop, slice_index};
ghost use Rattle.std.specs.Char.{encode_utf8, len_utf8};
ghost use Rattle.std.specs.Str.{encode_utf8_all};
ghost use Rattle.encoding_mem.specs.Conversions.{IsUnitBoundary, units_in_utf8};
ghost use Rattle.encoding_mem.specs.calls.Writing.{Adds};

use crate::codec::sink::Sink;
use crate::codec::source::first_of_units;
use crate::codec::utf8_sink::Utf8Sink;
use crate::mem::ascii_copies::{narrow_block, narrow_lanes};
use crate::mem::first::{UNIT_BLOCK, UNIT_LANES, all_units_below};
use std::simd::prelude::*;

// Where fewer units than this are left, those that are not all ASCII go by smaller vectors: a short
// text is not worth another test of a whole block.
const MANY: usize = 64;

// The UTF-8 of a unit below D800 hex, and in the fourth byte its length. Between them stand bytes
// without a meaning.
#[inline(always)]
fn quad_of(unit: u16) -> [u8; 4]
    requires { unit < 0xD800 }
    ensures length { slice_index result 3 ≡ len_utf8 unit }
    ensures bytes { take (slice_index result 3) result ≡ encode_utf8 unit }
{
    let is_two = unit >= 0x80;
    let is_three = unit >= 0x800;
    let short = if is_two { 0xC0 + unit / 64 } else { unit };
    let lead = if is_three { 0xE0 + unit / 4096 } else { short };
    let middle = if is_three { unit / 64 } else { unit };
    [
        lead as u8,
        (0x80 + middle % 64) as u8,
        (0x80 + unit % 64) as u8,
        is_two as u8 + is_three as u8 + 1,
    ]
}

// Puts a unit below D800 hex at the start, and returns its length.
#[inline(always)]
fn put_unit(unit: u16, dst: &mut [u8]) -> usize
    requires plain { unit < 0xD800 }
    requires room { 3 ≤ length dst.old }
    ensures adds { Adds dst.old 0 (encode_utf8_all (unit ∷ [])) dst.new result }
    ensures some { 1 ≤ result }
    ensures few { result ≤ 3 }
{
    let [lead, middle, last, len] = quad_of(unit);
    // The last byte first: what a shorter character has not is written over.
    dst[len as usize - 1] = last;
    dst[len as usize / 2] = middle;
    dst[0] = lead;
    len as usize
}

// Puts so many units at the start, each below D800 hex, and returns how many bytes they have.
#[inline(always)]
fn put_each(units: &[u16], count: usize, dst: &mut [u8]) -> usize
    requires units { count ≤ length units.now }
    requires room { 3 * count ≤ length dst.old }
    requires low { (k : ℕ) → k < count → slice_index units.now k < 0xD800 }
    ensures boundary { IsUnitBoundary units.now count }
    ensures many { count ≤ result }
    ensures fits { result ≤ length dst.new }
    ensures text { take result dst.new ≡ units_in_utf8 (take count units.now) }
    ensures behind { drop result dst.new ≡ drop result dst.old }
{
    let mut read = 0;
    let mut written = 0;
    'units: while read < count {
        written += put_unit(units[read], &mut dst[written..]);
        read += 1;
    }
    written
}

// Puts a block of units below D800 hex at the start, and returns how many bytes they have. The
// first loop is one that the compiler turns into vectors. The second stores four bytes for each
// unit, so that no branch asks how many it has: the next ones are written over what it has not.
#[inline(always)]
fn put_plain_block(units: &[u16], dst: &mut [u8]) -> usize
    requires units { 32 ≤ length units.now }
    requires room { 96 ≤ length dst.old }
    requires plain { (k : ℕ) → k < 32 → slice_index units.now k < 0xD800 }
    ensures boundary { IsUnitBoundary units.now 32 }
    ensures fits { result ≤ length dst.new }
    ensures text { take result dst.new ≡ units_in_utf8 (take 32 units.now) }
    ensures behind { drop result dst.new ≡ drop result dst.old }
{
    let mut quads = [[0; 4]; UNIT_BLOCK];
    let mut at = 0;
    'quads: while at < UNIT_BLOCK {
        // By its bytes, of which the compiler makes vectors.
        let [lead, middle, last, len] = quad_of(units[at]);
        quads[at] = [lead, middle, last, len];
        at += 1;
    }
    let mut read = 0;
    let mut written = 0;
    'units: while read < UNIT_BLOCK - 3 {
        let quad = quads[read];
        dst[written..written + 4].copy_from_slice(&quad);
        written += quad[3] as usize;
        read += 1;
    }
    // Nothing is written over what stands behind the last three, which have three bytes or more.
    written += put_each(&units[read..], 3, &mut dst[written..]);
    written
}

// Puts at most a block of units below D800 hex at the start, by the way that is fastest for them,
// and returns how many bytes they have.
#[inline(always)]
pub(crate) fn put_plain_units(units: &[u16], dst: &mut [u8]) -> usize
    requires few { length units.now ≤ 32 }
    requires room { 96 ≤ length dst.old }
    requires plain { (k : ℕ) → slice_index units.now k < 0xD800 }
    ensures fits { result ≤ length dst.new }
    ensures text { take result dst.new ≡ units_in_utf8 units.now }
    ensures behind { drop result dst.new ≡ drop result dst.old }
{
    if units.len() < UNIT_BLOCK {
        put_each(units, units.len(), dst)
    } else if narrow_block(units, dst) {
        UNIT_BLOCK
    } else {
        put_plain_block(units, dst)
    }
}

// Puts a character at the start, and returns its length. The sink lives for one step, so that a
// loop's offsets stay in registers.
#[inline(always)]
pub(crate) fn put_char(c: char, dst: &mut [u8]) -> usize
    requires { len_utf8 c ≤ length dst.old }
    ensures { Adds dst.old 0 (encode_utf8_all (c ∷ [])) dst.new result }
{
    let mut sink = Utf8Sink::new(dst);
    sink.put(c);
    sink.written()
}

// Puts the characters behind a run of ASCII, whose bytes are put already, until so many units are
// read, or one more where the last of them is the first of a pair: its four bytes are one more than
// three a unit. Returns how many units were read and how many bytes were written, with the run.
#[inline(always)]
pub(crate) fn put_chars(units: &[u16], run: usize, end: usize, dst: &mut [u8]) -> (usize, usize)
    requires units { end ≤ length units.now }
    requires run { run ≤ end }
    requires ascii { (k : ℕ) → k < run → slice_index units.now k < 0x80 }
    requires put { take run dst.old ≡ take run units.now }
    requires room { 3 * end ≤ length dst.old }
    requires more_room { end < length units.now → 3 * end < length dst.old }
    ensures reaches { end ≤ result.0 }
    ensures within { result.0 ≤ length units.now }
    ensures boundary { IsUnitBoundary units.now result.0 }
    ensures fits { result.1 ≤ length dst.new }
    ensures many { result.0 ≤ result.1 }
    ensures text { take result.1 dst.new ≡ units_in_utf8 (take result.0 units.now) }
    ensures behind { drop result.1 dst.new ≡ drop result.1 dst.old }
{
    let mut read = run;
    let mut written = run;
    'characters: while read < end {
        let unit = units[read];
        if unit < 0x80 {
            dst[written] = unit as u8;
            written += 1;
            read += 1;
            continue;
        }
        let (c, count) = match first_of_units(&units[read..]) {
            Some(first) => first,
            None => unreachable!(),
        };
        written += put_char(c, &mut dst[written..]);
        read += count;
    }
    (read, written)
}

// Writes a vector of units in UTF-8 to the start of `dst`, and one more where it ends inside a
// pair. Returns how many units were read and how many bytes were written.
#[inline(always)]
pub(crate) fn put_lanes(units: &[u16], dst: &mut [u8]) -> (usize, usize)
    requires units { 8 ≤ length units.now }
    requires room { 32 ≤ length dst.old }
    ensures some { 0 < result.0 }
    ensures within { result.0 ≤ length units.now }
    ensures boundary { IsUnitBoundary units.now result.0 }
    ensures fits { result.1 ≤ length dst.new }
    ensures text { take result.1 dst.new ≡ units_in_utf8 (take result.0 units.now) }
    ensures behind { drop result.1 dst.new ≡ drop result.1 dst.old }
{
    // What stands behind the run is written over, since no unit has less than a byte.
    let run = narrow_lanes(units, dst);
    put_chars(units, run, UNIT_LANES, dst)
}

// Writes a block of units in UTF-8 to the start of `dst`, or a vector of them where few are left,
// and one more where this ends inside a pair. Returns how many units were read and how many bytes
// were written.
#[inline(always)]
pub(crate) fn put_block(units: &[u16], dst: &mut [u8]) -> (usize, usize)
    requires units { 32 ≤ length units.now }
    requires room { 128 ≤ length dst.old }
    ensures some { 0 < result.0 }
    ensures within { result.0 ≤ length units.now }
    ensures boundary { IsUnitBoundary units.now result.0 }
    ensures fits { result.1 ≤ length dst.new }
    ensures text { take result.1 dst.new ≡ units_in_utf8 (take result.0 units.now) }
    ensures behind { drop result.1 dst.new ≡ drop result.1 dst.old }
{
    if narrow_block(units, dst) {
        return (UNIT_BLOCK, UNIT_BLOCK);
    }
    if units.len() < MANY {
        return put_lanes(units, dst);
    }
    if all_units_below(u16x32::from_slice(units), 0xD800) {
        return (UNIT_BLOCK, put_plain_block(units, dst));
    }
    put_chars(units, 0, UNIT_BLOCK, dst)
}
