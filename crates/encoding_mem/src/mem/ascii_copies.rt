//! Copies of the ASCII at the start.

ghost use Rattle.std.specs.Prelude.{◌≡◌, ℕ, ◌+◌, ◌-◌, ◌/◌, ◌<◌, ◌≤◌, IsTrue, length, take, drop};
ghost use Rattle.std.specs.Prelude.{slice_index};
ghost use Rattle.std.specs.Str.{IsAscii};
ghost use Rattle.encoding_mem.specs.LongestPrefix.{IsLongestPrefix};

use crate::mem::first::{
    BYTE_BLOCK, BYTE_LANES, UNIT_BLOCK, all_bytes_below, all_units_below, first_byte_from,
    is_long_run, lanes_below, unit_lanes_below,
};
use std::simd::prelude::*;

/// Copies the longest prefix of `src` that is ASCII to the start of `dst`, and returns its length
/// in bytes; nothing after it changes. `dst` is at least as long as `src`, which a comparison of
/// lengths tests.
pub fn copy_ascii_to_ascii(src: &[u8], dst: &mut [u8]) -> usize
    requires { length src.now ≤ length dst.old }
    ensures prefix { IsLongestPrefix IsAscii src.now result }
    ensures copied { take result dst.new ≡ take result src.now }
    ensures behind { drop result dst.new ≡ drop result dst.old }
{
    let mut at = copy_blocks(src, dst);
    'vectors: while is_long_run(&src[at..]) {
        dst[at..at + BYTE_LANES].copy_from_slice(&src[at..at + BYTE_LANES]);
        at += BYTE_LANES;
    }
    // The last vector may begin within what was copied.
    let left = src.len() - at;
    if left > 0 && left < BYTE_LANES && src.len() >= BYTE_LANES {
        let last = src.len() - BYTE_LANES;
        if is_long_run(&src[last..]) {
            dst[last..last + BYTE_LANES].copy_from_slice(&src[last..]);
            return src.len();
        }
    }
    'rest: while at < src.len() && src[at] < 0x80 {
        dst[at] = src[at];
        at += 1;
    }
    at
}

/// Copies the longest prefix of `src` that is ASCII to the start of `dst`, each byte as a unit of
/// UTF-16, and returns its length; nothing after it changes. `dst` has at least as many units as
/// `src` has bytes, which a comparison of lengths tests.
pub fn copy_ascii_to_basic_latin(src: &[u8], dst: &mut [u16]) -> usize
    requires { length src.now ≤ length dst.old }
    ensures prefix { IsLongestPrefix IsAscii src.now result }
    ensures copied { take result dst.new ≡ take result src.now }
    ensures behind { drop result dst.new ≡ drop result dst.old }
{
    let count = first_byte_from(src, 0x80);
    for (i, b) in src[..count].iter().enumerate() {
        dst[i] = *b as u16;
    }
    count
}

/// Copies the longest prefix of `src` whose units of UTF-16 are below 80 hex to the start of `dst`,
/// each as a byte, and returns its length; nothing after it changes. `dst` has at least as many
/// bytes as `src` has units, which a comparison of lengths tests.
pub fn copy_basic_latin_to_ascii(src: &[u16], dst: &mut [u8]) -> usize
    requires { length src.now ≤ length dst.old }
    ensures prefix { IsLongestPrefix IsAscii src.now result }
    ensures copied { take result dst.new ≡ take result src.now }
    ensures behind { drop result dst.new ≡ drop result dst.old }
{
    let mut at = 0;
    'wide: while src.len() - at >= UNIT_BLOCK {
        if !narrow_block(&src[at..], &mut dst[at..]) {
            break;
        }
        at += UNIT_BLOCK;
    }
    'units: while at < src.len() && src[at] < 0x80 {
        dst[at] = src[at] as u8;
        at += 1;
    }
    at
}

// Copies a block of units to the start of `dst`, each as a byte, if all of them are ASCII, and
// returns whether they are. Else nothing changes.
#[inline(always)]
pub(crate) fn narrow_block(units: &[u16], dst: &mut [u8]) -> bool
    requires units { 32 ≤ length units.now }
    requires room { 32 ≤ length dst.old }
    ensures low { IsTrue result → (k : ℕ) → k < 32 → slice_index units.now k < 0x80 }
    ensures copied { IsTrue result → take 32 dst.new ≡ take 32 units.now }
    ensures behind { drop 32 dst.new ≡ drop 32 dst.old }
    ensures kept { ¬ (IsTrue result) → dst.new ≡ dst.old }
{
    let block = u16x32::from_slice(units);
    if !all_units_below(block, 0x80) {
        return false;
    }
    block.cast::<u8>().copy_to_slice(dst);
    true
}

// Copies the ASCII at the start of a vector of units to the start of `dst`, each as a byte, and
// returns how many units it has. Bytes without a meaning stand after them, as many as there are
// lanes: so no branch asks how many they are.
#[inline(always)]
pub(crate) fn narrow_lanes(units: &[u16], dst: &mut [u8]) -> usize
    requires units { 8 ≤ length units.now }
    requires room { 8 ≤ length dst.old }
    ensures within { result ≤ 8 }
    ensures low { (k : ℕ) → k < result → slice_index units.now k < 0x80 }
    ensures copied { take result dst.new ≡ take result units.now }
    ensures behind { drop 8 dst.new ≡ drop 8 dst.old }
{
    let lanes = u16x8::from_slice(units);
    // The mask leaves ASCII as it is, and no lane above 7F, so that one instruction packs them.
    (lanes & u16x8::splat(0x7F)).cast::<u8>().copy_to_slice(dst);
    unit_lanes_below(lanes, 0x80)
}

// Copies a block of bytes to the start of `dst` if all of them are ASCII, and returns whether they
// are. Else nothing changes.
#[inline(always)]
fn copy_block(bytes: &[u8], dst: &mut [u8]) -> bool
    requires bytes { 64 ≤ length bytes.now }
    requires room { 64 ≤ length dst.old }
    ensures low { IsTrue result → (k : ℕ) → k < 64 → slice_index bytes.now k < 0x80 }
    ensures copied { IsTrue result → take 64 dst.new ≡ take 64 bytes.now }
    ensures behind { drop 64 dst.new ≡ drop 64 dst.old }
    ensures kept { ¬ (IsTrue result) → dst.new ≡ dst.old }
{
    let block = u8x64::from_slice(bytes);
    if !all_bytes_below(block, 0x80) {
        return false;
    }
    block.copy_to_slice(dst);
    true
}

// Copies the blocks at the start of `src` that are ASCII as a whole to the start of `dst`, and
// returns how many bytes they have. Nothing after them changes.
#[inline(always)]
fn copy_blocks(src: &[u8], dst: &mut [u8]) -> usize
    requires { length src.now ≤ length dst.old }
    ensures within { result ≤ length src.now }
    ensures low { (k : ℕ) → k < result → slice_index src.now k < 0x80 }
    ensures copied { take result dst.new ≡ take result src.now }
    ensures behind { drop result dst.new ≡ drop result dst.old }
{
    let mut at = 0;
    'wide: while src.len() - at >= BYTE_BLOCK {
        if !copy_block(&src[at..], &mut dst[at..]) {
            break;
        }
        at += BYTE_BLOCK;
    }
    at
}

// Copies a vector of bytes to the start of `dst`, and returns how many at its start are ASCII: no
// branch asks how many they are.
#[inline(always)]
fn copy_lanes(bytes: &[u8], dst: &mut [u8]) -> usize
    requires bytes { 16 ≤ length bytes.now }
    requires room { 16 ≤ length dst.old }
    ensures within { result ≤ 16 }
    ensures low { (k : ℕ) → k < result → slice_index bytes.now k < 0x80 }
    ensures ends { result < 16 → 0x80 ≤ slice_index bytes.now result }
    ensures copied { take 16 dst.new ≡ take 16 bytes.now }
    ensures behind { drop 16 dst.new ≡ drop 16 dst.old }
{
    let lanes = u8x16::from_slice(bytes);
    lanes.copy_to_slice(dst);
    lanes_below(lanes, 0x80)
}

/// Copies the run of ASCII at the start of `src` to the start of `dst`, and returns its length. Up
/// to as many bytes as `src` has change, also those after the run: vectors are stored before it is
/// asked where the run ends.
#[inline(always)]
pub(crate) fn copy_ascii_run(src: &[u8], dst: &mut [u8]) -> usize
    requires { length src.now ≤ length dst.old }
    ensures within { result ≤ length src.now }
    ensures low { (k : ℕ) → k < result → slice_index src.now k < 0x80 }
    ensures ends { result < length src.now → 0x80 ≤ slice_index src.now result }
    ensures copied { take result dst.new ≡ take result src.now }
    ensures behind { drop (length src.now) dst.new ≡ drop (length src.now) dst.old }
{
    let mut at = copy_blocks(src, dst);
    'lanes: while src.len() - at >= BYTE_LANES {
        let run = copy_lanes(&src[at..], &mut dst[at..]);
        at += run;
        if run < BYTE_LANES {
            return at;
        }
    }
    'bytes: while at < src.len() && src[at] < 0x80 {
        dst[at] = src[at];
        at += 1;
    }
    at
}

/// Copies the run of ASCII at the start of `src` to the start of `dst`, and returns its length.
/// Bytes after it may change, one for every two bytes of `src` that are left: a vector is stored
/// before it is asked where the run ends.
#[inline(always)]
pub(crate) fn copy_short_run(src: &[u8], dst: &mut [u8]) -> usize
    requires { length src.now ≤ length dst.old }
    ensures prefix { IsLongestPrefix IsAscii src.now result }
    ensures copied { take result dst.new ≡ take result src.now }
    ensures behind { (n : ℕ) → n ≡ result + (length src.now - result) / 2
        → drop n dst.new ≡ drop n dst.old }
{
    if src.len() < 2 * BYTE_LANES {
        return copy_ascii_to_ascii(src, dst);
    }
    let run = copy_lanes(src, dst);
    if run < BYTE_LANES {
        return run;
    }
    copy_ascii_to_ascii(src, dst)
}
