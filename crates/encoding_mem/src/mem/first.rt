//! Where a run of small bytes or units ends.

ghost use Rattle.std.specs.Prelude.{IsTrue, ℕ, ◌≡◌, ◌<◌, ◌≤◌, length, slice_index, not};
ghost use Rattle.std.specs.Prelude.{nat_le};
ghost use Rattle.std.specs.List.{prefix_len};

use std::simd::prelude::*;

/// How many bytes are tested at a time, with one branch for all of them. If one of them is too
/// large, or fewer are left, smaller vectors say where the run ends.
pub(crate) const BYTE_BLOCK: usize = 64;

/// How many units are tested, narrowed or written in UTF-8 at a time: those of `BYTE_BLOCK` bytes.
pub(crate) const UNIT_BLOCK: usize = 32;

/// How many bytes a smaller vector has.
pub(crate) const BYTE_LANES: usize = 16;

/// How many units a smaller vector has.
pub(crate) const UNIT_LANES: usize = 8;

// Whether each of 64 bytes is below the limit: one branch for all of them.
#[inline(always)]
pub(crate) fn all_bytes_below(block: u8x64, limit: u8) -> bool
    ensures { IsTrue result → prefix_len (λ b. not (nat_le limit b)) block ≡ 64 }
{
    block.simd_ge(u8x64::splat(limit)).to_bitmask() == 0
}

// Whether each of 32 units is below the limit: one branch for all of them.
#[inline(always)]
pub(crate) fn all_units_below(block: u16x32, limit: u16) -> bool
    ensures all { IsTrue result → prefix_len (λ u. not (nat_le limit u)) block ≡ 32 }
    ensures only { prefix_len (λ u. not (nat_le limit u)) block ≡ 32 → IsTrue result }
{
    block.simd_ge(u16x32::splat(limit)).to_bitmask() == 0
}

/// How many of 32 units stand before the first that is not below the limit; all of them if there is
/// none.
#[inline(always)]
pub fn units_below(block: u16x32, limit: u16) -> usize
    ensures { result ≡ prefix_len (λ u. not (nat_le limit u)) block }
{
    let marks = block.simd_ge(u16x32::splat(limit)).to_bitmask();
    if marks == 0 {
        UNIT_BLOCK
    } else {
        marks.trailing_zeros() as usize
    }
}

/// How many bytes stand before the first that is not below the limit; all of them if there is none.
#[inline(always)]
pub(crate) fn lanes_below(block: u8x16, limit: u8) -> usize
    ensures { result ≡ prefix_len (λ b. not (nat_le limit b)) block }
{
    let marks = block.simd_ge(u8x16::splat(limit)).to_bitmask();
    if marks == 0 {
        BYTE_LANES
    } else {
        marks.trailing_zeros() as usize
    }
}

/// Whether a vector of bytes is there, and all of them are ASCII.
#[inline(always)]
pub(crate) fn is_long_run(bytes: &[u8]) -> bool
    ensures here { IsTrue result → 16 ≤ length bytes.now }
    ensures ascii { IsTrue result → (k : ℕ) → k < 16 → slice_index bytes.now k < 0x80 }
{
    bytes.len() >= BYTE_LANES && lanes_below(u8x16::from_slice(bytes), 0x80) == BYTE_LANES
}

/// How many units stand before the first that is not below the limit; all of them if there is none.
#[inline(always)]
pub(crate) fn unit_lanes_below(block: u16x8, limit: u16) -> usize
    ensures { result ≡ prefix_len (λ u. not (nat_le limit u)) block }
{
    let marks = block.simd_ge(u16x8::splat(limit)).to_bitmask();
    if marks == 0 {
        UNIT_LANES
    } else {
        marks.trailing_zeros() as usize
    }
}

// The first byte that is not below the limit, or the length.
pub(crate) fn first_byte_from(bytes: &[u8], limit: u8) -> usize
    ensures within { result ≤ length bytes.now }
    ensures below { (k : ℕ) → k < result → slice_index bytes.now k < limit }
    ensures ends { result < length bytes.now → limit ≤ slice_index bytes.now result }
{
    let mut at = 0;
    'wide: while bytes.len() - at >= BYTE_BLOCK
        && all_bytes_below(u8x64::from_slice(&bytes[at..]), limit)
    {
        at += BYTE_BLOCK;
    }
    'runs: while bytes.len() - at >= BYTE_LANES {
        let run = lanes_below(u8x16::from_slice(&bytes[at..]), limit);
        at += run;
        if run < BYTE_LANES {
            return at;
        }
    }
    // The last vector may begin within what was tested.
    if bytes.len() >= BYTE_LANES {
        let last = bytes.len() - BYTE_LANES;
        return last + lanes_below(u8x16::from_slice(&bytes[last..]), limit);
    }
    'bytes: while at < bytes.len() && bytes[at] < limit {
        at += 1;
    }
    at
}

// The first unit that is not below the limit, or the length.
pub(crate) fn first_unit_from(units: &[u16], limit: u16) -> usize
    requires { 0 < limit }
    ensures within { result ≤ length units.now }
    ensures below { (k : ℕ) → k < result → slice_index units.now k < limit }
    ensures ends { result < length units.now → limit ≤ slice_index units.now result }
{
    let mut at = 0;
    'wide: while units.len() - at >= UNIT_BLOCK
        && all_units_below(u16x32::from_slice(&units[at..]), limit)
    {
        at += UNIT_BLOCK;
    }
    'runs: while units.len() - at >= UNIT_LANES {
        let low = unit_lanes_below(u16x8::from_slice(&units[at..]), limit);
        at += low;
        if low < UNIT_LANES {
            return at;
        }
    }
    // The last vector may begin within what was tested.
    if units.len() >= UNIT_LANES {
        let last = units.len() - UNIT_LANES;
        return last + unit_lanes_below(u16x8::from_slice(&units[last..]), limit);
    }
    'units: while at < units.len() && units[at] < limit {
        at += 1;
    }
    at
}

// How many units at the start are below the limit, as far as whole vectors of them are. Where the
// first other unit is is not asked.
#[inline(always)]
pub(crate) fn vectors_of_units_below(units: &[u16], limit: u16) -> usize
    ensures within { result ≤ length units.now }
    ensures below { (k : ℕ) → k < result → slice_index units.now k < limit }
{
    let mut at = 0;
    'wide: while units.len() - at >= UNIT_BLOCK
        && all_units_below(u16x32::from_slice(&units[at..]), limit)
    {
        at += UNIT_BLOCK;
    }
    'vectors: while units.len() - at >= UNIT_LANES
        && unit_lanes_below(u16x8::from_slice(&units[at..]), limit) == UNIT_LANES
    {
        at += UNIT_LANES;
    }
    at
}
