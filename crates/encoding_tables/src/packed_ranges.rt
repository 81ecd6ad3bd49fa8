//! The rows of the GB18030 ranges, packed for look-ups in either direction (the Encoding Standard,
//! section 5: "index gb18030 ranges code point" and "index gb18030 ranges pointer").

ghost use Rattle.std.specs.Prelude.{◌≡◌, ℕ, ◌<◌, ◌^◌, ◌++◌, List, [], max, None, IfOk, IfSome};
ghost use Rattle.std.specs.Prelude.{IsOk, OnOk};
ghost use Rattle.encoding_tables.specs.RangeFaults.{bad_row};
ghost use Rattle.encoding_tables.specs.laws.RangeRuns.{runs_of, with_low, with_high, ArePacked};
ghost use Rattle.encoding_tables.specs.Ranges.{last_row, range_value, range_pointer, value_in};
ghost use Rattle.encoding_tables.specs.Ranges.{is_valid_pointer};
ghost use Rattle.encoding_tables.specs.calls.SortedRows.{AreRising};

use crate::accept_ranges::{BASIC_END, OTHER_END, OTHER_START, end_by};
use crate::search::search;
use encoding_mem::scalar::scalar_of;
use std::alloc::{AllocError, Global};
use std::marker::Model;

// The rows that were taken, by pointer; and the runs of valid pointers with consecutive values, by
// value: of each run its first value, and its first pointer.
#[derive(Drop)]
pub(crate) struct PackedRanges {
    rows: Vec<(u32, u32)>,
    by_value: Vec<(u32, u32)>,
}

impl Model for PackedRanges {
    ghost Value = { List (ℕ × ℕ) };

    ghost view = { λ r. r.rows.items };

    ghost invariant = { λ r. ArePacked r.rows.items r.by_value.items };
}

impl PackedRanges {
    // A copy of rows that are taken. Asks for no memory if there are no rows.
    pub(crate) fn from_rows(alloc: Global, rows: &[(u32, u32)]) -> Result<Self, AllocError>
        requires { bad_row rows.now ≡ None }
        ensures rows { IfOk result (λ p. p ≡ rows.now) }
        ensures grows { rows.now ≡ [] → IsOk result }
    {
        let by_value = runs_of(alloc, rows)?;
        let mut copied = Vec::with_capacity(alloc, rows.len())?;
        copied.extend_from_slice(rows)?;
        Ok(PackedRanges {
            rows: copied,
            by_value,
        })
    }

    // The character at a pointer.
    pub(crate) fn value(&self, pointer: u32) -> Option<char>
        ensures { result ≡ range_value self.now pointer }
    {
        value_by_rows(&self.rows, pointer)
    }

    // The pointer that is written for a character.
    pub(crate) fn pointer(&self, c: char) -> Option<u32>
        ensures pointer { result ≡ range_pointer self.now c }
        ensures before { IfSome result (λ p. p < 1237576) }
    {
        pointer_by_runs(&self.rows, &self.by_value, c)
    }
}

// The pointer whose value no row gives, and that value.
const FIXED_POINTER: u32 = 7457;

const FIXED_VALUE: char = '\u{E7C7}';

// Whether a pointer may have a value.
fn is_valid_pointer(pointer: u32) -> bool
    ensures { result ≡ is_valid_pointer pointer }
{
    pointer < BASIC_END || pointer >= OTHER_START && pointer < OTHER_END
}

// Adds the runs of a row whose pointers end below `end`. One begins at the row's own pointer, if
// that is in the basic plane, and one at its first pointer of the other planes, if it has one. In
// the gap between them a row's code may be any number.
fn push_runs(runs: &mut Vec<(u32, u32)>, row: (u32, u32), end: u32) -> Result<(), AllocError>
    requires { 189000 < end → value_in (max row.0 189000) row < 2 ^ 32 }
    ensures { (rest : List (ℕ × ℕ)) → OnOk result
        (runs.new.items ++ rest ≡ runs.old.items ++ with_low row (with_high row end rest)) }
{
    let (pointer, code) = row;
    if pointer < BASIC_END {
        runs.push((code, pointer))?;
    }
    if end > OTHER_START {
        let first = pointer.max(OTHER_START);
        runs.push((code + (first - pointer), first))?;
    }
    Ok(())
}

// The runs of rows that are taken.
fn runs_of(alloc: Global, rows: &[(u32, u32)]) -> Result<Vec<(u32, u32)>, AllocError>
    requires { bad_row rows.now ≡ None }
    ensures runs { IfOk result (λ runs. runs.items ≡ runs_of rows.now) }
    ensures grows { rows.now ≡ [] → IsOk result }
{
    // No row has two runs: a basic one that went on at 189000 would run out of scalars before 1237576.
    let mut runs = Vec::with_capacity(alloc, rows.len())?;
    for (index, row) in rows.iter().enumerate() {
        push_runs(&mut runs, *row, end_by(&rows[index + 1..]))?;
    }
    Ok(runs)
}

// The last row, or run, whose first number is not above the one given.
fn last_row(rows: &[(u32, u32)], number: u32) -> Option<(u32, u32)>
    requires rising { AreRising rows.now }
    requires small { number < 1237576 }
    ensures { result ≡ last_row number rows.now }
{
    let (below, _) = search(rows, (number + 1, 0));
    if below == 0 {
        None
    } else {
        Some(rows[below - 1])
    }
}

// The character that rows give to a pointer.
fn value_by_rows(rows: &[(u32, u32)], pointer: u32) -> Option<char>
    requires { bad_row rows.now ≡ None }
    ensures { result ≡ range_value rows.now pointer }
{
    if !is_valid_pointer(pointer) {
        return None;
    }
    if pointer == FIXED_POINTER {
        return Some(FIXED_VALUE);
    }
    match last_row(rows, pointer) {
        Some((first, code)) => Some(scalar_of(code + (pointer - first))),
        None => None,
    }
}

// The pointer to which rows give a character: the one that it would have in the last run that
// begins with it or below, if the rows do give it that character.
fn pointer_by_runs(rows: &[(u32, u32)], by_value: &[(u32, u32)], c: char) -> Option<u32>
    requires { ArePacked rows.now by_value.now }
    ensures { result ≡ range_pointer rows.now c }
{
    if c == FIXED_VALUE {
        return Some(FIXED_POINTER);
    }
    let (value, first) = last_row(by_value, c as u32)?;
    let pointer = first + (c as u32 - value);
    let found = value_by_rows(rows, pointer)?;
    if found == c { Some(pointer) } else { None }
}
