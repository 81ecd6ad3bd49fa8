//! The rows of an index text, one after another, or its first fault.

ghost use Rattle.std.specs.Prelude.{◌≡◌, ◌+◌, ◌^◌, ◌<◌, ◌∷◌, [], length, ◌==◌};
ghost use Rattle.std.specs.Prelude.{IfOk, IfSome};
ghost use Rattle.std.specs.List.{position_or_len};
ghost use Rattle.std.specs.Str.Lines.{lines, strip_carriage_return};
ghost use Rattle.encoding_index.specs.IndexText.{lines_in};
ghost use Rattle.encoding_index.specs.laws.Outcomes.{outcomes, outcome_of};
ghost use Rattle.encoding_index.specs.laws.RowStarts.{BeginsWithRow};

use crate::fault::{IndexFault, IndexFaultKind};
use crate::line::{is_skipped, row_of, row_start};
use std::simd::prelude::*;

// A line that ends at LF, without the CR before that.
fn without_carriage_return(line: &[u8]) -> &[u8]
    ensures { result.now ≡ strip_carriage_return line.now }
{
    match line {
        [prefix @ .., b'\r'] => prefix,
        _ => line,
    }
}

// How many bytes are looked at at once for a LF: most lines of an index have no more after their
// code point.
const LANES: usize = 32;

// How many bytes stand before the first LF of some.
#[inline(always)]
fn lanes_before_newline(block: u8x32) -> usize
    ensures { result ≡ position_or_len (λ b. b == 10) block }
{
    let marks = block.simd_eq(u8x32::splat(b'\n')).to_bitmask();
    if marks == 0 {
        LANES
    } else {
        marks.trailing_zeros() as usize
    }
}

// How many bytes stand before the first LF.
#[inline(always)]
fn line_len(text: &[u8]) -> usize
    ensures { result ≡ position_or_len (λ b. b == 10) text.now }
{
    let mut at = 0;
    'lanes: while text.len() - at >= LANES {
        let run = lanes_before_newline(u8x32::from_slice(&text[at..]));
        at += run;
        if run < LANES {
            return at;
        }
    }
    'bytes: while at < text.len() && text[at] != b'\n' {
        at += 1;
    }
    at
}

// The first line of a text with some bytes, without its end, and what stands after that.
#[tactic(auto, using(crate::proofs::LineLemmas::lines_last))]
fn first_line(text: &[u8]) -> (&[u8], &[u8])
    requires { 0 < length text.now }
    ensures lines { lines text.now ≡ result.0.now ∷ lines result.1.now }
    ensures shorter { length result.1.now < length text.now }
{
    let end = line_len(text);
    if end < text.len() {
        (without_carriage_return(&text[..end]), &text[end + 1..])
    } else {
        (text, &[])
    }
}

// The row of the first line, if a tab stands after its code point and the line ends at LF; and what
// stands after the line. The line is not cut off before it is read.
#[inline(always)]
fn plain_row(text: &[u8]) -> Option<((u32, u32), &[u8])>
    ensures row { IfSome result (λ r. BeginsWithRow text.now r.0 r.1.now) }
    ensures small { IfSome result (λ r. r.0.0 < 10 ^ 7) }
{
    let (pointer, code, behind) = row_start(text)?;
    if code == 0 {
        return None;
    }
    if behind.is_empty() || behind[0] != b'\t' {
        return None;
    }
    let end = line_len(behind);
    if end < behind.len() {
        Some(((pointer, code), &behind[end + 1..]))
    } else {
        None
    }
}

// The row of a line that is not skipped, or what is wrong with it.
#[tactic(auto, unfolding(crate::specs::IndexText::row_fault))]
fn outcome_of(line: &[u8], least: u32, size: u32) -> Result<(u32, u32), IndexFaultKind>
    ensures outcome { result ≡ outcome_of size least line.now }
    ensures small { IfOk result (λ row. row.0 < 10 ^ 7) }
{
    match row_of(line) {
        None => Err(IndexFaultKind::Row),
        Some((pointer, _)) if pointer < least => Err(IndexFaultKind::Order),
        Some((pointer, _)) if pointer >= size => Err(IndexFaultKind::Pointer),
        Some(row) => Ok(row),
    }
}

/// The rows of an index text, one after another, and at last the first fault, if a line has one.
#[derive(Drop)]
pub(crate) struct IndexRows<'a> {
    // The lines that were not read yet.
    rest: &'a [u8],
    // How many lines were read.
    number: usize,
    // The least pointer that is in order.
    least: u32,
    // How many pointers the index has.
    size: u32,
    ghost fits: { number + length rest.now < 2 ^ 63 },
}

impl<'a> IndexRows<'a> {
    ghost use Rattle.std.specs.Iterator.{YieldsFirst};
    ghost use Rattle.encoding_index.specs.laws.RowsLeft.{outcomes_left};

    /// The rows of a text whose pointers are below `size`.
    pub(crate) fn new(text: &'a [u8], size: u32) -> Self
        ensures { outcomes_left result ≡ outcomes size 0 0 (lines_in text.now) }
    {
        IndexRows {
            rest: text.strip_prefix(b"\xEF\xBB\xBF").unwrap_or(text),
            number: 0,
            least: 0,
            size,
        }
    }

    // The next row, at once if it is a plain one, or the first fault.
    #[inline(always)]
    fn next_row(&mut self) -> Option<Result<(u32, u32), IndexFault>>
        ensures { YieldsFirst outcomes_left self.old result self.new }
    {
        if let Some((row, rest)) = plain_row(self.rest) {
            if row.0 >= self.least && row.0 < self.size {
                self.rest = rest;
                self.number += 1;
                self.least = row.0 + 1;
                return Some(Ok(row));
            }
        }
        // What the call returns by memory is taken apart, so that a plain row stays in registers.
        match self.next_by_line() {
            Some(Ok(row)) => Some(Ok(row)),
            Some(Err(fault)) => Some(Err(fault)),
            None => None,
        }
    }

    // The next row of any form, or the first fault, line by line.
    #[cold]
    #[inline(never)]
    fn next_by_line(&mut self) -> Option<Result<(u32, u32), IndexFault>>
        ensures { YieldsFirst outcomes_left self.old result self.new }
    {
        while !self.rest.is_empty() {
            let (line, rest) = first_line(self.rest);
            self.rest = rest;
            self.number += 1;
            if !is_skipped(line) {
                return match outcome_of(line, self.least, self.size) {
                    Ok(row) => {
                        self.least = row.0 + 1;
                        Some(Ok(row))
                    }
                    Err(kind) => {
                        self.rest = &[];
                        Some(Err(IndexFault {
                            line: self.number,
                            kind,
                        }))
                    }
                };
            }
        }
        None
    }
}

impl<'a> Iterator for IndexRows<'a> {
    ghost use Rattle.std.specs.Iterator.{YieldsFirst, item_count};
    ghost use Rattle.encoding_index.specs.laws.RowsLeft.{outcomes_left};

    type Item = Result<(u32, u32), IndexFault>;

    ghost next_gives = { YieldsFirst outcomes_left };

    ghost remaining = { item_count outcomes_left };

    #[inline(always)]
    fn next(&mut self) -> Option<Result<(u32, u32), IndexFault>> {
        self.next_row()
    }
}
