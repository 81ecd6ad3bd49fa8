//! A line of text around a place, and where the caret stands under it.

ghost use Rattle.std.specs.Prelude.{◌≡◌, ◌<◌, ◌≤◌, ◌+◌};

use crate::ring::{BEFORE, BEHIND, Ring};
use std::alloc::{AllocError, Global};
use unicode_width::UnicodeWidthStr;

// The text that is shown, and the columns of the caret: how many come before it, and its own.
#[derive(Drop)]
pub(crate) struct Drawing {
    pub(crate) text: String,
    pub(crate) start: usize,
    pub(crate) width: usize,
}

// Draws the line around the cells of a place, of which `cell` is the first.
pub(crate) fn draw(
    alloc: Global,
    ring: &Ring,
    cell: u64,
    cells: u64,
) -> Result<Drawing, AllocError> {
    let from = cell.saturating_sub(BEFORE);
    let end = cell.saturating_add(cells);
    let mut text = String::new(alloc);
    if from > 0 {
        text.push('…')?;
    }
    ring.show(&mut text, from, cell)?;
    let start = text.as_str().width();
    ring.show(&mut text, cell, end)?;
    let (start, width) = caret(start, text.as_str().width());
    ring.show(&mut text, end, cell.saturating_add(BEHIND))?;
    if ring.goes_on(cell) {
        text.push('…')?;
    }
    Ok(Drawing { text, start, width })
}

// Where the caret stands, and how wide it is, for what is shown from one column to another. What is
// drawn on the character before it takes no column: the caret is then under that one.
fn caret(start: usize, end: usize) -> (usize, usize)
    ensures some { 1 ≤ result.1 }
    ensures column { start < end → (result.0 ≡ start) × (result.0 + result.1 ≡ end) }
{
    if start < end {
        (start, end - start)
    } else {
        (start.saturating_sub(1), 1)
    }
}

// Adds a text so many times.
pub(crate) fn push_times(text: &mut String, part: &str, count: usize) -> Result<(), AllocError> {
    for _ in 0..count {
        text.push_str(part)?;
    }
    Ok(())
}
