//! The last cells of a line.

use crate::cell::{Cell, push_cell};
use std::alloc::AllocError;

/// How many cells are shown before a place.
pub(crate) const BEFORE: u64 = 48;

/// How many cells are shown from a place on.
pub(crate) const BEHIND: u64 = 24;

// What is shown of a line, and two cells more: one that says that the line goes on, and a carriage
// return that is put before it.
const LAST: usize = 74;

// The last cells of a line, and how many came in all. A carriage return waits for what comes next,
// since before a line feed it is none of the line.
#[derive(Drop)]
pub(crate) struct Ring {
    cells: [Cell; LAST],
    count: u64,
    has_return: bool,
}

// As much of a text as the ring can hold.
fn tail(text: &str) -> &str {
    let start = text.ceil_char_boundary(text.len().saturating_sub(4 * LAST));
    text.get(start..).unwrap_or(text)
}

impl Ring {
    // The ring of a line of which nothing is known.
    pub(crate) fn new() -> Ring {
        Ring {
            cells: [Cell::Byte(0); LAST],
            count: 0,
            has_return: false,
        }
    }

    // How many cells came before the one that comes next.
    pub(crate) fn count(&self) -> u64 {
        self.count.saturating_add(u64::from(self.has_return))
    }

    // Whether the line goes on after what is shown of it with a place at this cell.
    pub(crate) fn goes_on(&self, cell: u64) -> bool {
        self.count > cell.saturating_add(BEHIND)
    }

    fn put(&mut self, cell: Cell) {
        self.cells[(self.count % LAST as u64) as usize] = cell;
        self.count = self.count.saturating_add(1);
    }

    // Takes the carriage return that waits, if one does.
    pub(crate) fn settle(&mut self) {
        if self.has_return {
            self.has_return = false;
            self.put(Cell::Character('\r'));
        }
    }

    // Takes the next cell of the line, which is no line feed.
    pub(crate) fn push(&mut self, cell: Cell) {
        self.settle();
        if cell == Cell::Character('\r') {
            self.has_return = true;
        } else {
            self.put(cell);
        }
    }

    // Begins a line.
    pub(crate) fn clear(&mut self) {
        self.count = 0;
        self.has_return = false;
    }

    // Takes a text. Of one that is longer than the ring only the end is looked at, which makes
    // `count` too small, but still more than is shown before a place.
    pub(crate) fn push_text(&mut self, text: &str) {
        for c in tail(text).chars() {
            if c == '\n' {
                self.clear();
            } else {
                self.push(Cell::Character(c));
            }
        }
    }

    // Adds what the cells from one number to another are shown as, as far as they are in the ring.
    pub(crate) fn show(&self, text: &mut String, from: u64, to: u64) -> Result<(), AllocError> {
        let first = self.count.saturating_sub(LAST as u64);
        for number in from.max(first)..to.min(self.count) {
            push_cell(text, self.cells[(number % LAST as u64) as usize])?;
        }
        Ok(())
    }
}
