//! Rows of an index in the order of their pointers, with a directory that names the one row in
//! which a pointer can stand.

ghost use Rattle.std.specs.Prelude.{◌≡◌, ◌<◌, ◌^◌, List, [], ℕ, length, IfOk};
ghost use Rattle.encoding_tables.specs.calls.PackedLists.{IsSecond};
ghost use Rattle.encoding_tables.specs.PackedRows.{PointersAreBelow};
ghost use Rattle.encoding_tables.specs.calls.SortedRows.{AreRising, IsDirectory, IsTight};

use crate::search::search;
use std::alloc::{AllocError, Global};
use std::marker::Model;

/// Rows in order, each with a pointer below 2^16 of its own.
#[derive(Drop)]
pub(crate) struct PointerRows {
    rows: Vec<(u32, u32)>,
    // How many rows stand before each pointer, and at last how many there are.
    begins: Vec<u16>,
}

impl Model for PointerRows {
    ghost Value = { List (ℕ × ℕ) };

    ghost view = { λ s. s.rows.items };

    ghost invariant = { λ s. AreRising s.rows.items × IsDirectory s.rows.items s.begins.items
        × IsTight s.rows.items s.begins.items };
}

impl PointerRows {
    /// No rows. Asks for no memory.
    pub(crate) fn empty(alloc: Global) -> Self
        ensures { result ≡ [] }
    {
        PointerRows {
            rows: Vec::new(alloc),
            begins: Vec::new(alloc),
        }
    }

    /// Rows in order.
    pub(crate) fn new(alloc: Global, rows: &[(u32, u32)]) -> Result<Self, AllocError>
        requires rising { AreRising rows.now }
        requires below { PointersAreBelow (2 ^ 16) rows.now }
        requires few { length rows.now < 2 ^ 16 }
        ensures { IfOk result (λ sorted. sorted ≡ rows.now) }
    {
        let begins = directory(alloc, rows)?;
        let rows = copied(alloc, rows)?;
        Ok(PointerRows { rows, begins })
    }

    /// The second number of the row with this first number, or `None` if no row has it.
    ///
    /// The directory decides which row can have the number: the rows before the place that it names
    /// are below the number, and those from there on are not. The search looks at this row alone,
    /// and decides whether it has the number: whether it is below the next number.
    #[inline(always)]
    pub(crate) fn second(&self, first: u32) -> Option<u32>
        ensures { IsSecond self.now first result }
    {
        let rows = self.rows.as_slice();
        let begins = self.begins.as_slice();
        if first as usize + 1 >= begins.len() {
            return None;
        }
        let place = begins[first as usize] as usize;
        let (below, _) = search(&rows[place..place + 1], (first + 1, 0));
        if below == 1 {
            Some(rows[place].1)
        } else {
            None
        }
    }
}

// How many rows stand before each first number, and at last how many there are.
fn directory(alloc: Global, rows: &[(u32, u32)]) -> Result<Vec<u16>, AllocError>
    requires rising { AreRising rows.now }
    requires below { PointersAreBelow (2 ^ 16) rows.now }
    requires few { length rows.now < 2 ^ 16 }
    ensures directory { IfOk result (λ begins. IsDirectory rows.now begins.items) }
    ensures tight { IfOk result (λ begins. IsTight rows.now begins.items) }
{
    let numbers = match rows {
        [.., (first, _)] => *first as usize + 1,
        [] => 0,
    };
    let mut begins = Vec::with_capacity(alloc, numbers + 1)?;
    'rows: for (offset, (first, _)) in rows.iter().enumerate() {
        'numbers: while begins.len() <= *first as usize {
            begins.push(offset as u16)?;
        }
    }
    begins.push(rows.len() as u16)?;
    Ok(begins)
}

// The rows in memory of their own.
fn copied(alloc: Global, rows: &[(u32, u32)]) -> Result<Vec<(u32, u32)>, AllocError>
    ensures { IfOk result (λ same. same.items ≡ rows.now) }
{
    let mut same = Vec::with_capacity(alloc, rows.len())?;
    same.extend_from_slice(rows)?;
    Ok(same)
}
