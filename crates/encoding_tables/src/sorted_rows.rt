//! Rows in order, with a directory that says where the rows of each first number begin, so that a
//! search is handed the rows of one first number alone.

ghost use Rattle.std.specs.Prelude.{◌≡◌, List, ℕ, slice_range};
ghost use Rattle.encoding_tables.specs.calls.SortedRows.{AreRising, IsDirectory, IsSpan};

use std::marker::Model;

/// Rows in order, fewer than 2^16.
#[derive(Drop)]
pub(crate) struct SortedRows {
    rows: Vec<(u32, u32)>,
    // How many rows stand before each first number, and at last how many there are.
    begins: Vec<u16>,
}

impl Model for SortedRows {
    ghost Value = { List (ℕ × ℕ) };

    ghost view = { λ s. s.rows.items };

    ghost invariant = { λ s. AreRising s.rows.items × IsDirectory s.rows.items s.begins.items };
}

impl SortedRows {
    /// Rows in order, with a directory that was made with them.
    pub(crate) fn with_directory(rows: Vec<(u32, u32)>, begins: Vec<u16>) -> Self
        requires rising { AreRising rows.items }
        requires directory { IsDirectory rows.items begins.items }
        ensures { result ≡ rows.items }
    {
        SortedRows { rows, begins }
    }

    /// The rows with a first number.
    #[inline(always)]
    pub(crate) fn rows_of(&self, first: u32) -> &[(u32, u32)]
        ensures { (from : ℕ) × (to : ℕ) × IsSpan self.now first from to
            × (result.now ≡ slice_range self.now from to) }
    {
        let rows = self.rows.as_slice();
        let (begin, end) = span_in(rows, self.begins.as_slice(), first);
        &rows[begin..end]
    }
}

// Where the rows with a first number begin and end, by their directory.
#[inline(always)]
fn span_in(rows: &[(u32, u32)], begins: &[u16], first: u32) -> (usize, usize)
    requires { IsDirectory rows.now begins.now }
    ensures { IsSpan rows.now first result.0 result.1 }
{
    let offset = first as usize;
    if offset + 1 < begins.len() {
        (begins[offset] as usize, begins[offset + 1] as usize)
    } else {
        (rows.len(), rows.len())
    }
}
