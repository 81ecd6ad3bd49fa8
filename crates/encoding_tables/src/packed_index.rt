//! An index as rows, in memory of its own: by pointer for decoders, and by entry for encoders.

ghost use Rattle.std.specs.Prelude.{◌≡◌, ℕ, ◌+◌, ◌^◌, ◌<◌, List, [], length, IfOk, IsOk};
ghost use Rattle.std.specs.Prelude.{not, ◌==◌};
ghost use Rattle.std.specs.List.{list_all};
ghost use Rattle.encoding_tables.specs.Lookups.{AreEntries};
ghost use Rattle.encoding_tables.specs.PackedRows.{flat_list, mapped_rows, listed_rows};
ghost use Rattle.encoding_tables.specs.PackedRows.{PointersRise, PointersAreBelow};
ghost use Rattle.encoding_tables.specs.calls.PackedLists.{AreIndexRows, IsPacked, IsReversed};
ghost use Rattle.encoding_tables.specs.calls.EntryCounts.{AreCounts, AreEnds, HaveEntriesBelow};

use crate::flat::Flat;
use crate::pointer_rows::PointerRows;
use crate::sorted_rows::SortedRows;
use std::alloc::{AllocError, Global};
use std::marker::Model;

/// The list of an index, of which the mapped entries alone are kept.
#[derive(Drop)]
pub(crate) struct PackedIndex {
    // How many entries the list has, mapped or not.
    size: usize,
    // A pointer and its entry.
    by_pointer: PointerRows,
    // An entry and its pointer.
    by_entry: SortedRows,
}

impl Model for PackedIndex {
    ghost Value = { List ℕ };

    ghost view = { λ p. flat_list p.size p.by_pointer };

    ghost invariant = { λ p. IsPacked p.size p.by_pointer p.by_entry };
}

impl PackedIndex {
    /// The index of a list.
    pub(crate) fn from_list(alloc: Global, list: &[u32]) -> Result<Self, AllocError>
        requires { length list.now < 2 ^ 16 }
        ensures { IfOk result (λ index. index ≡ list.now) }
    {
        let rows = rows_of_list(alloc, list)?;
        PackedIndex::new(alloc, list.len(), &rows)
    }

    /// The index of a list with these entries and 0 elsewhere. Asks for no memory if there are no
    /// rows.
    pub(crate) fn from_rows(
        alloc: Global,
        size: usize,
        rows: &[(u32, u32)],
    ) -> Result<Self, AllocError>
        requires rise { PointersRise rows.now }
        requires below { PointersAreBelow size rows.now }
        requires small { size < 2 ^ 16 }
        ensures index { IfOk result (λ index. index ≡ flat_list size rows.now) }
        ensures grows { rows.now ≡ [] → IsOk result }
    {
        if rows.is_empty() {
            return Ok(PackedIndex::empty(alloc, size));
        }
        if are_mapped(rows) {
            return PackedIndex::new(alloc, size, rows);
        }
        let mapped = rows_with_entry(alloc, rows)?;
        PackedIndex::new(alloc, size, &mapped)
    }

    // The index of a list of zeros. Asks for no memory.
    fn empty(alloc: Global, size: usize) -> Self
        ensures { result ≡ flat_list size [] }
    {
        PackedIndex {
            size,
            by_pointer: PointerRows::empty(alloc),
            by_entry: SortedRows::with_directory(Vec::new(alloc), Vec::new(alloc)),
        }
    }

    // The index of mapped rows.
    fn new(alloc: Global, size: usize, rows: &[(u32, u32)]) -> Result<Self, AllocError>
        requires rows { AreIndexRows size rows.now }
        requires small { size < 2 ^ 16 }
        ensures { IfOk result (λ index. index ≡ flat_list size rows.now) }
    {
        let by_entry = reversed(alloc, rows)?;
        Ok(PackedIndex {
            size,
            by_pointer: PointerRows::new(alloc, rows)?,
            by_entry,
        })
    }

    /// The list, lent for look-ups.
    pub(crate) fn flat(&self) -> Flat<'_>
        requires { AreEntries self.now }
        ensures { result ≡ self.now }
    {
        Flat::new(self.size, &self.by_pointer, &self.by_entry)
    }
}

// The mapped entries of a list, each with its pointer.
fn rows_of_list(alloc: Global, list: &[u32]) -> Result<Vec<(u32, u32)>, AllocError>
    requires { length list.now < 2 ^ 16 }
    ensures { IfOk result (λ rows. rows.items ≡ listed_rows 0 list.now) }
{
    let mut rows = Vec::new(alloc);
    for (pointer, entry) in list.iter().enumerate() {
        if *entry != 0 {
            rows.push((pointer as u32, *entry))?;
        }
    }
    Ok(rows)
}

// Whether no row has the entry 0, as in every index of the standard.
fn are_mapped(rows: &[(u32, u32)]) -> bool
    ensures { result ≡ list_all (λ row. not (row.1 == 0)) rows.now }
{
    rows.iter().all(|(_, entry)| *entry != 0)
}

// The rows whose entry is not 0.
fn rows_with_entry(alloc: Global, rows: &[(u32, u32)]) -> Result<Vec<(u32, u32)>, AllocError>
    ensures { IfOk result (λ mapped. mapped.items ≡ mapped_rows rows.now) }
{
    let mut mapped = Vec::with_capacity(alloc, rows.len())?;
    for row in rows {
        if row.1 != 0 {
            mapped.push(*row)?;
        }
    }
    Ok(mapped)
}

// The greatest entry of some rows, or 0.
fn greatest_entry(rows: &[(u32, u32)]) -> u32
    ensures { HaveEntriesBelow (result + 1) rows.now }
{
    let mut greatest = 0;
    for (_, entry) in rows {
        greatest = greatest.max(*entry);
    }
    greatest
}

// How many rows have each entry. After the greatest entry stands one more that no row has.
fn counts(alloc: Global, rows: &[(u32, u32)]) -> Result<Vec<u16>, AllocError>
    requires few { length rows.now < 2 ^ 16 }
    ensures { IfOk result (λ counts. AreCounts rows.now counts.items) }
{
    let mut counts = vec![in alloc; 0; greatest_entry(rows) as usize + 2]?;
    'rows: for at in 0..rows.len() {
        let entry = rows[at].1 as usize;
        let count = counts[entry];
        counts[entry] = count + 1;
    }
    Ok(counts)
}

// How many rows have each entry or a smaller one.
fn ends(alloc: Global, rows: &[(u32, u32)]) -> Result<Vec<u16>, AllocError>
    requires few { length rows.now < 2 ^ 16 }
    ensures { IfOk result (λ ends. AreEnds rows.now ends.items) }
{
    let mut ends = counts(alloc, rows)?;
    let mut sum = 0;
    'entries: for entry in 0..ends.len() {
        let count = ends[entry];
        sum += count;
        ends[entry] = sum;
    }
    Ok(ends)
}

// Each row the other way round, in order: from the last row on, each goes to the end of the places
// of its entry that are free. Where the first of an entry went, its pairs begin. No two rows are
// compared, and no branch depends on what a row has.
fn reversed(alloc: Global, rows: &[(u32, u32)]) -> Result<SortedRows, AllocError>
    requires rise { PointersRise rows.now }
    requires few { length rows.now < 2 ^ 16 }
    ensures { IfOk result (λ pairs. IsReversed rows.now pairs) }
{
    let mut begins = ends(alloc, rows)?;
    let mut pairs = vec![in alloc; (0, 0); rows.len()]?;
    let mut at = rows.len();
    'rows: while at > 0 {
        at -= 1;
        let (pointer, entry) = rows[at];
        let place = begins[entry as usize] - 1;
        begins[entry as usize] = place;
        pairs[place as usize] = (entry, pointer);
    }
    Ok(SortedRows::with_directory(pairs, begins))
}
