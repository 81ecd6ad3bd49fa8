//! The indexes that are handed in, checked, with their look-ups.

ghost use Rattle.std.specs.Prelude.{◌≡◌, ◌≢◌, ◌⊎◌, [], false, true, MatchOption, OnOk, OnErr};
ghost use Rattle.std.specs.Prelude.{is_some};
ghost use Rattle.encoding_tables.specs.Kinds.{is_ranges, is_single_byte_kind, index_size};
ghost use Rattle.encoding_tables.specs.IndexLists.{IndexLists, has, index_entries};
ghost use Rattle.encoding_tables.specs.IndexLists.{range_rows, AreAcceptedTables};
ghost use Rattle.encoding_tables.specs.Accepted.{IsIndex};
ghost use Rattle.encoding_tables.specs.PackedRows.{flat_list, PointersRise, PointersAreBelow};
ghost use Rattle.encoding_tables.specs.TableFaults.{flat_fault, range_fault};
ghost use Rattle.encoding_tables.specs.RangeFaults.{bad_row};
ghost use Rattle.encoding_tables.specs.Lookups.{AreEntries, value_of, first_pointer, last_pointer};
ghost use Rattle.encoding_tables.specs.laws.SingleByte.{AreBasic};
ghost use Rattle.encoding_tables.specs.Ranges.{range_value, range_pointer, HaveScalars};
ghost use Rattle.encoding_tables.specs.declared.index_kind.IndexKind.{IndexKind};

use crate::accept::{fault_of_flat, fault_of_rows};
use crate::accept_ranges::bad_row;
use crate::flat::Flat;
use crate::index_kind::IndexKind;
use crate::packed_index::PackedIndex;
use crate::packed_ranges::PackedRanges;
use crate::ranges::Ranges;
use crate::table_fault::TableFault;
use std::alloc::Global;
use std::marker::Model;

/// The indexes of the Encoding Standard (section 5) that were handed in, each checked before it was
/// taken. Codecs borrow them. A list has the scalar at each pointer, and 0 if there is none.
#[derive(Drop)]
pub struct Tables {
    alloc: Global,
    // Written by tools/generate_encodings.py from tools/encodings.toml; do not edit.
    flats: [Option<PackedIndex>; 34],
    // end
    ranges: Option<PackedRanges>,
}

impl Model for Tables {
    ghost use Rattle.encoding_tables.specs.IndexLists.{IndexLists, AreAcceptedTables};
    ghost use Rattle.encoding_tables.specs.calls.Slots.{lists_in};
    ghost use Rattle.encoding_tables.specs.laws.Kinds.{index_lists_code};

    ghost Value = { IndexLists };

    ghost coded = { index_lists_code };

    ghost view = { λ t. lists_in t.flats t.ranges };

    ghost invariant = { λ t. AreAcceptedTables (lists_in t.flats t.ranges) };
}

impl Tables {
    /// Tables with no index. They take no memory; what is handed in later is kept in memory of
    /// `alloc`.
    pub fn new(alloc: Global) -> Tables
        ensures flats { (kind : IndexKind) → result.flats kind ≡ None }
        ensures rows { result.rows ≡ None }
    {
        Tables {
            alloc,
            // Written by tools/generate_encodings.py from tools/encodings.toml; do not edit.
            flats: [
                None, None, None, None, None, None, None, None, None, None, None, None, None, None,
                None, None, None, None, None, None, None, None, None, None, None, None, None, None,
                None, None, None, None, None, None,
            ],
            // end
            ranges: None,
        }
    }

    /// The law that each index there was accepted: no list has a fault, nor have the rows. The
    /// function does nothing; its contract is the law.
    pub fn accepted(&self)
        ensures { AreAcceptedTables self.now }
    {
        let _ = &self.flats;
    }

    /// Whether the index of a kind is there: the test of the condition of look-ups and codecs.
    pub fn has(&self, kind: IndexKind) -> bool
        ensures { result ≡ has self.now kind }
    {
        if kind.is_ranges() {
            self.ranges.is_some()
        } else {
            self.flats[kind.slot()].is_some()
        }
    }

    /// Takes a copy of the list of a kind, whose length is `kind.size()` and whose entries are 0 or
    /// scalars from U+0080, of the basic plane or, in Big5, of plane 2. On an error nothing
    /// changes.
    ///
    /// The faults are `Present`, `Size`, `Entry`, `Reserved` and `Memory`: the first that holds, in
    /// this order. The condition, that the kind has a list, is tested by `IndexKind::is_ranges`,
    /// which is false for it.
    pub fn insert(&mut self, kind: IndexKind, flat: &[u32]) -> Result<(), TableFault>
        requires { is_ranges kind ≡ false }
        ensures fault { MatchOption (flat_fault (has self.old kind) kind flat.now)
            ((result ≡ Ok tt) ⊎ (result ≡ Err TableFault.Memory)) (λ f. result ≡ Err f) }
        ensures taken { OnOk result (self.new.flats kind ≡ Some flat.now) }
        ensures others { (other : IndexKind) → other ≢ kind
            → self.new.flats other ≡ self.old.flats other }
        ensures rows { self.new.rows ≡ self.old.rows }
        ensures unchanged { OnErr result (self.new ≡ self.old) }
    {
        if let Some(fault) = fault_of_flat(self.has(kind), kind, flat) {
            return Err(fault);
        }
        match PackedIndex::from_list(self.alloc, flat) {
            Ok(index) => {
                self.flats[kind.slot()] = Some(index);
                Ok(())
            }
            Err(_) => Err(TableFault::Memory),
        }
    }

    /// Takes the list of a kind by its rows, each a pointer and an entry: the list has 0 at the pointers of
    /// no row, so no rows stand for the list of zeros. Accepts and refuses as [`Tables::insert`] does for
    /// that list, whose size is right: the fault is any but `Size` and `Ranges`, and then nothing changes.
    /// If there are no rows, it asks for no memory.
    ///
    /// The kind is one for which [`IndexKind::is_ranges`] is false. Pointers rise from row to row, which
    /// `rows.windows(2).all(|pair| pair[0].0 < pair[1].0)` tests, and are below the kind's size, which
    /// `rows.iter().all(|row| (row.0 as usize) < kind.size())` tests.
    pub fn insert_rows(&mut self, kind: IndexKind, rows: &[(u32, u32)]) -> Result<(), TableFault>
        requires listed { is_ranges kind ≡ false }
        requires rise { PointersRise rows.now }
        requires below { PointersAreBelow (index_size kind) rows.now }
        ensures fault { MatchOption
            (flat_fault (has self.old kind) kind (flat_list (index_size kind) rows.now))
            ((result ≡ Ok tt) ⊎ (result ≡ Err TableFault.Memory)) (λ f. result ≡ Err f) }
        ensures grows { rows.now ≡ [] → result ≢ Err TableFault.Memory }
        ensures taken { OnOk result
            (self.new.flats kind ≡ Some (flat_list (index_size kind) rows.now)) }
        ensures others { (other : IndexKind) → other ≢ kind
            → self.new.flats other ≡ self.old.flats other }
        ensures rows { self.new.rows ≡ self.old.rows }
        ensures unchanged { OnErr result (self.new ≡ self.old) }
    {
        if let Some(fault) = fault_of_rows(self.has(kind), kind, rows) {
            return Err(fault);
        }
        match PackedIndex::from_rows(self.alloc, kind.size(), rows) {
            Ok(index) => {
                self.flats[kind.slot()] = Some(index);
                Ok(())
            }
            Err(_) => Err(TableFault::Memory),
        }
    }

    /// Takes a copy of the rows of the GB18030 ranges, each a pointer and a code point. On an error
    /// nothing changes. If there are no rows, it asks for no memory.
    ///
    /// The faults are `Present`, `Ranges` and `Memory`: the first that holds, in this order.
    pub fn insert_ranges(&mut self, rows: &[(u32, u32)]) -> Result<(), TableFault>
        ensures fault { MatchOption (range_fault (is_some self.old.rows) rows.now)
            ((result ≡ Ok tt) ⊎ (result ≡ Err TableFault.Memory)) (λ f. result ≡ Err f) }
        ensures grows { rows.now ≡ [] → result ≢ Err TableFault.Memory }
        ensures taken { OnOk result (self.new.rows ≡ Some rows.now) }
        ensures flats { self.new.flats ≡ self.old.flats }
        ensures unchanged { OnErr result (self.new ≡ self.old) }
    {
        if self.ranges.is_some() {
            return Err(TableFault::Present);
        }
        if let Some(row) = bad_row(rows) {
            return Err(TableFault::Ranges(row));
        }
        match PackedRanges::from_rows(self.alloc, rows) {
            Ok(packed) => {
                self.ranges = Some(packed);
                Ok(())
            }
            Err(_) => Err(TableFault::Memory),
        }
    }

    /// The list of a kind, lent for look-ups. The conditions are that it is there, which `has`
    /// tests, and that it is a list, which `IndexKind::is_ranges` tests.
    pub fn flat(&self, kind: IndexKind) -> Flat<'_>
        requires there { has self.now kind ≡ true }
        requires listed { is_ranges kind ≡ false }
        ensures entries { self.now.flats kind ≡ Some result }
        ensures index { IsIndex kind result }
    {
        self.index(kind).flat()
    }

    /// The rows of the GB18030 ranges, lent for look-ups. The condition, that they are there, is
    /// tested by `has`.
    pub fn ranges(&self) -> Ranges<'_>
        requires { has self.now IndexKind.Gb18030Ranges ≡ true }
        ensures rows { range_rows self.now ≡ result }
        ensures scalars { HaveScalars result }
    {
        Ranges::new(self.rows())
    }

    // The list of a single-byte encoding that is there.
    pub(crate) fn single_byte(&self, kind: IndexKind) -> Flat<'_>
        requires there { has self.now kind ≡ true }
        requires single { is_single_byte_kind kind ≡ true }
        ensures entries { self.now.flats kind ≡ Some result }
        ensures scalars { AreEntries result }
        ensures basic { AreBasic result }
    {
        self.flat(kind)
    }

    /// The character at a pointer of an index, or `None` if nothing is mapped there or it is past
    /// the end of the list (the Encoding Standard, section 5, "index code point"). The conditions
    /// are that the index is there, which `has` tests, and that it is a list, which
    /// `IndexKind::is_ranges` tests.
    pub fn value(&self, kind: IndexKind, pointer: u32) -> Option<char>
        requires there { has self.now kind ≡ true }
        requires listed { is_ranges kind ≡ false }
        ensures { result ≡ value_of (index_entries self.now kind) pointer }
    {
        self.flat(kind).value(pointer)
    }

    /// The least pointer of an index from `from` to below `to` with this character, or `None` if
    /// there is none (the Encoding Standard, section 5, "index pointer"). The conditions are that
    /// the index is there, which `has` tests, and that it is a list, which `IndexKind::is_ranges`
    /// tests.
    pub fn first_pointer(&self, kind: IndexKind, c: char, from: u32, to: u32) -> Option<u32>
        requires there { has self.now kind ≡ true }
        requires listed { is_ranges kind ≡ false }
        ensures { result ≡ first_pointer (index_entries self.now kind) c from to }
    {
        self.flat(kind).first_pointer(c, from, to)
    }

    /// The greatest pointer of an index from `from` to below `to` with this character, or `None` if
    /// there is none. The conditions are that the index is there, which `has` tests, and that it is
    /// a list, which `IndexKind::is_ranges` tests.
    pub fn last_pointer(&self, kind: IndexKind, c: char, from: u32, to: u32) -> Option<u32>
        requires there { has self.now kind ≡ true }
        requires listed { is_ranges kind ≡ false }
        ensures { result ≡ last_pointer (index_entries self.now kind) c from to }
    {
        self.flat(kind).last_pointer(c, from, to)
    }

    /// The character at a pointer of the GB18030 ranges, or `None` if the pointer is not a valid
    /// one or is before the first row (the Encoding Standard, section 5, "index gb18030 ranges code
    /// point"). The condition, that they are there, is tested by `has`.
    pub fn range_value(&self, pointer: u32) -> Option<char>
        requires { has self.now IndexKind.Gb18030Ranges ≡ true }
        ensures { result ≡ range_value (range_rows self.now) pointer }
    {
        self.rows().value(pointer)
    }

    /// The pointer of the GB18030 ranges that is written for a character: 7457 for U+E7C7, and else
    /// the valid pointer, other than 7457, whose value by the rows it is; `None` if there is none
    /// (the Encoding Standard, section 5, "index gb18030 ranges pointer"). The condition, that the
    /// ranges are there, is tested by `has`.
    pub fn range_pointer(&self, c: char) -> Option<u32>
        requires { has self.now IndexKind.Gb18030Ranges ≡ true }
        ensures { result ≡ range_pointer (range_rows self.now) c }
    {
        self.rows().pointer(c)
    }

    // The index of a kind that is there.
    fn index(&self, kind: IndexKind) -> &PackedIndex
        requires there { has self.now kind ≡ true }
        requires listed { is_ranges kind ≡ false }
        ensures entries { self.now.flats kind ≡ Some result.now }
        ensures accepted { flat_fault false kind result.now ≡ None }
    {
        match &self.flats[kind.slot()] {
            Some(index) => index,
            None => unreachable!(),
        }
    }

    // The rows of the ranges.
    fn rows(&self) -> &PackedRanges
        requires { has self.now IndexKind.Gb18030Ranges ≡ true }
        ensures rows { range_rows self.now ≡ result.now }
        ensures taken { bad_row result.now ≡ None }
    {
        match &self.ranges {
            Some(rows) => rows,
            None => unreachable!(),
        }
    }
}
