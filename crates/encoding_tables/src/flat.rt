//! Look-ups in the list of an index.

ghost use Rattle.std.specs.Prelude.{◌≡◌, ℕ, ◌<◌, List, IfSome};
ghost use Rattle.encoding_tables.specs.Lookups.{value_of, first_pointer, last_pointer, AreEntries};
ghost use Rattle.encoding_tables.specs.calls.PackedLists.{IsPacked};
ghost use Rattle.encoding_tables.specs.PackedRows.{flat_list};

use crate::pointer_rows::PointerRows;
use crate::search::search;
use crate::sorted_rows::SortedRows;
use encoding_mem::scalar::scalar_of;
use std::marker::Model;

/// The list of an index, lent by tables: the scalar at each pointer, and 0 where there is none.
/// What a decoder or an encoder of one index looks up in.
#[derive(Drop)]
pub struct Flat<'a> {
    // How many entries the list has, mapped or not.
    size: usize,
    // A pointer and its entry.
    by_pointer: &'a PointerRows,
    // An entry and its pointer.
    by_entry: &'a SortedRows,
}

impl<'a> Model for Flat<'a> {
    ghost Value = { List ℕ };

    ghost view = { λ f. flat_list f.size f.by_pointer.now };

    ghost invariant = { λ f. IsPacked f.size f.by_pointer.now f.by_entry.now
        × AreEntries (flat_list f.size f.by_pointer.now) };
}

impl<'a> Flat<'a> {
    /// The list of so many entries with these rows, each 0 or a scalar.
    pub(crate) fn new(size: usize, by_pointer: &'a PointerRows, by_entry: &'a SortedRows) -> Self
        requires packed { IsPacked size by_pointer.now by_entry.now }
        requires entries { AreEntries (flat_list size by_pointer.now) }
        ensures { result ≡ flat_list size by_pointer.now }
    {
        Flat {
            size,
            by_pointer,
            by_entry,
        }
    }

    /// The character at a pointer, or `None` where nothing is mapped and past the end of the list
    /// (the Encoding Standard, section 5, "index code point").
    #[inline(always)]
    pub fn value(&self, pointer: u32) -> Option<char>
        ensures { result ≡ value_of self.now pointer }
    {
        match self.by_pointer.second(pointer) {
            Some(entry) => Some(scalar_of(entry)),
            None => None,
        }
    }

    /// The least pointer from `from` to below `to` with this character, or `None` where there is
    /// none (the Encoding Standard, section 5, "index pointer"). U+0000 has none.
    #[inline]
    pub fn first_pointer(&self, c: char, from: u32, to: u32) -> Option<u32>
        ensures pointer { result ≡ first_pointer self.now c from to }
        ensures before { IfSome result (λ p. p < to) }
    {
        let rows = self.by_entry.rows_of(c as u32);
        let (below, _) = search(rows, (c as u32, from));
        match &rows[below..] {
            [(_, pointer), ..] if *pointer < to => Some(*pointer),
            _ => None,
        }
    }

    /// The greatest pointer from `from` to below `to` with this character, or `None` where there is
    /// none (what "index Big5 pointer" of the Encoding Standard, section 5, takes for six
    /// characters). U+0000 has none.
    #[inline]
    pub fn last_pointer(&self, c: char, from: u32, to: u32) -> Option<u32>
        ensures pointer { result ≡ last_pointer self.now c from to }
        ensures before { IfSome result (λ p. p < to) }
    {
        let rows = self.by_entry.rows_of(c as u32);
        let (below, _) = search(rows, (c as u32, to));
        match &rows[..below] {
            [.., (_, pointer)] if *pointer >= from => Some(*pointer),
            _ => None,
        }
    }
}
