//! Loaded tables, as C holds them.

ghost use Rattle.std.specs.Prelude.{◌≡◌, ◌↔◌, IsTrue, MatchOption};
ghost use Rattle.std.specs.Coded.{coded_option};
ghost use Rattle.std.specs.declared.option.Option.{Option};
ghost use Rattle.std.specs.declared.option.Option.TheVariants.{None, Some};
ghost use Rattle.encoding_tables.specs.IndexLists.{AreAcceptedTables, IndexLists};
ghost use Rattle.encoding_tables.specs.contracts.tables.Tables.{the_row};
ghost use Rattle.encoding_front.specs.Encodings.{IsReady, lists_of};
ghost use Rattle.jillapun_c.specs.HeldTables.{held_lists};
ghost use Rattle.jillapun_c.specs.Ownership.{tables_handle_owns};

use encoding_front::Encoding;
use encoding_tables::Tables;
use std::marker::Model;
use std::{mem, ptr};

/// Loaded indexes: tables of the standard that map numbers to characters (section 5). Pass `{0}`,
/// which has none, for encodings that need no index. Tables are never changed or freed, so any
/// number of threads may share them.
#[repr(C)]
#[derive(Drop)]
pub struct TablesHandle {
    at: *const u8,
    is_open: bool,
    pub ghost tables: { Option IndexLists } by { coded_option the_row.coded },
}

impl Model for TablesHandle {
    ghost also_owns = { λ h. tables_handle_owns the_row h.is_open h.at h.tables };
}

impl TablesHandle {
    // One that holds nothing, and has an address that nobody follows.
    fn closed(at: *const u8) -> TablesHandle
        ensures { result.tables ≡ None }
    {
        TablesHandle { at, is_open: false }
    }

    /// One that holds nothing.
    pub(crate) fn none() -> TablesHandle
        ensures { result.tables ≡ None }
    {
        let nowhere: *const u8 = ptr::null();
        TablesHandle::closed(nowhere)
    }

    /// The tables that it holds; it is closed then.
    pub(crate) fn take(&mut self) -> Option<&'static Tables>
        ensures closed { self.new.tables ≡ None }
        ensures tables { MatchOption result (self.old.tables ≡ None)
            (λ t. self.old.tables ≡ Some t.now) }
    {
        let handle = mem::replace(self, TablesHandle::none());
        handle.get()
    }

    /// One that holds these.
    pub(crate) fn of(tables: &'static Tables) -> TablesHandle
        ensures { result.tables ≡ Some tables.now }
    {
        TablesHandle {
            at: tables as *const Tables as *const u8,
            is_open: true,
        }
    }

    /// The tables that it holds.
    pub(crate) fn get(self) -> Option<&'static Tables>
        ensures { MatchOption result (self.tables ≡ None) (λ t. self.tables ≡ Some t.now) }
    {
        let TablesHandle { at, is_open } = self;
        if !is_open {
            return None;
        }
        Some(unsafe { &*(at as *const Tables) })
    }

    /// Another one that holds the same.
    pub(crate) fn copied(&self) -> TablesHandle
        ensures { result ≡ self.now }
    {
        TablesHandle {
            at: self.at,
            is_open: self.is_open,
        }
    }

    /// Whether each index that an encoding needs is in the tables; if the handle holds no tables,
    /// whether it needs none.
    pub(crate) fn are_ready(&self, encoding: Encoding) -> bool
        ensures ready { IsTrue result ↔ IsReady (held_lists self.now.tables) encoding }
        ensures accepted { AreAcceptedTables (held_lists self.now.tables) }
    {
        match self.lent() {
            Some(tables) => encoding.is_ready(tables),
            None => encoding.needs().is_empty(),
        }
    }

    /// The tables that it holds, where it cannot be moved.
    pub(crate) fn lent(&self) -> Option<&'static Tables>
        ensures held { MatchOption result (self.now.tables ≡ None)
            (λ t. self.now.tables ≡ Some t.now) }
        ensures lists { lists_of result ≡ held_lists self.now.tables }
    {
        self.copied().get()
    }
}
