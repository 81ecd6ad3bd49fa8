//! One journal of the calls of three devices, which clauses alone read: it takes no memory.

ghost use Rattle.std.specs.Prelude.{◌≡◌, List, [], ◌++◌, drop, length, map};
ghost use Rattle.std.specs.Borrow.{ftrue};
ghost use Rattle.recode_log.specs.Journal.{AtLog, AtReader, AtWriter, Entry, log_calls};
ghost use Rattle.recode_log.specs.Journal.{reader_calls, writer_calls};
ghost use Rattle.recode_log.specs.calls.EntryCode.{entries_code};

use crate::history::History;
use std::marker::Model;

/// The calls of a reader, a writer and a log, in their one order.
#[derive(Drop)]
pub(crate) struct Journal {
    ghost entries: { List Entry } by { entries_code },
}

impl Model for Journal {
    ghost also_owns = { λ _. ftrue };
}

// It owns nothing.
unsafe impl Send for Journal {}

impl Journal {
    /// No calls.
    pub(crate) fn new() -> Journal
        ensures { result.entries ≡ [] }
    {
        Journal {}
    }

    /// These calls, and then those of the reader's history that are not among them.
    pub(crate) fn and_reader(&self, history: &History) -> Journal
        ensures { result.entries ≡ self.now.entries
            ++ map AtReader (drop (length (reader_calls self.now.entries)) history.now.calls) }
    {
        Journal {}
    }

    /// These calls, and then those of the writer's history that are not among them.
    pub(crate) fn and_writer(&self, history: &History) -> Journal
        ensures { result.entries ≡ self.now.entries
            ++ map AtWriter (drop (length (writer_calls self.now.entries)) history.now.calls) }
    {
        Journal {}
    }

    /// These calls, and then those of the log's history that are not among them.
    pub(crate) fn and_log(&self, history: &History) -> Journal
        ensures { result.entries ≡ self.now.entries
            ++ map AtLog (drop (length (log_calls self.now.entries)) history.now.calls) }
    {
        Journal {}
    }
}
