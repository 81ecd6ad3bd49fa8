//! The history of a reader or a writer, which clauses alone read: it takes no memory.

ghost use Rattle.std.specs.Prelude.{◌≡◌, List, [], ◌∷◌, ◌++◌, length, take};
ghost use Rattle.std.specs.Borrow.{ftrue};
ghost use Rattle.recode_log.specs.Call.{Call, Passed, Failed, Flush};
ghost use Rattle.recode_log.specs.calls.CallCode.{calls_code};

use std::marker::Model;

/// The calls that were made, in their order.
#[derive(Drop)]
pub(crate) struct History {
    ghost calls: { List Call } by { calls_code },
}

impl Model for History {
    ghost also_owns = { λ _. ftrue };
}

// It owns nothing.
unsafe impl Send for History {}

impl History {
    /// No calls.
    pub(crate) fn new() -> History
        ensures { result.calls ≡ [] }
    {
        History {}
    }

    /// These calls, and then a read or a write that passed so many bytes from the start of its
    /// buffer.
    pub(crate) fn and(&self, buffer: &[u8], count: usize) -> History
        ensures { result.calls ≡ self.now.calls
            ++ Passed (length buffer.now) (take count buffer.now) ∷ [] }
    {
        History {}
    }

    /// These calls, and then a read or a write with this buffer that failed.
    pub(crate) fn and_failed(&self, buffer: &[u8]) -> History
        ensures { result.calls ≡ self.now.calls ++ Failed (length buffer.now) ∷ [] }
    {
        History {}
    }

    /// These calls, and then a flush.
    pub(crate) fn and_flush(&self, failed: bool) -> History
        ensures { result.calls ≡ self.now.calls ++ Flush failed ∷ [] }
    {
        History {}
    }
}
