//! A reader or a writer whose failed calls are counted, with its history.

ghost use Rattle.std.specs.Prelude.{◌≡◌, ◌+◌, ◌-◌, ◌^◌, ◌<◌, [], length, OnOk, OnErr, IfOk};
ghost use Rattle.std.specs.Bool.{OnTrue, OnFalse};
ghost use Rattle.std.specs.Io.{ReadsAtMost, WritesAtMost};
ghost use Rattle.std.specs.Io.KnownBytes.{ReadConsumes, WriteAppends, Keeps};

use crate::history::History;
use crate::recorded::Recorded;
use std::io::{Read, Write};
use std::{fmt, io};

/// A reader or a writer, and how many of its calls have failed: what calls of `recode` are given
/// for the input, the output and the log.
///
/// A call that returns an `Err` has failed, an interrupted one too. So has a write of some bytes
/// that takes none. A read that gives no bytes is the end, and no failure.
///
/// Its clauses also speak of its history (`history_of`): each call that was made of the reader or
/// the writer, in their order, with what it passed, whether or not the reader or the writer says
/// which bytes it holds. The history takes no memory.
#[derive(Drop)]
pub struct Counted<T> {
    recorded: Recorded<T>,
    failures: u64,
}

impl<T: fmt::Debug> fmt::Debug for Counted<T> {
    fn fmt<W: fmt::Write>(&self, f: &mut fmt::Formatter<W>) -> fmt::Result {
        f.debug_struct("Counted")
            .field("inner", self.recorded.get_ref())
            .field("failures", &self.failures)
            .finish()
    }
}

impl<T> Counted<T> {
    ghost use Rattle.recode_log.specs.Counted.{inner_of, failures_of, history_of};

    /// Wraps a reader or a writer, with no call made.
    pub fn new(inner: T) -> Self
        ensures inner { inner_of result ≡ inner }
        ensures failures { failures_of result ≡ 0 }
        ensures history { history_of result ≡ [] }
    {
        Counted {
            recorded: Recorded::new(inner),
            failures: 0,
        }
    }

    /// The wrapped reader or writer.
    pub fn get_ref(&self) -> &T
        ensures { result.now ≡ inner_of self.now }
    {
        self.recorded.get_ref()
    }

    /// Gives the wrapped reader or writer back, and forgets the count.
    pub fn into_inner(self) -> T
        ensures { result ≡ inner_of self }
    {
        let Counted {
            recorded,
            failures: _,
        } = self;
        recorded.into_inner()
    }

    /// How many calls have failed: the test of the condition of `read`, `write` and `flush`, and of
    /// what calls them, that fewer than 2^64 - 1 have.
    pub fn failures(&self) -> u64
        ensures { result ≡ failures_of self.now }
    {
        self.failures
    }

    /// The history, for a journal.
    pub(crate) fn history(&self) -> &History
        ensures { result.now.calls ≡ history_of self.now }
    {
        self.recorded.history()
    }

    // Counts a call that failed.
    fn count_if(&mut self, failed: bool)
        requires { failures_of self.old < 2 ^ 64 - 1 }
        ensures inner { inner_of self.new ≡ inner_of self.old }
        ensures history { history_of self.new ≡ history_of self.old }
        ensures failed { OnTrue failed (failures_of self.new ≡ failures_of self.old + 1) }
        ensures succeeded { OnFalse failed (failures_of self.new ≡ failures_of self.old) }
    {
        if failed {
            self.failures += 1;
        }
    }
}

impl<T: Read> Counted<T> {
    ghost use Rattle.recode_log.specs.Call.{CallsOnce};
    ghost use Rattle.recode_log.specs.Counted.{inner_of, failures_of, history_of};

    /// Calls `Read::read` of the wrapped reader once, and returns what it returned: how many bytes
    /// stand at the start of `buf`, with 0 for the end, or the reader's error, which is counted.
    /// The condition, that fewer than 2^64 - 1 calls have failed, is tested by `failures`.
    pub fn read(&mut self, buf: &mut [u8]) -> io::Result<usize>
        requires { failures_of self.old < 2 ^ 64 - 1 }
        ensures bound { ReadsAtMost result buf.new }
        ensures bytes { ReadConsumes (T.remaining (inner_of self.old))
            (T.remaining (inner_of self.new)) result buf.new }
        ensures call { CallsOnce (history_of self.old) (history_of self.new) result buf.new }
        ensures ok { OnOk result (failures_of self.new ≡ failures_of self.old) }
        ensures err { OnErr result (failures_of self.new ≡ failures_of self.old + 1) }
    {
        let given = self.recorded.read(buf);
        self.count_if(given.is_err());
        given
    }
}

impl<T: Write> Counted<T> {
    ghost use Rattle.recode_log.specs.Call.{CallsOnce, FlushesOnce};
    ghost use Rattle.recode_log.specs.Counted.{inner_of, failures_of, history_of};

    /// Calls `Write::write` of the wrapped writer once, and returns what it returned: how many
    /// bytes it took from the start of `buf`, or its error. An error is counted, and so is a 0
    /// unless `buf` is empty. The condition, that fewer than 2^64 - 1 calls have failed, is tested
    /// by `failures`.
    pub fn write(&mut self, buf: &[u8]) -> io::Result<usize>
        requires { failures_of self.old < 2 ^ 64 - 1 }
        ensures bound { WritesAtMost result buf.now }
        ensures bytes { WriteAppends (T.contents (inner_of self.old))
            (T.contents (inner_of self.new)) result buf.now }
        ensures call { CallsOnce (history_of self.old) (history_of self.new) result buf.now }
        ensures taken { IfOk result (λ n. 0 < n →
            failures_of self.new ≡ failures_of self.old) }
        ensures nothing { IfOk result (λ n. n ≡ 0 → length buf.now ≡ 0 →
            failures_of self.new ≡ failures_of self.old) }
        ensures none_taken { IfOk result (λ n. n ≡ 0 → 0 < length buf.now →
            failures_of self.new ≡ failures_of self.old + 1) }
        ensures err { OnErr result (failures_of self.new ≡ failures_of self.old + 1) }
    {
        let taken = self.recorded.write(buf);
        self.count_if(match &taken {
            Ok(count) => *count == 0 && !buf.is_empty(),
            Err(_) => true,
        });
        taken
    }

    /// Calls `Write::flush` of the wrapped writer once, and returns what it returned. An error is
    /// counted. The condition, that fewer than 2^64 - 1 calls have failed, is tested by `failures`.
    pub fn flush(&mut self) -> io::Result<()>
        requires { failures_of self.old < 2 ^ 64 - 1 }
        ensures bytes { Keeps (T.contents (inner_of self.old)) (T.contents (inner_of self.new)) }
        ensures call { FlushesOnce (history_of self.old) (history_of self.new) result }
        ensures ok { OnOk result (failures_of self.new ≡ failures_of self.old) }
        ensures err { OnErr result (failures_of self.new ≡ failures_of self.old + 1) }
    {
        let flushed = self.recorded.flush();
        self.count_if(flushed.is_err());
        flushed
    }
}
