//! A reader or a writer with the history of its calls. No other code calls it.

ghost use Rattle.std.specs.Prelude.{◌≡◌, []};
ghost use Rattle.std.specs.Io.{ReadsAtMost, WritesAtMost};
ghost use Rattle.std.specs.Io.KnownBytes.{ReadConsumes, WriteAppends, Keeps};
ghost use Rattle.recode_log.specs.Call.{CallsOnce, FlushesOnce};

use crate::history::History;
use std::io;
use std::io::{Read, Write};

/// A reader or a writer, and what its calls did.
#[derive(Drop)]
pub(crate) struct Recorded<T> {
    inner: T,
    history: History,
}

impl<T> Recorded<T> {
    pub(crate) fn new(inner: T) -> Self
        ensures inner { result.inner ≡ inner }
        ensures calls { result.history.calls ≡ [] }
    {
        Recorded {
            inner,
            history: History::new(),
        }
    }

    pub(crate) fn get_ref(&self) -> &T
        ensures { result.now ≡ self.now.inner }
    {
        &self.inner
    }

    /// The history, for a journal.
    pub(crate) fn history(&self) -> &History
        ensures { result.now ≡ self.now.history }
    {
        &self.history
    }

    pub(crate) fn into_inner(self) -> T
        ensures { result ≡ self.inner }
    {
        let Recorded { inner, history: _ } = self;
        inner
    }
}

impl<T: Read> Recorded<T> {
    /// Calls `read`, and records that.
    pub(crate) fn read(&mut self, buf: &mut [u8]) -> io::Result<usize>
        ensures bound { ReadsAtMost result buf.new }
        ensures bytes { ReadConsumes (T.remaining self.old.inner) (T.remaining self.new.inner)
            result buf.new }
        ensures call { CallsOnce self.old.history.calls self.new.history.calls result buf.new }
    {
        let given = self.inner.read(buf);
        self.history = match &given {
            Ok(count) => self.history.and(buf, *count),
            Err(_) => self.history.and_failed(buf),
        };
        given
    }
}

impl<T: Write> Recorded<T> {
    /// Calls `write`, and records that.
    pub(crate) fn write(&mut self, buf: &[u8]) -> io::Result<usize>
        ensures bound { WritesAtMost result buf.now }
        ensures bytes { WriteAppends (T.contents self.old.inner) (T.contents self.new.inner)
            result buf.now }
        ensures call { CallsOnce self.old.history.calls self.new.history.calls result buf.now }
    {
        let taken = self.inner.write(buf);
        self.history = match &taken {
            Ok(count) => self.history.and(buf, *count),
            Err(_) => self.history.and_failed(buf),
        };
        taken
    }

    /// Calls `flush`, and records that.
    pub(crate) fn flush(&mut self) -> io::Result<()>
        ensures bytes { Keeps (T.contents self.old.inner) (T.contents self.new.inner) }
        ensures call { FlushesOnce self.old.history.calls self.new.history.calls result }
    {
        let flushed = self.inner.flush();
        self.history = self.history.and_flush(flushed.is_err());
        flushed
    }
}
