//! A reader or a writer that remembers why a call of it failed.

ghost use Rattle.std.specs.Prelude.{◌≡◌};

use std::io;
use std::io::{Read, Write};

// A reader or a writer, and the error of its first call that failed.
#[derive(Drop)]
pub(crate) struct Noted<T> {
    inner: T,
    pub(crate) error: Option<io::Error>,
}

impl<T> Noted<T> {
    pub(crate) fn new(inner: T) -> Noted<T> {
        Noted { inner, error: None }
    }

    fn note<V>(&mut self, outcome: &io::Result<V>)
        ensures { self.new.inner ≡ self.old.inner }
    {
        match (self.error, outcome) {
            (None, Err(error)) => self.error = Some(*error),
            _ => {}
        }
    }
}

impl<R: Read> Read for Noted<R> {
    ghost remaining = { λ n. R.remaining n.inner };

    fn read(&mut self, buf: &mut [u8]) -> io::Result<usize> {
        let given = self.inner.read(buf);
        self.note(&given);
        given
    }
}

impl<W: Write> Write for Noted<W> {
    ghost contents = { λ n. W.contents n.inner };

    fn write(&mut self, buf: &[u8]) -> io::Result<usize> {
        let taken = self.inner.write(buf);
        self.note(&taken);
        taken
    }

    fn flush(&mut self) -> io::Result<()> {
        let flushed = self.inner.flush();
        self.note(&flushed);
        flushed
    }
}
