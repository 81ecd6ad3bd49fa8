//! Writers that take few bytes a call, fail, and note on the tape what happens to them.

use crate::tape::{Device, Event, Tape};
use std::alloc::Global;
use std::io;
use std::io::{ErrorKind, Write};

/// How a call of a writer fails.
#[derive(Clone, Copy, Debug)]
pub enum Failure {
    /// It takes no byte.
    Nothing,
    /// It returns an error.
    Error(ErrorKind),
}

/// The ways in which a call of a writer fails.
pub const FAILURES: [Failure; 3] = [
    Failure::Nothing,
    Failure::Error(ErrorKind::BrokenPipe),
    Failure::Error(ErrorKind::Interrupted),
];

/// What a writer does.
#[derive(Clone, Copy, Debug)]
pub struct Manners {
    /// How many bytes a call takes at most.
    pub most: usize,
    /// The number of the only write that fails, counted from 1, or 0 if none fails.
    pub fails_at: usize,
    /// How it fails.
    pub failure: Failure,
    /// Whether flushes fail.
    pub flush_fails: bool,
}

/// The manners of a writer that takes all bytes and never fails.
pub const WILLING: Manners = Manners {
    most: usize::MAX,
    fails_at: 0,
    failure: Failure::Nothing,
    flush_fails: false,
};

/// A writer to memory.
#[derive(Drop)]
pub struct Sink<'a> {
    /// The bytes that it took.
    pub taken: Vec<u8>,
    manners: Manners,
    calls: usize,
    device: Device,
    tape: &'a Tape,
}

impl<'a> Sink<'a> {
    /// Returns a writer that has taken nothing. It is one of the devices that share a tape.
    pub fn new(alloc: Global, manners: Manners, device: Device, tape: &'a Tape) -> Sink<'a> {
        Sink {
            taken: Vec::new(alloc),
            manners,
            calls: 0,
            device,
            tape,
        }
    }
}

impl<'a> Write for Sink<'a> {
    fn write(&mut self, buf: &[u8]) -> io::Result<usize> {
        self.calls = self.calls.saturating_add(1);
        self.tape.add(Event::Call(self.device))?;
        if self.calls == self.manners.fails_at {
            return match self.manners.failure {
                Failure::Nothing => Ok(0),
                Failure::Error(kind) => Err(io::Error::from(kind)),
            };
        }
        let count = self.manners.most.min(buf.len());
        self.taken.extend_from_slice(&buf[..count])?;
        for byte in &buf[..count] {
            self.tape.add(Event::Byte(self.device, *byte))?;
        }
        Ok(count)
    }

    fn flush(&mut self) -> io::Result<()> {
        self.tape.add(Event::Flush(self.device))?;
        if self.manners.flush_fails {
            return Err(io::Error::from(ErrorKind::StorageFull));
        }
        Ok(())
    }
}
