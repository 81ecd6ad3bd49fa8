//! Readers over memory that cut the input, fail, and note on the tape what happens to them.

use crate::tape::{Device, Event, Tape};
use std::io;
use std::io::{ErrorKind, Read};

/// How the input is cut into reads.
#[derive(Clone, Copy, Debug)]
pub enum Reads {
    /// No read passes this offset. If there is room enough, there are two reads.
    CutAt(usize),
    /// Each read gives one byte.
    OneByOne,
    /// Each read gives one byte, and the last byte comes again and again, without end.
    Endless,
}

/// A reader over memory.
#[derive(Drop)]
pub struct Source<'a> {
    rest: &'a [u8],
    given: usize,
    reads: Reads,
    calls: usize,
    fails_at: usize,
    kind: ErrorKind,
    // The least and the greatest room of the calls so far.
    rooms: (usize, usize),
    tape: &'a Tape,
}

impl<'a> Source<'a> {
    /// Returns a reader of these bytes. Only the call `fails_at`, counted from 1, fails.
    pub fn new(
        bytes: &'a [u8],
        reads: Reads,
        fails_at: usize,
        kind: ErrorKind,
        tape: &'a Tape,
    ) -> Source<'a> {
        Source {
            rest: bytes,
            given: 0,
            reads,
            calls: 0,
            fails_at,
            kind,
            rooms: (usize::MAX, 0),
            tape,
        }
    }

    /// Returns how often the reader was called.
    pub fn calls(&self) -> usize {
        self.calls
    }

    /// Returns whether each call had room for exactly `room` bytes.
    pub fn has_room(&self, room: usize) -> bool {
        self.calls == 0 || self.rooms == (room, room)
    }

    // Returns how many bytes the next read may give at most.
    fn most(&self) -> usize {
        match self.reads {
            Reads::CutAt(offset) if self.given < offset => offset - self.given,
            Reads::CutAt(_) => usize::MAX,
            Reads::OneByOne | Reads::Endless => 1,
        }
    }
}

impl<'a> Read for Source<'a> {
    fn read(&mut self, buf: &mut [u8]) -> io::Result<usize> {
        self.calls = self.calls.saturating_add(1);
        self.tape.add(Event::Call(Device::Reader))?;
        let (least, greatest) = self.rooms;
        self.rooms = (least.min(buf.len()), greatest.max(buf.len()));
        if self.calls == self.fails_at {
            return Err(io::Error::from(self.kind));
        }
        let count = self.most().min(self.rest.len()).min(buf.len());
        let (prefix, rest) = self.rest.split_at(count);
        buf[..count].copy_from_slice(prefix);
        if !matches!(self.reads, Reads::Endless) || !rest.is_empty() {
            self.rest = rest;
        }
        self.given = self.given.saturating_add(count);
        Ok(count)
    }
}
