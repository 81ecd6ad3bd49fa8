//! Joins the log of a part of an input to that of what stands before it.

use anyhow::ensure;
use recode_log::{Counted, LogLine};
use recode_parts::{Before, JoinFault, join_log};
use std::alloc::Global;
use std::io;
use std::io::{ErrorKind, Read};

pub(crate) fn joins_a_log(alloc: Global) -> anyhow::Result<bool> {
    // recode_parts
    let mut log = Counted::new(b"bad 6 1\nlost 7 128169\n".as_slice());
    let mut whole = Counted::new(Vec::new(alloc));
    let before = Before {
        bytes: 1000,
        characters: 900,
    };
    join_log(&mut log, before, &mut whole)?;
    // end
    Ok(whole.get_ref().as_slice() == b"bad 1006 1\nlost 907 128169\n".as_slice())
}

// Puts a line of a log behind others.
fn put_line(log: &mut Vec<u8>, offset: u64) -> anyhow::Result<()> {
    let line = LogLine::Bad { offset, length: 1 };
    ensure!(line.is_valid(), "the offset is too great");
    let mut text = [0; 32];
    let size = line.write_into(&mut text);
    log.extend_from_slice(&text[..size])?;
    Ok(())
}

/// Joins a log of 600 lines, which has more bytes than `join_log` holds at once.
pub(crate) fn joins_a_long_log(alloc: Global) -> anyhow::Result<bool> {
    let mut log = Vec::new(alloc);
    let mut moved = Vec::new(alloc);
    for offset in 0..600 {
        put_line(&mut log, offset)?;
        put_line(&mut moved, offset + 1_000_000)?;
    }
    let mut part = Counted::new(log.as_slice());
    let mut whole = Counted::new(Vec::new(alloc));
    let before = Before {
        bytes: 1_000_000,
        characters: 0,
    };
    join_log(&mut part, before, &mut whole)?;
    Ok(log.len() > 4096 && whole.get_ref().as_slice() == moved.as_slice())
}

// A reader that fails after its bytes.
#[derive(Drop)]
struct Broken<'a> {
    bytes: &'a [u8],
}

impl<'a> Read for Broken<'a> {
    fn read(&mut self, buf: &mut [u8]) -> io::Result<usize> {
        if self.bytes.is_empty() {
            return Err(io::Error::from(ErrorKind::Other));
        }
        self.bytes.read(buf)
    }
}

// Joins a log that is refused for this fault, after these bytes.
fn refuses<R: Read + Drop>(reader: R, fault: JoinFault, joined: &[u8], alloc: Global) -> bool {
    let mut part = Counted::new(reader);
    let mut whole = Counted::new(Vec::new(alloc));
    let before = Before {
        bytes: 1000,
        characters: 900,
    };
    join_log(&mut part, before, &mut whole) == Err(fault)
        && part.failures() == u64::from(fault == JoinFault::Read)
        && whole.get_ref().as_slice() == joined
}

/// Joins logs whose reader fails: before a line, between two lines, and in a line. Each is refused,
/// after the lines that were read.
pub(crate) fn refuses_a_broken_log(alloc: Global) -> bool {
    let rows: [(&[u8], &[u8]); 3] = [
        (b"", b""),
        (b"bad 6 1\n", b"bad 1006 1\n"),
        (b"bad 6 1\nlost 7 12", b"bad 1006 1\n"),
    ];
    for (bytes, joined) in rows {
        if !refuses(Broken { bytes }, JoinFault::Read, joined, alloc) {
            return false;
        }
    }
    true
}

/// Joins texts that end within a line, or have a line that is none of a log. Each is refused, with a
/// prefix of its lines written.
pub(crate) fn refuses_a_text(alloc: Global) -> bool {
    let rows: [(&[u8], &[u8]); 4] = [
        (b"bad 6 1", b""),
        (b"bad 6 1\nlost 7 12", b"bad 1006 1\n"),
        (b"bad 6 1\nrecode: read fault\n", b""),
        (b"bad 281474976710000 1\n", b""),
    ];
    for (text, joined) in rows {
        if !refuses(text, JoinFault::NotALog, joined, alloc) {
            return false;
        }
    }
    true
}
