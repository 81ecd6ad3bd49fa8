//! The log up to the message that ends it, if `recode` failed, and that message.

ghost use Rattle.std.specs.Prelude.{◌≤◌};

use std::io::Read;
use std::{io, str};

// How a message begins, at the start of a line: one of `recode`, and the refusal of its words.
const MESSAGES: [&[u8]; 2] = [b"recode: ", b"error:"];

// The length of the longer one.
const LONGEST: usize = 8;

// A log. As a reader it gives the lines before the message.
#[derive(Drop)]
pub(crate) struct Log<L> {
    reader: L,
    bytes: [u8; 4096],
    at: usize,
    len: usize,
    // Whether the next byte begins a line.
    begins_line: bool,
    // Whether the message begins with the next byte.
    is_ended: bool,
    ghost within: { at ≤ len },
    ghost few: { len ≤ 4096 },
}

impl<L: Read> Log<L> {
    pub(crate) fn new(reader: L) -> Log<L> {
        Log {
            reader,
            bytes: [0; 4096],
            at: 0,
            len: 0,
            begins_line: true,
            is_ended: false,
        }
    }

    // Reads until `count` bytes are buffered, or to the end of the log.
    fn fill(&mut self, count: usize) -> io::Result<()> {
        if self.len - self.at >= count {
            return Ok(());
        }
        let kept = self.len - self.at;
        self.bytes.copy_within(self.at..self.len, 0);
        self.at = 0;
        self.len = kept;
        // Each read but the last gives a byte.
        for _ in 0..count {
            if self.len >= count {
                return Ok(());
            }
            let read = self.reader.read(&mut self.bytes[self.len..])?;
            if read == 0 {
                return Ok(());
            }
            self.len += read;
        }
        Ok(())
    }

    // The message, or nothing if there is none. What follows its first 4096 bytes is left out, and
    // so is what follows bytes that are not UTF-8.
    pub(crate) fn message(&mut self) -> &str {
        if !self.is_ended {
            return "";
        }
        let _ = self.fill(4096);
        let log = &*self;
        let bytes = &log.bytes[log.at..log.len];
        match str::from_utf8(bytes) {
            Ok(text) => text,
            Err(error) => str::from_utf8(&bytes[..error.valid_up_to()]).unwrap_or(""),
        }
    }
}

impl<L: Read> Read for Log<L> {
    // Gives at most one line, so that the start of the next one is seen.
    fn read(&mut self, buf: &mut [u8]) -> io::Result<usize> {
        if self.is_ended {
            return Ok(0);
        }
        self.fill(if self.begins_line { LONGEST } else { 1 })?;
        let rest = &self.bytes[self.at..self.len];
        if self.begins_line && MESSAGES.iter().any(|message| rest.starts_with(message)) {
            self.is_ended = true;
            return Ok(0);
        }
        let end = match rest.iter().position(|byte| *byte == b'\n') {
            Some(feed) => feed + 1,
            None => rest.len(),
        };
        let count = end.min(buf.len());
        buf[..count].copy_from_slice(&rest[..count]);
        self.begins_line = rest[..count].ends_with(b"\n");
        self.at += count;
        Ok(count)
    }
}
