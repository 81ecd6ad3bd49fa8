//! The lines of a log, one by one.

ghost use Rattle.std.specs.Prelude.{◌≡◌, ◌≤◌, ◌<◌, IfErr, IfOk, IfSome, OnOk, Some, true, false};
ghost use Rattle.std.specs.Io.KnownBytes.{IsAtEnd};

use crate::entry::Stop;
use recode_log::LogLine;
use std::io::Read;

/// What comes next in a log.
#[derive(Clone, Copy, PartialEq, Eq, Debug)]
pub enum NextLine {
    /// A line that names a malformed sequence or a character.
    Line(LogLine),
    /// Nothing more: the log is at its end, its last line is cut short, or a message of `recode`
    /// follows, which is always last.
    End,
    /// Something that is no line of a log.
    Other,
}

impl NextLine {
    ghost use Rattle.recode_places.specs.calls.LogViews.{IsMeaning};

    // What some bytes of the log say, which are a whole line or too many for one.
    fn of(bytes: &[u8]) -> NextLine
        ensures { IsMeaning bytes.now result }
    {
        match LogLine::parse(bytes) {
            Some(line) => NextLine::Line(line),
            None if bytes.starts_with(b"recode: ") => NextLine::End,
            None => NextLine::Other,
        }
    }
}

// More than any line of a log has, in bytes.
const LONGEST: usize = 64;

/// The lines of a log, read as they are asked for.
#[derive(Drop)]
pub struct LogLines<L> {
    reader: L,
    bytes: [u8; 4096],
    at: usize,
    len: usize,
    number: u64,
    ghost within: { at ≤ len },
    ghost few: { len ≤ 4096 },
}

impl<L: Read> LogLines<L> {
    ghost use Rattle.recode_places.specs.calls.LogViews.{ReadsByte, ReadsLine, unread};
    ghost use Rattle.recode_places.specs.calls.Ready.{IsLineIfAny};
    ghost use Rattle.recode_places.specs.declared.entry.Stop.TheVariants.{Log};

    /// The lines of what the reader gives.
    pub fn new(reader: L) -> LogLines<L>
        ensures { unread L.remaining result ≡ L.remaining reader }
    {
        LogLines {
            reader,
            bytes: [0; 4096],
            at: 0,
            len: 0,
            number: 0,
        }
    }

    /// How many lines were asked for: the number of the last one, counted from 1.
    pub fn number(&self) -> u64 {
        self.number
    }

    // Reads on, if no byte is at hand. Returns whether one is then.
    fn fill(&mut self) -> Result<bool, Stop>
        ensures left { OnOk result (IfSome (unread L.remaining self.old)
            (λ x. unread L.remaining self.new ≡ Some x)) }
        ensures some { IfOk result (λ is_there. is_there ≡ true → self.new.at < self.new.len) }
        ensures end { IfOk result (λ is_there. is_there ≡ false
            → IsAtEnd (unread L.remaining self.new)) }
        ensures err { IfErr result (λ stop. stop ≡ Log) }
    {
        if self.at < self.len {
            return Ok(true);
        }
        self.at = 0;
        self.len = 0;
        let Ok(count) = self.reader.read(&mut self.bytes) else {
            return Err(Stop::Log);
        };
        self.len = count;
        Ok(count > 0)
    }

    // The next byte of the log, or `None` at its end.
    fn byte(&mut self) -> Result<Option<u8>, Stop>
        ensures read { IfOk result (ReadsByte (unread L.remaining self.old)
            (unread L.remaining self.new)) }
        ensures err { IfErr result (λ stop. stop ≡ Log) }
    {
        if self.fill()? {
            let byte = self.bytes[self.at];
            self.at += 1;
            Ok(Some(byte))
        } else {
            Ok(None)
        }
    }

    /// Reads the next line. The error is `Log`, if a read fails.
    pub fn next_line(&mut self) -> Result<NextLine, Stop>
        ensures read { IfOk result (ReadsLine (unread L.remaining self.old)
            (unread L.remaining self.new)) }
        ensures line { IfOk result IsLineIfAny }
        ensures err { IfErr result (λ stop. stop ≡ Log) }
    {
        self.number = self.number.saturating_add(1);
        let mut line = [0; LONGEST];
        for at in 0..LONGEST {
            let Some(byte) = self.byte()? else {
                return Ok(NextLine::End);
            };
            line[at] = byte;
            if byte == b'\n' {
                return Ok(NextLine::of(&line[..at + 1]));
            }
        }
        Ok(NextLine::of(&line))
    }
}
