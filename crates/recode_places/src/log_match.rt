//! What the lines of a log name, matched by number.

ghost use Rattle.std.specs.Prelude.{◌≡◌, ◌↔◌, ℕ, ◌+◌, ◌<◌, ◌≤◌, List, [], ◌∷◌, length};
ghost use Rattle.std.specs.Prelude.{IfErr, IfOk, IsTrue, IsErr, IsOk, OnOk};
ghost use Rattle.encoding_mem.specs.Piece.{Piece, malformed};
ghost use Rattle.recode_places.specs.Logs.{IsLoggedAs};
ghost use Rattle.recode_places.specs.Fits.{IsOutside};
ghost use Rattle.recode_places.specs.Stops.{IsOfLog, IsUnfit};
ghost use Rattle.recode_places.specs.calls.Ready.{IsLineIfAny, IsLineIfAny-prop};

use crate::entry::Stop;
use crate::log_lines::{LogLines, NextLine};
use recode_log::LogLine;
use std::io::Read;

/// A log whose lines are matched with an input, a line to the malformed sequence with its offset
/// and length, or to the character with its index and number. The log may be a part of the one
/// that `recode` wrote, such as what `grep` or `head` leaves of it, if the lines are in order. Its
/// clauses speak of a log whose reader says its bytes, as one over memory does.
#[derive(Drop)]
pub struct LogMatch<L> {
    lines: LogLines<L>,
    next: NextLine,
    ghost line: { IsLineIfAny next } by { IsLineIfAny-prop next },
}

impl<L: Read + Drop> LogMatch<L> {
    ghost use Rattle.recode_places.specs.Fits.{Fits, IsLeftOfLog};
    ghost use Rattle.recode_places.specs.Logs.{TakesLines};
    ghost use Rattle.recode_places.specs.calls.LogViews.{match_left, whole_log};
    ghost use Rattle.recode_places.specs.declared.entry.Stop.TheVariants.{Log};

    /// The log that the reader gives. Its first line is read. The error is `Log`, if a read fails.
    pub fn new(reader: L) -> Result<LogMatch<L>, Stop>
        ensures read { IfOk result (λ log. TakesLines (whole_log (L.remaining reader))
            (match_left L.remaining log) []) }
        ensures fits { IfOk result (λ log. (index offset : ℕ) (ps : List Piece)
            → IsLeftOfLog (Fits index offset ps) (whole_log (L.remaining reader))
            → IsLeftOfLog (Fits index offset ps) (match_left L.remaining log)) }
        ensures err { IfErr result (λ stop. stop ≡ Log) }
    {
        let mut lines = LogLines::new(reader);
        let next = lines.next_line()?;
        Ok(LogMatch { lines, next })
    }
}

impl<L: Read> LogMatch<L> {
    ghost use Rattle.recode_places.specs.Fits.{Fits, FitsFrom, GoesOn, IsLeftOfLog};
    ghost use Rattle.recode_places.specs.Logs.{IsLogEnd, ended};
    ghost use Rattle.recode_places.specs.calls.LogViews.{NamesCharacter, NamesMalformed};
    ghost use Rattle.recode_places.specs.calls.LogViews.{NamesSequence, TakesSome, match_left};

    // The error that the last line that was read is not of the input.
    fn unfit<T>(&self) -> Result<T, Stop>
        ensures err { IsErr result }
        ensures stop { IfErr result IsUnfit }
    {
        Err(Stop::Unfit {
            line: self.lines.number(),
        })
    }

    /// If this is true, no line that comes next names a character of a text of so many bytes, whose
    /// first character has this index. It may be false of any text, which costs only time.
    pub fn passes_over(&self, index: u64, len: usize) -> bool
        ensures fits { (offset : ℕ) (t : List ℕ) (ps : List Piece) → IsTrue result
            → length t ≤ len
            → IsLeftOfLog (FitsFrom index offset t ps) (match_left L.remaining self.now)
            → IsLeftOfLog (Fits (index + length t) offset ps) (match_left L.remaining self.now) }
    {
        match self.next {
            NextLine::Line(line) => is_outside(line, index, len),
            NextLine::End => true,
            NextLine::Other => false,
        }
    }

    /// Whether the next line names this character, which has this index. Its line is read.
    ///
    /// The error is `Unfit` if the line names a character that was passed, or another character
    /// with this index, or if what comes next is no line; and `Log` if the log can't be read. There
    /// is no other. A log that fits is never refused.
    pub fn names_character(&mut self, index: u64, c: char) -> Result<bool, Stop>
        ensures named { IfOk result (λ is_named. TakesSome (match_left L.remaining self.old)
            (match_left L.remaining self.new) (NamesCharacter index c is_named)) }
        ensures fits { (offset : ℕ) (t : List ℕ) (ps : List Piece)
            → IsLeftOfLog (FitsFrom index offset (c ∷ t) ps) (match_left L.remaining self.old)
            → GoesOn result (FitsFrom (index + 1) offset t ps)
            (match_left L.remaining self.new) }
        ensures stop { IfErr result IsOfLog }
    {
        match self.next {
            NextLine::Line(
                LogLine::Lost {
                    index: next,
                    scalar,
                },
            ) => {
                if next > index {
                    return Ok(false);
                }
                if next == index && is_logged_as(c, scalar) {
                    self.next = self.lines.next_line()?;
                    Ok(true)
                } else {
                    self.unfit()
                }
            }
            NextLine::Line(LogLine::Bad { .. }) | NextLine::End => Ok(false),
            NextLine::Other => self.unfit(),
        }
    }

    // Whether the next line names a malformed sequence at this offset. Its line is read.
    fn names_sequence(&mut self, offset: u64, length: u8) -> Result<bool, Stop>
        ensures named { IfOk result (λ is_named. TakesSome (match_left L.remaining self.old)
            (match_left L.remaining self.new) (NamesSequence offset length is_named)) }
        ensures fits { (index : ℕ) (ps : List Piece) → 0 < length
            → IsLeftOfLog (Fits index offset (malformed length ∷ ps))
            (match_left L.remaining self.old)
            → GoesOn result (FitsFrom index (offset + length) (0xFFFD ∷ []) ps)
            (match_left L.remaining self.new) }
        ensures stop { IfErr result IsOfLog }
    {
        match self.next {
            NextLine::Line(
                LogLine::Bad {
                    offset: next,
                    length: len,
                },
            ) => {
                if next > offset {
                    return Ok(false);
                }
                if next == offset && len == length {
                    self.next = self.lines.next_line()?;
                    Ok(true)
                } else {
                    self.unfit()
                }
            }
            NextLine::Line(LogLine::Lost { .. }) | NextLine::End => Ok(false),
            NextLine::Other => self.unfit(),
        }
    }

    /// Whether the next line names this malformed sequence, or the U+FFFD with this index that
    /// stands for it. Both lines are read, if both are there.
    ///
    /// The error is `Unfit` if the line names something that was passed, a sequence of another
    /// length with this offset, or another character with this index, or if what comes next is no
    /// line; and `Log` if the log can't be read. There is no other. A log that fits is never
    /// refused.
    pub fn names_malformed(&mut self, index: u64, offset: u64, length: u8) -> Result<bool, Stop>
        ensures named { IfOk result (λ is_named. TakesSome (match_left L.remaining self.old)
            (match_left L.remaining self.new) (NamesMalformed index offset length is_named)) }
        ensures fits { (ps : List Piece) → 0 < length
            → IsLeftOfLog (Fits index offset (malformed length ∷ ps))
            (match_left L.remaining self.old)
            → GoesOn result (Fits (index + 1) (offset + length) ps)
            (match_left L.remaining self.new) }
        ensures stop { IfErr result IsOfLog }
    {
        if self.names_sequence(offset, length)? {
            self.names_character(index, '\u{FFFD}')?;
            Ok(true)
        } else {
            self.names_character(index, '\u{FFFD}')
        }
    }

    /// Tells that the input is at its end. The error is `Unfit`, if the log has one more line, or
    /// something that is none.
    pub fn finish(&self) -> Result<(), Stop>
        ensures end { OnOk result (match_left L.remaining self.now ≡ ended) }
        ensures fits { IsLeftOfLog IsLogEnd (match_left L.remaining self.now) → IsOk result }
        ensures stop { IfErr result IsUnfit }
    {
        match self.next {
            NextLine::End => Ok(()),
            NextLine::Line(_) | NextLine::Other => self.unfit(),
        }
    }
}

// Whether a line names no character of a text of so many bytes, whose first character has this
// index, nor one before it.
fn is_outside(line: LogLine, index: u64, len: usize) -> bool
    ensures { IsTrue result → IsOutside index len line }
{
    match line {
        LogLine::Lost { index: next, .. } => next >= index && next - index >= len as u64,
        LogLine::Bad { .. } => true,
    }
}

// Whether a line with this number is of the character: its own, or, for the three controls that
// ISO-2022-JP refuses, U+FFFD.
fn is_logged_as(c: char, scalar: char) -> bool
    ensures { IsTrue result ↔ IsLoggedAs c scalar }
{
    scalar == c || (scalar == '\u{FFFD}' && matches!(c, '\u{E}' | '\u{F}' | '\u{1B}'))
}
