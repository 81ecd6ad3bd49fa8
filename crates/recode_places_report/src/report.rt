//! What is lost in an input, place by place, as a compiler reports errors.

ghost use Rattle.std.specs.Prelude.{◌≤◌, None};
ghost use Rattle.std.specs.VecDeque.{deque_len};

use crate::cell::{Cell, shown};
use crate::drawing::{draw, push_times};
use crate::loss::{Loss, Sequence};
use crate::ring::Ring;
use encoding_front::Encoding;
use recode_places::{Entry, Finding, Place, Refusal, Visitor};
use std::alloc::{AllocError, Global};
use std::collections::VecDeque;
use std::io::Write;

// How many entries wait at most. Each stands at a cell of its own, and is shown once 24 cells from
// there on have come, so this is never reached by an input.
const MOST_WAITING: usize = 32;

// Codes that a terminal takes for bold, for bold and red, and for plain text.
const BOLD: &str = "\u{1B}[1m";

const RED: &str = "\u{1B}[1;31m";

const PLAIN: &str = "\u{1B}[0m";

// What is to be shown, once enough of its line has come: `cell` is the number of its first cell in
// the line.
#[derive(Clone, Copy)]
struct Note {
    loss: Loss,
    place: Place,
    cell: u64,
    cells: u64,
}

/// Writes what is lost, place by place: `FILE:LINE:COLUMN: WORDS`, then the line of text around the
/// place, at most 48 characters before it and 24 from it on, and a caret under it. Each malformed
/// byte counts as one character there.
///
/// Memory is bounded, whatever the input is. An error is the visitor's: `Write` if the writer
/// failed, `Memory` if memory was refused.
#[derive(Drop)]
pub struct Report<W> {
    alloc: Global,
    writer: W,
    file: String,
    target: &'static str,
    most: u64,
    has_colour: bool,
    count: u64,
    // The place of the malformed sequence whose bytes come next, if it is reported.
    place: Option<Place>,
    ring: Ring,
    waiting: VecDeque<Note>,
    ghost few: { deque_len waiting ≤ 32 },
}

fn write_text<W: Write>(writer: &mut W, text: &str) -> Result<(), Refusal> {
    match writer.write_all(text.as_bytes()) {
        Ok(()) => Ok(()),
        Err(_) => Err(Refusal::Write),
    }
}

fn flush<W: Write>(writer: &mut W) -> Result<(), Refusal> {
    match writer.flush() {
        Ok(()) => Ok(()),
        Err(_) => Err(Refusal::Write),
    }
}

impl<W: Write + Drop> Report<W> {
    /// A report to this writer on an input with this name, which is written in the output encoding
    /// of `to`. At most `most` places are shown; later ones are only counted. The error is that
    /// memory was refused.
    pub fn new(
        alloc: Global,
        writer: W,
        file: &str,
        to: Encoding,
        most: u64,
    ) -> Result<Report<W>, AllocError> {
        Ok(Report {
            alloc,
            writer,
            file: shown(alloc, file)?,
            target: to.output_encoding().name(),
            most,
            has_colour: false,
            count: 0,
            place: None,
            ring: Ring::new(),
            waiting: VecDeque::new(alloc),
        })
    }

    /// This report with the codes of a terminal for bold and red text.
    pub fn coloured(self) -> Report<W> {
        let mut report = self;
        report.has_colour = true;
        report
    }

    /// How many places were reported.
    pub fn count(&self) -> u64 {
        self.count
    }

    /// Gives the writer back.
    pub fn into_writer(self) -> W {
        self.writer
    }

    // The three lines of a place.
    fn lines(&self, note: Note) -> Result<String, AllocError> {
        let Place { line, column, .. } = note.place;
        let number = format!(in self.alloc; "{line}")?;
        let drawing = draw(self.alloc, &self.ring, note.cell, note.cells)?;
        let (bold, red, plain) = if self.has_colour {
            (BOLD, RED, PLAIN)
        } else {
            ("", "", "")
        };
        let mut lines = String::new(self.alloc);
        writeln!(
            lines,
            "{bold}{}:{line}:{column}:{plain} {}",
            self.file, note.loss
        )?;
        writeln!(lines, "  {number} | {}", drawing.text)?;
        push_times(&mut lines, " ", number.len())?;
        lines.push_str("   | ")?;
        push_times(&mut lines, " ", drawing.start)?;
        lines.push_str(red)?;
        push_times(&mut lines, "^", drawing.width)?;
        lines.push_str(plain)?;
        lines.push_str("\n")?;
        Ok(lines)
    }

    // Shows the first thing that waits, if there is one.
    fn show_first(&mut self) -> Result<(), Refusal>
        ensures { deque_len self.new.waiting ≤ 31 }
    {
        let Some(note) = self.waiting.pop_front() else {
            return Ok(());
        };
        let Ok(lines) = self.lines(note) else {
            return Err(Refusal::Memory);
        };
        write_text(&mut self.writer, lines.as_str())
    }

    // Shows what waits, up to the first whose line goes on for too little; all, if the line ends.
    fn show_waiting(&mut self, is_end: bool) -> Result<(), Refusal> {
        for _ in 0..MOST_WAITING {
            match self.waiting.front() {
                Some(note) if is_end || self.ring.goes_on(note.cell) => self.show_first()?,
                _ => break,
            }
        }
        Ok(())
    }

    // Has something shown once the line has gone on.
    fn wait(&mut self, loss: Loss, place: Place, cells: u64) -> Result<(), Refusal> {
        if self.waiting.len() == MOST_WAITING {
            self.show_first()?;
        }
        let note = Note {
            loss,
            place,
            cell: self.ring.count(),
            cells,
        };
        match self.waiting.push_back(note) {
            Ok(()) => Ok(()),
            Err(_) => Err(Refusal::Memory),
        }
    }

    fn push(&mut self, cell: Cell) -> Result<(), Refusal> {
        if cell == Cell::Character('\n') {
            self.show_waiting(true)?;
            self.ring.clear();
            return Ok(());
        }
        self.ring.push(cell);
        self.show_waiting(false)
    }

    // Shows what waits, since no more of the text comes.
    fn end_text(&mut self) -> Result<(), Refusal> {
        self.ring.settle();
        self.show_waiting(true)
    }

    /// Ends a report that an error has cut short: the places so far are shown, and the writer
    /// flushed.
    pub fn cut_short(&mut self) -> Result<(), Refusal> {
        self.end_text()?;
        flush(&mut self.writer)
    }

    // Says how many places there are.
    fn sum(&self) -> Result<String, AllocError> {
        let places = if self.count == 1 { "place" } else { "places" };
        let mut line = format!(in self.alloc; "{}: {} {places}", self.file, self.count)?;
        match self.most {
            0 => {}
            1 => line.push_str(", of which the first is shown")?,
            most => write!(line, ", of which the first {most} are shown")?,
        }
        line.push_str("\n")?;
        Ok(line)
    }

    /// Ends the report, with a line that says how many places there are if not all were shown, and
    /// flushes the writer.
    pub fn finish(&mut self) -> Result<(), Refusal> {
        self.end_text()?;
        if self.count > self.most {
            let Ok(line) = self.sum() else {
                return Err(Refusal::Memory);
            };
            write_text(&mut self.writer, line.as_str())?;
        }
        flush(&mut self.writer)
    }
}

impl<W: Write + Drop> Visitor for Report<W> {
    // It keeps no list of the entries.
    ghost told = { λ _. None };

    fn characters(&mut self, text: &str) -> Result<(), Refusal> {
        let mut rest = text.chars();
        for _ in 0..u64::MAX {
            if self.waiting.is_empty() {
                break;
            }
            let Some(c) = rest.next() else {
                break;
            };
            self.push(Cell::Character(c))?;
        }
        if self.count < self.most {
            self.ring.push_text(rest.as_str());
        }
        Ok(())
    }

    fn malformed(&mut self, bytes: &[u8], encoding: Encoding) -> Result<(), Refusal> {
        if let Some(place) = self.place.take() {
            let loss = Loss::Malformed {
                bytes: Sequence::new(bytes),
                encoding: encoding.name(),
            };
            self.wait(loss, place, bytes.len() as u64)?;
        }
        for byte in bytes {
            self.push(Cell::Byte(*byte))?;
        }
        Ok(())
    }

    fn entry(&mut self, entry: Entry) -> Result<(), Refusal> {
        self.count = self.count.saturating_add(1);
        if self.count > self.most {
            return Ok(());
        }
        let Entry { place, finding } = entry;
        let encoding = self.target;
        match finding {
            Finding::Malformed { .. } => {
                self.place = Some(place);
                Ok(())
            }
            Finding::Lost { scalar } => self.wait(Loss::Lost { scalar, encoding }, place, 1),
            Finding::Folded { scalar, becomes } => {
                self.wait(
                    Loss::Folded {
                        scalar,
                        becomes,
                        encoding,
                    },
                    place,
                    1,
                )
            }
        }
    }
}
