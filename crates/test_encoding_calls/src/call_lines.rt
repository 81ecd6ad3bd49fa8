//! The lines of single calls, each with all that must come of the call.

use crate::kinds::{Form, Outcome};
use anyhow::{Context, bail};
use std::alloc::Global;
use test_case_lines::words::{add_bytes, decimal, numbers, scalar};

/// What a call is given.
#[derive(Drop)]
pub enum Source {
    /// What the call before left unread.
    Rest,
    /// The bytes for a decoder, or the characters for an encoder. A surrogate stands for one unit
    /// of UTF-16.
    Numbers(Vec<u32>),
}

/// How a call must end. A case may leave open how many bytes are read after a malformed sequence.
#[derive(Clone, Copy)]
pub enum Ending {
    Exactly(Outcome),
    /// A malformed sequence of this length, after which any number of bytes may be read.
    Malformed(usize),
}

impl Ending {
    /// Returns the outcome that the call must have. The number that a case leaves open is that of
    /// the actual outcome.
    pub fn of(self, outcome: Outcome) -> Outcome {
        match (self, outcome) {
            (Ending::Exactly(expected), _) => expected,
            (Ending::Malformed(len), Outcome::Malformed(_, behind)) => {
                Outcome::Malformed(len, behind)
            }
            (Ending::Malformed(len), _) => Outcome::Malformed(len, 0),
        }
    }
}

/// What must hold after a call.
#[derive(Clone, Copy, PartialEq, Eq, Debug)]
pub enum State {
    Pending(usize),
    /// Whether a decoder is in the state in which a stream begins.
    Neutral(bool),
    /// Whether an encoder has an escape to write.
    Escape(bool),
    /// Whether an encoder reports that it wrote a reference.
    Lost(bool),
}

impl State {
    /// Returns whether both states are of one kind, such as two numbers of pending bytes.
    pub fn is_of_kind(self, other: State) -> bool {
        matches!(
            (self, other),
            (State::Pending(_), State::Pending(_))
                | (State::Neutral(_), State::Neutral(_))
                | (State::Escape(_), State::Escape(_))
                | (State::Lost(_), State::Lost(_))
        )
    }
}

/// What a `Decoder` must answer after a call.
#[derive(Drop)]
pub enum Ask {
    Finished(bool),
    /// Whether the call reports that it replaced a malformed sequence.
    Errors(bool),
    /// The name of the encoding that the decoder has found.
    Found(String),
    /// The number of bytes still to come, and the rooms for them: in units, in bytes without
    /// replacement, and in bytes with it. A room that the case leaves open is `None`.
    Rooms(usize, [Option<Option<usize>>; 3]),
    /// Some bytes, and how many of them must be Latin1, or `None` if the decoder must return no
    /// number.
    Latin1(Vec<u8>, Option<usize>),
}

/// The room of a call.
#[derive(Clone, Copy)]
pub enum Given {
    Room(usize),
    /// The room that the decoder asks for just before the call.
    Asked,
}

/// A call, and what must come of it.
#[derive(Drop)]
pub struct CallLine {
    pub number: usize,
    pub form: Form,
    pub room: Given,
    pub last: bool,
    /// Whether an `Encoder` writes references, or a `Decoder` U+FFFD.
    pub replaces: bool,
    pub source: Source,
    pub ending: Ending,
    pub read: Option<usize>,
    /// The characters that a decoder writes, or the bytes that an encoder writes.
    pub output: Vec<u32>,
    pub states: Vec<State>,
    pub asks: Vec<Ask>,
}

fn ending_of(words: &str) -> anyhow::Result<Ending> {
    let mut words = words.split_whitespace();
    match words.next().unwrap_or("") {
        "InputEmpty" => Ok(Ending::Exactly(Outcome::InputEmpty)),
        "OutputFull" => Ok(Ending::Exactly(Outcome::OutputFull)),
        "Unmappable" => {
            let c = scalar(words.next().context("no character is named")?)?;
            Ok(Ending::Exactly(Outcome::Unmappable(c)))
        }
        "Malformed" => {
            let len = decimal(words.next().context("no length is there")?)?;
            match words.next().context("no number behind is there")? {
                "?" => Ok(Ending::Malformed(len)),
                word => Ok(Ending::Exactly(Outcome::Malformed(len, decimal(word)?))),
            }
        }
        _ => bail!("an outcome is not known"),
    }
}

/// Reads a number in decimal digits, or `none`.
pub fn number_or_none(word: &str) -> anyhow::Result<Option<usize>> {
    if word == "none" {
        return Ok(None);
    }
    Ok(Some(decimal(word)?))
}

// Reads a room: a number, `none` if the room does not fit a `usize`, or `?` if the case leaves the
// room open.
fn room_or_open(word: &str) -> anyhow::Result<Option<Option<usize>>> {
    if word == "?" {
        return Ok(None);
    }
    Ok(Some(number_or_none(word)?))
}

/// Reads words such as `found UTF-8`, `rooms 1 4 9 ?` and `latin1 6180 1`. Returns `None` if they
/// ask nothing of a `Decoder`.
pub fn ask_of(alloc: Global, words: &str) -> anyhow::Result<Option<Ask>> {
    match words {
        "finished" => return Ok(Some(Ask::Finished(true))),
        "not finished" => return Ok(Some(Ask::Finished(false))),
        "errors" => return Ok(Some(Ask::Errors(true))),
        "no errors" => return Ok(Some(Ask::Errors(false))),
        _ => {}
    }
    let mut words = words.split_whitespace();
    match words.next().unwrap_or("") {
        "found" => {
            let name = String::from_str(alloc, words.next().unwrap_or(""))?;
            Ok(Some(Ask::Found(name)))
        }
        "rooms" => {
            let n = decimal(words.next().unwrap_or(""))?;
            let units = room_or_open(words.next().unwrap_or(""))?;
            let bytes = room_or_open(words.next().unwrap_or(""))?;
            let replaced = room_or_open(words.next().unwrap_or(""))?;
            Ok(Some(Ask::Rooms(n, [units, bytes, replaced])))
        }
        "latin1" => {
            let mut bytes = Vec::new(alloc);
            let word = words.next().unwrap_or("");
            if word != "-" {
                add_bytes(word, &mut bytes)?;
            }
            let most = number_or_none(words.next().unwrap_or(""))?;
            Ok(Some(Ask::Latin1(bytes, most)))
        }
        _ => Ok(None),
    }
}

fn state_of(words: &str) -> anyhow::Result<State> {
    match words {
        "neutral" => Ok(State::Neutral(true)),
        "not neutral" => Ok(State::Neutral(false)),
        "escape" => Ok(State::Escape(true)),
        "no escape" => Ok(State::Escape(false)),
        "lost" => Ok(State::Lost(true)),
        "not lost" => Ok(State::Lost(false)),
        _ => {
            let number = words
                .strip_prefix("pending ")
                .context("a state is not known")?;
            Ok(State::Pending(decimal(number)?))
        }
    }
}

fn source_of(alloc: Global, words: &str) -> anyhow::Result<Source> {
    if words == "rest" {
        return Ok(Source::Rest);
    }
    Ok(Source::Numbers(numbers(alloc, words)?))
}

// Reads how many bytes or units the call must read. Returns `None` for `?`, which leaves this open.
fn read_of(word: &str) -> anyhow::Result<Option<usize>> {
    if word == "?" {
        return Ok(None);
    }
    Ok(Some(decimal(word)?))
}

// Reads the form, the room, whether the call is the last, and whether it replaces what it cannot
// convert.
fn head_of(words: &str) -> anyhow::Result<(Form, Given, bool, bool)> {
    let mut words = words.split_whitespace();
    let form = Form::of(words.next().unwrap_or("")).context("a form is not known")?;
    let room = match words.next().context("no room is there")? {
        "asked" => Given::Asked,
        word => Given::Room(decimal(word)?),
    };
    let (mut last, mut replaces) = (false, false);
    for word in words {
        match word {
            "last" => last = true,
            "replaced" => replaces = true,
            _ => bail!("a word is neither `replaced` nor `last`"),
        }
    }
    Ok((form, room, last, replaces))
}

impl CallLine {
    /// Reads a line such as `utf-8 8 last: B0 41 -> Malformed 1 0, 1, AC00, pending 0`.
    pub fn of(alloc: Global, number: usize, line: &str) -> anyhow::Result<Self> {
        let (call, told) = line.split_once(" -> ").context("a call has no ` -> `")?;
        let (head, source) = call.split_once(':').context("a call has no `:`")?;
        let (form, room, last, replaces) = head_of(head)?;
        let mut fields = told.split(',');
        let ending = ending_of(fields.next().unwrap_or(""))?;
        let read = read_of(fields.next().context("a number read is not there")?.trim())?;
        let output = fields.next().context("an output is not there")?;
        let mut line = CallLine {
            number,
            form,
            room,
            last,
            replaces,
            source: source_of(alloc, source.trim())?,
            ending,
            read,
            output: numbers(alloc, output)?,
            states: Vec::new(alloc),
            asks: Vec::new(alloc),
        };
        for field in fields {
            line.add(alloc, field.trim())?;
        }
        Ok(line)
    }

    // Adds an answer that must be given, or a state that must hold, after the call.
    fn add(&mut self, alloc: Global, field: &str) -> anyhow::Result<()> {
        match ask_of(alloc, field)? {
            Some(ask) => self.asks.push(ask)?,
            None => self.states.push(state_of(field)?)?,
        }
        Ok(())
    }
}
