//! What is reported of a place, and why a walk may end early.

ghost use Rattle.std.specs.Prelude.{◌≡◌};

use crate::place::Place;
use thiserror::Error;

/// What stands at a place.
#[derive(Clone, Copy, PartialEq, Eq, Debug)]
pub enum Finding {
    /// A malformed sequence: bytes that stand for no character. `offset` is where they begin, in
    /// bytes from the start of the input, and `length` is how many they are.
    Malformed { offset: u64, length: u8 },
    /// A character that the target encoding has no bytes for.
    Lost { scalar: char },
    /// A character whose bytes in the target encoding read back as another text: as the character
    /// `becomes`, or, if it is `None`, as no single character.
    Folded { scalar: char, becomes: Option<char> },
}

/// What stands at a place, and the place. That of a malformed sequence is the place of the U+FFFD
/// that stands for it in the text.
#[derive(Clone, Copy, PartialEq, Eq, Debug)]
pub struct Entry {
    /// Where it stands.
    pub place: Place,
    /// What stands there.
    pub finding: Finding,
}

/// Why a walk ended before the end of the input.
#[derive(Clone, Copy, PartialEq, Eq, Debug, Error)]
pub enum Stop {
    /// A read of the input failed.
    #[error("read fault")]
    Input,
    /// A read of the log failed.
    #[error("log: read fault")]
    Log,
    /// The input has more bytes than an offset of the log can name (2^48).
    #[error("input too long")]
    TooLong,
    /// This line of the log, counted from 1, is no line that `recode` logs for the input with these
    /// encodings, or stands out of order.
    #[error("line {line} of the log is not of this input")]
    Unfit { line: u64 },
    /// What was reported could not be written.
    #[error("write fault")]
    Write,
    /// Memory was refused.
    #[error("out of memory")]
    Memory,
}

/// Why a visitor takes no more.
#[derive(Clone, Copy, PartialEq, Eq, Debug, Error)]
pub enum Refusal {
    /// What it was handed could not be written.
    #[error("write fault")]
    Write,
    /// Memory was refused.
    #[error("out of memory")]
    Memory,
}

impl From<Refusal> for Stop {
    ghost use Rattle.recode_places.specs.Stops.{stop_of};

    ghost from_gives = { λ refusal stop. stop ≡ stop_of refusal };

    fn from(refusal: Refusal) -> Stop {
        match refusal {
            Refusal::Write => Stop::Write,
            Refusal::Memory => Stop::Memory,
        }
    }
}
