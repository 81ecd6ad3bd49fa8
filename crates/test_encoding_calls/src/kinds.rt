//! The form of a text, and how a call ended.

use encoding_front::CoderResult;
use encoding_mem::{DecoderResult, EncoderResult};
use std::alloc::{AllocError, Global};

/// The form of a text.
#[derive(Clone, Copy, PartialEq, Eq, Debug)]
pub enum Form {
    Utf8,
    Utf16,
}

impl Form {
    /// Returns the form that a word names.
    pub fn of(word: &str) -> Option<Form> {
        match word {
            "utf-8" => Some(Form::Utf8),
            "utf-16" => Some(Form::Utf16),
            _ => None,
        }
    }

    /// Returns the least room that a decoder is given.
    pub fn least_room(self) -> usize {
        match self {
            Form::Utf8 => 4,
            Form::Utf16 => 2,
        }
    }

    /// Adds the bytes or units of a character to an output.
    pub fn add(self, c: char, output: &mut Vec<u32>) -> Result<(), AllocError> {
        match self {
            Form::Utf8 => {
                let mut bytes = [0; 4];
                for byte in c.encode_utf8(&mut bytes).as_bytes() {
                    output.push(u32::from(*byte))?;
                }
            }
            Form::Utf16 => {
                let mut units = [0; 2];
                for unit in c.encode_utf16(&mut units).iter() {
                    output.push(u32::from(*unit))?;
                }
            }
        }
        Ok(())
    }
}

/// How a call of a decoder or an encoder ended.
#[derive(Clone, Copy, PartialEq, Eq, Debug)]
pub enum Outcome {
    InputEmpty,
    OutputFull,
    /// The length of the sequence, and how many bytes were read after it.
    Malformed(usize, usize),
    Unmappable(char),
}

impl Outcome {
    /// Returns the outcome of a call that replaces what it cannot convert.
    pub fn of_coder(outcome: CoderResult) -> Outcome {
        match outcome {
            CoderResult::InputEmpty => Outcome::InputEmpty,
            CoderResult::OutputFull => Outcome::OutputFull,
        }
    }

    // Returns the outcome of a call of a decoder.
    pub(crate) fn of_decoder(outcome: DecoderResult) -> Outcome {
        match outcome {
            DecoderResult::InputEmpty => Outcome::InputEmpty,
            DecoderResult::OutputFull => Outcome::OutputFull,
            DecoderResult::Malformed(len, behind) => {
                Outcome::Malformed(usize::from(len), usize::from(behind))
            }
        }
    }

    /// Returns the outcome of a call of an encoder.
    pub fn of_encoder(outcome: EncoderResult) -> Outcome {
        match outcome {
            EncoderResult::InputEmpty => Outcome::InputEmpty,
            EncoderResult::OutputFull => Outcome::OutputFull,
            EncoderResult::Unmappable(c) => Outcome::Unmappable(c),
        }
    }
}

/// A part of what a stream is converted to.
#[derive(Clone, Copy, PartialEq, Eq, Debug)]
pub enum Item {
    /// A byte or a unit.
    Output(u32),
    /// Where a malformed sequence begins, and how long it is.
    Malformed(usize, usize),
    Unmappable(char),
}

// Returns bytes or units as numbers.
pub(crate) fn widened<T: Copy>(alloc: Global, output: &[T]) -> Result<Vec<u32>, AllocError>
where
    u32: From<T>,
{
    let mut wide = Vec::new(alloc);
    for item in output {
        wide.push(u32::from(*item))?;
    }
    Ok(wide)
}
