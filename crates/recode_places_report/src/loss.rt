//! What is lost at a place, in words.

use crate::cell::is_shown_by_number;
use std::fmt;

/// A malformed sequence: 4 bytes at most.
#[derive(Clone, Copy, PartialEq, Eq, PartialOrd, Ord, Debug)]
pub struct Sequence {
    bytes: [u8; 4],
    length: usize,
}

impl Sequence {
    /// The first 4 bytes, or all if there are fewer.
    pub fn new(bytes: &[u8]) -> Sequence {
        let mut kept = [0; 4];
        for (place, byte) in kept.iter_mut().zip(bytes) {
            *place = *byte;
        }
        Sequence {
            bytes: kept,
            length: bytes.len().min(4),
        }
    }

    fn as_slice(&self) -> &[u8] {
        self.bytes.get(..self.length).unwrap_or(&self.bytes)
    }
}

/// What is lost at a place, with the name of the encoding that has no character for it or no bytes.
/// `Display` shows the words of a report, as `U+65E5 日 has no bytes in windows-1252`.
#[derive(Clone, Copy, PartialEq, Eq, PartialOrd, Ord, Debug)]
pub enum Loss {
    /// Bytes that stand for no character of their encoding.
    Malformed {
        bytes: Sequence,
        encoding: &'static str,
    },
    /// A character that has no bytes.
    Lost {
        scalar: char,
        encoding: &'static str,
    },
    /// A character that is written as the bytes of another, or, if `becomes` is `None`, of a text
    /// that is no single character.
    Folded {
        scalar: char,
        becomes: Option<char>,
        encoding: &'static str,
    },
}

// A character by its number, and, if it can be seen, as it is.
#[derive(Clone, Copy)]
struct Named(char);

impl fmt::Display for Named {
    fn fmt<W: fmt::Write>(&self, f: &mut fmt::Formatter<W>) -> fmt::Result {
        let c = self.0;
        write!(f, "U+{:04X}", u32::from(c))?;
        if is_shown_by_number(c) {
            return Ok(());
        }
        write!(f, " {c}")
    }
}

impl fmt::Display for Sequence {
    fn fmt<W: fmt::Write>(&self, f: &mut fmt::Formatter<W>) -> fmt::Result {
        let bytes = self.as_slice();
        write!(f, "{}", if bytes.len() == 1 { "byte" } else { "bytes" })?;
        for byte in bytes {
            write!(f, " {byte:02X}")?;
        }
        Ok(())
    }
}

impl fmt::Display for Loss {
    fn fmt<W: fmt::Write>(&self, f: &mut fmt::Formatter<W>) -> fmt::Result {
        match *self {
            Loss::Malformed { bytes, encoding } => {
                write!(f, "{bytes} in no character of {encoding}")
            }
            Loss::Lost { scalar, encoding } => {
                write!(f, "{} has no bytes in {encoding}", Named(scalar))
            }
            Loss::Folded {
                scalar,
                becomes: Some(becomes),
                encoding,
            } => {
                write!(
                    f,
                    "{} is written as {} in {encoding}",
                    Named(scalar),
                    Named(becomes)
                )
            }
            Loss::Folded {
                scalar,
                becomes: None,
                encoding,
            } => {
                write!(
                    f,
                    "{} is written as bytes of another text in {encoding}",
                    Named(scalar)
                )
            }
        }
    }
}
