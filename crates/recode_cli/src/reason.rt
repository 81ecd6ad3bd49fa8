//! The line of standard error that explains a message whose words are fixed.

use crate::noted::Noted;
use recode::{Counted, Encoding};
use recode_log::deliver::tell;
use recode_system::{CommandLine, MissingFile};
use recode_words::{Request, Words, parse_words};
use std::alloc::{AllocError, Global};
use std::io;
use std::io::{ErrorKind, Write};
use thiserror::Error;

// Why a run was refused or failed.
#[derive(Clone, Copy, Debug, Error)]
pub(crate) enum Reason<'a> {
    #[error("standard output is the input file")]
    OutputIsInput,
    // No encoding has the label that was given for this option.
    #[error("{0}: no encoding has this label; recode --list prints all labels")]
    Label(&'static str),
    #[error("{0}; set --indexes to the folder of the index files")]
    Index(&'a MissingFile),
    // A call of this standard stream failed.
    #[error("{0}: {1}")]
    Stream(&'static str, io::Error),
}

impl Reason<'_> {
    // The error of a standard stream, unless its other end was closed: `head` closes it on purpose.
    pub(crate) fn of_stream<T>(
        name: &'static str,
        stream: &Counted<Noted<T>>,
    ) -> Option<Reason<'static>> {
        match stream.get_ref().error {
            Some(error) if error.kind() != ErrorKind::BrokenPipe => {
                Some(Reason::Stream(name, error))
            }
            _ => None,
        }
    }

    // Writes the line, unless memory is refused.
    pub(crate) fn explain<L: Write>(&self, alloc: Global, log: &mut Counted<L>) {
        if let Ok(line) = format!(in alloc; "recode: {self}\n") {
            if log.failures() < u64::MAX {
                tell(log, line.as_bytes());
            }
        }
    }
}

// What the command line asks for.
#[derive(Clone, Copy, PartialEq, Eq, Debug)]
pub(crate) enum Asked {
    // A conversion between two encodings.
    Conversion,
    // A conversion, but no encoding has the label that is given for this option.
    UnknownLabel(&'static str),
    // A text or nothing.
    Other,
}

impl Asked {
    fn of_words(words: &Words<'_>) -> Asked {
        if Encoding::for_label(words.from.as_bytes()).is_none() {
            Asked::UnknownLabel("--from")
        } else if Encoding::for_label(words.to.as_bytes()).is_none() {
            Asked::UnknownLabel("--to")
        } else {
            Asked::Conversion
        }
    }

    fn of_texts(alloc: Global, texts: &[String]) -> Result<Asked, AllocError> {
        let words: Vec<&str> = texts.iter().map(|text| text.as_str()).collect(alloc)?;
        if words.is_empty() {
            return Ok(Asked::Other);
        }
        match parse_words(alloc, words.as_slice()) {
            Ok(Request::Run(words)) => Ok(Asked::of_words(&words)),
            _ => Ok(Asked::Other),
        }
    }

    // What the command line asks for, as far as memory is there to parse it.
    pub(crate) fn of_line<C: CommandLine + AllocGlobal>(line: &C) -> Asked {
        match line.words(line.alloc()) {
            Ok(texts) => Asked::of_texts(line.alloc(), texts.as_slice()).unwrap_or(Asked::Other),
            Err(_) => Asked::Other,
        }
    }
}
