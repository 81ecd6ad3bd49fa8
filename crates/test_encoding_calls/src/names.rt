//! Reads the words that name an encoding, or what is done with a byte order mark.

use anyhow::{Context, bail};
use encoding_front::{Encoding, Mark};

/// Returns the encoding of a label.
pub fn encoding_of(word: &str) -> anyhow::Result<Encoding> {
    Encoding::for_label(word.as_bytes()).context("no encoding has this name")
}

/// Returns what is done with a byte order mark, by its name.
pub fn mark_of(word: &str) -> anyhow::Result<Mark> {
    match word {
        "sniff" => Ok(Mark::Sniff),
        "remove" => Ok(Mark::Remove),
        "keep" => Ok(Mark::Keep),
        _ => bail!("a way to treat marks is not known"),
    }
}
