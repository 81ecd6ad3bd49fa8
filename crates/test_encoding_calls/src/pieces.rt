//! Streams and texts in pieces, each piece with what it becomes.

use crate::kinds::{Form, Item};
use anyhow::Context;
use std::alloc::Global;
use test_case_lines::words::{add_bytes, scalar};

/// The bytes of a stream, and what they are decoded to.
#[derive(Drop)]
pub struct DecodedStream {
    pub bytes: Vec<u8>,
    /// The text, with U+FFFD for each malformed sequence.
    pub text: String,
    pub utf8: Vec<Item>,
    pub utf16: Vec<Item>,
}

// Adds the bytes or units of a character to a stream.
fn add_character(alloc: Global, form: Form, c: char, items: &mut Vec<Item>) -> anyhow::Result<()> {
    let mut output = Vec::new(alloc);
    form.add(c, &mut output)?;
    for number in output.iter() {
        items.push(Item::Output(*number))?;
    }
    Ok(())
}

impl DecodedStream {
    /// Reads pieces such as `B0A1=AC00`, `8862=CA+304` and `1B2842=`. A malformed piece is `B0=!`.
    pub fn of(alloc: Global, pieces: &str) -> anyhow::Result<Self> {
        let mut stream = DecodedStream {
            bytes: Vec::new(alloc),
            text: String::new(alloc),
            utf8: Vec::new(alloc),
            utf16: Vec::new(alloc),
        };
        for piece in pieces.split_whitespace() {
            let (bytes, text) = piece.split_once('=').context("a piece has no `=`")?;
            stream.add(alloc, bytes, text)?;
        }
        Ok(stream)
    }

    fn add(&mut self, alloc: Global, bytes: &str, text: &str) -> anyhow::Result<()> {
        let start = self.bytes.len();
        add_bytes(bytes, &mut self.bytes)?;
        if text == "!" {
            let malformed = Item::Malformed(start, self.bytes.len().wrapping_sub(start));
            self.utf8.push(malformed)?;
            self.utf16.push(malformed)?;
            self.text.push('\u{FFFD}')?;
            return Ok(());
        }
        for word in text.split('+').filter(|word| !word.is_empty()) {
            let c = scalar(word)?;
            self.text.push(c)?;
            add_character(alloc, Form::Utf8, c, &mut self.utf8)?;
            add_character(alloc, Form::Utf16, c, &mut self.utf16)?;
        }
        Ok(())
    }

    /// Returns whether a piece is malformed.
    pub fn is_malformed(&self) -> bool {
        self.utf8
            .iter()
            .any(|item| matches!(item, Item::Malformed(_, _)))
    }

    /// Returns the text as a decoder writes it that replaces malformed sequences.
    pub fn replaced(&self, alloc: Global, form: Form) -> anyhow::Result<Vec<Item>> {
        let mut items = Vec::new(alloc);
        for c in self.text.chars() {
            add_character(alloc, form, c, &mut items)?;
        }
        Ok(items)
    }

    /// Returns what the pieces become in a form.
    pub fn items(&self, form: Form) -> &[Item] {
        match form {
            Form::Utf8 => self.utf8.as_slice(),
            Form::Utf16 => self.utf16.as_slice(),
        }
    }
}

/// The text of a stream, and what it is encoded to.
#[derive(Drop)]
pub struct EncodedStream {
    pub text: String,
    pub units: Vec<u16>,
    /// Where characters end, in bytes and in units. The first place is the start of the text.
    pub cuts: Vec<(usize, usize)>,
    pub items: Vec<Item>,
}

impl EncodedStream {
    /// Reads pieces such as `AC00=B0A1`, `30CF=1B2442254F` and `=1B2842`. A character without bytes
    /// is `1F4A9=!`, or `1F4A9=1B2842!` if an escape is written first. In `E=!FFFD` another
    /// character is reported.
    pub fn of(alloc: Global, pieces: &str) -> anyhow::Result<Self> {
        let mut stream = EncodedStream {
            text: String::new(alloc),
            units: Vec::new(alloc),
            cuts: Vec::new(alloc),
            items: Vec::new(alloc),
        };
        stream.cuts.push((0, 0))?;
        for piece in pieces.split_whitespace() {
            let (text, bytes) = piece.split_once('=').context("a piece has no `=`")?;
            stream.add(alloc, text, bytes)?;
        }
        Ok(stream)
    }

    fn add(&mut self, alloc: Global, text: &str, output: &str) -> anyhow::Result<()> {
        if !text.is_empty() {
            let c = scalar(text)?;
            self.text.push(c)?;
            let mut units = [0; 2];
            self.units.extend_from_slice(c.encode_utf16(&mut units))?;
            self.cuts.push((self.text.len(), self.units.len()))?;
        }
        let mut bytes = Vec::new(alloc);
        match output.split_once('!') {
            None => add_bytes(output, &mut bytes)?,
            Some((escape, _)) => add_bytes(escape, &mut bytes)?,
        }
        for byte in bytes.iter() {
            self.items.push(Item::Output(u32::from(*byte)))?;
        }
        if let Some((_, reported)) = output.split_once('!') {
            let word = if reported.is_empty() { text } else { reported };
            self.items.push(Item::Unmappable(scalar(word)?))?;
        }
        Ok(())
    }
}
