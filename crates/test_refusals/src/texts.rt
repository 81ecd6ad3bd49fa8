//! The calls that convert whole texts.

ghost use Rattle.encoding_front.specs.Encodings.{IsReady};

use crate::Ended;
use anyhow::bail;
use encoding_front::{Encoding, OneShotFault};
use encoding_mem::{Latin1Bytes, decode_latin1, encode_latin1_lossy, is_str_latin1};
use encoding_tables::Tables;
use std::alloc::Global;
use std::borrow::CowStr;

// Prints bytes after a space: visible ASCII as it is, others as numbers.
fn print_bytes(rt: HostRuntime, bytes: &[u8]) -> anyhow::Result<Ended> {
    print!(rt; " ")?;
    for b in bytes {
        if b.is_ascii_graphic() {
            print!(rt; "{}", char::from(*b))?;
        } else {
            print!(rt; "<{b:02X}>")?;
        }
    }
    Ok(Ended::Well)
}

// Decodes Latin1, and prints the text, and whether it is lent.
pub(crate) fn print_latin1_text(rt: HostRuntime, bytes: &[u8]) -> anyhow::Result<Ended> {
    match decode_latin1(rt.alloc(), bytes) {
        Ok(CowStr::Borrowed(text)) => {
            print!(rt; " lent")?;
            print_bytes(rt, text.as_bytes())
        }
        Ok(CowStr::Owned(text)) => print_bytes(rt, text.as_bytes()),
        Err(_) => Ok(Ended::Refused),
    }
}

// Encodes into Latin1, and prints the bytes, and whether they are lent.
pub(crate) fn print_latin1_bytes(rt: HostRuntime, text: &str) -> anyhow::Result<Ended> {
    if !is_str_latin1(text) {
        bail!("this is not Latin1");
    }
    match encode_latin1_lossy(rt.alloc(), text) {
        Ok(Latin1Bytes::Borrowed(bytes)) => {
            print!(rt; " lent")?;
            print_bytes(rt, bytes)
        }
        Ok(Latin1Bytes::Owned(bytes)) => print_bytes(rt, &bytes),
        Err(_) => Ok(Ended::Refused),
    }
}

// A text whose references need more room than the call asks for at first.
const LOST: &str = "\u{6587}\u{5B57}\u{306F}\u{3001}\u{8AAD}\u{307E}\u{308C}\u{3066}\u{3001}\u{E9}";

// Encodes a text, and prints the encoding, whether a reference was written, and the bytes.
pub(crate) fn print_encoded(
    rt: HostRuntime,
    tables: &Tables,
    encoding: Encoding,
) -> anyhow::Result<Ended> {
    if !encoding.output_encoding().is_ready(tables) {
        return Ok(Ended::NoIndex);
    }
    match encoding.encode(rt.alloc(), tables, LOST) {
        Ok((bytes, output, has_lost)) => {
            print!(rt; " {} {has_lost}", output.name())?;
            print_bytes(rt, &bytes)
        }
        Err(OneShotFault::Memory) => Ok(Ended::Refused),
        Err(fault) => bail!("another fault: {fault}"),
    }
}

// How a byte order mark is treated when bytes are decoded.
#[derive(Clone, Copy)]
pub(crate) enum Marks {
    Sniffed,
    Removed,
    Kept,
    KeptInWellFormedText,
}

// Returns the text of bytes, the encoding in force, and whether there was a malformed sequence.
// Returns `None` if there was one, and the call replaces none.
fn text_of(
    alloc: Global,
    tables: &Tables,
    encoding: Encoding,
    marks: Marks,
    bytes: &[u8],
) -> Result<Option<(String, Encoding, bool)>, OneShotFault>
    requires { IsReady tables.now encoding }
{
    match marks {
        Marks::Sniffed => Ok(Some(encoding.decode(alloc, tables, bytes)?)),
        Marks::Removed => {
            let (text, is_broken) = encoding.decode_with_bom_removal(alloc, tables, bytes)?;
            Ok(Some((text, encoding, is_broken)))
        }
        Marks::Kept => {
            let (text, is_broken) = encoding.decode_without_bom_handling(alloc, tables, bytes)?;
            Ok(Some((text, encoding, is_broken)))
        }
        Marks::KeptInWellFormedText => {
            let text = encoding.decode_without_bom_handling_and_without_replacement(
                alloc, tables, bytes,
            )?;
            Ok(text.map(|text| (text, encoding, false)))
        }
    }
}

// Decodes bytes, and prints the encoding in force, whether there was a malformed sequence, and the
// text.
pub(crate) fn print_decoded(
    rt: HostRuntime,
    tables: &Tables,
    encoding: Encoding,
    marks: Marks,
    bytes: &[u8],
) -> anyhow::Result<Ended> {
    if !encoding.is_ready(tables) {
        return Ok(Ended::NoIndex);
    }
    match text_of(rt.alloc(), tables, encoding, marks, bytes) {
        Ok(Some((text, source, is_broken))) => {
            print!(rt; " {} {is_broken}", source.name())?;
            print_bytes(rt, text.as_bytes())
        }
        Ok(None) => bail!("a sequence is malformed"),
        Err(OneShotFault::Memory) => Ok(Ended::Refused),
        Err(fault) => bail!("another fault: {fault}"),
    }
}
