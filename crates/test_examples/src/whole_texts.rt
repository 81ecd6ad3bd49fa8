//! Programs that load what they need and convert a whole text in one call. `is_ready` is the test
//! of the condition of the call that follows it.

use anyhow::{Context, ensure};
use encoding_front::{Encoding, SHIFT_JIS};
use encoding_index::load;
use encoding_tables::{IndexKind, Tables};
use std::alloc::Global;
use std::io::Write;

/// Decodes a text. Prints it, the encoding that it was in and whether anything in it was malformed.
pub(crate) fn decode_text(rt: HostRuntime, index: &[u8], bytes: &[u8]) -> anyhow::Result<()> {
    let alloc = rt.alloc();
    let mut tables = Tables::new(alloc);
    load(alloc, &mut tables, IndexKind::Jis0208, index)?;
    ensure!(SHIFT_JIS.is_ready(&tables), "an index is missing");
    let (text, encoding, had_errors) = SHIFT_JIS.decode(alloc, &tables, bytes)?;
    println!(rt; "{text} {} {had_errors}", encoding.name())?;
    Ok(())
}

/// Encodes a text. Writes the bytes, and prints the encoding that they are in and whether a
/// reference was written for a character that the encoding lacks.
pub(crate) fn encode_text(rt: HostRuntime, index: &[u8], text: &str) -> anyhow::Result<()> {
    let alloc = rt.alloc();
    let mut tables = Tables::new(alloc);
    load(alloc, &mut tables, IndexKind::Jis0208, index)?;
    ensure!(SHIFT_JIS.is_ready(&tables), "an index is missing");
    let (bytes, encoding, had_references) = SHIFT_JIS.encode(alloc, &tables, text)?;
    rt.stdout().write_all(&bytes)?;
    println!(rt; " {} {had_references}", encoding.name())?;
    Ok(())
}

// Two indexes. In a function of its own: what a load promises of all kinds of index is then not
// among what the call of `decode` is proved from, and no proof file is wanted.
fn japanese_tables(alloc: Global, jis0208: &[u8], jis0212: &[u8]) -> anyhow::Result<Tables> {
    let mut tables = Tables::new(alloc);
    load(alloc, &mut tables, IndexKind::Jis0208, jis0208)?;
    load(alloc, &mut tables, IndexKind::Jis0212, jis0212)?;
    Ok(tables)
}

/// Decodes a text in the encoding that a label names, with two indexes, and prints it as
/// `decode_text` does. `Encoding::needs` returns the indexes that an encoding needs.
pub(crate) fn decode_by_label(
    rt: HostRuntime,
    label: &[u8],
    jis0208: &[u8],
    jis0212: &[u8],
    bytes: &[u8],
) -> anyhow::Result<()> {
    let asked = Encoding::for_label(label).context("an unknown label")?;
    let alloc = rt.alloc();
    let tables = japanese_tables(alloc, jis0208, jis0212)?;
    ensure!(asked.is_ready(&tables), "an index is missing");
    let (text, encoding, had_errors) = asked.decode(alloc, &tables, bytes)?;
    println!(rt; "{text} {} {had_errors}", encoding.name())?;
    Ok(())
}
