//! A program that encodes a stream, piece by piece, and reports each character without bytes.

use anyhow::ensure;
use encoding_front::{EncoderResult, Reference, SHIFT_JIS, write_reference};
use encoding_index::load;
use encoding_tables::{IndexKind, Tables};
use std::io::Write;

/// Writes the pieces of a text in Shift_JIS. Prints the offset in the text of each character
/// without bytes, and writes a reference in its place.
///
/// A call reads as much of its piece as it can. It returns early if there is no more room, and
/// after a character without bytes. `last` is true for the last piece.
pub(crate) fn encode_stream<W: Write>(
    rt: HostRuntime,
    index: &[u8],
    pieces: &[&str],
    output: &mut W,
) -> anyhow::Result<()> {
    let alloc = rt.alloc();
    let mut tables = Tables::new(alloc);
    load(alloc, &mut tables, IndexKind::Jis0208, index)?;
    ensure!(SHIFT_JIS.is_ready(&tables), "an index is missing");
    let mut encoder = SHIFT_JIS.new_encoder(&tables);
    let mut bytes = [0; 16];
    let mut reference = [0; 10];
    let mut offset: u64 = 0;
    for (number, piece) in pieces.iter().enumerate() {
        let last = number == pieces.len() - 1;
        let mut rest = *piece;
        for _ in 0..u64::MAX {
            let (result, read, written) = encoder.encode_from_utf8_without_replacement(
                rest, &mut bytes, last,
            );
            output.write_all(&bytes[..written])?;
            rest = &rest[read..];
            offset = offset.saturating_add(read as u64);
            match result {
                EncoderResult::InputEmpty => break,
                EncoderResult::OutputFull => {}
                // The character is the last of what was read.
                EncoderResult::Unmappable(c) => {
                    let start = offset.saturating_sub(c.len_utf8() as u64);
                    println!(rt; "lost {start} {}", u32::from(c))?;
                    let len = write_reference(c, Reference::Decimal, &mut reference);
                    output.write_all(&reference[..len])?;
                }
            }
        }
    }
    Ok(())
}
