//! A program that decodes a stream, piece by piece, and reports each malformed sequence.

use anyhow::ensure;
use encoding_front::{DecoderResult, SHIFT_JIS};
use encoding_index::load;
use encoding_tables::{IndexKind, Tables};
use std::io::{Read, Write};

/// Writes the text of a stream. Prints the offset in the stream and the length of each malformed
/// sequence, which gives no text.
///
/// A call reads as much of its piece as it can. It returns early if the text has no more room, and
/// after a malformed sequence. The last piece is empty, and `last` is true for it.
pub(crate) fn decode_stream<R: Read, W: Write>(
    rt: HostRuntime,
    index: &[u8],
    input: &mut R,
    output: &mut W,
) -> anyhow::Result<()> {
    let alloc = rt.alloc();
    let mut tables = Tables::new(alloc);
    load(alloc, &mut tables, IndexKind::Jis0208, index)?;
    ensure!(SHIFT_JIS.is_ready(&tables), "an index is missing");
    let mut decoder = SHIFT_JIS.new_decoder(&tables);
    let mut piece = [0; 4];
    let mut text = [0; 16];
    let mut offset: u64 = 0;
    for _ in 0..u64::MAX {
        let len = input.read(&mut piece)?;
        let last = len == 0;
        let mut rest = &piece[..len];
        for _ in 0..u64::MAX {
            ensure!(!decoder.is_finished(), "the stream has ended");
            let (result, read, written) = decoder.decode_to_utf8_without_replacement(
                rest, &mut text, last,
            );
            output.write_all(&text[..written])?;
            rest = &rest[read..];
            offset = offset.saturating_add(read as u64);
            match result {
                DecoderResult::InputEmpty => break,
                DecoderResult::OutputFull => {}
                // The decoder has read `more` bytes after the sequence.
                DecoderResult::Malformed(length, more) => {
                    let back = length as u64 + more as u64;
                    println!(rt; "bad {} {length}", offset.saturating_sub(back))?;
                }
            }
        }
        if last {
            break;
        }
    }
    Ok(())
}
