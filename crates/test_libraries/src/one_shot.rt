//! Calls for whole inputs, with results worked by hand.

use encoding_front::{Encoding, OneShotFault, UTF_8, UTF_16LE, WINDOWS_1257, X_USER_DEFINED};
use encoding_tables::{IndexKind, Tables};
use std::alloc::{AllocError, Global};
use std::test::Fail;

// Returns tables with these entries of windows-1257.
fn baltic(alloc: Global, entries: &[(usize, u32)]) -> Tables {
    let mut list = [0; 128];
    for &(pointer, scalar) in entries {
        if let Some(entry) = list.get_mut(pointer) {
            *entry = scalar;
        }
    }
    let mut tables = Tables::new(alloc);
    let _ = tables.insert(IndexKind::Windows1257, &list);
    tables
}

// Returns whether the call that sniffs marks returns the text, the encoding and the flag of `want`.
fn is_sniffed(
    alloc: Global,
    tables: &Tables,
    encoding: Encoding,
    bytes: &[u8],
    want: (&str, Encoding, bool),
) -> Result<bool, OneShotFault> {
    if !encoding.is_ready(tables) {
        return Ok(false);
    }
    let (text, source, bad) = encoding.decode(alloc, tables, bytes)?;
    Ok(text.as_bytes() == want.0.as_bytes() && source == want.1 && bad == want.2)
}

// Returns whether the call that removes the encoding's own mark returns the text and the flag of
// `want`.
fn is_removed(
    alloc: Global,
    tables: &Tables,
    encoding: Encoding,
    bytes: &[u8],
    want: (&str, bool),
) -> Result<bool, OneShotFault> {
    if !encoding.is_ready(tables) {
        return Ok(false);
    }
    let (text, bad) = encoding.decode_with_bom_removal(alloc, tables, bytes)?;
    Ok(text.as_bytes() == want.0.as_bytes() && bad == want.1)
}

// Returns whether the call that reads a mark as text returns the text and the flag of `want`. The
// call without replacement must return this text, or none if a piece is malformed.
fn is_kept(
    alloc: Global,
    tables: &Tables,
    encoding: Encoding,
    bytes: &[u8],
    want: (&str, bool),
) -> Result<bool, OneShotFault> {
    if !encoding.is_ready(tables) {
        return Ok(false);
    }
    let (text, bad) = encoding.decode_without_bom_handling(alloc, tables, bytes)?;
    let good = encoding.decode_without_bom_handling_and_without_replacement(alloc, tables, bytes)?;
    let is_good = match good {
        Some(good) => !bad && good.as_bytes() == want.0.as_bytes(),
        None => bad,
    };
    Ok(text.as_bytes() == want.0.as_bytes() && bad == want.1 && is_good)
}

const EURO: &[(usize, u32)] = &[(0, 0x20AC), (100, 0xE4)];

// Returns a text of `count` euro signs.
fn euros(alloc: Global, count: usize) -> Result<String, AllocError> {
    let mut text = String::new(alloc);
    for _ in 0..count {
        text.push('\u{20AC}')?;
    }
    Ok(text)
}

// Each call asks for more than 1 MiB of room.
#[test]
fn large_inputs_and_their_text(rt: HostRuntime) -> Result<(), Fail> {
    let alloc = rt.alloc();
    let tables = baltic(alloc, EURO);
    let bytes = std::vec![in alloc; 0x80; 400_000]?;
    let text = euros(alloc, 400_000)?;
    let want = (text.as_str(), WINDOWS_1257, false);
    assert!(rt; is_sniffed(alloc, &tables, WINDOWS_1257, &bytes, want)?);
    assert!(rt; is_removed(alloc, &tables, WINDOWS_1257, &bytes, (text.as_str(), false))?);
    assert!(rt; is_kept(alloc, &tables, WINDOWS_1257, &bytes, (text.as_str(), false))?);
    assert!(rt; WINDOWS_1257.output_encoding().is_ready(&tables));
    let (written, output, lost) = WINDOWS_1257.encode(alloc, &tables, text.as_str())?;
    assert!(rt; written.as_slice() == bytes.as_slice());
    assert!(rt; output == WINDOWS_1257 && !lost);
    Ok(())
}

// The calls return `Overflow` if these queries return `None`. No input is as long as that, so the
// calls themselves cannot be made with one.
#[test]
fn overflow_begins_where_the_room_passes_a_usize(rt: HostRuntime) {
    let tables = Tables::new(rt.alloc());
    // The greatest length for which there is a room, and this room.
    let cases = [
        (UTF_8, 6148914691236517204, usize::MAX),
        (X_USER_DEFINED, 6148914691236517205, usize::MAX),
        (UTF_16LE, 12297829382473034408, usize::MAX - 2),
    ];
    for (encoding, most, room) in cases {
        assert!(rt; encoding.is_ready(&tables));
        let decoder = encoding.new_decoder_without_bom_handling(&tables);
        assert_eq!(rt; decoder.max_utf8_buffer_length(most), Some(room));
        assert_eq!(rt; decoder.max_utf8_buffer_length(most + 1), None);
    }
    let most = usize::MAX - 3;
    let decoder = UTF_8.new_decoder_without_bom_handling(&tables);
    let room = decoder.max_utf8_buffer_length_without_replacement(most);
    assert_eq!(rt; room, Some(usize::MAX));
    let room = decoder.max_utf8_buffer_length_without_replacement(most + 1);
    assert_eq!(rt; room, None);
    let most = usize::MAX - 10;
    let encoder = X_USER_DEFINED.new_encoder(&tables);
    let room = encoder.max_buffer_length_from_utf8_if_no_unmappables(most);
    assert_eq!(rt; room, Some(usize::MAX));
    let room = encoder.max_buffer_length_from_utf8_if_no_unmappables(most + 1);
    assert_eq!(rt; room, None);
}
