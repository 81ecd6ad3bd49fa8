//! Calls of a `Decoder` that write over a text, and into the spare capacity of a text.

use encoding_front::{CoderResult, Encoding, SHIFT_JIS, UTF_8, UTF_16BE, UTF_16LE, X_USER_DEFINED};
use encoding_mem::{DecoderResult, RawDecoder};
use encoding_tables::{Tables, Utf16Decoder};
use std::alloc::AllocError;

// Returns whether a decoder that removes the mark of `encoding` writes the text of `bytes`, cut at
// each place.
fn is_removed(tables: &Tables, encoding: Encoding, bytes: &[u8], text: &str) -> bool {
    for at in 0..=bytes.len() {
        if !encoding.is_ready(tables) {
            return false;
        }
        let mut decoder = encoding.new_decoder_with_bom_removal(tables);
        let (first, rest) = bytes.split_at(at);
        let mut room = [0; 32];
        let (result, _, start, _) = decoder.decode_to_utf8(first, &mut room, false);
        let (last, _, more, _) = decoder.decode_to_utf8(rest, &mut room[start..], true);
        if result != CoderResult::InputEmpty
            || last != CoderResult::InputEmpty
            || &room[..start + more] != text.as_bytes()
        {
            return false;
        }
    }
    true
}

// "UTF-8 decode" takes one mark; those of UTF-16 are malformed in UTF-8, and x-user-defined has
// none.
#[test]
fn the_own_mark_is_removed(rt: HostRuntime) {
    let tables = Tables::new(rt.alloc());
    assert!(rt; is_removed(&tables, UTF_8, b"\xEF\xBB\xBFA", "A"));
    assert!(rt; is_removed(&tables, UTF_8, b"\xEF\xBB\xBF\xEF\xBB\xBF", "\u{FEFF}"));
    assert!(rt; is_removed(&tables, UTF_8, b"\xEF\xBB", "\u{FFFD}"));
    assert!(rt; is_removed(&tables, UTF_8, b"\xFF\xFEA", "\u{FFFD}\u{FFFD}A"));
    assert!(rt; is_removed(&tables, UTF_16LE, b"\xFF\xFEA\0", "A"));
    assert!(rt; is_removed(&tables, UTF_16LE, b"\xFE\xFFA\0", "\u{FFFE}A"));
    assert!(rt; is_removed(&tables, UTF_16BE, b"\xFE\xFF\0A", "A"));
    let bytes = b"\xEF\xBB\xBF";
    assert!(rt; is_removed(&tables, X_USER_DEFINED, bytes, "\u{F7EF}\u{F7BB}\u{F7BF}"));
}

#[test]
fn over_a_text(rt: HostRuntime) {
    let tables = Tables::new(rt.alloc());
    let mut dst = *b"\xC3\xA9B\xC3\xA9";
    let mut decoder = UTF_8.new_decoder(&tables);
    assert!(rt; encoding_mem::utf8_valid_up_to(&dst) == dst.len());
    let answer = decoder.decode_to_str(b"A", &mut dst, true);
    assert_eq!(rt; answer, (CoderResult::InputEmpty, 1, 1, false));
    assert_eq!(rt; dst, *b"A\x00B\xC3\xA9");
    let mut dst = *b"A\xC3\xA9BCDEFG";
    let mut decoder = UTF_8.new_decoder(&tables);
    assert!(rt; encoding_mem::utf8_valid_up_to(&dst) == dst.len());
    let answer = decoder.decode_to_str_without_replacement(b"xy\xFF", &mut dst, true);
    assert_eq!(rt; answer, (DecoderResult::Malformed(1, 0), 3, 2));
    assert_eq!(rt; dst, *b"xy\x00BCDEFG");
}

#[test]
fn into_the_spare_capacity(rt: HostRuntime) -> Result<(), AllocError> {
    let tables = Tables::new(rt.alloc());
    let mut text = String::with_capacity(rt.alloc(), 6)?;
    text.push_str("x")?;
    let room = text.capacity();
    let mut decoder = UTF_8.new_decoder(&tables);
    let answer = decoder.decode_to_string(b"ab\xFFc", &mut text, false);
    assert_eq!(rt; answer, (CoderResult::OutputFull, 3, true));
    assert_eq!(rt; text.as_str(), "xab\u{FFFD}");
    assert_eq!(rt; text.capacity(), room);
    let mut text = String::with_capacity(rt.alloc(), 6)?;
    text.push_str("x")?;
    let mut decoder = UTF_8.new_decoder(&tables);
    let answer = decoder.decode_to_string_without_replacement(b"ab\xFFc", &mut text, true);
    assert_eq!(rt; answer, (DecoderResult::Malformed(1, 0), 3));
    assert_eq!(rt; text.as_str(), "xab");
    Ok(())
}

#[test]
fn the_debug_text_names_the_encoding(rt: HostRuntime) -> Result<(), AllocError> {
    let tables = Tables::new(rt.alloc());
    let text = format!(in rt.alloc(); "{:?}", UTF_8.new_decoder(&tables))?;
    assert!(rt; text.contains("UTF-8"));
    // After a mark is read, the text names the encoding of the mark.
    let mut decoder = UTF_8.new_decoder(&tables);
    let mut room = [0; 8];
    let answer = decoder.decode_to_utf8(b"\xFF\xFE", &mut room, false);
    assert_eq!(rt; answer, (CoderResult::InputEmpty, 2, 0, false));
    let text = format!(in rt.alloc(); "{:?}", decoder)?;
    assert!(rt; text.contains("UTF-16LE"));
    let text = format!(in rt.alloc(); "{:?}", SHIFT_JIS)?;
    assert_eq!(rt; text.as_str(), "Shift_JIS");
    Ok(())
}

#[test]
fn pending_bytes_and_one_are_counted(rt: HostRuntime) {
    let mut decoder = Utf16Decoder::new(false);
    let mut room = [0; 8];
    assert_eq!(rt; decoder.additional_from_state(), 1);
    let answer = decoder.decode_to_utf8_raw(&[0, 0xD8], &mut room, false);
    assert_eq!(rt; answer, (DecoderResult::InputEmpty, 2, 0));
    assert_eq!(rt; decoder.additional_from_state(), 3);
}
