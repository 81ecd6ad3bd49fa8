//! Decoders and encoders that are saved between two calls, and go on as others.

use encoding_front::{
    CoderResult, Decoder, Encoder, Encoding, GB18030, ISO_2022_JP, Mark, REPLACEMENT, SavedDecoder,
    UTF_8, UTF_16LE, WINDOWS_1252, X_USER_DEFINED,
};
use encoding_tables::{IndexKind, TableFault, Tables};

// Returns whether two decoders write the text of `bytes`, the second of which goes on from what was
// saved of the first, wherever the bytes are cut.
fn goes_on(tables: &Tables, encoding: Encoding, bytes: &[u8], text: &str) -> bool {
    for at in 0..=bytes.len() {
        if !encoding.is_ready(tables) {
            return false;
        }
        let mut first = Decoder::new(encoding, Mark::Sniff, Some(tables));
        let (begin, rest) = bytes.split_at(at);
        let mut room = [0; 64];
        let (result, _, start, _) = first.decode_to_utf8(begin, &mut room, false);
        let mut second = Decoder::resumed(first.saved(), Some(tables));
        if second.is_finished() || second.encoding() != first.encoding() {
            return false;
        }
        let (last, _, more, _) = second.decode_to_utf8(rest, &mut room[start..], true);
        if result != CoderResult::InputEmpty
            || last != CoderResult::InputEmpty
            || &room[..start + more] != text.as_bytes()
        {
            return false;
        }
    }
    true
}

// Returns whether two encoders write the bytes of a text, the second of which goes on from what was
// saved of the first, after `begin`.
fn encodes_on(tables: &Tables, encoding: Encoding, begin: &str, rest: &str, bytes: &[u8]) -> bool {
    if !encoding.output_encoding().is_ready(tables) {
        return false;
    }
    let mut first = encoding.new_encoder(tables);
    let mut room = [0; 64];
    let (result, _, start, _) = first.encode_from_utf8(begin, &mut room, false);
    let mut second = Encoder::resumed(first.saved(), Some(tables));
    if second.has_pending_state() != first.has_pending_state() {
        return false;
    }
    let (last, _, more, _) = second.encode_from_utf8(rest, &mut room[start..], true);
    result == CoderResult::InputEmpty
        && last == CoderResult::InputEmpty
        && &room[..start + more] == bytes
}

// Takes a list of one entry.
fn insert_row(tables: &mut Tables, kind: IndexKind, row: (u32, u32)) -> Result<(), TableFault> {
    let rows = [row];
    if kind.is_ranges()
        || (row.0 as usize) >= kind.size()
        || !rows.windows(2).all(|pair| pair[0].0 < pair[1].0)
        || !rows.iter().all(|row| (row.0 as usize) < kind.size())
    {
        return Err(TableFault::Size);
    }
    tables.insert_rows(kind, &rows)
}

// Tables with the Japanese character U+3042, and the first character of four bytes in gb18030.
fn insert_few(tables: &mut Tables) -> Result<(), TableFault> {
    insert_row(tables, IndexKind::Jis0208, (283, 0x3042))?;
    insert_row(tables, IndexKind::Iso2022JpKatakana, (0, 0x3002))?;
    insert_row(tables, IndexKind::Gb18030, (6555, 0x3042))?;
    tables.insert_ranges(&[(0, 0x80), (189000, 0x10000)])
}

#[test]
fn without_an_index(rt: HostRuntime) {
    let tables = Tables::new(rt.alloc());
    let text = "a\u{E9}\u{3042}\u{1F600}\u{FFFD}b";
    let bytes = b"a\xC3\xA9\xE3\x81\x82\xF0\x9F\x98\x80\xF0\x9F\x98b";
    assert!(rt; goes_on(&tables, UTF_8, bytes, text));
    assert!(rt; goes_on(&tables, UTF_8, b"\xEF\xBB\xBFa", "a"));
    assert!(rt; goes_on(&tables, UTF_8, b"\xEF\xBBa", "\u{FFFD}a"));
    assert!(rt; goes_on(&tables, UTF_8, b"\xFF\xFEa\0\x3D\xD8\0\xDE", "a\u{1F600}"));
    assert!(rt;
        goes_on(
            &tables,
            UTF_16LE,
            b"a\0\x3D\xD8\0\xDEb",
            "a\u{1F600}\u{FFFD}"
        )
    );
    assert!(rt; goes_on(&tables, UTF_16LE, b"\xFE\xFF\0a", "a"));
    assert!(rt; goes_on(&tables, REPLACEMENT, b"abc", "\u{FFFD}"));
    assert!(rt; goes_on(&tables, REPLACEMENT, b"\xEF\xBB\xBFabc", "abc"));
}

#[test]
fn with_indexes(rt: HostRuntime) {
    let mut tables = Tables::new(rt.alloc());
    assert!(rt; insert_few(&mut tables).is_ok());
    let bytes = b"a\x1B$B$\"\x1B(J\\~\x1B(I1\x1B(Ba";
    let text = "a\u{3042}\u{A5}\u{203E}\u{FF71}a";
    assert!(rt; goes_on(&tables, ISO_2022_JP, bytes, text));
    assert!(rt; goes_on(&tables, ISO_2022_JP, b"\x1B$B\x1B(J\\", "\u{FFFD}\u{A5}"));
    let bytes = b"a\x1B$B$\"$\"\x1B(B";
    assert!(rt; encodes_on(&tables, ISO_2022_JP, "a\u{3042}", "\u{3042}", bytes));
    let bytes = b"\x1B(J\\~a\x1B(B";
    assert!(rt; encodes_on(&tables, ISO_2022_JP, "\u{A5}", "\u{203E}a", bytes));
    assert!(rt; encodes_on(&tables, UTF_16LE, "a", "\u{E9}", b"a\xC3\xA9"));
    assert!(rt;
        goes_on(
            &tables,
            GB18030,
            b"a\x81\x30\x81\x30\x810\x81",
            "a\u{80}\u{FFFD}"
        )
    );
}

// Returns whether a decoder that has ended its stream is saved as one that has.
fn ends(tables: &Tables) -> bool {
    let mut first = Decoder::new(UTF_8, Mark::Sniff, Some(tables));
    let mut room = [0; 8];
    let (result, _, _, _) = first.decode_to_utf8(b"a", &mut room, true);
    let second = Decoder::resumed(first.saved(), Some(tables));
    result == CoderResult::InputEmpty && second.is_finished()
}

// A finished decoder is saved as finished, and one of an encoding whose index is missing is not
// made.
#[test]
fn finished_and_not_ready(rt: HostRuntime) {
    let tables = Tables::new(rt.alloc());
    assert!(rt; ends(&tables));
    assert!(rt; !goes_on(&tables, WINDOWS_1252, b"a", "a"));
}

// Returns whether a decoder that goes on from the words of a new one writes the text of `bytes`.
fn begins_in_words(tables: &Tables, encoding: Encoding, bytes: &[u8], text: &str) -> bool {
    if !encoding.is_ready(tables) {
        return false;
    }
    let mut decoder = Decoder::resumed(SavedDecoder::new(encoding, Mark::Sniff), Some(tables));
    if decoder.is_finished() || decoder.encoding() != encoding {
        return false;
    }
    let mut room = [0; 64];
    let (result, read, written, _) = decoder.decode_to_utf8(bytes, &mut room, true);
    (result, read) == (CoderResult::InputEmpty, bytes.len()) && &room[..written] == text.as_bytes()
}

#[test]
fn new_words(rt: HostRuntime) {
    let mut tables = Tables::new(rt.alloc());
    assert!(rt; insert_few(&mut tables).is_ok());
    assert!(rt; begins_in_words(&tables, UTF_8, b"\xFF\xFEa\0", "a"));
    assert!(rt; begins_in_words(&tables, UTF_8, b"\xEF\xBB", "\u{FFFD}"));
    assert!(rt; begins_in_words(&tables, ISO_2022_JP, b"\\\x1B(J\\", "\\\u{A5}"));
    assert!(rt; begins_in_words(&tables, REPLACEMENT, b"ab", "\u{FFFD}"));
    assert!(rt; !begins_in_words(&tables, WINDOWS_1252, b"a", "a"));
}

// Coders that need no index are made and go on without tables.
#[test]
fn without_tables(rt: HostRuntime) {
    let mut first = Decoder::new(UTF_16LE, Mark::Sniff, None);
    let mut text = [0; 16];
    let (_, read, start, _) = first.decode_to_utf8(b"a\0\x3D", &mut text, false);
    let mut second = Decoder::resumed(first.saved(), None);
    let (_, more, end, _) = second.decode_to_utf8(b"\xD8\0\xDE", &mut text[start..], true);
    assert_eq!(rt; (read, more, start + end), (3, 3, 5));
    assert!(rt; text.starts_with("a\u{1F600}".as_bytes()));
    let mut encoder = Encoder::new(X_USER_DEFINED, None);
    let (_, _, written, _) = encoder.encode_from_utf8("a\u{F780}", &mut text, true);
    assert_eq!(rt; written, 2);
    assert!(rt; text.starts_with(b"a\x80"));
}
