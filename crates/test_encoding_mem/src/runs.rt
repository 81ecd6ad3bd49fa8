//! Runs that are put into a sink, or taken from a source, at once; the parts that drivers and rules
//! are made of.

use encoding_mem::ascii::ascii_prefix;
use encoding_mem::character_counts::{count_characters, count_in_units};
use encoding_mem::encode::put_all;
use encoding_mem::first_piece::{FirstPiece, cut_short};
use encoding_mem::scalar::scalar_of;
use encoding_mem::{Sink, Source, Utf8Sink, Utf8Source, Utf16Sink, Utf16Source, clear_behind};

// Writes one text three times, as a text, as units and character by character. Returns what is left
// of a room for 100 units.
fn put_thrice<S: Sink>(sink: &mut S) -> Option<usize> {
    if sink.free_len() < 3 {
        return None;
    }
    sink.put_text("é");
    if sink.free_len() < 96 {
        return None;
    }
    sink.put_units(&[0xE9]);
    if !sink.fits('é') {
        return None;
    }
    sink.put('é');
    Some(sink.free_len())
}

#[test]
fn sinks_take_runs(rt: HostRuntime) {
    let mut bytes = [0xFF; 100];
    let mut sink = Utf8Sink::new(&mut bytes);
    assert_eq!(rt; put_thrice(&mut sink), Some(94));
    assert_eq!(rt; (sink.written(), sink.has_room()), (6, true));
    assert_eq!(rt; &bytes[..7], b"\xC3\xA9\xC3\xA9\xC3\xA9\xFF".as_slice());
    let mut units = [0xFFFF; 100];
    let mut sink = Utf16Sink::new(&mut units);
    assert_eq!(rt; put_thrice(&mut sink), Some(97));
    assert_eq!(rt; (sink.written(), sink.has_room()), (3, true));
    assert_eq!(rt; &units[..4], [0xE9, 0xE9, 0xE9, 0xFFFF].as_slice());
}

// What a sink takes after it is detached, and whether what stands in its place then has no room.
fn put_detached<S: Sink>(sink: &mut S, c: char) -> bool {
    match sink.detach() {
        Some(mut own) => {
            let left_none = !sink.fits(c);
            if own.fits(c) {
                own.put(c);
            }
            *sink = own;
            left_none
        }
        None => false,
    }
}

#[test]
fn sinks_are_detached(rt: HostRuntime) {
    let mut bytes = [0xFF; 3];
    let mut sink = Utf8Sink::new(&mut bytes);
    assert!(rt; put_detached(&mut sink, 'A'));
    assert_eq!(rt; (sink.written(), sink.free_len()), (1, 2));
    let mut units = [0xFFFF; 3];
    let mut sink = Utf16Sink::new(&mut units);
    assert!(rt; put_detached(&mut sink, 'A'));
    assert_eq!(rt; (sink.written(), sink.free_len()), (1, 2));
}

fn take_runs<S: Source>(source: &mut S, dst: &mut [u8]) -> (bool, usize, usize) {
    let is_run = source.is_second_ascii();
    let ascii = source.copy_ascii(dst);
    let text = source.copy_text(&mut dst[ascii..]);
    (is_run, ascii, text)
}

#[test]
fn sources_give_runs(rt: HostRuntime) {
    let mut bytes = [0xFF; 6];
    let mut source = Utf8Source::new("abé€");
    assert_eq!(rt; take_runs(&mut source, &mut bytes), (true, 2, 2));
    assert_eq!(rt; (source.read(), source.peek()), (4, Some(('€', 3))));
    assert_eq!(rt; &bytes[..5], b"ab\xC3\xA9\xFF".as_slice());
    let mut bytes = [0xFF; 6];
    let mut source = Utf16Source::new(&[0x61, 0x62, 0xE9, 0x20AC]);
    let (is_run, ascii, text) = take_runs(&mut source, &mut bytes);
    assert_eq!(rt; (is_run, ascii, text), (true, 2, 2));
    assert_eq!(rt; (source.read(), source.peek()), (3, Some(('€', 1))));
    assert_eq!(rt; &bytes[..5], b"ab\xC3\xA9\xFF".as_slice());
}

#[test]
fn sources_go_on_by_one(rt: HostRuntime) {
    let mut source = Utf8Source::new("é€");
    if source.peek().is_some() {
        source.advance();
    }
    assert_eq!(rt; (source.read(), source.peek()), (2, Some(('€', 3))));
    let mut source = Utf16Source::new(&[0xD83D, 0xDCA9, 0x41]);
    if source.peek().is_some() {
        source.advance();
    }
    assert_eq!(rt; (source.read(), source.peek()), (2, Some(('A', 1))));
}

#[test]
fn parts_of_rules_and_drivers(rt: HostRuntime) {
    assert_eq!(rt; ascii_prefix(b"ab\xC3\xA9"), "ab");
    assert_eq!(rt; scalar_of(0x10FFFF), '\u{10FFFF}');
    assert!(rt; matches!(cut_short(2, true), FirstPiece::Malformed(2)));
    assert!(rt; matches!(cut_short(2, false), FirstPiece::More));
    let mut dst = [0xFF; 4];
    assert_eq!(rt; put_all(&mut dst, 1, b"ab"), 3);
    assert_eq!(rt; dst, [0xFF, 0x61, 0x62, 0xFF]);
    // Characters of one to four bytes; and one within a vector and two after it.
    assert_eq!(rt; count_characters("aé日💩"), 4);
    let text = "é0123456789012345678901234567890123456789012345678901234567890123é日";
    assert_eq!(rt; count_characters(text), 67);
    // A letter, a pair, a surrogate alone and a letter.
    assert_eq!(rt; count_in_units(&[0x61, 0xD83D, 0xDCA9, 0xD83D, 0x41]), 4);
}

// The two continuation bytes behind the first byte of U+20AC are cleared, and nothing more.
#[test]
fn continuation_bytes_are_cleared(rt: HostRuntime) {
    let mut text = *b"A\x82\xACB\xC3\xA9";
    clear_behind(&mut text, 1);
    assert_eq!(rt; text, *b"A\x00\x00B\xC3\xA9");
}
