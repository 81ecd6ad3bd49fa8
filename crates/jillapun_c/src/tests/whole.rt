//! Calls of the exports for whole texts.

use crate::decoded::Decoded;
use crate::status::{
    KEEP, LOSSY, NO_ENCODING, NOT_READY, NOT_UTF8, NOT_WELL_FORMED, OK, REMOVE, ROOM, SNIFF,
    UNKNOWN,
};
use crate::tables_handle::TablesHandle;
use crate::tests::euro;
use crate::whole::{
    jillapun_decode, jillapun_decode_to_str, jillapun_decode_without_replacement, jillapun_encode,
};
use std::alloc::Global;
use std::str;

const WINDOWS_1252: u8 = 31;

const UTF_8: u8 = 25;

const UTF_16LE: u8 = 27;

const X_USER_DEFINED: u8 = 39;

// What a report holds before a call.
const FILLED: Decoded = Decoded {
    written: 9,
    mark_len: 9,
    encoding: 9,
    is_own: true,
};

// What a call leaves: its status, the room, and the length.
type Left = (u8, [u8; 12], usize);

fn decoded(alloc: Global, encoding: u8, mark: u8, src: &[u8], room: usize) -> Left {
    decoded_over(alloc, euro(alloc), encoding, mark, src, room)
}

fn decoded_over(
    alloc: Global,
    tables: TablesHandle,
    encoding: u8,
    mark: u8,
    src: &[u8],
    room: usize,
) -> Left {
    let mut dst = *b"............";
    let mut told = FILLED;
    let status = jillapun_decode(
        tables,
        encoding,
        mark,
        src,
        &mut dst[..room.min(12)],
        &mut told,
    );
    (status, dst, told.written)
}

fn encoded(alloc: Global, encoding: u8, text: &[u8], room: usize) -> Left {
    let mut dst = *b"............";
    let mut written = 9;
    let tables = euro(alloc);
    let status = jillapun_encode(
        tables,
        encoding,
        text,
        &mut dst[..room.min(12)],
        &mut written,
    );
    (status, dst, written)
}

// Whether the room begins with the first part of an output, and is as it was behind that.
fn holds_front(room: &[u8], output: &[u8]) -> bool {
    let end = room
        .iter()
        .position(|byte| *byte == b'.')
        .unwrap_or(room.len());
    let Some(front) = room.get(..end) else {
        return false;
    };
    output.starts_with(front) && room.iter().skip(end).all(|byte| *byte == b'.')
}

#[test]
fn input_is_decoded(rt: HostRuntime) {
    let alloc = rt.alloc();
    let left = decoded(alloc, WINDOWS_1252, KEEP, &[0x61, 0x80], 12);
    assert_eq!(rt; left, (OK, *b"a\xE2\x82\xAC........", 4));
    let left = decoded(alloc, WINDOWS_1252, KEEP, &[0x61, 0x80, 0x81], 7);
    assert_eq!(rt; left, (LOSSY, *b"a\xE2\x82\xAC\xEF\xBF\xBD.....", 7));
    let left = decoded(alloc, WINDOWS_1252, KEEP, &[0x61, 0x80, 0x81], 6);
    assert_eq!(rt; (left.0, left.2), (ROOM, 7));
    assert!(rt; holds_front(&left.1, "a€\u{FFFD}".as_bytes()));
    let marked = [0xFF, 0xFE, 0x61, 0];
    assert_eq!(rt;
        decoded(alloc, UTF_8, SNIFF, &marked, 12),
        (OK, *b"a...........", 1)
    );
    assert_eq!(rt;
        decoded(alloc, UTF_16LE, REMOVE, &marked, 12),
        (OK, *b"a...........", 1)
    );
    let left = decoded(alloc, UTF_16LE, KEEP, &marked, 12);
    assert_eq!(rt; left, (OK, *b"\xEF\xBB\xBFa........", 4));
}

// Room for 12 bytes is surely enough for three of input, and not for four.
#[test]
fn room_that_is_just_enough_will_do(rt: HostRuntime) {
    let alloc = rt.alloc();
    let left = decoded(alloc, UTF_8, SNIFF, &[0xFF, 0xFE, 0x61], 12);
    assert_eq!(rt; left, (LOSSY, *b"\xEF\xBF\xBD.........", 3));
    let left = decoded(alloc, UTF_8, SNIFF, &[0xFF, 0xFE, 0x61, 0], 12);
    assert_eq!(rt; left, (OK, *b"a...........", 1));
    let left = decoded(alloc, WINDOWS_1252, KEEP, &[0x80, 0x80, 0x80, 0x80], 12);
    let euros = *b"\xE2\x82\xAC\xE2\x82\xAC\xE2\x82\xAC\xE2\x82\xAC";
    assert_eq!(rt; left, (OK, euros, 12));
    let left = decoded(alloc, WINDOWS_1252, KEEP, &[0x80, 0x80, 0x80, 0x80], 11);
    assert_eq!(rt; (left.0, left.2), (ROOM, 12));
    assert!(rt; holds_front(&left.1, &euros));
}

// What a call reports: its status, the length of the mark, the encoding, and whether the text is
// the input's own bytes.
fn reported(
    alloc: Global,
    encoding: u8,
    mark: u8,
    src: &[u8],
    room: usize,
) -> (u8, usize, u8, bool) {
    let mut dst = [0; 12];
    let mut told = FILLED;
    let tables = euro(alloc);
    let dst = &mut dst[..room.min(12)];
    let status = jillapun_decode(tables, encoding, mark, src, dst, &mut told);
    (status, told.mark_len, told.encoding, told.is_own)
}

#[test]
fn encoding_and_own_bytes_are_reported(rt: HostRuntime) {
    let alloc = rt.alloc();
    let marked = [0xEF, 0xBB, 0xBF, 0xC3, 0xA9];
    assert_eq!(rt;
        reported(alloc, WINDOWS_1252, SNIFF, &marked, 12),
        (OK, 3, UTF_8, true)
    );
    assert_eq!(rt;
        reported(alloc, WINDOWS_1252, SNIFF, &marked, 0),
        (ROOM, 3, UTF_8, true)
    );
    assert_eq!(rt;
        reported(alloc, UTF_8, KEEP, &marked, 12),
        (OK, 0, UTF_8, true)
    );
    assert_eq!(rt;
        reported(alloc, UTF_8, REMOVE, &[0xFF, 0xFE, 0x61], 12),
        (LOSSY, 0, UTF_8, false)
    );
    assert_eq!(rt;
        reported(alloc, WINDOWS_1252, KEEP, b"abc", 12),
        (OK, 0, WINDOWS_1252, true)
    );
    assert_eq!(rt;
        reported(alloc, UTF_8, SNIFF, &[0xFF, 0xFE, 0x61, 0], 12),
        (OK, 2, UTF_16LE, false)
    );
    // A malformed sequence of three bytes is not U+FFFD, which has as many.
    assert_eq!(rt;
        reported(alloc, UTF_8, KEEP, &[0xF0, 0x9F, 0x92], 12),
        (LOSSY, 0, UTF_8, false)
    );
    assert_eq!(rt;
        reported(alloc, 40, KEEP, b"a", 12),
        (UNKNOWN, 0, NO_ENCODING, false)
    );
}

// What a call without replacement leaves, and whether it reports that nothing was decoded.
fn well_formed(
    alloc: Global,
    tables: TablesHandle,
    encoding: u8,
    mark: u8,
    src: &[u8],
    room: usize,
) -> (Left, bool) {
    let mut dst = *b"............";
    let mut told = FILLED;
    let status = jillapun_decode_without_replacement(
        tables,
        encoding,
        mark,
        src,
        &mut dst[..room.min(12)],
        &mut told,
    );
    let is_none = told.encoding == NO_ENCODING && told.mark_len == 0 && !told.is_own;
    ((status, dst, told.written), is_none)
}

// Room for 12 bytes is surely enough for two of windows-1252, and for nine of UTF-8.
#[test]
fn well_formed_input_is_decoded(rt: HostRuntime) {
    let alloc = rt.alloc();
    for room in [12, 4] {
        let left = well_formed(alloc, euro(alloc), WINDOWS_1252, KEEP, &[0x61, 0x80], room);
        assert_eq!(rt; left, ((OK, *b"a\xE2\x82\xAC........", 4), false));
        let none = TablesHandle::none();
        let left = well_formed(alloc, none, UTF_8, SNIFF, &[0xFF, 0xFE, 0x61, 0], room);
        assert_eq!(rt; left, ((OK, *b"a...........", 1), false));
        let left = well_formed(alloc, euro(alloc), WINDOWS_1252, KEEP, &[0x81], room);
        assert_eq!(rt; left.0.0, NOT_WELL_FORMED);
        assert_eq!(rt; (left.0.2, left.1), (0, true));
        let none = TablesHandle::none();
        let left = well_formed(alloc, none, UTF_8, KEEP, &[0x61, 0xFF, 0x62, 0x63], room);
        assert_eq!(rt; left.0.0, NOT_WELL_FORMED);
        assert_eq!(rt; (left.0.2, left.1), (0, true));
    }
    let same = *b"............";
    let left = well_formed(alloc, euro(alloc), WINDOWS_1252, KEEP, &[0x61, 0x80], 3);
    assert_eq!(rt; (left.0.0, left.0.2, left.1), (ROOM, 4, false));
    assert!(rt; holds_front(&left.0.1, "a€".as_bytes()));
    let left = well_formed(alloc, euro(alloc), WINDOWS_1252, KEEP, &[0x81], 0);
    assert_eq!(rt; left, ((NOT_WELL_FORMED, same, 0), true));
    let left = well_formed(alloc, TablesHandle::none(), WINDOWS_1252, KEEP, b"a", 12);
    assert_eq!(rt; left, ((NOT_READY, same, 0), true));
    let left = well_formed(alloc, euro(alloc), 40, KEEP, b"a", 12);
    assert_eq!(rt; left, ((UNKNOWN, same, 0), true));
    let left = well_formed(alloc, euro(alloc), UTF_8, 3, b"a", 12);
    assert_eq!(rt; left, ((UNKNOWN, same, 0), true));
}

fn put_over(alloc: Global, encoding: u8, src: &[u8], room: usize) -> (u8, [u8; 8], usize) {
    let mut text = *b"\xC3\xA9\xE2\x82\xAC\xE2\x82\xAC";
    let mut told = FILLED;
    let tables = euro(alloc);
    let dst = &mut text[..room.min(8)];
    let status = jillapun_decode_to_str(tables, encoding, KEEP, src, dst, &mut told);
    (status, text, told.written)
}

#[test]
fn text_stays_text(rt: HostRuntime) {
    let alloc = rt.alloc();
    let same = *b"\xC3\xA9\xE2\x82\xAC\xE2\x82\xAC";
    let left = put_over(alloc, WINDOWS_1252, &[0x61, 0x81], 8);
    assert_eq!(rt; left, (LOSSY, *b"a\xEF\xBF\xBD\x00\xE2\x82\xAC", 4));
    let left = put_over(alloc, UTF_8, b"abc", 8);
    assert_eq!(rt; left, (OK, *b"abc\x00\x00\xE2\x82\xAC", 3));
    let left = put_over(alloc, UTF_8, b"abc", 2);
    assert_eq!(rt; (left.0, left.2), (ROOM, 3));
    assert!(rt; str::from_utf8(&left.1[..2]).is_ok());
    // The euro sign has no room, and the two bytes in its place go on with no character.
    let left = put_over(alloc, UTF_8, "aé€".as_bytes(), 5);
    assert_eq!(rt; (left.0, left.2), (ROOM, 6));
    assert!(rt; str::from_utf8(&left.1[..5]).is_ok());
    assert_eq!(rt; put_over(alloc, 40, b"abc", 8), (UNKNOWN, same, 0));
}

#[test]
fn others_are_not_decoded(rt: HostRuntime) {
    let alloc = rt.alloc();
    let same = *b"............";
    assert_eq!(rt; decoded(alloc, 40, KEEP, b"a", 12), (UNKNOWN, same, 0));
    assert_eq!(rt; decoded(alloc, UTF_8, 3, b"a", 12), (UNKNOWN, same, 0));
    assert_eq!(rt; decoded(alloc, 0, KEEP, b"a", 12), (NOT_READY, same, 0));
}

// Room for 12 bytes is surely enough for one of input, and not for four.
#[test]
fn no_tables_do_if_no_index_is_needed(rt: HostRuntime) {
    let alloc = rt.alloc();
    let none = TablesHandle::none();
    let left = decoded_over(alloc, none, UTF_8, KEEP, &[0xFF], 12);
    assert_eq!(rt; left, (LOSSY, *b"\xEF\xBF\xBD.........", 3));
    let none = TablesHandle::none();
    let left = decoded_over(alloc, none, UTF_8, SNIFF, &[0xFF, 0xFE, 0x61, 0], 12);
    assert_eq!(rt; left, (OK, *b"a...........", 1));
    let none = TablesHandle::none();
    let left = decoded_over(alloc, none, WINDOWS_1252, KEEP, b"a", 12);
    assert_eq!(rt; left, (NOT_READY, *b"............", 0));
}

#[test]
fn text_is_encoded(rt: HostRuntime) {
    let alloc = rt.alloc();
    let left = encoded(alloc, WINDOWS_1252, "a€".as_bytes(), 2);
    assert_eq!(rt; left, (OK, *b"a\x80..........", 2));
    let left = encoded(alloc, WINDOWS_1252, "a€日".as_bytes(), 12);
    assert_eq!(rt; left, (LOSSY, *b"a\x80&#26085;..", 10));
    let left = encoded(alloc, WINDOWS_1252, "a€日".as_bytes(), 9);
    assert_eq!(rt; (left.0, left.2), (ROOM, 10));
    assert!(rt; holds_front(&left.1, b"a\x80&#26085;"));
    let left = encoded(alloc, UTF_16LE, "€".as_bytes(), 12);
    assert_eq!(rt; left, (OK, *b"\xE2\x82\xAC.........", 3));
    let left = encoded(alloc, UTF_16LE, "€".as_bytes(), 2);
    assert_eq!(rt; (left.0, left.2), (ROOM, 3));
    assert!(rt; holds_front(&left.1, "€".as_bytes()));
}

#[test]
fn long_text_is_encoded(rt: HostRuntime) {
    let alloc = rt.alloc();
    let left = encoded(alloc, WINDOWS_1252, &[0x61; 600], 12);
    assert_eq!(rt; (left.0, left.2), (ROOM, 600));
    assert!(rt; holds_front(&left.1, &[0x61; 600]));
    let mut dst = [0x2E; 602];
    let mut written = 9;
    let tables = euro(alloc);
    let text = [0x61; 600];
    let status = jillapun_encode(tables, WINDOWS_1252, &text, &mut dst, &mut written);
    assert_eq!(rt; (status, written), (OK, 600));
    assert!(rt; dst.starts_with(&text));
    assert_eq!(rt; (dst[600], dst[601]), (0x2E, 0x2E));
}

// Longer than what is made at a time.
const LONG: usize = 3000;

#[test]
fn long_input_is_measured(rt: HostRuntime) {
    let alloc = rt.alloc();
    let mut src = [0x61; LONG];
    let mut dst = [0x2E; LONG + 3];
    let mut told = FILLED;
    let status = jillapun_decode(euro(alloc), WINDOWS_1252, KEEP, &src, &mut [], &mut told);
    assert_eq!(rt; (status, told.written, told.is_own), (ROOM, LONG, true));
    src[LONG - 1] = 0x80;
    for room in [0, 10, 2000, LONG + 1] {
        let dst = &mut dst[..room];
        let status = jillapun_decode(euro(alloc), WINDOWS_1252, KEEP, &src, dst, &mut told);
        assert_eq!(rt;
            (status, told.written, told.is_own),
            (ROOM, LONG + 2, false)
        );
    }
    for room in [LONG + 2, LONG + 3] {
        let mut dst = [0x2E; LONG + 3];
        let front = &mut dst[..room];
        let status = jillapun_decode(euro(alloc), WINDOWS_1252, KEEP, &src, front, &mut told);
        assert_eq!(rt; (status, told.written, told.is_own), (OK, LONG + 2, false));
        assert!(rt; dst.starts_with(&[0x61; LONG - 1]));
        assert!(rt; dst.ends_with(b"\xE2\x82\xAC."));
    }
}

#[test]
fn malformed_sequence_is_found_far_behind_the_room(rt: HostRuntime) {
    let mut src = [0x61; LONG];
    src[LONG - 1] = 0xFF;
    let mut told = FILLED;
    let none = TablesHandle::none();
    let status = jillapun_decode(none, UTF_8, KEEP, &src, &mut [], &mut told);
    assert_eq!(rt;
        (status, told.written, told.is_own),
        (ROOM, LONG + 2, false)
    );
    let none = TablesHandle::none();
    let status = jillapun_decode_without_replacement(none, UTF_8, KEEP, &src, &mut [], &mut told);
    assert_eq!(rt; (status, told.written), (NOT_WELL_FORMED, 0));
    let mut dst = [0x2E; LONG + 2];
    let none = TablesHandle::none();
    let status = jillapun_decode(none, UTF_8, KEEP, &src, &mut dst, &mut told);
    assert_eq!(rt; (status, told.written), (LOSSY, LONG + 2));
    assert!(rt; dst.ends_with(b"aa\xEF\xBF\xBD"));
}

#[test]
fn long_text_is_measured(rt: HostRuntime) {
    let alloc = rt.alloc();
    let mut text = [0x61; LONG + 3];
    text[LONG..].copy_from_slice("日".as_bytes());
    let mut dst = [0x2E; LONG + 8];
    let mut written = 9;
    for room in [0, 10, 2000, LONG + 7] {
        let dst = &mut dst[..room];
        let status = jillapun_encode(euro(alloc), WINDOWS_1252, &text, dst, &mut written);
        assert_eq!(rt; (status, written), (ROOM, LONG + 8));
    }
    let status = jillapun_encode(euro(alloc), WINDOWS_1252, &text, &mut dst, &mut written);
    assert_eq!(rt; (status, written), (LOSSY, LONG + 8));
    assert!(rt; dst.ends_with(b"aa&#26085;"));
}

#[test]
fn others_are_not_encoded(rt: HostRuntime) {
    let alloc = rt.alloc();
    let same = *b"............";
    assert_eq!(rt;
        encoded(alloc, UTF_8, &[0x61, 0xFF], 12),
        (NOT_UTF8, same, 0)
    );
    assert_eq!(rt; encoded(alloc, 40, b"a", 12), (UNKNOWN, same, 0));
    assert_eq!(rt; encoded(alloc, 0, b"a", 12), (NOT_READY, same, 0));
}

#[test]
fn text_is_encoded_without_tables(rt: HostRuntime) {
    let alloc = rt.alloc();
    let same = *b"............";
    let (mut dst, mut written) = (same, 9);
    let none = TablesHandle::none();
    let text = "a\u{F780}".as_bytes();
    let status = jillapun_encode(none, X_USER_DEFINED, text, &mut dst, &mut written);
    assert_eq!(rt; (status, dst, written), (OK, *b"a\x80..........", 2));
    let none = TablesHandle::none();
    let text = [0x61; 600];
    let status = jillapun_encode(none, X_USER_DEFINED, &text, &mut dst, &mut written);
    assert_eq!(rt; (status, written), (ROOM, 600));
    let none = TablesHandle::none();
    let mut long = [0x2E; 602];
    let status = jillapun_encode(none, X_USER_DEFINED, &text, &mut long, &mut written);
    assert_eq!(rt; (status, written), (OK, 600));
    assert!(rt; long.starts_with(&text));
    assert_eq!(rt; (long[600], long[601]), (0x2E, 0x2E));
    let (mut dst, mut written) = (same, 9);
    let none = TablesHandle::none();
    let status = jillapun_encode(none, WINDOWS_1252, b"a", &mut dst, &mut written);
    assert_eq!(rt; (status, dst, written), (NOT_READY, same, 0));
}
