//! Calls of decoders whose handles are moved, copied or filled again, or have no tables.

use crate::decoder::queries::{jillapun_decoder_encoding, jillapun_decoder_max_utf8_length};
use crate::decoder::utf8::jillapun_decoder_decode_to_utf8;
use crate::decoder::utf16::jillapun_decoder_decode_to_utf16;
use crate::decoder::{DecoderHandle, jillapun_decoder_new};
use crate::progress::Progress;
use crate::status::{FINISHED, INPUT_EMPTY, KEEP, NO_ENCODING, NOT_READY, OK, SNIFF};
use crate::tables_handle::TablesHandle;
use crate::tests::euro;

const UTF_8: u8 = 25;

const UTF_16BE: u8 = 26;

const UTF_16LE: u8 = 27;

const WINDOWS_1252: u8 = 31;

// Makes a decoder in a handle.
fn new(tables: TablesHandle, encoding: u8, handle: &mut DecoderHandle) -> u8 {
    jillapun_decoder_new(tables, encoding, SNIFF, handle)
}

// Returns whether a call reads all of some bytes, and writes this text.
fn writes(handle: &mut DecoderHandle, src: &[u8], last: bool, text: &str) -> bool {
    let mut room = [0; 16];
    let mut told = Progress::NONE;
    let status = jillapun_decoder_decode_to_utf8(handle, src, &mut room, last, &mut told);
    status == OK
        && told.outcome == INPUT_EMPTY
        && room.starts_with(text.as_bytes())
        && told.written == text.len()
}

#[test]
fn utf8_needs_no_tables(rt: HostRuntime) {
    let mut handle = DecoderHandle::none();
    assert_eq!(rt; new(TablesHandle::none(), UTF_8, &mut handle), OK);
    assert_eq!(rt; jillapun_decoder_encoding(&handle), UTF_8);
    assert!(rt; writes(&mut handle, b"\xEF\xBB", false, ""));
    assert!(rt; writes(&mut handle, b"\xBFa\xE2\x82", false, "a"));
    assert!(rt; writes(&mut handle, b"\xAC\xF0\x9F", true, "\u{20AC}\u{FFFD}"));
    assert!(rt; !writes(&mut handle, b"", true, ""));
}

#[test]
fn utf16_needs_no_tables(rt: HostRuntime) {
    let mut handle = DecoderHandle::none();
    assert_eq!(rt; new(TablesHandle::none(), UTF_16LE, &mut handle), OK);
    assert!(rt; writes(&mut handle, b"a\0\x3D", false, "a"));
    assert!(rt; writes(&mut handle, b"\xD8\0\xDE", false, "\u{1F600}"));
    assert_eq!(rt; jillapun_decoder_encoding(&handle), UTF_16LE);
    let mut handle = DecoderHandle::none();
    assert_eq!(rt; new(TablesHandle::none(), UTF_16LE, &mut handle), OK);
    assert!(rt; writes(&mut handle, b"\xFE", false, ""));
    assert!(rt; writes(&mut handle, b"\xFF\0a\0", false, "a"));
    assert_eq!(rt; jillapun_decoder_encoding(&handle), UTF_16BE);
    let mut units = [0; 4];
    let mut told = Progress::NONE;
    let status = jillapun_decoder_decode_to_utf16(&mut handle, b"b", &mut units, true, &mut told);
    assert_eq!(rt; (status, told.written, units[0]), (OK, 1, 0x62));
}

#[test]
fn an_index_is_needed(rt: HostRuntime) {
    let alloc = rt.alloc();
    let mut handle = DecoderHandle::none();
    assert_eq!(rt; new(euro(alloc), WINDOWS_1252, &mut handle), OK);
    assert_eq!(rt;
        new(TablesHandle::none(), WINDOWS_1252, &mut handle),
        NOT_READY
    );
    assert_eq!(rt; jillapun_decoder_encoding(&handle), NO_ENCODING);
}

#[test]
fn handle_is_filled_again(rt: HostRuntime) {
    let alloc = rt.alloc();
    let mut handle = DecoderHandle::none();
    assert_eq!(rt; new(euro(alloc), WINDOWS_1252, &mut handle), OK);
    assert!(rt; writes(&mut handle, b"\x80", true, "\u{20AC}"));
    let mut length = 9;
    assert_eq!(rt;
        jillapun_decoder_max_utf8_length(&handle, 1, &mut length),
        FINISHED
    );
    assert_eq!(rt; new(TablesHandle::none(), UTF_8, &mut handle), OK);
    assert!(rt; writes(&mut handle, b"a", true, "a"));
}

#[test]
fn copies_go_on(rt: HostRuntime) {
    let mut first = DecoderHandle::none();
    let made = jillapun_decoder_new(TablesHandle::none(), UTF_8, KEEP, &mut first);
    assert_eq!(rt; made, OK);
    assert!(rt; writes(&mut first, b"a\xE2\x82", false, "a"));
    let mut copy = first.copied();
    let mut moved = first;
    assert!(rt; writes(&mut moved, b"\xAC", true, "\u{20AC}"));
    assert!(rt; writes(&mut copy, b"\xAD", false, "\u{20AD}"));
    assert!(rt; writes(&mut copy, b"b", true, "b"));
}
