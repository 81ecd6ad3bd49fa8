//! Calls of the exports that report on a decoder or an encoder.

use crate::decoder::queries::{
    jillapun_decoder_encoding, jillapun_decoder_latin1_byte_compatible_up_to,
    jillapun_decoder_max_utf8_length, jillapun_decoder_max_utf16_length,
};
use crate::decoder::utf8::jillapun_decoder_decode_to_utf8;
use crate::decoder::{DecoderHandle, jillapun_decoder_new};
use crate::encoder::handle::EncoderHandle;
use crate::encoder::jillapun_encoder_new;
use crate::encoder::queries::{
    jillapun_encoder_encoding, jillapun_encoder_has_pending_state,
    jillapun_encoder_max_length_from_utf16_without_replacement,
};
use crate::index_files::IndexFile;
use crate::progress::Progress;
use crate::status::{CLOSED, FINISHED, KEEP, NO_ENCODING, OK, REFUSED, SNIFF};
use crate::tables::{IndexFault, jillapun_tables_new};
use crate::tables_handle::TablesHandle;
use std::alloc::Global;

const UTF_8: u8 = 25;

const UTF_16LE: u8 = 27;

const WINDOWS_1252: u8 = 31;

// A decoder over tables with the euro sign at the byte 80 and é at E9, its number, of windows-1252.
fn decoder(alloc: Global, encoding: u8, mark: u8) -> DecoderHandle {
    let mut tables = TablesHandle::none();
    let mut fault = IndexFault { file: 9, line: 9 };
    let files = [IndexFile {
        name: b"index-windows-1252.txt",
        text: b"  0\t0x20AC\n105\t0x00E9\n",
    }];
    jillapun_tables_new(alloc, &files, &mut tables, &mut fault);
    let mut handle = DecoderHandle::none();
    jillapun_decoder_new(tables, encoding, mark, &mut handle);
    handle
}

// What a decoder reports.
fn latin1_length(handle: &DecoderHandle) -> (u8, usize) {
    let mut length = 9;
    let status = jillapun_decoder_latin1_byte_compatible_up_to(
        handle,
        b"a\xE9\x7F\x80b",
        &mut length,
    );
    (status, length)
}

// What it reports once it has decoded these bytes.
fn length_after(handle: &mut DecoderHandle, src: &[u8], last: bool) -> (u8, usize) {
    let mut text = [0; 8];
    let mut progress = Progress::NONE;
    jillapun_decoder_decode_to_utf8(handle, src, &mut text, last, &mut progress);
    latin1_length(handle)
}

// How many bytes of UTF-8 are room enough for the text of so many.
fn bytes_for(handle: &DecoderHandle, n: usize) -> (u8, usize) {
    let mut length = 9;
    let status = jillapun_decoder_max_utf8_length(handle, n, &mut length);
    (status, length)
}

// How many units of UTF-16 are.
fn units_for(handle: &DecoderHandle, n: usize) -> (u8, usize) {
    let mut length = 9;
    let status = jillapun_decoder_max_utf16_length(handle, n, &mut length);
    (status, length)
}

// How many bytes are room enough for what so many units are encoded to.
fn encoded_length(handle: &EncoderHandle, n: usize) -> (u8, usize) {
    let mut length = 9;
    let status = jillapun_encoder_max_length_from_utf16_without_replacement(handle, n, &mut length);
    (status, length)
}

#[test]
fn latin1_is_found(rt: HostRuntime) {
    let alloc = rt.alloc();
    let mut handle = decoder(alloc, WINDOWS_1252, KEEP);
    assert_eq!(rt; length_after(&mut handle, b"a", false), (OK, 3));
    assert_eq!(rt; length_after(&mut handle, b"a", true), (FINISHED, 0));
    handle = DecoderHandle::none();
    assert_eq!(rt; latin1_length(&handle), (CLOSED, 0));
    let mut handle = decoder(alloc, UTF_8, KEEP);
    assert_eq!(rt; length_after(&mut handle, b"a", false), (OK, 1));
    assert_eq!(rt; length_after(&mut handle, b"\xC3", false), (OK, REFUSED));
    let mut handle = decoder(alloc, UTF_8, SNIFF);
    assert_eq!(rt; latin1_length(&handle), (OK, REFUSED));
}

#[test]
fn decoders_are_asked(rt: HostRuntime) {
    let alloc = rt.alloc();
    let mut handle = decoder(alloc, WINDOWS_1252, SNIFF);
    assert_eq!(rt; jillapun_decoder_encoding(&handle), WINDOWS_1252);
    length_after(&mut handle, b"\xEF\xBB\xBF", false);
    assert_eq!(rt; jillapun_decoder_encoding(&handle), UTF_8);
    let mut handle = decoder(alloc, WINDOWS_1252, KEEP);
    assert_eq!(rt; units_for(&handle, 5), (OK, 5));
    assert_eq!(rt; bytes_for(&handle, 5), (OK, 15));
    assert_eq!(rt; bytes_for(&handle, usize::MAX), (OK, REFUSED));
    length_after(&mut handle, b"a", true);
    assert_eq!(rt; units_for(&handle, 5), (FINISHED, 0));
    assert_eq!(rt; jillapun_decoder_encoding(&handle), WINDOWS_1252);
    handle = DecoderHandle::none();
    assert_eq!(rt; jillapun_decoder_encoding(&handle), NO_ENCODING);
    assert_eq!(rt; bytes_for(&handle, 0), (CLOSED, 0));
}

#[test]
fn encoders_are_asked(rt: HostRuntime) {
    let alloc = rt.alloc();
    let mut handle = EncoderHandle::none();
    assert_eq!(rt; jillapun_encoder_encoding(&handle), NO_ENCODING);
    assert!(rt; !jillapun_encoder_has_pending_state(&handle));
    let mut tables = TablesHandle::none();
    let mut fault = IndexFault { file: 9, line: 9 };
    jillapun_tables_new(alloc, &[], &mut tables, &mut fault);
    jillapun_encoder_new(tables, UTF_16LE, &mut handle);
    assert_eq!(rt; jillapun_encoder_encoding(&handle), UTF_8);
    assert_eq!(rt; encoded_length(&handle, 5), (OK, 15));
    assert_eq!(rt; encoded_length(&handle, usize::MAX), (OK, REFUSED));
    handle = EncoderHandle::none();
    assert_eq!(rt; jillapun_encoder_encoding(&handle), NO_ENCODING);
    assert_eq!(rt; encoded_length(&handle, 0), (CLOSED, 0));
}
