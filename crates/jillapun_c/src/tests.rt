//! Calls of the exports for tables, streams and whole texts, with results worked by hand.

mod converter;
mod decoders;
mod encoders;
mod joins;
mod parts;
mod queries;
mod texts;
mod whole;

use crate::decoder::utf8::{
    jillapun_decoder_decode_to_utf8, jillapun_decoder_decode_to_utf8_without_replacement,
};
use crate::decoder::utf16::jillapun_decoder_decode_to_utf16;
use crate::decoder::{DecoderHandle, jillapun_decoder_new};
use crate::encoder::handle::EncoderHandle;
use crate::encoder::jillapun_encoder_new;
use crate::encoder::utf8::{
    jillapun_encoder_encode_from_utf8, jillapun_encoder_encode_from_utf8_without_replacement,
};
use crate::encoder_progress::EncoderProgress;
use crate::encoding::{
    jillapun_can_encode_everything, jillapun_for_bom, jillapun_for_label,
    jillapun_for_label_no_replacement, jillapun_is_ascii_compatible, jillapun_is_single_byte,
    jillapun_name, jillapun_needs, jillapun_output_encoding, jillapun_tables_is_ready,
};
use crate::index_files::IndexFile;
use crate::progress::Progress;
use crate::status::{
    BAD_INDEX, CLOSED, FINISHED, IN_USE, INPUT_EMPTY, KEEP, MALFORMED, NO_ENCODING, NOT_READY,
    NOT_UTF8, OK, REFUSED, SNIFF, UNKNOWN, UNMAPPABLE,
};
use crate::tables::{IndexFault, jillapun_tables_new};
use crate::tables_handle::TablesHandle;
use std::alloc::Global;

/// Tables with the euro sign at the byte 80 of windows-1252.
pub(crate) fn euro(alloc: Global) -> TablesHandle {
    let mut tables = TablesHandle::none();
    let mut fault = IndexFault { file: 9, line: 9 };
    let files = [IndexFile {
        name: b"index-windows-1252.txt",
        text: b"# one row\n\n  0\t0x20AC\n",
    }];
    jillapun_tables_new(alloc, &files, &mut tables, &mut fault);
    tables
}

/// Tables with the indexes that ISO-2022-JP needs, of one row each.
pub(crate) fn japanese(alloc: Global) -> TablesHandle {
    let mut tables = TablesHandle::none();
    let mut fault = IndexFault { file: 9, line: 9 };
    let files = [
        IndexFile {
            name: b"index-jis0208.txt",
            text: b"  0\t0x3000\n",
        },
        IndexFile {
            name: b"index-iso-2022-jp-katakana.txt",
            text: b"  0\t0x3002\n",
        },
    ];
    jillapun_tables_new(alloc, &files, &mut tables, &mut fault);
    tables
}

#[test]
fn encodings_are_found(rt: HostRuntime) {
    let mut length = 9;
    let mut name = [0; 30];
    assert_eq!(rt; jillapun_for_label(b" LATIN1\n"), 31);
    assert_eq!(rt; jillapun_for_label(b"latin-1"), NO_ENCODING);
    assert_eq!(rt; jillapun_for_bom(&[0xFF, 0xFE, 0x41], &mut length), 27);
    assert_eq!(rt; length, 2);
    assert_eq!(rt; jillapun_for_bom(&[0xFF], &mut length), NO_ENCODING);
    assert_eq!(rt; jillapun_name(24, &mut name), 9);
    assert_eq!(rt; &name[..10], b"Shift_JIS\0".as_slice());
    assert_eq!(rt; jillapun_name(40, &mut name), REFUSED);
    assert_eq!(rt; jillapun_name(24, &mut name[..8]), 9);
    assert_eq!(rt; jillapun_output_encoding(26), 25);
    assert_eq!(rt; jillapun_output_encoding(40), NO_ENCODING);
}

#[test]
fn indexes_are_named(rt: HostRuntime) {
    let mut name = [0; 30];
    let mut short = [0; 16];
    assert_eq!(rt; jillapun_needs(1, 1, &mut name), 17);
    assert_eq!(rt; &name[..17], b"index-jis0212.txt".as_slice());
    assert_eq!(rt; jillapun_needs(1, 1, &mut short), 17);
    assert_eq!(rt; jillapun_needs(1, 2, &mut short), 0);
    assert_eq!(rt; jillapun_needs(40, 0, &mut short), REFUSED);
}

#[test]
fn faulty_indexes_are_told(rt: HostRuntime) {
    let mut tables = TablesHandle::none();
    let mut fault = IndexFault { file: 9, line: 9 };
    let files = [
        IndexFile {
            name: b"index-big5.txt",
            text: b"",
        },
        IndexFile {
            name: b"index-euc-kr.txt",
            text: b"1\t0xAC02\n0\t0xAC03\n",
        },
        IndexFile {
            name: b"euc-kr.txt",
            text: b"",
        },
    ];
    let status = jillapun_tables_new(rt.alloc(), &files, &mut tables, &mut fault);
    assert_eq!(rt; (status, fault.file, fault.line), (BAD_INDEX, 1, 2));
    let status = jillapun_tables_new(rt.alloc(), &files[2..], &mut tables, &mut fault);
    assert_eq!(rt; (status, fault.file, fault.line), (UNKNOWN, 0, 0));
    let status = jillapun_tables_new(rt.alloc(), &files[..1], &mut tables, &mut fault);
    assert_eq!(rt; status, OK);
    let status = jillapun_tables_new(rt.alloc(), &files[..1], &mut tables, &mut fault);
    assert_eq!(rt; status, IN_USE);
    assert_eq!(rt; jillapun_tables_is_ready(tables, 2), NOT_READY);
    assert_eq!(rt;
        jillapun_tables_is_ready(TablesHandle::none(), 2),
        NOT_READY
    );
    assert_eq!(rt; jillapun_tables_is_ready(TablesHandle::none(), 25), OK);
}

#[test]
fn encodings_are_asked(rt: HostRuntime) {
    assert_eq!(rt; jillapun_for_label_no_replacement(b" LATIN1\n"), 31);
    assert_eq!(rt; jillapun_for_label(b"iso-2022-kr"), 23);
    assert_eq!(rt;
        jillapun_for_label_no_replacement(b"iso-2022-kr"),
        NO_ENCODING
    );
    assert_eq!(rt; jillapun_for_label_no_replacement(b"latin-1"), NO_ENCODING);
    assert!(rt; jillapun_is_single_byte(39));
    assert!(rt; !jillapun_is_single_byte(25));
    assert!(rt; !jillapun_is_single_byte(40));
    assert!(rt; jillapun_is_ascii_compatible(24));
    assert!(rt; !jillapun_is_ascii_compatible(6));
    assert!(rt; !jillapun_is_ascii_compatible(40));
    assert!(rt; jillapun_can_encode_everything(26));
    assert!(rt; !jillapun_can_encode_everything(3));
    assert!(rt; !jillapun_can_encode_everything(40));
}

#[test]
fn stream_is_decoded(rt: HostRuntime) {
    let alloc = rt.alloc();
    let mut decoder = DecoderHandle::none();
    let mut progress = Progress::NONE;
    let mut text = [0; 8];
    let status = jillapun_decoder_decode_to_utf8(
        &mut decoder,
        b"a",
        &mut text,
        true,
        &mut progress,
    );
    assert_eq!(rt; status, CLOSED);
    assert_eq!(rt;
        jillapun_decoder_new(euro(alloc), 31, KEEP, &mut decoder),
        OK
    );
    let bytes = [0x61, 0x80, 0x81];
    let status = jillapun_decoder_decode_to_utf8(
        &mut decoder,
        &bytes,
        &mut text,
        false,
        &mut progress,
    );
    assert_eq!(rt; (status, progress.outcome), (OK, INPUT_EMPTY));
    assert_eq!(rt; (progress.read, progress.written), (3, 7));
    assert!(rt; progress.had_errors);
    assert_eq!(rt; &text[..7], b"a\xE2\x82\xAC\xEF\xBF\xBD".as_slice());
    let status = jillapun_decoder_decode_to_utf8_without_replacement(
        &mut decoder,
        &[0x81, 0x61],
        &mut text,
        true,
        &mut progress,
    );
    assert_eq!(rt; (status, progress.outcome), (OK, MALFORMED));
    assert_eq!(rt;
        (progress.malformed_length, progress.malformed_after),
        (1, 0)
    );
    assert!(rt; !progress.had_errors);
    let mut units = [0; 4];
    let status = jillapun_decoder_decode_to_utf16(
        &mut decoder,
        &[0x61],
        &mut units,
        true,
        &mut progress,
    );
    assert_eq!(rt; (status, progress.written, units[0]), (OK, 1, 0x61));
    let status = jillapun_decoder_decode_to_utf8(
        &mut decoder,
        b"a",
        &mut text,
        true,
        &mut progress,
    );
    assert_eq!(rt; (status, progress.read), (FINISHED, 0));
    decoder = DecoderHandle::none();
    let status = jillapun_decoder_decode_to_utf8(
        &mut decoder,
        b"a",
        &mut text,
        true,
        &mut progress,
    );
    assert_eq!(rt; status, CLOSED);
    assert_eq!(rt;
        jillapun_decoder_new(euro(alloc), 0, SNIFF, &mut decoder),
        NOT_READY
    );
    assert_eq!(rt;
        jillapun_decoder_new(euro(alloc), 31, 3, &mut decoder),
        UNKNOWN
    );
}

#[test]
fn stream_is_encoded(rt: HostRuntime) {
    let alloc = rt.alloc();
    let mut encoder = EncoderHandle::none();
    let mut progress = EncoderProgress::NONE;
    let mut bytes = [0; 40];
    assert_eq!(rt; jillapun_encoder_new(euro(alloc), 31, &mut encoder), OK);
    let status = jillapun_encoder_encode_from_utf8(
        &mut encoder,
        "a€日".as_bytes(),
        &mut bytes,
        true,
        &mut progress,
    );
    assert_eq!(rt; (status, progress.outcome), (OK, INPUT_EMPTY));
    assert_eq!(rt; (progress.read, progress.written), (7, 10));
    assert!(rt; progress.had_unmappable);
    assert_eq!(rt; &bytes[..10], b"a\x80&#26085;".as_slice());
    let status = jillapun_encoder_encode_from_utf8_without_replacement(
        &mut encoder,
        "日".as_bytes(),
        &mut bytes,
        true,
        &mut progress,
    );
    assert_eq!(rt;
        (status, progress.outcome, progress.scalar),
        (OK, UNMAPPABLE, 0x65E5)
    );
    let status = jillapun_encoder_encode_from_utf8(
        &mut encoder,
        &[0x80],
        &mut bytes,
        true,
        &mut progress,
    );
    assert_eq!(rt; status, NOT_UTF8);
    encoder = EncoderHandle::none();
    let status = jillapun_encoder_encode_from_utf8(
        &mut encoder,
        b"a",
        &mut bytes,
        true,
        &mut progress,
    );
    assert_eq!(rt; status, CLOSED);
}
