//! Conversions between ASCII, Latin1, UTF-8 and UTF-16, with results worked by hand.

use encoding_mem::{
    Latin1Bytes, convert_latin1_to_str, convert_latin1_to_str_partial, convert_latin1_to_utf8,
    convert_latin1_to_utf8_partial, convert_latin1_to_utf16, convert_str_to_utf16,
    convert_utf8_to_latin1_lossy, convert_utf8_to_utf16, convert_utf8_to_utf16_up_to_invalid,
    convert_utf8_to_utf16_without_replacement, convert_utf16_to_latin1_lossy, convert_utf16_to_str,
    convert_utf16_to_str_partial, convert_utf16_to_utf8, convert_utf16_to_utf8_partial,
    copy_ascii_to_ascii, copy_ascii_to_basic_latin, copy_basic_latin_to_ascii, decode_latin1,
    encode_latin1_lossy, is_str_latin1, utf8_valid_up_to,
};
use std::borrow::CowStr;
use std::test::Fail;

const SURROGATE: [u8; 5] = [0x61, 0xED, 0xA0, 0x80, 0x5A];

#[test]
fn ascii_is_copied_to_its_end(rt: HostRuntime) {
    let mut bytes = [1; 4];
    let mut units = [1; 4];
    assert_eq!(rt; copy_ascii_to_ascii(&[0x41, 0x42, 0xC3], &mut bytes), 2);
    assert_eq!(rt; bytes, [0x41, 0x42, 1, 1]);
    assert_eq!(rt;
        copy_ascii_to_basic_latin(&[0x41, 0x42, 0xC3], &mut units),
        2
    );
    assert_eq!(rt; units, [0x41, 0x42, 1, 1]);
    assert_eq!(rt; copy_basic_latin_to_ascii(&[0x43, 0x80], &mut bytes), 1);
    assert_eq!(rt; bytes, [0x43, 0x42, 1, 1]);
}

#[test]
fn broken_parts_are_replaced(rt: HostRuntime) {
    let mut units = [0; 6];
    assert_eq!(rt; convert_utf8_to_utf16(&SURROGATE, &mut units), 5);
    assert_eq!(rt; units, [0x61, 0xFFFD, 0xFFFD, 0xFFFD, 0x5A, 0]);
    let mut units = [0; 5];
    assert_eq!(rt;
        convert_utf8_to_utf16_without_replacement(&SURROGATE, &mut units),
        None
    );
    assert_eq!(rt; units, [0x61, 0, 0, 0, 0]);
    assert_eq!(rt;
        convert_utf8_to_utf16_up_to_invalid(&SURROGATE, &mut units),
        (1, 1)
    );
    assert_eq!(rt; convert_str_to_utf16("a€", &mut units), 2);
    assert_eq!(rt; units, [0x61, 0x20AC, 0, 0, 0]);
}

#[test]
fn a_character_that_does_not_fit_is_left(rt: HostRuntime) {
    let mut bytes = [0; 4];
    assert_eq!(rt;
        convert_utf16_to_utf8_partial(&[0x41, 0x20AC], &mut bytes[..3]),
        (1, 1)
    );
    assert_eq!(rt; bytes, [0x41, 0, 0, 0]);
    assert_eq!(rt;
        convert_utf16_to_utf8_partial(&[0x41, 0x20AC], &mut bytes),
        (2, 4)
    );
    assert_eq!(rt; bytes, [0x41, 0xE2, 0x82, 0xAC]);
    assert_eq!(rt;
        convert_latin1_to_utf8_partial(&[0x42, 0xE9], &mut bytes[..2]),
        (1, 1)
    );
    assert_eq!(rt; bytes, [0x42, 0xE2, 0x82, 0xAC]);
}

// The units are U+0041, U+20AC and half of a surrogate pair. U+FFFD is written in place of the
// half.
#[test]
fn all_units_are_converted(rt: HostRuntime) {
    let units = [0x41, 0x20AC, 0xD83D];
    let mut bytes = [0x7A; 9];
    assert_eq!(rt; convert_utf16_to_utf8(&units, &mut bytes), 7);
    let text = [0x41, 0xE2, 0x82, 0xAC, 0xEF, 0xBF, 0xBD];
    assert_eq!(rt; bytes.get(..7), Some(text.as_slice()));
    assert_eq!(rt; bytes.get(7..), Some([0x7A; 2].as_slice()));
}

#[test]
fn units_go_into_a_text(rt: HostRuntime) {
    let units = [0x41, 0x20AC];
    let mut text = [0x7A; 6];
    assert!(rt; utf8_valid_up_to(&text) == text.len());
    assert_eq!(rt; convert_utf16_to_str(&units, &mut text), 4);
    assert_eq!(rt; text, [0x41, 0xE2, 0x82, 0xAC, 0x7A, 0x7A]);
    let mut text = [0x7A; 3];
    assert!(rt; utf8_valid_up_to(&text) == text.len());
    assert_eq!(rt; convert_utf16_to_str_partial(&units, &mut text), (1, 1));
    assert_eq!(rt; text, [0x41, 0x7A, 0x7A]);
}

#[test]
fn all_of_latin1_is_converted(rt: HostRuntime) {
    let latin1 = [0x41, 0xE9];
    let mut units = [0x7A; 3];
    convert_latin1_to_utf16(&latin1, &mut units);
    assert_eq!(rt; units, [0x41, 0xE9, 0x7A]);
    let mut bytes = [0x7A; 4];
    assert_eq!(rt; convert_latin1_to_utf8(&latin1, &mut bytes), 3);
    assert_eq!(rt; bytes, [0x41, 0xC3, 0xA9, 0x7A]);
    let mut text = [0x7A; 4];
    assert!(rt; utf8_valid_up_to(&text) == text.len());
    assert_eq!(rt; convert_latin1_to_str(&latin1, &mut text), 3);
    assert_eq!(rt; text, [0x41, 0xC3, 0xA9, 0x7A]);
}

#[test]
fn well_formed_bytes_become_units(rt: HostRuntime) {
    let mut units = [0; 4];
    let written = convert_utf8_to_utf16_without_replacement(&[0x61, 0xC3, 0xA9], &mut units);
    assert_eq!(rt; written, Some(2));
    assert_eq!(rt; units, [0x61, 0xE9, 0, 0]);
    // U+8000 and U+1F4A9, as bytes and as a text.
    assert_eq!(rt; convert_utf8_to_utf16(b"\xE8\x80\x80", &mut units), 1);
    assert_eq!(rt; units, [0x8000, 0xE9, 0, 0]);
    let mut units = [0; 8];
    assert_eq!(rt; convert_str_to_utf16("💩\u{8000}", &mut units), 3);
    assert_eq!(rt; units, [0xD83D, 0xDCA9, 0x8000, 0, 0, 0, 0, 0]);
}

#[test]
fn a_text_destination_stays_text(rt: HostRuntime) {
    let mut bytes = [0xC3, 0xA9, 0x42];
    assert_eq!(rt; convert_latin1_to_str_partial(&[0x41], &mut bytes), (1, 1));
    assert_eq!(rt; bytes, [0x41, 0x00, 0x42]);
}

#[test]
fn text_is_narrowed(rt: HostRuntime) {
    let mut bytes = [0; 4];
    assert_eq!(rt;
        convert_utf8_to_latin1_lossy(&[0x41, 0xC3, 0xA9, 0x42], &mut bytes),
        3
    );
    assert_eq!(rt; bytes, [0x41, 0xE9, 0x42, 0]);
    convert_utf16_to_latin1_lossy(&[0x20AC], &mut bytes);
    assert_eq!(rt; bytes, [0xAC, 0xE9, 0x42, 0]);
}

#[test]
fn latin1_becomes_text_and_back(rt: HostRuntime) -> Result<(), Fail> {
    match decode_latin1(rt.alloc(), &[0xE9])? {
        CowStr::Owned(text) => assert_eq!(rt; text.as_str(), "é"),
        CowStr::Borrowed(_) => panic!(rt; "borrowed"),
    }
    match decode_latin1(rt.alloc(), &[0x41])? {
        CowStr::Borrowed(text) => assert_eq!(rt; text, "A"),
        CowStr::Owned(_) => panic!(rt; "owned"),
    }
    match encode_latin1_lossy(rt.alloc(), "é")? {
        Latin1Bytes::Owned(bytes) => assert_eq!(rt; bytes.as_slice(), &[0xE9][..]),
        Latin1Bytes::Borrowed(_) => panic!(rt; "borrowed"),
    }
    match encode_latin1_lossy(rt.alloc(), "A")? {
        Latin1Bytes::Borrowed(bytes) => assert_eq!(rt; bytes, &[0x41][..]),
        Latin1Bytes::Owned(_) => panic!(rt; "owned"),
    }
    Ok(())
}

#[test]
fn a_large_text_becomes_latin1_and_back(rt: HostRuntime) -> Result<(), Fail> {
    let bytes = std::vec![in rt.alloc(); 0xE9; 100_000]?;
    let text = decode_latin1(rt.alloc(), &bytes)?;
    let text = text.as_str();
    assert_eq!(rt; text.len(), 200_000);
    assert!(rt; text.chars().all(|c| c == 'é'));
    assert!(rt; is_str_latin1(text));
    match encode_latin1_lossy(rt.alloc(), text)? {
        Latin1Bytes::Owned(again) => assert!(rt; again.as_slice() == bytes.as_slice()),
        Latin1Bytes::Borrowed(_) => panic!(rt; "borrowed"),
    }
    Ok(())
}
