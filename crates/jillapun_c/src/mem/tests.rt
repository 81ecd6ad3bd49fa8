//! Calls of the exports, with results worked by hand.

use crate::mem::ascii::{
    jillapun_ascii_valid_up_to, jillapun_iso_2022_jp_ascii_valid_up_to,
    jillapun_mem_copy_ascii_to_ascii, jillapun_mem_copy_ascii_to_basic_latin,
    jillapun_mem_copy_basic_latin_to_ascii, jillapun_mem_is_ascii, jillapun_mem_is_basic_latin,
};
use crate::mem::bidi::{
    jillapun_mem_check_str_for_latin1_and_bidi, jillapun_mem_check_utf8_for_latin1_and_bidi,
    jillapun_mem_check_utf16_for_latin1_and_bidi, jillapun_mem_is_char_bidi,
    jillapun_mem_is_str_bidi, jillapun_mem_is_utf8_bidi, jillapun_mem_is_utf16_bidi,
    jillapun_mem_is_utf16_code_unit_bidi,
};
use crate::mem::latin1::{
    jillapun_mem_convert_latin1_to_str, jillapun_mem_convert_latin1_to_utf8,
    jillapun_mem_convert_latin1_to_utf16, jillapun_mem_convert_utf8_to_latin1_lossy,
    jillapun_mem_convert_utf16_to_latin1_lossy, jillapun_mem_is_str_latin1,
    jillapun_mem_is_utf8_latin1, jillapun_mem_is_utf16_latin1, jillapun_mem_str_latin1_up_to,
    jillapun_mem_utf8_latin1_up_to,
};
use crate::mem::partial::{
    jillapun_mem_convert_latin1_to_str_partial, jillapun_mem_convert_latin1_to_utf8_partial,
    jillapun_mem_convert_utf8_to_utf16_up_to_invalid, jillapun_mem_convert_utf16_to_str_partial,
    jillapun_mem_convert_utf16_to_utf8_partial,
};
use crate::mem::utf8::{
    jillapun_mem_convert_str_to_utf16, jillapun_mem_convert_utf8_to_utf16,
    jillapun_mem_convert_utf8_to_utf16_without_replacement, jillapun_utf8_valid_up_to,
};
use crate::mem::utf16::{
    jillapun_mem_convert_utf16_to_str, jillapun_mem_convert_utf16_to_utf8,
    jillapun_mem_ensure_utf16_validity, jillapun_mem_utf16_valid_up_to,
};
use crate::status::{BIDI, LATIN1, LEFT_TO_RIGHT, REFUSED};

#[test]
fn ascii_is_found(rt: HostRuntime) {
    assert!(rt; jillapun_mem_is_ascii(&[0x61, 0x7F]) && !jillapun_mem_is_ascii(&[0x61, 0x80]));
    assert!(rt;
        jillapun_mem_is_basic_latin(&[0x61, 0x7F]) && !jillapun_mem_is_basic_latin(&[0x80])
    );
    assert_eq!(rt; jillapun_ascii_valid_up_to(&[0x61, 0x1B, 0x80]), 2);
    assert_eq!(rt;
        jillapun_iso_2022_jp_ascii_valid_up_to(&[0x61, 0x62, 0x1B]),
        2
    );
}

#[test]
fn ascii_is_copied_to_its_end(rt: HostRuntime) {
    let mut bytes = [1; 4];
    let mut units = [1; 4];
    assert_eq!(rt;
        jillapun_mem_copy_ascii_to_ascii(&[0x41, 0x42, 0xC3], &mut bytes),
        2
    );
    assert_eq!(rt; bytes, [0x41, 0x42, 1, 1]);
    assert_eq!(rt;
        jillapun_mem_copy_ascii_to_basic_latin(&[0x41, 0x42, 0xC3], &mut units),
        2
    );
    assert_eq!(rt; units, [0x41, 0x42, 1, 1]);
    assert_eq!(rt;
        jillapun_mem_copy_basic_latin_to_ascii(&[0x43, 0x80], &mut bytes),
        1
    );
    assert_eq!(rt; bytes, [0x43, 0x42, 1, 1]);
    assert_eq!(rt; jillapun_mem_copy_ascii_to_ascii(&[0x44; 5], &mut bytes), 5);
    assert_eq!(rt;
        jillapun_mem_copy_ascii_to_basic_latin(&[0x44; 5], &mut units),
        5
    );
    assert_eq!(rt;
        jillapun_mem_copy_basic_latin_to_ascii(&[0x44; 5], &mut bytes),
        5
    );
    assert_eq!(rt; bytes, [0x43, 0x42, 1, 1]);
}

#[test]
fn layout_is_told(rt: HostRuntime) {
    assert!(rt; jillapun_mem_is_char_bidi(0x590) && !jillapun_mem_is_char_bidi(0x58F));
    assert!(rt; !jillapun_mem_is_char_bidi(0xD802) && !jillapun_mem_is_char_bidi(0x11_0000));
    assert!(rt;
        jillapun_mem_is_utf16_code_unit_bidi(0xD802)
            && !jillapun_mem_is_utf16_code_unit_bidi(0xD801)
    );
    assert!(rt;
        jillapun_mem_is_utf8_bidi(&[0x61, 0xD7, 0x90]) && !jillapun_mem_is_utf8_bidi(&[0xC3, 0xA9])
    );
    assert!(rt; jillapun_mem_is_str_bidi(&[0xFF]) && !jillapun_mem_is_str_bidi(&[0xC3, 0xA9]));
    assert!(rt;
        jillapun_mem_is_utf16_bidi(&[0x61, 0x5D0]) && !jillapun_mem_is_utf16_bidi(&[0x20AC])
    );
    assert_eq!(rt;
        jillapun_mem_check_utf8_for_latin1_and_bidi(&[0xC3, 0xA9]),
        LATIN1
    );
    assert_eq!(rt;
        jillapun_mem_check_utf8_for_latin1_and_bidi(&[0xE2, 0x82, 0xAC]),
        LEFT_TO_RIGHT
    );
    assert_eq!(rt;
        jillapun_mem_check_utf8_for_latin1_and_bidi(&[0xD7, 0x90]),
        BIDI
    );
    assert_eq!(rt;
        jillapun_mem_check_str_for_latin1_and_bidi(&[0xD7, 0x90]),
        BIDI
    );
    assert_eq!(rt;
        jillapun_mem_check_utf16_for_latin1_and_bidi(&[0xFF]),
        LATIN1
    );
    assert_eq!(rt;
        jillapun_mem_check_utf16_for_latin1_and_bidi(&[0x100, 0xDC00]),
        LEFT_TO_RIGHT
    );
    assert_eq!(rt;
        jillapun_mem_check_utf16_for_latin1_and_bidi(&[0xD802, 0x41]),
        BIDI
    );
}

#[test]
fn latin1_is_found(rt: HostRuntime) {
    assert!(rt;
        jillapun_mem_is_utf8_latin1(&[0xC3, 0xBF]) && !jillapun_mem_is_utf8_latin1(&[0xC4, 0x80])
    );
    assert!(rt; jillapun_mem_is_str_latin1(&[0xC3, 0xBF]) && !jillapun_mem_is_str_latin1(&[0xFF]));
    assert!(rt; jillapun_mem_is_utf16_latin1(&[0xFF]) && !jillapun_mem_is_utf16_latin1(&[0x100]));
    assert_eq!(rt;
        jillapun_mem_utf8_latin1_up_to(&[0x61, 0xC3, 0xBF, 0xC4, 0x80]),
        3
    );
    assert_eq!(rt;
        jillapun_mem_str_latin1_up_to(&[0x61, 0xC3, 0xBF, 0xC4, 0x80]),
        3
    );
}

#[test]
fn latin1_is_converted(rt: HostRuntime) {
    let latin1 = [0x41, 0xE9];
    let mut units = [0x7A; 3];
    assert_eq!(rt;
        jillapun_mem_convert_latin1_to_utf16(&latin1, &mut units),
        2
    );
    assert_eq!(rt; units, [0x41, 0xE9, 0x7A]);
    let mut bytes = [0x7A; 4];
    assert_eq!(rt; jillapun_mem_convert_latin1_to_utf8(&latin1, &mut bytes), 3);
    assert_eq!(rt; bytes, [0x41, 0xC3, 0xA9, 0x7A]);
    assert_eq!(rt;
        jillapun_mem_convert_utf8_to_latin1_lossy(&[0x42, 0xC3, 0xA8], &mut bytes),
        2
    );
    assert_eq!(rt; bytes, [0x42, 0xE8, 0xA9, 0x7A]);
    assert_eq!(rt;
        jillapun_mem_convert_utf16_to_latin1_lossy(&[0xE7, 0x141], &mut bytes),
        2
    );
    assert_eq!(rt; bytes, [0xE7, 0x41, 0xA9, 0x7A]);
}

#[test]
fn too_small_a_room_is_left_alone(rt: HostRuntime) {
    let mut units = [0x7A; 1];
    let mut bytes = [0x7A; 1];
    assert_eq!(rt;
        jillapun_mem_convert_latin1_to_utf16(&[0xE9; 2], &mut units),
        2
    );
    assert_eq!(rt; jillapun_mem_convert_utf8_to_utf16(&[0x41], &mut units), 2);
    assert_eq!(rt;
        jillapun_mem_convert_str_to_utf16(&[0x41; 2], &mut units),
        2
    );
    assert_eq!(rt;
        jillapun_mem_convert_utf8_to_utf16_without_replacement(&[0xFF; 2], &mut units),
        2
    );
    assert_eq!(rt; units, [0x7A]);
    assert_eq!(rt; jillapun_mem_convert_latin1_to_utf8(&[0xE9], &mut bytes), 2);
    assert_eq!(rt; jillapun_mem_convert_latin1_to_str(&[0xE9], &mut bytes), 2);
    assert_eq!(rt;
        jillapun_mem_convert_utf8_to_latin1_lossy(&[0xE9], &mut bytes),
        REFUSED
    );
    assert_eq!(rt;
        jillapun_mem_convert_utf8_to_latin1_lossy(&[0xE9; 2], &mut bytes),
        2
    );
    assert_eq!(rt;
        jillapun_mem_convert_utf16_to_latin1_lossy(&[0x41; 2], &mut bytes),
        2
    );
    assert_eq!(rt; jillapun_mem_convert_utf16_to_utf8(&[0x41], &mut bytes), 3);
    assert_eq!(rt; jillapun_mem_convert_utf16_to_str(&[0x41], &mut bytes), 3);
    assert_eq!(rt; bytes, [0x7A]);
}

#[test]
fn a_text_stays_text(rt: HostRuntime) {
    let mut text = [0xC3, 0xA9, 0x42, 0x42];
    assert_eq!(rt; jillapun_mem_convert_latin1_to_str(&[0x41], &mut text), 1);
    assert_eq!(rt; text, [0x41, 0, 0x42, 0x42]);
    assert_eq!(rt; jillapun_mem_convert_utf16_to_str(&[0x43], &mut text), 1);
    assert_eq!(rt; text, [0x43, 0, 0x42, 0x42]);
}

// Three bytes are the most that can be left of a character: of what is no text no more is cleared.
#[test]
fn at_most_three_bytes_are_cleared(rt: HostRuntime) {
    let mut bytes = [0xF0, 0x9F, 0x92, 0xA9, 0x80, 0xFF];
    assert_eq!(rt; jillapun_mem_convert_latin1_to_str(&[0x41], &mut bytes), 1);
    assert_eq!(rt; bytes, [0x41, 0, 0, 0, 0x80, 0xFF]);
    let mut bytes = [0x80; 6];
    assert_eq!(rt; jillapun_mem_convert_utf16_to_str(&[0x43], &mut bytes), 1);
    assert_eq!(rt; bytes, [0x43, 0, 0, 0, 0x80, 0x80]);
}

// U+0041, U+20AC and half a pair, of which U+FFFD stands in the place.
#[test]
fn units_are_converted(rt: HostRuntime) {
    let mut units = [0x41, 0x20AC, 0xD83D];
    let mut bytes = [0x7A; 9];
    assert_eq!(rt; jillapun_mem_convert_utf16_to_utf8(&units, &mut bytes), 7);
    assert_eq!(rt;
        bytes,
        [0x41, 0xE2, 0x82, 0xAC, 0xEF, 0xBF, 0xBD, 0x7A, 0x7A]
    );
    assert_eq!(rt; jillapun_mem_utf16_valid_up_to(&units), 2);
    jillapun_mem_ensure_utf16_validity(&mut units);
    assert_eq!(rt; units, [0x41, 0x20AC, 0xFFFD]);
}

// A surrogate has no form in UTF-8: each of its three bytes is malformed by itself.
#[test]
fn bytes_are_converted(rt: HostRuntime) {
    let broken = [0x61, 0xED, 0xA0, 0x80, 0x5A];
    let mut units = [0; 6];
    assert_eq!(rt; jillapun_utf8_valid_up_to(&broken), 1);
    assert_eq!(rt; jillapun_mem_convert_utf8_to_utf16(&broken, &mut units), 5);
    assert_eq!(rt; units, [0x61, 0xFFFD, 0xFFFD, 0xFFFD, 0x5A, 0]);
    let mut units = [0; 5];
    assert_eq!(rt;
        jillapun_mem_convert_utf8_to_utf16_without_replacement(&broken, &mut units),
        REFUSED
    );
    assert_eq!(rt; units, [0x61, 0, 0, 0, 0]);
    let text = [0x62, 0xE2, 0x82, 0xAC];
    assert_eq!(rt;
        jillapun_mem_convert_utf8_to_utf16_without_replacement(&text, &mut units),
        2
    );
    assert_eq!(rt; units, [0x62, 0x20AC, 0, 0, 0]);
    assert_eq!(rt;
        jillapun_mem_convert_str_to_utf16(&[0xC3, 0xA9], &mut units),
        1
    );
    assert_eq!(rt; units, [0xE9, 0x20AC, 0, 0, 0]);
}

#[test]
fn a_character_that_does_not_fit_is_left(rt: HostRuntime) {
    let mut bytes = [0; 3];
    let mut read = 9;
    let mut written = 9;
    jillapun_mem_convert_utf16_to_utf8_partial(
        &[0x41, 0x20AC],
        &mut bytes,
        &mut read,
        &mut written,
    );
    assert!(rt; read == 1 && written == 1);
    assert_eq!(rt; bytes, [0x41, 0, 0]);
    jillapun_mem_convert_latin1_to_utf8_partial(&[0xE8, 0xE9], &mut bytes, &mut read, &mut written);
    assert!(rt; read == 1 && written == 2);
    assert_eq!(rt; bytes, [0xC3, 0xA8, 0]);
    let mut units = [0; 2];
    let bytes = [0x61, 0xC3, 0xA9, 0xFF];
    jillapun_mem_convert_utf8_to_utf16_up_to_invalid(&bytes, &mut units, &mut read, &mut written);
    assert!(rt; read == 3 && written == 2);
    assert_eq!(rt; units, [0x61, 0xE9]);
}

#[test]
fn what_fits_goes_into_a_text(rt: HostRuntime) {
    let mut text = [0x61, 0xC3, 0xA9];
    let mut read = 9;
    let mut written = 9;
    jillapun_mem_convert_utf16_to_str_partial(&[0xE8, 0xE8], &mut text, &mut read, &mut written);
    assert!(rt; read == 1 && written == 2);
    assert_eq!(rt; text, [0xC3, 0xA8, 0]);
    jillapun_mem_convert_latin1_to_str_partial(&[0x41], &mut text, &mut read, &mut written);
    assert!(rt; read == 1 && written == 1);
    assert_eq!(rt; text, [0x41, 0, 0]);
}

// A euro sign is three bytes and one unit: no room for a unit is no reason to look at more.
#[test]
fn room_ends_before_the_malformed_byte(rt: HostRuntime) {
    let mut units = [0; 1];
    let mut read = 9;
    let mut written = 9;
    let bytes = [0xE2, 0x82, 0xAC, 0xFF];
    jillapun_mem_convert_utf8_to_utf16_up_to_invalid(&bytes, &mut units, &mut read, &mut written);
    assert!(rt; read == 3 && written == 1);
    assert_eq!(rt; units, [0x20AC]);
    jillapun_mem_convert_utf8_to_utf16_up_to_invalid(
        &[0xF0, 0x9F, 0x92, 0xA9],
        &mut units,
        &mut read,
        &mut written,
    );
    assert!(rt; read == 0 && written == 0);
}
