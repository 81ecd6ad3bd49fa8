//! Checks of texts, with results worked by hand.

use encoding_mem::ascii::longer_ascii_prefix;
use encoding_mem::{
    Latin1Bidi, ascii_valid_up_to, check_str_for_latin1_and_bidi, check_utf8_for_latin1_and_bidi,
    check_utf16_for_latin1_and_bidi, ensure_utf16_validity, is_ascii, is_basic_latin, is_char_bidi,
    is_str_bidi, is_str_latin1, is_utf8_bidi, is_utf8_latin1, is_utf16_bidi,
    is_utf16_code_unit_bidi, is_utf16_latin1, iso_2022_jp_ascii_valid_up_to, str_latin1_up_to,
    utf8_latin1_up_to, utf8_valid_up_to, utf16_valid_up_to,
};

#[test]
fn latin1_left_to_right_and_bidi(rt: HostRuntime) {
    assert_eq!(rt;
        check_utf8_for_latin1_and_bidi(&[0xC3, 0xA9]),
        Latin1Bidi::Latin1
    );
    assert_eq!(rt;
        check_utf8_for_latin1_and_bidi(&[0xE2, 0x82, 0xAC]),
        Latin1Bidi::LeftToRight
    );
    assert_eq!(rt;
        check_utf8_for_latin1_and_bidi(&[0xD7, 0x90]),
        Latin1Bidi::Bidi
    );
    assert_eq!(rt; check_utf8_for_latin1_and_bidi(&[0xFF]), Latin1Bidi::Bidi);
    assert_eq!(rt; check_str_for_latin1_and_bidi("é"), Latin1Bidi::Latin1);
    assert_eq!(rt;
        check_str_for_latin1_and_bidi("é€"),
        Latin1Bidi::LeftToRight
    );
    assert_eq!(rt; check_str_for_latin1_and_bidi("€א"), Latin1Bidi::Bidi);
    assert_eq!(rt;
        check_utf16_for_latin1_and_bidi(&[0xFF]),
        Latin1Bidi::Latin1
    );
    assert_eq!(rt;
        check_utf16_for_latin1_and_bidi(&[0x100, 0xDC00]),
        Latin1Bidi::LeftToRight
    );
    assert_eq!(rt;
        check_utf16_for_latin1_and_bidi(&[0xD802, 0x41]),
        Latin1Bidi::Bidi
    );
}

#[test]
fn lone_surrogates_are_replaced(rt: HostRuntime) {
    let mut units = [0xD83D, 0x41, 0xDCA9];
    ensure_utf16_validity(&mut units);
    assert_eq!(rt; units, [0xFFFD, 0x41, 0xFFFD]);
    let mut pair = [
        0xDCA9, 0xD83D, 0xDCA9, 0xDCA9, 0xD83D, 0xD83D, 0xDCA9, 0xD83D,
    ];
    ensure_utf16_validity(&mut pair);
    assert_eq!(rt;
        pair,
        [
            0xFFFD, 0xD83D, 0xDCA9, 0xFFFD, 0xFFFD, 0xD83D, 0xDCA9, 0xFFFD
        ]
    );
}

// The first and the last code point of each range that counts as right-to-left.
const RANGES: [(u32, u32); 9] = [
    (0x590, 0x8FF),
    (0x200F, 0x200F),
    (0x202B, 0x202B),
    (0x202E, 0x202E),
    (0x2067, 0x2067),
    (0xFB1D, 0xFDFF),
    (0xFE70, 0xFEFE),
    (0x1_0800, 0x1_0FFF),
    (0x1_E800, 0x1_EFFF),
];

fn is_code_bidi(code: u32) -> bool {
    match char::from_u32(code) {
        Some(c) => is_char_bidi(c),
        None => false,
    }
}

#[test]
fn bidi_ranges_begin_and_end(rt: HostRuntime) {
    for range in &RANGES {
        let (first, last) = *range;
        assert!(rt; first > 0 && last < 0x10_FFFF);
        assert!(rt; is_code_bidi(first) && is_code_bidi(last));
        assert!(rt; !is_code_bidi(first - 1) && !is_code_bidi(last + 1));
    }
    for unit in [
        0x590, 0x8FF, 0x2067, 0xFB1D, 0xFEFE, 0xD802, 0xD803, 0xD83A, 0xD83B,
    ] {
        assert!(rt; is_utf16_code_unit_bidi(unit));
    }
    for unit in [
        0x58F, 0x900, 0xFB1C, 0xFEFF, 0xD801, 0xD804, 0xD839, 0xD83C, 0xDC00,
    ] {
        assert!(rt; !is_utf16_code_unit_bidi(unit));
    }
    assert!(rt; is_str_bidi("abc\u{200F}") && !is_str_bidi("abc €"));
    assert!(rt; is_str_bidi("\u{590}") && !is_str_bidi("\u{58F}"));
    assert!(rt; is_utf8_bidi(&[0x61, 0xD7, 0x90]) && !is_utf8_bidi(&[0x61, 0xC3, 0xA9]));
    assert!(rt; is_utf16_bidi(&[0x61, 0x5D0]) && !is_utf16_bidi(&[0x61, 0x20AC]));
}

#[test]
fn longest_prefixes(rt: HostRuntime) {
    assert_eq!(rt; utf8_valid_up_to(&[0x61, 0xC3, 0xA9, 0xE2, 0x82]), 3);
    assert_eq!(rt; utf8_valid_up_to("aé".as_bytes()), 3);
    assert_eq!(rt; ascii_valid_up_to(&[0x61, 0x1B, 0x80]), 2);
    assert_eq!(rt; iso_2022_jp_ascii_valid_up_to(&[0x61, 0x62, 0x1B]), 2);
    assert_eq!(rt; iso_2022_jp_ascii_valid_up_to(&[0x61, 0x0E]), 1);
    assert_eq!(rt; iso_2022_jp_ascii_valid_up_to(&[0x61, 0x10]), 2);
    assert_eq!(rt; utf16_valid_up_to(&[0xD83D, 0xDCA9, 0xD83D]), 2);
    assert_eq!(rt; utf16_valid_up_to(&[0xD83D, 0xDCA9, 0xDCA9]), 2);
    assert_eq!(rt; utf16_valid_up_to(&[0x61, 0xE000]), 2);
    assert_eq!(rt; utf8_latin1_up_to(&[0x61, 0xC3, 0xBF, 0xC4, 0x80]), 3);
    assert_eq!(rt; utf8_latin1_up_to(&[0x61, 0xC3]), 1);
    assert_eq!(rt; str_latin1_up_to("aÿĀ"), 3);
}

// The inputs are longer than a block that is checked at once. Only their last byte or unit is not
// ASCII.
#[test]
fn long_runs(rt: HostRuntime) {
    let mut bytes = [0x61; 70];
    assert!(rt; is_ascii(&bytes) && is_utf8_latin1(&bytes));
    bytes[69] = 0x80;
    assert!(rt; !is_ascii(&bytes) && !is_utf8_latin1(&bytes));
    assert_eq!(rt; ascii_valid_up_to(&bytes), 69);
    let mut units = [0x61; 70];
    assert!(rt; is_basic_latin(&units) && is_utf16_latin1(&units));
    units[69] = 0xFF;
    assert!(rt; !is_basic_latin(&units) && is_utf16_latin1(&units));
    assert!(rt; is_str_latin1("éÿ") && !is_str_latin1("Ā"));
}

// The prefix is found with vectors of 16 bytes, so the lengths go from none to just above two
// vectors.
#[test]
fn first_high_byte_at_each_offset(rt: HostRuntime) {
    for length in 0..34 {
        let mut bytes = [0x7F; 33];
        assert_eq!(rt; ascii_valid_up_to(&bytes[..length]), length);
        for offset in (0..length).rev() {
            bytes[offset] = 0x80;
            assert_eq!(rt; ascii_valid_up_to(&bytes[..length]), offset);
        }
    }
}

#[test]
fn runs_of_two_are_copied(rt: HostRuntime) {
    assert_eq!(rt; longer_ascii_prefix(&[0x61, 0x62, 0xC3], 9), "ab");
    assert_eq!(rt; longer_ascii_prefix(&[0x61, 0x7F], 9), "a\u{7F}");
    assert_eq!(rt; longer_ascii_prefix(&[0x61, 0xC3, 0x61], 9), "");
    assert_eq!(rt; longer_ascii_prefix(&[0x61], 9), "");
}
