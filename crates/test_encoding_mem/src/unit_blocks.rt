//! Units of UTF-16 are written block by block: the lengths are around one block and around two
//! blocks.

use encoding_mem::{
    convert_utf16_to_utf8, convert_utf16_to_utf8_partial, copy_basic_latin_to_ascii,
};

#[test]
fn a_copy_ends_at_the_first_unit_that_is_not_ascii(rt: HostRuntime) {
    for length in 0..70 {
        let mut units = [0x7F; 69];
        for offset in (0..length + 1).rev() {
            if offset < 69 {
                units[offset] = 0x80;
            }
            let mut bytes = [1; 69];
            assert_eq!(rt;
                copy_basic_latin_to_ascii(&units[..length], &mut bytes),
                offset
            );
            for (i, byte) in bytes.iter().enumerate() {
                assert_eq!(rt; *byte, if i < offset { 0x7F } else { 1 });
            }
        }
    }
}

// Returns whether these units become these bytes if so many letters stand before and after them. No
// byte after the text may change.
fn become_text(units: &[u16], text: &[u8], before: usize, behind: usize) -> bool {
    if before > 70 || behind > 70 || units.len() > 2 || text.len() > 4 {
        return false;
    }
    let mut src = [0x61; 142];
    src[before..before + units.len()].copy_from_slice(units);
    let mut dst = [0x7A; 427];
    let written = convert_utf16_to_utf8(&src[..before + units.len() + behind], &mut dst);
    for (i, byte) in dst.iter().enumerate() {
        let expected = if i >= written {
            0x7A
        } else if i >= before && i - before < text.len() {
            text[i - before]
        } else {
            0x61
        };
        if *byte != expected {
            return false;
        }
    }
    written == before + text.len() + behind
}

// Half of a surrogate pair in place of the character becomes U+FFFD, whichever half it is.
#[test]
fn one_other_character_stands_anywhere(rt: HostRuntime) {
    for before in 0..67 {
        for behind in [0, 1, 30, 31, 32, 33, 63, 64, 65] {
            assert!(rt; become_text(&[0x7F], &[0x7F], before, behind));
            assert!(rt; become_text(&[0x80], &[0xC2, 0x80], before, behind));
            assert!(rt; become_text(&[0x7FF], &[0xDF, 0xBF], before, behind));
            assert!(rt; become_text(&[0x800], &[0xE0, 0xA0, 0x80], before, behind));
            assert!(rt; become_text(&[0xDC00], &[0xEF, 0xBF, 0xBD], before, behind));
            assert!(rt; become_text(&[0xD83D], &[0xEF, 0xBF, 0xBD], before, behind));
            assert!(rt; become_text(&[0xD83D, 0xDCA9], &[0xF0, 0x9F, 0x92, 0xA9], before, behind));
        }
    }
}

// If there is too little room, as many characters are written as fit.
#[test]
fn each_room_is_filled(rt: HostRuntime) {
    for room in 0..300 {
        let mut bytes = [0x7A; 300];
        for (unit, size) in [(0x61, 1), (0xE9, 2), (0x20AC, 3), (0xDC00, 3)] {
            let most = (room / size).min(70);
            assert_eq!(rt;
                convert_utf16_to_utf8_partial(&[unit; 70], &mut bytes[..room]),
                (most, most * size)
            );
        }
    }
}
