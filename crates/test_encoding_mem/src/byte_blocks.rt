//! Bytes and units are read by blocks and by vectors: the lengths are around each of these, and one
//! byte or unit that differs stands at each offset.

use encoding_mem::{copy_ascii_to_ascii, copy_ascii_to_basic_latin};

// 69 bytes of ASCII, all different.
const LETTERS: [u8; 69] =
    *b"0123456789:;<=>?@ABCDEFGHIJKLMNOPQRSTUVWXYZ[\\]^_`abcdefghijklmnopqrst";

#[test]
fn bytes_are_copied_up_to_the_one_that_is_not_ascii(rt: HostRuntime) {
    for length in 0..70 {
        for offset in 0..length + 1 {
            let mut src = LETTERS;
            if offset < 69 {
                src[offset] = 0x80;
            }
            let mut bytes = [1; 69];
            let mut units = [1; 69];
            assert_eq!(rt; copy_ascii_to_ascii(&src[..length], &mut bytes), offset);
            assert_eq!(rt;
                copy_ascii_to_basic_latin(&src[..length], &mut units),
                offset
            );
            for (i, letter) in LETTERS.iter().enumerate() {
                let expected = if i < offset { *letter } else { 1 };
                assert!(rt; bytes[i] == expected && units[i] == expected as u16);
            }
        }
    }
}
