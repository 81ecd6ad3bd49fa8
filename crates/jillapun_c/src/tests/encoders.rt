//! Handles of encoders as plain words: moved, copied, and with no tables.

use crate::encoder::handle::EncoderHandle;
use crate::encoder::jillapun_encoder_new;
use crate::encoder::queries::{jillapun_encoder_encoding, jillapun_encoder_has_pending_state};
use crate::encoder::utf8::jillapun_encoder_encode_from_utf8;
use crate::encoder::utf16::jillapun_encoder_encode_from_utf16;
use crate::encoder_progress::EncoderProgress;
use crate::status::{INPUT_EMPTY, NO_ENCODING, NOT_READY, OK, UNKNOWN};
use crate::tables_handle::TablesHandle;
use crate::tests::{euro, japanese};

const ISO_2022_JP: u8 = 6;

const UTF_8: u8 = 25;

const UTF_16LE: u8 = 27;

const WINDOWS_1252: u8 = 31;

// A copy, byte for byte.
fn copied(handle: &EncoderHandle) -> EncoderHandle {
    EncoderHandle {
        tables: handle.tables.copied(),
        words: handle.words,
    }
}

// What a call leaves: its status and outcome, the room, and how many bytes were written.
type Left = (u8, u8, [u8; 24], usize);

fn encoded(handle: &mut EncoderHandle, text: &[u8], last: bool) -> Left {
    let mut progress = EncoderProgress::NONE;
    let mut bytes = *b"........................";
    let status = jillapun_encoder_encode_from_utf8(handle, text, &mut bytes, last, &mut progress);
    (status, progress.outcome, bytes, progress.written)
}

#[test]
fn no_tables_do_for_utf_8(rt: HostRuntime) {
    for encoding in UTF_8..UTF_16LE + 1 {
        let mut encoder = EncoderHandle::none();
        let status = jillapun_encoder_new(TablesHandle::none(), encoding, &mut encoder);
        assert_eq!(rt; status, OK);
        assert_eq!(rt; jillapun_encoder_encoding(&encoder), UTF_8);
        let left = encoded(&mut encoder, "a€".as_bytes(), true);
        assert_eq!(rt;
            left,
            (OK, INPUT_EMPTY, *b"a\xE2\x82\xAC....................", 4)
        );
        let mut progress = EncoderProgress::NONE;
        let mut bytes = *b"....";
        let status = jillapun_encoder_encode_from_utf16(
            &mut encoder,
            &[0x20AC],
            &mut bytes,
            true,
            &mut progress,
        );
        assert_eq!(rt; (status, progress.outcome), (OK, INPUT_EMPTY));
        assert_eq!(rt; (progress.read, progress.written), (1, 3));
        assert_eq!(rt; bytes, *b"\xE2\x82\xAC.");
    }
}

#[test]
fn what_is_not_made_leaves_none(rt: HostRuntime) {
    let alloc = rt.alloc();
    let mut encoder = EncoderHandle::none();
    let status = jillapun_encoder_new(TablesHandle::none(), WINDOWS_1252, &mut encoder);
    assert_eq!(rt; status, NOT_READY);
    assert_eq!(rt; jillapun_encoder_encoding(&encoder), NO_ENCODING);
    for (tables, encoding, wanted) in [
        (TablesHandle::none(), ISO_2022_JP, NOT_READY),
        (euro(alloc), 40, UNKNOWN),
    ] {
        let status = jillapun_encoder_new(euro(alloc), WINDOWS_1252, &mut encoder);
        assert_eq!(rt; status, OK);
        let status = jillapun_encoder_new(tables, encoding, &mut encoder);
        assert_eq!(rt; status, wanted);
        assert_eq!(rt; jillapun_encoder_encoding(&encoder), NO_ENCODING);
    }
}

// A new one takes the place of one that is there.
#[test]
fn handles_are_filled_again(rt: HostRuntime) {
    let alloc = rt.alloc();
    let mut encoder = EncoderHandle::none();
    jillapun_encoder_new(japanese(alloc), ISO_2022_JP, &mut encoder);
    encoded(&mut encoder, "¥".as_bytes(), false);
    assert!(rt; jillapun_encoder_has_pending_state(&encoder));
    let status = jillapun_encoder_new(euro(alloc), WINDOWS_1252, &mut encoder);
    assert_eq!(rt; status, OK);
    assert!(rt; !jillapun_encoder_has_pending_state(&encoder));
    assert_eq!(rt; jillapun_encoder_encoding(&encoder), WINDOWS_1252);
}

// In ISO-2022-JP the yen sign is 5C of the Roman set, which stays in force until the end.
#[test]
fn copies_go_on_from_where_they_were_made(rt: HostRuntime) {
    let alloc = rt.alloc();
    let mut encoder = EncoderHandle::none();
    jillapun_encoder_new(japanese(alloc), ISO_2022_JP, &mut encoder);
    let mut before = copied(&encoder);
    let left = encoded(&mut encoder, "¥".as_bytes(), false);
    assert_eq!(rt;
        left,
        (OK, INPUT_EMPTY, *b"\x1B(J\\....................", 4)
    );
    let mut after = copied(&encoder);
    let mut moved = encoder;
    assert!(rt; jillapun_encoder_has_pending_state(&moved));
    assert!(rt; jillapun_encoder_has_pending_state(&after));
    assert!(rt; !jillapun_encoder_has_pending_state(&before));
    let rest = *b"a\\\x1B(B...................";
    let left = encoded(&mut moved, "a¥".as_bytes(), true);
    assert_eq!(rt; left, (OK, INPUT_EMPTY, rest, 5));
    let left = encoded(&mut after, "a¥".as_bytes(), true);
    assert_eq!(rt; left, (OK, INPUT_EMPTY, rest, 5));
    let left = encoded(&mut before, "¥".as_bytes(), true);
    assert_eq!(rt;
        left,
        (OK, INPUT_EMPTY, *b"\x1B(J\\\x1B(B.................", 7)
    );
}
