//! Calls of an encoder that are handed the whole of a text, again and again, with little room.

use crate::encoder::handle::EncoderHandle;
use crate::encoder::jillapun_encoder_new;
use crate::encoder::utf8::{
    jillapun_encoder_encode_from_utf8, jillapun_encoder_encode_from_utf8_without_replacement,
};
use crate::encoder_progress::EncoderProgress;
use crate::status::{INPUT_EMPTY, NOT_UTF8, OK, OUTPUT_FULL, UNMAPPABLE};
use crate::tests::euro;
use std::alloc::Global;

const UTF_8: u8 = 25;

const UTF_16BE: u8 = 26;

const WINDOWS_1252: u8 = 31;

// A text of 8 bytes: one byte, three that have one in windows-1252, three that have none, and one.
const TEXT: &[u8; 8] = b"a\xE2\x82\xAC\xE6\x97\xA5b";

// Where the character begins in which a byte of it stands.
const STARTS: [usize; 9] = [0, 1, 1, 1, 4, 4, 4, 7, 8];

// What calls leave: the last status and outcome, how many bytes were read, and what was written.
type Left = (u8, u8, usize, [u8; 16], usize);

fn encoder_into(alloc: Global, encoding: u8) -> EncoderHandle {
    let mut encoder = EncoderHandle::none();
    jillapun_encoder_new(euro(alloc), encoding, &mut encoder);
    encoder
}

fn western_encoder(alloc: Global) -> EncoderHandle {
    encoder_into(alloc, WINDOWS_1252)
}

// Hands in what is left of a text until all is read, or a call refuses.
fn through(encoder: &mut EncoderHandle, text: &[u8], room: usize, replaces: bool) -> Left {
    let mut progress = EncoderProgress::NONE;
    let mut status = OK;
    let mut read = 0;
    let mut made = *b"................";
    let mut len = 0;
    for _ in 0..12 {
        let mut bytes = [0; 20];
        let dst = &mut bytes[..room.min(20)];
        let rest = &text[read.min(text.len())..];
        status = if replaces {
            jillapun_encoder_encode_from_utf8(encoder, rest, dst, true, &mut progress)
        } else {
            jillapun_encoder_encode_from_utf8_without_replacement(
                encoder,
                rest,
                dst,
                true,
                &mut progress,
            )
        };
        if status != OK {
            break;
        }
        for i in 0..progress.written.min(20) {
            if len < 16 {
                made[len] = bytes[i];
                len += 1;
            }
        }
        read = progress.read.saturating_add(read);
        if progress.outcome == INPUT_EMPTY {
            break;
        }
    }
    (status, progress.outcome, read, made, len)
}

#[test]
fn any_room_that_is_enough_gives_the_text(rt: HostRuntime) {
    let alloc = rt.alloc();
    let mut encoder = western_encoder(alloc);
    for room in 0..21 {
        let left = through(&mut encoder, TEXT, room, true);
        if room < 11 {
            assert_eq!(rt; left, (OK, OUTPUT_FULL, 0, *b"................", 0));
        } else {
            assert_eq!(rt; left, (OK, INPUT_EMPTY, 8, *b"a\x80&#26085;b.....", 11));
        }
        let left = through(&mut encoder, TEXT, room, false);
        if room < 1 {
            assert_eq!(rt; left, (OK, OUTPUT_FULL, 0, *b"................", 0));
        } else {
            assert_eq!(rt; left, (OK, INPUT_EMPTY, 8, *b"a\x80b.............", 3));
        }
    }
}

// The text three times.
const LONG: &[u8; 24] =
    b"a\xE2\x82\xAC\xE6\x97\xA5ba\xE2\x82\xAC\xE6\x97\xA5ba\xE2\x82\xAC\xE6\x97\xA5b";

// A call with little room looks at a part of the text, which ends between characters.
#[test]
fn a_part_of_a_text_is_encoded_as_it_is_of_the_whole(rt: HostRuntime) {
    let alloc = rt.alloc();
    let mut encoder = western_encoder(alloc);
    for room in 1..7 {
        let left = through(&mut encoder, LONG, room, false);
        assert_eq!(rt;
            left,
            (OK, INPUT_EMPTY, 24, *b"a\x80ba\x80ba\x80b.......", 9)
        );
    }
}

#[test]
fn to_utf8_a_text_is_copied(rt: HostRuntime) {
    let alloc = rt.alloc();
    for encoding in UTF_8..UTF_16BE + 1 {
        let mut encoder = encoder_into(alloc, encoding);
        for room in 0..21 {
            for replaces in 0..2 {
                let left = through(&mut encoder, LONG, room, replaces == 1);
                if room < 1 {
                    assert_eq!(rt; left, (OK, OUTPUT_FULL, 0, *b"................", 0));
                } else if room < 3 {
                    assert_eq!(rt; left, (OK, OUTPUT_FULL, 1, *b"a...............", 1));
                } else {
                    let start = *b"a\xE2\x82\xAC\xE6\x97\xA5ba\xE2\x82\xAC\xE6\x97\xA5b";
                    assert_eq!(rt; left, (OK, INPUT_EMPTY, 24, start, 16));
                }
            }
        }
    }
}

#[test]
fn what_is_before_a_malformed_byte_is_encoded(rt: HostRuntime) {
    let alloc = rt.alloc();
    let mut encoder = western_encoder(alloc);
    for at in 0..8 {
        let mut text = *TEXT;
        text[at] = 0xFF;
        for room in 14..21 {
            let (status, _, read, _, _) = through(&mut encoder, &text, room, true);
            assert_eq!(rt; (status, read), (NOT_UTF8, STARTS[at]));
        }
        for room in 1..5 {
            let (status, _, read, _, _) = through(&mut encoder, &text, room, false);
            assert_eq!(rt; (status, read), (NOT_UTF8, STARTS[at]));
        }
    }
}

#[test]
fn a_text_that_ends_within_a_character_is_not_utf8(rt: HostRuntime) {
    let alloc = rt.alloc();
    let mut encoder = western_encoder(alloc);
    for end in 0..9 {
        let (status, outcome, read, _, len) = through(&mut encoder, &TEXT[..end], 20, true);
        assert_eq!(rt; read, STARTS[end]);
        if STARTS[end] == end {
            assert_eq!(rt; (status, outcome), (OK, INPUT_EMPTY));
        } else {
            assert_eq!(rt; (status, outcome), (NOT_UTF8, INPUT_EMPTY));
        }
        assert_eq!(rt; len >= 1, end >= 1);
    }
}

// The call that comes to the malformed byte does not end as if the text were read, and the end of
// the stream is not written.
#[test]
fn more_is_told_before_a_malformed_byte(rt: HostRuntime) {
    let alloc = rt.alloc();
    let mut encoder = western_encoder(alloc);
    let mut progress = EncoderProgress::NONE;
    let mut bytes = [0; 20];
    let status = jillapun_encoder_encode_from_utf8(
        &mut encoder,
        b"ab\xFF",
        &mut bytes,
        true,
        &mut progress,
    );
    assert_eq!(rt; (status, progress.outcome), (OK, OUTPUT_FULL));
    assert_eq!(rt; (progress.read, progress.written), (2, 2));
    let status = jillapun_encoder_encode_from_utf8_without_replacement(
        &mut encoder,
        b"\xE6\x97\xA5\xFF",
        &mut bytes,
        true,
        &mut progress,
    );
    assert_eq!(rt;
        (status, progress.outcome, progress.read),
        (OK, UNMAPPABLE, 3)
    );
    let status = jillapun_encoder_encode_from_utf8_without_replacement(
        &mut encoder,
        b"\xFF",
        &mut bytes,
        true,
        &mut progress,
    );
    assert_eq!(rt; (status, progress.outcome, progress.read), (NOT_UTF8, 0, 0));
}
