//! Calls of the exports that decode over a text.

use crate::decoder::text::{
    jillapun_decoder_decode_to_str, jillapun_decoder_decode_to_str_without_replacement,
};
use crate::decoder::{DecoderHandle, jillapun_decoder_new};
use crate::progress::Progress;
use crate::status::{CLOSED, FINISHED, INPUT_EMPTY, KEEP, MALFORMED, OK};
use crate::tests::euro;
use std::alloc::Global;

const UTF_8: u8 = 25;

// A decoder of UTF-8 that takes no mark.
fn decoder(alloc: Global) -> DecoderHandle {
    let mut handle = DecoderHandle::none();
    jillapun_decoder_new(euro(alloc), UTF_8, KEEP, &mut handle);
    handle
}

#[test]
fn text_stays_text(rt: HostRuntime) {
    let alloc = rt.alloc();
    let mut handle = decoder(alloc);
    let mut progress = Progress::NONE;
    let mut text = *b"\xC3\xA9\xE2\x82\xAC\xE2\x82\xAC";
    let (src, dst) = (b"a\xFF", &mut text);
    let status = jillapun_decoder_decode_to_str(&mut handle, src, dst, true, &mut progress);
    assert_eq!(rt;
        (status, progress.written, progress.had_errors),
        (OK, 4, true)
    );
    assert_eq!(rt; text, *b"a\xEF\xBF\xBD\x00\xE2\x82\xAC");
    let dst = &mut text;
    let status = jillapun_decoder_decode_to_str(&mut handle, src, dst, true, &mut progress);
    assert_eq!(rt; (status, progress.written), (FINISHED, 0));
    handle = DecoderHandle::none();
    let dst = &mut text;
    let status = jillapun_decoder_decode_to_str(&mut handle, src, dst, true, &mut progress);
    assert_eq!(rt; status, CLOSED);
    assert_eq!(rt; text, *b"a\xEF\xBF\xBD\x00\xE2\x82\xAC");
}

#[test]
fn text_stays_text_up_to_a_malformed_byte(rt: HostRuntime) {
    let alloc = rt.alloc();
    let mut handle = decoder(alloc);
    let mut progress = Progress::NONE;
    let mut text = *b"\xF0\x9F\x92\xA9\xC3\xA9";
    let status = jillapun_decoder_decode_to_str_without_replacement(
        &mut handle,
        b"a\xFFb",
        &mut text,
        true,
        &mut progress,
    );
    assert_eq!(rt;
        (status, progress.outcome, progress.written, progress.read),
        (OK, MALFORMED, 1, 2)
    );
    assert_eq!(rt; text, *b"a\x00\x00\x00\xC3\xA9");
    let status = jillapun_decoder_decode_to_str_without_replacement(
        &mut handle,
        b"bcdef",
        &mut text,
        true,
        &mut progress,
    );
    assert_eq!(rt;
        (status, progress.outcome, progress.written),
        (OK, INPUT_EMPTY, 5)
    );
    assert_eq!(rt; text, *b"bcdef\x00");
}
