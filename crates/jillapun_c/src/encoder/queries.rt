//! Encoder queries.

ghost use Rattle.std.specs.Prelude.{◌≡◌, ◌≢◌, ◌↔◌, true, false, IsTrue, MatchOption};
ghost use Rattle.encoding_mem.specs.declared.codec.form.EscapeState.TheVariants.{Ascii};
ghost use Rattle.encoding_front.specs.EncodingTable.{number_of};
ghost use Rattle.encoding_front.specs.calls.Encoder.{queried_room, queried_with_kept};
ghost use Rattle.jillapun_c.specs.Coders.{encoder_in};
ghost use Rattle.jillapun_c.specs.EncoderCalls.{TellsNumber};
ghost use Rattle.jillapun_c.specs.declared.status.TheConstants.{NO_ENCODING, OK};

use crate::encoder::handle::EncoderHandle;
use crate::encoding_number::number_of;
use crate::status::{CLOSED, NO_ENCODING, OK, REFUSED, Status};
use encoding_mem::form::EscapeState;

/// Returns the output encoding, in which the encoder writes; `NO_ENCODING` if the handle is empty.
#[unsafe(no_mangle)]
pub extern "C" fn jillapun_encoder_encoding(encoder: &EncoderHandle) -> u8
    ensures { MatchOption (encoder_in encoder.now) (result ≡ NO_ENCODING)
        (λ e. result ≡ number_of e.encoding) }
{
    match encoder.words.saved() {
        None => NO_ENCODING,
        Some(saved) => number_of(saved.encoding),
    }
}

/// Returns whether an escape sequence to ASCII must still be written at the end of the text: only
/// in ISO-2022-JP, if another character set is active. False if the handle is empty.
#[unsafe(no_mangle)]
pub extern "C" fn jillapun_encoder_has_pending_state(encoder: &EncoderHandle) -> bool
    ensures { MatchOption (encoder_in encoder.now) (result ≡ false)
        (λ e. IsTrue result ↔ (e.set ≢ Ascii)) }
{
    match encoder.words.saved() {
        None => false,
        Some(saved) => saved.set != EscapeState::Ascii,
    }
}

/// Stores in `length` a buffer length in bytes sufficient to encode `n` bytes of UTF-8 with
/// `jillapun_encoder_encode_from_utf8`, and the final escape sequence, if no character is
/// unmappable; `SIZE_MAX` if it does not fit into a `size_t`.
///
/// Returns `OK` or `CLOSED`.
#[unsafe(no_mangle)]
pub extern "C" fn jillapun_encoder_max_length_from_utf8_if_no_unmappables(
    encoder: &EncoderHandle,
    n: usize,
    length: &mut usize,
) -> Status
    ensures tells { TellsNumber (encoder_in encoder.now)
        (λ e. queried_with_kept e.encoding false n) length.new result }
    ensures nothing { result ≢ OK → length.new ≡ 0 }
{
    *length = 0;
    let Some(saved) = encoder.words.saved() else {
        return CLOSED;
    };
    *length = saved
        .encoding
        .max_length_from_utf8_if_no_unmappables(n)
        .unwrap_or(REFUSED);
    OK
}

/// Like `jillapun_encoder_max_length_from_utf8_if_no_unmappables`, for
/// `jillapun_encoder_encode_from_utf8_without_replacement`.
#[unsafe(no_mangle)]
pub extern "C" fn jillapun_encoder_max_length_from_utf8_without_replacement(
    encoder: &EncoderHandle,
    n: usize,
    length: &mut usize,
) -> Status
    ensures tells { TellsNumber (encoder_in encoder.now)
        (λ e. queried_room e.encoding false n) length.new result }
    ensures nothing { result ≢ OK → length.new ≡ 0 }
{
    *length = 0;
    let Some(saved) = encoder.words.saved() else {
        return CLOSED;
    };
    *length = saved
        .encoding
        .max_length_from_utf8_without_replacement(n)
        .unwrap_or(REFUSED);
    OK
}

/// Like `jillapun_encoder_max_length_from_utf8_if_no_unmappables`, for `n` UTF-16 code units and
/// `jillapun_encoder_encode_from_utf16`.
#[unsafe(no_mangle)]
pub extern "C" fn jillapun_encoder_max_length_from_utf16_if_no_unmappables(
    encoder: &EncoderHandle,
    n: usize,
    length: &mut usize,
) -> Status
    ensures tells { TellsNumber (encoder_in encoder.now)
        (λ e. queried_with_kept e.encoding true n) length.new result }
    ensures nothing { result ≢ OK → length.new ≡ 0 }
{
    *length = 0;
    let Some(saved) = encoder.words.saved() else {
        return CLOSED;
    };
    *length = saved
        .encoding
        .max_length_from_utf16_if_no_unmappables(n)
        .unwrap_or(REFUSED);
    OK
}

/// Like `jillapun_encoder_max_length_from_utf8_without_replacement`, for `n` UTF-16 code units and
/// `jillapun_encoder_encode_from_utf16_without_replacement`.
#[unsafe(no_mangle)]
pub extern "C" fn jillapun_encoder_max_length_from_utf16_without_replacement(
    encoder: &EncoderHandle,
    n: usize,
    length: &mut usize,
) -> Status
    ensures tells { TellsNumber (encoder_in encoder.now)
        (λ e. queried_room e.encoding true n) length.new result }
    ensures nothing { result ≢ OK → length.new ≡ 0 }
{
    *length = 0;
    let Some(saved) = encoder.words.saved() else {
        return CLOSED;
    };
    *length = saved
        .encoding
        .max_length_from_utf16_without_replacement(n)
        .unwrap_or(REFUSED);
    OK
}
