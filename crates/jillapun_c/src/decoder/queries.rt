//! Decoder queries.

ghost use Rattle.std.specs.Prelude.{◌≡◌, ◌≢◌, [], None};
ghost use Rattle.encoding_mem.specs.declared.codec.room.OutputUnit.TheVariants.{Units, Bytes};
ghost use Rattle.encoding_mem.specs.declared.codec.room.OutputUnit.TheVariants.{Replaced};
ghost use Rattle.encoding_front.specs.EncodingTable.{number_of};
ghost use Rattle.encoding_front.specs.calls.Stream.{DecoderView};
ghost use Rattle.jillapun_c.specs.DecoderCalls.{AnswersDecoder, AsksRoom, HoldsOne, TellsIfKnown};
ghost use Rattle.jillapun_c.specs.HeldDecoders.{saved_in};
ghost use Rattle.jillapun_c.specs.declared.status.TheConstants.{NO_ENCODING, OK};

use crate::decoder::DecoderHandle;
use crate::encoding_number::number_of;
use crate::status::{NO_ENCODING, OK, REFUSED, Status};
use encoding_mem::room::OutputUnit;

/// Returns the current encoding: that of the BOM once all of the BOM was read, else the one passed
/// to `jillapun_decoder_new`; `NO_ENCODING` if the handle is empty.
#[unsafe(no_mangle)]
pub extern "C" fn jillapun_decoder_encoding(decoder: &DecoderHandle) -> u8
    ensures closed { saved_in decoder.now.words ≡ None → result ≡ NO_ENCODING }
    ensures encoding { (v : DecoderView) → HoldsOne decoder.now v
        → result ≡ number_of (v.source []) }
{
    match decoder.words.saved() {
        Some(saved) => number_of(saved.encoding),
        None => NO_ENCODING,
    }
}

/// Stores in `length` a buffer length in bytes sufficient to decode the bytes kept from earlier
/// calls and `n` more with `jillapun_decoder_decode_to_utf8`; `SIZE_MAX` if it does not fit into a
/// `size_t`.
///
/// Returns `OK`, `CLOSED` or `FINISHED`.
#[unsafe(no_mangle)]
pub extern "C" fn jillapun_decoder_max_utf8_length(
    decoder: &DecoderHandle,
    n: usize,
    length: &mut usize,
) -> Status
    ensures tells { AsksRoom Replaced decoder.now n length.new result }
    ensures nothing { result ≢ OK → length.new ≡ 0 }
{
    decoder.room(OutputUnit::Replaced, n, length)
}

/// Like `jillapun_decoder_max_utf8_length`, for
/// `jillapun_decoder_decode_to_utf8_without_replacement`: sufficient up to the first malformed
/// sequence, and for one U+FFFD there.
#[unsafe(no_mangle)]
pub extern "C" fn jillapun_decoder_max_utf8_length_without_replacement(
    decoder: &DecoderHandle,
    n: usize,
    length: &mut usize,
) -> Status
    ensures tells { AsksRoom Bytes decoder.now n length.new result }
    ensures nothing { result ≢ OK → length.new ≡ 0 }
{
    decoder.room(OutputUnit::Bytes, n, length)
}

/// Like `jillapun_decoder_max_utf8_length`, in UTF-16 code units, for both functions that decode to
/// UTF-16.
#[unsafe(no_mangle)]
pub extern "C" fn jillapun_decoder_max_utf16_length(
    decoder: &DecoderHandle,
    n: usize,
    length: &mut usize,
) -> Status
    ensures tells { AsksRoom Units decoder.now n length.new result }
    ensures nothing { result ≢ OK → length.new ≡ 0 }
{
    decoder.room(OutputUnit::Units, n, length)
}

/// Stores in `length` the length of a prefix of `bytes` of which each byte, coming next in the
/// stream, decodes to the code point of the same number. The caller may copy these and pass only
/// the rest. The prefix is the longest possible for a single-byte encoding; for others it ends
/// before the first byte that is not ASCII, and for ISO-2022-JP also before the first 0x0E, 0x0F or
/// 0x1B.
///
/// `length` is `SIZE_MAX` if the count is not known: a BOM may still come, bytes are kept from
/// earlier calls, ISO-2022-JP is not in ASCII mode, or the encoding is UTF-16BE, UTF-16LE or
/// replacement.
///
/// Returns `OK`, `CLOSED` or `FINISHED`.
#[unsafe(no_mangle)]
pub extern "C" fn jillapun_decoder_latin1_byte_compatible_up_to(
    decoder: &DecoderHandle,
    bytes: &[u8],
    length: &mut usize,
) -> Status
    ensures tells { AnswersDecoder decoder.now result
        (λ v. TellsIfKnown v bytes.now length.new) }
    ensures nothing { result ≢ OK → length.new ≡ 0 }
{
    *length = 0;
    let opened = match decoder.opened() {
        Ok(opened) => opened,
        Err(status) => return status,
    };
    *length = opened
        .latin1_byte_compatible_up_to(bytes)
        .unwrap_or(REFUSED);
    OK
}
