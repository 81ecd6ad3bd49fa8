//! Checks of texts and conversions between them, UTF-8, and what every decoder and encoder stands
//! on.
//!
//! The functions of this crate are those of encoding_rs's module `mem`, and more. Some return
//! whether bytes, units of UTF-16 or text are ASCII, Latin1, well-formed or from right to left, and
//! how far. Others convert among Latin1, UTF-8 and UTF-16. None needs an index.
//!
//! `RawDecoder` and `RawEncoder` are the calls of a codec on slices; `Utf8Decoder` and
//! `Utf8Encoder` are two of them. The traits say how they are used: the caller keeps what is
//! unread, and hands it in again, first. A codec is a rule (`first_piece::DecoderRule`,
//! `encode::EncoderRule`): what the first piece of some bytes is, and what the form of one
//! character is. How a call cuts, waits, writes and stops is written and proved once for all rules.
//!
//! The sources stand in three folders: `mem` has the checks and conversions, `codec` what every
//! decoder and encoder stands on, and `utf8` the codec of UTF-8. Callers name a module of `mem` or
//! `codec` without its folder, as in `first_piece::DecoderRule`.
//!
//! # Use
//!
//!     let valid = utf8_valid_up_to(b"caf\xC3\xA9 \xFF");
//!     let latin1 = is_utf8_latin1(b"caf\xC3\xA9");
//!     let mut bytes = [0; 8];
//!     let (read, written) = convert_utf16_to_utf8_partial(&[0x63, 0xE9], &mut bytes);
//!     let mut decoder = Utf8Decoder::new();
//!     let mut units = [0; 8];
//!     let (result, _, text_len) = decoder.decode_to_utf16_raw(b"\xC3\xA9\xFF", &mut units, true);
//!
//! The first call returns 6, the third 2 units read and 3 bytes written. The decoder reports
//! `Malformed(1, 0)` after the unit of U+00E9: the byte FF is malformed, and nothing was read after
//! it.
#![tactic(auto)]

mod codec;
pub mod laws;
mod mem;
pub mod utf8;

pub use codec::decoder_result::DecoderResult;
pub use codec::encoder_result::EncoderResult;
pub use codec::raw_decoder::RawDecoder;
pub use codec::raw_encoder::RawEncoder;
pub use codec::reference::Reference;
pub use codec::sink::Sink;
pub use codec::source::{Source, Utf8Source, Utf16Source};
pub use codec::utf8_sink::Utf8Sink;
pub use codec::utf16_sink::Utf16Sink;
pub use codec::{
    bytewise, decoder_result, encode, encoder_result, first_piece, form, pending, raw_decoder,
    raw_encoder, reference, room, saved_pieces, scalar, sink, sink_decoder, source, source_encoder,
    utf8_sink, utf16_sink,
};
pub use mem::ascii_copies::{
    copy_ascii_to_ascii, copy_ascii_to_basic_latin, copy_basic_latin_to_ascii,
};
pub use mem::ascii_text::{
    ascii_valid_up_to, is_ascii, is_basic_latin, iso_2022_jp_ascii_valid_up_to,
};
pub use mem::bidi::{
    Latin1Bidi, check_str_for_latin1_and_bidi, check_utf8_for_latin1_and_bidi,
    check_utf16_for_latin1_and_bidi, is_char_bidi, is_str_bidi, is_utf8_bidi, is_utf16_bidi,
    is_utf16_code_unit_bidi,
};
pub use mem::latin1::{
    is_str_latin1, is_utf8_latin1, is_utf16_latin1, str_latin1_up_to, utf8_latin1_up_to,
};
pub use mem::latin1_conversions::{
    convert_latin1_to_utf8, convert_latin1_to_utf8_partial, convert_latin1_to_utf16,
    convert_utf8_to_latin1_lossy, convert_utf16_to_latin1_lossy,
};
pub use mem::latin1_texts::{Latin1Bytes, decode_latin1, encode_latin1_lossy};
pub use mem::text_destinations::{
    clear_behind, convert_latin1_to_str, convert_latin1_to_str_partial, convert_utf16_to_str,
    convert_utf16_to_str_partial,
};
pub use mem::utf8_conversions::{
    convert_str_to_utf16, convert_utf8_to_utf16, convert_utf8_to_utf16_up_to_invalid,
    convert_utf8_to_utf16_without_replacement,
};
pub use mem::utf16_conversions::{convert_utf16_to_utf8, convert_utf16_to_utf8_partial};
pub use mem::validity::{ensure_utf16_validity, utf8_valid_up_to, utf16_valid_up_to};
pub use mem::{
    ascii, ascii_copies, ascii_text, bidi, character_counts, first, latin1, latin1_conversions,
    latin1_texts, text_destinations, utf8_conversions, utf16_conversions, validity,
};
pub use utf8::decoder::Utf8Decoder;
pub use utf8::encoder as utf8_encoder;
pub use utf8::encoder::Utf8Encoder;
