//! The forty encodings of the Encoding Standard, by name and label; decoders and encoders of
//! streams; and calls for whole inputs and texts.
//!
//! An `Encoding` is a value: a constant of this crate (`SHIFT_JIS`), what a label names
//! (`Encoding::for_label`), or what a byte order mark says (`Encoding::for_bom`). All but UTF-8,
//! UTF-16BE, UTF-16LE, replacement and x-user-defined need indexes, which are handed in as
//! `encoding_tables::Tables`. `Encoding::is_ready` reports whether they are there: it is the test
//! of the condition of each call that takes tables, but for those that go on from what was saved.
//!
//! A whole input is decoded by `Encoding::decode` and its variants, a whole text encoded by
//! `Encoding::encode`. A stream is decoded by a `Decoder` and encoded by an `Encoder`, call by
//! call:
//!
//! - The decoder or encoder keeps the state: bytes that are not decided, the mode or set of
//!   ISO-2022-JP, the byte order mark. The caller keeps the unread bytes or text, and hands them in
//!   again, first, in the next call.
//! - Buffers may have any size. Room for 4 bytes or 2 units is enough to go on decoding, 4 bytes to
//!   go on encoding, 14 with references; room of the size that the length query returns is enough
//!   for all that is handed in, up to the first malformed sequence or character without bytes that
//!   is reported, and as long as no reference is written.
//! - `last` is true in the call whose source ends the stream. The stream is converted when that
//!   call, or one that repeats it with what is unread, returns `InputEmpty`. After it a decoder
//!   takes no bytes, and an encoder is as a new one.
//! - Malformed sequences become U+FFFD, and characters without bytes decimal references, or each
//!   ends the call and is the caller's (the calls `without_replacement`). Lone surrogates in UTF-16
//!   sources are encoded as U+FFFD.
//!
//! # Use
//!
//!     let tables = Tables::new(alloc);
//!     let Some(encoding) = Encoding::for_label(b"utf8") else {
//!         return Ok(false);
//!     };
//!     if !encoding.is_ready(&tables) {
//!         return Ok(false);
//!     }
//!     let mut decoder = encoding.new_decoder(&tables);
//!     let mut text = [0; 16];
//!     let (_, _, start, _) = decoder.decode_to_utf8(b"caf\xC3", &mut text, false);
//!     let rest = &mut text[start..];
//!     let (result, _, more, had_errors) = decoder.decode_to_utf8(b"\xA9", rest, true);
//!     let (bytes, _, had_references) = UTF_8.encode(alloc, &tables, "caf\u{E9}")?;
//!
//! `start` is 3, since C3 waits for what follows; `more` is 2, and `text` begins with `café`, as
//! `bytes` does.
#![tactic(auto)]

mod codec_kind;
pub mod coder_result;
pub mod constants;
pub mod decoder;
pub mod encoder;
pub mod encoding;
pub mod laws;
mod lengths;
pub mod mark;
mod one_shot_decoding;
mod one_shot_encoding;
pub mod one_shot_fault;
pub mod reference;
mod replacing;
pub mod seeking;
pub mod variant_decoder;
pub mod variant_encoder;

pub use coder_result::CoderResult;
// Written by tools/generate_encodings.py from tools/encodings.toml; do not edit.
pub use constants::{
    BIG5, BIG5_INIT, EUC_JP, EUC_JP_INIT, EUC_KR, EUC_KR_INIT, GB18030, GB18030_INIT, GBK,
    GBK_INIT, IBM866, IBM866_INIT, ISO_2022_JP, ISO_2022_JP_INIT, ISO_8859_2, ISO_8859_2_INIT,
    ISO_8859_3, ISO_8859_3_INIT, ISO_8859_4, ISO_8859_4_INIT, ISO_8859_5, ISO_8859_5_INIT,
    ISO_8859_6, ISO_8859_6_INIT, ISO_8859_7, ISO_8859_7_INIT, ISO_8859_8, ISO_8859_8_I,
    ISO_8859_8_I_INIT, ISO_8859_8_INIT, ISO_8859_10, ISO_8859_10_INIT, ISO_8859_13,
    ISO_8859_13_INIT, ISO_8859_14, ISO_8859_14_INIT, ISO_8859_15, ISO_8859_15_INIT, ISO_8859_16,
    ISO_8859_16_INIT, KOI8_R, KOI8_R_INIT, KOI8_U, KOI8_U_INIT, MACINTOSH, MACINTOSH_INIT,
    REPLACEMENT, REPLACEMENT_INIT, SHIFT_JIS, SHIFT_JIS_INIT, UTF_8, UTF_8_INIT, UTF_16BE,
    UTF_16BE_INIT, UTF_16LE, UTF_16LE_INIT, WINDOWS_874, WINDOWS_874_INIT, WINDOWS_1250,
    WINDOWS_1250_INIT, WINDOWS_1251, WINDOWS_1251_INIT, WINDOWS_1252, WINDOWS_1252_INIT,
    WINDOWS_1253, WINDOWS_1253_INIT, WINDOWS_1254, WINDOWS_1254_INIT, WINDOWS_1255,
    WINDOWS_1255_INIT, WINDOWS_1256, WINDOWS_1256_INIT, WINDOWS_1257, WINDOWS_1257_INIT,
    WINDOWS_1258, WINDOWS_1258_INIT, X_MAC_CYRILLIC, X_MAC_CYRILLIC_INIT, X_USER_DEFINED,
    X_USER_DEFINED_INIT,
};
// end
pub use decoder::room_rule::RoomRule;
pub use decoder::saved_decoder::SavedDecoder;
pub use decoder::{Decoder, StreamDecoder};
pub use encoder::Encoder;
pub use encoder::saved_encoder::SavedEncoder;
pub use encoding::Encoding;
// What calls return is handed on. `Tables`, which they take, is not: it would have a path in each
// crate above it.
pub use encoding_mem::{DecoderResult, EncoderResult, Reference};
pub use mark::Mark;
pub use one_shot_fault::OneShotFault;
pub use reference::write_reference;
pub use variant_decoder::VariantDecoder;
pub use variant_encoder::VariantEncoder;
