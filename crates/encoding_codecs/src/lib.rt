//! The codecs of the encodings of more than one byte a character: Big5, EUC-JP, EUC-KR, gb18030
//! with GBK, ISO-2022-JP and Shift_JIS (the Encoding Standard, sections 10 to 13), over the indexes
//! in `encoding_tables::Tables`.
//!
//! A codec is made over tables that have its indexes, which `Tables::has` tests.
//! `encoding_mem::RawDecoder` and `RawEncoder` say how it is used. `encoding_front::VariantDecoder`
//! and `VariantEncoder` choose one by the encoding.
//!
//! # Use
//!
//!     let mut tables = Tables::new(alloc);
//!     tables.insert_rows(IndexKind::EucKr, &[(0, 0xAC02)])?;
//!     if !tables.has(IndexKind::EucKr) {
//!         return Ok(false);
//!     }
//!     let mut encoder = EucKrEncoder::new(&tables);
//!     let mut bytes = [0; 8];
//!     let (result, read, written) = encoder.encode_from_utf8_raw("a\u{AC02}", &mut bytes, true);
//!
//! All of the text is read, and the bytes are 61 81 41.
#![tactic(auto)]

pub mod big5;
pub mod codec_decoder;
pub mod euc_jp;
pub mod euc_kr;
pub mod gb18030_decoder;
pub mod gb18030_encoder;
pub mod iso_2022_jp_decoder;
pub mod iso_2022_jp_encoder;
mod jis;
pub mod laws;
pub mod lead_byte_rule;
pub mod shift_jis;
pub mod two_byte;

pub use big5::{Big5Decoder, Big5Encoder};
pub use encoding_mem::{DecoderResult, EncoderResult, Reference};
pub use euc_jp::{EucJpDecoder, EucJpEncoder};
pub use euc_kr::{EucKrDecoder, EucKrEncoder};
pub use gb18030_decoder::Gb18030Decoder;
pub use gb18030_encoder::Gb18030Encoder;
pub use iso_2022_jp_decoder::Iso2022JpDecoder;
pub use iso_2022_jp_encoder::Iso2022JpEncoder;
pub use shift_jis::{ShiftJisDecoder, ShiftJisEncoder};
