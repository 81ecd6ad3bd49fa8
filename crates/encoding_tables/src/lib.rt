//! The indexes of the Encoding Standard (section 5) as checked tables; the single-byte codecs over
//! them, and the codecs that need no index: x-user-defined, UTF-16 and replacement.
//!
//! Indexes are handed in: as lists (`Tables::insert`), as rows (`insert_rows`, `insert_ranges`), or
//! as the texts that the standard publishes (`encoding_index::load`). Each is checked before it is
//! taken, and an index that is there stays as it is. Codecs borrow the tables; `Tables::has` is the
//! test of their condition. `encoding_mem::RawDecoder` and `RawEncoder` say how a codec is used.
//!
//! # Use
//!
//!     let kind = IndexKind::Windows1252;
//!     let mut list = vec![in alloc; 0u32; 128]?;
//!     list[0] = 0x20AC;
//!     let mut tables = Tables::new(alloc);
//!     tables.insert(kind, &list)?;
//!     if !tables.has(kind) {
//!         return Ok(false);
//!     }
//!     let mut decoder = SingleByteDecoder::new(&tables, kind);
//!     let mut text = [0; 8];
//!     let (result, read, written) = decoder.decode_to_utf8_raw(b"a\x80", &mut text, true);
//!
//! All of the input is read, and the text is `a\u{20AC}` in UTF-8.
#![tactic(auto)]

mod accept;
mod accept_ranges;
pub mod each_byte_decoder;
pub mod flat;
pub mod index_kind;
pub mod laws;
mod packed_index;
mod packed_ranges;
mod pointer_rows;
pub mod ranges;
pub mod replacement_decoder;
mod search;
pub mod single_byte_decoder;
pub mod single_byte_encoder;
mod sorted_rows;
pub mod table_fault;
pub mod tables;
pub mod user_defined_decoder;
pub mod user_defined_encoder;
pub mod utf16_decoder;

pub use encoding_mem::{DecoderResult, EncoderResult, Reference};
pub use flat::Flat;
pub use index_kind::IndexKind;
pub use ranges::Ranges;
pub use replacement_decoder::ReplacementDecoder;
pub use single_byte_decoder::SingleByteDecoder;
pub use single_byte_encoder::SingleByteEncoder;
pub use table_fault::TableFault;
pub use tables::Tables;
pub use user_defined_decoder::UserDefinedDecoder;
pub use user_defined_encoder::UserDefinedEncoder;
pub use utf16_decoder::Utf16Decoder;
