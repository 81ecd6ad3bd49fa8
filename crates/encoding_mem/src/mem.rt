//! Checks of texts, and conversions among them.

pub mod ascii;
pub mod ascii_copies;
pub mod ascii_text;
pub mod bidi;
pub(crate) mod bidi_bytes;
pub mod character_counts;
pub mod first;
pub mod latin1;
pub(crate) mod latin1_bytes;
pub mod latin1_conversions;
pub mod latin1_texts;
pub(crate) mod plain_units;
pub mod text_destinations;
pub(crate) mod text_units;
pub mod utf16_conversions;
pub mod utf8_conversions;
pub mod validity;
