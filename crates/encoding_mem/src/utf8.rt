//! The codec of UTF-8 (RFC 3629).

pub mod decoder;
pub mod encoder;

pub use crate::utf8::decoder::Utf8Decoder;
