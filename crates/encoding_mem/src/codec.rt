//! What every decoder and encoder stands on: rules, drivers, sinks, sources, room and results.

pub mod bytewise;
pub mod decoder_result;
pub(crate) mod driver;
pub mod encode;
pub mod encoder_result;
pub mod first_piece;
pub mod form;
pub mod pending;
pub mod raw_decoder;
pub mod raw_encoder;
pub mod reference;
pub mod room;
pub mod saved_pieces;
pub mod scalar;
pub mod sink;
pub mod sink_decoder;
pub mod source;
pub mod source_encoder;
pub mod utf16_sink;
pub mod utf8_sink;
