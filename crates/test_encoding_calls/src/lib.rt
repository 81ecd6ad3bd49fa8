//! Single calls of decoders and encoders, of each kind, with all that comes of a call, and the
//! lines of cases that say what must come of it. The programs that read the cases of encodings and
//! of their codecs use this crate.
#![tactic(auto)]

pub mod answer;
pub mod call_lines;
pub mod codecs;
pub mod front_calls;
pub mod kinds;
pub mod names;
pub mod pieces;
pub mod rooms;
