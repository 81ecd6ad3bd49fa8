//! Tests of `encoding_mem`, with results worked by hand: checks of texts, conversions between
//! texts, units and Latin1, the encoding driver with a small target, runs of sinks and sources, and
//! the decoder of UTF-8. This crate has tests alone.
#![tactic(auto)]

#[cfg(test)]
mod byte_blocks;
#[cfg(test)]
mod checks;
#[cfg(test)]
mod conversions;
#[cfg(test)]
mod encoders;
#[cfg(test)]
mod runs;
#[cfg(test)]
mod unit_blocks;
#[cfg(test)]
mod utf8_decoder;
