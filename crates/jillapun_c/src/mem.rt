//! The functions of `encoding_mem`, with the parameters that the crates `encoding_c_mem` and
//! `encoding_c` give those of encoding_rs, and with `jillapun_` in place of `encoding_` in their
//! names; and five that those lack, or have in another form. They need no tables, and hold no
//! memory.
//!
//! If the room is too small, encoding_rs panics, and these write nothing and return how much is
//! wanted, which is more than there is.

mod ascii;
mod bidi;
mod latin1;
mod partial;
#[cfg(test)]
mod tests;
pub(crate) mod text_room;
mod utf16;
pub(crate) mod utf8;
