//! How a call of a raw encoder ended.

/// How a call of an encoder that reports characters without bytes ended, and what the caller does
/// next.
#[derive(Clone, Copy, PartialEq, Eq, Debug)]
pub enum EncoderResult {
    /// All of the source is read, and its bytes are written; after a call with `last` so is the
    /// escape to ASCII. Hand in what follows, if anything does.
    InputEmpty,
    /// The next escape or character does not fit into what is free after what is written, and
    /// something is left to do. Make room, and call again with what is unread and `last` as it was,
    /// even if nothing is unread. No step of an encoder of these libraries needs more than 4 bytes.
    OutputFull,
    /// The character that was read last has no bytes in the target. The escape that must stand
    /// before its reference is written; the reference, or what else stands for it, is the caller's
    /// to write. The value is that character, but U+FFFD for U+000E, U+000F and U+001B in
    /// ISO-2022-JP.
    Unmappable(char),
}
