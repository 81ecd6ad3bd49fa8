//! How a call of a raw decoder ended.

/// How a call of a decoder that reports malformed sequences ended, and what the caller does next.
#[derive(Clone, Copy, PartialEq, Eq, Debug)]
pub enum DecoderResult {
    /// All of the source is read. Bytes of a sequence that is not decided are pending in the
    /// decoder; hand in what follows. After a call with `last` nothing is pending, and the stream
    /// is decoded.
    InputEmpty,
    /// Fewer than 4 bytes, or 2 units of UTF-16, are free after what is written, and something is
    /// left to do. Make room, and call again with what is unread and `last` as it was, even if
    /// nothing is unread.
    OutputFull,
    /// A malformed sequence. The first number is its length in bytes, 1 to 4; the second is how
    /// many bytes, 0 to 3, were read after it and are pending. Room for U+FFFD is free: the caller
    /// writes it, or not, and calls again as after `OutputFull`.
    Malformed(u8, u8),
}
