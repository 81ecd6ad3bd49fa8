//! How a call ended that writes replacements itself.

/// How a call of a `Decoder` or an `Encoder` that writes replacements itself ended.
#[derive(Clone, Copy, PartialEq, Eq, Debug)]
pub enum CoderResult {
    /// All of the source is read, and what it stands for is written, so far as it is decided. After
    /// a call with `last` all of the stream is written; else hand in what follows.
    InputEmpty,
    /// There was no room for more, and something is left to do: make room, and call again with what
    /// is unread and `last` as it was, even if nothing is unread.
    OutputFull,
}
