//! What a conversion counts.

/// What a conversion has counted so far, in the words of the contracts of a session.
#[derive(Clone, Copy, PartialEq, Eq, Debug)]
pub struct Counts {
    /// The bytes of the input that were read.
    pub read: u64,
    /// The characters of the text that were encoded: the index of the next one.
    pub index: u64,
    /// The malformed sequences that were logged.
    pub bad: u64,
    /// The lost characters that were logged.
    pub lost: u64,
    /// The calls of codecs. It stops at the greatest number.
    pub calls: u64,
}
