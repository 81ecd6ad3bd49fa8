//! What is done with a byte order mark at the start of an input.

ghost use Rattle.std.specs.Prelude.{◌≡◌};
ghost use Rattle.encoding_front.specs.Marks.{takes_mark_of};

use crate::encoding::Encoding;

/// What is done with a byte order mark at the start of an input (the Encoding Standard, section 6).
#[derive(Clone, Copy, PartialEq, Eq, Debug)]
pub enum Mark {
    /// A mark of UTF-8, UTF-16BE or UTF-16LE is skipped, and the input is decoded by the encoding
    /// of the mark.
    Sniff,
    /// The mark of the encoding itself is skipped.
    Remove,
    /// No mark is skipped: in its own encoding it is the character U+FEFF.
    Keep,
}

impl Mark {
    /// Whether a mark of `other` is taken from an input that is said to be in `encoding`.
    pub fn takes(self, encoding: Encoding, other: Encoding) -> bool
        ensures { result ≡ takes_mark_of self encoding other }
    {
        match self {
            Mark::Sniff => true,
            Mark::Remove => encoding == other,
            Mark::Keep => false,
        }
    }
}
