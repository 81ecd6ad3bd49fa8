//! What a call that decodes a whole input reports beside its status.

ghost use Rattle.std.specs.Prelude.{◌≡◌, ◌≤◌, length};
ghost use Rattle.encoding_front.specs.Marks.{source_of};

use crate::status::NO_ENCODING;
use encoding_front::{Encoding, Mark};

/// What a call that decodes a whole input reports.
#[repr(C)]
#[derive(Clone, Copy)]
pub struct Decoded {
    /// The length of the text in bytes; `SIZE_MAX` if it exceeds a `size_t`.
    pub written: usize,
    /// The length of the removed BOM in bytes; 0 if none was removed.
    pub mark_len: usize,
    /// The encoding of the input: that of the removed BOM, else the one passed. `NO_ENCODING` if
    /// nothing was decoded.
    pub encoding: u8,
    /// Whether the text has the same bytes as the input after the BOM, so that the caller can use
    /// `src + mark_len` in place of `dst`.
    pub is_own: bool,
}

impl Decoded {
    /// Nothing was decoded.
    pub(crate) const NONE: Decoded = Decoded {
        written: 0,
        mark_len: 0,
        encoding: NO_ENCODING,
        is_own: false,
    };
}

/// The encoding of an input, and how many bytes the mark has that is left out.
pub(crate) fn source_of(encoding: Encoding, mark: Mark, src: &[u8]) -> (Encoding, usize)
    ensures source { result ≡ source_of mark encoding src.now }
    ensures within { result.1 ≤ length src.now }
{
    match Encoding::for_bom(src) {
        Some((found, length)) => {
            if mark.takes(encoding, found) {
                (found, length)
            } else {
                (encoding, 0)
            }
        }
        None => (encoding, 0),
    }
}
