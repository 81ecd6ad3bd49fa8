//! Looks for a byte order mark at the start of some bytes.

ghost use Rattle.std.specs.Prelude.{◌≡◌, ◌||◌};
ghost use Rattle.encoding_front.specs.calls.Seeking.{can_be, encoding_of_mark, find_end, find_mark};
ghost use Rattle.encoding_front.specs.calls.Seeking.{find_second, mark_head, is_sought, mark_len};
ghost use Rattle.encoding_front.specs.calls.Seeking.{nothing_sought, seeks, sought_by};
ghost use Rattle.encoding_front.specs.declared.seeking.ByteOrderMark.TheVariants.{Utf16Be, Utf16Le};

use crate::encoding::Encoding;
use crate::mark::Mark;

/// A byte order mark (the Encoding Standard, section 6, "BOM sniff"). The contracts of decoders
/// speak of it; no call takes or returns one.
#[derive(Clone, Copy)]
pub enum ByteOrderMark {
    /// EF BB BF.
    Utf8,
    /// FE FF.
    Utf16Be,
    /// FF FE.
    Utf16Le,
}

impl ByteOrderMark {
    /// How many bytes it has.
    pub(crate) fn len(self) -> usize
        ensures { result ≡ mark_len self }
    {
        match self {
            ByteOrderMark::Utf8 => 3,
            ByteOrderMark::Utf16Be | ByteOrderMark::Utf16Le => 2,
        }
    }

    // Its first byte.
    fn head(self) -> u8
        ensures { result ≡ mark_head self }
    {
        match self {
            ByteOrderMark::Utf8 => 0xEF,
            ByteOrderMark::Utf16Be => 0xFE,
            ByteOrderMark::Utf16Le => 0xFF,
        }
    }

    /// The encoding that it is the mark of.
    pub(crate) fn encoding(self) -> Encoding
        ensures { result ≡ encoding_of_mark self }
    {
        match self {
            ByteOrderMark::Utf8 => Encoding::Utf8,
            ByteOrderMark::Utf16Be => Encoding::Utf16Be,
            ByteOrderMark::Utf16Le => Encoding::Utf16Le,
        }
    }
}

/// The marks that a decoder still looks for, as [`SavedDecoder`](crate::SavedDecoder) has them.
#[derive(Clone, Copy)]
pub struct BomSet {
    /// Whether that of UTF-8 is.
    pub utf8: bool,
    /// Whether that of UTF-16BE is.
    pub utf16_be: bool,
    /// Whether that of UTF-16LE is.
    pub utf16_le: bool,
}

impl BomSet {
    /// Those that are taken from an input that is said to be in this encoding.
    pub(crate) fn new(mark: Mark, encoding: Encoding) -> BomSet
        ensures { result ≡ sought_by mark encoding }
    {
        BomSet {
            utf8: mark.takes(encoding, Encoding::Utf8),
            utf16_be: mark.takes(encoding, Encoding::Utf16Be),
            utf16_le: mark.takes(encoding, Encoding::Utf16Le),
        }
    }

    /// None, as after the start of an input.
    pub(crate) fn nothing() -> BomSet
        ensures { result ≡ nothing_sought }
    {
        BomSet {
            utf8: false,
            utf16_be: false,
            utf16_le: false,
        }
    }

    fn seeks(self, mark: ByteOrderMark) -> bool
        ensures { result ≡ seeks self mark }
    {
        match mark {
            ByteOrderMark::Utf8 => self.utf8,
            ByteOrderMark::Utf16Be => self.utf16_be,
            ByteOrderMark::Utf16Le => self.utf16_le,
        }
    }

    /// Whether bytes of which these are held may turn out to begin with this mark.
    pub(crate) fn can_be(self, held: &[u8], mark: ByteOrderMark) -> bool
        ensures { result ≡ can_be self held.now mark }
    {
        match held {
            [] => self.seeks(mark),
            [b, ..] => *b == mark.head() && self.seeks(mark),
        }
    }

    /// Whether bytes of which these are held may turn out to begin with a mark of UTF-16, of either
    /// byte order.
    pub(crate) fn can_be_utf16(self, held: &[u8]) -> bool
        ensures { result ≡ (can_be self held.now Utf16Be || can_be self held.now Utf16Le) }
    {
        self.can_be(held, ByteOrderMark::Utf16Be) || self.can_be(held, ByteOrderMark::Utf16Le)
    }

    pub(crate) fn is_any(self) -> bool
        ensures { result ≡ is_sought self }
    {
        self.utf8 || self.utf16_be || self.utf16_le
    }
}

/// What the first bytes of an input are to a decoder that looks for a mark. The contracts of
/// decoders speak of it; no call takes or returns one.
#[derive(Clone, Copy)]
pub enum BomMatch {
    /// The first bytes of a mark, or none: more bytes decide.
    Prefix,
    /// A whole mark, with any bytes after it.
    Whole(ByteOrderMark),
    /// No mark that is looked for.
    Other,
}

/// What stands at the start of these bytes.
pub(crate) fn find_mark(sought: BomSet, bytes: &[u8]) -> BomMatch
    ensures { result ≡ find_mark sought bytes.now }
{
    match bytes {
        [] => BomMatch::Prefix,
        [a, rest @ ..] => {
            if *a == 0xEF && sought.utf8 {
                find_second(rest)
            } else if *a == 0xFE && sought.utf16_be {
                find_end(0xFF, ByteOrderMark::Utf16Be, rest)
            } else if *a == 0xFF && sought.utf16_le {
                find_end(0xFE, ByteOrderMark::Utf16Le, rest)
            } else {
                BomMatch::Other
            }
        }
    }
}

// The second byte of a mark of UTF-8, and what follows it.
fn find_second(bytes: &[u8]) -> BomMatch
    ensures { result ≡ find_second bytes.now }
{
    match bytes {
        [] => BomMatch::Prefix,
        [b, rest @ ..] => {
            if *b == 0xBB {
                find_end(0xBF, ByteOrderMark::Utf8, rest)
            } else {
                BomMatch::Other
            }
        }
    }
}

// The last byte of a mark.
fn find_end(byte: u8, mark: ByteOrderMark, bytes: &[u8]) -> BomMatch
    ensures { result ≡ find_end byte mark bytes.now }
{
    match bytes {
        [] => BomMatch::Prefix,
        [c, ..] => {
            if *c == byte {
                BomMatch::Whole(mark)
            } else {
                BomMatch::Other
            }
        }
    }
}
