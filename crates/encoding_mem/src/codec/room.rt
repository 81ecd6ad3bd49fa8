//! Room that is enough, as numbers: what is returned to those who ask for it.

ghost use Rattle.std.specs.Prelude.{◌≡◌, ◌+◌, false};
ghost use Rattle.encoding_mem.specs.calls.DecodedLength.{checked, bound_at, bound_of, of_bytes};
ghost use Rattle.encoding_mem.specs.calls.DecodedLength.{queried, decoded_length_utf8};
ghost use Rattle.encoding_mem.specs.calls.DecodedLength.{decoded_length_single_byte};
ghost use Rattle.encoding_mem.specs.calls.DecodedLength.{decoded_length_multibyte};
ghost use Rattle.encoding_mem.specs.calls.DecodedLength.{decoded_length_utf16};
ghost use Rattle.encoding_mem.specs.calls.DecodedLength.{decoded_length_replacement};
ghost use Rattle.encoding_mem.specs.calls.EncodedLength.{encoded_length_utf8};
ghost use Rattle.encoding_mem.specs.calls.EncodedLength.{encoded_length_single_byte};
ghost use Rattle.encoding_mem.specs.calls.EncodedLength.{encoded_length_two_byte};
ghost use Rattle.encoding_mem.specs.calls.EncodedLength.{encoded_length_gb18030};
ghost use Rattle.encoding_mem.specs.calls.EncodedLength.{encoded_length_iso_2022_jp};

/// What the room for decoded text is counted in.
#[derive(Clone, Copy)]
pub enum OutputUnit {
    /// Units of UTF-16, whether malformed sequences are reported or written as U+FFFD.
    Units,
    /// Bytes of UTF-8, if malformed sequences are reported.
    Bytes,
    /// Bytes of UTF-8, if each malformed sequence is written as U+FFFD.
    Replaced,
}

/// A bound on room: `factor` times a length, and `extra`.
#[derive(Clone, Copy)]
pub struct Bound {
    /// What the length is multiplied by.
    pub factor: usize,
    /// What is added to the product.
    pub extra: usize,
}

impl Bound {
    /// The bound with this factor and this addition.
    pub fn new(factor: usize, extra: usize) -> Bound
        ensures { result ≡ record { factor = factor; extra = extra } }
    {
        Bound { factor, extra }
    }

    /// The bound for a length of `n`; `None` if it passes a `usize`.
    pub fn at(self, n: usize) -> Option<usize>
        ensures { result ≡ checked (bound_at self n) }
    {
        self.factor.checked_mul(n)?.checked_add(self.extra)
    }
}

/// The room in bytes that is enough for what a text is encoded to, by its length in UTF-16 and in
/// UTF-8.
#[derive(Clone, Copy)]
pub struct EncodedLength {
    /// By the units of UTF-16 that the text has.
    pub units: Bound,
    /// By the bytes of UTF-8 that the text has.
    pub bytes: Bound,
}

impl EncodedLength {
    /// For UTF-8 as the target.
    pub fn utf8() -> EncodedLength
        ensures { result ≡ encoded_length_utf8 }
    {
        EncodedLength::new(Bound::new(3, 0), Bound::new(1, 0))
    }

    /// For targets with one byte a character.
    pub fn single_byte() -> EncodedLength
        ensures { result ≡ encoded_length_single_byte }
    {
        EncodedLength::new(Bound::new(1, 0), Bound::new(1, 0))
    }

    /// For targets with at most two bytes a character.
    pub fn two_byte() -> EncodedLength
        ensures { result ≡ encoded_length_two_byte }
    {
        EncodedLength::new(Bound::new(2, 0), Bound::new(1, 1))
    }

    /// For gb18030 as the target.
    pub fn gb18030() -> EncodedLength
        ensures { result ≡ encoded_length_gb18030 }
    {
        EncodedLength::new(Bound::new(4, 0), Bound::new(2, 2))
    }

    /// For ISO-2022-JP as the target.
    pub fn iso_2022_jp() -> EncodedLength
        ensures { result ≡ encoded_length_iso_2022_jp }
    {
        EncodedLength::new(Bound::new(5, 3), Bound::new(4, 3))
    }

    fn new(units: Bound, bytes: Bound) -> EncodedLength
        ensures { result ≡ record { units = units; bytes = bytes } }
    {
        EncodedLength { units, bytes }
    }
}

/// The room that is enough for the text of some bytes, in each of the three counts of `OutputUnit`.
#[derive(Clone, Copy)]
pub struct DecodedLength {
    /// Whether the length counts pairs of bytes, an odd byte as a pair: so in UTF-16.
    pub in_pairs: bool,
    /// The bound in units of UTF-16.
    pub units: Bound,
    /// The bound in bytes of UTF-8, if malformed sequences are reported.
    pub bytes: Bound,
    /// The bound in bytes of UTF-8, if each malformed sequence is written as U+FFFD.
    pub replaced: Bound,
}

impl DecodedLength {
    /// For UTF-8 as the source.
    pub fn utf8() -> DecodedLength
        ensures { result ≡ decoded_length_utf8 }
    {
        DecodedLength::of_bytes(Bound::new(1, 1), Bound::new(1, 3), Bound::new(3, 3))
    }

    /// For sources with one byte a character.
    pub fn single_byte() -> DecodedLength
        ensures { result ≡ decoded_length_single_byte }
    {
        DecodedLength::of_bytes(Bound::new(1, 0), Bound::new(3, 0), Bound::new(3, 0))
    }

    /// For sources with two and more bytes a character, but UTF-8 and UTF-16.
    pub fn multibyte() -> DecodedLength
        ensures { result ≡ decoded_length_multibyte }
    {
        DecodedLength::of_bytes(Bound::new(1, 1), Bound::new(3, 1), Bound::new(3, 1))
    }

    /// For UTF-16 as the source.
    pub fn utf16() -> DecodedLength
        ensures { result ≡ decoded_length_utf16 }
    {
        DecodedLength {
            in_pairs: true,
            ..DecodedLength::multibyte()
        }
    }

    /// For replacement as the source, whose text is one U+FFFD.
    pub fn replacement() -> DecodedLength
        ensures { result ≡ decoded_length_replacement }
    {
        DecodedLength::of_bytes(Bound::new(0, 1), Bound::new(0, 3), Bound::new(0, 3))
    }

    // If each byte counts.
    fn of_bytes(units: Bound, bytes: Bound, replaced: Bound) -> DecodedLength
        ensures { result ≡ of_bytes units bytes replaced }
    {
        DecodedLength {
            in_pairs: false,
            units,
            bytes,
            replaced,
        }
    }

    /// The room for the text of `pending` bytes and of `n` more, counted in `count`; `None` if it
    /// passes a `usize`.
    pub fn query(self, count: OutputUnit, pending: usize, n: usize) -> Option<usize>
        ensures { result ≡ queried self count (pending + n) }
    {
        let bytes = pending.checked_add(n)?;
        let counted = if self.in_pairs {
            bytes.checked_add(1)? / 2
        } else {
            bytes
        };
        self.line(count).at(counted)
    }

    fn line(self, count: OutputUnit) -> Bound
        ensures { result ≡ bound_of self count }
    {
        match count {
            OutputUnit::Units => self.units,
            OutputUnit::Bytes => self.bytes,
            OutputUnit::Replaced => self.replaced,
        }
    }
}
