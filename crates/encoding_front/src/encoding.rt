//! The forty encodings as values: what is found by a label or a mark, and what is known of each.

ghost use Rattle.std.specs.Prelude.{◌≡◌, ◌<◌, ◌↔◌, Some, IsTrue};
ghost use Rattle.std.specs.Str.{IsAscii, IsUtf8};
ghost use Rattle.encoding_mem.specs.Iso2022JpAscii.{IsIso2022JpAscii};
ghost use Rattle.encoding_mem.specs.LongestPrefix.{IsLongestPrefix};
ghost use Rattle.std.specs.List.{list_all};
ghost use Rattle.encoding_tables.specs.IndexLists.{AreAcceptedTables, has};
ghost use Rattle.encoding_front.specs.EncodingTable.{encoding_name, number_of, codec_kind_of};
ghost use Rattle.encoding_front.specs.Encodings.{HasLabel, IsProper, IsReady, IsUtf8Encoding};
ghost use Rattle.encoding_front.specs.Encodings.{KeepsCharacters, is_ascii_compatible_of};
ghost use Rattle.encoding_front.specs.Encodings.{is_single_byte_of, mark_at_start, needs_of};
ghost use Rattle.encoding_front.specs.Encodings.{output_encoding_of};
ghost use Rattle.encoding_front.specs.declared.encoding.Encoding.{Encoding};

use crate::codec_kind::{CodecKind, row_of};
use encoding_labels::label_number;
use encoding_labels::places::ENCODING_COUNT;
use encoding_tables::{IndexKind, Tables};
use std::fmt;

/// One of the forty encodings of the Encoding Standard (section 4.2): a value to copy, compared and
/// hashed by which of the forty it is. Each is also a constant of this crate, as `UTF_8`. `Debug`
/// shows the name.
#[derive(Clone, Copy, PartialEq, Eq, Hash)]
pub enum Encoding {
    // Written by tools/generate_encodings.py from tools/encodings.toml; do not edit.
    Big5,
    EucJp,
    EucKr,
    Gb18030,
    Gbk,
    Ibm866,
    Iso2022Jp,
    Iso8859_2,
    Iso8859_3,
    Iso8859_4,
    Iso8859_5,
    Iso8859_6,
    Iso8859_7,
    Iso8859_8,
    Iso8859_8I,
    Iso8859_10,
    Iso8859_13,
    Iso8859_14,
    Iso8859_15,
    Iso8859_16,
    Koi8R,
    Koi8U,
    Macintosh,
    Replacement,
    ShiftJis,
    Utf8,
    Utf16Be,
    Utf16Le,
    Windows874,
    Windows1250,
    Windows1251,
    Windows1252,
    Windows1253,
    Windows1254,
    Windows1255,
    Windows1256,
    Windows1257,
    Windows1258,
    XMacCyrillic,
    XUserDefined,
    // end
}

impl Encoding {
    // Written by tools/generate_encodings.py from tools/encodings.toml; do not edit.
    /// All encodings, in the order of their numbers (`encoding as usize`).
    pub const ALL: [Encoding; 40] = [
        Encoding::Big5,
        Encoding::EucJp,
        Encoding::EucKr,
        Encoding::Gb18030,
        Encoding::Gbk,
        Encoding::Ibm866,
        Encoding::Iso2022Jp,
        Encoding::Iso8859_2,
        Encoding::Iso8859_3,
        Encoding::Iso8859_4,
        Encoding::Iso8859_5,
        Encoding::Iso8859_6,
        Encoding::Iso8859_7,
        Encoding::Iso8859_8,
        Encoding::Iso8859_8I,
        Encoding::Iso8859_10,
        Encoding::Iso8859_13,
        Encoding::Iso8859_14,
        Encoding::Iso8859_15,
        Encoding::Iso8859_16,
        Encoding::Koi8R,
        Encoding::Koi8U,
        Encoding::Macintosh,
        Encoding::Replacement,
        Encoding::ShiftJis,
        Encoding::Utf8,
        Encoding::Utf16Be,
        Encoding::Utf16Le,
        Encoding::Windows874,
        Encoding::Windows1250,
        Encoding::Windows1251,
        Encoding::Windows1252,
        Encoding::Windows1253,
        Encoding::Windows1254,
        Encoding::Windows1255,
        Encoding::Windows1256,
        Encoding::Windows1257,
        Encoding::Windows1258,
        Encoding::XMacCyrillic,
        Encoding::XUserDefined,
    ];
    // end

    /// The encoding that has this label, or `None` if no encoding has it ("get an encoding" of the
    /// Encoding Standard, section 4.2). White space at both ends (the bytes 09, 0A, 0C, 0D and 20)
    /// and the case of ASCII letters do not matter.
    pub fn for_label(label: &[u8]) -> Option<Encoding>
        ensures { (e : Encoding) → (result ≡ Some e) ↔ HasLabel e label.now }
    {
        let number = label_number(label)?;
        Some(at_number(number))
    }

    /// The encoding that has this label, or `None` if no encoding but replacement has it: for a
    /// caller to whom a label of replacement is an error, as an unknown one is. White space at both
    /// ends (the bytes 09, 0A, 0C, 0D and 20) and the case of ASCII letters do not matter.
    pub fn for_label_no_replacement(label: &[u8]) -> Option<Encoding>
        ensures { (e : Encoding) → (result ≡ Some e)
            ↔ (HasLabel e label.now × ¬ (e ≡ Encoding.Replacement)) }
    {
        let encoding = Encoding::for_label(label)?;
        if encoding == Encoding::Replacement {
            return None;
        }
        Some(encoding)
    }

    /// The encoding whose byte order mark stands at the start of `bytes`, and the length of the
    /// mark in bytes; `None` if there is none ("BOM sniff" of the Encoding Standard, section 6).
    /// The marks are EF BB BF of UTF-8, FE FF of UTF-16BE and FF FE of UTF-16LE.
    pub fn for_bom(bytes: &[u8]) -> Option<(Encoding, usize)>
        ensures { result ≡ mark_at_start bytes.now }
    {
        match bytes {
            [0xEF, 0xBB, 0xBF, ..] => Some((Encoding::Utf8, 3)),
            [0xFE, 0xFF, ..] => Some((Encoding::Utf16Be, 2)),
            [0xFF, 0xFE, ..] => Some((Encoding::Utf16Le, 2)),
            _ => None,
        }
    }

    /// The name, as the Encoding Standard writes it (section 4.2): `Shift_JIS`. It is also a label.
    pub fn name(self) -> &'static str
        ensures { result.now ≡ encoding_name self }
    {
        row_of(self).name
    }

    /// The encoding in which text is written if this one is asked for ("get an output encoding" of
    /// the Encoding Standard, section 4.3): UTF-8 for UTF-16BE, UTF-16LE and replacement, and the
    /// encoding itself for all others.
    pub fn output_encoding(self) -> Encoding
        ensures { result ≡ output_encoding_of self }
    {
        match self.codec_kind() {
            CodecKind::Utf16 { .. } | CodecKind::Replacement => Encoding::Utf8,
            _ => self,
        }
    }

    /// Whether every character has bytes in the output encoding: it does if that is UTF-8. The
    /// output of gb18030 lacks some characters (the Encoding Standard, section 10.2.2).
    pub fn can_encode_everything(self) -> bool
        ensures { IsTrue result ↔ IsUtf8Encoding (output_encoding_of self) }
    {
        self.output_encoding() == Encoding::Utf8
    }

    /// Whether each byte below 80 stands for the character of its number, wherever a character
    /// begins, and such a character is written as that byte. It is true for all encodings but
    /// UTF-16BE, UTF-16LE, replacement and ISO-2022-JP.
    pub fn is_ascii_compatible(self) -> bool
        ensures { result ≡ is_ascii_compatible_of self }
    {
        match self.codec_kind() {
            CodecKind::Utf16 { .. } | CodecKind::Replacement | CodecKind::Iso2022Jp => false,
            _ => true,
        }
    }

    /// Whether each character is one byte: true for the 28 single-byte encodings (the Encoding
    /// Standard, section 9), in which a byte that the index lacks is malformed, and for
    /// x-user-defined (section 14.5).
    pub fn is_single_byte(self) -> bool
        ensures { result ≡ is_single_byte_of self }
    {
        match self.codec_kind() {
            CodecKind::SingleByte(_) | CodecKind::UserDefined => true,
            _ => false,
        }
    }

    /// The length in bytes of the longest prefix that is well-formed UTF-8 (RFC 3629): it ends
    /// before the first byte of the first malformed sequence, and is the length of `bytes` if there
    /// is none.
    pub fn utf8_valid_up_to(bytes: &[u8]) -> usize
        ensures { IsLongestPrefix IsUtf8 bytes.now result }
    {
        encoding_mem::utf8_valid_up_to(bytes)
    }

    /// The length in bytes of the longest prefix that is ASCII: it ends before the first byte from
    /// 80 on.
    pub fn ascii_valid_up_to(bytes: &[u8]) -> usize
        ensures { IsLongestPrefix IsAscii bytes.now result }
    {
        encoding_mem::ascii_valid_up_to(bytes)
    }

    /// The length in bytes of the longest prefix that ISO-2022-JP, at the start of an input, reads
    /// as ASCII: it ends before the first 0E, 0F, 1B or byte from 80 on (the Encoding Standard,
    /// section 12.2.1).
    pub fn iso_2022_jp_ascii_valid_up_to(bytes: &[u8]) -> usize
        ensures { IsLongestPrefix IsIso2022JpAscii bytes.now result }
    {
        encoding_mem::iso_2022_jp_ascii_valid_up_to(bytes)
    }

    /// The kinds of index that the encoding needs, to be decoded and to be written; none for UTF-8,
    /// UTF-16BE, UTF-16LE, replacement and x-user-defined.
    pub fn needs(self) -> &'static [IndexKind]
        ensures { result.now ≡ needs_of self }
    {
        row_of(self).needs
    }

    /// Whether all indexes that the encoding needs are in `tables`: the test of the condition of
    /// each call that makes a decoder or encoder, or converts a whole text.
    pub fn is_ready(self, tables: &Tables) -> bool
        ensures ready { IsTrue result ↔ IsReady tables.now self }
        ensures accepted { AreAcceptedTables tables.now }
    {
        // Callers know of a type with an invariant what its contracts say, no more. This one says
        // that tables are accepted, so a valid job needs no other test of that.
        tables.accepted();
        are_there(self.needs(), tables)
    }

    /// Whether each character that is written reads back as itself if this encoding is asked for;
    /// others are reported. It is false for Shift_JIS, EUC-JP, ISO-2022-JP, gb18030 and GBK, which
    /// have folds: they write some characters as others.
    pub fn keeps_characters(self) -> bool
        ensures { IsTrue result ↔ KeepsCharacters self }
    {
        match self.output_encoding().codec_kind() {
            CodecKind::Utf8 | CodecKind::UserDefined | CodecKind::SingleByte(_) => true,
            CodecKind::Big5 | CodecKind::EucKr => true,
            _ => false,
        }
    }

    // How it is read and written.
    pub(crate) fn codec_kind(self) -> CodecKind
        ensures codec_kind { result ≡ codec_kind_of self }
        ensures proper { IsProper result }
    {
        row_of(self).codec_kind
    }
}

impl fmt::Debug for Encoding {
    fn fmt<W: fmt::Write>(&self, f: &mut fmt::Formatter<W>) -> fmt::Result {
        f.write_str(self.name())
    }
}

// Whether all of these indexes are there.
fn are_there(kinds: &[IndexKind], tables: &Tables) -> bool
    ensures { result ≡ list_all (has tables.now) kinds.now }
{
    kinds.iter().all(|kind| tables.has(*kind))
}

// The encoding with this number.
fn at_number(number: usize) -> Encoding
    requires { number < ENCODING_COUNT }
    ensures { number_of result ≡ number }
{
    Encoding::ALL[number]
}
