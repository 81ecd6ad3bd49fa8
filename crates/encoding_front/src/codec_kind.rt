//! The table of encodings: what is said of each of them once.

ghost use Rattle.std.specs.Prelude.{◌≡◌};
ghost use Rattle.std.specs.List.{slice_index_or};
ghost use Rattle.encoding_front.specs.EncodingTable.{encoding_name, codec_kind_of};
ghost use Rattle.encoding_front.specs.Encodings.{IsProper, needs_of};

use crate::encoding::Encoding;
use encoding_tables::IndexKind;

/// How an encoding is read and written.
#[derive(Clone, Copy)]
pub(crate) enum CodecKind {
    Utf8,
    /// By the index of a single-byte encoding.
    SingleByte(IndexKind),
    Big5,
    EucKr,
    EucJp,
    ShiftJis,
    /// `extended` is whether characters are also written in four bytes: so in gb18030, and not in GBK.
    Gb18030 { extended: bool },
    Iso2022Jp,
    UserDefined,
    Utf16 { big_endian: bool },
    Replacement,
}

// What is said of an encoding.
#[derive(Clone, Copy)]
pub(crate) struct Row {
    pub(crate) name: &'static str,
    pub(crate) codec_kind: CodecKind,
    pub(crate) needs: &'static [IndexKind],
}

impl Row {
    fn new(name: &'static str, codec_kind: CodecKind, needs: &'static [IndexKind]) -> Row
        ensures name { result.name.now ≡ name.now }
        ensures codec_kind { result.codec_kind ≡ codec_kind }
        ensures needs { result.needs.now ≡ needs.now }
    {
        Row {
            name,
            codec_kind,
            needs,
        }
    }

    // That of a single-byte encoding, with its index.
    fn single_byte(name: &'static str, index: &'static [IndexKind; 1]) -> Row
        ensures name { result.name.now ≡ name.now }
        ensures codec_kind { result.codec_kind
            ≡ CodecKind.SingleByte (slice_index_or index.now 0 IndexKind.Big5) }
        ensures needs { result.needs.now ≡ index.now }
    {
        Row::new(name, CodecKind::SingleByte(index[0]), index)
    }
}

pub(crate) fn row_of(encoding: Encoding) -> Row
    ensures name { result.name.now ≡ encoding_name encoding }
    ensures codec_kind { result.codec_kind ≡ codec_kind_of encoding }
    ensures proper { IsProper result.codec_kind }
    ensures needs { result.needs.now ≡ needs_of encoding }
{
    match encoding {
        // Written by tools/generate_encodings.py from tools/encodings.toml; do not edit.
        Encoding::Big5 => Row::new("Big5", CodecKind::Big5, &[IndexKind::Big5]),
        Encoding::EucJp => Row::new(
            "EUC-JP",
            CodecKind::EucJp,
            &[IndexKind::Jis0208, IndexKind::Jis0212],
        ),
        Encoding::EucKr => Row::new("EUC-KR", CodecKind::EucKr, &[IndexKind::EucKr]),
        Encoding::Gb18030 => Row::new(
            "gb18030",
            CodecKind::Gb18030 { extended: true },
            &[IndexKind::Gb18030, IndexKind::Gb18030Ranges],
        ),
        Encoding::Gbk => Row::new(
            "GBK",
            CodecKind::Gb18030 { extended: false },
            &[IndexKind::Gb18030, IndexKind::Gb18030Ranges],
        ),
        Encoding::Ibm866 => Row::single_byte("IBM866", &[IndexKind::Ibm866]),
        Encoding::Iso2022Jp => Row::new(
            "ISO-2022-JP",
            CodecKind::Iso2022Jp,
            &[IndexKind::Jis0208, IndexKind::Iso2022JpKatakana],
        ),
        Encoding::Iso8859_2 => Row::single_byte("ISO-8859-2", &[IndexKind::Iso8859_2]),
        Encoding::Iso8859_3 => Row::single_byte("ISO-8859-3", &[IndexKind::Iso8859_3]),
        Encoding::Iso8859_4 => Row::single_byte("ISO-8859-4", &[IndexKind::Iso8859_4]),
        Encoding::Iso8859_5 => Row::single_byte("ISO-8859-5", &[IndexKind::Iso8859_5]),
        Encoding::Iso8859_6 => Row::single_byte("ISO-8859-6", &[IndexKind::Iso8859_6]),
        Encoding::Iso8859_7 => Row::single_byte("ISO-8859-7", &[IndexKind::Iso8859_7]),
        Encoding::Iso8859_8 => Row::single_byte("ISO-8859-8", &[IndexKind::Iso8859_8]),
        Encoding::Iso8859_8I => Row::single_byte("ISO-8859-8-I", &[IndexKind::Iso8859_8]),
        Encoding::Iso8859_10 => Row::single_byte("ISO-8859-10", &[IndexKind::Iso8859_10]),
        Encoding::Iso8859_13 => Row::single_byte("ISO-8859-13", &[IndexKind::Iso8859_13]),
        Encoding::Iso8859_14 => Row::single_byte("ISO-8859-14", &[IndexKind::Iso8859_14]),
        Encoding::Iso8859_15 => Row::single_byte("ISO-8859-15", &[IndexKind::Iso8859_15]),
        Encoding::Iso8859_16 => Row::single_byte("ISO-8859-16", &[IndexKind::Iso8859_16]),
        Encoding::Koi8R => Row::single_byte("KOI8-R", &[IndexKind::Koi8R]),
        Encoding::Koi8U => Row::single_byte("KOI8-U", &[IndexKind::Koi8U]),
        Encoding::Macintosh => Row::single_byte("macintosh", &[IndexKind::Macintosh]),
        Encoding::Replacement => Row::new("replacement", CodecKind::Replacement, &[]),
        Encoding::ShiftJis => Row::new("Shift_JIS", CodecKind::ShiftJis, &[IndexKind::Jis0208]),
        Encoding::Utf8 => Row::new("UTF-8", CodecKind::Utf8, &[]),
        Encoding::Utf16Be => Row::new("UTF-16BE", CodecKind::Utf16 { big_endian: true }, &[]),
        Encoding::Utf16Le => Row::new("UTF-16LE", CodecKind::Utf16 { big_endian: false }, &[]),
        Encoding::Windows874 => Row::single_byte("windows-874", &[IndexKind::Windows874]),
        Encoding::Windows1250 => Row::single_byte("windows-1250", &[IndexKind::Windows1250]),
        Encoding::Windows1251 => Row::single_byte("windows-1251", &[IndexKind::Windows1251]),
        Encoding::Windows1252 => Row::single_byte("windows-1252", &[IndexKind::Windows1252]),
        Encoding::Windows1253 => Row::single_byte("windows-1253", &[IndexKind::Windows1253]),
        Encoding::Windows1254 => Row::single_byte("windows-1254", &[IndexKind::Windows1254]),
        Encoding::Windows1255 => Row::single_byte("windows-1255", &[IndexKind::Windows1255]),
        Encoding::Windows1256 => Row::single_byte("windows-1256", &[IndexKind::Windows1256]),
        Encoding::Windows1257 => Row::single_byte("windows-1257", &[IndexKind::Windows1257]),
        Encoding::Windows1258 => Row::single_byte("windows-1258", &[IndexKind::Windows1258]),
        Encoding::XMacCyrillic => Row::single_byte("x-mac-cyrillic", &[IndexKind::XMacCyrillic]),
        Encoding::XUserDefined => Row::new("x-user-defined", CodecKind::UserDefined, &[]),
        // end
    }
}
