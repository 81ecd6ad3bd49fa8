//! The 34 kinds of index: their sizes and their files.

ghost use Rattle.std.specs.Prelude.{◌≡◌, ◌<◌};
ghost use Rattle.encoding_tables.specs.Kinds.{index_size, is_ranges, is_single_byte_kind};
ghost use Rattle.encoding_tables.specs.calls.Slots.{slot_of};
ghost use Rattle.encoding_tables.specs.FileNames.{file_name_of};

/// One of the indexes of the Encoding Standard (section 5, "Indexes"): those of the single-byte
/// encodings, and those of the encodings of more bytes. ISO-8859-8-I has that of ISO-8859-8.
#[derive(Clone, Copy, Debug, PartialEq, Eq)]
pub enum IndexKind {
    // Written by tools/generate_encodings.py from tools/encodings.toml; do not edit.
    Ibm866,
    Iso8859_2,
    Iso8859_3,
    Iso8859_4,
    Iso8859_5,
    Iso8859_6,
    Iso8859_7,
    Iso8859_8,
    Iso8859_10,
    Iso8859_13,
    Iso8859_14,
    Iso8859_15,
    Iso8859_16,
    Koi8R,
    Koi8U,
    Macintosh,
    Windows874,
    Windows1250,
    Windows1251,
    Windows1252,
    Windows1253,
    Windows1254,
    Windows1255,
    Windows1256,
    Windows1257,
    Windows1258,
    XMacCyrillic,
    Big5,
    EucKr,
    Gb18030,
    /// The only one with rows, each of which stands for a range of pointers.
    Gb18030Ranges,
    Jis0208,
    Jis0212,
    Iso2022JpKatakana,
    // end
}

impl IndexKind {
    // Written by tools/generate_encodings.py from tools/encodings.toml; do not edit.
    /// All kinds, in the order of the variants of `IndexKind`.
    pub const ALL: [IndexKind; 34] = [
        IndexKind::Ibm866,
        IndexKind::Iso8859_2,
        IndexKind::Iso8859_3,
        IndexKind::Iso8859_4,
        IndexKind::Iso8859_5,
        IndexKind::Iso8859_6,
        IndexKind::Iso8859_7,
        IndexKind::Iso8859_8,
        IndexKind::Iso8859_10,
        IndexKind::Iso8859_13,
        IndexKind::Iso8859_14,
        IndexKind::Iso8859_15,
        IndexKind::Iso8859_16,
        IndexKind::Koi8R,
        IndexKind::Koi8U,
        IndexKind::Macintosh,
        IndexKind::Windows874,
        IndexKind::Windows1250,
        IndexKind::Windows1251,
        IndexKind::Windows1252,
        IndexKind::Windows1253,
        IndexKind::Windows1254,
        IndexKind::Windows1255,
        IndexKind::Windows1256,
        IndexKind::Windows1257,
        IndexKind::Windows1258,
        IndexKind::XMacCyrillic,
        IndexKind::Big5,
        IndexKind::EucKr,
        IndexKind::Gb18030,
        IndexKind::Gb18030Ranges,
        IndexKind::Jis0208,
        IndexKind::Jis0212,
        IndexKind::Iso2022JpKatakana,
    ];
    // end

    /// How many entries the list of this kind has: one more than its greatest pointer can be. It is
    /// 0 for the ranges, which have rows and no list.
    pub fn size(self) -> usize
        ensures { result ≡ index_size self }
    {
        match self {
            IndexKind::Big5 => 19782,
            IndexKind::EucKr | IndexKind::Gb18030 => 23940,
            IndexKind::Gb18030Ranges => 0,
            IndexKind::Jis0208 => 11280,
            IndexKind::Jis0212 => 8836,
            IndexKind::Iso2022JpKatakana => 63,
            _ => 128,
        }
    }

    /// Whether this kind has rows and no list: true of `Gb18030Ranges` alone. The test of the
    /// condition of the calls that take or look up a list.
    pub fn is_ranges(self) -> bool
        ensures { result ≡ is_ranges self }
    {
        match self {
            IndexKind::Gb18030Ranges => true,
            _ => false,
        }
    }

    /// Whether this is the index of a single-byte encoding, whose list has 128 entries: the test of
    /// the condition of the single-byte codecs.
    pub fn is_single_byte(self) -> bool
        ensures { result ≡ is_single_byte_kind self }
    {
        self.size() == 128
    }

    /// The name of the file in which the Encoding Standard publishes this index (section 5,
    /// "Indexes"), as `index-windows-1252.txt`. No two kinds have one name.
    pub fn file_name(self) -> &'static str
        ensures { result.now ≡ file_name_of self }
    {
        match self {
            // Written by tools/generate_encodings.py from tools/encodings.toml; do not edit.
            IndexKind::Ibm866 => "index-ibm866.txt",
            IndexKind::Iso8859_2 => "index-iso-8859-2.txt",
            IndexKind::Iso8859_3 => "index-iso-8859-3.txt",
            IndexKind::Iso8859_4 => "index-iso-8859-4.txt",
            IndexKind::Iso8859_5 => "index-iso-8859-5.txt",
            IndexKind::Iso8859_6 => "index-iso-8859-6.txt",
            IndexKind::Iso8859_7 => "index-iso-8859-7.txt",
            IndexKind::Iso8859_8 => "index-iso-8859-8.txt",
            IndexKind::Iso8859_10 => "index-iso-8859-10.txt",
            IndexKind::Iso8859_13 => "index-iso-8859-13.txt",
            IndexKind::Iso8859_14 => "index-iso-8859-14.txt",
            IndexKind::Iso8859_15 => "index-iso-8859-15.txt",
            IndexKind::Iso8859_16 => "index-iso-8859-16.txt",
            IndexKind::Koi8R => "index-koi8-r.txt",
            IndexKind::Koi8U => "index-koi8-u.txt",
            IndexKind::Macintosh => "index-macintosh.txt",
            IndexKind::Windows874 => "index-windows-874.txt",
            IndexKind::Windows1250 => "index-windows-1250.txt",
            IndexKind::Windows1251 => "index-windows-1251.txt",
            IndexKind::Windows1252 => "index-windows-1252.txt",
            IndexKind::Windows1253 => "index-windows-1253.txt",
            IndexKind::Windows1254 => "index-windows-1254.txt",
            IndexKind::Windows1255 => "index-windows-1255.txt",
            IndexKind::Windows1256 => "index-windows-1256.txt",
            IndexKind::Windows1257 => "index-windows-1257.txt",
            IndexKind::Windows1258 => "index-windows-1258.txt",
            IndexKind::XMacCyrillic => "index-x-mac-cyrillic.txt",
            IndexKind::Big5 => "index-big5.txt",
            IndexKind::EucKr => "index-euc-kr.txt",
            IndexKind::Gb18030 => "index-gb18030.txt",
            IndexKind::Gb18030Ranges => "index-gb18030-ranges.txt",
            IndexKind::Jis0208 => "index-jis0208.txt",
            IndexKind::Jis0212 => "index-jis0212.txt",
            IndexKind::Iso2022JpKatakana => "index-iso-2022-jp-katakana.txt",
            // end
        }
    }

    // Written by tools/generate_encodings.py from tools/encodings.toml; do not edit.
    // The slot of this kind among all.
    pub(crate) fn slot(self) -> usize
        ensures value { result ≡ slot_of self }
        ensures small { result < 34 }
    {
        self as usize
    }
    // end
}
