//! The names of indexes.

use anyhow::bail;
use encoding_tables::IndexKind;

// Written by tools/generate_encodings.py from tools/encodings.toml; do not edit.
// Each kind of index by the name that cases have for it.
pub(crate) const KINDS: [(&str, IndexKind); 34] = [
    ("ibm866", IndexKind::Ibm866),
    ("iso-8859-2", IndexKind::Iso8859_2),
    ("iso-8859-3", IndexKind::Iso8859_3),
    ("iso-8859-4", IndexKind::Iso8859_4),
    ("iso-8859-5", IndexKind::Iso8859_5),
    ("iso-8859-6", IndexKind::Iso8859_6),
    ("iso-8859-7", IndexKind::Iso8859_7),
    ("iso-8859-8", IndexKind::Iso8859_8),
    ("iso-8859-10", IndexKind::Iso8859_10),
    ("iso-8859-13", IndexKind::Iso8859_13),
    ("iso-8859-14", IndexKind::Iso8859_14),
    ("iso-8859-15", IndexKind::Iso8859_15),
    ("iso-8859-16", IndexKind::Iso8859_16),
    ("koi8-r", IndexKind::Koi8R),
    ("koi8-u", IndexKind::Koi8U),
    ("macintosh", IndexKind::Macintosh),
    ("windows-874", IndexKind::Windows874),
    ("windows-1250", IndexKind::Windows1250),
    ("windows-1251", IndexKind::Windows1251),
    ("windows-1252", IndexKind::Windows1252),
    ("windows-1253", IndexKind::Windows1253),
    ("windows-1254", IndexKind::Windows1254),
    ("windows-1255", IndexKind::Windows1255),
    ("windows-1256", IndexKind::Windows1256),
    ("windows-1257", IndexKind::Windows1257),
    ("windows-1258", IndexKind::Windows1258),
    ("x-mac-cyrillic", IndexKind::XMacCyrillic),
    ("big5", IndexKind::Big5),
    ("euc-kr", IndexKind::EucKr),
    ("gb18030", IndexKind::Gb18030),
    ("gb18030-ranges", IndexKind::Gb18030Ranges),
    ("jis0208", IndexKind::Jis0208),
    ("jis0212", IndexKind::Jis0212),
    ("katakana", IndexKind::Iso2022JpKatakana),
];
// end

/// Returns the index of this name.
pub fn kind_of(name: &str) -> anyhow::Result<IndexKind> {
    for (known, kind) in KINDS.iter() {
        if name == *known {
            return Ok(*kind);
        }
    }
    bail!("no index has this name")
}
