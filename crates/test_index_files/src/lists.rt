//! The indexes, and what is printed of each.

// Written by tools/generate_encodings.py from tools/encodings.toml; do not edit.

use encoding_tables::IndexKind;

// The pointers that are printed of each kind.
pub(crate) const POINTERS: [(IndexKind, &[u32]); 34] = [
    (IndexKind::Ibm866, &[0, 48, 112, 127]),
    (IndexKind::Iso8859_2, &[33, 35, 127]),
    (IndexKind::Iso8859_3, &[33, 37, 38, 127]),
    (IndexKind::Iso8859_4, &[33, 34, 127]),
    (IndexKind::Iso8859_5, &[33, 48, 112, 127]),
    (IndexKind::Iso8859_6, &[44, 65, 114, 127]),
    (IndexKind::Iso8859_7, &[36, 65, 126, 127]),
    (IndexKind::Iso8859_8, &[95, 96, 122, 127]),
    (IndexKind::Iso8859_10, &[33, 34, 127]),
    (IndexKind::Iso8859_13, &[33, 64, 127]),
    (IndexKind::Iso8859_14, &[33, 80, 127]),
    (IndexKind::Iso8859_15, &[36, 38, 60, 62]),
    (IndexKind::Iso8859_16, &[33, 36, 42, 94]),
    (IndexKind::Koi8R, &[0, 35, 65, 127]),
    (IndexKind::Koi8U, &[0, 36, 45, 127]),
    (IndexKind::Macintosh, &[0, 74, 91, 127]),
    (IndexKind::Windows874, &[0, 33, 91, 123]),
    (IndexKind::Windows1250, &[0, 10, 37, 127]),
    (IndexKind::Windows1251, &[0, 8, 64, 127]),
    (IndexKind::Windows1252, &[0, 1, 31, 127]),
    (IndexKind::Windows1253, &[0, 33, 65, 127]),
    (IndexKind::Windows1254, &[0, 80, 93, 125]),
    (IndexKind::Windows1255, &[0, 36, 96, 127]),
    (IndexKind::Windows1256, &[1, 13, 65, 127]),
    (IndexKind::Windows1257, &[33, 40, 64, 127]),
    (IndexKind::Windows1258, &[76, 80, 112, 126]),
    (IndexKind::XMacCyrillic, &[0, 93, 95, 127]),
    (IndexKind::Big5, &[942, 947, 5024, 5287, 5495, 5512]),
    (IndexKind::EucKr, &[0, 6176, 9026, 13679, 13966]),
    (IndexKind::Gb18030, &[0, 6176, 6555, 7533, 9026]),
    (
        IndexKind::Gb18030Ranges,
        &[0, 35, 36, 7457, 39419, 39420, 189000, 1237575],
    ),
    (IndexKind::Jis0208, &[0, 422, 1410, 7807, 8836, 10716]),
    (IndexKind::Jis0212, &[108, 1410, 7210]),
    (IndexKind::Iso2022JpKatakana, &[0, 16, 62]),
];
