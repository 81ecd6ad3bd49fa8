//! The number of each encoding in the list of all of them, from 0. The list has the encodings of
//! the Encoding Standard, in the order of the names below.

// Written by tools/generate_encodings.py from tools/encodings.toml; do not edit.

pub const BIG5: usize = 0;

pub const EUC_JP: usize = 1;

pub const EUC_KR: usize = 2;

pub const GB18030: usize = 3;

pub const GBK: usize = 4;

pub const IBM866: usize = 5;

pub const ISO_2022_JP: usize = 6;

pub const ISO_8859_2: usize = 7;

pub const ISO_8859_3: usize = 8;

pub const ISO_8859_4: usize = 9;

pub const ISO_8859_5: usize = 10;

pub const ISO_8859_6: usize = 11;

pub const ISO_8859_7: usize = 12;

pub const ISO_8859_8: usize = 13;

pub const ISO_8859_8_I: usize = 14;

pub const ISO_8859_10: usize = 15;

pub const ISO_8859_13: usize = 16;

pub const ISO_8859_14: usize = 17;

pub const ISO_8859_15: usize = 18;

pub const ISO_8859_16: usize = 19;

pub const KOI8_R: usize = 20;

pub const KOI8_U: usize = 21;

pub const MACINTOSH: usize = 22;

pub const REPLACEMENT: usize = 23;

pub const SHIFT_JIS: usize = 24;

pub const UTF_8: usize = 25;

pub const UTF_16BE: usize = 26;

pub const UTF_16LE: usize = 27;

pub const WINDOWS_874: usize = 28;

pub const WINDOWS_1250: usize = 29;

pub const WINDOWS_1251: usize = 30;

pub const WINDOWS_1252: usize = 31;

pub const WINDOWS_1253: usize = 32;

pub const WINDOWS_1254: usize = 33;

pub const WINDOWS_1255: usize = 34;

pub const WINDOWS_1256: usize = 35;

pub const WINDOWS_1257: usize = 36;

pub const WINDOWS_1258: usize = 37;

pub const X_MAC_CYRILLIC: usize = 38;

pub const X_USER_DEFINED: usize = 39;

/// How many encodings there are.
pub const ENCODING_COUNT: usize = 40;
