//! The forty encodings, each with a second name. The sections are those of the Encoding Standard.

// Written by tools/generate_encodings.py from tools/encodings.toml; do not edit.

use crate::encoding::Encoding;

/// Big5 (section 11.1).
pub const BIG5: Encoding = Encoding::Big5;
/// EUC-JP (section 12.1).
pub const EUC_JP: Encoding = Encoding::EucJp;
/// EUC-KR (section 13.1).
pub const EUC_KR: Encoding = Encoding::EucKr;
/// gb18030 (section 10.2).
pub const GB18030: Encoding = Encoding::Gb18030;
/// GBK (section 10.1).
pub const GBK: Encoding = Encoding::Gbk;
/// IBM866 (section 9).
pub const IBM866: Encoding = Encoding::Ibm866;
/// ISO-2022-JP (section 12.2).
pub const ISO_2022_JP: Encoding = Encoding::Iso2022Jp;
/// ISO-8859-2 (section 9).
pub const ISO_8859_2: Encoding = Encoding::Iso8859_2;
/// ISO-8859-3 (section 9).
pub const ISO_8859_3: Encoding = Encoding::Iso8859_3;
/// ISO-8859-4 (section 9).
pub const ISO_8859_4: Encoding = Encoding::Iso8859_4;
/// ISO-8859-5 (section 9).
pub const ISO_8859_5: Encoding = Encoding::Iso8859_5;
/// ISO-8859-6 (section 9).
pub const ISO_8859_6: Encoding = Encoding::Iso8859_6;
/// ISO-8859-7 (section 9).
pub const ISO_8859_7: Encoding = Encoding::Iso8859_7;
/// ISO-8859-8 (section 9).
pub const ISO_8859_8: Encoding = Encoding::Iso8859_8;
/// ISO-8859-8-I (section 9).
pub const ISO_8859_8_I: Encoding = Encoding::Iso8859_8I;
/// ISO-8859-10 (section 9).
pub const ISO_8859_10: Encoding = Encoding::Iso8859_10;
/// ISO-8859-13 (section 9).
pub const ISO_8859_13: Encoding = Encoding::Iso8859_13;
/// ISO-8859-14 (section 9).
pub const ISO_8859_14: Encoding = Encoding::Iso8859_14;
/// ISO-8859-15 (section 9).
pub const ISO_8859_15: Encoding = Encoding::Iso8859_15;
/// ISO-8859-16 (section 9).
pub const ISO_8859_16: Encoding = Encoding::Iso8859_16;
/// KOI8-R (section 9).
pub const KOI8_R: Encoding = Encoding::Koi8R;
/// KOI8-U (section 9).
pub const KOI8_U: Encoding = Encoding::Koi8U;
/// macintosh (section 9).
pub const MACINTOSH: Encoding = Encoding::Macintosh;
/// replacement (section 14.1).
pub const REPLACEMENT: Encoding = Encoding::Replacement;
/// Shift_JIS (section 12.3).
pub const SHIFT_JIS: Encoding = Encoding::ShiftJis;
/// UTF-8 (section 8.1).
pub const UTF_8: Encoding = Encoding::Utf8;
/// UTF-16BE (section 14.3).
pub const UTF_16BE: Encoding = Encoding::Utf16Be;
/// UTF-16LE (section 14.4).
pub const UTF_16LE: Encoding = Encoding::Utf16Le;
/// windows-874 (section 9).
pub const WINDOWS_874: Encoding = Encoding::Windows874;
/// windows-1250 (section 9).
pub const WINDOWS_1250: Encoding = Encoding::Windows1250;
/// windows-1251 (section 9).
pub const WINDOWS_1251: Encoding = Encoding::Windows1251;
/// windows-1252 (section 9).
pub const WINDOWS_1252: Encoding = Encoding::Windows1252;
/// windows-1253 (section 9).
pub const WINDOWS_1253: Encoding = Encoding::Windows1253;
/// windows-1254 (section 9).
pub const WINDOWS_1254: Encoding = Encoding::Windows1254;
/// windows-1255 (section 9).
pub const WINDOWS_1255: Encoding = Encoding::Windows1255;
/// windows-1256 (section 9).
pub const WINDOWS_1256: Encoding = Encoding::Windows1256;
/// windows-1257 (section 9).
pub const WINDOWS_1257: Encoding = Encoding::Windows1257;
/// windows-1258 (section 9).
pub const WINDOWS_1258: Encoding = Encoding::Windows1258;
/// x-mac-cyrillic (section 9).
pub const X_MAC_CYRILLIC: Encoding = Encoding::XMacCyrillic;
/// x-user-defined (section 14.5).
pub const X_USER_DEFINED: Encoding = Encoding::XUserDefined;

/// A second name of `BIG5`.
pub const BIG5_INIT: Encoding = BIG5;
/// A second name of `EUC_JP`.
pub const EUC_JP_INIT: Encoding = EUC_JP;
/// A second name of `EUC_KR`.
pub const EUC_KR_INIT: Encoding = EUC_KR;
/// A second name of `GB18030`.
pub const GB18030_INIT: Encoding = GB18030;
/// A second name of `GBK`.
pub const GBK_INIT: Encoding = GBK;
/// A second name of `IBM866`.
pub const IBM866_INIT: Encoding = IBM866;
/// A second name of `ISO_2022_JP`.
pub const ISO_2022_JP_INIT: Encoding = ISO_2022_JP;
/// A second name of `ISO_8859_2`.
pub const ISO_8859_2_INIT: Encoding = ISO_8859_2;
/// A second name of `ISO_8859_3`.
pub const ISO_8859_3_INIT: Encoding = ISO_8859_3;
/// A second name of `ISO_8859_4`.
pub const ISO_8859_4_INIT: Encoding = ISO_8859_4;
/// A second name of `ISO_8859_5`.
pub const ISO_8859_5_INIT: Encoding = ISO_8859_5;
/// A second name of `ISO_8859_6`.
pub const ISO_8859_6_INIT: Encoding = ISO_8859_6;
/// A second name of `ISO_8859_7`.
pub const ISO_8859_7_INIT: Encoding = ISO_8859_7;
/// A second name of `ISO_8859_8`.
pub const ISO_8859_8_INIT: Encoding = ISO_8859_8;
/// A second name of `ISO_8859_8_I`.
pub const ISO_8859_8_I_INIT: Encoding = ISO_8859_8_I;
/// A second name of `ISO_8859_10`.
pub const ISO_8859_10_INIT: Encoding = ISO_8859_10;
/// A second name of `ISO_8859_13`.
pub const ISO_8859_13_INIT: Encoding = ISO_8859_13;
/// A second name of `ISO_8859_14`.
pub const ISO_8859_14_INIT: Encoding = ISO_8859_14;
/// A second name of `ISO_8859_15`.
pub const ISO_8859_15_INIT: Encoding = ISO_8859_15;
/// A second name of `ISO_8859_16`.
pub const ISO_8859_16_INIT: Encoding = ISO_8859_16;
/// A second name of `KOI8_R`.
pub const KOI8_R_INIT: Encoding = KOI8_R;
/// A second name of `KOI8_U`.
pub const KOI8_U_INIT: Encoding = KOI8_U;
/// A second name of `MACINTOSH`.
pub const MACINTOSH_INIT: Encoding = MACINTOSH;
/// A second name of `REPLACEMENT`.
pub const REPLACEMENT_INIT: Encoding = REPLACEMENT;
/// A second name of `SHIFT_JIS`.
pub const SHIFT_JIS_INIT: Encoding = SHIFT_JIS;
/// A second name of `UTF_8`.
pub const UTF_8_INIT: Encoding = UTF_8;
/// A second name of `UTF_16BE`.
pub const UTF_16BE_INIT: Encoding = UTF_16BE;
/// A second name of `UTF_16LE`.
pub const UTF_16LE_INIT: Encoding = UTF_16LE;
/// A second name of `WINDOWS_874`.
pub const WINDOWS_874_INIT: Encoding = WINDOWS_874;
/// A second name of `WINDOWS_1250`.
pub const WINDOWS_1250_INIT: Encoding = WINDOWS_1250;
/// A second name of `WINDOWS_1251`.
pub const WINDOWS_1251_INIT: Encoding = WINDOWS_1251;
/// A second name of `WINDOWS_1252`.
pub const WINDOWS_1252_INIT: Encoding = WINDOWS_1252;
/// A second name of `WINDOWS_1253`.
pub const WINDOWS_1253_INIT: Encoding = WINDOWS_1253;
/// A second name of `WINDOWS_1254`.
pub const WINDOWS_1254_INIT: Encoding = WINDOWS_1254;
/// A second name of `WINDOWS_1255`.
pub const WINDOWS_1255_INIT: Encoding = WINDOWS_1255;
/// A second name of `WINDOWS_1256`.
pub const WINDOWS_1256_INIT: Encoding = WINDOWS_1256;
/// A second name of `WINDOWS_1257`.
pub const WINDOWS_1257_INIT: Encoding = WINDOWS_1257;
/// A second name of `WINDOWS_1258`.
pub const WINDOWS_1258_INIT: Encoding = WINDOWS_1258;
/// A second name of `X_MAC_CYRILLIC`.
pub const X_MAC_CYRILLIC_INIT: Encoding = X_MAC_CYRILLIC;
/// A second name of `X_USER_DEFINED`.
pub const X_USER_DEFINED_INIT: Encoding = X_USER_DEFINED;
