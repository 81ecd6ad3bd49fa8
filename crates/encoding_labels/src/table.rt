//! The labels for the search, by their length: that leaves few to compare with, and the lists need
//! no order and no index. In each list the labels stand in the order of the Encoding Standard, in
//! lower case, each with the number of its encoding.

// Written by tools/generate_encodings.py from tools/encodings.toml; do not edit.

ghost use Rattle.std.specs.Prelude.{◌≡◌};
ghost use Rattle.encoding_labels.specs.laws.ByLength.{entries, labels_of_length};

use crate::places::{
    BIG5, EUC_JP, EUC_KR, GB18030, GBK, IBM866, ISO_2022_JP, ISO_8859_2, ISO_8859_3, ISO_8859_4,
    ISO_8859_5, ISO_8859_6, ISO_8859_7, ISO_8859_8, ISO_8859_8_I, ISO_8859_10, ISO_8859_13,
    ISO_8859_14, ISO_8859_15, ISO_8859_16, KOI8_R, KOI8_U, MACINTOSH, REPLACEMENT, SHIFT_JIS,
    UTF_8, UTF_16BE, UTF_16LE, WINDOWS_874, WINDOWS_1250, WINDOWS_1251, WINDOWS_1252, WINDOWS_1253,
    WINDOWS_1254, WINDOWS_1255, WINDOWS_1256, WINDOWS_1257, WINDOWS_1258, X_MAC_CYRILLIC,
    X_USER_DEFINED,
};

// The labels of this length, in bytes.
#[tactic(auto, using(crate::proofs::LabelLemmas::labels_of_length_other), unfolding(crate::specs::Labels::labels))]
pub(crate) fn rows_of_length(length: usize) -> &'static [(&'static str, usize)]
    ensures { entries result.now ≡ labels_of_length length }
{
    match length {
        2 => LABELS_OF_2,
        3 => LABELS_OF_3,
        4 => LABELS_OF_4,
        5 => LABELS_OF_5,
        6 => LABELS_OF_6,
        7 => LABELS_OF_7,
        8 => LABELS_OF_8,
        9 => LABELS_OF_9,
        10 => LABELS_OF_10,
        11 => LABELS_OF_11,
        12 => LABELS_OF_12,
        13 => LABELS_OF_13,
        14 => LABELS_OF_14,
        15 => LABELS_OF_15,
        16 => LABELS_OF_16,
        17 => LABELS_OF_17,
        18 => LABELS_OF_18,
        19 => LABELS_OF_19,
        _ => &[],
    }
}

const LABELS_OF_2: &[(&str, usize)] = &[
    ("l2", ISO_8859_2),
    ("l3", ISO_8859_3),
    ("l4", ISO_8859_4),
    ("l6", ISO_8859_10),
    ("l9", ISO_8859_15),
    ("l1", WINDOWS_1252),
    ("l5", WINDOWS_1254),
];

const LABELS_OF_3: &[(&str, usize)] = &[
    ("866", IBM866),
    ("koi", KOI8_R),
    ("mac", MACINTOSH),
    ("gbk", GBK),
];

const LABELS_OF_4: &[(&str, usize)] = &[
    ("utf8", UTF_8),
    ("koi8", KOI8_R),
    ("big5", BIG5),
    ("sjis", SHIFT_JIS),
];

const LABELS_OF_5: &[(&str, usize)] = &[
    ("utf-8", UTF_8),
    ("cp866", IBM866),
    ("greek", ISO_8859_7),
    ("ascii", WINDOWS_1252),
    ("cp819", WINDOWS_1252),
    ("x-gbk", GBK),
    ("ms932", SHIFT_JIS),
    ("ucs-2", UTF_16LE),
];

const LABELS_OF_6: &[(&str, usize)] = &[
    ("ibm866", IBM866),
    ("latin2", ISO_8859_2),
    ("latin3", ISO_8859_3),
    ("latin4", ISO_8859_4),
    ("arabic", ISO_8859_6),
    ("greek8", ISO_8859_7),
    ("hebrew", ISO_8859_8),
    ("visual", ISO_8859_8),
    ("latin6", ISO_8859_10),
    ("koi8-r", KOI8_R),
    ("koi8_r", KOI8_R),
    ("koi8-u", KOI8_U),
    ("cp1250", WINDOWS_1250),
    ("cp1251", WINDOWS_1251),
    ("cp1252", WINDOWS_1252),
    ("ibm819", WINDOWS_1252),
    ("latin1", WINDOWS_1252),
    ("cp1253", WINDOWS_1253),
    ("cp1254", WINDOWS_1254),
    ("latin5", WINDOWS_1254),
    ("cp1255", WINDOWS_1255),
    ("cp1256", WINDOWS_1256),
    ("cp1257", WINDOWS_1257),
    ("cp1258", WINDOWS_1258),
    ("gb2312", GBK),
    ("csbig5", BIG5),
    ("euc-jp", EUC_JP),
    ("x-sjis", SHIFT_JIS),
    ("euc-kr", EUC_KR),
    ("korean", EUC_KR),
    ("utf-16", UTF_16LE),
];

const LABELS_OF_7: &[(&str, usize)] = &[
    ("logical", ISO_8859_8_I),
    ("cskoi8r", KOI8_R),
    ("koi8-ru", KOI8_U),
    ("dos-874", WINDOWS_874),
    ("tis-620", WINDOWS_874),
    ("chinese", GBK),
    ("gb_2312", GBK),
    ("gb18030", GB18030),
    ("cn-big5", BIG5),
    ("cseuckr", EUC_KR),
    ("ksc5601", EUC_KR),
    ("unicode", UTF_16LE),
];

const LABELS_OF_8: &[(&str, usize)] = &[
    ("csibm866", IBM866),
    ("iso88592", ISO_8859_2),
    ("iso88593", ISO_8859_3),
    ("iso88594", ISO_8859_4),
    ("cyrillic", ISO_8859_5),
    ("iso88595", ISO_8859_5),
    ("asmo-708", ISO_8859_6),
    ("ecma-114", ISO_8859_6),
    ("iso88596", ISO_8859_6),
    ("ecma-118", ISO_8859_7),
    ("elot_928", ISO_8859_7),
    ("iso88597", ISO_8859_7),
    ("iso88598", ISO_8859_8),
    ("x-cp1250", WINDOWS_1250),
    ("x-cp1251", WINDOWS_1251),
    ("iso88591", WINDOWS_1252),
    ("us-ascii", WINDOWS_1252),
    ("x-cp1252", WINDOWS_1252),
    ("x-cp1253", WINDOWS_1253),
    ("iso88599", WINDOWS_1254),
    ("x-cp1254", WINDOWS_1254),
    ("x-cp1255", WINDOWS_1255),
    ("x-cp1256", WINDOWS_1256),
    ("x-cp1257", WINDOWS_1257),
    ("x-cp1258", WINDOWS_1258),
    ("csgb2312", GBK),
    ("x-x-big5", BIG5),
    ("x-euc-jp", EUC_JP),
    ("ms_kanji", SHIFT_JIS),
    ("ksc_5601", EUC_KR),
    ("utf-16be", UTF_16BE),
    ("utf-16le", UTF_16LE),
];

const LABELS_OF_9: &[(&str, usize)] = &[
    ("iso8859-2", ISO_8859_2),
    ("iso8859-3", ISO_8859_3),
    ("iso8859-4", ISO_8859_4),
    ("iso8859-5", ISO_8859_5),
    ("iso8859-6", ISO_8859_6),
    ("iso8859-7", ISO_8859_7),
    ("iso8859-8", ISO_8859_8),
    ("iso885910", ISO_8859_10),
    ("iso885913", ISO_8859_13),
    ("iso885914", ISO_8859_14),
    ("iso885915", ISO_8859_15),
    ("macintosh", MACINTOSH),
    ("iso885911", WINDOWS_874),
    ("iso8859-1", WINDOWS_1252),
    ("iso8859-9", WINDOWS_1254),
    ("iso-ir-58", GBK),
    ("shift-jis", SHIFT_JIS),
    ("shift_jis", SHIFT_JIS),
    ("csunicode", UTF_16LE),
];

const LABELS_OF_10: &[(&str, usize)] = &[
    ("iso-8859-2", ISO_8859_2),
    ("iso-ir-101", ISO_8859_2),
    ("iso_8859-2", ISO_8859_2),
    ("iso-8859-3", ISO_8859_3),
    ("iso-ir-109", ISO_8859_3),
    ("iso_8859-3", ISO_8859_3),
    ("iso-8859-4", ISO_8859_4),
    ("iso-ir-110", ISO_8859_4),
    ("iso_8859-4", ISO_8859_4),
    ("iso-8859-5", ISO_8859_5),
    ("iso-ir-144", ISO_8859_5),
    ("iso_8859-5", ISO_8859_5),
    ("iso-8859-6", ISO_8859_6),
    ("iso-ir-127", ISO_8859_6),
    ("iso_8859-6", ISO_8859_6),
    ("iso-8859-7", ISO_8859_7),
    ("iso-ir-126", ISO_8859_7),
    ("iso_8859-7", ISO_8859_7),
    ("iso-8859-8", ISO_8859_8),
    ("iso-ir-138", ISO_8859_8),
    ("iso_8859-8", ISO_8859_8),
    ("iso-ir-157", ISO_8859_10),
    ("iso8859-10", ISO_8859_10),
    ("iso8859-13", ISO_8859_13),
    ("iso8859-14", ISO_8859_14),
    ("iso8859-15", ISO_8859_15),
    ("iso8859-11", WINDOWS_874),
    ("iso-8859-1", WINDOWS_1252),
    ("iso-ir-100", WINDOWS_1252),
    ("iso_8859-1", WINDOWS_1252),
    ("iso-8859-9", WINDOWS_1254),
    ("iso-ir-148", WINDOWS_1254),
    ("iso_8859-9", WINDOWS_1254),
    ("gb_2312-80", GBK),
    ("big5-hkscs", BIG5),
    ("csshiftjis", SHIFT_JIS),
    ("iso-ir-149", EUC_KR),
    ("hz-gb-2312", REPLACEMENT),
];

const LABELS_OF_11: &[(&str, usize)] = &[
    ("csisolatin2", ISO_8859_2),
    ("csisolatin3", ISO_8859_3),
    ("csisolatin4", ISO_8859_4),
    ("csiso88596e", ISO_8859_6),
    ("csiso88596i", ISO_8859_6),
    ("csiso88598e", ISO_8859_8),
    ("csiso88598i", ISO_8859_8_I),
    ("csisolatin6", ISO_8859_10),
    ("iso-8859-10", ISO_8859_10),
    ("iso-8859-13", ISO_8859_13),
    ("iso-8859-14", ISO_8859_14),
    ("csisolatin9", ISO_8859_15),
    ("iso-8859-15", ISO_8859_15),
    ("iso_8859-15", ISO_8859_15),
    ("iso-8859-16", ISO_8859_16),
    ("csmacintosh", MACINTOSH),
    ("x-mac-roman", MACINTOSH),
    ("iso-8859-11", WINDOWS_874),
    ("windows-874", WINDOWS_874),
    ("csisolatin1", WINDOWS_1252),
    ("csisolatin5", WINDOWS_1254),
    ("csiso2022jp", ISO_2022_JP),
    ("iso-2022-jp", ISO_2022_JP),
    ("windows-31j", SHIFT_JIS),
    ("windows-949", EUC_KR),
    ("csiso2022kr", REPLACEMENT),
    ("iso-2022-cn", REPLACEMENT),
    ("iso-2022-kr", REPLACEMENT),
    ("replacement", REPLACEMENT),
    ("unicodefffe", UTF_16BE),
    ("unicodefeff", UTF_16LE),
];

const LABELS_OF_12: &[(&str, usize)] = &[
    ("iso-8859-6-e", ISO_8859_6),
    ("iso-8859-6-i", ISO_8859_6),
    ("sun_eu_greek", ISO_8859_7),
    ("iso-8859-8-e", ISO_8859_8),
    ("iso-8859-8-i", ISO_8859_8_I),
    ("windows-1250", WINDOWS_1250),
    ("windows-1251", WINDOWS_1251),
    ("windows-1252", WINDOWS_1252),
    ("windows-1253", WINDOWS_1253),
    ("windows-1254", WINDOWS_1254),
    ("windows-1255", WINDOWS_1255),
    ("windows-1256", WINDOWS_1256),
    ("windows-1257", WINDOWS_1257),
    ("windows-1258", WINDOWS_1258),
];

const LABELS_OF_13: &[(&str, usize)] = &[
    ("unicode11utf8", UTF_8),
    ("unicode20utf8", UTF_8),
    ("csksc56011987", EUC_KR),
];

const LABELS_OF_14: &[(&str, usize)] = &[
    ("ansi_x3.4-1968", WINDOWS_1252),
    ("x-mac-cyrillic", X_MAC_CYRILLIC),
    ("ks_c_5601-1987", EUC_KR),
    ("ks_c_5601-1989", EUC_KR),
    ("x-user-defined", X_USER_DEFINED),
];

const LABELS_OF_15: &[(&str, usize)] = &[
    ("x-unicode20utf8", UTF_8),
    ("iso_8859-2:1987", ISO_8859_2),
    ("iso_8859-3:1988", ISO_8859_3),
    ("iso_8859-4:1988", ISO_8859_4),
    ("iso_8859-5:1988", ISO_8859_5),
    ("iso_8859-6:1987", ISO_8859_6),
    ("csisolatingreek", ISO_8859_7),
    ("iso_8859-7:1987", ISO_8859_7),
    ("iso_8859-8:1988", ISO_8859_8),
    ("iso_8859-1:1987", WINDOWS_1252),
    ("iso_8859-9:1989", WINDOWS_1254),
    ("x-mac-ukrainian", X_MAC_CYRILLIC),
    ("csiso58gb231280", GBK),
    ("iso-2022-cn-ext", REPLACEMENT),
    ("iso-10646-ucs-2", UTF_16LE),
];

const LABELS_OF_16: &[(&str, usize)] = &[
    ("csisolatinarabic", ISO_8859_6),
    ("csisolatinhebrew", ISO_8859_8),
];

const LABELS_OF_17: &[(&str, usize)] = &[("unicode-1-1-utf-8", UTF_8)];

const LABELS_OF_18: &[(&str, usize)] = &[("csisolatincyrillic", ISO_8859_5)];

const LABELS_OF_19: &[(&str, usize)] = &[("cseucpkdfmtjapanese", EUC_JP)];
