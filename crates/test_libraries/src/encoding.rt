//! The names, labels, marks and properties of the forty encodings, compared with the standard's
//! table.

// Written by tools/generate_encodings.py from tools/encodings.toml; do not edit.
use encoding_front::{
    BIG5, BIG5_INIT, EUC_JP, EUC_JP_INIT, EUC_KR, EUC_KR_INIT, Encoding, GB18030, GB18030_INIT,
    GBK, GBK_INIT, IBM866, IBM866_INIT, ISO_2022_JP, ISO_2022_JP_INIT, ISO_8859_2, ISO_8859_2_INIT,
    ISO_8859_3, ISO_8859_3_INIT, ISO_8859_4, ISO_8859_4_INIT, ISO_8859_5, ISO_8859_5_INIT,
    ISO_8859_6, ISO_8859_6_INIT, ISO_8859_7, ISO_8859_7_INIT, ISO_8859_8, ISO_8859_8_I,
    ISO_8859_8_I_INIT, ISO_8859_8_INIT, ISO_8859_10, ISO_8859_10_INIT, ISO_8859_13,
    ISO_8859_13_INIT, ISO_8859_14, ISO_8859_14_INIT, ISO_8859_15, ISO_8859_15_INIT, ISO_8859_16,
    ISO_8859_16_INIT, KOI8_R, KOI8_R_INIT, KOI8_U, KOI8_U_INIT, MACINTOSH, MACINTOSH_INIT,
    REPLACEMENT, REPLACEMENT_INIT, SHIFT_JIS, SHIFT_JIS_INIT, UTF_8, UTF_8_INIT, UTF_16BE,
    UTF_16BE_INIT, UTF_16LE, UTF_16LE_INIT, WINDOWS_874, WINDOWS_874_INIT, WINDOWS_1250,
    WINDOWS_1250_INIT, WINDOWS_1251, WINDOWS_1251_INIT, WINDOWS_1252, WINDOWS_1252_INIT,
    WINDOWS_1253, WINDOWS_1253_INIT, WINDOWS_1254, WINDOWS_1254_INIT, WINDOWS_1255,
    WINDOWS_1255_INIT, WINDOWS_1256, WINDOWS_1256_INIT, WINDOWS_1257, WINDOWS_1257_INIT,
    WINDOWS_1258, WINDOWS_1258_INIT, X_MAC_CYRILLIC, X_MAC_CYRILLIC_INIT, X_USER_DEFINED,
    X_USER_DEFINED_INIT,
};
// end
use std::collections::HashSet;
use std::test::Fail;

// Each encoding with its second name, and its name in the standard.
// Written by tools/generate_encodings.py from tools/encodings.toml; do not edit.
const ALL: [(Encoding, Encoding, &str); 40] = [
    (BIG5, BIG5_INIT, "Big5"),
    (EUC_JP, EUC_JP_INIT, "EUC-JP"),
    (EUC_KR, EUC_KR_INIT, "EUC-KR"),
    (GB18030, GB18030_INIT, "gb18030"),
    (GBK, GBK_INIT, "GBK"),
    (IBM866, IBM866_INIT, "IBM866"),
    (ISO_2022_JP, ISO_2022_JP_INIT, "ISO-2022-JP"),
    (ISO_8859_2, ISO_8859_2_INIT, "ISO-8859-2"),
    (ISO_8859_3, ISO_8859_3_INIT, "ISO-8859-3"),
    (ISO_8859_4, ISO_8859_4_INIT, "ISO-8859-4"),
    (ISO_8859_5, ISO_8859_5_INIT, "ISO-8859-5"),
    (ISO_8859_6, ISO_8859_6_INIT, "ISO-8859-6"),
    (ISO_8859_7, ISO_8859_7_INIT, "ISO-8859-7"),
    (ISO_8859_8, ISO_8859_8_INIT, "ISO-8859-8"),
    (ISO_8859_8_I, ISO_8859_8_I_INIT, "ISO-8859-8-I"),
    (ISO_8859_10, ISO_8859_10_INIT, "ISO-8859-10"),
    (ISO_8859_13, ISO_8859_13_INIT, "ISO-8859-13"),
    (ISO_8859_14, ISO_8859_14_INIT, "ISO-8859-14"),
    (ISO_8859_15, ISO_8859_15_INIT, "ISO-8859-15"),
    (ISO_8859_16, ISO_8859_16_INIT, "ISO-8859-16"),
    (KOI8_R, KOI8_R_INIT, "KOI8-R"),
    (KOI8_U, KOI8_U_INIT, "KOI8-U"),
    (MACINTOSH, MACINTOSH_INIT, "macintosh"),
    (REPLACEMENT, REPLACEMENT_INIT, "replacement"),
    (SHIFT_JIS, SHIFT_JIS_INIT, "Shift_JIS"),
    (UTF_8, UTF_8_INIT, "UTF-8"),
    (UTF_16BE, UTF_16BE_INIT, "UTF-16BE"),
    (UTF_16LE, UTF_16LE_INIT, "UTF-16LE"),
    (WINDOWS_874, WINDOWS_874_INIT, "windows-874"),
    (WINDOWS_1250, WINDOWS_1250_INIT, "windows-1250"),
    (WINDOWS_1251, WINDOWS_1251_INIT, "windows-1251"),
    (WINDOWS_1252, WINDOWS_1252_INIT, "windows-1252"),
    (WINDOWS_1253, WINDOWS_1253_INIT, "windows-1253"),
    (WINDOWS_1254, WINDOWS_1254_INIT, "windows-1254"),
    (WINDOWS_1255, WINDOWS_1255_INIT, "windows-1255"),
    (WINDOWS_1256, WINDOWS_1256_INIT, "windows-1256"),
    (WINDOWS_1257, WINDOWS_1257_INIT, "windows-1257"),
    (WINDOWS_1258, WINDOWS_1258_INIT, "windows-1258"),
    (X_MAC_CYRILLIC, X_MAC_CYRILLIC_INIT, "x-mac-cyrillic"),
    (X_USER_DEFINED, X_USER_DEFINED_INIT, "x-user-defined"),
];
// end

#[test]
fn each_encoding_has_two_names(rt: HostRuntime) {
    for (offset, (encoding, second, name)) in ALL.iter().enumerate() {
        assert_eq!(rt; encoding, second, "{name}");
        assert_eq!(rt; encoding.name(), *name);
        for (other, _, other_name) in &ALL[..offset] {
            assert!(rt; encoding != other, "{name} {other_name}");
        }
    }
}

#[test]
fn sets_of_encodings(rt: HostRuntime) -> Result<(), Fail> {
    let mut set = HashSet::new(rt.alloc());
    set.insert(UTF_8)?;
    set.insert(ISO_2022_JP)?;
    assert!(rt; set.contains(&UTF_8));
    assert!(rt; set.contains(&ISO_2022_JP));
    assert!(rt; !set.contains(&WINDOWS_1252));
    assert!(rt; set.remove(&ISO_2022_JP));
    assert!(rt; set.contains(&UTF_8));
    assert!(rt; !set.contains(&ISO_2022_JP));
    Ok(())
}
