//! Labels and their numbers, and texts that are no labels.

use encoding_labels::label_number;

// Each encoding by its own name, in the order of the numbers.
// Written by tools/generate_encodings.py from tools/encodings.toml; do not edit.
const NAMES: [&str; 40] = [
    "big5",
    "euc-jp",
    "euc-kr",
    "gb18030",
    "gbk",
    "ibm866",
    "iso-2022-jp",
    "iso-8859-2",
    "iso-8859-3",
    "iso-8859-4",
    "iso-8859-5",
    "iso-8859-6",
    "iso-8859-7",
    "iso-8859-8",
    "iso-8859-8-i",
    "iso-8859-10",
    "iso-8859-13",
    "iso-8859-14",
    "iso-8859-15",
    "iso-8859-16",
    "koi8-r",
    "koi8-u",
    "macintosh",
    "replacement",
    "shift_jis",
    "utf-8",
    "utf-16be",
    "utf-16le",
    "windows-874",
    "windows-1250",
    "windows-1251",
    "windows-1252",
    "windows-1253",
    "windows-1254",
    "windows-1255",
    "windows-1256",
    "windows-1257",
    "windows-1258",
    "x-mac-cyrillic",
    "x-user-defined",
];
// end

#[test]
fn each_name_has_its_number(rt: HostRuntime) {
    for (offset, name) in NAMES.iter().enumerate() {
        assert_eq!(rt; label_number(name.as_bytes()), Some(offset), "{name}");
    }
}
