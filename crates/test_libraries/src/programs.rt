//! Calls of the program with a file whose content a ghost field states, and the list of all labels.

ghost use Rattle.std.specs.Prelude.{◌&&◌, None, Some, if◌then◌else◌, nat_eq};
ghost use Rattle.std.specs.Cmp.Lexicographic.{pointwise};

use encoding_front::Encoding;
use recode::{IndexSource, SourceFault, program};
use recode_log::counted::Counted;
use std::alloc::Global;
use std::test::Fail;

// A folder in memory with one file. The ghost `holds` states the content of the file, and that no
// other file is there.
#[derive(Drop)]
struct ToldFile {
    dir: &'static str,
    name: &'static str,
    text: &'static [u8],
}

impl IndexSource for ToldFile {
    ghost holds = { λ s dir file.
        Some (if pointwise nat_eq dir s.dir.now && pointwise nat_eq file s.name.now
        then Some s.text.now else None) };

    fn read_file(&mut self, alloc: Global, dir: &str, file: &str) -> Result<Vec<u8>, SourceFault> {
        if dir != self.dir || file != self.name {
            return Err(SourceFault::Missing);
        }
        match Vec::from_slice(alloc, self.text) {
            Ok(text) => Ok(text),
            Err(_) => Err(SourceFault::Memory),
        }
    }
}

#[test]
fn a_told_file_is_read(rt: HostRuntime) -> Result<(), Fail> {
    let mut source = ToldFile {
        dir: "tables",
        name: "index-jis0208.txt",
        text: b"422\t0x30CF",
    };
    let words = [
        "recode",
        "--from",
        "shift_jis",
        "--to",
        "utf-8",
        "--indexes",
        "tables",
    ];
    let mut reader = Counted::new(b"\x83n".as_slice());
    let mut writer = Counted::new(Vec::new(rt.alloc()));
    let mut log = Counted::new(Vec::new(rt.alloc()));
    let status = program(
        rt.alloc(),
        &words,
        &mut source,
        &mut reader,
        &mut writer,
        &mut log,
    );
    assert!(rt; log.get_ref().is_empty());
    assert_eq!(rt; writer.get_ref().as_slice(), b"\xE3\x83\x8F".as_slice());
    assert_eq!(rt; status, 0);
    Ok(())
}

// The Encoding Standard has 228 labels (section 4.2).
#[test]
fn the_list_has_all_labels(rt: HostRuntime) -> Result<(), Fail> {
    let mut source = ToldFile {
        dir: "",
        name: "",
        text: b"",
    };
    let mut reader = Counted::new(b"".as_slice());
    let mut writer = Counted::new(Vec::new(rt.alloc()));
    let mut log = Counted::new(Vec::new(rt.alloc()));
    let status = program(
        rt.alloc(),
        &["recode", "--list"],
        &mut source,
        &mut reader,
        &mut writer,
        &mut log,
    );
    assert_eq!(rt; status, 0);
    assert!(rt; log.get_ref().is_empty());
    let text = std::str::from_utf8(writer.get_ref().as_slice())?;
    let mut lines = 0usize;
    let mut labels = 0usize;
    for line in text.lines() {
        let (name, words) = line.split_once(": ").expect(&rt, "a name and labels");
        let encoding = Encoding::for_label(name.as_bytes()).expect(&rt, "an encoding");
        assert_eq!(rt; encoding.name(), name);
        lines = lines.saturating_add(1);
        for word in words.split(' ') {
            assert_eq!(rt;
                Encoding::for_label(word.as_bytes()),
                Some(encoding),
                "{word}"
            );
            labels = labels.saturating_add(1);
        }
    }
    assert_eq!(rt; lines, 40);
    assert_eq!(rt; labels, 228);
    Ok(())
}
