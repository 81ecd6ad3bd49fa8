//! What is printed of places: lines of text, carets and sums, with results worked by hand.

use encoding_front::Encoding;
use recode_places::{Entry, Finding, Place, Refusal, Visitor};
use recode_places_report::{Counts, Report};
use std::alloc::Global;
use std::test::Fail;

// A part of an input: text, a character that is lost, or malformed bytes.
#[derive(Clone, Copy)]
enum Part {
    Text(&'static str),
    Lost(char),
    Bytes(&'static [u8]),
}

// Hands the parts of an input to a visitor. Each part has a column of its own in line 7.
fn tell<V: Visitor>(visitor: &mut V, parts: &[Part]) -> Result<(), Refusal> {
    let mut column = 0u64;
    for part in parts {
        column = column.saturating_add(1);
        let place = Place {
            index: column.saturating_add(6),
            line: 7,
            column,
        };
        match *part {
            Part::Text(text) => visitor.characters(text)?,
            Part::Lost(scalar) => {
                visitor.entry(Entry {
                    place,
                    finding: Finding::Lost { scalar },
                })?;
                visitor.characters(scalar.encode_utf8(&mut [0; 4]))?;
            }
            Part::Bytes(bytes) => {
                visitor.entry(Entry {
                    place,
                    finding: Finding::Malformed {
                        offset: 0,
                        length: 1,
                    },
                })?;
                visitor.malformed(bytes, Encoding::ShiftJis)?;
            }
        }
    }
    Ok(())
}

// Returns what was written, as text.
fn text_of(report: Report<Vec<u8>>) -> Result<String, Fail> {
    Ok(String::from_utf8(report.into_writer())?)
}

// Returns the lines, each with a line feed after it.
fn joined(alloc: Global, lines: &[&str]) -> Result<String, Fail> {
    let mut all = String::new(alloc);
    for line in lines {
        all.push_str(line)?;
        all.push_str("\n")?;
    }
    Ok(all)
}

// Returns the lines of text and carets that are printed of an input. Lines that begin with the name
// of the input are left out.
fn drawing(alloc: Global, parts: &[Part]) -> Result<String, Fail> {
    let mut report = Report::new(alloc, Vec::new(alloc), "f", Encoding::Windows1252, 20)?;
    tell(&mut report, parts)?;
    report.finish()?;
    let text = text_of(report)?;
    let mut lines = Vec::new(alloc);
    for line in text.as_str().lines() {
        if !line.starts_with("f:") {
            lines.push(line)?;
        }
    }
    joined(alloc, lines.as_slice())
}

#[test]
fn draws_lines_and_carets(rt: HostRuntime) -> Result<(), Fail> {
    let cases: [(&[Part], &[&str]); 9] = [
        (
            &[Part::Text("name,"), Part::Lost('日'), Part::Text("本\r\nb")],
            &["  7 | name,日本", "    |      ^^"],
        ),
        (
            &[Part::Text("a\te"), Part::Lost('\u{301}'), Part::Text("f")],
            &["  7 | a e\u{301}f", "    |   ^"],
        ),
        (
            &[Part::Text("👩"), Part::Lost('☃')],
            &["  7 | 👩☃", "    |   ^"],
        ),
        (
            &[
                Part::Bytes(b"\xFF"),
                Part::Text("a"),
                Part::Bytes(b"\x82"),
                Part::Text("\n"),
            ],
            &[
                "  7 | <FF>a<82>",
                "    | ^^^^",
                "  7 | <FF>a<82>",
                "    |      ^^^^",
            ],
        ),
        (
            &[
                Part::Text("\u{FEFF}\r"),
                Part::Lost('\u{202E}'),
                Part::Text("\u{1B}[1m"),
            ],
            &[
                "  7 | <U+FEFF><U+000D><U+202E><U+001B>[1m",
                "    |                 ^^^^^^^^",
            ],
        ),
        (
            &[Part::Text("one\n"), Part::Lost('é'), Part::Text("\r")],
            &["  7 | é<U+000D>", "    | ^"],
        ),
        (
            &[
                Part::Text("----------0123456789012345678901234567890123456789abcdefg"),
                Part::Lost('é'),
                Part::Text("0123456789012345678901\r\n"),
            ],
            &[
                "  7 | …-0123456789012345678901234567890123456789abcdefgé0123456789012345678901",
                "    |                                                  ^",
            ],
        ),
        (
            &[
                Part::Lost('é'),
                Part::Text("01234567890123456789012"),
                Part::Text("3"),
            ],
            &["  7 | é01234567890123456789012…", "    | ^"],
        ),
        (
            &[
                Part::Lost('é'),
                Part::Text("01234567890123456789012\r"),
                Part::Text("\n3"),
            ],
            &["  7 | é01234567890123456789012", "    | ^"],
        ),
    ];
    let alloc = rt.alloc();
    for (parts, right) in cases {
        let drawn = drawing(alloc, parts)?;
        let right = joined(alloc, right)?;
        assert_eq!(rt; drawn.as_str(), right.as_str());
    }
    Ok(())
}

#[test]
fn shows_at_most_so_many(rt: HostRuntime) -> Result<(), Fail> {
    let alloc = rt.alloc();
    let parts = [Part::Bytes(b"\xE2\x82"), Part::Lost('日'), Part::Lost('日')];
    let cases = [
        (3, "    |           ^^\n"),
        (2, "\na<U+001B>: 3 places, of which the first 2 are shown\n"),
        (1, "\na<U+001B>: 3 places, of which the first is shown\n"),
        (0, "a<U+001B>: 3 places\n"),
    ];
    for (most, end) in cases {
        let mut report = Report::new(alloc, Vec::new(alloc), "a\u{1B}", Encoding::Big5, most)?;
        tell(&mut report, &parts)?;
        report.finish()?;
        assert_eq!(rt; report.count(), 3);
        let text = text_of(report)?;
        assert!(rt; text.as_str().ends_with(end), "at most {most}");
        let heads = text
            .as_str()
            .lines()
            .filter(|line| line.starts_with("a<U+001B>:7:"));
        assert_eq!(rt; heads.count() as u64, most);
    }
    Ok(())
}

#[test]
fn counts_by_frequency(rt: HostRuntime) -> Result<(), Fail> {
    let alloc = rt.alloc();
    let mut counts = Counts::new(alloc, Encoding::Utf16Le);
    assert!(rt; counts.is_empty());
    let parts = [
        Part::Lost('日'),
        Part::Bytes(b"\xE2\x82"),
        Part::Lost('\u{202E}'),
        Part::Lost('日'),
    ];
    tell(&mut counts, &parts)?;
    let mut written = Vec::new(alloc);
    counts.write(&mut written)?;
    let right = [
        "       2  U+65E5 日 has no bytes in UTF-8",
        "       1  bytes E2 82 in no character of Shift_JIS",
        "       1  U+202E has no bytes in UTF-8",
    ];
    let right = joined(alloc, &right)?;
    assert_eq!(rt; written.as_slice(), right.as_bytes());
    Ok(())
}
