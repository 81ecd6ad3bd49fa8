//! The places of what a log names, and of what a target would lose.

use encoding_front::{Encoding, Mark};
use encoding_tables::{IndexKind, Tables};
use recode_places::{
    Choice, Entry, Fate, Fates, Finding, LogMatch, Place, Reading, Refusal, Stop, Visitor,
    tell_places,
};
use std::alloc::Global;
use std::io;
use std::io::{ErrorKind, Read};
use std::test::Fail;

// This is `one`, a line feed, `t`, a byte that is malformed in UTF-8, `o` and a Greek letter.
const INPUT: &[u8] = b"one\nt\xFFo\xCE\xA9";

// A reader of one byte at a time.
#[derive(Drop)]
struct Single<'a> {
    rest: &'a [u8],
}

impl<'a> Read for Single<'a> {
    fn read(&mut self, buf: &mut [u8]) -> io::Result<usize> {
        let len = buf.len().min(1);
        self.rest.read(&mut buf[..len])
    }
}

// Returns the entries for an input in UTF-8 that a log names.
fn told_of_reads<R: Read>(alloc: Global, reader: &mut R, log: &[u8]) -> Result<Vec<Entry>, Stop> {
    let tables = Tables::new(alloc);
    let reading = Reading {
        from: Encoding::Utf8,
        mark: Mark::Sniff,
        tables: &tables,
    };
    let mut entries = Vec::new(alloc);
    if !reading.from.is_ready(&tables) {
        return Err(Stop::Input);
    }
    let mut choice = Choice::of_log(LogMatch::new(log)?);
    tell_places(reader, reading, &mut choice, &mut entries)?;
    Ok(entries)
}

// The same, if reads of single bytes give the same answer. Otherwise returns `TooLong`.
fn told_by_log(alloc: Global, input: &[u8], log: &[u8]) -> Result<Vec<Entry>, Stop> {
    let mut whole = input;
    let mut single = Single { rest: input };
    let entries = told_of_reads(alloc, &mut whole, log);
    let again = told_of_reads(alloc, &mut single, log);
    let is_same = match &entries {
        Ok(entries) => match &again {
            Ok(again) => entries.as_slice() == again.as_slice(),
            Err(_) => false,
        },
        Err(stop) => match &again {
            Ok(_) => false,
            Err(again) => *stop == *again,
        },
    };
    if is_same { entries } else { Err(Stop::TooLong) }
}

// Returns how many entries there are for an input in UTF-8 and a log, or why the search for places
// stopped.
fn count_told(alloc: Global, input: &[u8], log: &[u8]) -> Result<usize, Stop> {
    let entries = told_by_log(alloc, input, log)?;
    Ok(entries.len())
}

fn is_at(entry: &Entry, index: u64, line: u64, column: u64) -> bool {
    entry.place.index == index && entry.place.line == line && entry.place.column == column
}

#[test]
fn a_line_ends_with_a_line_feed_alone(rt: HostRuntime) -> Result<(), Fail> {
    let mut place = Place::first();
    place.pass_text("a\r\nb\u{2028}c");
    assert_eq!(rt; place.index, 6);
    assert_eq!(rt; place.line, 2);
    assert_eq!(rt; place.column, 4);
    place.pass('\n');
    assert_eq!(rt; place.line, 3);
    assert_eq!(rt; place.column, 1);
    Ok(())
}

#[test]
fn both_lines_of_a_malformed_sequence_are_one_entry(rt: HostRuntime) -> Result<(), Fail> {
    let bad = Finding::Malformed {
        offset: 5,
        length: 1,
    };
    let entries = told_by_log(rt.alloc(), INPUT, b"bad 5 1\nlost 5 65533\nlost 7 937\n")?;
    assert_eq!(rt; entries.len(), 2);
    assert_eq!(rt; is_at(&entries[0], 5, 2, 2), true);
    assert_eq!(rt; entries[0].finding, bad);
    assert_eq!(rt; is_at(&entries[1], 7, 2, 4), true);
    assert_eq!(rt; entries[1].finding, Finding::Lost { scalar: '\u{3A9}' });
    let entries = told_by_log(rt.alloc(), INPUT, b"lost 5 65533\n")?;
    assert_eq!(rt; entries.len(), 1);
    assert_eq!(rt; is_at(&entries[0], 5, 2, 2), true);
    assert_eq!(rt; entries[0].finding, bad);
    Ok(())
}

#[test]
fn a_log_ends_at_a_cut_line_and_at_a_message(rt: HostRuntime) -> Result<(), Fail> {
    let alloc = rt.alloc();
    assert_eq!(rt; count_told(alloc, INPUT, b""), Ok(0));
    assert_eq!(rt; count_told(alloc, INPUT, b"lost 7 937\n"), Ok(1));
    assert_eq!(rt; count_told(alloc, INPUT, b"bad 5 1\nlost 7 93"), Ok(1));
    assert_eq!(rt;
        count_told(alloc, INPUT, b"bad 5 1\nrecode: write fault\nx\n"),
        Ok(1)
    );
    Ok(())
}

#[test]
fn a_line_of_another_input_is_refused(rt: HostRuntime) -> Result<(), Fail> {
    let alloc = rt.alloc();
    let first: Result<usize, Stop> = Err(Stop::Unfit { line: 1 });
    let second: Result<usize, Stop> = Err(Stop::Unfit { line: 2 });
    assert_eq!(rt; count_told(alloc, INPUT, b"bad 4 1\n"), first);
    assert_eq!(rt; count_told(alloc, INPUT, b"bad 5 2\n"), first);
    assert_eq!(rt; count_told(alloc, INPUT, b"lost 0 98\n"), first);
    assert_eq!(rt; count_told(alloc, INPUT, b"lost 8 937\n"), first);
    assert_eq!(rt; count_told(alloc, INPUT, b"bad 9 1\n"), first);
    assert_eq!(rt; count_told(alloc, INPUT, b"lost 7 937 \n"), first);
    assert_eq!(rt; count_told(alloc, INPUT, b"lost 7 937\nbad 5 1\n"), second);
    assert_eq!(rt;
        count_told(alloc, INPUT, b"lost 7 937\nlost 7 937\n"),
        second
    );
    assert_eq!(rt; count_told(alloc, INPUT, b"bad 5 1\nlost 5 63\n"), second);
    Ok(())
}

#[test]
fn a_refused_control_has_the_number_of_the_replacement(rt: HostRuntime) -> Result<(), Fail> {
    let entries = told_by_log(rt.alloc(), b"a\x1Bb", b"lost 1 65533\n")?;
    assert_eq!(rt; entries.len(), 1);
    assert_eq!(rt; is_at(&entries[0], 1, 1, 2), true);
    assert_eq!(rt; entries[0].finding, Finding::Lost { scalar: '\u{1B}' });
    let refused: Result<usize, Stop> = Err(Stop::Unfit { line: 1 });
    assert_eq!(rt;
        count_told(rt.alloc(), b"a\x1Bb", b"lost 0 65533\n"),
        refused
    );
    Ok(())
}

#[test]
fn places_go_on_over_reads(rt: HostRuntime) -> Result<(), Fail> {
    let mut input = Vec::new(rt.alloc());
    for _ in 0..9000 {
        input.push(b'a')?;
    }
    input.extend_from_slice(b"\nb\xE6\x97")?;
    let entries = told_by_log(rt.alloc(), input.as_slice(), b"lost 9001 98\nbad 9002 2\n")?;
    assert_eq!(rt; entries.len(), 2);
    assert_eq!(rt; is_at(&entries[0], 9001, 2, 1), true);
    assert_eq!(rt; is_at(&entries[1], 9002, 2, 2), true);
    Ok(())
}

#[test]
fn without_a_log_what_a_target_loses_is_told(rt: HostRuntime) -> Result<(), Fail> {
    let tables = Tables::new(rt.alloc());
    let reading = Reading {
        from: Encoding::Utf8,
        mark: Mark::Sniff,
        tables: &tables,
    };
    let to = Encoding::XUserDefined;
    assert!(rt; reading.from.is_ready(&tables));
    assert!(rt; to.output_encoding().is_ready(&tables));
    let mut fates = Fates::new(to, &tables);
    assert_eq!(rt; fates.of('a'), Fate::Kept);
    assert_eq!(rt; fates.of('\u{F780}'), Fate::Kept);
    assert_eq!(rt; fates.of('\u{3A9}'), Fate::Lost);
    assert_eq!(rt; fates.of('a'), Fate::Kept);
    assert_eq!(rt; fates.keeps("ab"), true);
    assert_eq!(rt; fates.keeps("\u{F780}"), false);
    let mut choice: Choice<'_, &[u8]> = Choice::of_target(fates, true);
    let mut reader = INPUT;
    let mut entries = Vec::new(rt.alloc());
    tell_places(&mut reader, reading, &mut choice, &mut entries)?;
    assert_eq!(rt; entries.len(), 2);
    assert_eq!(rt; is_at(&entries[0], 5, 2, 2), true);
    assert_eq!(rt; is_at(&entries[1], 7, 2, 4), true);
    assert_eq!(rt; entries[1].finding, Finding::Lost { scalar: '\u{3A9}' });
    Ok(())
}

// Returns the entries for the text `a`, a yen sign, a kanji, by this choice.
fn told_of_three(
    alloc: Global,
    tables: &Tables,
    mut choice: Choice<'_, &[u8]>,
) -> Result<Vec<Entry>, Stop> {
    let reading = Reading {
        from: Encoding::Utf8,
        mark: Mark::Sniff,
        tables,
    };
    let mut reader = "a\u{A5}\u{65E5}".as_bytes();
    let mut entries = Vec::new(alloc);
    if !reading.from.is_ready(tables) {
        return Err(Stop::Input);
    }
    tell_places(&mut reader, reading, &mut choice, &mut entries)?;
    Ok(entries)
}

// Shift_JIS writes the yen sign as 5C, which is read as a backslash, and the overline as 7E, which
// is read as a tilde. The index has no entry here, so the kanji is lost.
#[test]
fn what_a_target_writes_as_another_is_told_if_it_is_asked(rt: HostRuntime) -> Result<(), Fail> {
    let mut tables = Tables::new(rt.alloc());
    let _ = tables.insert_rows(IndexKind::Jis0208, &[]);
    let to = Encoding::ShiftJis;
    assert!(rt; to.output_encoding().is_ready(&tables));
    let mut fates = Fates::new(to, &tables);
    assert_eq!(rt; fates.of('a'), Fate::Kept);
    assert_eq!(rt; fates.of('\u{A5}'), Fate::Folded(Some('\\')));
    assert_eq!(rt; fates.of('\u{203E}'), Fate::Folded(Some('~')));
    assert_eq!(rt; fates.of('\u{65E5}'), Fate::Lost);
    assert_eq!(rt; fates.of('\u{FF71}'), Fate::Kept);
    let folded = Finding::Folded {
        scalar: '\u{A5}',
        becomes: Some('\\'),
    };
    let lost = Finding::Lost { scalar: '\u{65E5}' };
    let all = told_of_three(rt.alloc(), &tables, Choice::of_target(fates, true))?;
    assert_eq!(rt; all.len(), 2);
    assert_eq!(rt; all[0].finding, folded);
    assert_eq!(rt; all[1].finding, lost);
    let fates = Fates::new(to, &tables);
    let some = told_of_three(rt.alloc(), &tables, Choice::of_target(fates, false))?;
    assert_eq!(rt; some.len(), 1);
    assert_eq!(rt; some[0].finding, lost);
    let fates = Fates::new(to, &tables);
    let log = LogMatch::new(b"".as_slice())?;
    let others = told_of_three(rt.alloc(), &tables, Choice::of_log_with_folds(log, fates))?;
    assert_eq!(rt; others.len(), 1);
    assert_eq!(rt; others[0].finding, folded);
    Ok(())
}

// A reader that fails at each read.
#[derive(Drop)]
struct Failing;

impl Read for Failing {
    fn read(&mut self, _buf: &mut [u8]) -> io::Result<usize> {
        Err(io::Error::from(ErrorKind::BrokenPipe))
    }
}

#[test]
fn a_read_that_fails_is_told(rt: HostRuntime) -> Result<(), Fail> {
    let tables = Tables::new(rt.alloc());
    let reading = Reading {
        from: Encoding::Utf8,
        mark: Mark::Sniff,
        tables: &tables,
    };
    assert!(rt; reading.from.is_ready(&tables));
    let mut entries: Vec<Entry> = Vec::new(rt.alloc());
    let mut choice = Choice::of_log(LogMatch::new(b"".as_slice())?);
    assert_eq!(rt;
        tell_places(&mut Failing, reading, &mut choice, &mut entries),
        Err(Stop::Input)
    );
    let Err(stop) = LogMatch::new(Failing) else {
        panic!(rt; "a log was read that can't be read");
    };
    assert_eq!(rt; stop, Stop::Log);
    Ok(())
}

// The calls of a visitor.
#[derive(Clone, Copy, PartialEq, Eq, Debug)]
enum Call {
    Characters,
    Malformed,
    Entry,
}

// A visitor that refuses one kind of call, and counts the entries.
#[derive(Drop)]
struct Refusing {
    call: Call,
    refusal: Refusal,
    entries: u64,
}

impl Refusing {
    fn answer(&self, call: Call) -> Result<(), Refusal> {
        if call == self.call {
            return Err(self.refusal);
        }
        Ok(())
    }
}

impl Visitor for Refusing {
    ghost use Rattle.std.specs.Prelude.{None};

    ghost told = { λ _. None };

    fn characters(&mut self, _text: &str) -> Result<(), Refusal> {
        self.answer(Call::Characters)
    }

    fn malformed(&mut self, _bytes: &[u8], _encoding: Encoding) -> Result<(), Refusal> {
        self.answer(Call::Malformed)
    }

    fn entry(&mut self, _entry: Entry) -> Result<(), Refusal> {
        self.entries = self.entries.saturating_add(1);
        self.answer(Call::Entry)
    }
}

// The entry of a character, or of malformed bytes, comes before them. Nothing comes after a call
// that is refused. x-user-defined has no byte for U+00E9.
#[test]
fn a_visitor_that_refuses_ends_the_search(rt: HostRuntime) {
    let tables = Tables::new(rt.alloc());
    let reading = Reading {
        from: Encoding::Utf8,
        mark: Mark::Keep,
        tables: &tables,
    };
    let to = Encoding::XUserDefined;
    let rows = [
        (b"a\xC3\xA9".as_slice(), Call::Characters, 0),
        (b"\xC3\xA9a", Call::Characters, 1),
        (b"\xFF\xFE", Call::Malformed, 1),
        (b"\xC3\xA9\xFF", Call::Malformed, 2),
        (b"\xC3\xA9\xFF", Call::Entry, 1),
    ];
    for (input, call, entries) in rows {
        for refusal in [Refusal::Write, Refusal::Memory] {
            let mut reader = input;
            let mut visitor = Refusing {
                call,
                refusal,
                entries: 0,
            };
            assert!(rt; reading.from.is_ready(&tables));
            assert!(rt; to.output_encoding().is_ready(&tables));
            let fates = Fates::new(to, &tables);
            let mut choice: Choice<'_, &[u8]> = Choice::of_target(fates, true);
            let answer = tell_places(&mut reader, reading, &mut choice, &mut visitor);
            assert_eq!(rt; answer, Err(Stop::from(refusal)), "{input:?} {call:?}");
            assert_eq!(rt; visitor.entries, entries, "{input:?} {call:?}");
        }
    }
}
