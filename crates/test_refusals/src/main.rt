//! Makes each call of the libraries of encodings that takes memory, and prints what comes of it. If
//! memory is refused, the call is made again. `make test` runs this program with each request for
//! memory refused in turn, and with all of them refused (`tools/gate/refused_memory.py`).
#![tactic(auto)]

mod indexes;
mod texts;

use crate::indexes::{
    FAULTY_RANGES_TEXT, FAULTY_TEXT, MACINTOSH_TEXT, RANGES_TEXT, TEXT_WITHOUT_TAB, Way,
    are_as_inserted, insert_index, load_faulty, print_list, print_ranges,
};
use crate::texts::{Marks, print_decoded, print_encoded, print_latin1_bytes, print_latin1_text};
use anyhow::bail;
use encoding_front::{Encoding, UTF_8, WINDOWS_1252};
use encoding_tables::{IndexKind, Tables};

// How a call ended.
#[derive(Clone, Copy)]
enum Ended {
    // With a result, which is printed.
    Well,
    // Memory was refused.
    Refused,
    // Memory was refused to the tables into which a text was loaded.
    RefusedToTables,
    // An index that the call needs is not in the tables, so the call was not made.
    NoIndex,
}

impl Ended {
    // Returns what is printed if memory was refused, or `None` if it was not.
    fn refusal(self) -> Option<&'static str> {
        match self {
            Ended::Refused => Some(" refused"),
            Ended::RefusedToTables => Some(" refused to the tables"),
            Ended::Well | Ended::NoIndex => None,
        }
    }
}

// A call, and what it is given.
#[derive(Clone, Copy)]
enum Call {
    // Puts the index with this offset in `INDEXES` into the tables.
    Insert(usize, Way),
    // Loads a text that has a fault.
    LoadFaulty(IndexKind, &'static [u8]),
    ReadIndex(&'static [u8]),
    ReadRanges(&'static [u8]),
    DecodeLatin1(&'static [u8]),
    EncodeLatin1(&'static str),
    Encode(Encoding),
    Decode(Encoding, Marks, &'static [u8]),
}

// Calls on the same tables. Each call finds there the indexes that the calls before it inserted.
type Round = &'static [(&'static str, Call)];

// U+FEFF and then `café`, in UTF-8.
const MARKED: &[u8] = b"\xEF\xBB\xBFcaf\xC3\xA9";

const LISTS: Round = &[
    ("insert_rows", Call::Insert(0, Way::Rows)),
    ("insert", Call::Insert(1, Way::List)),
    ("insert_ranges", Call::Insert(2, Way::Rows)),
    ("insert_rows beside others", Call::Insert(3, Way::Rows)),
    ("read_index", Call::ReadIndex(MACINTOSH_TEXT)),
    ("read_index of a faulty text", Call::ReadIndex(FAULTY_TEXT)),
    ("read_ranges", Call::ReadRanges(RANGES_TEXT)),
    ("read_ranges of no rows", Call::ReadRanges(b"# none\n")),
    (
        "read_ranges of a faulty pointer",
        Call::ReadRanges(FAULTY_RANGES_TEXT),
    ),
    (
        "read_ranges of a faulty row",
        Call::ReadRanges(TEXT_WITHOUT_TAB),
    ),
    ("decode_latin1", Call::DecodeLatin1(b"caf\xE9")),
    ("decode_latin1 of ASCII", Call::DecodeLatin1(b"cafe")),
    ("encode_latin1_lossy", Call::EncodeLatin1("caf\u{E9}")),
    ("encode_latin1_lossy of ASCII", Call::EncodeLatin1("cafe")),
    ("encode", Call::Encode(WINDOWS_1252)),
    ("encode to UTF-8", Call::Encode(UTF_8)),
    ("decode", Call::Decode(UTF_8, Marks::Sniffed, MARKED)),
    (
        "decode of windows-1252",
        Call::Decode(WINDOWS_1252, Marks::Kept, b"caf\xE9\x80\xFF"),
    ),
    (
        "decode_with_bom_removal",
        Call::Decode(UTF_8, Marks::Removed, MARKED),
    ),
    (
        "decode_without_bom_handling",
        Call::Decode(UTF_8, Marks::Kept, MARKED),
    ),
    (
        "decode_without_bom_handling_and_without_replacement",
        Call::Decode(UTF_8, Marks::KeptInWellFormedText, MARKED),
    ),
];

const TEXTS: Round = &[
    (
        "load of a faulty pointer",
        Call::LoadFaulty(IndexKind::Macintosh, FAULTY_TEXT),
    ),
    (
        "load of a faulty row",
        Call::LoadFaulty(IndexKind::Macintosh, TEXT_WITHOUT_TAB),
    ),
    (
        "load of ranges with a faulty pointer",
        Call::LoadFaulty(IndexKind::Gb18030Ranges, FAULTY_RANGES_TEXT),
    ),
    (
        "load of ranges with a faulty row",
        Call::LoadFaulty(IndexKind::Gb18030Ranges, TEXT_WITHOUT_TAB),
    ),
    ("load", Call::Insert(3, Way::Text)),
    ("load of ranges", Call::Insert(2, Way::Text)),
    ("load beside others", Call::Insert(1, Way::Text)),
    ("encode by what was loaded", Call::Encode(WINDOWS_1252)),
];

impl Call {
    // Makes the call, and prints its result.
    fn make(self, rt: HostRuntime, tables: &mut Tables) -> anyhow::Result<Ended> {
        match self {
            Call::Insert(offset, way) => insert_index(rt, tables, offset, way),
            Call::LoadFaulty(kind, text) => load_faulty(rt, tables, kind, text),
            Call::ReadIndex(text) => print_list(rt, text),
            Call::ReadRanges(text) => print_ranges(rt, text),
            Call::DecodeLatin1(bytes) => print_latin1_text(rt, bytes),
            Call::EncodeLatin1(text) => print_latin1_bytes(rt, text),
            Call::Encode(encoding) => print_encoded(rt, tables, encoding),
            Call::Decode(encoding, marks, bytes) => {
                print_decoded(rt, tables, encoding, marks, bytes)
            }
        }
    }
}

// Which of `INDEXES` are in the tables.
type Inserted = [bool; 4];

// Notes what a call has put into the tables. Fails if the tables do not have exactly what was
// inserted.
fn look(tables: &Tables, inserted: &mut Inserted, call: Call, ended: Ended) -> anyhow::Result<()> {
    if let (Call::Insert(offset, _), Ended::Well) = (call, ended) {
        if let Some(place) = inserted.get_mut(offset) {
            *place = true;
        }
    }
    if are_as_inserted(tables, inserted) {
        Ok(())
    } else {
        bail!("the tables have something else than was inserted")
    }
}

// Makes the calls of a round, and prints their results. A call that is refused memory is made once
// more.
fn make(rt: HostRuntime, round: Round) -> anyhow::Result<()> {
    let mut tables = Tables::new(rt.alloc());
    let mut inserted = [false; 4];
    for (name, call) in round {
        print!(rt; "{name}:")?;
        let mut ended = call.make(rt, &mut tables)?;
        look(&tables, &mut inserted, *call, ended)?;
        if let Some(refusal) = ended.refusal() {
            print!(rt; "{refusal}, then")?;
            ended = call.make(rt, &mut tables)?;
            look(&tables, &mut inserted, *call, ended)?;
        }
        match (ended, ended.refusal()) {
            (_, Some(refusal)) => println!(rt; "{refusal}")?,
            (Ended::NoIndex, _) => println!(rt; " no index")?,
            _ => println!(rt; "")?,
        }
    }
    Ok(())
}

fn main(rt: HostRuntime) -> anyhow::Result<()> {
    make(rt, LISTS)?;
    make(rt, TEXTS)
}
