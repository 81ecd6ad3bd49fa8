//! Calls that read indexes or put them into tables, and what the tables have after them.

use crate::Ended;
use anyhow::bail;
use encoding_index::{IndexFault, IndexFaultKind, LoadFault, load, read_index, read_ranges};
use encoding_tables::{IndexKind, TableFault, Tables};

type Rows = &'static [(u32, u32)];

pub(crate) const RANGES_TEXT: &[u8] =
    b"0\t0x0080\n36\t0x00A5\n38\t0x00A9\n45\t0x00B2\n50\t0x00B8\n81\t0x00D8\n189000\t0x10000\n";

pub(crate) const MACINTOSH_TEXT: &[u8] = b"\
0\t0x00C4
1\t0x00C5
2\t0x00C7
3\t0x00C9
4\t0x00D1
5\t0x00D6
6\t0x00DC
7\t0x00E1
8\t0x00E0
";

// A text for an index of 128 entries, whose first row has a pointer that is not below 128.
pub(crate) const FAULTY_TEXT: &[u8] = b"# faulty\n128\t0x00C4\n";

// A text whose first row has a pointer above the last of the ranges.
pub(crate) const FAULTY_RANGES_TEXT: &[u8] = b"1237576\t0x0080\n";

// A text whose first row has no tab.
pub(crate) const TEXT_WITHOUT_TAB: &[u8] = b"36 0x00A5\n";

// The indexes that are put into tables, as rows and as a text with the same rows.
pub(crate) const INDEXES: &[(IndexKind, Rows, &[u8])] = &[
    (
        IndexKind::Koi8R,
        &[(3, 0x2500), (64, 0x44E), (127, 0x2500)],
        b"3\t0x2500\n64\t0x044E\n127\t0x2500\n",
    ),
    (
        IndexKind::Windows1252,
        &[(0, 0x20AC), (105, 0xE9)],
        b"0\t0x20AC\n105\t0x00E9\n",
    ),
    (
        IndexKind::Gb18030Ranges,
        &[
            (0, 0x80),
            (36, 0xA5),
            (38, 0xA9),
            (45, 0xB2),
            (50, 0xB8),
            (81, 0xD8),
            (189000, 0x10000),
        ],
        RANGES_TEXT,
    ),
    (
        IndexKind::Macintosh,
        &[
            (0, 0xC4),
            (1, 0xC5),
            (2, 0xC7),
            (3, 0xC9),
            (4, 0xD1),
            (5, 0xD6),
            (6, 0xDC),
            (7, 0xE1),
            (8, 0xE0),
        ],
        MACINTOSH_TEXT,
    ),
];

// How an index is put into tables.
#[derive(Clone, Copy)]
pub(crate) enum Way {
    Rows,
    List,
    Text,
}

// Returns the entry at a pointer of a list or of the ranges, if there is one.
fn entry(tables: &Tables, kind: IndexKind, pointer: u32) -> Option<char> {
    if kind == IndexKind::Gb18030Ranges {
        if tables.has(IndexKind::Gb18030Ranges) {
            return tables.range_value(pointer);
        }
    } else if !kind.is_ranges() && tables.has(kind) {
        return tables.value(kind, pointer);
    }
    None
}

// Returns the entry that rows have at a pointer. A row of the ranges reaches to the next row (the
// Encoding Standard, section 5, "index gb18030 ranges code point").
fn entry_of(kind: IndexKind, rows: Rows, pointer: u32) -> Option<char> {
    if kind != IndexKind::Gb18030Ranges {
        let row = rows.iter().find(|row| row.0 == pointer)?;
        return char::from_u32(row.1);
    }
    if pointer == 7457 {
        return Some('\u{E7C7}');
    }
    if pointer > 39419 && pointer < 189000 || pointer > 1237575 {
        return None;
    }
    let row = rows.iter().rev().find(|row| row.0 <= pointer)?;
    char::from_u32(row.1.wrapping_add(pointer.wrapping_sub(row.0)))
}

// Returns whether the entries at the pointers from `from` to below `to` are those of the rows.
fn has_rows(tables: &Tables, kind: IndexKind, rows: Rows, from: u32, to: u32) -> bool {
    for pointer in from..to {
        if entry(tables, kind, pointer) != entry_of(kind, rows, pointer) {
            return false;
        }
    }
    true
}

// Returns whether an index is there with its rows and nothing else. All entries of a list are
// compared. Of the ranges, those of the basic plane and the first ones of the other planes are
// compared.
fn is_as_inserted(tables: &Tables, kind: IndexKind, rows: Rows) -> bool {
    let end = if kind.is_ranges() { 39430 } else { 130 };
    tables.has(kind)
        && has_rows(tables, kind, rows, 0, end)
        && has_rows(tables, kind, rows, 188990, 189010)
}

// Returns whether the tables have exactly those of `INDEXES` that were inserted. They are compared
// entry by entry.
pub(crate) fn are_as_inserted(tables: &Tables, inserted: &[bool; 4]) -> bool {
    for ((kind, rows, _), is_inserted) in INDEXES.iter().zip(inserted) {
        let is_right = if *is_inserted {
            is_as_inserted(tables, *kind, rows)
        } else {
            !tables.has(*kind)
        };
        if !is_right {
            return false;
        }
    }
    true
}

// Inserts rows. If they are rows that may not be handed in, returns a fault of the size.
fn insert_rows(tables: &mut Tables, kind: IndexKind, rows: Rows) -> Result<(), TableFault> {
    if kind.is_ranges() {
        return tables.insert_ranges(rows);
    }
    if !rows.windows(2).all(|pair| pair[0].0 < pair[1].0) {
        return Err(TableFault::Size);
    }
    if !rows.iter().all(|row| (row.0 as usize) < kind.size()) {
        return Err(TableFault::Size);
    }
    tables.insert_rows(kind, rows)
}

// Inserts the list of 128 entries that rows stand for.
fn insert_list(tables: &mut Tables, kind: IndexKind, rows: Rows) -> Result<(), TableFault> {
    let mut list = [0; 128];
    for (pointer, entry) in rows {
        if let Some(place) = list.get_mut(*pointer as usize) {
            *place = *entry;
        }
    }
    if kind.is_ranges() {
        return Err(TableFault::Size);
    }
    tables.insert(kind, &list)
}

// Returns whether memory was refused to the reader of a text. The fault then names no line.
fn is_memory(fault: &IndexFault) -> bool {
    fault.kind == IndexFaultKind::Memory && fault.line == 0
}

// Returns how an insertion ended.
fn ended_of(inserted: Result<(), TableFault>) -> anyhow::Result<Ended> {
    match inserted {
        Ok(()) => Ok(Ended::Well),
        Err(TableFault::Memory) => Ok(Ended::Refused),
        Err(fault) => bail!("another fault: {fault}"),
    }
}

// Returns how a load ended. Memory that is refused to the tables is distinguished from memory that
// is refused to the reader of the text.
fn ended_of_load(loaded: Result<(), LoadFault>) -> anyhow::Result<Ended> {
    match loaded {
        Ok(()) => Ok(Ended::Well),
        Err(LoadFault::Text(fault)) if is_memory(&fault) => Ok(Ended::Refused),
        Err(LoadFault::Text(fault)) => bail!("another fault: {fault}"),
        Err(LoadFault::Table(TableFault::Memory)) => Ok(Ended::RefusedToTables),
        Err(LoadFault::Table(fault)) => bail!("another fault: {fault}"),
    }
}

// Loads a text that has a fault, and prints the fault.
pub(crate) fn load_faulty(
    rt: HostRuntime,
    tables: &mut Tables,
    kind: IndexKind,
    text: &[u8],
) -> anyhow::Result<Ended> {
    match load(rt.alloc(), tables, kind, text) {
        Ok(()) => bail!("a faulty text is loaded"),
        Err(LoadFault::Text(fault)) if !is_memory(&fault) => {
            print!(rt; " {fault}")?;
            Ok(Ended::Well)
        }
        Err(fault) => ended_of_load(Err(fault)),
    }
}

// Puts an index into the tables, and prints its entries at the pointers of its rows.
pub(crate) fn insert_index(
    rt: HostRuntime,
    tables: &mut Tables,
    offset: usize,
    way: Way,
) -> anyhow::Result<Ended> {
    let Some((kind, rows, text)) = INDEXES.get(offset) else {
        bail!("no such index");
    };
    let ended = match way {
        Way::Rows => ended_of(insert_rows(tables, *kind, rows))?,
        Way::List => ended_of(insert_list(tables, *kind, rows))?,
        Way::Text => ended_of_load(load(rt.alloc(), tables, *kind, text))?,
    };
    if let Ended::Well = ended {
        for (pointer, _) in *rows {
            if let Some(c) = entry(tables, *kind, *pointer) {
                print!(rt; " {pointer}={:X}", u32::from(c))?;
            }
        }
    }
    Ok(ended)
}

// Reads the text of an index of 128 entries, and prints the entries that are mapped, or the fault.
pub(crate) fn print_list(rt: HostRuntime, text: &[u8]) -> anyhow::Result<Ended> {
    let list = match read_index(rt.alloc(), IndexKind::Macintosh, text) {
        Ok(list) => list,
        Err(fault) if is_memory(&fault) => return Ok(Ended::Refused),
        Err(fault) => {
            print!(rt; " {fault}")?;
            return Ok(Ended::Well);
        }
    };
    for (pointer, entry) in list.iter().enumerate() {
        if *entry != 0 {
            print!(rt; " {pointer}={entry:X}")?;
        }
    }
    print!(rt; " of {}", list.len())?;
    Ok(Ended::Well)
}

// Reads the text of ranges, and prints the rows, or the fault.
pub(crate) fn print_ranges(rt: HostRuntime, text: &[u8]) -> anyhow::Result<Ended> {
    let rows = match read_ranges(rt.alloc(), text) {
        Ok(rows) => rows,
        Err(fault) if is_memory(&fault) => return Ok(Ended::Refused),
        Err(fault) => {
            print!(rt; " {fault}")?;
            return Ok(Ended::Well);
        }
    };
    for (pointer, code) in rows.iter() {
        print!(rt; " {pointer}={code:X}")?;
    }
    print!(rt; " of {}", rows.len())?;
    Ok(Ended::Well)
}
