//! Hands in indexes, and checks which ones are there afterwards.

use crate::faults::fault_of;
use crate::indexes::{insert_list, insert_rows, rows_of};
use crate::kinds::{KINDS, kind_of};
use crate::report::Report;
use crate::texts::text_of;
use crate::words::{decimal, first_word, halves};
use anyhow::bail;
use encoding_index::{LoadFault, load};
use encoding_tables::{IndexKind, TableFault, Tables};
use std::alloc::{AllocError, Global};

// Adds the characters of an index, if it is there. Of the ranges, those at pointers below 39420 are
// added.
fn add_characters(
    tables: &Tables,
    kind: IndexKind,
    characters: &mut Vec<Option<char>>,
) -> Result<(), AllocError> {
    if kind.is_ranges() {
        if tables.has(IndexKind::Gb18030Ranges) {
            for pointer in 0..39420 {
                characters.push(tables.range_value(pointer))?;
            }
        }
    } else if tables.has(kind) {
        for pointer in 0..kind.size() as u32 {
            characters.push(tables.value(kind, pointer))?;
        }
    }
    Ok(())
}

// Returns the characters of all indexes that are there.
fn contents(alloc: Global, tables: &Tables) -> Result<Vec<Option<char>>, AllocError> {
    let mut characters = Vec::new(alloc);
    for (_, kind) in KINDS.iter() {
        add_characters(tables, *kind, &mut characters)?;
    }
    Ok(characters)
}

fn of_table(fault: Option<TableFault>) -> Option<LoadFault> {
    match fault {
        None => None,
        Some(fault) => Some(LoadFault::Table(fault)),
    }
}

// Hands in an index by words such as `list 128 5=80`, `rows 5=80` and `text 5\t0x0080`. Returns why
// the index is refused, or `None` if it is not.
fn hand_in(
    alloc: Global,
    tables: &mut Tables,
    kind: IndexKind,
    words: &str,
) -> anyhow::Result<Option<LoadFault>> {
    let (form, rest) = first_word(words);
    match form {
        "list" => {
            let (size, rest) = first_word(rest);
            let rows = rows_of(alloc, rest)?;
            let fault = insert_list(alloc, tables, kind, decimal(size)?, rows.as_slice())?;
            Ok(of_table(fault))
        }
        "rows" => {
            let rows = rows_of(alloc, rest)?;
            Ok(of_table(insert_rows(tables, kind, rows.as_slice())?))
        }
        "text" | "text-of" => {
            let text = text_of(alloc, words)?;
            Ok(load(alloc, tables, kind, text.as_slice()).err())
        }
        _ => bail!("a way to hand an index in is not known"),
    }
}

// Checks words such as `big5 rows 942=2008A -> ok`. If the index is refused, no index may change.
pub(crate) fn check_insertion(
    rt: &(impl Print + AllocGlobal),
    tables: &mut Tables,
    words: &str,
    report: &mut Report,
) -> anyhow::Result<()> {
    report.count_conversion();
    let (call, told) = halves(words)?;
    let expected = fault_of(told)?;
    let (name, call) = first_word(call);
    let kind = kind_of(name)?;
    let was_there = tables.has(kind);
    let before = contents(rt.alloc(), tables)?;
    let fault = hand_in(rt.alloc(), tables, kind, call)?;
    let is_there = was_there || fault.is_none();
    report.compare(rt, "the fault", &fault, &expected)?;
    report.compare(rt, "the index is there", &tables.has(kind), &is_there)?;
    if fault.is_some() && contents(rt.alloc(), tables)?.as_slice() != before.as_slice() {
        report.differs(rt, "an index changes though one is refused")?;
    }
    Ok(())
}
