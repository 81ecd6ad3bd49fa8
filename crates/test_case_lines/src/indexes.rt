//! Puts the indexes of a file of cases into tables, as lists, as rows or as texts.

use crate::kinds::kind_of;
use crate::words::{decimal, hexadecimal};
use anyhow::{Context, bail, ensure};
use encoding_index::load;
use encoding_tables::{IndexKind, TableFault, Tables};
use std::alloc::Global;

/// Reads a pointer in decimal digits.
pub fn pointer(word: &str) -> anyhow::Result<u32> {
    u32::try_from(decimal(word)?)
        .ok()
        .context("a pointer is too large")
}

// Adds the rows of a word such as `5287=5341`, `0-127=80` (the entries rise by one), `5-9*0` (one
// entry for all pointers) or `0-98/2*0` (every second pointer).
fn add_rows(word: &str, rows: &mut Vec<(u32, u32)>) -> anyhow::Result<()> {
    let (pointers, entry, rise) = match word.split_once('*') {
        Some((pointers, entry)) => (pointers, entry, 0),
        None => {
            let (pointers, entry) = word.split_once('=').context("an entry has no `=`")?;
            (pointers, entry, 1)
        }
    };
    let (pointers, step) = pointers.split_once('/').unwrap_or((pointers, "1"));
    let (first, last) = pointers.split_once('-').unwrap_or((pointers, pointers));
    let (first, last, step) = (pointer(first)?, pointer(last)?, pointer(step)?.max(1));
    let mut entry = hexadecimal(entry)?;
    for place in first..=last {
        if place.wrapping_sub(first) % step == 0 {
            rows.push((place, entry))?;
            entry = entry.wrapping_add(rise);
        }
    }
    Ok(())
}

/// Returns the rows of words such as `5287=5341 0-127=80`. A pointer is in decimal digits, and a
/// character in hexadecimal ones.
pub fn rows_of(alloc: Global, words: &str) -> anyhow::Result<Vec<(u32, u32)>> {
    let mut rows = Vec::new(alloc);
    for word in words.split_whitespace() {
        add_rows(word, &mut rows)?;
    }
    Ok(rows)
}

// Hands in a list of this size, whose entries are 0 except those of these rows. Returns why the
// list is refused, or `None` if it is not.
pub(crate) fn insert_list(
    alloc: Global,
    tables: &mut Tables,
    kind: IndexKind,
    size: usize,
    rows: &[(u32, u32)],
) -> anyhow::Result<Option<TableFault>> {
    let mut list = std::vec![in alloc; 0; size]?;
    for (pointer, entry) in rows {
        let place = list
            .get_mut(*pointer as usize)
            .context("a pointer is too large")?;
        *place = *entry;
    }
    ensure!(!kind.is_ranges(), "the ranges are no list");
    Ok(tables.insert(kind, list.as_slice()).err())
}

/// Hands in rows. Returns why they are refused, or `None` if they are not.
pub fn insert_rows(
    tables: &mut Tables,
    kind: IndexKind,
    rows: &[(u32, u32)],
) -> anyhow::Result<Option<TableFault>> {
    if kind.is_ranges() {
        return Ok(tables.insert_ranges(rows).err());
    }
    if !rows.windows(2).all(|pair| pair[0].0 < pair[1].0) {
        bail!("pointers do not rise");
    }
    if !rows.iter().all(|row| (row.0 as usize) < kind.size()) {
        bail!("a pointer is too large");
    }
    Ok(tables.insert_rows(kind, rows).err())
}

/// How an index is put into tables.
#[derive(Clone, Copy, PartialEq, Eq)]
pub enum Way {
    List,
    Rows,
    Text,
}

// Returns the index text that has a line for each row of these words.
pub(crate) fn text_of_rows(alloc: Global, words: &str) -> anyhow::Result<Vec<u8>> {
    let mut text = String::new(alloc);
    for (pointer, entry) in rows_of(alloc, words)?.iter() {
        writeln!(text, "{pointer}\t0x{entry:04X}")?;
    }
    Ok(Vec::from_slice(alloc, text.as_bytes())?)
}

/// Puts the index of words such as `jis0208 422=30CF` into tables.
pub fn put_index(alloc: Global, tables: &mut Tables, way: Way, words: &str) -> anyhow::Result<()> {
    let (name, words) = words.split_once(' ').unwrap_or((words, ""));
    let kind = kind_of(name)?;
    let is_put = if way == Way::Text {
        let text = text_of_rows(alloc, words)?;
        load(alloc, tables, kind, text.as_slice()).is_ok()
    } else {
        let rows = rows_of(alloc, words)?;
        let fault = if way == Way::List {
            insert_list(alloc, tables, kind, kind.size(), rows.as_slice())?
        } else {
            insert_rows(tables, kind, rows.as_slice())?
        };
        fault.is_none()
    };
    ensure!(is_put, "an index is refused");
    Ok(())
}
