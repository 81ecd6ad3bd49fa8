//! Look-ups in the indexes that are there. Each is made twice: by `Tables`, and by the view of one
//! index that `Tables` lends.

use crate::indexes::{pointer, rows_of};
use crate::kinds::kind_of;
use crate::report::Report;
use crate::words::{first_word, halves, hexadecimal, scalar};
use anyhow::{Context, ensure};
use encoding_tables::laws::search;
use encoding_tables::{IndexKind, Tables};

// Returns the character at a pointer, looked up by the tables and by the view that they lend.
// Returns `None` if the two differ, or if the index is not there.
fn value(tables: &Tables, kind: IndexKind, pointer: u32) -> Option<Option<char>> {
    if kind.is_ranges() {
        if !tables.has(IndexKind::Gb18030Ranges) {
            return None;
        }
        let found = tables.range_value(pointer);
        return if tables.ranges().value(pointer) == found {
            Some(found)
        } else {
            None
        };
    }
    if !tables.has(kind) {
        return None;
    }
    let found = tables.value(kind, pointer);
    if tables.flat(kind).value(pointer) == found {
        Some(found)
    } else {
        None
    }
}

// Returns the pointer of a character in the ranges, looked up in both ways. Returns `None` if the
// two differ, or if the ranges are not there.
fn range_pointer(tables: &Tables, c: char) -> Option<Option<u32>> {
    if !tables.has(IndexKind::Gb18030Ranges) {
        return None;
    }
    let found = tables.range_pointer(c);
    if tables.ranges().pointer(c) == found {
        Some(found)
    } else {
        None
    }
}

// Returns the first or the last pointer of a character from `from` to below `to`, looked up in both
// ways. Returns `None` if the two differ, or if no list of this kind is there.
fn pointer_in(
    tables: &Tables,
    kind: IndexKind,
    is_first: bool,
    c: char,
    from: u32,
    to: u32,
) -> Option<Option<u32>> {
    if kind.is_ranges() || !tables.has(kind) {
        return None;
    }
    let (found, lent) = if is_first {
        (
            tables.first_pointer(kind, c, from, to),
            tables.flat(kind).first_pointer(c, from, to),
        )
    } else {
        (
            tables.last_pointer(kind, c, from, to),
            tables.flat(kind).last_pointer(c, from, to),
        )
    };
    if lent == found { Some(found) } else { None }
}

// Checks words such as `big5 5287=5341 0-127=80`: these characters stand at these pointers.
pub(crate) fn check_values(
    rt: &(impl Print + AllocGlobal),
    tables: &Tables,
    words: &str,
    report: &mut Report,
) -> anyhow::Result<()> {
    let (name, words) = first_word(words);
    let kind = kind_of(name)?;
    for (pointer, entry) in rows_of(rt.alloc(), words)?.iter() {
        report.count_conversion();
        let found = value(tables, kind, *pointer);
        report.compare_by(
            rt,
            pointer,
            "its entry",
            &found,
            &Some(char::from_u32(*entry)),
        )?;
    }
    Ok(())
}

// Checks words such as `big5 5286 6000-6009`: nothing stands at these pointers.
pub(crate) fn check_gaps(
    rt: &(impl Print + AllocGlobal),
    tables: &Tables,
    words: &str,
    report: &mut Report,
) -> anyhow::Result<()> {
    let (name, words) = first_word(words);
    let kind = kind_of(name)?;
    for word in words.split_whitespace() {
        let (first, last) = word.split_once('-').unwrap_or((word, word));
        for pointer in pointer(first)?..=pointer(last)? {
            report.count_conversion();
            let found = value(tables, kind, pointer);
            report.compare_by(rt, &pointer, "its entry", &found, &Some(None))?;
        }
    }
    Ok(())
}

// Checks words such as `7457=E7C7`: the ranges return this pointer for this character.
pub(crate) fn check_range_pointers(
    rt: &(impl Print + AllocGlobal),
    tables: &Tables,
    words: &str,
    report: &mut Report,
) -> anyhow::Result<()> {
    for (pointer, entry) in rows_of(rt.alloc(), words)?.iter() {
        report.count_conversion();
        let c = char::from_u32(*entry).context("a number is not a character's")?;
        let found = range_pointer(tables, c);
        report.compare_by(rt, &c, "its pointer", &found, &Some(Some(*pointer)))?;
    }
    Ok(())
}

// Checks words such as `1E3F 80`: these characters have no pointer in the ranges.
pub(crate) fn check_unmapped(
    rt: &(impl Print + AllocGlobal),
    tables: &Tables,
    words: &str,
    report: &mut Report,
) -> anyhow::Result<()> {
    for word in words.split_whitespace() {
        report.count_conversion();
        let c = scalar(word)?;
        report.compare_by(
            rt,
            &c,
            "its pointer",
            &range_pointer(tables, c),
            &Some(None),
        )?;
    }
    Ok(())
}

// Checks words such as `big5 5341 0 19782 -> 3` or `-> none`: the first or the last pointer of a
// character that is not below the first number and is below the second.
pub(crate) fn check_pointer(
    rt: &(impl Print + AllocGlobal),
    tables: &Tables,
    is_first: bool,
    words: &str,
    report: &mut Report,
) -> anyhow::Result<()> {
    report.count_conversion();
    let (call, told) = halves(words)?;
    let mut words = call.split_whitespace();
    let kind = kind_of(words.next().unwrap_or(""))?;
    let c = scalar(words.next().unwrap_or(""))?;
    let from = pointer(words.next().unwrap_or(""))?;
    let to = pointer(words.next().unwrap_or(""))?;
    ensure!(words.next().is_none(), "a word behind the pointers");
    let expected = if told == "none" {
        None
    } else {
        Some(pointer(told)?)
    };
    let found = pointer_in(tables, kind, is_first, c, from, to);
    report.compare(rt, "the pointer", &found, &Some(expected))
}

// Checks words such as `big5 no`: whether an index is there.
pub(crate) fn check_presence(
    rt: &(impl Print + AllocGlobal),
    tables: &Tables,
    words: &str,
    report: &mut Report,
) -> anyhow::Result<()> {
    report.count_conversion();
    let (name, told) = first_word(words);
    ensure!(told == "yes" || told == "no", "neither `yes` nor `no`");
    let is_there = tables.has(kind_of(name)?);
    report.compare(rt, "the index is there", &is_there, &(told == "yes"))
}

fn form_of(kind: IndexKind) -> &'static str {
    if kind.is_ranges() {
        "ranges"
    } else if kind.is_single_byte() {
        "single"
    } else {
        "list"
    }
}

// Checks words such as `big5 index-big5.txt 19782 list`: the file of an index, how many entries it
// has, and its form. The form is `list`, `single` for an index of a single-byte encoding, or
// `ranges`.
pub(crate) fn check_kind(
    rt: &(impl Print + AllocGlobal),
    words: &str,
    report: &mut Report,
) -> anyhow::Result<()> {
    report.count_conversion();
    let mut words = words.split_whitespace();
    let kind = kind_of(words.next().unwrap_or(""))?;
    let file = words.next().unwrap_or("");
    let size = pointer(words.next().unwrap_or(""))?;
    let form = words.next().unwrap_or("");
    report.compare_texts(rt, "its file", kind.file_name(), file)?;
    if !kind.is_ranges() {
        report.compare(rt, "its size", &(kind.size() as u32), &size)?;
    }
    report.compare_texts(rt, "its form", form_of(kind), form)
}

// Returns how many rows are below a key, and how many were compared to find this number. Returns
// `None` if the rows do not rise.
fn below(rows: &[(u32, u32)], key: (u32, u32)) -> Option<(usize, u32)> {
    let rising = rows.windows(2).all(|pair| {
        pair[0].0 < pair[1].0 || pair[0].0 == pair[1].0 && pair[0].1 < pair[1].1
    });
    if !rising {
        return None;
    }
    Some(search(rows, key))
}

// Checks words such as `3 8 among 1=5 3=0 -> 2, 2`: how many of these rows are below the key `3 8`,
// and how many are compared at most. The second number of a key or of a row is hexadecimal.
pub(crate) fn check_search(
    rt: &(impl Print + AllocGlobal),
    words: &str,
    report: &mut Report,
) -> anyhow::Result<()> {
    report.count_conversion();
    let (call, told) = halves(words)?;
    let (key, rows) = call.split_once(" among").context("no rows are there")?;
    let (first, second) = key.split_once(' ').context("a key has one number")?;
    let key = (pointer(first)?, hexadecimal(second)?);
    let (rank, most) = told.split_once(", ").context("a number is missing")?;
    let rows = rows_of(rt.alloc(), rows)?;
    let below = below(rows.as_slice(), key);
    let (found, compared) = below.context("the rows do not rise")?;
    report.compare(
        rt,
        "the rows below",
        &(found as u64),
        &u64::from(pointer(rank)?),
    )?;
    let most = pointer(most)?;
    report.compare(rt, "few are compared", &(compared.max(most)), &most)
}
