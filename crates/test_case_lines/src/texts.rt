//! Reads index texts, and checks what is read of them.

use crate::faults::fault_of;
use crate::indexes::{rows_of, text_of_rows};
use crate::kinds::kind_of;
use crate::report::Report;
use crate::words::{first_word, halves, unescaped};
use anyhow::bail;
use encoding_index::{IndexFault, LoadFault, read_index, read_ranges};
use encoding_tables::IndexKind;
use std::alloc::Global;

// Returns the text of words such as `text 0\t0x0080` or `text-of 0-127=80`. A text of the second
// form has a line for each of these rows.
pub(crate) fn text_of(alloc: Global, words: &str) -> anyhow::Result<Vec<u8>> {
    let (form, rest) = first_word(words);
    match form {
        "text" => unescaped(alloc, rest),
        "text-of" => text_of_rows(alloc, rest),
        _ => bail!("a text is not given"),
    }
}

// The result of reading an index text.
#[derive(Drop)]
enum Told {
    Rows(Vec<(u32, u32)>),
    OtherLength(usize),
    Fault(IndexFault),
}

// Returns the rows of a list, which are its entries other than 0.
fn rows_of_list(alloc: Global, list: &[u32]) -> anyhow::Result<Vec<(u32, u32)>> {
    let mut rows = Vec::new(alloc);
    for (pointer, entry) in list.iter().enumerate() {
        if *entry != 0 {
            rows.push((u32::try_from(pointer).unwrap_or(u32::MAX), *entry))?;
        }
    }
    Ok(rows)
}

fn told_of(alloc: Global, kind: IndexKind, text: &[u8]) -> anyhow::Result<Told> {
    if kind.is_ranges() {
        return Ok(match read_ranges(alloc, text) {
            Ok(rows) => Told::Rows(rows),
            Err(fault) => Told::Fault(fault),
        });
    }
    match read_index(alloc, kind, text) {
        Ok(list) if list.len() != kind.size() => Ok(Told::OtherLength(list.len())),
        Ok(list) => Ok(Told::Rows(rows_of_list(alloc, list.as_slice())?)),
        Err(fault) => Ok(Told::Fault(fault)),
    }
}

// Checks words such as `koi8-r text 0\t0x00C0 -> ok 0=C0`: the fault of a text, or the rows that
// are read of it.
pub(crate) fn check_reading(
    rt: &(impl Print + AllocGlobal),
    words: &str,
    report: &mut Report,
) -> anyhow::Result<()> {
    report.count_conversion();
    let alloc = rt.alloc();
    let (call, told) = halves(words)?;
    let (name, source) = first_word(call);
    let kind = kind_of(name)?;
    let text = text_of(alloc, source)?;
    match told_of(alloc, kind, text.as_slice())? {
        Told::OtherLength(len) => report.compare(rt, "entries", &len, &kind.size()),
        Told::Fault(fault) => {
            let expected = if told.starts_with("ok") {
                None
            } else {
                fault_of(told)?
            };
            report.compare(rt, "the fault", &Some(LoadFault::Text(fault)), &expected)
        }
        Told::Rows(rows) => {
            let (word, expected) = first_word(told);
            report.compare_texts(rt, "the text is read", "ok", word)?;
            let expected = rows_of(alloc, expected)?;
            report.compare(rt, "the rows", &rows.as_slice(), &expected.as_slice())
        }
    }
}
