//! Texts of faults.

use crate::words::parts;
use anyhow::{Context, bail};
use encoding_index::IndexFaultKind;
use encoding_tables::IndexKind;
use recode::{Fault, StartFault};
use std::alloc::Global;
use test_case_lines::report::Report;
use test_case_lines::words::decimal;

// The fault of a line of an index file with this name.
fn kind_of(name: &str) -> anyhow::Result<IndexFaultKind> {
    match name {
        "row" => Ok(IndexFaultKind::Row),
        "order" => Ok(IndexFaultKind::Order),
        "pointer" => Ok(IndexFaultKind::Pointer),
        _ => bail!("a kind of fault is not known"),
    }
}

// The fault of a run that words such as `unmappable 1 232` name, if they name one.
fn fault_of(words: &[&str]) -> anyhow::Result<Option<Fault>> {
    Ok(match words {
        ["read"] => Some(Fault::Read),
        ["write"] => Some(Fault::Write),
        ["log"] => Some(Fault::Log),
        ["too-long"] => Some(Fault::TooLong),
        ["unmappable", index, scalar] => Some(Fault::Unmappable {
            index: decimal(index)? as u64,
            scalar: u32::try_from(decimal(scalar)?)
                .ok()
                .and_then(char::from_u32)
                .context("a number is not a character's")?,
        }),
        _ => None,
    })
}

// The fault of Big5's index that words such as `line 3 order` name.
fn start_fault_of(words: &[&str]) -> anyhow::Result<StartFault> {
    let file = IndexKind::Big5.file_name();
    Ok(match words {
        ["missing"] => StartFault::Missing { file },
        ["line", line, kind] => StartFault::Line {
            file,
            line: decimal(line)?,
            kind: kind_of(kind)?,
        },
        ["entry"] => StartFault::Table {
            file,
            kind: "Entry",
        },
        ["memory"] => StartFault::Memory,
        _ => bail!("a fault is not known"),
    })
}

// The text that `Display` shows of the fault.
fn shown(alloc: Global, words: &[&str]) -> anyhow::Result<String> {
    if let Some(fault) = fault_of(words)? {
        return Ok(format!(in alloc; "{fault}")?);
    }
    let fault = start_fault_of(words)?;
    Ok(format!(in alloc; "{fault}")?)
}

// Checks words such as `unmappable 1 232 => unmappable 1 232`: the text of this fault.
pub(crate) fn check_fault(
    rt: &(impl Print + AllocGlobal),
    words: &str,
    report: &mut Report,
) -> anyhow::Result<()> {
    let (fault, told) = parts(words, "=>")?;
    let words: Vec<&str> = fault.split(' ').collect(rt.alloc())?;
    let given = shown(rt.alloc(), words.as_slice())?;
    if given.as_str() != told {
        report.differs(rt, given.as_str())?;
    }
    Ok(())
}
