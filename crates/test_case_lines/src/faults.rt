//! What a call that takes an index must return, in the words of a case.

use crate::indexes::pointer;
use crate::words::decimal;
use anyhow::bail;
use encoding_index::{IndexFault, IndexFaultKind, LoadFault};
use encoding_tables::TableFault;

fn text_fault(line: usize, kind: IndexFaultKind) -> Option<LoadFault> {
    Some(LoadFault::Text(IndexFault { line, kind }))
}

// Reads words such as `ok`, `Present`, `Size`, `Entry 5`, `Reserved 8836` and `Ranges 1`. In
// `Row 2`, `Order 2` and `Pointer 1` the number is that of the faulty line of an index text.
// Returns `None` for `ok`.
pub(crate) fn fault_of(words: &str) -> anyhow::Result<Option<LoadFault>> {
    let (word, number) = words.split_once(' ').unwrap_or((words, ""));
    Ok(match word {
        "ok" => None,
        "Present" => Some(LoadFault::Table(TableFault::Present)),
        "Size" => Some(LoadFault::Table(TableFault::Size)),
        "Entry" => Some(LoadFault::Table(TableFault::Entry(pointer(number)?))),
        "Reserved" => Some(LoadFault::Table(TableFault::Reserved(pointer(number)?))),
        "Ranges" => Some(LoadFault::Table(TableFault::Ranges(decimal(number)?))),
        "Row" => text_fault(decimal(number)?, IndexFaultKind::Row),
        "Order" => text_fault(decimal(number)?, IndexFaultKind::Order),
        "Pointer" => text_fault(decimal(number)?, IndexFaultKind::Pointer),
        _ => bail!("a result is not known"),
    })
}
