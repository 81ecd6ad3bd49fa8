//! Reads an index text to the list or the rows that the tables take.

ghost use Rattle.std.specs.Prelude.{◌≡◌, ◌≢◌, ◌⊎◌, [], None, Some, IfOk, IfErr, false};
ghost use Rattle.encoding_tables.specs.Kinds.{index_size, is_ranges};
ghost use Rattle.encoding_index.specs.IndexText.{first_fault, range_pointer_end, rows_before_fault};
ghost use Rattle.encoding_index.specs.IndexText.{text_list, text_rows, memory_fault};

use crate::fault::IndexFault;
use crate::rows::IndexRows;
use encoding_tables::IndexKind;
use std::alloc::Global;

/// How many pointers the GB18030 ranges have: one more than the greatest (the Encoding Standard, section
/// 5, "index gb18030 ranges code point").
pub const RANGE_POINTERS: u32 = 1_237_576;

/// Reads the text of an index that has a list: returns the code point at each row's pointer, and 0
/// at the pointers of no row. It asks for the memory of the whole list before it reads a line, and
/// for no more.
///
/// The error is the fault of the first faulty line, or, with line 0, that memory was refused. The
/// condition, that the kind has a list, is tested by `IndexKind::is_ranges`, which is false for it.
pub fn read_index(alloc: Global, kind: IndexKind, text: &[u8]) -> Result<Vec<u32>, IndexFault>
    requires { is_ranges kind ≡ false }
    ensures list { IfOk result (λ list. (first_fault (index_size kind) text.now ≡ None)
        × (list.items ≡ text_list (index_size kind) text.now)) }
    ensures fault { IfErr result (λ fault. (first_fault (index_size kind) text.now ≡ Some fault)
        ⊎ (fault ≡ memory_fault)) }
{
    let mut list = vec![in alloc; 0; kind.size()]?;
    for row in IndexRows::new(text, kind.size() as u32) {
        let (pointer, code) = row?;
        list[pointer as usize] = code;
    }
    Ok(list)
}

/// Reads the text of the GB18030 ranges: returns its rows, each a pointer and a code point. It asks
/// for memory at the first row, and at a row for which there is no room left. A text with no row
/// before its first faulty line asks for none.
///
/// The error is the fault of the first faulty line, or, with line 0, that memory was refused.
pub fn read_ranges(alloc: Global, text: &[u8]) -> Result<Vec<(u32, u32)>, IndexFault>
    ensures rows { IfOk result (λ rows. (first_fault range_pointer_end text.now ≡ None)
        × (rows.items ≡ text_rows text.now)) }
    ensures fault { IfErr result (λ fault. (first_fault range_pointer_end text.now ≡ Some fault)
        ⊎ (fault ≡ memory_fault)) }
    ensures grows { rows_before_fault range_pointer_end text.now ≡ [] → result ≢ Err memory_fault }
{
    rows_below(alloc, text, RANGE_POINTERS)
}

/// Reads the rows of a text whose pointers are to be below `size`. Asks for memory at the first
/// row, and at a row for which there is no room left.
pub(crate) fn rows_below(
    alloc: Global,
    text: &[u8],
    size: u32,
) -> Result<Vec<(u32, u32)>, IndexFault>
    ensures rows { IfOk result (λ rows. (first_fault size text.now ≡ None)
        × (rows.items ≡ text_rows text.now)) }
    ensures fault { IfErr result (λ fault. (first_fault size text.now ≡ Some fault)
        ⊎ (fault ≡ memory_fault)) }
    ensures grows { rows_before_fault size text.now ≡ [] → result ≢ Err memory_fault }
{
    let mut rows = Vec::new(alloc);
    for row in IndexRows::new(text, size) {
        let row = row?;
        rows.push(row)?;
    }
    Ok(rows)
}
