//! Which lists of entries, and which rows in place of a list, are taken as the index of a kind.

ghost use Rattle.std.specs.Prelude.{◌≡◌, ◌+◌, ◌<◌, ◌≤◌, not, ◌==◌, length, IfSome};
ghost use Rattle.std.specs.List.{position};
ghost use Rattle.encoding_tables.specs.Kinds.{index_size};
ghost use Rattle.encoding_tables.specs.PackedRows.{flat_list, PointersRise, PointersAreBelow};
ghost use Rattle.encoding_tables.specs.TableFaults.{is_entry_of, first_bad_entry, first_reserved};
ghost use Rattle.encoding_tables.specs.TableFaults.{entry_fault, flat_fault};

use crate::index_kind::IndexKind;
use crate::table_fault::TableFault;

// Where Shift_JIS has end-user-defined characters, pointers of JIS X 0208 stand for no entry (the
// Encoding Standard, section 12.3, "Shift_JIS decoder").
const RESERVED_START: usize = 8836;

const RESERVED_END: usize = 10716;

// Whether a list of the kind may have this entry.
fn is_entry(kind: IndexKind, entry: u32) -> bool
    ensures { result ≡ is_entry_of kind entry }
{
    entry == 0
        || entry >= 0x80 && entry < 0xD800
        || entry >= 0xE000 && entry < 0x10000
        || kind == IndexKind::Big5 && entry >= 0x20000 && entry < 0x30000
}

// The pointer of the first entry that a list of the kind may not have.
fn first_bad_entry(kind: IndexKind, flat: &[u32]) -> Option<usize>
    ensures offset { result ≡ first_bad_entry kind flat.now }
    ensures within { IfSome result (λ k. k < length flat.now) }
{
    flat.iter().position(|entry| !is_entry(kind, *entry))
}

// The position of the first entry that is mapped.
fn first_mapped(flat: &[u32]) -> Option<usize>
    ensures offset { result ≡ position (λ v. not (v == 0)) flat.now }
    ensures within { IfSome result (λ k. k < length flat.now) }
{
    flat.iter().position(|entry| *entry != 0)
}

// The first mapped pointer at which Shift_JIS has an end-user-defined character.
fn first_reserved(flat: &[u32]) -> Option<usize>
    requires { 10716 ≤ length flat.now }
    ensures pointer { result ≡ first_reserved flat.now }
    ensures within { IfSome result (λ k. k < 10716) }
{
    match first_mapped(&flat[RESERVED_START..RESERVED_END]) {
        Some(offset) => Some(RESERVED_START + offset),
        None => None,
    }
}

// The first fault of a list, if it has one.
pub(crate) fn fault_of_flat(is_there: bool, kind: IndexKind, flat: &[u32]) -> Option<TableFault>
    ensures { result ≡ flat_fault is_there kind flat.now }
{
    if is_there {
        return Some(TableFault::Present);
    }
    if flat.len() != kind.size() {
        return Some(TableFault::Size);
    }
    if let Some(pointer) = first_bad_entry(kind, flat) {
        return Some(TableFault::Entry(pointer as u32));
    }
    if kind == IndexKind::Jis0208 {
        if let Some(pointer) = first_reserved(flat) {
            return Some(TableFault::Reserved(pointer as u32));
        }
    }
    None
}

// The pointer of the first row whose entry a list of the kind may not have.
fn first_bad_row(kind: IndexKind, rows: &[(u32, u32)]) -> Option<u32>
    requires rise { PointersRise rows.now }
    requires below { PointersAreBelow (index_size kind) rows.now }
    ensures { result ≡ first_bad_entry kind (flat_list (index_size kind) rows.now) }
{
    for (pointer, entry) in rows {
        if !is_entry(kind, *entry) {
            return Some(*pointer);
        }
    }
    None
}

// The pointer of the first mapped row at which Shift_JIS has an end-user-defined character.
fn first_reserved_row(kind: IndexKind, rows: &[(u32, u32)]) -> Option<u32>
    requires rise { PointersRise rows.now }
    requires below { PointersAreBelow (index_size kind) rows.now }
    ensures { result ≡ first_reserved (flat_list (index_size kind) rows.now) }
{
    for (pointer, entry) in rows {
        let at = *pointer as usize;
        if *entry != 0 && at >= RESERVED_START && at < RESERVED_END {
            return Some(*pointer);
        }
    }
    None
}

// What is wrong with the entries of the list that rows stand for.
fn fault_of_entries(kind: IndexKind, rows: &[(u32, u32)]) -> Option<TableFault>
    requires rise { PointersRise rows.now }
    requires below { PointersAreBelow (index_size kind) rows.now }
    ensures { result ≡ entry_fault kind (flat_list (index_size kind) rows.now) }
{
    if let Some(pointer) = first_bad_row(kind, rows) {
        return Some(TableFault::Entry(pointer));
    }
    if kind == IndexKind::Jis0208 {
        if let Some(pointer) = first_reserved_row(kind, rows) {
            return Some(TableFault::Reserved(pointer));
        }
    }
    None
}

// The first fault of the list that rows stand for, if it has one.
pub(crate) fn fault_of_rows(
    present: bool,
    kind: IndexKind,
    rows: &[(u32, u32)],
) -> Option<TableFault>
    requires rise { PointersRise rows.now }
    requires below { PointersAreBelow (index_size kind) rows.now }
    ensures { result ≡ flat_fault present kind (flat_list (index_size kind) rows.now) }
{
    if present {
        Some(TableFault::Present)
    } else {
        fault_of_entries(kind, rows)
    }
}
