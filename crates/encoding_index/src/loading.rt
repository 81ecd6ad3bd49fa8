//! Loads an index: reads its text, and then puts it into the tables.

ghost use Rattle.std.specs.Prelude.{◌≡◌, ◌⊎◌, ◌≢◌, false, MatchOption, OnOk, OnErr, IfOk, IfErr};
ghost use Rattle.std.specs.Prelude.{Ok, Err, Some, None, [], true};
ghost use Rattle.encoding_tables.specs.Kinds.{is_ranges, index_size};
ghost use Rattle.encoding_tables.specs.PackedRows.{PointersRise, PointersAreBelow};
ghost use Rattle.encoding_index.specs.IndexText.{rows_before_fault, text_rows, memory_fault};
ghost use Rattle.encoding_index.specs.Loads.{pointers_of, text_fault, load_fault};
ghost use Rattle.encoding_index.specs.Loads.{Loads, KeepsOtherKinds, WantsMemory};
ghost use Rattle.encoding_index.specs.laws.Inserts.{rows_fault, HaveRows};

use crate::fault::{IndexFault, LoadFault};
use crate::reading::{RANGE_POINTERS, rows_below};
use encoding_tables::{IndexKind, TableFault, Tables};
use std::alloc::Global;

// The rows of a text of the kind.
fn rows_of(alloc: Global, kind: IndexKind, text: &[u8]) -> Result<Vec<(u32, u32)>, IndexFault>
    ensures rows { IfOk result (λ rows. (text_fault kind text.now ≡ None)
        × (rows.items ≡ text_rows text.now)) }
    ensures fault { IfErr result (λ fault. (text_fault kind text.now ≡ Some fault)
        ⊎ (fault ≡ memory_fault)) }
    ensures grows { rows_before_fault (pointers_of kind) text.now ≡ []
        → result ≢ Err memory_fault }
{
    if kind.is_ranges() {
        rows_below(alloc, text, RANGE_POINTERS)
    } else {
        rows_below(alloc, text, kind.size() as u32)
    }
}

// Puts what the rows stand for into the tables.
fn insert(tables: &mut Tables, kind: IndexKind, rows: &[(u32, u32)]) -> Result<(), TableFault>
    requires rise { is_ranges kind ≡ false → PointersRise rows.now }
    requires below { is_ranges kind ≡ false → PointersAreBelow (index_size kind) rows.now }
    ensures fault { MatchOption (rows_fault tables.old kind rows.now)
        ((result ≡ Ok tt) ⊎ (result ≡ Err TableFault.Memory)) (λ f. result ≡ Err f) }
    ensures grows { is_ranges kind ≡ true → rows.now ≡ [] → result ≢ Err TableFault.Memory }
    ensures taken { OnOk result (HaveRows tables.new kind rows.now) }
    ensures others { KeepsOtherKinds tables.old tables.new kind }
    ensures unchanged { OnErr result (tables.new ≡ tables.old) }
{
    if kind.is_ranges() {
        tables.insert_ranges(rows)
    } else {
        tables.insert_rows(kind, rows)
    }
}

/// Reads the text of an index, of any kind, and puts what it stands for into the tables. After an
/// error the tables are as they were.
///
/// The text is read whole before the tables are asked, so a faulty text is reported even if the
/// index is there already: the error is `Text`. If the tables do not take the list or the rows, it
/// is `Table`. If memory was refused it is `Text` with line 0 while the text was read, and else
/// `Table`. A text with no row before its first faulty line is read without memory, and the ranges
/// of no rows take none.
pub fn load(
    alloc: Global,
    tables: &mut Tables,
    kind: IndexKind,
    text: &[u8],
) -> Result<(), LoadFault>
    ensures fault { MatchOption (load_fault tables.old kind text.now)
        ((result ≡ Ok tt) ⊎ WantsMemory result)
        (λ fault. (result ≡ Err fault) ⊎ (result ≡ Err (LoadFault.Text memory_fault))) }
    ensures grows { rows_before_fault (pointers_of kind) text.now ≡ []
        → result ≢ Err (LoadFault.Text memory_fault) }
    ensures grows_ranges { is_ranges kind ≡ true → text_rows text.now ≡ []
        → result ≢ Err (LoadFault.Table TableFault.Memory) }
    ensures loaded { OnOk result (Loads tables.new kind text.now) }
    ensures others { KeepsOtherKinds tables.old tables.new kind }
    ensures unchanged { OnErr result (tables.new ≡ tables.old) }
{
    let rows = rows_of(alloc, kind, text)?;
    insert(tables, kind, &rows)?;
    Ok(())
}
