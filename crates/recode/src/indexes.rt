//! Where index files come from, and the indexes that an encoding needs, each loaded once.

ghost use Rattle.std.specs.Prelude.{◌≡◌, ◌∷◌, [], IfErr, IfOk, IfSome, List, OnErr, OnOk, Option};
ghost use Rattle.std.specs.Prelude.{false, true, ℕ};
ghost use Rattle.encoding_tables.specs.FileNames.{file_name_of};
ghost use Rattle.encoding_tables.specs.IndexLists.{has};
ghost use Rattle.encoding_front.specs.Encodings.{IsReady, needs_of};
ghost use Rattle.recode.specs.IndexFaults.{AddsOnly, IsReadFault, IsStartFault, LacksOne};
ghost use Rattle.recode.specs.IndexFaults.{ReportsFault, table_fault_name};
ghost use Rattle.recode.specs.Program.{AddsFromFiles, CanHold};

use encoding_front::Encoding;
use encoding_index::{IndexFaultKind, LoadFault, load};
use encoding_tables::{IndexKind, TableFault, Tables};
use std::alloc::Global;
use thiserror::Error;

/// Why a source does not give an index file.
#[derive(Clone, Copy, Debug, PartialEq, Eq, Error)]
pub enum SourceFault {
    /// The file is absent, can't be read, or is longer than the source takes.
    #[error("missing")]
    Missing,
    /// Memory was refused.
    #[error("out of memory")]
    Memory,
}

/// Where index files come from, as the folders of a file system: what `program` is given, so that
/// it can be run without one.
pub trait IndexSource {
    /// What the source says of the file of a name in a folder: nothing (`None`), that it is absent
    /// (`Some None`), or which bytes it has.
    ghost holds: { Self → (dir file : List ℕ) → Option (Option (List ℕ)) };

    /// Returns all bytes of the file with this name in the folder `dir`: those that the source says
    /// it has, if it says them.
    ///
    /// # Errors
    ///
    /// `Missing` if there is no such file, it can't be read, or it is longer than the source takes,
    /// and `Memory` if memory was refused. A file that the source says is absent is always an
    /// error, and one whose bytes it says is never `Missing`.
    fn read_file(&mut self, alloc: Global, dir: &str, file: &str) -> Result<Vec<u8>, SourceFault>
        ensures text { IfOk result (λ bytes. CanHold (holds self.old dir.now file.now)
            bytes.items) }
        ensures fault { IfErr result (IsReadFault (holds self.old dir.now file.now)) }
        ensures files { (d f : List ℕ) → holds self.new d f ≡ holds self.old d f };
}

/// Why an index is not there. `Display` shows it as the messages of `program` do, without the name
/// of the program.
#[derive(Debug, Drop, PartialEq, Eq, Error)]
pub enum StartFault {
    /// The source does not give the file.
    #[error("{file}: missing")]
    Missing {
        file: &'static str,
    },
    /// A line of the file, counted from 1, has a fault.
    #[error("{file}: line {line}: {kind:?}")]
    Line {
        file: &'static str,
        line: usize,
        kind: IndexFaultKind,
    },
    /// The tables do not take what the file stands for.
    #[error("{file}: table: {kind}")]
    Table {
        file: &'static str,
        kind: &'static str,
    },
    /// Memory was refused.
    #[error("out of memory")]
    Memory,
}

// The name of the variant.
fn name_of(fault: &TableFault) -> &'static str
    ensures { result.now ≡ table_fault_name fault.now }
{
    match fault {
        TableFault::Present => "Present",
        TableFault::Size => "Size",
        TableFault::Entry(_) => "Entry",
        TableFault::Reserved(_) => "Reserved",
        TableFault::Ranges(_) => "Ranges",
        TableFault::Memory => "Memory",
    }
}

// What is reported of a file that was not loaded.
fn fault_of(file: &'static str, fault: &LoadFault) -> StartFault
    ensures { ReportsFault file.now fault.now result }
{
    match fault {
        LoadFault::Text(text) => {
            if text.kind == IndexFaultKind::Memory {
                StartFault::Memory
            } else {
                StartFault::Line {
                    file,
                    line: text.line,
                    kind: text.kind,
                }
            }
        }
        LoadFault::Table(TableFault::Memory) => StartFault::Memory,
        LoadFault::Table(table) => StartFault::Table {
            file,
            kind: name_of(table),
        },
    }
}

// Puts the index of a kind into the tables, from its file in the folder, if it is not there yet.
fn load_index<S: IndexSource>(
    alloc: Global,
    source: &mut S,
    dir: &str,
    kind: IndexKind,
    tables: &mut Tables,
) -> Result<(), StartFault>
    ensures there { OnOk result (has tables.new kind ≡ true) }
    ensures lacking { OnErr result (has tables.new kind ≡ false) }
    ensures unchanged { OnErr result (tables.new ≡ tables.old) }
    ensures why { IfErr result (IsStartFault tables.new kind
        (S.holds source.old dir.now (file_name_of kind))) }
    ensures added { AddsOnly tables.old tables.new (kind ∷ []) }
    ensures once { has tables.old kind ≡ true → source.new ≡ source.old }
    ensures files { AddsFromFiles (S.holds source.old) (S.holds source.new) dir.now tables.old
        tables.new }
{
    if tables.has(kind) {
        return Ok(());
    }
    let file = kind.file_name();
    let text = match source.read_file(alloc, dir, file) {
        Ok(text) => text,
        Err(SourceFault::Missing) => return Err(StartFault::Missing { file }),
        Err(SourceFault::Memory) => return Err(StartFault::Memory),
    };
    match load(alloc, tables, kind, &text) {
        Ok(()) => Ok(()),
        Err(fault) => Err(fault_of(file, &fault)),
    }
}

/// Puts the indexes that the encoding needs into the tables, and no others, each once, in the order
/// of `needs`. An index that is there already is not loaded again: it stays as it is. If all are
/// there, the source is not called. A new one is what a text without a fault stands for: that of
/// its file in the folder `dir`, if the source says what the file holds. A file that the source
/// says is absent gives no index.
///
/// The error is that of the first whose file is missing or faulty, or at which memory was refused:
/// those before it are there, and none after it was loaded.
pub fn load_indexes<S: IndexSource>(
    alloc: Global,
    source: &mut S,
    dir: &str,
    encoding: Encoding,
    tables: &mut Tables,
) -> Result<(), StartFault>
    ensures there { OnOk result (IsReady tables.new encoding) }
    ensures once { IsReady tables.old encoding → source.new ≡ source.old }
    ensures lacking { IfErr result (LacksOne (S.holds source.old) dir.now tables.old tables.new
        (needs_of encoding)) }
    ensures added { AddsOnly tables.old tables.new (needs_of encoding) }
    ensures files { AddsFromFiles (S.holds source.old) (S.holds source.new) dir.now tables.old
        tables.new }
{
    let kinds = encoding.needs();
    for kind in kinds {
        load_index(alloc, source, dir, *kind, tables)?;
    }
    Ok(())
}
