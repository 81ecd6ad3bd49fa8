//! Index texts that a caller lends, and how they are loaded.

ghost use Rattle.std.specs.Prelude.{◌≡◌, ◌≢◌, [], OnOk, OnErr, IfErr, MatchOption};
ghost use Rattle.encoding_tables.specs.FileNames.{file_name_of};
ghost use Rattle.encoding_tables.specs.declared.index_kind.IndexKind.{IndexKind};
ghost use Rattle.jillapun_c.specs.IndexFiles.{AddsIndex, HoldFiles, IsFileFault};
ghost use Rattle.jillapun_c.specs.IndexFiles.{IsRefusedAt, told_of};

use encoding_index::{LoadFault, load};
use encoding_tables::laws::file_names;
use encoding_tables::{IndexKind, TableFault, Tables};
use std::alloc::Global;

/// An index file.
#[repr(C)]
#[derive(Clone, Copy)]
pub struct IndexFile<'a> {
    /// The name in ASCII, without a folder: `index-jis0208.txt`.
    pub name: &'a [u8],
    /// The content.
    pub text: &'a [u8],
}

/// Why a file was not loaded.
#[derive(Clone, Copy)]
pub(crate) enum FileFault {
    /// No index has a file of this name.
    Unknown,
    /// The text has a fault in the line of this number, from 1 on; 0 if the fault is in no line
    /// alone, for instance if the index is there already.
    Text(usize),
    /// Memory was refused.
    Memory,
}

// The kind whose file has this name.
fn kind_of(name: &[u8]) -> Option<IndexKind>
    ensures { MatchOption result ((kind : IndexKind) → file_name_of kind ≢ name.now)
        (λ kind. file_name_of kind ≡ name.now) }
{
    for kind in IndexKind::ALL {
        if kind.file_name().as_bytes() == name {
            return Some(kind);
        }
    }
    None
}

// What is reported of a fault.
fn told_of(fault: LoadFault) -> FileFault
    ensures { result ≡ told_of fault }
{
    match fault {
        LoadFault::Text(fault) if fault.line == 0 => FileFault::Memory,
        LoadFault::Text(fault) => FileFault::Text(fault.line),
        LoadFault::Table(TableFault::Memory) => FileFault::Memory,
        LoadFault::Table(_) => FileFault::Text(0),
    }
}

// Loads a file into tables. On an error they stay as they were.
fn load_file(alloc: Global, file: &IndexFile<'_>, tables: &mut Tables) -> Result<(), FileFault>
    ensures adds { OnOk result (AddsIndex tables.old tables.new file.now) }
    ensures fault { IfErr result (λ fault. IsFileFault tables.old file.now fault) }
    ensures unchanged { OnErr result (tables.new ≡ tables.old) }
{
    let Some(kind) = kind_of(file.name) else {
        return Err(FileFault::Unknown);
    };
    match load(alloc, tables, kind, file.text) {
        Ok(()) => Ok(()),
        Err(fault) => Err(told_of(fault)),
    }
}

/// Loads files, each as the index of its name, into tables that hold nothing, up to the first that
/// is not taken. The error has the file's number, from 0 on.
pub(crate) fn load_files(
    alloc: Global,
    files: &[IndexFile<'_>],
    tables: &mut Tables,
) -> Result<(), (usize, FileFault)>
    requires { HoldFiles [] tables.old }
    ensures holds { OnOk result (HoldFiles files.now tables.new) }
    ensures refused { IfErr result (λ e. IsRefusedAt files.now e.0 e.1) }
{
    file_names();
    for (number, file) in files.iter().enumerate() {
        if let Err(fault) = load_file(alloc, file, tables) {
            return Err((number, fault));
        }
    }
    Ok(())
}
