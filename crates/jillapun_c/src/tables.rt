//! Tables: loading index files.

ghost use Rattle.std.specs.Prelude.{◌≡◌, ◌≢◌, ◌⊎◌, None, IsSome, IsSomeAnd};
ghost use Rattle.jillapun_c.specs.IndexFiles.{HoldFiles, IsFaultTold, IsToldAt};
ghost use Rattle.jillapun_c.specs.declared.status.TheConstants.{IN_USE, OK};

use crate::index_files::{FileFault, IndexFile, load_files};
use crate::status::{BAD_INDEX, IN_USE, NO_MEMORY, OK, Status, UNKNOWN};
use crate::tables_handle::TablesHandle;
use encoding_tables::Tables;
use std::alloc::Global;

/// The index file at which loading failed.
#[repr(C)]
#[derive(Clone, Copy)]
pub struct IndexFault {
    /// Its position in `files`, from 0; `files_len` if only the last allocation failed, after all
    /// files.
    pub file: usize,
    /// The line of the fault, from 1; 0 if no single line is at fault.
    pub line: usize,
}

/// Loads index files in any order, each as the index that its name says: all, or those of the
/// encodings that you use. The files are not needed after the call.
///
/// Load tables once, since they are never freed. Load an index that is needed later into another
/// handle. A decoder or an encoder needs only the indexes of its encoding; a conversion needs those
/// of both encodings in one handle.
///
/// After an error nothing is loaded, `out` is unchanged, and `fault` has the file at which loading
/// failed. Otherwise `fault` is unchanged. Errors:
///
/// - `IN_USE`: `out` is not empty. `fault` is unchanged.
/// - `UNKNOWN`: no index has a file of this name.
/// - `BAD_INDEX`: the text is invalid, or an earlier file is of the same index.
/// - `NO_MEMORY`: memory allocation failed.
#[unsafe(no_mangle)]
pub extern "C" fn jillapun_tables_new(
    alloc: Global,
    files: &[IndexFile<'_>],
    out: &mut TablesHandle,
    fault: &mut IndexFault,
) -> Status
    ensures loaded { result ≡ OK → IsSomeAnd out.new.tables (HoldFiles files.now) }
    ensures in_use { IsSome out.old.tables → result ≡ IN_USE }
    ensures refused { out.old.tables ≡ None → result ≢ OK
        → IsToldAt files.now fault.new.file fault.new.line result }
    ensures unchanged { result ≢ OK → out.new.tables ≡ out.old.tables }
    ensures untold { (result ≡ OK) ⊎ (result ≡ IN_USE) → fault.new ≡ fault.old }
{
    if let Some(held) = out.take() {
        *out = TablesHandle::of(held);
        return IN_USE;
    }
    let mut tables = Tables::new(alloc);
    if let Err((number, file_fault)) = load_files(alloc, files, &mut tables) {
        let (status, line) = told(file_fault);
        *fault = IndexFault { file: number, line };
        return status;
    }
    match Box::new(alloc, tables) {
        Ok(room) => {
            *out = TablesHandle::of(Box::leak(room));
            OK
        }
        Err(_) => {
            *fault = IndexFault {
                file: files.len(),
                line: 0,
            };
            NO_MEMORY
        }
    }
}

// The status of a fault, and the line.
fn told(fault: FileFault) -> (u8, usize)
    ensures { IsFaultTold fault result.0 result.1 }
{
    match fault {
        FileFault::Unknown => (UNKNOWN, 0),
        FileFault::Text(line) => (BAD_INDEX, line),
        FileFault::Memory => (NO_MEMORY, 0),
    }
}
