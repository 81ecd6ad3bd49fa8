//! The index files of the system.

ghost use Rattle.std.specs.Prelude.{◌≡◌, ◌++◌, IfOk, None, codes, string_bytes};

use crate::index_file::{Unread, read_index_file};
use recode::{IndexSource, SourceFault};
use recode_words::ShownWord;
use std::alloc::{AllocError, Global};
use std::rt::Files;
use std::{fmt, fs};

// The path of a file in a folder.
fn path_of(alloc: Global, dir: &str, file: &str) -> Result<String, AllocError>
    ensures { IfOk result (λ path. string_bytes path ≡ dir.now ++ codes "/" ++ file.now) }
{
    format!(in alloc; "{dir}/{file}")
}

/// An index file that was `Missing`. `Display` shows its path and the reason: the error of the
/// system, or that the file is too long.
#[derive(Debug, Drop)]
pub struct MissingFile {
    path: String,
    reason: Unread,
}

impl fmt::Display for MissingFile {
    fn fmt<W: fmt::Write>(&self, f: &mut fmt::Formatter<W>) -> fmt::Result {
        write!(f, "{}: {}", ShownWord(self.path.as_str()), self.reason)
    }
}

/// The files that a runtime reaches, as a source of index files, which have 2^24 bytes at most. No
/// contract says what they hold.
#[derive(Drop)]
pub struct SystemFiles<'r, R> {
    runtime: &'r R,
    /// The last file that was `Missing`.
    pub missing: Option<MissingFile>,
}

impl<'r, R> SystemFiles<'r, R> {
    /// The files of this runtime.
    pub fn new(runtime: &'r R) -> SystemFiles<'r, R> {
        SystemFiles {
            runtime,
            missing: None,
        }
    }
}

impl<'r, R: Files> IndexSource for SystemFiles<'r, R> {
    // No contract of std says what a file of the system holds.
    ghost holds = { λ _ _ _. None };

    fn read_file(&mut self, alloc: Global, dir: &str, file: &str) -> Result<Vec<u8>, SourceFault> {
        let Ok(path) = path_of(alloc, dir, file) else {
            return Err(SourceFault::Memory);
        };
        let read = match fs::open(self.runtime, path.as_str()) {
            Ok(opened) => read_index_file(alloc, opened),
            Err(error) => Err(Unread::from(error)),
        };
        match read {
            Ok(bytes) => Ok(bytes),
            Err(Unread::Memory) => Err(SourceFault::Memory),
            Err(reason) => {
                self.missing = Some(MissingFile { path, reason });
                Err(SourceFault::Missing)
            }
        }
    }
}
