//! Index files in memory.

ghost use Rattle.std.specs.Prelude.{None};

use recode::{IndexSource, SourceFault};
use std::alloc::Global;

#[derive(Drop)]
pub(crate) struct File<'a> {
    pub(crate) name: &'a str,
    pub(crate) text: Vec<u8>,
}

// Index files, all in one folder.
#[derive(Drop)]
pub(crate) struct Files<'a> {
    pub(crate) dir: &'a str,
    pub(crate) files: &'a [File<'a>],
    // Whether memory is refused for each file.
    pub(crate) is_full: bool,
    // How many files were asked for.
    pub(crate) asked: usize,
}

impl<'a> IndexSource for Files<'a> {
    ghost holds = { λ _ _ _. None };

    fn read_file(&mut self, alloc: Global, dir: &str, file: &str) -> Result<Vec<u8>, SourceFault> {
        self.asked = self.asked.saturating_add(1);
        if self.is_full {
            return Err(SourceFault::Memory);
        }
        for known in self.files {
            if dir == self.dir && file == known.name {
                return match Vec::from_slice(alloc, known.text.as_slice()) {
                    Ok(text) => Ok(text),
                    Err(_) => Err(SourceFault::Memory),
                };
            }
        }
        Err(SourceFault::Missing)
    }
}
