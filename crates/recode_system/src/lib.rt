//! What the program `recode` takes from the system: the words of the command line, and the files of
//! indexes. `answer` is all of `main` but the standard streams; a `CommandLine` gives it the words.
//!
//! # Use
//!
//!     let mut indexes = SystemFiles::new(&rt);
//!     let mut reader = Counted::new(rt.stdin());
//!     let mut writer = Counted::new(rt.stdout());
//!     let mut log = Counted::new(rt.stderr());
//!     let status = answer(&rt, &mut indexes, &mut reader, &mut writer, &mut log);
//!
//! `answer_on` does the same with devices that stand in `Ports`, and also says how the calls of all
//! three follow one another.
//!
//! `status` is the exit status. `rt` is what `main` is given: it has the words, the files and the
//! allocator.
#![tactic(auto)]

pub mod command_line;
mod index_file;
pub mod laws;
mod system_files;
mod system_words;

pub use command_line::{CommandLine, Wordless, answer, answer_on};
pub use system_files::{MissingFile, SystemFiles};
