//! The words of the command line of the program `recode`: what they ask for (`Request`), or why
//! they are refused (`WordsFault`). `recode::program` does what they ask for. `ShownWord` shows a
//! word in a message.
//!
//! # Use
//!
//!     let words = ["recode", "--from", "gbk", "--to", "utf-8"];
//!     let is_run = match parse_words(alloc, &words) {
//!         Ok(Request::Run(run)) => run.from == "gbk" && run.indexes == ".",
//!         Ok(_) => false,
//!         Err(fault) => return Err(fault.into()),
//!     };
//!
//! `is_run` is true: the words ask for a conversion, with `.` as the folder of the index files.
#![tactic(auto)]

mod command;
pub mod laws;
pub mod request;
pub mod shown;
mod values;
pub mod words;

pub use command::VERSION;
pub use request::{Request, WordsFault, parse_words};
pub use shown::ShownWord;
pub use words::{GREATEST_LIMIT, MarkWord, PivotWord, PolicyWord, Words};
