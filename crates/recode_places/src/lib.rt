//! Where in an input the malformed sequences and the characters stand that a log of `recode` names:
//! line, column and index of each (`Place`).
//!
//! `tell_places` reads the input once more, and hands a `Visitor` the text, the malformed bytes,
//! and an `Entry` for each thing that a `Choice` picks: what the lines of a log name (`LogMatch`),
//! or what a target encoding would lose or write as another character (`Fates`).
//!
//! # Use
//!
//!     let tables = Tables::new(alloc);
//!     let reading = Reading {
//!         from: Encoding::Utf8,
//!         mark: Mark::Sniff,
//!         tables: &tables,
//!     };
//!     if !reading.from.is_ready(&tables) {
//!         return Ok(false);
//!     }
//!     let mut input = b"one\nt\xFFo".as_slice();
//!     let mut choice = Choice::of_log(LogMatch::new(b"bad 5 1\n".as_slice())?);
//!     let mut entries: Vec<Entry> = Vec::new(alloc);
//!     tell_places(&mut input, reading, &mut choice, &mut entries)?;
//!
//! `entries` has one entry: the byte FF at offset 5, in line 2, column 2.
#![tactic(auto)]

pub mod choice;
pub mod entry;
pub mod fates;
pub mod laws;
pub mod log_lines;
pub mod log_match;
pub mod place;
pub mod visitor;
pub mod walk;

pub use choice::Choice;
pub use entry::{Entry, Finding, Refusal, Stop};
pub use fates::{Fate, Fates};
pub use log_match::LogMatch;
pub use place::Place;
pub use visitor::Visitor;
pub use walk::{Reading, tell_places};
