//! What is printed of the places in an input where something is lost: for each place a line that
//! says what it is, with the text around it (`Report`), or how often each thing is lost (`Counts`).
//! Both are visitors of `recode_places::tell_places`.
//!
//! # Use
//!
//!     let mut report = Report::new(alloc, Vec::new(alloc), "old.txt", Encoding::Utf8, 20)?;
//!     report.entry(Entry {
//!         place: Place::first(),
//!         finding: Finding::Malformed {
//!             offset: 0,
//!             length: 1,
//!         },
//!     })?;
//!     report.malformed(b"\xFF", Encoding::Utf8)?;
//!     report.characters("one\n")?;
//!     report.finish()?;
//!
//! The first line of what was written, `report.into_writer()`, is
//! `old.txt:1:1: byte FF in no character of UTF-8`. Below it is the line `<FF>one`, and below that
//! `^^^^`.
#![tactic(auto)]

mod cell;
pub mod counts;
mod drawing;
pub mod loss;
pub mod report;
mod ring;

pub use cell::shown;
pub use counts::Counts;
pub use loss::{Loss, Sequence};
pub use report::Report;
