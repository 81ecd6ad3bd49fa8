//! Index texts, as the Encoding Standard publishes them (section 5, "Indexes"), to the lists and
//! rows that the tables take.
//!
//! One byte order mark (EF BB BF) at the start is skipped. A line ends at LF, at CR LF or at the
//! end of the text; a CR elsewhere is a byte like any other. An empty line, a line of spaces and
//! tabs alone and a line that begins with `#` are skipped. Every other line has to be a row: any
//! number of spaces; the pointer, 1 to 7 decimal digits; a tab; `0x`; the code point, 4 to 6
//! hexadecimal digits in upper case, not all of them 0; and the end of the line, or a tab and any
//! bytes. Pointers rise from row to row.
//!
//! # Use
//!
//!     let kind = IndexKind::Windows1252;
//!     let mut tables = Tables::new(alloc);
//!     load(alloc, &mut tables, kind, b"# an index\n  0\t0x20AC\n")?;
//!     if !tables.has(kind) {
//!         return Ok(false);
//!     }
//!     let euro = tables.value(kind, 0);
//!
//! `euro` is `Some('\u{20AC}')`. A text with a faulty line would have returned the line and what is
//! wrong with it.
#![tactic(auto)]

pub mod fault;
pub mod laws;
mod line;
pub mod loading;
pub mod reading;
mod rows;

pub use fault::{IndexFault, IndexFaultKind, LoadFault};
pub use loading::load;
pub use reading::{RANGE_POINTERS, read_index, read_ranges};
