//! Joins what conversions of the parts of an input wrote and reported: the log of a part becomes
//! lines of the log of the whole (`join_log`), and what is reported of two parts is added
//! (`Summary::and`).
//! The outputs are joined as they are. `recode::Job::can_be_cut` says where an input may be cut,
//! and `recode::Job::later` what the job of later parts is.
//!
//! # Use
//!
//!     let mut log = Counted::new(b"bad 6 1\nlost 7 128169\n".as_slice());
//!     let mut whole = Counted::new(Vec::new(alloc));
//!     let before = Before {
//!         bytes: 1000,
//!         characters: 900,
//!     };
//!     join_log(&mut log, before, &mut whole)?;
//!
//! The writer has the lines `bad 1006 1` and `lost 907 128169`.
#![tactic(auto)]

pub mod before;
mod held;
pub mod join;
pub mod laws;
mod lines;
pub mod summary;

pub use before::Before;
pub use join::{JoinFault, join_log};
pub use summary::Summary;
