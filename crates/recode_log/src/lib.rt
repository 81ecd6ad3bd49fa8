//! What stands at the edge of a conversion: readers and writers with their histories, whose failed
//! calls are counted (`Counted`), bytes that are written, all of them or a prefix
//! (`deliver::deliver`), messages (`deliver::tell`), and the lines of the log (`LogLine`).
//!
//! # Use
//!
//!     let line = LogLine::Bad {
//!         offset: 6,
//!         length: 1,
//!     };
//!     let mut room = [0; 32];
//!     if !line.is_valid() {
//!         return Ok(false);
//!     }
//!     let len = line.write_into(&mut room);
//!     let mut log = Counted::new(Vec::new(alloc));
//!     let delivered = deliver(&mut log, &room[..len], "log fault");
//!
//! The log has the line `bad 6 1`, and no call of it has failed. `LogLine::parse` reads such a line
//! again.
#![tactic(auto)]

pub mod counted;
pub mod deliver;
mod history;
mod journal;
pub mod laws;
pub mod line;
pub mod ports;
mod recorded;

pub use counted::Counted;
pub use line::{GREATEST_OFFSET, LogLine};
pub use ports::Ports;
