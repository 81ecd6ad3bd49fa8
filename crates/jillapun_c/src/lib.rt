//! The libraries for C, C++, Python and Rust: one static library, whose header is
//! `include/jillapun.h`.
//!
//! Each export calls functions of the crates below and says their clauses again. No export has a
//! condition on what it is handed but for pointers and lengths: if a function below has one, the
//! export tests it, and returns a status (`status`), the room that is wanted, or `SIZE_MAX`.
#![tactic(auto)]

mod convert;
mod converter;
mod decoded;
mod decoder;
mod encoder;
mod encoder_progress;
mod encoding;
mod encoding_number;
mod filled;
mod in_memory;
mod index_files;
mod losses;
mod mem;
mod parts;
mod progress;
mod report;
mod request;
pub mod status;
mod tables;
mod tables_handle;
mod tests;
mod whole;

pub use losses::Loss;
pub use report::Report;
