//! The parts that the test programs share whose cases are lines of files: the driver of a file, the
//! report that is printed of it, and the reading of words as numbers, bytes, texts and indexes. It
//! also has the lines of `test_encoding_cases` that look into indexes.
#![tactic(auto)]

mod faults;
pub mod file;
pub mod indexes;
mod insertions;
pub mod kinds;
mod lookups;
pub mod report;
pub mod table_lines;
mod texts;
pub mod words;
