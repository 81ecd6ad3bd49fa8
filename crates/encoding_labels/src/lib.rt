//! The labels of encodings: the names by which documents and protocols call them (the Encoding
//! Standard, section 4.2).
//!
//! `label_number` finds the number of the encoding that has a label, by white space and case that
//! do not matter; `places` has the forty numbers by name. `encoding_front::Encoding::for_label`
//! gives the encoding itself.
//!
//! # Use
//!
//!     let known = label_number(b" Latin1 ");
//!     let unknown = label_number(b"latin-one");
//!
//! `known` is `Some(places::WINDOWS_1252)`, and `unknown` is `None`.
#![tactic(auto)]

mod label;
pub mod places;
mod table;

pub use label::label_number;
