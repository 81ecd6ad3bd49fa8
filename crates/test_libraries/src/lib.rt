//! Tests for what the programs of cases have no lines for, with results worked by hand: labels
//! (`encoding_labels`), encodings and calls for whole texts (`encoding_front`), counted devices
//! (`recode_log`), the places that a log names and what is printed of them (`recode_places`,
//! `recode_places_report`), the program and its calls of writers (`recode`). This crate has tests
//! alone.
#![tactic(auto)]

#[cfg(test)]
mod decoder;
#[cfg(test)]
mod devices;
#[cfg(test)]
mod edges;
#[cfg(test)]
mod encoder;
#[cfg(test)]
mod encoding;
#[cfg(test)]
#[cfg(test)]
mod labels;
#[cfg(test)]
mod one_shot;
#[cfg(test)]
mod places;
#[cfg(test)]
mod programs;
#[cfg(test)]
mod reports;
#[cfg(test)]
mod saved;
#[cfg(test)]
mod writes;
