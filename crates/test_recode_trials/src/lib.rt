//! Conversions with devices that cut the input, fail, and note what happens to them. A line says
//! what must come of a conversion. Each call of a device is made to fail, one at a time.
#![tactic(auto)]

pub mod case;
pub mod compare;
pub mod parts;
pub mod sink;
pub mod source;
pub mod stops;
pub mod tape;
pub mod trial;
