//! A word of the command line as messages show it.

use std::fmt;

/// A word of the command line as messages show it. `Display` shows each control character by its
/// number, as `<U+001B>`, so that no word ends the line of a message or controls a terminal.
#[derive(Clone, Copy, Debug)]
pub struct ShownWord<'a>(pub &'a str);

impl fmt::Display for ShownWord<'_> {
    fn fmt<W: fmt::Write>(&self, f: &mut fmt::Formatter<W>) -> fmt::Result {
        for c in self.0.chars() {
            if c.is_control() {
                write!(f, "<U+{:04X}>", u32::from(c))?;
            } else {
                write!(f, "{c}")?;
            }
        }
        Ok(())
    }
}
