//! What a conversion lost, as records in place of the lines of a log.

ghost use Rattle.std.specs.Prelude.{◌≡◌, Some};

use crate::status::{BAD, LOST};
use recode_log::LogLine;

/// A loss: a malformed sequence of the input, or an unmappable character of the text.
#[repr(C)]
#[derive(Clone, Copy)]
pub struct Loss {
    /// Of a malformed sequence, its offset in the input in bytes; of a character, the number of
    /// characters of the text before it.
    pub place: u64,
    /// Of a malformed sequence, its length in bytes, 1 to 4; of a character, its code point, or
    /// U+FFFD for U+000E, U+000F and U+001B in ISO-2022-JP.
    pub number: u32,
    /// `BAD` for a malformed sequence, `LOST` for a character.
    pub kind: u8,
}

impl Loss {
    ghost use Rattle.jillapun_c.specs.Losses.{line_of};

    /// None, where records are to be put.
    pub(crate) const NONE: Loss = Loss {
        place: 0,
        number: 0,
        kind: 0,
    };

    /// The record of a line of the log.
    pub(crate) fn of(line: LogLine) -> Loss
        ensures { line_of result ≡ Some line }
    {
        match line {
            LogLine::Bad { offset, length } => Loss {
                place: offset,
                number: u32::from(length),
                kind: BAD,
            },
            LogLine::Lost { index, scalar } => Loss {
                place: index,
                number: u32::from(scalar),
                kind: LOST,
            },
        }
    }
}
