//! Encodings, handlings of marks and kinds of index as the numbers that cross.

ghost use Rattle.std.specs.Prelude.{◌≡◌, ◌<◌};
ghost use Rattle.encoding_front.specs.EncodingTable.{number_of};
ghost use Rattle.jillapun_c.specs.EncodingNumbers.{encoding_at, mark_at};

use crate::status::{KEEP, REMOVE, SNIFF};
use encoding_front::{Encoding, Mark};

/// The encoding with a number.
pub(crate) fn encoding_of(number: u8) -> Option<Encoding>
    ensures { result ≡ encoding_at number }
{
    if number as usize >= Encoding::ALL.len() {
        return None;
    }
    Some(Encoding::ALL[number as usize])
}

/// The number of an encoding.
pub(crate) fn number_of(encoding: Encoding) -> u8
    ensures number { result ≡ number_of encoding }
    ensures small { result < 40 }
{
    encoding as u8
}

/// The number of a handling of byte order marks.
pub(crate) fn number_of_mark(mark: Mark) -> u8
    ensures { mark_at result ≡ Some mark }
{
    mark as u8
}

/// What a number says of byte order marks.
pub(crate) fn mark_of(number: u8) -> Option<Mark>
    ensures { result ≡ mark_at number }
{
    match number {
        SNIFF => Some(Mark::Sniff),
        REMOVE => Some(Mark::Remove),
        KEEP => Some(Mark::Keep),
        _ => None,
    }
}
