//! The rows of the GB18030 ranges, as they are lent.

ghost use Rattle.std.specs.Prelude.{◌≡◌, ℕ, ◌<◌, List, IfSome};
ghost use Rattle.encoding_tables.specs.Ranges.{range_value, range_pointer};

use crate::packed_ranges::PackedRanges;
use std::marker::Model;

/// The rows of the GB18030 ranges, lent by tables: each a pointer and the code point that stands
/// there, from which both go on to the next row.
#[derive(Drop)]
pub struct Ranges<'a> {
    packed: &'a PackedRanges,
}

impl<'a> Model for Ranges<'a> {
    ghost Value = { List (ℕ × ℕ) };

    ghost view = { λ r. r.packed.now };
}

impl<'a> Ranges<'a> {
    /// Rows that were taken.
    pub(crate) fn new(packed: &'a PackedRanges) -> Self
        ensures { result ≡ packed.now }
    {
        Ranges { packed }
    }

    /// The character at a pointer, or `None` if the pointer is not a valid one (39420 to 188999 and
    /// from 1237576 on) or is before the first row (the Encoding Standard, section 5, "index
    /// gb18030 ranges code point").
    pub fn value(&self, pointer: u32) -> Option<char>
        ensures { result ≡ range_value self.now pointer }
    {
        self.packed.value(pointer)
    }

    /// The pointer that is written for a character: 7457 for U+E7C7, and else the valid pointer,
    /// other than 7457, whose value by the rows it is; `None` if there is none (the Encoding
    /// Standard, section 5, "index gb18030 ranges pointer").
    pub fn pointer(&self, c: char) -> Option<u32>
        ensures pointer { result ≡ range_pointer self.now c }
        ensures before { IfSome result (λ p. p < 1237576) }
    {
        self.packed.pointer(c)
    }
}
