//! What stands before a part of an input, and the lines of its log as lines of the whole.

ghost use Rattle.std.specs.Prelude.{◌≡◌, IfNone, IfSome};
ghost use Rattle.recode_log.specs.Line.{IsValid};
ghost use Rattle.recode.specs.Parts.{moved_line};

use recode_log::LogLine;

/// What stands before a part of an input: how many bytes, and how many characters of the text.
#[derive(Clone, Copy, PartialEq, Eq, Debug)]
pub struct Before {
    /// The bytes of the input before the part.
    pub bytes: u64,
    /// The characters of the text before the part, with U+FFFD for each malformed sequence.
    pub characters: u64,
}

impl Before {
    /// A line of the part's log as a line of the log of the whole: its offset counts the bytes
    /// before the part too, its index the characters. `None` if that is no
    /// line of a log (`LogLine::is_valid`).
    pub fn line_in_whole(self, line: LogLine) -> Option<LogLine>
        ensures some { IfSome result (λ l. l ≡ moved_line self.bytes self.characters line) }
        ensures valid { IfSome result IsValid }
        ensures none { IfNone result (¬ (IsValid (moved_line self.bytes self.characters line))) }
    {
        let moved = match line {
            LogLine::Bad { offset, length } => LogLine::Bad {
                offset: self.bytes.checked_add(offset)?,
                length,
            },
            LogLine::Lost { index, scalar } => LogLine::Lost {
                index: self.characters.checked_add(index)?,
                scalar,
            },
        };
        moved.is_valid().then_some(moved)
    }
}
