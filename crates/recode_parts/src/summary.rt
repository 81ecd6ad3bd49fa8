//! What is reported of a part of an input, and of several in a row.

ghost use Rattle.std.specs.Prelude.{◌≡◌, ◌≤◌, ◌+◌, ◌^◌, ◌⊎◌, IfNone, IfSome};

use crate::before::Before;
use recode::Report;

/// What is reported of a part of an input that was converted, or of several parts in a row.
#[derive(Clone, Copy, PartialEq, Eq, Debug)]
pub struct Summary {
    /// The report on the part, or on the parts as a whole. Its `calls` are those of all parts.
    pub report: Report,
    /// How many characters its text has, with U+FFFD for each malformed sequence.
    pub characters: u64,
}

impl Summary {
    ghost use Rattle.recode_parts.specs.Summaries.{AddsParts};

    /// What stands before the part that comes next.
    pub fn before_next(self) -> Before
        ensures bytes { result.bytes ≡ self.report.read }
        ensures characters { result.characters ≡ self.characters }
    {
        Before {
            bytes: self.report.read,
            characters: self.characters,
        }
    }

    /// This part and the next one, as a whole. `None` if a count would be 2^64 or more: never of
    /// parts of an input that is within the limit of a job.
    pub fn and(self, next: Summary) -> Option<Summary>
        ensures some { IfSome result (AddsParts self next) }
        ensures none { IfNone result ((2 ^ 64 ≤ self.report.read + next.report.read)
            ⊎ (2 ^ 64 ≤ self.report.bad + next.report.bad)
            ⊎ (2 ^ 64 ≤ self.report.lost + next.report.lost)
            ⊎ (2 ^ 64 ≤ self.report.calls + next.report.calls)
            ⊎ (2 ^ 64 ≤ self.characters + next.characters)) }
    {
        let report = Report {
            read: self.report.read.checked_add(next.report.read)?,
            bad: self.report.bad.checked_add(next.report.bad)?,
            lost: self.report.lost.checked_add(next.report.lost)?,
            calls: self.report.calls.checked_add(next.report.calls)?,
            encoding: self.report.encoding,
            faithful: self.report.faithful && next.report.faithful,
        };
        let characters = self.characters.checked_add(next.characters)?;
        Some(Summary { report, characters })
    }
}
