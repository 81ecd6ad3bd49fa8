//! Laws of the lines of the log. The function does nothing: its contract is a law.

ghost use Rattle.std.specs.Prelude.{◌≡◌, ◌↔◌, IsTrue};
ghost use Rattle.recode_log.specs.declared.line.LogLine.{LogLine};

use crate::line::LogLine;

/// Lines of the log are equal exactly when they are the same, with their numbers and their
/// character.
pub fn lines_are_compared()
    ensures { (a b : LogLine) → IsTrue (⟦<LogLine as PartialEq>⟧.eq a b) ↔ (a ≡ b) }
{}
