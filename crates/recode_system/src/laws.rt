//! A law of the reasons why there are no words. The function does nothing: its contract is a law.

ghost use Rattle.std.specs.Prelude.{◌≡◌, ◌↔◌, IsTrue};
ghost use Rattle.recode_system.specs.declared.command_line.Wordless.{Wordless};

use crate::command_line::Wordless;

/// Two reasons why there are no words are equal exactly if they are the same.
pub fn reasons_are_compared()
    ensures { (a b : Wordless) → IsTrue (⟦<Wordless as PartialEq>⟧.eq a b) ↔ (a ≡ b) }
{}
