//! Laws of the words' values and faults. The functions do nothing: each contract is a law.

ghost use Rattle.std.specs.Prelude.{◌≡◌, ◌↔◌, IsTrue};
ghost use Rattle.recode_words.specs.Request.{IsSameFault};
ghost use Rattle.recode_words.specs.declared.request.WordsFault.{WordsFault};
ghost use Rattle.recode_words.specs.declared.words.MarkWord.{MarkWord};
ghost use Rattle.recode_words.specs.declared.words.PivotWord.{PivotWord};
ghost use Rattle.recode_words.specs.declared.words.PolicyWord.{PolicyWord};

use crate::request::WordsFault;
use crate::words::{MarkWord, PivotWord, PolicyWord};

/// What is done with a mark or with a character without bytes, and forms of text, are equal exactly
/// when they are the same.
pub fn words_are_compared()
    ensures mark { (a b : MarkWord) → IsTrue (⟦<MarkWord as PartialEq>⟧.eq a b) ↔ (a ≡ b) }
    ensures policy { (a b : PolicyWord) → IsTrue (⟦<PolicyWord as PartialEq>⟧.eq a b) ↔ (a ≡ b) }
    ensures pivot { (a b : PivotWord) → IsTrue (⟦<PivotWord as PartialEq>⟧.eq a b) ↔ (a ≡ b) }
{}

/// Why words are refused is equal exactly if the text of the refusal is.
pub fn words_faults_are_compared()
    ensures { (a b : WordsFault) → IsTrue (⟦<WordsFault as PartialEq>⟧.eq a b) ↔ IsSameFault a b }
{}
