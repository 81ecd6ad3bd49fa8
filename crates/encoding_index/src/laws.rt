//! Laws of lines and texts of an index. The functions do nothing: each contract is a law.

ghost use Rattle.std.specs.Prelude.{◌≡◌, ◌↔◌, IsTrue};
ghost use Rattle.encoding_index.specs.declared.fault.IndexFault.{IndexFault};
ghost use Rattle.encoding_index.specs.declared.fault.IndexFaultKind.{IndexFaultKind};
ghost use Rattle.encoding_index.specs.declared.fault.LoadFault.{LoadFault};
ghost use Rattle.encoding_index.specs.RowGrammar.{RowsAreWritten};
ghost use Rattle.encoding_index.specs.FaultLaws.{FaultsAreFirst};
ghost use Rattle.encoding_index.specs.ListLaws.{ListsAreOfRows};

use crate::fault::{IndexFault, IndexFaultKind, LoadFault};

/// What holds of every line and of every text: the rows that are read are those of the grammar, the
/// fault that is named is the first, and a list has each row's code point and 0 elsewhere.
pub fn texts()
    ensures rows { RowsAreWritten }
    ensures faults { FaultsAreFirst }
    ensures lists { ListsAreOfRows }
{}

/// Faults are equal exactly when they are the same: the kind, the line and the kind, the fault of
/// the text or of the table.
pub fn index_faults_are_compared()
    ensures kind { (a b : IndexFaultKind)
        → IsTrue (⟦<IndexFaultKind as PartialEq>⟧.eq a b) ↔ (a ≡ b) }
    ensures text { (a b : IndexFault) → IsTrue (⟦<IndexFault as PartialEq>⟧.eq a b) ↔ (a ≡ b) }
    ensures load { (a b : LoadFault) → IsTrue (⟦<LoadFault as PartialEq>⟧.eq a b) ↔ (a ≡ b) }
{}
