//! Laws of the definitions: the functions do nothing, and each contract is a law. Beside them
//! stands the search that every look-up makes, whose contract bounds its comparisons.

ghost use Rattle.std.specs.Prelude.{◌≡◌, ◌↔◌, ℕ, IsTrue, List};
ghost use Rattle.encoding_mem.specs.ReadBack.{ReadsBackExactly};
ghost use Rattle.encoding_mem.specs.Steps.{StepLaw, in_any_set};
ghost use Rattle.encoding_tables.specs.FileNames.{FileNamesDiffer};
ghost use Rattle.encoding_tables.specs.Lookups.{AreEntries};
ghost use Rattle.encoding_tables.specs.Accepted.{AcceptanceIsExact};
ghost use Rattle.encoding_tables.specs.LookupLaws.{FirstIsLeast, LastIsGreatest};
ghost use Rattle.encoding_tables.specs.NamedRows.{NamesAreExact};
ghost use Rattle.encoding_tables.specs.SingleByte.{pieces_single_byte, single_byte_coding};
ghost use Rattle.encoding_tables.specs.Replacement.{IsOneError, NeedsRoomOnce};
ghost use Rattle.encoding_tables.specs.UserDefined.{pieces_user_defined, user_defined_coding};
ghost use Rattle.encoding_tables.specs.Utf16.{ReadsUnits};
ghost use Rattle.encoding_tables.specs.RangeLaws.{ValuesAreScalars, ValuesRise};
ghost use Rattle.encoding_tables.specs.RangeLaws.{PointersAreExact, PointersReadBack};
ghost use Rattle.encoding_tables.specs.declared.index_kind.IndexKind.{IndexKind};
ghost use Rattle.encoding_tables.specs.declared.table_fault.TableFault.{TableFault};

use crate::index_kind::IndexKind;
pub use crate::search::search;
use crate::table_fault::TableFault;

/// Kinds are equal exactly when they are the same, and so are faults, with their number.
pub fn kinds_and_faults_are_compared()
    ensures kind { (a b : IndexKind) → IsTrue (⟦<IndexKind as PartialEq>⟧.eq a b) ↔ (a ≡ b) }
    ensures fault { (a b : TableFault) → IsTrue (⟦<TableFault as PartialEq>⟧.eq a b) ↔ (a ≡ b) }
{}

/// Two kinds whose files have the same name are the same kind.
pub fn file_names()
    ensures { FileNamesDiffer }
{}

/// The lists that are taken as the index of a kind are those of its size whose mapped entries are scalars
/// from U+0080, of the basic plane or, in Big5, of plane 2; that of JIS X 0208 maps nothing where
/// Shift_JIS has end-user-defined characters.
pub fn lists()
    ensures { AcceptanceIsExact }
{}

/// The pointers that are found in the list of an index are the least and the greatest with a character.
pub fn pointers()
    ensures first { FirstIsLeast }
    ensures last { LastIsGreatest }
{}

/// What holds of all rows that are taken as ranges: their values are scalars from U+0080 and rise,
/// a pointer that is found is the one that there is, and it has the character that it was found
/// for. In rows that are not taken, the row that is named is the first that is out of order; if
/// there is none, the first with a wrong value.
pub fn ranges()
    ensures scalars { ValuesAreScalars }
    ensures rise { ValuesRise }
    ensures exact { PointersAreExact }
    ensures read_back { PointersReadBack }
    ensures names { NamesAreExact }
{}

/// What is written in a single-byte encoding reads back, by the decoder of the same list, as the
/// text exactly when each character of it has a byte.
pub fn single_byte_text_reads_back()
    ensures { (flat : List ℕ) → AreEntries flat → ReadsBackExactly (pieces_single_byte flat) (single_byte_coding flat) }
{}

/// What is written in x-user-defined reads back as the text exactly when each character of it has a
/// byte.
pub fn user_defined_text_reads_back()
    ensures { ReadsBackExactly pieces_user_defined user_defined_coding }
{}

/// What is written in a single-byte encoding for a character, its byte or its reference, reads
/// back, by the decoder of the same list, as that character, or begins with a piece that is
/// malformed or another character, whatever follows it.
pub fn single_byte_steps()
    ensures { (flat : List ℕ) → AreEntries flat → StepLaw (single_byte_coding flat) (in_any_set (pieces_single_byte flat)) }
{}

/// What is written in x-user-defined for a character, its byte or its reference, reads back as that
/// character, or begins with a piece that is malformed or another character, whatever follows it.
pub fn user_defined_steps()
    ensures { StepLaw user_defined_coding (in_any_set pieces_user_defined) }
{}

/// The pieces of units in UTF-16, in either byte order, are the characters that the units spell;
/// each surrogate in no pair is a malformed sequence.
pub fn utf16_reads_units()
    ensures { ReadsUnits }
{}

/// Some bytes in the replacement encoding are one error and no text besides.
pub fn replacement_is_one_error()
    ensures { IsOneError }
{}

/// A call of replacement's decoder ends for lack of room only before its error: once that is
/// returned, no call of a decoder with these pieces returns `OutputFull`.
pub fn replacement_needs_room_once()
    ensures { NeedsRoomOnce }
{}
