//! Laws of what a run writes, of what its contract says and of how soon input is converted. The
//! functions do nothing: each contract is a law.

ghost use Rattle.std.specs.Prelude.{◌≡◌, ◌↔◌, ◌<◌, ◌≤◌, ◌+◌, ◌*◌, ◌++◌, ◌∷◌, ℕ, ◌⊎◌, Bool, Err};
ghost use Rattle.std.specs.Prelude.{IsFalse, IsOk, IsTrue, List, Option, Result, Some, []};
ghost use Rattle.std.specs.Prelude.{encode_utf8_all};
ghost use Rattle.std.specs.Prelude.{false, length, map, take, true};
ghost use Rattle.std.specs.Io.KnownBytes.{Appends, Consumes, IsAtEnd};
ghost use Rattle.std.specs.List.{concat, flat_map};
ghost use Rattle.std.specs.Str.{IsUtf8, chars};
ghost use Rattle.encoding_mem.specs.Agreement.{ReadsBackOrBreaks};
ghost use Rattle.encoding_mem.specs.Items.{Item};
ghost use Rattle.encoding_mem.specs.Coding.{AllMapped, last_set, lost_count, open_from, output};
ghost use Rattle.encoding_mem.specs.Piece.{ArePieces, AreWellFormed, Piece, malformed_count};
ghost use Rattle.encoding_mem.specs.Piece.{piece_len, sizes};
ghost use Rattle.encoding_mem.specs.ReadBack.{ReadsAs};
ghost use Rattle.encoding_mem.specs.Steps.{IsBroken};
ghost use Rattle.encoding_mem.specs.declared.codec.form.EscapeState.TheVariants.{Ascii};
ghost use Rattle.encoding_mem.specs.declared.codec.form.Form.TheVariants.{Unmapped};
ghost use Rattle.encoding_mem.specs.declared.codec.reference.Reference.TheVariants.{Decimal};
ghost use Rattle.encoding_mem.specs.Decided.{IsDecided, IsFixed};
ghost use Rattle.encoding_front.specs.Encodings.{IsUtf8Encoding, KeepsCharacters, coding_of};
ghost use Rattle.encoding_front.specs.Encodings.{is_ascii_compatible_of, output_encoding_of};
ghost use Rattle.encoding_front.specs.Marks.{marked_pieces, marked_text};
ghost use Rattle.encoding_front.specs.declared.mark.Mark.{Mark};
ghost use Rattle.recode.specs.Devices.{Devices, Gave, GaveToEnd, Grew, IsOf, Written};
ghost use Rattle.recode_log.specs.Line.{line_bytes};
ghost use Rattle.recode_log.specs.declared.line.LogLine.TheVariants.{Lost};
ghost use Rattle.recode.specs.Job.{Faithful, IsValidJob, input_pieces, input_text, log_lines};
ghost use Rattle.recode.specs.Job.{log_of, lost_log_lines, output_of, output_pieces, target_of};
ghost use Rattle.recode.specs.Converter.{ConverterView, ConvertsPart, ConvertedSoFar};
ghost use Rattle.recode.specs.Converter.{IsFreshConverter, IsReportButCalls, IsWhole};
ghost use Rattle.recode.specs.Converter.{characters_of, owes};
ghost use Rattle.recode.specs.Job.{trace, whole_trace};
ghost use Rattle.recode.specs.Job.{RunsThrough, lines_up_to_loss};
ghost use Rattle.recode.specs.SavedConverters.{SavesConverter};
ghost use Rattle.recode.specs.declared.converter.saved_converter.SavedConverter.{SavedConverter};
ghost use Rattle.recode.specs.Parts.{AddsUp, AreFaithful, AreOfWhole, AreParts, CanBeCut, later};
ghost use Rattle.recode.specs.Parts.{later_lines, lines_of, moved, moved_line, unwritten};
ghost use Rattle.recode.specs.Policy.{reference_form};
ghost use Rattle.recode.specs.Latency.{HasReached};
ghost use Rattle.recode.specs.ReadBackJobs.{back, in_utf8};
ghost use Rattle.recode.specs.Runs.{AgreeButForCalls, IsStopped, IsWholeOutput, RunReturns};
ghost use Rattle.recode.specs.Runs.{WroteTheSame};
ghost use Rattle.recode.specs.Session.{Completes, Fails, IsConverted, IsNewSession, IsReport};
ghost use Rattle.recode.specs.Session.{ReportsOn, Tells, View};
ghost use Rattle.recode.specs.calls.Slices.{piece_bytes};
ghost use Rattle.recode.specs.State.{State};
ghost use Rattle.recode.specs.Step.{Finishes, HasRun, IsNearlyDecided, StepsOn, Stops};
ghost use Rattle.recode.specs.Step.{WrotePrefix};
ghost use Rattle.recode.specs.Devices.{PortsView, Wrote, devices_at, written_of};
ghost use Rattle.recode.specs.Leavings.{FaultLeaves};
ghost use Rattle.recode.specs.Order.{RunsInOrder, StepsInOrder};
ghost use Rattle.recode.specs.TaggedByte.{IsPrefix, TaggedByte, log_bytes, order_of, output_bytes};
ghost use Rattle.recode_log.specs.Counted.{passed_of};
ghost use Rattle.recode_log.specs.Journal.{Entry};
ghost use Rattle.recode_log.specs.Ports.{journal_of};
ghost use Rattle.recode.specs.RunsTold.{CompletesTold, FailsTold};
ghost use Rattle.recode.specs.Told.{TellWhatPassed, Told};
ghost use Rattle.recode_log.specs.Told.{TellsReads, TellsTaken};
ghost use Rattle.recode.specs.Work.{ReportsFewCalls};
ghost use Rattle.recode_log.specs.declared.ports.Ports.{Ports};
ghost use Rattle.recode.specs.Latency.{KeepsPace, open_trace};
ghost use Rattle.recode.specs.Program.{AnswersProgram, FileTexts, StatusSays};
ghost use Rattle.recode.specs.WrittenItems.{StopsAtLoss, bad_line_count, lost_line_count};
ghost use Rattle.recode.specs.declared.job.Fault.{Fault};
ghost use Rattle.recode.specs.declared.job.Job.{Job};
ghost use Rattle.recode.specs.IndexFaults.{IsSameStartFault};
ghost use Rattle.recode.specs.declared.indexes.SourceFault.{SourceFault};
ghost use Rattle.recode.specs.declared.indexes.StartFault.{StartFault};
ghost use Rattle.recode.specs.declared.job.Policy.{Policy};
ghost use Rattle.recode.specs.declared.job.Progress.{Progress};
ghost use Rattle.recode.specs.declared.job.Report.{Report};
ghost use Rattle.recode.specs.declared.session.Phase.{Phase};
ghost use Rattle.recode.specs.declared.counts.Counts.{Counts};

use crate::converter::ConverterResult;
use crate::counts::Counts;
use crate::indexes::{SourceFault, StartFault};
use crate::job::{Fault, Policy, Progress, Report};
use crate::session::Phase;

/// How a step or a call of a converter ended, how far a session is, counts, policies, reports and
/// faults are equal exactly when they are the same.
pub fn reports_are_compared()
    ensures progress { (a b : Progress) → IsTrue (⟦<Progress as PartialEq>⟧.eq a b) ↔ (a ≡ b) }
    ensures report { (a b : Report) → IsTrue (⟦<Report as PartialEq>⟧.eq a b) ↔ (a ≡ b) }
    ensures fault { (a b : Fault) → IsTrue (⟦<Fault as PartialEq>⟧.eq a b) ↔ (a ≡ b) }
    ensures policy { (a b : Policy) → IsTrue (⟦<Policy as PartialEq>⟧.eq a b) ↔ (a ≡ b) }
    ensures source { (a b : SourceFault)
        → IsTrue (⟦<SourceFault as PartialEq>⟧.eq a b) ↔ (a ≡ b) }
    ensures start { (a b : StartFault)
        → IsTrue (⟦<StartFault as PartialEq>⟧.eq a b) ↔ IsSameStartFault a b }
    ensures phase { (a b : Phase) → IsTrue (⟦<Phase as PartialEq>⟧.eq a b) ↔ (a ≡ b) }
    ensures counts { (a b : Counts) → IsTrue (⟦<Counts as PartialEq>⟧.eq a b) ↔ (a ≡ b) }
    ensures result { (a b : ConverterResult)
        → IsTrue (⟦<ConverterResult as PartialEq>⟧.eq a b) ↔ (a ≡ b) }
{}

/// What is written for an input if the policy does not stop: its text in the target, and a line for
/// each malformed sequence and each character without bytes, as many as there are.
pub fn trace_of_input()
    ensures output { (j : Job) (x : List ℕ) → RunsThrough j x
        → output_of j x ≡ output (reference_form j.policy) (target_of j) (input_text j x) }
    ensures log { (j : Job) (x : List ℕ) → RunsThrough j x
        → log_of j x ≡ flat_map line_bytes (log_lines (target_of j) 0 0 (input_pieces j x)) }
    ensures bad { (j : Job) (x : List ℕ) → RunsThrough j x
        → bad_line_count (trace j x) ≡ malformed_count (input_pieces j x) }
    ensures lost { (j : Job) (x : List ℕ) → RunsThrough j x
        → lost_line_count (trace j x) ≡ lost_count (target_of j) (input_text j x) }
{}

/// What a policy that stops leaves. If a character of the text is the first without bytes, the
/// output is the text before it, and the escape that would come before its reference. The log has
/// all lines up to that of the first lost character, with it. The fault names the first lost
/// character: its index in the text, and its scalar.
pub fn stops_at_first_loss()
    ensures output { (j : Job) (x before rest : List ℕ) (c scalar : ℕ) → j.policy ≡ Policy.Stop
        → input_text j x ≡ before ++ (c ∷ rest) → AllMapped (target_of j) before
        → (target_of j).form c ≡ Unmapped scalar
        → output_of j x ≡ open_from Decimal (target_of j) Ascii before
        ++ (target_of j).escape (last_set (target_of j) Ascii before)
        ((target_of j).set (last_set (target_of j) Ascii before) c) }
    ensures log { (j : Job) (x : List ℕ) → j.policy ≡ Policy.Stop → log_of j x
        ≡ flat_map line_bytes (lines_up_to_loss (log_lines (target_of j) 0 0 (input_pieces j x))) }
    ensures policy { (j : Job) (x : List ℕ) (index scalar : ℕ) (taken : List TaggedByte)
        → StopsAtLoss index scalar taken (trace j x) → j.policy ≡ Policy.Stop }
    ensures fault { (j : Job) (x : List ℕ) (index scalar : ℕ) (taken : List TaggedByte)
        → StopsAtLoss index scalar taken (trace j x)
        → take 1 (lost_log_lines (target_of j) 0 (input_text j x)) ≡ Lost index scalar ∷ [] }
{}

/// From UTF-8 to UTF-8, if marks are kept, text gives its own bytes, and an empty log.
pub fn utf8_text_is_kept()
    ensures output { (j : Job) (x : List ℕ) → j.mark ≡ Mark.Keep → IsUtf8Encoding j.from
        → IsUtf8Encoding j.to → IsUtf8 x → output_of j x ≡ x }
    ensures log { (j : Job) (x : List ℕ) → j.mark ≡ Mark.Keep → IsUtf8Encoding j.from
        → IsUtf8Encoding j.to → IsUtf8 x → log_of j x ≡ [] }
{}

/// If `Encoding::keeps_characters` holds of the target, nothing was lost exactly when the log is
/// empty.
pub fn faithful_where_log_is_empty()
    ensures { (j : Job) (x : List ℕ) → IsValidJob j → KeepsCharacters j.to
        → Faithful j x ↔ (log_of j x ≡ []) }
{}

/// If nothing was lost, the log is empty.
pub fn faithful_leaves_log_empty()
    ensures { (j : Job) (x : List ℕ) → IsValidJob j → Faithful j x → log_of j x ≡ [] }
{}

/// The log is empty exactly when no piece of the input is malformed, and each character of its text
/// has bytes.
pub fn log_is_empty()
    ensures { (j : Job) (x : List ℕ)
        → (log_of j x ≡ []) ↔ (AreWellFormed (input_pieces j x)
        × AllMapped (target_of j) (input_text j x)) }
{}

/// If what the calls of the reader gave is of some bytes (`IsOf`), a run that came to its end read
/// them all: cuts and sizes of buffers change nothing of the output, the log or the report. A run
/// that a fault ended wrote prefixes of them, and said that the input is too long only if it is.
/// One that the policy stopped wrote all of them.
pub fn known_input()
    ensures completes { (x : List ℕ) (s s' : Devices) (j : Job) (p : Report)
        → IsOf s.reads s'.reads x → Completes s s' j p
        → IsConverted s.written s'.written j x p }
    ensures fails { (x : List ℕ) (s s' : Devices) (j : Job) (f : Fault)
        → IsOf s.reads s'.reads x → Fails s s' j f
        → WrotePrefix s.written s'.written j.policy f (trace j x) }
    ensures too_long { (x : List ℕ) (s s' : Devices) (j : Job)
        → IsOf s.reads s'.reads x → Fails s s' j Fault.TooLong → j.limit < length x }
{}

/// What devices say of their bytes, if they do, is what their calls passed (`TellsReads`,
/// `TellsTaken`). The reader lost the bytes that its calls gave, and has none left if the last of
/// them gave none. If it said before which bytes it has, what its calls gave is of these. A writer
/// holds what it held before, and then the bytes that its calls took. After calls in a row devices
/// say what passed in all of them, if the reader said before the first which bytes it has. After a
/// run the reader lost what was read, and has none left if the end was. The writer and the log hold
/// what they held before, and then what the run wrote.
pub fn devices_tell()
    ensures begins { (d : Devices) (t : Told) → TellWhatPassed d d t t }
    ensures goes_on { (d e f : Devices) (t u v : Told) (x : List ℕ) → t.input ≡ Some x
        → TellWhatPassed d e t u → TellWhatPassed e f u v → TellWhatPassed d f t v }
    ensures gave { (a b : List (List ℕ)) (t u : Option (List ℕ)) (x : List ℕ)
        → TellsReads a b t u → Gave a b x → Consumes t u x }
    ensures ended { (a b : List (List ℕ)) (t u : Option (List ℕ)) (x : List ℕ)
        → TellsReads a b t u → GaveToEnd a b x → IsAtEnd u }
    ensures input { (x : List ℕ) (a b : List (List ℕ)) (t u : Option (List ℕ))
        → t ≡ Some x → TellsReads a b t u → IsOf a b x }
    ensures took { (a b : List ℕ) (t u : Option (List ℕ)) (x : List ℕ)
        → TellsTaken a b t u → Grew a b x → Appends t u x }
    ensures completes { (d e : Devices) (t u : Told) (j : Job) (p : Report) → TellWhatPassed d e t u
        → Completes d e j p → CompletesTold d e t u j p }
    ensures fails { (d e : Devices) (t u : Told) (j : Job) (f : Fault) → TellWhatPassed d e t u
        → Fails d e j f → FailsTold d e t u j f }
{}

/// The pieces of an input, the mark that is taken among them, stand for some bytes each, and for no
/// more characters than bytes. Joined, they are the input.
pub fn pieces_are_the_input()
    ensures pieces { (j : Job) (x : List ℕ) → IsValidJob j → ArePieces (input_pieces j x) }
    ensures sizes { (j : Job) (x : List ℕ) → IsValidJob j → sizes (input_pieces j x) ≡ length x }
    ensures covers { (j : Job) (x : List ℕ) → IsValidJob j
        → map length (piece_bytes (input_pieces j x) x) ≡ map piece_len (input_pieces j x) }
    ensures joined { (j : Job) (x : List ℕ) → IsValidJob j
        → concat (piece_bytes (input_pieces j x) x) ≡ x }
{}

/// The text has at most as many characters as the input has bytes. The output has at most 13 bytes
/// for each byte of the input, as many as an escape of ISO-2022-JP and the longest reference have,
/// and three more.
pub fn lengths_are_bounded()
    ensures text { (j : Job) (x : List ℕ) → IsValidJob j → length (input_text j x) ≤ length x }
    ensures output { (j : Job) (x : List ℕ) → IsValidJob j
        → length (output_of j x) ≤ 13 * length x + 3 }
{}

/// If nothing was lost, recoding the output from its encoding to UTF-8, with marks kept, gives what
/// recoding the input to UTF-8 gives. Neither loses anything.
pub fn output_reads_back()
    ensures jobs { (j : Job) → IsValidJob j → IsValidJob (back j) × IsValidJob (in_utf8 j) }
    ensures output { (j : Job) (x : List ℕ) → Faithful j x
        → output_of (back j) (output_of j x) ≡ output_of (in_utf8 j) x }
    ensures log { (j : Job) (x : List ℕ) → Faithful j x
        → (log_of (back j) (output_of j x) ≡ []) × (log_of (in_utf8 j) x ≡ []) }
{}

/// What a job writes, read back in its output encoding without mark handling. Bytes agree with a
/// text if the pieces that they decide are it, and at most one escape is left. They are broken if
/// such a piece is malformed, or another character than the text has there. What was written for
/// any text so far agrees with it or is broken, also with an escape after it. The whole output
/// reads as the text, or what stands before its last escape is broken. What is broken stays so,
/// whatever follows, and never reads as the text.
pub fn read_back()
    ensures texts { (j : Job) → IsValidJob j → ReadsBackOrBreaks (output_pieces j) (target_of j) }
    ensures stays { (j : Job) (bytes text more following : List ℕ)
        → IsBroken (output_pieces j) bytes text
        → IsBroken (output_pieces j) (bytes ++ more) (text ++ following) }
    ensures never { (j : Job) (bytes text : List ℕ) → IsBroken (output_pieces j) bytes text
        → ¬ (ReadsAs (output_pieces j) bytes text) }
{}

/// If the output is UTF-8, no character is lost, and no line names one.
pub fn utf8_loses_nothing()
    ensures lines { (j : Job) (x : List ℕ) → IsUtf8Encoding (output_encoding_of j.to)
        → lost_line_count (trace j x) ≡ 0 }
    ensures lost { (j : Job) (x : List ℕ) → IsUtf8Encoding (output_encoding_of j.to)
        → lost_count (target_of j) (input_text j x) ≡ 0 }
{}

/// If a character is lost, the output does not read back, in any target.
pub fn lost_is_unfaithful()
    ensures { (j : Job) (x : List ℕ) → IsValidJob j
        → 0 < lost_count (target_of j) (input_text j x) → ¬ (Faithful j x) }
{}

/// Decoding at once and then encoding at once gives what a run that ends well writes, with the same
/// handling of marks and decimal references: `decode` and `encode` give the output. Its log is
/// empty exactly when neither reported a loss.
pub fn whole_texts_are_the_same()
    ensures bytes { (j : Job) (x decoded bytes : List ℕ) → IsValidJob j
        → j.policy ≡ Policy.Decimal
        → decoded ≡ encode_utf8_all (marked_text j.tables.now j.mark j.from x)
        → bytes ≡ output Decimal (coding_of j.tables.now j.to) (chars decoded)
        → bytes ≡ output_of j x }
    ensures run { (j : Job) (x decoded bytes : List ℕ) (w w' : Written) (p : Report) → IsValidJob j
        → j.policy ≡ Policy.Decimal
        → decoded ≡ encode_utf8_all (marked_text j.tables.now j.mark j.from x)
        → bytes ≡ output Decimal (coding_of j.tables.now j.to) (chars decoded)
        → IsConverted w w' j x p → Grew w.output w'.output bytes }
    ensures log { (j : Job) (x decoded : List ℕ) (malformed lost : Bool) → IsValidJob j
        → decoded ≡ encode_utf8_all (marked_text j.tables.now j.mark j.from x)
        → IsTrue malformed ↔ (0 < malformed_count (marked_pieces j.tables.now j.mark j.from x))
        → IsTrue lost ↔ (0 < lost_count (coding_of j.tables.now j.to) (chars decoded))
        → (log_of j x ≡ []) ↔ (IsFalse malformed × IsFalse lost) }
{}

/// Two runs on one job and one input that came to their end wrote the same bytes to output and log.
/// Their reports differ in `calls` alone: the cuts of the reader, the sizes of the buffers and the
/// kind of the pivot change nothing. `known` says it of readers whose calls gave what is of one
/// input, `bytes` of writers that had taken the same before.
pub fn runs_agree()
    ensures written { (j : Job) (x : List ℕ) (w w' v v' : Written) (p q : Report)
        → IsConverted w w' j x p → IsConverted v v' j x q → WroteTheSame w w' v v' }
    ensures report { (j : Job) (x : List ℕ) (w w' v v' : Written) (p q : Report)
        → IsConverted w w' j x p → IsConverted v v' j x q → AgreeButForCalls p q }
    ensures known { (j : Job) (x : List ℕ) (s s' t t' : Devices) (p q : Report)
        → IsOf s.reads s'.reads x → IsOf t.reads t'.reads x
        → Completes s s' j p
        → Completes t t' j q
        → WroteTheSame s.written s'.written t.written t'.written × AgreeButForCalls p q }
    ensures bytes { (j : Job) (x : List ℕ) (w w' v' : Written) (p q : Report)
        → IsConverted w w' j x p → IsConverted w v' j x q
        → (w'.output ≡ v'.output) × (w'.log ≡ v'.log) }
{}

/// If no call of a device fails, a run returns `Ok` exactly when the input is within the limit and
/// the policy does not stop at a character of it. Else it returns `TooLong` or `Unmappable`. What
/// the calls of the reader gave is of that input; if it is not, the result is still one of these,
/// and `Unmappable` under `Policy::Stop` alone.
pub fn answers_without_faults()
    ensures ok { (j : Job) (x : List ℕ) (s s' : Devices) (answer : Result Report Fault)
        → s'.failures ≡ s.failures → IsOf s.reads s'.reads x → RunReturns s s' j answer
        → IsOk answer ↔ ((length x ≤ j.limit) × RunsThrough j x) }
    ensures too_long { (j : Job) (x : List ℕ) (s s' : Devices) (answer : Result Report Fault)
        → s'.failures ≡ s.failures → IsOf s.reads s'.reads x → RunReturns s s' j answer
        → RunsThrough j x
        → (answer ≡ Err Fault.TooLong) ↔ (j.limit < length x) }
    ensures either { (j : Job) (s s' : Devices) (answer : Result Report Fault)
        → s'.failures ≡ s.failures → RunReturns s s' j answer
        → IsOk answer ⊎ ((answer ≡ Err Fault.TooLong) ⊎ IsStopped j.policy answer) }
{}

/// A report that counts a lost character does not say that nothing was lost.
pub fn lost_is_told()
    ensures { (j : Job) (x : List ℕ) (p : Report) → IsValidJob j → IsReport j x p → 0 < p.lost
        → ¬ (IsTrue p.faithful) }
{}

/// If a run says that nothing was lost, a run that recodes its output to UTF-8, with marks kept,
/// writes what a run that recodes its input to UTF-8 writes.
pub fn faithful_output_reads_back()
    ensures { (j : Job) (x bytes again direct : List ℕ) (w w' v v' u u' : Written) (p q r : Report)
        → IsTrue p.faithful → IsWholeOutput w w' bytes → IsConverted w w' j x p
        → IsWholeOutput v v' again → IsConverted v v' (back j) bytes q
        → IsWholeOutput u u' direct → IsConverted u u' (in_utf8 j) x r → again ≡ direct }
{}

/// A new session has converted nothing. One that steps on has converted the pieces that the step
/// took too.
pub fn steps_add_up()
    ensures first { (t : Devices) (j : Job) (v : View) → IsNewSession v j
        → HasReached t t j v.state [] [] }
    ensures next { (t t1 t2 : Devices) (j : Job) (limit : ℕ) (s s1 : State) (x : List ℕ)
        (ps : List Piece)
        → HasReached t t1 j s x ps → (p : StepsOn t1 t2 limit s s1)
        → HasReached t t2 j s1 (x ++ p.chunk) (ps ++ p.advances.taken) }
{}

/// A session that is stepped by hand keeps the promise of `run`. The steps that returned `More`, and
/// the one that ended them, are a run: a complete one if the last returned `Done`, with the report
/// of the session; a failed one if it returned a fault. The report counts as few calls as one of
/// `run`. At the end the session has counted the characters of the text of what was read. After
/// each `More`, the writer and the log have taken, in one order, all that is certain of what was
/// read.
pub fn steps_are_a_run()
    ensures begins { (t : Devices) (j : Job) (v : View) → IsNewSession v j
        → HasRun t t j.limit v.state v.state }
    ensures goes_on { (t t1 t2 : Devices) (limit : ℕ) (s s1 s2 : State)
        → HasRun t t1 limit s s1 → StepsOn t1 t2 limit s1 s2 → HasRun t t2 limit s s2 }
    ensures completes { (t t1 t2 : Devices) (j : Job) (v w : View) (s : State) (p : Report)
        → IsValidJob j → IsNewSession v j → HasRun t t1 j.limit v.state s
        → Finishes t1 t2 j.limit s w.state → Tells w p
        → Completes t t2 j p × ReportsFewCalls p }
    ensures fails { (t t1 t2 : Devices) (j : Job) (v : View) (s : State) (f : Fault)
        → IsValidJob j → IsNewSession v j → HasRun t t1 j.limit v.state s
        → Stops t1 t2 j.limit s f → Fails t t2 j f }
    ensures so_far { (t t1 : Devices) (j : Job) (v : View) (s : State)
        → IsValidJob j → IsNewSession v j → HasRun t t1 j.limit v.state s → KeepsPace t t1 j }
    ensures characters { (t t1 t2 : Devices) (j : Job) (v : View) (s w : State) (x : List ℕ)
        → IsNewSession v j → HasRun t t1 j.limit v.state s → Finishes t1 t2 j.limit s w
        → GaveToEnd t.reads t2.reads x → w.counts.index ≡ length (input_text j x) }
{}

/// After a step, a conversion has converted the longest list of pieces that the input so far
/// decides. It has converted each piece that ends three or more bytes before the end of what was
/// read, whatever bytes follow. What it has converted stands whatever numbers follow.
pub fn decided_pieces_are_converted()
    ensures decided { (t t1 : Devices) (j : Job) (s : State) (x : List ℕ) (ps : List Piece)
        → HasReached t t1 j s x ps → IsDecided (input_pieces j) x ps }
    ensures fixed { (t t1 : Devices) (j : Job) (s : State) (x : List ℕ) (ps : List Piece)
        → HasReached t t1 j s x ps → IsFixed (input_pieces j) x ps }
    ensures longest { (t t1 : Devices) (j : Job) (s : State) (x : List ℕ) (ps qs : List Piece)
        → HasReached t t1 j s x ps → IsNearlyDecided s.decoder → IsDecided (input_pieces j) x qs
        → IsPrefix qs ps }
    ensures soon { (t t1 : Devices) (j : Job) (s : State) (x y : List ℕ) (ps qs more : List Piece)
        → HasReached t t1 j s x ps → IsNearlyDecided s.decoder
        → input_pieces j (x ++ y) ≡ qs ++ more
        → sizes qs + 3 ≤ length x → IsPrefix qs ps }
{}

/// A new converter was handed nothing. Each call is added to those before: it is handed what they
/// left, and more, or nothing more after the last bytes.
pub fn calls_add_up()
    ensures begins { (j : Job) (v : ConverterView) → IsFreshConverter v j
        → ConvertedSoFar j false [] [] [] v }
    ensures goes_on { (j : Job) (last last' : Bool) (bytes rest more rest' : List ℕ)
        (items items' : List Item) (v v' : ConverterView)
        → (last ≡ true → (last' ≡ true) × (more ≡ [])) → ConvertedSoFar j last bytes rest items v
        → ConvertsPart v v' last' (rest ++ more) rest' items'
        → ConvertedSoFar j last' (bytes ++ more) rest' (items ++ items') v' }
{}

/// Once all is written, what calls of a converter wrote and found is what the job makes of all that
/// they were handed, if its policy stops nothing, and what is reported is the report on it, but for
/// the number of calls. The characters that are counted are those of its text. Before that it is
/// the first part of it, however the input goes on.
pub fn calls_are_a_conversion()
    ensures owes { (j : Job) (last : Bool) (bytes rest : List ℕ) (items : List Item)
        (v : ConverterView) → ConvertedSoFar j last bytes rest items v
        → (r : List ℕ) → (last ≡ true → r ≡ [])
        → whole_trace j (bytes ++ r) ≡ items ++ owes v (rest ++ r) }
    ensures whole { (j : Job) (bytes : List ℕ) (items : List Item) (v : ConverterView)
        → ConvertedSoFar j true bytes [] items v → IsWhole v → items ≡ whole_trace j bytes }
    ensures report { (j : Job) (bytes : List ℕ) (items : List Item) (v : ConverterView)
        (p : Report) → ConvertedSoFar j true bytes [] items v → IsWhole v → ReportsOn v.state p
        → IsReportButCalls j bytes p }
    ensures so_far { (j : Job) (last : Bool) (bytes rest : List ℕ) (items : List Item)
        (v : ConverterView) → ConvertedSoFar j last bytes rest items v
        → (r : List ℕ) → (last ≡ true → r ≡ [])
        → length (input_text j (bytes ++ r)) ≡ characters_of v (rest ++ r) }
    ensures characters { (j : Job) (bytes : List ℕ) (items : List Item) (v : ConverterView)
        → ConvertedSoFar j true bytes [] items v → IsWhole v
        → v.state.counts.index ≡ length (input_text j bytes) }
{}

/// Two converters of which the same was saved, with the same text, and whose jobs have the same
/// indexes, are the same to their callers. So one that was resumed (`Converter::resumed`) goes on
/// as the saved one would have.
pub fn resumed_converters_go_on()
    ensures { (w : SavedConverter) (text : List ℕ) (v u : ConverterView) → v.lists ≡ u.lists
        → SavesConverter w text v → SavesConverter w text u → v ≡ u }
{}

/// An input is cut behind a byte below 30, as a line feed is, if its encoding and the output
/// encoding are compatible with ASCII (`CanBeCut`). A part is what stands between two cuts: the
/// first is converted as the whole would be, the others from the encoding that the first is in,
/// with marks kept (`later`). What is written for the whole is what is written for the parts, one
/// after another, moved: offsets and indexes count the bytes and the characters before the part. A
/// part that the policy stops is the last. Nothing is lost of the whole exactly if nothing is lost
/// of either part.
pub fn parts_are_the_whole()
    ensures job { (j : Job) (x : List ℕ) → IsValidJob j → IsValidJob (later j x) }
    ensures pieces { (j : Job) (x y : List ℕ) → IsValidJob j → CanBeCut j x
        → input_pieces j (x ++ y) ≡ input_pieces j x ++ input_pieces (later j x) y }
    ensures text { (j : Job) (x y : List ℕ) → IsValidJob j → CanBeCut j x
        → input_text j (x ++ y) ≡ input_text j x ++ input_text (later j x) y }
    ensures runs_through { (j : Job) (x y : List ℕ) → IsValidJob j → CanBeCut j x
        → RunsThrough j (x ++ y) ↔ (RunsThrough j x × RunsThrough (later j x) y) }
    ensures trace { (j : Job) (x y : List ℕ) → IsValidJob j → CanBeCut j x → RunsThrough j x
        → trace j (x ++ y) ≡ trace j x
        ++ map (moved (length x) (length (input_text j x))) (trace (later j x) y) }
    ensures stops { (j : Job) (x y : List ℕ) → IsValidJob j → CanBeCut j x
        → j.policy ≡ Policy.Stop → 0 < lost_count (target_of j) (input_text j x)
        → trace j (x ++ y) ≡ trace j x }
    ensures output { (j : Job) (x y : List ℕ) → IsValidJob j → CanBeCut j x → RunsThrough j x
        → output_of j (x ++ y) ≡ output_of j x ++ output_of (later j x) y }
    ensures lines { (j : Job) (x y : List ℕ) → IsValidJob j → CanBeCut j x → RunsThrough j x
        → lines_of j (x ++ y) ≡ lines_of j x
        ++ map (moved_line (length x) (length (input_text j x))) (lines_of (later j x) y) }
    ensures log { (j : Job) (x : List ℕ) → log_of j x ≡ flat_map line_bytes (lines_of j x) }
    ensures verdict { (j : Job) (x y : List ℕ) → IsValidJob j → CanBeCut j x
        → Faithful j (x ++ y) ↔ (Faithful j x × Faithful (later j x) y) }
    ensures reports { (j : Job) (x y : List ℕ) (p q r : Report) → IsValidJob j → CanBeCut j x
        → IsReport j x p → IsReport (later j x) y q → IsReport j (x ++ y) r → AddsUp p q r }
{}

/// An input of many parts, each of which but the last ends in a byte below 30: the first is x. The
/// output is that of the first, then those of the others, each converted by itself, and so is the
/// log, its lines moved. Nothing is lost of the whole exactly if nothing is lost of any part.
pub fn many_parts_are_the_whole()
    ensures output { (j : Job) (x : List ℕ) (parts : List (List ℕ)) → IsValidJob j → CanBeCut j x
        → AreParts parts → RunsThrough j (x ++ concat parts)
        → output_of j (x ++ concat parts)
        ≡ output_of j x ++ flat_map (output_of (later j x)) parts }
    ensures lines { (j : Job) (x : List ℕ) (parts : List (List ℕ)) → IsValidJob j → CanBeCut j x
        → AreParts parts → RunsThrough j (x ++ concat parts)
        → lines_of j (x ++ concat parts) ≡ lines_of j x
        ++ later_lines (later j x) (length x) (length (input_text j x)) parts }
    ensures verdict { (j : Job) (x : List ℕ) (parts : List (List ℕ)) → IsValidJob j
        → CanBeCut j x → AreParts parts
        → Faithful j (x ++ concat parts) ↔ (Faithful j x × AreFaithful (later j x) parts) }
{}

/// Two runs on the parts of an input, each with an output and a log of its own that were empty:
/// joined, they are what a run on the whole writes. The lines of the second log are moved by the
/// bytes that the first run read (`Report::read`), and by the characters that it counted
/// (`Session::characters`, `Converter::characters`), which are those of its input's text.
pub fn runs_on_parts_are_a_run()
    ensures { (j : Job) (x y : List ℕ) (v w : Written) (p q : Report) (characters : ℕ)
        → IsValidJob j → CanBeCut j x
        → IsConverted unwritten v j x p → characters ≡ length (input_text j x)
        → IsConverted unwritten w (later j x) y q
        → AreOfWhole j x y v w p q characters }
{}

/// What the exit status of the program says, whatever it was asked for. 0: an input was read to its
/// end, output and log are exactly those of it, and nothing was lost; or help, version or the list
/// was asked for. 1: the same of an input of which something was lost. 2: the words were refused.
/// 3: the start failed. 4: a fault ended the run; what it leaves, then the log has the message.
pub fn statuses_say_what_was_done<R, W, L>()
    ensures { (holds : FileTexts) (remaining : R → Option (List ℕ)) (contents : W → Option (List ℕ))
        (logged : L → Option (List ℕ)) (before after : PortsView R W L) (words : List (List ℕ))
        (status : ℕ)
        → AnswersProgram holds remaining contents logged before after words status
        → StatusSays holds before after words status }
{}

/// `TookCertain` leaves out the escape sequence at the end of a trace. What remains is a prefix of
/// the trace, and all of it if the output encoding is compatible with ASCII, as there is no escape
/// sequence then.
pub fn certain_is_of_the_trace()
    ensures front { (j : Job) (x : List ℕ) → IsPrefix (open_trace j x) (trace j x) }
    ensures same { (j : Job) (x : List ℕ)
        → is_ascii_compatible_of (output_encoding_of j.to) ≡ true
        → open_trace j x ≡ trace j x }
{}

/// What a run that a fault ended says that there is, is determined by what passed through the
/// devices: the reads, and what was taken, in one order.
pub fn what_a_fault_leaves_is_determined()
    ensures reads { (s s' : Devices) (j : Job) (f : Fault) (p q : Fails s s' j f)
        → p.reads ≡ q.reads }
    ensures taken { (s s' : Devices) (j : Job) (f : Fault) (p q : Fails s s' j f)
        → p.taken ≡ q.taken }
{}

/// What each kind of fault leaves (`LeftBy`), as a table. A failed read: all that is certain of
/// what was read. A failed write, of the output or of the log: a prefix. An input that is too long:
/// all that is certain of all reads but the last, with which they pass the limit. A policy that
/// stops: all up to the line of the character.
pub fn what_each_fault_leaves()
    ensures { (s s' : Devices) (j : Job) (f : Fault) → Fails s s' j f → FaultLeaves s s' j f }
{}

/// The order of the calls of steps, over `Ports`. It holds before the first step. If it holds of the
/// calls so far, and all that is certain was taken (`steps_are_a_run`), it holds after one more
/// step, which begins with a read. What the writer and the log took up to any call is a prefix of
/// what they took in all.
pub fn steps_keep_up<R, W, L>()
    ensures begins { (es : List Entry) (j : Job) → RunsInOrder es es j }
    ensures goes_on { (a b : Ports R W L) (j : Job) (after : List Entry)
        → RunsInOrder (journal_of a) (journal_of b) j
        → KeepsPace (devices_at a) (devices_at b) j → StepsInOrder (journal_of b) after
        → RunsInOrder (journal_of a) after j }
    ensures prefix { (a b : Ports R W L) (taken : List TaggedByte) (front back : List Entry)
        → Wrote (written_of a) (written_of b) taken
        → journal_of b ≡ journal_of a ++ (front ++ back) → IsPrefix (order_of front) taken }
{}

/// What the writer and the log took in one order has the bytes of each.
pub fn order_is_of_both<R, W, L>()
    ensures output { (p : Ports R W L)
        → output_bytes (order_of (journal_of p)) ≡ passed_of p.writer.now }
    ensures log { (p : Ports R W L) → log_bytes (order_of (journal_of p)) ≡ passed_of p.log.now }
{}
