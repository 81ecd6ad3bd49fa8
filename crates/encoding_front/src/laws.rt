//! Laws of encodings. The functions do nothing: each contract is a law.

ghost use Rattle.std.specs.Prelude.{◌≡◌, ◌↔◌, ◌<◌, ◌≤◌, ◌+◌, ◌*◌, ◌++◌, ℕ, true, IsTrue, List};
ghost use Rattle.std.specs.Prelude.{Bool, length, encode_utf8_all};
ghost use Rattle.std.specs.Str.{all_scalars, chars};
ghost use Rattle.encoding_mem.specs.declared.codec.reference.Reference.{Reference};
ghost use Rattle.encoding_mem.specs.declared.codec.reference.Reference.TheVariants.{Decimal};
ghost use Rattle.encoding_mem.specs.Agreement.{ReadsBackOrBreaks, ReadsByStep};
ghost use Rattle.encoding_mem.specs.Coding.{AllMapped, lost_count, mapped_bytes, open_from};
ghost use Rattle.encoding_mem.specs.Coding.{output, reference_bytes, whole_from};
ghost use Rattle.encoding_mem.specs.calls.Decoding.{TakesSoon};
ghost use Rattle.encoding_mem.specs.calls.EncoderCalls.{Encodes};
ghost use Rattle.encoding_mem.specs.Parts.{EndsInCut, IsCutByte, StandsAlone};
ghost use Rattle.encoding_mem.specs.Piece.{ArePieces, AreWellFormed, malformed_count};
ghost use Rattle.encoding_mem.specs.Piece.{sizes, text};
ghost use Rattle.encoding_mem.specs.calls.ReadCalls.{KeepsVerdict, IsNotUnmappable};
ghost use Rattle.encoding_mem.specs.declared.codec.encoder_result.EncoderResult.{EncoderResult};
ghost use Rattle.encoding_mem.specs.ReadBack.{ReadsAs, ReadsBackExactly};
ghost use Rattle.encoding_mem.specs.Steps.{IsBroken};
ghost use Rattle.encoding_mem.specs.declared.codec.decoder_result.DecoderResult.{DecoderResult};
ghost use Rattle.encoding_mem.specs.declared.codec.form.EscapeState.{EscapeState};
ghost use Rattle.encoding_mem.specs.declared.codec.form.EscapeState.TheVariants.{Ascii};
ghost use Rattle.encoding_tables.specs.IndexLists.{AreAcceptedTables, IndexLists};
ghost use Rattle.encoding_front.specs.calls.ReportedCharacter.{ReportsItself};
ghost use Rattle.encoding_front.specs.calls.DecoderCall.{DecoderCall, Destination, HasText};
ghost use Rattle.encoding_front.specs.calls.DecoderCall.{RoomLeft, TextCall};
ghost use Rattle.encoding_front.specs.calls.Encoder.{Encoded, EncoderState, Replaces, coding_in};
ghost use Rattle.encoding_front.specs.EncodingTable.{encoding_name};
ghost use Rattle.encoding_front.specs.Encodings.{HasLabel, KeepsCharacters, coding_of};
ghost use Rattle.encoding_front.specs.Encodings.{is_ascii_compatible_of};
ghost use Rattle.encoding_front.specs.Encodings.{output_encoding_of, pieces_of};
ghost use Rattle.encoding_front.specs.Encodings.{set_pieces_of};
ghost use Rattle.encoding_front.specs.Marks.{marked_pieces, marked_text, source_of};
ghost use Rattle.encoding_front.specs.calls.SavedDecoders.{ReadsAlike, Saves};
ghost use Rattle.encoding_front.specs.calls.Stream.{DecoderView, IsMadeFrom};
ghost use Rattle.encoding_front.specs.declared.decoder.saved_decoder.SavedDecoder.{SavedDecoder};
ghost use Rattle.encoding_front.specs.declared.coder_result.CoderResult.{CoderResult};
ghost use Rattle.encoding_front.specs.declared.mark.Mark.{Mark};
ghost use Rattle.encoding_front.specs.declared.one_shot_fault.OneShotFault.{OneShotFault};
ghost use Rattle.encoding_front.specs.declared.encoding.Encoding.{Encoding};
ghost use Rattle.encoding_front.specs.declared.encoding.Encoding.TheVariants.{Replacement, Utf16Be};
ghost use Rattle.encoding_front.specs.declared.encoding.Encoding.TheVariants.{Utf16Le};

use crate::coder_result::CoderResult;
use crate::encoding::Encoding;
use crate::mark::Mark;
use crate::one_shot_fault::OneShotFault;
use std::hash::Hash;

/// Encodings are equal exactly when they are the same of the forty, and so are the bytes by which
/// they are hashed.
pub fn equality()
    ensures equal { (d e : Encoding) → IsTrue (⟦<Encoding as PartialEq>⟧.eq d e) ↔ (d ≡ e) }
    ensures hash { (d e : Encoding)
        → (⟦<Encoding as Hash>⟧.hash_input d ≡ ⟦<Encoding as Hash>⟧.hash_input e) ↔ (d ≡ e) }
{}

/// Results of calls, marks and faults are equal exactly when they are the same.
pub fn outcomes_are_compared()
    ensures result { (a b : CoderResult) → IsTrue (⟦<CoderResult as PartialEq>⟧.eq a b) ↔ (a ≡ b) }
    ensures mark { (a b : Mark) → IsTrue (⟦<Mark as PartialEq>⟧.eq a b) ↔ (a ≡ b) }
    ensures fault { (a b : OneShotFault) → IsTrue (⟦<OneShotFault as PartialEq>⟧.eq a b) ↔ (a ≡ b) }
{}

/// An output encoding is its own, and it is none of UTF-16BE, UTF-16LE and replacement, which have no encoder.
pub fn output_encodings()
    ensures twice { (e : Encoding)
        → output_encoding_of (output_encoding_of e) ≡ output_encoding_of e }
    ensures utf_16be { (e : Encoding) → ¬ (output_encoding_of e ≡ Utf16Be) }
    ensures utf_16le { (e : Encoding) → ¬ (output_encoding_of e ≡ Utf16Le) }
    ensures replacement { (e : Encoding) → ¬ (output_encoding_of e ≡ Replacement) }
{}

/// The name of an encoding is a label of it: so `for_label` of the name is the encoding.
pub fn names_are_labels()
    ensures { (e : Encoding) → HasLabel e (encoding_name e) }
{}

/// What is written for a text reads back as that text exactly when each character of it has bytes,
/// by any indexes that were accepted, if the output encoding has no folds.
pub fn texts_read_back()
    ensures { (t : IndexLists) (e : Encoding) → KeepsCharacters e → AreAcceptedTables t
        → ReadsBackExactly (pieces_of t (output_encoding_of e)) (coding_of t e) }
{}

/// What is written for a text in an output encoding, by any indexes that were accepted, read back
/// in that encoding. What was written for the text so far agrees with it or is broken, also with an
/// escape after it. The whole output reads as the text, or what stands before its last escape is
/// broken. What is broken stays so, whatever follows, and never reads as the text.
pub fn read_back()
    ensures texts { (t : IndexLists) (e : Encoding) → AreAcceptedTables t
        → ReadsBackOrBreaks (pieces_of t (output_encoding_of e)) (coding_of t e) }
    ensures stays { (t : IndexLists) (e : Encoding) (bytes text more following : List ℕ)
        → IsBroken (pieces_of t e) bytes text
        → IsBroken (pieces_of t e) (bytes ++ more) (text ++ following) }
    ensures never { (t : IndexLists) (e : Encoding) (bytes text : List ℕ)
        → IsBroken (pieces_of t e) bytes text → ¬ (ReadsAs (pieces_of t e) bytes text) }
{}

/// What is written for a text in an output encoding reads back character by character, from the set
/// that is in force, by any indexes that were accepted; from the start it is read as any bytes of
/// the output encoding are.
pub fn characters_read_back()
    ensures steps { (t : IndexLists) (e : Encoding) → AreAcceptedTables t
        → ReadsByStep (coding_of t e) (set_pieces_of t e) }
    ensures start { (t : IndexLists) (e : Encoding)
        → set_pieces_of t e Ascii ≡ pieces_of t (output_encoding_of e) }
{}

/// If an output encoding has no folds, a call of its encoder that reports no character keeps a true
/// verdict: nothing has to be read back, and the log alone says whether the text reads back.
pub fn kept_characters_keep_verdicts()
    ensures { (t : IndexLists) (e : Encoding) → KeepsCharacters e → AreAcceptedTables t
        → (last : Bool) (outcome : EncoderResult) (before : EscapeState) (text written : List ℕ)
        → (after : EscapeState) (rest : List ℕ) → all_scalars text ≡ true
        → Encodes (coding_of t e) last outcome before text written after rest
        → IsNotUnmappable outcome
        → KeepsVerdict (coding_of t e) last true (pieces_of t (output_encoding_of e)) before text
        true (pieces_of t (output_encoding_of e)) after rest }
{}

/// How long what is written can be. A character without bytes is reported as it is or as U+FFFD; a text of n
/// characters is written in at most 13 n + 3 bytes.
pub fn written_is_short()
    ensures form { (t : IndexLists) (e : Encoding) (c : ℕ)
        → length (mapped_bytes ((coding_of t e).form c)) ≤ 4 }
    ensures escape { (t : IndexLists) (e : Encoding) (s s' : EscapeState)
        → length ((coding_of t e).escape s s') ≤ 3 }
    ensures reported { (t : IndexLists) (e : Encoding) (c : ℕ)
        → ReportsItself c ((coding_of t e).form c) }
    ensures reference { (ref : Reference) (c : ℕ) → c < 0x110000
        → length (reference_bytes ref c) ≤ 10 }
    ensures part { (ref : Reference) (t : IndexLists) (e : Encoding) (s : EscapeState)
        (text : List ℕ) → all_scalars text ≡ true
        → length (open_from ref (coding_of t e) s text) ≤ 13 * length text }
    ensures whole { (ref : Reference) (t : IndexLists) (e : Encoding) (text : List ℕ)
        → all_scalars text ≡ true
        → length (output ref (coding_of t e) text) ≤ 13 * length text + 3 }
{}

/// An input is its pieces, and what it is recoded to is bounded by its length: it has no more characters than
/// bytes. Each character of its text is a scalar.
pub fn input_is_its_pieces()
    ensures pieces { (t : IndexLists) (mark : Mark) (e : Encoding) (x : List ℕ)
        → AreAcceptedTables t → ArePieces (marked_pieces t mark e x) }
    ensures whole { (t : IndexLists) (mark : Mark) (e : Encoding) (x : List ℕ)
        → AreAcceptedTables t → sizes (marked_pieces t mark e x) ≡ length x }
    ensures few { (t : IndexLists) (mark : Mark) (e : Encoding) (x : List ℕ)
        → AreAcceptedTables t → length (marked_text t mark e x) ≤ length x }
    ensures scalars { (t : IndexLists) (mark : Mark) (e : Encoding) (x : List ℕ)
        → AreAcceptedTables t → all_scalars (marked_text t mark e x) ≡ true }
    ensures recoded { (ref : Reference) (t : IndexLists) (mark : Mark) (from to : Encoding)
        (x : List ℕ) → AreAcceptedTables t
        → length (output ref (coding_of t to) (marked_text t mark from x)) ≤ 13 * length x + 3 }
{}

/// A call of a decoder that read all, with any handling of marks and into any destination, has
/// passed or reported each piece that ends three or more bytes before the end of what was read,
/// whatever follows. This holds of a call that stops at a malformed sequence, and of one that
/// writes U+FFFD for it.
pub fn pieces_are_passed_soon()
    ensures reported { (v v' : DecoderView) (src : List ℕ) (last : Bool) (read : ℕ)
        → (there : Destination) (left : RoomLeft)
        → (call : DecoderCall v v' src last read (HasText there) left DecoderResult.InputEmpty)
        → TakesSoon v.state.pieces src last (v.state.pending + length src) call.law.taken }
    ensures replaced { (v v' : DecoderView) (src : List ℕ) (last : Bool) (read : ℕ)
        → (there : Destination) (left : RoomLeft) (had_errors : Bool)
        → (call : TextCall v v' src last read (HasText there) left
        CoderResult.InputEmpty had_errors)
        → TakesSoon v.state.pieces src last (v.state.pending + length src) call.law.taken }
{}

/// A last call of a decoder that read all, into any destination, wrote the text of all pieces that
/// were to come. If it writes U+FFFD for malformed sequences, it returned whether one of them is
/// malformed; if it stops at these, none is.
pub fn last_calls_write_all_text()
    ensures replaced { (v v' : DecoderView) (src : List ℕ) (read : ℕ)
        → (there : Destination) (left : RoomLeft) (had_errors : Bool)
        → TextCall v v' src true read (HasText there) left CoderResult.InputEmpty had_errors
        → HasText there (text (v.state.pieces src)) }
    ensures errors { (v v' : DecoderView) (src : List ℕ) (read : ℕ)
        → (there : Destination) (left : RoomLeft) (had_errors : Bool)
        → TextCall v v' src true read (HasText there) left CoderResult.InputEmpty had_errors
        → IsTrue had_errors ↔ (0 < malformed_count (v.state.pieces src)) }
    ensures reported { (v v' : DecoderView) (src : List ℕ) (read : ℕ)
        → (there : Destination) (left : RoomLeft)
        → DecoderCall v v' src true read (HasText there) left DecoderResult.InputEmpty
        → HasText there (text (v.state.pieces src)) }
    ensures well_formed { (v v' : DecoderView) (src : List ℕ) (read : ℕ)
        → (there : Destination) (left : RoomLeft)
        → DecoderCall v v' src true read (HasText there) left DecoderResult.InputEmpty
        → AreWellFormed (v.state.pieces src) }
{}

/// Two decoders that were made from the same indexes, and of which the same was saved, read alike:
/// so does one that goes on from what was saved (`Decoder::resumed`). A call of a decoder that
/// reads alike is a call of the other: all that was said of this one's pieces, text and encoding
/// holds of what both read together.
pub fn resumed_decoders_go_on()
    ensures alike { (t : IndexLists) (w : SavedDecoder) (v u : DecoderView) → Saves w v
        → Saves w u → IsMadeFrom t v → IsMadeFrom t u → ReadsAlike v u }
    ensures reported { (v u after : DecoderView) (src : List ℕ) (last : Bool) (read : ℕ)
        → (there : Destination) (left : RoomLeft) (outcome : DecoderResult) → ReadsAlike v u
        → DecoderCall u after src last read (HasText there) left outcome
        → DecoderCall v after src last read (HasText there) left outcome }
    ensures replaced { (v u after : DecoderView) (src : List ℕ) (last : Bool) (read : ℕ)
        → (there : Destination) (left : RoomLeft) (outcome : CoderResult) (had_errors : Bool)
        → ReadsAlike v u
        → TextCall u after src last read (HasText there) left outcome had_errors
        → TextCall v after src last read (HasText there) left outcome had_errors }
{}

/// A last call of an encoder that read all wrote the bytes of the whole text, from the set that was
/// in force. If it writes references, it returned whether it wrote one; if it stops at characters
/// without bytes, there is none.
pub fn last_calls_write_all_bytes()
    ensures replaced { (x x' : EncoderState) (text written rest : List ℕ)
        → (lost : Bool) (size : ℕ)
        → Replaces x true CoderResult.InputEmpty text written x' rest lost size
        → written ≡ whole_from Decimal (coding_in x) x.set text }
    ensures references { (x x' : EncoderState) (text written rest : List ℕ)
        → (lost : Bool) (size : ℕ)
        → Replaces x true CoderResult.InputEmpty text written x' rest lost size
        → IsTrue lost ↔ (0 < lost_count (coding_in x) text) }
    ensures reported { (x x' : EncoderState) (text written rest : List ℕ) (room : ℕ)
        → Encoded x true EncoderResult.InputEmpty text written x' rest room
        → written ≡ whole_from Decimal (coding_in x) x.set text }
    ensures mapped { (x x' : EncoderState) (text written rest : List ℕ) (room : ℕ)
        → Encoded x true EncoderResult.InputEmpty text written x' rest room
        → AllMapped (coding_in x) text }
{}

/// A call of an encoder that reports a character without bytes leaves one less to be reported, and
/// any other call as many: so the calls without replacement count those of a text.
pub fn lost_characters_are_reported()
    ensures one { (x x' : EncoderState) (last : Bool) (text written rest : List ℕ)
        → (room c : ℕ)
        → Encoded x last (EncoderResult.Unmappable c) text written x' rest room
        → lost_count (coding_in x) text ≡ 1 + lost_count (coding_in x) rest }
    ensures none { (x x' : EncoderState) (last : Bool) (text written rest : List ℕ)
        → (room : ℕ) (outcome : EncoderResult)
        → Encoded x last outcome text written x' rest room → IsNotUnmappable outcome
        → lost_count (coding_in x) text ≡ lost_count (coding_in x) rest }
{}

/// An input that is decoded at once, and its text encoded at once, gives the output for its text.
pub fn both_at_once()
    ensures { (t : IndexLists) (mark : Mark) (from to : Encoding) (x decoded : List ℕ)
        → AreAcceptedTables t → decoded ≡ encode_utf8_all (marked_text t mark from x)
        → output Decimal (coding_of t to) (chars decoded)
        ≡ output Decimal (coding_of t to) (marked_text t mark from x) }
{}

/// An input may be cut behind any byte below 30, as a line feed is, if its encoding is compatible
/// with ASCII. By any indexes that were accepted, the byte stands alone: it is a piece by itself,
/// and what follows it is read as from the start. The first part may begin with a byte order mark,
/// which says the encoding of all parts.
pub fn inputs_can_be_cut()
    ensures alone { (t : IndexLists) (e : Encoding) (a : ℕ) → AreAcceptedTables t
        → is_ascii_compatible_of e ≡ true → IsCutByte a → StandsAlone (pieces_of t e) a }
    ensures marked { (t : IndexLists) (mark : Mark) (e : Encoding) (x y : List ℕ)
        → AreAcceptedTables t → EndsInCut x → is_ascii_compatible_of (source_of mark e x).0 ≡ true
        → marked_pieces t mark e (x ++ y)
        ≡ marked_pieces t mark e x ++ pieces_of t (source_of mark e x).0 y }
{}
