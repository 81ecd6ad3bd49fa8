//! The laws of this crate: functions with an empty body, whose contracts are the laws.

ghost use Rattle.std.specs.Char.Utf16.{utf16_lossy_chars};
ghost use Rattle.std.specs.List.{All};
ghost use Rattle.std.specs.Prelude.{◌≡◌, ◌<◌, ◌^◌, ◌↔◌, ℕ, true, List, slice_index};
ghost use Rattle.std.specs.Prelude.{encode_utf8_all, ◌≤◌, ◌+◌, Bool, [], drop, length, ◌++◌, false};
ghost use Rattle.std.specs.Prelude.{IsTrue};
ghost use Rattle.std.specs.Str.{all_scalars, chars, IsUtf8};
ghost use Rattle.encoding_mem.specs.Agreement.{ReadsBackOrBreaks, ReadsByStep};
ghost use Rattle.encoding_mem.specs.Bidi.{HasBidi, HasBidiUnit, IsBidiBytes};
ghost use Rattle.encoding_mem.specs.Coding.{Coding, IsCoding, lost_count, open_from, output};
ghost use Rattle.encoding_mem.specs.Coding.{whole_from};
ghost use Rattle.encoding_mem.specs.Conversions.{text_in_utf16, units_in_utf8};
ghost use Rattle.encoding_mem.specs.Decided.{IsDecided, IsUndecided};
ghost use Rattle.encoding_mem.specs.Items.{item_bytes, open_items, whole_items};
ghost use Rattle.encoding_mem.specs.Latin1.{AllLatin1, IsLatin1Text};
ghost use Rattle.encoding_mem.specs.MaximalSubparts.{Utf8PiecesAreMaximal};
ghost use Rattle.encoding_mem.specs.Piece.{Piece, piece_scalars};
ghost use Rattle.encoding_mem.specs.ReadBack.{ReadsAs, ReadsBackExactly};
ghost use Rattle.encoding_mem.specs.Stateless.{HasOneSet};
ghost use Rattle.encoding_mem.specs.Steps.{IsBroken, StepLaw, in_any_set};
ghost use Rattle.encoding_mem.specs.Surrogates.{IsMended, IsUtf16};
ghost use Rattle.encoding_mem.specs.Utf8.{pieces_utf8};
ghost use Rattle.encoding_mem.specs.Utf8Coding.{utf8_coding, ReadsLongest};
ghost use Rattle.encoding_mem.specs.calls.Decoding.{DecoderState, EventLaw, StateLaw, EndsWith};
ghost use Rattle.encoding_mem.specs.calls.Decoding.{TakesSoon};
ghost use Rattle.encoding_mem.specs.calls.EncoderCalls.{Encodes, EncodesItems, AccountsForText};
ghost use Rattle.encoding_mem.specs.calls.EncoderRule.{Moves, Tight};
ghost use Rattle.encoding_mem.specs.calls.Latin1Texts.{latin1_bytes, AreBorrowed};
ghost use Rattle.encoding_mem.specs.calls.ReadCalls.{AreRead, CallIsRead, CallVerdict, CallsAlong};
ghost use Rattle.encoding_mem.specs.calls.ReadCalls.{HasTaken, KeepsVerdict, NeverReadsWhole};
ghost use Rattle.encoding_mem.specs.calls.ReadCalls.{IsNotUnmappable, ReadsAlong, ReadsWhole};
ghost use Rattle.encoding_mem.specs.calls.ReadCalls.{ReadsWholeAs};
ghost use Rattle.encoding_mem.specs.calls.TextRun.{text_pieces};
ghost use Rattle.encoding_mem.specs.calls.Writing.{encode_utf16_all, Adds};
ghost use Rattle.encoding_mem.specs.declared.codec.decoder_result.DecoderResult.{DecoderResult};
ghost use Rattle.encoding_mem.specs.declared.codec.decoder_result.DecoderResult.TheVariants.{
  InputEmpty,
  Malformed,
};
ghost use Rattle.encoding_mem.specs.declared.codec.encoder_result.EncoderResult.{EncoderResult};
ghost use Rattle.encoding_mem.specs.declared.codec.encoder_result.EncoderResult.TheVariants.{
  Unmappable,
};
ghost use Rattle.encoding_mem.specs.declared.codec.form.EscapeState.{EscapeState};
ghost use Rattle.encoding_mem.specs.declared.codec.form.EscapeState.TheVariants.{Ascii};
ghost use Rattle.encoding_mem.specs.declared.codec.reference.Reference.{Reference};
ghost use Rattle.encoding_mem.specs.declared.mem.bidi.Latin1Bidi.{Latin1Bidi};
ghost use Rattle.encoding_mem.specs.declared.mem.latin1_texts.Latin1Bytes.{Latin1Bytes};

use crate::codec::decoder_result::DecoderResult;
use crate::codec::encoder_result::EncoderResult;
use crate::codec::form::EscapeState;
use crate::codec::reference::Reference;
use crate::mem::bidi::Latin1Bidi;
use crate::mem::latin1_texts::Latin1Bytes;

// Checks of texts.

/// `ensure_utf16_validity` twice is as once.
pub fn mended_units_stay()
    ensures { (units once twice : List ℕ) → IsMended units once → IsMended once twice → twice ≡ once }
{}

/// The UTF-16 of a text is well-formed, and well-formed units are the UTF-16 of the text that they spell.
pub fn well_formed_units_are_text()
    ensures text { (text : List ℕ) → all_scalars text ≡ true → IsUtf16 (encode_utf16_all text) }
    ensures units { (units : List ℕ) → ((i : ℕ) → slice_index units i < 2 ^ 16) → IsUtf16 units
        → encode_utf16_all (utf16_lossy_chars units) ≡ units }
{}

/// `is_str_bidi`, `is_utf8_bidi` and `is_utf16_bidi` agree on a text: all three say whether one of its
/// characters is bidi, of its UTF-8 and of its UTF-16.
pub fn bidi_checks_agree()
    ensures str { (text : List ℕ) → all_scalars text ≡ true → HasBidi (chars (encode_utf8_all text)) ↔ HasBidi text }
    ensures utf8 { (text : List ℕ) → all_scalars text ≡ true → IsBidiBytes (encode_utf8_all text) ↔ HasBidi text }
    ensures utf16 { (text : List ℕ) → all_scalars text ≡ true → HasBidiUnit (encode_utf16_all text) ↔ HasBidi text }
{}

// Conversions.

/// Latin1 that is converted to UTF-8 is Latin1 text, and converted back gives its bytes.
pub fn latin1_reads_back()
    ensures text { (bytes : List ℕ) → AllLatin1 bytes → IsLatin1Text (encode_utf8_all bytes) }
    ensures bytes { (bytes : List ℕ) → AllLatin1 bytes → chars (encode_utf8_all bytes) ≡ bytes }
{}

/// Text that is converted to UTF-16 and back gives its bytes.
pub fn utf16_reads_back()
    ensures { (text : List ℕ) → IsUtf8 text → units_in_utf8 (text_in_utf16 text) ≡ text }
{}

// Decoders' definitions.

/// The law over events, of every call that meets the state law and adds its text to a slice: in bytes or
/// units, raw or with byte order marks.
pub fn calls_have_events()
    ensures { (before after : DecoderState) (src : List ℕ) (last : Bool) (read : ℕ) (encode : List ℕ → List ℕ) (old new : List ℕ) (written : ℕ) (outcome : DecoderResult)
        → StateLaw before after src last read (λ text. Adds old 0 (encode text) new written) outcome
        → EventLaw before after src last read (λ text. Adds old 0 (encode text) new written) outcome }
{}

/// The numbers of `Malformed`, of every such call: the malformed sequence has 1 to 4 bytes, and at
/// most 3 bytes were read after it.
pub fn malformed_sequences_have_bytes()
    ensures { (before after : DecoderState) (src : List ℕ) (last : Bool) (read : ℕ)
        → (encode : List ℕ → List ℕ) (old new : List ℕ) (written a b : ℕ)
        → StateLaw before after src last read (λ text. Adds old 0 (encode text) new written)
        (Malformed a b)
        → (1 ≤ a) × (a ≤ 4) × (b ≤ 3) }
{}

/// What waits for more decides nothing.
pub fn undecided_decides_nothing()
    ensures { (pieces : List ℕ → List Piece) (x : List ℕ) (ps : List Piece)
        → IsUndecided pieces x → IsDecided pieces x ps → ps ≡ [] }
{}

/// A call that read all has passed each piece that ends three or more bytes before the end of what
/// was read, whatever follows. This holds of every call that adds its text to a slice and meets the
/// law and the clause on why it ended, as those of every raw decoder do.
pub fn pieces_are_taken_soon()
    ensures { (before after : DecoderState) (src : List ℕ) (last : Bool) (read : ℕ)
        → (encode : List ℕ → List ℕ) (old new : List ℕ) (written free room replacement : ℕ)
        → (law : StateLaw before after src last read
        (λ text. Adds old 0 (encode text) new written) InputEmpty)
        → EndsWith after (drop read src) last free room replacement InputEmpty
        → TakesSoon before.pieces src last (before.pending + length src) law.taken }
{}

/// No piece gives more than two scalar values. This holds of any decoder, in whatever state it is,
/// and whatever bytes come. Big5 has pieces that give two, as `88 62`.
pub fn pieces_give_at_most_two()
    ensures { (state : DecoderState) (x : List ℕ)
        → All (λ p. length (piece_scalars p) ≤ 2) (state.pieces x) }
{}

/// Text that is written in UTF-8 is read back, each scalar as a piece.
pub fn utf8_text_reads_back()
    ensures { (t : List ℕ) → all_scalars t ≡ true → pieces_utf8 (encode_utf8_all t) ≡ text_pieces t }
{}

/// The pieces of UTF-8, of any bytes. If they begin with the whole form of a scalar value, the
/// first piece is that form and gives that scalar value. Else it is malformed and is their maximal
/// subpart: the longest prefix of them that is a prefix of the form of some scalar value, or one
/// byte if none but the empty one is. The pieces after the first are those of the bytes after it.
/// No other first piece meets this, so it says which bytes are one error and which are not.
pub fn malformed_utf8_is_maximal_subpart()
    ensures { Utf8PiecesAreMaximal }
{}

// What encoders write, and what reads it back.

/// The law of a call in items: whatever index the text begins at, what was written, the note and
/// the reference if a character is reported, and what the rest stands for are what the whole stands
/// for. The reference may be decimal or hexadecimal.
pub fn encoded_items()
    ensures { (need : ℕ) (e : Coding) → IsCoding need e
        → (ref : Reference) (last : Bool) (outcome : EncoderResult) (before : EscapeState)
        → (text written : List ℕ) (after : EscapeState) (rest : List ℕ)
        → Encodes e last outcome before text written after rest
        → EncodesItems ref e last outcome before text written after rest }
{}

/// The law of a call in bytes: what was written, the reference if a character is reported, and what
/// the rest stands for are what the whole text stands for. If the call was not the last or a
/// character is reported, this holds whatever follows the text.
pub fn encoded_bytes()
    ensures { (need : ℕ) (e : Coding) → IsCoding need e
        → (ref : Reference) (last : Bool) (outcome : EncoderResult) (before : EscapeState)
        → (text written : List ℕ) (after : EscapeState) (rest : List ℕ)
        → Encodes e last outcome before text written after rest
        → AccountsForText ref e last outcome before text written after rest }
{}

/// The set that a call leaves is the one before it, one that some character has chosen, or ASCII.
pub fn sets_are_chosen()
    ensures { (e : Coding) (last : Bool) (outcome : EncoderResult) (before : EscapeState)
        → (text written : List ℕ) (after : EscapeState) (rest : List ℕ)
        → Encodes e last outcome before text written after rest → Moves e before after }
{}

/// A call of an encoder of UTF-8 reads the longest prefix of whole characters whose bytes fit.
pub fn utf8_calls_are_longest()
    ensures { (last : Bool) (outcome : EncoderResult) (before : EscapeState) (text written : List ℕ)
        → (after : EscapeState) (rest : List ℕ) (free : ℕ)
        → Encodes utf8_coding last outcome before text written after rest
        → Tight utf8_coding outcome after rest free
        → ReadsLongest text written rest free }
{}

/// The items of a text without their notes are its bytes.
pub fn bytes_of_items()
    ensures text { (ref : Reference) (e : Coding) (s : EscapeState) (i : ℕ) (t : List ℕ)
        → item_bytes (open_items ref e s i t) ≡ open_from ref e s t }
    ensures whole { (ref : Reference) (e : Coding) (s : EscapeState) (i : ℕ) (t : List ℕ)
        → item_bytes (whole_items ref e true s i t) ≡ whole_from ref e s t }
{}

/// The output in UTF-8 is the UTF-8 of each character, no character is lost, and it reads back.
pub fn utf8_output()
    ensures bytes { (ref : Reference) (t : List ℕ) → output ref utf8_coding t ≡ encode_utf8_all t }
    ensures lost { (t : List ℕ) → lost_count utf8_coding t ≡ 0 }
    ensures reads_back { ReadsBackExactly pieces_utf8 utf8_coding }
{}

/// Bytes that are broken for a text stay so whatever follows them and the text, and never read as
/// it: a decoder that has read them has read a malformed sequence or another character.
pub fn broken_stays_broken()
    ensures stays { (pieces : List ℕ → List Piece) (bytes t more u : List ℕ)
        → IsBroken pieces bytes t → IsBroken pieces (bytes ++ more) (t ++ u) }
    ensures never { (pieces : List ℕ → List Piece) (bytes t : List ℕ)
        → IsBroken pieces bytes t → ¬ (ReadsAs pieces bytes t) }
{}

/// What is written for a text agrees with it or is broken, also with an escape after it, in each
/// target that reads back step by step. Its output reads as it exactly when it is not broken.
pub fn steps_read_back()
    ensures { (e : Coding) (pieces_from : EscapeState → List ℕ → List Piece)
        → ReadsByStep e pieces_from → ReadsBackOrBreaks (pieces_from Ascii) e }
{}

/// UTF-8 reads back step by step.
pub fn utf8_steps()
    ensures { ReadsByStep utf8_coding (in_any_set pieces_utf8) }
{}

/// What an encoder's calls write, read back as it is written. If the decoder has decided all that
/// was written so far, but for one escape to the set in force, the bytes of the next call are read
/// as the characters that it reads, again but for one escape, or are broken for them. With the
/// reference of a character without bytes they are broken.
pub fn calls_read_back()
    ensures { (e : Coding) (pieces_from : EscapeState → List ℕ → List Piece)
        → (pieces : List ℕ → List Piece) (last : Bool) (outcome : EncoderResult)
        → (before : EscapeState) (text written : List ℕ) (after : EscapeState) (rest : List ℕ)
        → CallsAlong e pieces_from pieces last outcome before text written after rest
        → CallIsRead e pieces_from pieces last outcome text written after rest }
{}

/// A decoder reads along from the start, and whenever all is decided. If a text was read, it reads
/// along with any that follows. At the end nothing is left.
pub fn texts_are_read_along()
    ensures begins { (need : ℕ) (e : Coding) (pieces_from : EscapeState → List ℕ → List Piece)
        → IsCoding need e → (pieces : List ℕ → List Piece) (set : EscapeState) (text : List ℕ)
        → ((bytes : List ℕ) → pieces bytes ≡ pieces_from set bytes)
        → ReadsAlong e pieces_from pieces set text }
    ensures next { (e : Coding) (pieces_from : EscapeState → List ℕ → List Piece)
        → (pieces : List ℕ → List Piece) (set : EscapeState) (text : List ℕ)
        → ReadsAlong e pieces_from pieces set [] → ReadsAlong e pieces_from pieces set text }
    ensures ends { (ref : Reference) (need : ℕ) (e : Coding) → IsCoding need e
        → (pieces : List ℕ → List Piece) → ReadsAs pieces [] [] → ReadsWhole ref e pieces Ascii [] }
{}

/// The verdict on such a call that reports no character, if the decoder has taken some pieces of
/// its bytes and decides no more of them. If they are well-formed and are the characters that the
/// call read, it goes on to read along, and the whole of the text is read back exactly when that of
/// the rest is from here. If they are not, it never is, whatever follows.
pub fn calls_have_verdicts()
    ensures { (e : Coding) (pieces_from : EscapeState → List ℕ → List Piece)
        → (pieces : List ℕ → List Piece) (last : Bool) (outcome : EncoderResult)
        → (before : EscapeState) (t written : List ℕ) (after : EscapeState) (rest : List ℕ)
        → CallsAlong e pieces_from pieces last outcome before t written after rest
        → IsNotUnmappable outcome → (prefix : List ℕ) → t ≡ prefix ++ rest
        → (now : List ℕ → List Piece) (taken : List Piece) → HasTaken pieces now written taken
        → CallVerdict e pieces_from pieces now last outcome before t prefix taken after rest }
{}

/// A verdict before the decoder has taken all: if pieces that the bytes of a call decide are
/// malformed, or the characters that it read do not begin with their text, the text is never read
/// back; nor is it if the call reports a character.
pub fn losses_are_final()
    ensures part { (e : Coding) (pieces_from : EscapeState → List ℕ → List Piece)
        → (pieces : List ℕ → List Piece) (last : Bool) (outcome : EncoderResult)
        → (before : EscapeState) (t written : List ℕ) (after : EscapeState) (rest : List ℕ)
        → CallsAlong e pieces_from pieces last outcome before t written after rest
        → IsNotUnmappable outcome → (prefix : List ℕ) → t ≡ prefix ++ rest
        → (part : List Piece) → IsDecided pieces written part → ¬ (AreRead part prefix)
        → NeverReadsWhole e last pieces before t }
    ensures lost { (e : Coding) (pieces_from : EscapeState → List ℕ → List Piece)
        → (pieces : List ℕ → List Piece) (last : Bool) (m : ℕ)
        → (before : EscapeState) (t written : List ℕ) (after : EscapeState) (rest : List ℕ)
        → CallsAlong e pieces_from pieces last (Unmappable m) before t written after rest
        → NeverReadsWhole e last pieces before t }
{}

/// A verdict is kept from call to call. A call that agrees keeps a true one. It becomes false if
/// the text is never read back, and stays false. At the end it is the verdict on the text.
pub fn verdicts_are_kept()
    ensures agreed { (e : Coding) (last : Bool) (pieces now : List ℕ → List Piece)
        → (before : EscapeState) (t : List ℕ) (after : EscapeState) (rest : List ℕ)
        → ReadsWholeAs e last pieces now before t after rest
        → KeepsVerdict e last true pieces before t true now after rest }
    ensures lost { (e : Coding) (last verdict : Bool) (pieces now : List ℕ → List Piece)
        → (before : EscapeState) (t : List ℕ) (after : EscapeState) (rest : List ℕ)
        → NeverReadsWhole e last pieces before t
        → KeepsVerdict e last verdict pieces before t false now after rest }
    ensures stays { (e : Coding) (last : Bool) (pieces now : List ℕ → List Piece)
        → (before : EscapeState) (t : List ℕ) (after : EscapeState) (rest : List ℕ)
        → KeepsVerdict e last false pieces before t false now after rest }
    ensures end { (ref : Reference) (need : ℕ) (e : Coding) → IsCoding need e
        → (verdict : Bool) (pieces : List ℕ → List Piece)
        → (IsTrue verdict → ReadsAs pieces [] [])
        → (IsTrue verdict × ReadsWhole ref e pieces Ascii []) ↔ IsTrue verdict }
{}

/// In a target with one set in which each character that has bytes is read as it, a call that
/// reports nothing keeps a true verdict: nothing has to be read back.
pub fn exact_targets_keep_verdicts()
    ensures { (need : ℕ) (e : Coding) (pieces : List ℕ → List Piece) → IsCoding need e
        → HasOneSet e → ReadsBackExactly pieces e → StepLaw e (in_any_set pieces)
        → (last : Bool) (outcome : EncoderResult) (before : EscapeState)
        → (t written : List ℕ) (after : EscapeState) (rest : List ℕ) → all_scalars t ≡ true
        → Encodes e last outcome before t written after rest → IsNotUnmappable outcome
        → KeepsVerdict e last true pieces before t true pieces after rest }
{}

// `==`.

/// Results of calls are equal exactly when they are the same, with their numbers or character.
pub fn results_are_compared()
    ensures decoder { (a b : DecoderResult)
        → IsTrue (⟦<DecoderResult as PartialEq>⟧.eq a b) ↔ (a ≡ b) }
    ensures encoder { (a b : EncoderResult)
        → IsTrue (⟦<EncoderResult as PartialEq>⟧.eq a b) ↔ (a ≡ b) }
{}

/// What a text is for layout, the state of an encoder and the form of a reference are equal exactly
/// when they are the same.
pub fn variants_are_compared()
    ensures bidi { (a b : Latin1Bidi) → IsTrue (⟦<Latin1Bidi as PartialEq>⟧.eq a b) ↔ (a ≡ b) }
    ensures state { (a b : EscapeState) → IsTrue (⟦<EscapeState as PartialEq>⟧.eq a b) ↔ (a ≡ b) }
    ensures reference { (a b : Reference) → IsTrue (⟦<Reference as PartialEq>⟧.eq a b) ↔ (a ≡ b) }
{}

/// Latin1 is equal exactly when the bytes are, and both are borrowed or neither is.
pub fn latin1_is_compared()
    ensures { (a b : Latin1Bytes) → IsTrue (⟦<Latin1Bytes<'static> as PartialEq>⟧.eq a b)
        ↔ ((AreBorrowed a ↔ AreBorrowed b) × (latin1_bytes a ≡ latin1_bytes b)) }
{}
