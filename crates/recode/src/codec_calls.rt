//! The calls of codecs over text in a pivot, and that text: what form it has is known here alone.

ghost use Rattle.std.specs.Prelude.{◌≤◌, ◌≡◌, ◌↔◌, ℕ, ◌++◌, ◌+◌, ◌-◌, IsTrue, List};
ghost use Rattle.std.specs.Prelude.{MatchOption, [], ◌∷◌};
ghost use Rattle.std.specs.Prelude.{drop, encode_utf8_all, false, length, take, true};
ghost use Rattle.std.specs.Str.{all_scalars, chars};
ghost use Rattle.encoding_mem.specs.calls.Decoding.{StateLaw};
ghost use Rattle.encoding_mem.specs.calls.EncoderRule.{EncoderCall, WritesBytes};
ghost use Rattle.encoding_mem.specs.calls.Writing.{Adds, encode_utf16_all};
ghost use Rattle.encoding_front.specs.calls.DecoderCall.{DecoderCall, free_bytes, free_units};
ghost use Rattle.encoding_front.specs.calls.Stream.{IsMadeFrom, finishes};
ghost use Rattle.encoding_tables.specs.IndexLists.{IndexLists};
ghost use Rattle.recode.specs.calls.Buffers.{HoldsAnyCharacter, KeepsRoom, is_wide};
ghost use Rattle.recode.specs.calls.CodecCalls.{DecodeCallEndsWith};
ghost use Rattle.recode.specs.Work.{IsCounted};
ghost use Rattle.recode.specs.calls.EngineView.{HoldsBetween, chars_between};
ghost use Rattle.recode.specs.calls.PivotText.{element_count};
ghost use Rattle.recode.specs.calls.PivotText.{BeginsWith, Holds, HoldsText, IsCutInto};
ghost use Rattle.recode.specs.calls.PivotText.{IsLeftBehind, IsWholeText, is_in_units, pivot_chars};

use crate::job::Pivot;
use encoding_front::StreamDecoder;
use encoding_mem::character_counts::{count_characters, count_in_units};
use encoding_mem::sink::Sink;
use encoding_mem::utf8_sink::Utf8Sink;
use encoding_mem::utf16_sink::Utf16Sink;
use encoding_mem::{DecoderResult, EncoderResult, RawEncoder};

// The form is chosen when the program runs. An enum keeps it in this file, so that all above speaks
// of text and is proved once. With a trait in its place the engine would be generic over the form.
/// Text that stands in a pivot, in either form.
#[derive(Clone, Copy)]
pub enum PivotText<'p> {
    Utf8(&'p str),
    Utf16(&'p [u16]),
}

impl<'p> PivotText<'p> {
    /// Whether it has no characters.
    pub fn is_empty(self) -> bool
        requires { IsWholeText self }
        ensures { IsTrue result ↔ (pivot_chars self.entry ≡ []) }
    {
        match self {
            PivotText::Utf8(text) => text.is_empty(),
            PivotText::Utf16(units) => units.is_empty(),
        }
    }

    /// How many bytes or units it has.
    pub fn len(self) -> usize
        ensures { result ≡ element_count self.entry }
    {
        match self {
            PivotText::Utf8(text) => text.len(),
            PivotText::Utf16(units) => units.len(),
        }
    }

    /// What is left after another text of the same form, if it begins with that.
    pub fn strip_prefix(self, prefix: PivotText<'_>) -> Option<PivotText<'p>>
        requires form { is_in_units self ≡ is_in_units prefix }
        requires text { IsWholeText self }
        requires prefix { IsWholeText prefix }
        ensures { MatchOption result (¬ (BeginsWith self.entry prefix.entry))
            (IsLeftBehind self.entry prefix.entry) }
    {
        match (self, prefix) {
            (PivotText::Utf8(text), PivotText::Utf8(start)) => {
                let rest = text.strip_prefix(start)?;
                Some(PivotText::Utf8(rest))
            }
            (PivotText::Utf16(units), PivotText::Utf16(start)) => {
                let rest = units.strip_prefix(start)?;
                Some(PivotText::Utf16(rest))
            }
            (PivotText::Utf8(_), PivotText::Utf16(_)) => None,
            (PivotText::Utf16(_), PivotText::Utf8(_)) => None,
        }
    }
}

/// The text at the start of a pivot, of so many bytes or units.
pub fn text_in<'p>(pivot: &'p Pivot<'_>, len: usize) -> PivotText<'p>
    requires { HoldsText pivot.now len }
    ensures chars { (text : List ℕ) → all_scalars text ≡ true → Holds pivot.now len text
        → pivot_chars result ≡ text }
    ensures text { IsWholeText result }
    ensures form { is_in_units result ≡ is_wide pivot.now }
{
    match pivot {
        // The decoder wrote text: no second check.
        Pivot::Utf8(bytes) => {
            PivotText::Utf8(unsafe { std::str::from_utf8_unchecked(&bytes[..len]) })
        }
        Pivot::Utf16(units) => PivotText::Utf16(&units[..len]),
    }
}

/// The text in a pivot between two places.
pub fn text_between<'p>(pivot: &'p Pivot<'_>, from: usize, to: usize) -> PivotText<'p>
    requires { HoldsBetween pivot.now from to }
    ensures chars { pivot_chars result ≡ chars_between pivot.now from to }
    ensures text { IsWholeText result }
    ensures form { is_in_units result ≡ is_wide pivot.now }
    ensures len { element_count result ≡ to - from }
{
    match pivot {
        // A decoder wrote text, and an encoder reads whole characters: no second check.
        Pivot::Utf8(bytes) => {
            PivotText::Utf8(unsafe { std::str::from_utf8_unchecked(&bytes[from..to]) })
        }
        Pivot::Utf16(units) => PivotText::Utf16(&units[from..to]),
    }
}

// Writes U+FFFD to the start of these bytes. Returns how many it has.
fn replace_in_bytes(dst: &mut [u8]) -> usize
    requires { 4 ≤ length dst.old }
    ensures { Adds dst.old 0 (encode_utf8_all (0xFFFD ∷ [])) dst.new result }
{
    let mut sink = Utf8Sink::new(dst);
    sink.put('\u{FFFD}');
    sink.written()
}

// Writes U+FFFD to the start of these units. Returns how many it has.
fn replace_in_units(dst: &mut [u16]) -> usize
    requires { 2 ≤ length dst.old }
    ensures { Adds dst.old 0 (encode_utf16_all (0xFFFD ∷ [])) dst.new result }
{
    let mut sink = Utf16Sink::new(dst);
    sink.put('\u{FFFD}');
    sink.written()
}

/// Writes U+FFFD to the start of a pivot. Returns how many elements it has.
pub fn write_replacement(pivot: &mut Pivot<'_>) -> usize
    requires { HoldsAnyCharacter pivot.old }
    ensures chars { chars_between pivot.new 0 result ≡ 0xFFFD ∷ [] }
    ensures holds { HoldsBetween pivot.new 0 result }
    ensures pivot { KeepsRoom pivot.old pivot.new }
{
    match pivot {
        Pivot::Utf8(bytes) => replace_in_bytes(bytes),
        Pivot::Utf16(units) => replace_in_units(units),
    }
}

// Counts a call of a codec. The count stops at the greatest number.
fn count_call(calls: &mut u64)
    ensures { IsCounted 1 1 calls.old calls.new }
{
    *calls = calls.saturating_add(1);
}

/// What a call of a decoder did.
#[derive(Clone, Copy)]
pub struct DecodeCall {
    pub answer: DecoderResult,
    /// The bytes that were read.
    pub read: usize,
    /// The elements of the pivot that were written.
    pub written: usize,
}

// Decodes to UTF-8. Returns how the call ended, the bytes read and the elements written.
fn decode_to_bytes<D: StreamDecoder>(
    decoder: &mut D,
    src: &[u8],
    dst: &mut [u8],
    last: bool,
) -> (DecoderResult, usize, usize)
    requires { (D.view decoder.old).finished ≡ false }
    ensures call { DecoderCall (D.view decoder.old) (D.view decoder.new) src.now last result.1
        (λ text. Adds dst.old 0 (encode_utf8_all text) dst.new result.2)
        (free_bytes (length (drop result.2 dst.new))) result.0 }
{
    let mut sink = Utf8Sink::new(dst);
    let (answer, read) = decoder.decode_into(src, &mut sink, last);
    (answer, read, sink.written())
}

// Decodes to UTF-16. Returns how the call ended, the bytes read and the elements written.
fn decode_to_units<D: StreamDecoder>(
    decoder: &mut D,
    src: &[u8],
    dst: &mut [u16],
    last: bool,
) -> (DecoderResult, usize, usize)
    requires { (D.view decoder.old).finished ≡ false }
    ensures call { DecoderCall (D.view decoder.old) (D.view decoder.new) src.now last result.1
        (λ text. Adds dst.old 0 (encode_utf16_all text) dst.new result.2)
        (free_units (length (drop result.2 dst.new))) result.0 }
{
    let mut sink = Utf16Sink::new(dst);
    let (answer, read) = decoder.decode_into(src, &mut sink, last);
    (answer, read, sink.written())
}

/// One call of a decoder, which writes text to the pivot. It is counted: no decoder is called but
/// here.
pub fn decode_to_pivot<D: StreamDecoder>(
    decoder: &mut D,
    src: &[u8],
    pivot: &mut Pivot<'_>,
    last: bool,
    calls: &mut u64,
) -> DecodeCall
    requires pivot { HoldsAnyCharacter pivot.old }
    requires open_ { (D.view decoder.old).finished ≡ false }
    ensures law { StateLaw (D.view decoder.old).state (D.view decoder.new).state src.now last
        result.read (Holds pivot.new result.written) result.answer }
    ensures ends { DecodeCallEndsWith (D.view decoder.new).state (drop result.read src.now) last
        result.written result.answer }
    ensures source { (r : List ℕ) → (IsTrue last → r ≡ [])
        → (D.view decoder.old).source (src.now ++ r)
        ≡ (D.view decoder.new).source (drop result.read src.now ++ r) }
    ensures finished { (D.view decoder.new).finished ≡ finishes last result.answer }
    ensures made { (t : IndexLists) → IsMadeFrom t (D.view decoder.old)
        → IsMadeFrom t (D.view decoder.new) }
    ensures pivot { KeepsRoom pivot.old pivot.new }
    ensures calls { IsCounted 1 1 calls.old calls.new }
{
    count_call(calls);
    match pivot {
        Pivot::Utf8(bytes) => {
            let (answer, read, written) = decode_to_bytes(decoder, src, bytes, last);
            DecodeCall {
                answer,
                read,
                written,
            }
        }
        Pivot::Utf16(units) => {
            let (answer, read, written) = decode_to_units(decoder, src, units, last);
            DecodeCall {
                answer,
                read,
                written,
            }
        }
    }
}

/// What a call of an encoder did.
#[derive(Clone, Copy)]
pub struct EncodeCall<'p> {
    pub answer: EncoderResult,
    /// The characters that were read.
    pub characters: usize,
    /// The bytes that were written.
    pub written: usize,
    /// The text that was read.
    pub read: PivotText<'p>,
    /// The text that was not read.
    pub rest: PivotText<'p>,
}

/// One call of an encoder, which reads text of a pivot. It is counted: no encoder is called but
/// here.
pub fn encode_from_pivot<'p, E: RawEncoder>(
    encoder: &mut E,
    text: PivotText<'p>,
    out: &mut [u8],
    last: bool,
    calls: &mut u64,
) -> EncodeCall<'p>
    ensures passed { result.characters + length (pivot_chars result.rest)
        ≡ length (pivot_chars text.entry) }
    ensures parts { IsWholeText text.entry → IsCutInto text.entry result.read result.rest }
    ensures wrote { WritesBytes out.old out.new result.written }
    ensures call { EncoderCall (E.parts encoder.old) (E.parts encoder.new) last result.answer
        (pivot_chars text.entry) (take result.written out.new) (pivot_chars result.rest)
        (length out.new - result.written) }
    ensures calls { IsCounted 1 1 calls.old calls.new }
{
    count_call(calls);
    match text {
        PivotText::Utf8(text) => {
            let (answer, read, written) = encoder.encode_from_utf8_raw(text, out, last);
            let front = &text[..read];
            EncodeCall {
                answer,
                characters: count_characters(front),
                written,
                read: PivotText::Utf8(front),
                rest: PivotText::Utf8(&text[read..]),
            }
        }
        PivotText::Utf16(units) => {
            let (answer, read, written) = encoder.encode_from_utf16_raw(units, out, last);
            let front = &units[..read];
            EncodeCall {
                answer,
                characters: count_in_units(front),
                written,
                read: PivotText::Utf16(front),
                rest: PivotText::Utf16(&units[read..]),
            }
        }
    }
}
