//! Big5 (the Encoding Standard, section 11.1).

ghost use Rattle.std.specs.Prelude.{◌≡◌, ◌+◌, ◌-◌, ◌*◌, ◌/◌, ◌%◌, ◌<◌, [], true, IfSome};
ghost use Rattle.encoding_mem.specs.calls.Decoding.{IsFreshDecoder};
ghost use Rattle.encoding_mem.specs.calls.Resuming.{resumed_plain};
ghost use Rattle.encoding_mem.specs.calls.DecodedLength.{decoded_length_multibyte};
ghost use Rattle.encoding_mem.specs.calls.EncoderRule.{IsFreshEncoder};
ghost use Rattle.encoding_mem.specs.calls.EncodedLength.{encoded_length_two_byte};
ghost use Rattle.encoding_mem.specs.Stateless.{stateless};
ghost use Rattle.encoding_tables.specs.IndexLists.{has, index_entries};
ghost use Rattle.encoding_tables.specs.Lookups.{AreEntries};
ghost use Rattle.encoding_codecs.specs.Big5.{is_big5_trail, big5_value, pieces_big5};
ghost use Rattle.encoding_codecs.specs.Big5.{takes_greatest_pointer, index_big5_pointer};
ghost use Rattle.encoding_codecs.specs.Big5.{big5_trail, big5_pair_bytes, big5_form, big5_first};
ghost use Rattle.encoding_codecs.specs.Big5.{big5_pair};
ghost use Rattle.encoding_codecs.specs.laws.TwoByte.{two_byte_rule};
ghost use Rattle.encoding_codecs.specs.laws.TwoByteDecide.{lead_rule_of};
ghost use Rattle.encoding_codecs.specs.laws.Big5.{big5_is_two_byte, big5_laws};
ghost use Rattle.encoding_codecs.specs.laws.Pointers.{ascii_by_pointer};
ghost use Rattle.encoding_codecs.specs.laws.EncodedLengths.{two_byte_fits};
ghost use Rattle.encoding_codecs.specs.calls.TwoByteRule.{big5_rule};

use crate::codec_decoder::CodecDecoder;
use crate::lead_byte_rule::{FirstByte, LeadByteDecoderRule, LeadByteRule};
use crate::two_byte::{PairValue, decide_trail, value_of_entry};
use encoding_mem::RawDecoder;
use encoding_mem::encode::StatelessRule;
use encoding_mem::first_piece::{FirstPiece, cut_short};
use encoding_mem::form::{Bytes, Form};
use encoding_mem::room::EncodedLength;
use encoding_mem::sink_decoder::SinkDecoder;
use encoding_mem::source_encoder::SourceEncoder;
use encoding_tables::{Flat, IndexKind, Tables};

// The pointers that are written: below them stand Hong Kong's extensions.
const WRITTEN_START: u32 = 5024;

const WRITTEN_END: u32 = 19782;

/// The rule by which `Big5Decoder` decodes, over its index.
#[derive(Drop)]
pub struct Big5<'a> {
    flat: Flat<'a>,
    ghost scalars: { AreEntries flat },
}

impl<'a> Big5<'a> {
    // What a lead and a second byte give.
    #[inline(always)]
    fn pair(&self, lead: u8, second: u8) -> PairValue
        requires { big5_first lead ≡ FirstByte.Lead }
        ensures { result ≡ big5_pair self.now.flat lead second }
    {
        if !is_trail(second) {
            return PairValue::NoChar;
        }
        let offset = if second < 0x7F { 0x40 } else { 0x62 };
        self.value((lead as u32 - 0x81) * 157 + (second as u32 - offset))
    }

    // What a pointer gives: four give a letter and a combining mark, whatever the index holds.
    #[inline(always)]
    fn value(&self, pointer: u32) -> PairValue
        ensures { result ≡ big5_value self.now.flat pointer }
    {
        match pointer {
            1133 => PairValue::TwoChars('\u{CA}', '\u{304}'),
            1135 => PairValue::TwoChars('\u{CA}', '\u{30C}'),
            1164 => PairValue::TwoChars('\u{EA}', '\u{304}'),
            1166 => PairValue::TwoChars('\u{EA}', '\u{30C}'),
            _ => value_of_entry(self.flat.value(pointer)),
        }
    }
}

// Whether a byte may follow a lead. Which of the two ranges a trail is in is not tested, since a
// processor can't foresee it.
#[inline(always)]
fn is_trail(byte: u8) -> bool
    ensures { result ≡ is_big5_trail byte }
{
    byte >= 0x40 && byte <= 0xFE && (byte < 0x7F || byte > 0xA0)
}

// Whether a character that stands at two pointers is written by the last.
#[inline(always)]
fn takes_last(c: char) -> bool
    ensures { result ≡ takes_greatest_pointer c }
{
    c == '\u{2550}'
        || c == '\u{255E}'
        || c == '\u{2561}'
        || c == '\u{256A}'
        || c == '\u{5341}'
        || c == '\u{5345}'
}

// The trail of a pointer, by its rest.
#[inline(always)]
fn trail_of(rest: u8) -> u8
    requires { rest < 157 }
    ensures { result ≡ big5_trail rest }
{
    if rest < 63 { 0x40 + rest } else { 0x62 + rest }
}

impl<'a> LeadByteRule for Big5<'a> {
    ghost rule = { λ s. lead_rule_of (big5_rule s.flat) };

    ghost laws = { λ s. two_byte_rule (big5_rule s.flat) (big5_is_two_byte s.flat s.scalars) };

    #[inline(always)]
    fn first(&self, byte: u8) -> FirstByte {
        if byte >= 0x81 && byte <= 0xFE {
            FirstByte::Lead
        } else {
            FirstByte::Unused
        }
    }

    #[inline(always)]
    fn after_lead(&self, lead: u8, rest: &[u8], last: bool) -> FirstPiece {
        match rest {
            [] => cut_short(1, last),
            [second, ..] => decide_trail(1, self.pair(lead, *second), *second),
        }
    }
}

/// The decoder of Big5, by its index (the Encoding Standard, section 11.1.1). Bytes are
/// hexadecimal. 00 to 7F are ASCII. A lead from 81 to FE and a trail from 40 to 7E or A1 to FE are
/// the entry at the pointer `(lead - 81) * 157 + (trail - offset)`. The offset is 40 for a trail
/// below 7F, and else 62. Four pointers give a letter and a combining mark.
///
/// 80 and FF are malformed, and so is a lead at the end. A lead with a trail with which it gives
/// nothing is malformed: both bytes, but the lead alone if the other is ASCII. One byte may be
/// pending.
pub type Big5Decoder<'a> = CodecDecoder<LeadByteDecoderRule<Big5<'a>>>;

impl<'a> CodecDecoder<LeadByteDecoderRule<Big5<'a>>> {
    /// A decoder of a new stream. The condition, that the index is in `tables`, is tested by
    /// `Tables::has`.
    pub fn new(tables: &'a Tables) -> Self
        requires { has tables.now IndexKind.Big5 ≡ true }
        ensures fresh { IsFreshDecoder (⟦<Big5Decoder<'a> as RawDecoder>⟧.state result)
            (pieces_big5 (index_entries tables.now IndexKind.Big5)) decoded_length_multibyte }
        ensures resumed { ⟦<Big5Decoder<'a> as SinkDecoder>⟧.resumed result
            ≡ resumed_plain (pieces_big5 (index_entries tables.now IndexKind.Big5))
            decoded_length_multibyte }
    {
        CodecDecoder::of_rule(LeadByteDecoderRule::new(Big5 {
            flat: tables.flat(IndexKind::Big5),
        }))
    }
}

/// The encoder of Big5, by its index (the Encoding Standard, section 11.1.2). ASCII is itself.
/// Another character is the lead and the trail of its least pointer from 5024 on, or of its
/// greatest for U+2550, U+255E, U+2561, U+256A, U+5341 and U+5345. One without such a pointer is
/// unmappable. It has no state.
#[derive(Drop)]
pub struct Big5Encoder<'a> {
    flat: Flat<'a>,
}

impl<'a> Big5Encoder<'a> {
    /// An encoder of a new stream. The condition, that the index is in `tables`, is tested by
    /// `Tables::has`.
    pub fn new(tables: &'a Tables) -> Self
        requires { has tables.now IndexKind.Big5 ≡ true }
        ensures { IsFreshEncoder (⟦<Big5Encoder<'a> as SourceEncoder>⟧.parts result) 2
            (stateless (big5_form (index_entries tables.now IndexKind.Big5)))
            encoded_length_two_byte }
    {
        Big5Encoder {
            flat: tables.flat(IndexKind::Big5),
        }
    }

    // The pointer that is written for a character.
    #[inline(always)]
    fn pointer_of(&self, c: char) -> Option<u32>
        ensures pointer { result ≡ index_big5_pointer self.now.flat c }
        ensures before { IfSome result (λ p. p < 19782) }
    {
        if takes_last(c) {
            self.flat.last_pointer(c, WRITTEN_START, WRITTEN_END)
        } else {
            self.flat.first_pointer(c, WRITTEN_START, WRITTEN_END)
        }
    }
}

impl<'a> StatelessRule for Big5Encoder<'a> {
    ghost need = { λ _. 2 };

    ghost form = { λ e. big5_form e.flat };

    ghost limits = { λ _. encoded_length_two_byte };

    ghost laws = { λ e. big5_laws e.flat };

    ghost fits = { λ e. two_byte_fits (big5_form e.flat) (big5_laws e.flat) (ascii_by_pointer big5_pair_bytes (index_big5_pointer e.flat)) };

    ghost ascii = { λ e. ascii_by_pointer big5_pair_bytes (index_big5_pointer e.flat) };

    #[inline(always)]
    fn form_of(&self, c: char) -> Form {
        if c < '\u{80}' {
            return Form::Mapped(Bytes::one(c as u8));
        }
        match self.pointer_of(c) {
            Some(pointer) => Form::Mapped(Bytes::two(
                0x81 + (pointer / 157) as u8,
                trail_of((pointer % 157) as u8),
            )),
            None => Form::Unmapped(c),
        }
    }

    fn encoded_length(&self) -> EncodedLength {
        EncodedLength::two_byte()
    }
}
