//! Shift_JIS (the Encoding Standard, section 12.3).

ghost use Rattle.std.specs.Prelude.{◌≡◌, ◌+◌, ◌<◌, ◌≤◌, true, IfSome};
ghost use Rattle.encoding_mem.specs.calls.Decoding.{IsFreshDecoder};
ghost use Rattle.encoding_mem.specs.calls.Resuming.{resumed_plain};
ghost use Rattle.encoding_mem.specs.calls.DecodedLength.{decoded_length_multibyte};
ghost use Rattle.encoding_mem.specs.calls.EncoderRule.{IsFreshEncoder};
ghost use Rattle.encoding_mem.specs.calls.EncodedLength.{encoded_length_two_byte};
ghost use Rattle.encoding_mem.specs.Stateless.{stateless};
ghost use Rattle.encoding_tables.specs.IndexLists.{has, index_entries};
ghost use Rattle.encoding_tables.specs.Lookups.{AreEntries};
ghost use Rattle.encoding_codecs.specs.ShiftJis.{is_shift_jis_lead, is_shift_jis_trail};
ghost use Rattle.encoding_codecs.specs.ShiftJis.{shift_jis_pair_pointer, pieces_shift_jis};
ghost use Rattle.encoding_codecs.specs.ShiftJis.{shift_jis_single_byte, index_shift_jis_pointer};
ghost use Rattle.encoding_codecs.specs.ShiftJis.{shift_jis_pair_bytes, shift_jis_char_bytes};
ghost use Rattle.encoding_codecs.specs.ShiftJis.{shift_jis_form, shift_jis_first, shift_jis_pair};
ghost use Rattle.encoding_codecs.specs.laws.TwoByte.{two_byte_rule};
ghost use Rattle.encoding_codecs.specs.laws.TwoByteDecide.{lead_rule_of};
ghost use Rattle.encoding_codecs.specs.laws.ShiftJis.{shift_jis_is_two_byte, shift_jis_ascii};
ghost use Rattle.encoding_codecs.specs.laws.ShiftJis.{shift_jis_laws};
ghost use Rattle.encoding_codecs.specs.laws.EncodedLengths.{two_byte_fits};
ghost use Rattle.encoding_codecs.specs.calls.TwoByteRule.{shift_jis_rule};

use crate::codec_decoder::CodecDecoder;
use crate::jis::{byte_of_katakana, folded, is_katakana, katakana_of_byte};
use crate::lead_byte_rule::{FirstByte, LeadByteDecoderRule, LeadByteRule};
use crate::two_byte::{PairValue, decide_trail, form_of_bytes, value_of_entry};
use encoding_mem::RawDecoder;
use encoding_mem::encode::StatelessRule;
use encoding_mem::first_piece::{FirstPiece, cut_short};
use encoding_mem::form::{Bytes, Form};
use encoding_mem::room::EncodedLength;
use encoding_mem::scalar::scalar_of;
use encoding_mem::sink_decoder::SinkDecoder;
use encoding_mem::source_encoder::SourceEncoder;
use encoding_tables::{Flat, IndexKind, Tables};

/// The rule by which `ShiftJisDecoder` decodes, over its index.
#[derive(Drop)]
pub struct ShiftJis<'a> {
    jis0208: Flat<'a>,
    ghost scalars: { AreEntries jis0208 },
}

impl<'a> LeadByteRule for ShiftJis<'a> {
    ghost rule = { λ s. lead_rule_of (shift_jis_rule s.jis0208) };

    ghost laws = { λ s. two_byte_rule (shift_jis_rule s.jis0208) (shift_jis_is_two_byte s.jis0208 s.scalars) };

    #[inline(always)]
    fn first(&self, byte: u8) -> FirstByte {
        if is_lead(byte) {
            return FirstByte::Lead;
        }
        match byte {
            0x80 => FirstByte::Alone('\u{80}'),
            0xA1..=0xDF => FirstByte::Alone(katakana_of_byte(byte)),
            _ => FirstByte::Unused,
        }
    }

    #[inline(always)]
    fn after_lead(&self, lead: u8, rest: &[u8], last: bool) -> FirstPiece {
        match rest {
            [] => cut_short(1, last),
            [second, ..] => decide_trail(1, self.pair(lead, *second), *second),
        }
    }
}

impl<'a> ShiftJis<'a> {
    // What a lead and a second byte give. The pointers from 8836 to 10715 are for private use.
    #[inline(always)]
    fn pair(&self, lead: u8, second: u8) -> PairValue
        requires { shift_jis_first lead ≡ FirstByte.Lead }
        ensures { result ≡ shift_jis_pair self.now.jis0208 lead second }
    {
        if !is_trail(second) {
            return PairValue::NoChar;
        }
        let pointer = pointer_of_pair(lead, second);
        if pointer >= 8836 && pointer <= 10715 {
            return PairValue::OneChar(scalar_of(0xE000 + (pointer - 8836)));
        }
        value_of_entry(self.jis0208.value(pointer))
    }
}

// Whether a byte from 80 on is a lead, 81 to 9F or E0 to FC (numbers are hexadecimal). Which of the
// two it is in is not tested: 80 to 9F and E0 to FF, with 20 added, leave less than 40 over 80.
#[inline(always)]
fn is_lead(byte: u8) -> bool
    requires { 0x80 ≤ byte }
    ensures { result ≡ is_shift_jis_lead byte }
{
    (byte as u32 + 0x20) % 0x80 < 0x40 && byte != 0x80 && byte <= 0xFC
}

// Whether a byte may follow a lead. Which of the two ranges a trail is in is not tested, since a
// processor can't foresee it.
#[inline(always)]
fn is_trail(byte: u8) -> bool
    ensures { result ≡ is_shift_jis_trail byte }
{
    byte >= 0x40 && byte <= 0xFC && byte != 0x7F
}

// The pointer of a lead and a trail. Divided by 64, the leads from 81 to 9F hex leave 1 to 31, and
// those from E0 to FC hex 32 to 60: the second range goes on where the first ends.
#[inline(always)]
fn pointer_of_pair(lead: u8, trail: u8) -> u32
    requires lead { is_shift_jis_lead lead ≡ true }
    requires trail { is_shift_jis_trail trail ≡ true }
    ensures { result ≡ shift_jis_pair_pointer lead trail }
{
    let offset = if trail < 0x7F { 0x40 } else { 0x41 };
    ((lead - 1) % 64) as u32 * 188 + (trail - offset) as u32
}

// The bytes of a character.
#[inline(always)]
fn bytes_of_char(jis0208: &Flat<'_>, c: char) -> Option<Bytes>
    ensures { result ≡ shift_jis_char_bytes jis0208.now c }
{
    if let Some(byte) = byte_of_char(c) {
        return Some(Bytes::one(byte));
    }
    match pointer_of_char(jis0208, folded(c)) {
        Some(pointer) => Some(bytes_of_pointer(pointer)),
        None => None,
    }
}

// The byte of a character that is one byte.
#[inline(always)]
fn byte_of_char(c: char) -> Option<u8>
    ensures { result ≡ shift_jis_single_byte c }
{
    if c <= '\u{80}' {
        Some(c as u8)
    } else if c == '\u{A5}' {
        Some(0x5C)
    } else if c == '\u{203E}' {
        Some(0x7E)
    } else if is_katakana(c) {
        Some(byte_of_katakana(c))
    } else {
        None
    }
}

// The pointer that is written for a character. Those from 8272 to 8835 are not used: in the standard's
// index what they hold stands at others too.
#[inline(always)]
fn pointer_of_char(jis0208: &Flat<'_>, c: char) -> Option<u32>
    ensures pointer { result ≡ index_shift_jis_pointer jis0208.now c }
    ensures before { IfSome result (λ p. p < 11280) }
{
    match jis0208.first_pointer(c, 0, 8272) {
        Some(pointer) => Some(pointer),
        None => jis0208.first_pointer(c, 8836, 11280),
    }
}

// The lead and the trail of a pointer.
#[inline(always)]
fn bytes_of_pointer(pointer: u32) -> Bytes
    requires { pointer < 11280 }
    ensures { result ≡ shift_jis_pair_bytes pointer }
{
    let row = pointer / 188;
    let cell = pointer % 188;
    let lead_offset = if row < 31 { 0x81 } else { 0xC1 };
    let trail_offset = if cell < 63 { 0x40 } else { 0x41 };
    Bytes::two((row + lead_offset) as u8, (cell + trail_offset) as u8)
}

/// The decoder of Shift_JIS, by the index jis0208 (the Encoding Standard, section 12.3.1). Bytes
/// are hexadecimal. 00 to 7F are ASCII, 80 is U+0080, and A1 to DF are halfwidth katakana. A lead
/// (81 to 9F, E0 to FC) and a trail (40 to 7E, 80 to FC) are the entry at their pointer, or, for
/// the pointers 8836 to 10715, a character for private use from U+E000 on.
///
/// Other first bytes are malformed, and so is a lead at the end. A lead with a byte with which it
/// gives nothing is malformed: both bytes, but the lead alone if the other is ASCII. One byte may
/// be pending.
pub type ShiftJisDecoder<'a> = CodecDecoder<LeadByteDecoderRule<ShiftJis<'a>>>;

impl<'a> CodecDecoder<LeadByteDecoderRule<ShiftJis<'a>>> {
    /// A decoder of a new stream. The condition, that the index is in `tables`, is tested by
    /// `Tables::has`.
    pub fn new(tables: &'a Tables) -> Self
        requires { has tables.now IndexKind.Jis0208 ≡ true }
        ensures fresh { IsFreshDecoder (⟦<ShiftJisDecoder<'a> as RawDecoder>⟧.state result)
            (pieces_shift_jis (index_entries tables.now IndexKind.Jis0208))
            decoded_length_multibyte }
        ensures resumed { ⟦<ShiftJisDecoder<'a> as SinkDecoder>⟧.resumed result
            ≡ resumed_plain (pieces_shift_jis (index_entries tables.now IndexKind.Jis0208))
            decoded_length_multibyte }
    {
        CodecDecoder::of_rule(LeadByteDecoderRule::new(ShiftJis {
            jis0208: tables.flat(IndexKind::Jis0208),
        }))
    }
}

/// The encoder of Shift_JIS, by the index jis0208 (the Encoding Standard, section 12.3.2). U+0000
/// to U+0080, U+00A5 (5C), U+203E (7E) and halfwidth katakana (A1 to DF) are one byte. Another
/// character is two, by its least pointer outside 8272 to 8835; U+2212 is looked up as U+FF0D. One
/// without a pointer is unmappable. It has no state.
#[derive(Drop)]
pub struct ShiftJisEncoder<'a> {
    jis0208: Flat<'a>,
}

impl<'a> ShiftJisEncoder<'a> {
    /// An encoder of a new stream. The condition, that the index is in `tables`, is tested by
    /// `Tables::has`.
    pub fn new(tables: &'a Tables) -> Self
        requires { has tables.now IndexKind.Jis0208 ≡ true }
        ensures { IsFreshEncoder (⟦<ShiftJisEncoder<'a> as SourceEncoder>⟧.parts result) 2
            (stateless (shift_jis_form (index_entries tables.now IndexKind.Jis0208)))
            encoded_length_two_byte }
    {
        ShiftJisEncoder {
            jis0208: tables.flat(IndexKind::Jis0208),
        }
    }
}

impl<'a> StatelessRule for ShiftJisEncoder<'a> {
    ghost need = { λ _. 2 };

    ghost form = { λ e. shift_jis_form e.jis0208 };

    ghost limits = { λ _. encoded_length_two_byte };

    ghost laws = { λ e. shift_jis_laws e.jis0208 };

    ghost fits = { λ e. two_byte_fits (shift_jis_form e.jis0208) (shift_jis_laws e.jis0208) (shift_jis_ascii e.jis0208) };

    ghost ascii = { λ e. shift_jis_ascii e.jis0208 };

    #[inline(always)]
    fn form_of(&self, c: char) -> Form {
        form_of_bytes(c, bytes_of_char(&self.jis0208, c))
    }

    fn encoded_length(&self) -> EncodedLength {
        EncodedLength::two_byte()
    }
}
