//! EUC-JP (the Encoding Standard, section 12.1).

ghost use Rattle.std.specs.Prelude.{◌≡◌, ◌≢◌, ◌<◌, true};
ghost use Rattle.encoding_mem.specs.calls.Decoding.{IsFreshDecoder};
ghost use Rattle.encoding_mem.specs.calls.Resuming.{resumed_plain};
ghost use Rattle.encoding_mem.specs.calls.DecodedLength.{decoded_length_multibyte};
ghost use Rattle.encoding_mem.specs.calls.EncoderRule.{IsFreshEncoder};
ghost use Rattle.encoding_mem.specs.calls.EncodedLength.{encoded_length_two_byte};
ghost use Rattle.encoding_mem.specs.Stateless.{stateless};
ghost use Rattle.encoding_tables.specs.IndexLists.{has, index_entries};
ghost use Rattle.encoding_tables.specs.Lookups.{AreEntries};
ghost use Rattle.encoding_codecs.specs.EucJp.{is_pointer_byte, euc_jp_first, euc_pair, euc_jp_pair};
ghost use Rattle.encoding_codecs.specs.EucJp.{euc_jp_after, pieces_euc_jp, euc_jp_own_bytes};
ghost use Rattle.encoding_codecs.specs.EucJp.{euc_jp_pair_bytes, euc_jp_char_bytes, euc_jp_form};
ghost use Rattle.encoding_codecs.specs.laws.EucJpDecide.{decide_8f, decide_euc_jp};
ghost use Rattle.encoding_codecs.specs.laws.EucJp.{euc_jp_is_lead_rule, euc_jp_ascii, euc_jp_laws};
ghost use Rattle.encoding_codecs.specs.laws.EncodedLengths.{two_byte_fits};

use crate::codec_decoder::CodecDecoder;
use crate::jis::{byte_of_katakana, folded, is_katakana, is_katakana_byte, katakana_of_byte};
use crate::lead_byte_rule::{FirstByte, LeadByteDecoderRule, LeadByteRule};
use crate::two_byte::{PairValue, decide_trail, form_of_bytes, value_of_entry};
use encoding_mem::RawDecoder;
use encoding_mem::encode::StatelessRule;
use encoding_mem::first_piece::{FirstPiece, cut_short};
use encoding_mem::form::{Bytes, Form};
use encoding_mem::room::EncodedLength;
use encoding_mem::sink_decoder::SinkDecoder;
use encoding_mem::source_encoder::SourceEncoder;
use encoding_tables::{Flat, IndexKind, Tables};

/// The rule by which `EucJpDecoder` decodes, over its two indexes.
#[derive(Drop)]
pub struct EucJpLeads<'a> {
    jis0208: Flat<'a>,
    jis0212: Flat<'a>,
    ghost scalars: { AreEntries jis0208 },
    ghost scalars_behind_8f: { AreEntries jis0212 },
}

impl<'a> LeadByteRule for EucJpLeads<'a> {
    ghost rule = { λ s. record {
      first = euc_jp_first;
      after = euc_jp_after s.jis0208 s.jis0212;
      decide = decide_euc_jp s.jis0208 s.jis0212;
    } };

    ghost laws = { λ s. euc_jp_is_lead_rule s.jis0208 s.jis0212 s.scalars s.scalars_behind_8f };

    #[inline(always)]
    fn first(&self, byte: u8) -> FirstByte {
        match byte {
            0x8E | 0x8F | 0xA1..=0xFE => FirstByte::Lead,
            _ => FirstByte::Unused,
        }
    }

    #[inline(always)]
    fn after_lead(&self, lead: u8, rest: &[u8], last: bool) -> FirstPiece {
        if lead == 0x8F {
            return after_8f(&self.jis0212, rest, last);
        }
        match rest {
            [] => cut_short(1, last),
            [second, ..] => decide_trail(1, pair(&self.jis0208, lead, *second), *second),
        }
    }
}

// Whether a byte may be one of the two of a pointer.
#[inline(always)]
fn is_pointer_byte(byte: u8) -> bool
    ensures { result ≡ is_pointer_byte byte }
{
    matches!(byte, 0xA1..=0xFE)
}

// What a lead other than 8F and the byte after it give.
#[inline(always)]
fn pair(jis0208: &Flat<'_>, lead: u8, second: u8) -> PairValue
    requires lead { euc_jp_first lead ≡ FirstByte.Lead }
    requires other { lead ≢ 0x8F }
    ensures { result ≡ euc_jp_pair jis0208.now lead second }
{
    if lead != 0x8E {
        pair_by_index(jis0208, lead, second)
    } else if is_katakana_byte(second) {
        PairValue::OneChar(katakana_of_byte(second))
    } else {
        PairValue::NoChar
    }
}

// What two bytes give by an index, if both are bytes of a pointer.
#[inline(always)]
fn pair_by_index(flat: &Flat<'_>, lead: u8, trail: u8) -> PairValue
    requires { is_pointer_byte lead ≡ true }
    ensures { result ≡ euc_pair flat.now lead trail }
{
    if is_pointer_byte(trail) {
        let pointer = (lead - 0xA1) as u32 * 94 + (trail - 0xA1) as u32;
        value_of_entry(flat.value(pointer))
    } else {
        PairValue::NoChar
    }
}

// What 8F and the bytes after it give: two of a pointer, by jis0212.
fn after_8f(jis0212: &Flat<'_>, rest: &[u8], last: bool) -> FirstPiece
    ensures { result ≡ decide_8f jis0212.now rest.now last }
{
    match rest {
        [] => cut_short(1, last),
        [second, rest @ ..] => {
            let second = *second;
            if !is_pointer_byte(second) {
                return decide_trail(1, PairValue::NoChar, second);
            }
            match rest {
                [] => cut_short(2, last),
                [third, ..] => decide_trail(2, pair_by_index(jis0212, second, *third), *third),
            }
        }
    }
}

/// The decoder of EUC-JP, by the indexes jis0208 and jis0212 (the Encoding Standard, section
/// 12.1.1). Bytes are hexadecimal. 00 to 7F are ASCII, and 8E and a byte from A1 to DF are
/// halfwidth katakana. Two bytes from A1 to FE are the entry of jis0208 at their pointer; 8F and
/// two such bytes are that of jis0212.
///
/// Other first bytes are malformed, and so is a lead at the end. A lead with a byte with which it
/// gives nothing is malformed: both bytes, but the lead alone if the other is ASCII. After 8F and a
/// byte from A1 to FE it is those two bytes, or all three. Up to two bytes may be pending.
pub type EucJpDecoder<'a> = CodecDecoder<LeadByteDecoderRule<EucJpLeads<'a>>>;

impl<'a> CodecDecoder<LeadByteDecoderRule<EucJpLeads<'a>>> {
    /// A decoder of a new stream. The conditions, that both indexes are in `tables`, are tested by
    /// `Tables::has`.
    pub fn new(tables: &'a Tables) -> Self
        requires jis0208 { has tables.now IndexKind.Jis0208 ≡ true }
        requires jis0212 { has tables.now IndexKind.Jis0212 ≡ true }
        ensures fresh { IsFreshDecoder (⟦<EucJpDecoder<'a> as RawDecoder>⟧.state result)
            (pieces_euc_jp (index_entries tables.now IndexKind.Jis0208)
            (index_entries tables.now IndexKind.Jis0212))
            decoded_length_multibyte }
        ensures resumed { ⟦<EucJpDecoder<'a> as SinkDecoder>⟧.resumed result
            ≡ resumed_plain (pieces_euc_jp (index_entries tables.now IndexKind.Jis0208)
            (index_entries tables.now IndexKind.Jis0212)) decoded_length_multibyte }
    {
        CodecDecoder::of_rule(LeadByteDecoderRule::new(EucJpLeads {
            jis0208: tables.flat(IndexKind::Jis0208),
            jis0212: tables.flat(IndexKind::Jis0212),
        }))
    }
}

// The bytes of a character.
#[inline(always)]
fn bytes_of_char(jis0208: &Flat<'_>, c: char) -> Option<Bytes>
    ensures { result ≡ euc_jp_char_bytes jis0208.now c }
{
    if let Some(bytes) = own_bytes(c) {
        return Some(bytes);
    }
    match jis0208.first_pointer(folded(c), 0, 8836) {
        Some(pointer) => Some(bytes_of_pointer(pointer)),
        None => None,
    }
}

// The bytes of a character that is not looked up.
#[inline(always)]
fn own_bytes(c: char) -> Option<Bytes>
    ensures { result ≡ euc_jp_own_bytes c }
{
    if c < '\u{80}' {
        Some(Bytes::one(c as u8))
    } else if c == '\u{A5}' {
        Some(Bytes::one(0x5C))
    } else if c == '\u{203E}' {
        Some(Bytes::one(0x7E))
    } else if is_katakana(c) {
        Some(Bytes::two(0x8E, byte_of_katakana(c)))
    } else {
        None
    }
}

// The lead and the trail of a pointer.
#[inline(always)]
fn bytes_of_pointer(pointer: u32) -> Bytes
    requires { pointer < 8836 }
    ensures { result ≡ euc_jp_pair_bytes pointer }
{
    Bytes::two((0xA1 + pointer / 94) as u8, (0xA1 + pointer % 94) as u8)
}

/// The encoder of EUC-JP, by the index jis0208 (the Encoding Standard, section 12.1.2). ASCII,
/// U+00A5 (5C) and U+203E (7E) are one byte, and halfwidth katakana is 8E and a byte. Another
/// character is two bytes, by its least pointer below 8836; U+2212 is looked up as U+FF0D. One
/// without a pointer is unmappable: jis0212 is never written. It has no state.
#[derive(Drop)]
pub struct EucJpEncoder<'a> {
    jis0208: Flat<'a>,
}

impl<'a> EucJpEncoder<'a> {
    /// An encoder of a new stream. The condition, that the index is in `tables`, is tested by
    /// `Tables::has`.
    pub fn new(tables: &'a Tables) -> Self
        requires { has tables.now IndexKind.Jis0208 ≡ true }
        ensures { IsFreshEncoder (⟦<EucJpEncoder<'a> as SourceEncoder>⟧.parts result) 2
            (stateless (euc_jp_form (index_entries tables.now IndexKind.Jis0208)))
            encoded_length_two_byte }
    {
        EucJpEncoder {
            jis0208: tables.flat(IndexKind::Jis0208),
        }
    }
}

impl<'a> StatelessRule for EucJpEncoder<'a> {
    ghost need = { λ _. 2 };

    ghost form = { λ e. euc_jp_form e.jis0208 };

    ghost limits = { λ _. encoded_length_two_byte };

    ghost laws = { λ e. euc_jp_laws e.jis0208 };

    ghost fits = { λ e. two_byte_fits (euc_jp_form e.jis0208) (euc_jp_laws e.jis0208) (euc_jp_ascii e.jis0208) };

    ghost ascii = { λ e. euc_jp_ascii e.jis0208 };

    #[inline(always)]
    fn form_of(&self, c: char) -> Form {
        form_of_bytes(c, bytes_of_char(&self.jis0208, c))
    }

    fn encoded_length(&self) -> EncodedLength {
        EncodedLength::two_byte()
    }
}
