//! EUC-KR (the Encoding Standard, section 13.1).

ghost use Rattle.std.specs.Prelude.{◌≡◌, ◌+◌, ◌-◌, ◌*◌, ◌/◌, ◌%◌, ◌<◌, [], true};
ghost use Rattle.encoding_mem.specs.calls.Decoding.{IsFreshDecoder};
ghost use Rattle.encoding_mem.specs.calls.Resuming.{resumed_plain};
ghost use Rattle.encoding_mem.specs.calls.DecodedLength.{decoded_length_multibyte};
ghost use Rattle.encoding_mem.specs.calls.EncoderRule.{IsFreshEncoder};
ghost use Rattle.encoding_mem.specs.calls.EncodedLength.{encoded_length_two_byte};
ghost use Rattle.encoding_mem.specs.Stateless.{stateless};
ghost use Rattle.encoding_tables.specs.IndexLists.{has, index_entries};
ghost use Rattle.encoding_tables.specs.Lookups.{AreEntries, first_pointer};
ghost use Rattle.encoding_codecs.specs.EucKr.{pieces_euc_kr, euc_kr_pair_bytes, euc_kr_form};
ghost use Rattle.encoding_codecs.specs.EucKr.{euc_kr_first, euc_kr_pair};
ghost use Rattle.encoding_codecs.specs.laws.TwoByte.{two_byte_rule};
ghost use Rattle.encoding_codecs.specs.laws.TwoByteDecide.{lead_rule_of};
ghost use Rattle.encoding_codecs.specs.laws.EucKr.{euc_kr_is_two_byte, euc_kr_laws};
ghost use Rattle.encoding_codecs.specs.laws.Pointers.{ascii_by_pointer};
ghost use Rattle.encoding_codecs.specs.laws.EncodedLengths.{two_byte_fits};
ghost use Rattle.encoding_codecs.specs.calls.TwoByteRule.{euc_kr_rule};

use crate::codec_decoder::CodecDecoder;
use crate::lead_byte_rule::{FirstByte, LeadByteDecoderRule, LeadByteRule};
use crate::two_byte::{PairValue, decide_trail, value_of_entry};
use encoding_mem::RawDecoder;
use encoding_mem::encode::StatelessRule;
use encoding_mem::first_piece::{FirstPiece, cut_short};
use encoding_mem::form::{Bytes, Form};
use encoding_mem::room::EncodedLength;
use encoding_mem::sink_decoder::SinkDecoder;
use encoding_mem::source_encoder::SourceEncoder;
use encoding_tables::{Flat, IndexKind, Tables};

/// The rule by which `EucKrDecoder` decodes, over its index.
#[derive(Drop)]
pub struct EucKr<'a> {
    flat: Flat<'a>,
    ghost scalars: { AreEntries flat },
}

impl<'a> LeadByteRule for EucKr<'a> {
    ghost rule = { λ s. lead_rule_of (euc_kr_rule s.flat) };

    ghost laws = { λ s. two_byte_rule (euc_kr_rule s.flat) (euc_kr_is_two_byte s.flat s.scalars) };

    #[inline(always)]
    fn first(&self, byte: u8) -> FirstByte {
        if byte >= 0x81 && byte <= 0xFE {
            FirstByte::Lead
        } else {
            FirstByte::Unused
        }
    }

    #[inline(always)]
    fn after_lead(&self, lead: u8, rest: &[u8], last: bool) -> FirstPiece {
        match rest {
            [] => cut_short(1, last),
            [second, ..] => decide_trail(1, self.pair(lead, *second), *second),
        }
    }
}

impl<'a> EucKr<'a> {
    // What a lead and a second byte give.
    #[inline(always)]
    fn pair(&self, lead: u8, second: u8) -> PairValue
        requires { euc_kr_first lead ≡ FirstByte.Lead }
        ensures { result ≡ euc_kr_pair self.now.flat lead second }
    {
        if second < 0x41 || second > 0xFE {
            return PairValue::NoChar;
        }
        let pointer = (lead as u32 - 0x81) * 190 + (second as u32 - 0x41);
        value_of_entry(self.flat.value(pointer))
    }
}

/// The decoder of EUC-KR, by its index (the Encoding Standard, section 13.1.1). Bytes are
/// hexadecimal. 00 to 7F are ASCII. A lead from 81 to FE and a trail from 41 to FE are the entry at
/// the pointer `(lead - 81) * 190 + (trail - 41)`.
///
/// 80 and FF are malformed, and so is a lead at the end. A lead with a trail with which it gives
/// nothing is malformed: both bytes, but the lead alone if the other is ASCII. One byte may be
/// pending.
pub type EucKrDecoder<'a> = CodecDecoder<LeadByteDecoderRule<EucKr<'a>>>;

impl<'a> CodecDecoder<LeadByteDecoderRule<EucKr<'a>>> {
    /// A decoder of a new stream. The condition, that the index is in `tables`, is tested by
    /// `Tables::has`.
    pub fn new(tables: &'a Tables) -> Self
        requires { has tables.now IndexKind.EucKr ≡ true }
        ensures fresh { IsFreshDecoder (⟦<EucKrDecoder<'a> as RawDecoder>⟧.state result)
            (pieces_euc_kr (index_entries tables.now IndexKind.EucKr)) decoded_length_multibyte }
        ensures resumed { ⟦<EucKrDecoder<'a> as SinkDecoder>⟧.resumed result
            ≡ resumed_plain (pieces_euc_kr (index_entries tables.now IndexKind.EucKr))
            decoded_length_multibyte }
    {
        CodecDecoder::of_rule(LeadByteDecoderRule::new(EucKr {
            flat: tables.flat(IndexKind::EucKr),
        }))
    }
}

/// The encoder of EUC-KR, by its index (the Encoding Standard, section 13.1.2). ASCII is itself.
/// Another character is the lead and the trail of its least pointer. One without a pointer is
/// unmappable. It has no state.
#[derive(Drop)]
pub struct EucKrEncoder<'a> {
    flat: Flat<'a>,
}

impl<'a> EucKrEncoder<'a> {
    /// An encoder of a new stream. The condition, that the index is in `tables`, is tested by
    /// `Tables::has`.
    pub fn new(tables: &'a Tables) -> Self
        requires { has tables.now IndexKind.EucKr ≡ true }
        ensures { IsFreshEncoder (⟦<EucKrEncoder<'a> as SourceEncoder>⟧.parts result) 2
            (stateless (euc_kr_form (index_entries tables.now IndexKind.EucKr)))
            encoded_length_two_byte }
    {
        EucKrEncoder {
            flat: tables.flat(IndexKind::EucKr),
        }
    }
}

impl<'a> StatelessRule for EucKrEncoder<'a> {
    ghost need = { λ _. 2 };

    ghost form = { λ e. euc_kr_form e.flat };

    ghost limits = { λ _. encoded_length_two_byte };

    ghost laws = { λ e. euc_kr_laws e.flat };

    ghost fits = { λ e. two_byte_fits (euc_kr_form e.flat) (euc_kr_laws e.flat) (ascii_by_pointer euc_kr_pair_bytes (λ c. first_pointer e.flat c 0 23940)) };

    ghost ascii = { λ e. ascii_by_pointer euc_kr_pair_bytes (λ c. first_pointer e.flat c 0 23940) };

    #[inline(always)]
    fn form_of(&self, c: char) -> Form {
        if c < '\u{80}' {
            return Form::Mapped(Bytes::one(c as u8));
        }
        match self.flat.first_pointer(c, 0, 23940) {
            Some(pointer) => Form::Mapped(Bytes::two(
                0x81 + (pointer / 190) as u8,
                0x41 + (pointer % 190) as u8,
            )),
            None => Form::Unmapped(c),
        }
    }

    fn encoded_length(&self) -> EncodedLength {
        EncodedLength::two_byte()
    }
}
