//! The decoder of gb18030 (the Encoding Standard, section 10.2.1, "gb18030 decoder"), which is
//! that of GBK too (section 10.1.1).

ghost use Rattle.std.specs.Prelude.{◌≡◌, ◌≤◌, ◌||◌, true};
ghost use Rattle.std.specs.Int.{IsInRange, is_in_range};
ghost use Rattle.encoding_mem.specs.calls.Decoding.{IsFreshDecoder};
ghost use Rattle.encoding_mem.specs.calls.Resuming.{resumed_plain};
ghost use Rattle.encoding_mem.specs.calls.DecodedLength.{decoded_length_multibyte};
ghost use Rattle.encoding_tables.specs.IndexLists.{has, index_entries, range_rows};
ghost use Rattle.encoding_codecs.specs.Gb18030.{gb18030_first, gb18030_pair, gb18030_pair_pointer};
ghost use Rattle.encoding_codecs.specs.Gb18030.{gb18030_four_pointer, gb18030_after_lead};
ghost use Rattle.encoding_codecs.specs.Gb18030.{pieces_gb18030};
ghost use Rattle.encoding_codecs.specs.laws.Gb18030Decide.{gb18030_decide_lead, gb18030_decide_two};
ghost use Rattle.encoding_codecs.specs.laws.Gb18030Decide.{gb18030_decide_three, decide_four};
ghost use Rattle.encoding_codecs.specs.laws.Gb18030.{AreGbTables, gb18030_rule};

use crate::codec_decoder::CodecDecoder;
use crate::lead_byte_rule::{FirstByte, LeadByteDecoderRule, LeadByteRule};
use crate::two_byte::{PairValue, decide_trail, value_of_entry};
use encoding_mem::RawDecoder;
use encoding_mem::first_piece::{FirstPiece, cut_short};
use encoding_mem::sink_decoder::SinkDecoder;
use encoding_tables::{Flat, IndexKind, Ranges, Tables};

/// The rule by which `Gb18030Decoder` decodes: the leads of gb18030, and what its tables make of
/// the bytes after them.
#[derive(Drop)]
pub struct Gb18030Rule<'a> {
    index: Flat<'a>,
    ranges: Ranges<'a>,
    ghost scalars: { AreGbTables index ranges },
}

impl<'a> LeadByteRule for Gb18030Rule<'a> {
    ghost rule = { λ s. record {
      first = gb18030_first;
      after = gb18030_after_lead s.index s.ranges;
      decide = gb18030_decide_lead s.index s.ranges;
    } };

    ghost laws = { λ s. gb18030_rule s.index s.ranges s.scalars };

    #[inline(always)]
    fn first(&self, byte: u8) -> FirstByte {
        if is_lead(byte) {
            FirstByte::Lead
        } else if byte == 0x80 {
            FirstByte::Alone('\u{20AC}')
        } else {
            FirstByte::Unused
        }
    }

    #[inline(always)]
    fn after_lead(&self, lead: u8, rest: &[u8], last: bool) -> FirstPiece {
        match rest {
            [] => cut_short(1, last),
            [second, rest @ ..] => {
                let second = *second;
                if second >= 0x40 {
                    decide_trail(1, self.pair(lead, second), second)
                } else if is_digit(second) {
                    self.after_two(lead, second, rest, last)
                } else {
                    FirstPiece::Malformed(1)
                }
            }
        }
    }
}

impl<'a> Gb18030Rule<'a> {
    // The character of a lead and a trail, from the index.
    #[inline(always)]
    fn pair(&self, lead: u8, trail: u8) -> PairValue
        requires lead { IsInRange 0x81 0xFE lead }
        requires trail { 0x40 ≤ trail }
        ensures { result ≡ gb18030_pair self.now.index lead trail }
    {
        if !is_trail(trail) {
            return PairValue::NoChar;
        }
        value_of_entry(self.index.value(pair_pointer(lead, trail)))
    }

    // A lead and a digit begin a form of four bytes. If the third or the fourth byte does not
    // continue it, the lead is malformed alone, and what is after it is read again.
    #[inline(always)]
    fn after_two(&self, a: u8, b: u8, rest: &[u8], last: bool) -> FirstPiece
        requires lead { IsInRange 0x81 0xFE a }
        requires second { IsInRange 0x30 0x39 b }
        ensures { result ≡ gb18030_decide_two self.now.ranges a b rest.now last }
    {
        match rest {
            [] => cut_short(2, last),
            [third, rest @ ..] => {
                let third = *third;
                if is_lead(third) {
                    self.after_three(a, b, third, rest, last)
                } else {
                    FirstPiece::Malformed(1)
                }
            }
        }
    }

    #[inline(always)]
    fn after_three(&self, a: u8, b: u8, c: u8, rest: &[u8], last: bool) -> FirstPiece
        requires lead { IsInRange 0x81 0xFE a }
        requires second { IsInRange 0x30 0x39 b }
        requires third { IsInRange 0x81 0xFE c }
        ensures { result ≡ gb18030_decide_three self.now.ranges a b c rest.now last }
    {
        match rest {
            [] => cut_short(3, last),
            [fourth, ..] => {
                let fourth = *fourth;
                if is_digit(fourth) {
                    first_piece_of_four(self.ranges.value(four_pointer(a, b, c, fourth)))
                } else {
                    FirstPiece::Malformed(1)
                }
            }
        }
    }
}

// The first byte of a form of two or four bytes, and the third of one of four. One comparison
// decides it: two bounds would be tested with 80 and with FF, if a byte is known to be no ASCII.
#[inline(always)]
fn is_lead(byte: u8) -> bool
    ensures { result ≡ is_in_range 0x81 0xFE byte }
{
    byte.wrapping_sub(0x81) < 0x7E
}

// The second and the fourth byte of a form of four.
#[inline(always)]
fn is_digit(byte: u8) -> bool
    ensures { result ≡ is_in_range 0x30 0x39 byte }
{
    byte >= 0x30 && byte <= 0x39
}

// Whether a byte from 40 hex on is the second byte of a form of two: all are, but 7F and FF.
#[inline(always)]
fn is_trail(byte: u8) -> bool
    requires { 0x40 ≤ byte }
    ensures { result ≡ (is_in_range 0x40 0x7E byte || is_in_range 0x80 0xFE byte) }
{
    byte % 0x80 != 0x7F
}

// The pointer of a lead and a trail: a lead has 190, and the trails leave out 7F.
#[inline(always)]
fn pair_pointer(lead: u8, trail: u8) -> u32
    requires lead { IsInRange 0x81 0xFE lead }
    requires trail { IsInRange 0x40 0xFE trail }
    ensures { result ≡ gb18030_pair_pointer lead trail }
{
    let offset = if trail < 0x7F { 0x40 } else { 0x41 };
    (lead as u32 - 0x81) * 190 + (trail as u32 - offset)
}

// The pointer of four bytes: ten digits, 126 leads, ten digits for a lead.
fn four_pointer(a: u8, b: u8, c: u8, d: u8) -> u32
    requires first { IsInRange 0x81 0xFE a }
    requires second { IsInRange 0x30 0x39 b }
    requires third { IsInRange 0x81 0xFE c }
    requires fourth { IsInRange 0x30 0x39 d }
    ensures { result ≡ gb18030_four_pointer a b c d }
{
    (a as u32 - 0x81) * 12600
        + (b as u32 - 0x30) * 1260
        + (c as u32 - 0x81) * 10
        + (d as u32 - 0x30)
}

// The piece of four bytes, by the character at their pointer.
#[inline(always)]
fn first_piece_of_four(c: Option<char>) -> FirstPiece
    ensures { result ≡ decide_four c }
{
    match c {
        Some(c) => FirstPiece::One(c, 4),
        None => FirstPiece::Malformed(4),
    }
}

/// The decoder of gb18030 and of GBK, by the index gb18030 and its ranges (the Encoding Standard,
/// sections 10.1.1 and 10.2.1). Bytes are hexadecimal. 00 to 7F are ASCII, and 80 is U+20AC. A lead
/// (81 to FE) and a trail (40 to 7E, 80 to FE) are the entry at their pointer. Four bytes, of which
/// the second and fourth are 30 to 39 and the third 81 to FE, are the value of the ranges at
/// theirs.
///
/// FF is malformed, and so are a lead, or the beginning of four bytes, at the end. A lead with a
/// byte with which it gives nothing is malformed: both bytes, but the lead alone if the other is
/// ASCII. If four bytes break off, the first is malformed, and the others are read again; four
/// without a value are malformed. Up to three bytes may be pending.
pub type Gb18030Decoder<'a> = CodecDecoder<LeadByteDecoderRule<Gb18030Rule<'a>>>;

impl<'a> CodecDecoder<LeadByteDecoderRule<Gb18030Rule<'a>>> {
    /// A decoder of a new stream. The conditions, that the index and the ranges are in `tables`,
    /// are tested by `Tables::has`.
    pub fn new(tables: &'a Tables) -> Self
        requires index { has tables.now IndexKind.Gb18030 ≡ true }
        requires ranges { has tables.now IndexKind.Gb18030Ranges ≡ true }
        ensures fresh { IsFreshDecoder (⟦<Gb18030Decoder<'a> as RawDecoder>⟧.state result)
            (pieces_gb18030 (index_entries tables.now IndexKind.Gb18030) (range_rows tables.now))
            decoded_length_multibyte }
        ensures resumed { ⟦<Gb18030Decoder<'a> as SinkDecoder>⟧.resumed result
            ≡ resumed_plain (pieces_gb18030 (index_entries tables.now IndexKind.Gb18030)
            (range_rows tables.now)) decoded_length_multibyte }
    {
        CodecDecoder::of_rule(LeadByteDecoderRule::new(Gb18030Rule {
            index: tables.flat(IndexKind::Gb18030),
            ranges: tables.ranges(),
        }))
    }
}
