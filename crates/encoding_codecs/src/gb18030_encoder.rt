//! The encoder of gb18030 (the Encoding Standard, section 10.2.2, "gb18030 encoder") and of GBK
//! (section 10.1.2), which has no forms of four bytes.

ghost use Rattle.std.specs.Prelude.{◌≡◌, ◌+◌, ◌/◌, ◌%◌, ◌<◌, true};
ghost use Rattle.encoding_mem.specs.calls.EncoderRule.{IsFreshEncoder};
ghost use Rattle.encoding_mem.specs.Stateless.{stateless};
ghost use Rattle.encoding_tables.specs.IndexLists.{has, index_entries, range_rows};
ghost use Rattle.encoding_codecs.specs.Gb18030Coding.{gb18030_fixed_pair, gb18030_pair_bytes};
ghost use Rattle.encoding_codecs.specs.Gb18030Coding.{gb18030_four_bytes, gb18030_bytes};
ghost use Rattle.encoding_codecs.specs.Gb18030Coding.{gb18030_form};
ghost use Rattle.encoding_codecs.specs.laws.Gb18030Coding.{gb18030_ascii, gb18030_fits};
ghost use Rattle.encoding_codecs.specs.laws.Gb18030Coding.{gb18030_laws};
ghost use Rattle.encoding_codecs.specs.calls.Gb18030Bounds.{gb18030_need, gb18030_encoded_length};

use crate::two_byte::form_of_bytes;
use encoding_mem::encode::StatelessRule;
use encoding_mem::form::{Bytes, Form};
use encoding_mem::room::EncodedLength;
use encoding_mem::source_encoder::SourceEncoder;
use encoding_tables::{Flat, IndexKind, Ranges, Tables};

/// The encoder of gb18030 or of GBK, by the index gb18030 and its ranges (the Encoding Standard,
/// sections 10.1.2 and 10.2.2). ASCII is itself, and U+E5E5 is unmappable. Eighteen characters for
/// private use have the two bytes of the standard's table. Another character is two bytes, by its
/// least pointer of the index. One that the index lacks is four bytes in gb18030, by the ranges:
/// U+E7C7 by pointer 7457, another by a valid pointer beside 7457 that a row gives it; else it is
/// unmappable. In GBK U+20AC is 80. It has no state.
#[derive(Drop)]
pub struct Gb18030Encoder<'a> {
    index: Flat<'a>,
    ranges: Ranges<'a>,
    extended_range: bool,
}

impl<'a> Gb18030Encoder<'a> {
    /// An encoder of a new stream: of gb18030 if `extended_range` is true, and else of GBK. The
    /// conditions, that the index and the ranges are in `tables`, are tested by `Tables::has`.
    pub fn new(tables: &'a Tables, extended_range: bool) -> Self
        requires index { has tables.now IndexKind.Gb18030 ≡ true }
        requires ranges { has tables.now IndexKind.Gb18030Ranges ≡ true }
        ensures { IsFreshEncoder (⟦<Gb18030Encoder<'a> as SourceEncoder>⟧.parts result) (gb18030_need extended_range)
            (stateless (gb18030_form (index_entries tables.now IndexKind.Gb18030)
            (range_rows tables.now) extended_range))
            (gb18030_encoded_length extended_range) }
    {
        Gb18030Encoder {
            index: tables.flat(IndexKind::Gb18030),
            ranges: tables.ranges(),
            extended_range,
        }
    }

    // The bytes of a character, if it has any.
    #[inline(always)]
    fn bytes_of(&self, c: char) -> Option<Bytes>
        ensures { result ≡ gb18030_bytes self.now.index self.now.ranges self.now.extended_range c }
    {
        if c < '\u{80}' {
            return Some(Bytes::one(c as u8));
        }
        if c == '\u{E5E5}' {
            return None;
        }
        if c == '\u{20AC}' && !self.extended_range {
            return Some(Bytes::one(0x80));
        }
        if let Some((lead, trail)) = fixed_pair(c) {
            return Some(Bytes::two(lead, trail));
        }
        if let Some(pointer) = self.index.first_pointer(c, 0, 23940) {
            return Some(pair_bytes(pointer));
        }
        if !self.extended_range {
            return None;
        }
        match self.ranges.pointer(c) {
            Some(pointer) => Some(four_bytes(pointer)),
            None => None,
        }
    }
}

impl<'a> StatelessRule for Gb18030Encoder<'a> {
    ghost need = { λ e. gb18030_need e.extended_range };

    ghost form = { λ e. gb18030_form e.index e.ranges e.extended_range };

    ghost limits = { λ e. gb18030_encoded_length e.extended_range };

    ghost laws = { λ e. gb18030_laws e.index e.ranges e.extended_range };

    ghost fits = { λ e. gb18030_fits e.index e.ranges e.extended_range };

    ghost ascii = { λ e. gb18030_ascii e.index e.ranges e.extended_range };

    #[inline(always)]
    fn form_of(&self, c: char) -> Form {
        form_of_bytes(c, self.bytes_of(c))
    }

    fn encoded_length(&self) -> EncodedLength {
        if self.extended_range {
            EncodedLength::gb18030()
        } else {
            EncodedLength::two_byte()
        }
    }
}

// The lead and the trail of the private-use characters that keep their bytes of the edition of 2005.
#[inline(always)]
fn fixed_pair(c: char) -> Option<(u8, u8)>
    ensures { result ≡ gb18030_fixed_pair c }
{
    match c {
        '\u{E78D}' => Some((0xA6, 0xD9)),
        '\u{E78E}' => Some((0xA6, 0xDA)),
        '\u{E78F}' => Some((0xA6, 0xDB)),
        '\u{E790}' => Some((0xA6, 0xDC)),
        '\u{E791}' => Some((0xA6, 0xDD)),
        '\u{E792}' => Some((0xA6, 0xDE)),
        '\u{E793}' => Some((0xA6, 0xDF)),
        '\u{E794}' => Some((0xA6, 0xEC)),
        '\u{E795}' => Some((0xA6, 0xED)),
        '\u{E796}' => Some((0xA6, 0xF3)),
        '\u{E81E}' => Some((0xFE, 0x59)),
        '\u{E826}' => Some((0xFE, 0x61)),
        '\u{E82B}' => Some((0xFE, 0x66)),
        '\u{E82C}' => Some((0xFE, 0x67)),
        '\u{E832}' => Some((0xFE, 0x6D)),
        '\u{E843}' => Some((0xFE, 0x7E)),
        '\u{E854}' => Some((0xFE, 0x90)),
        '\u{E864}' => Some((0xFE, 0xA0)),
        _ => None,
    }
}

// The lead and the trail of a pointer of the index: a lead has 190, and the trails leave out 7F.
#[inline(always)]
fn pair_bytes(pointer: u32) -> Bytes
    requires { pointer < 23940 }
    ensures { result ≡ gb18030_pair_bytes pointer }
{
    let rest = pointer % 190;
    let offset = if rest < 0x3F { 0x40 } else { 0x41 };
    Bytes::two((0x81 + pointer / 190) as u8, (offset + rest) as u8)
}

// The four bytes of a pointer of the ranges: ten digits, 126 leads, ten digits for a lead.
#[inline(always)]
fn four_bytes(pointer: u32) -> Bytes
    requires { pointer < 1237576 }
    ensures { result ≡ gb18030_four_bytes pointer }
{
    Bytes::four(
        (0x81 + pointer / 12600) as u8,
        (0x30 + pointer / 1260 % 10) as u8,
        (0x81 + pointer / 10 % 126) as u8,
        (0x30 + pointer % 10) as u8,
    )
}
