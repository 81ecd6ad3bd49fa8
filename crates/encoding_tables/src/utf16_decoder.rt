//! The decoder of UTF-16, in both byte orders (the Encoding Standard, section 14.2.1, "shared
//! UTF-16 decoder").

ghost use Rattle.std.proofs.Common.{refl, arith};
ghost use Rattle.std.specs.Prelude.{◌≡◌, ◌+◌, ◌≤◌, Bool, IsTrue, false, length, true};
ghost use Rattle.std.specs.Char.Utf16.{is_high_surrogate, is_low_surrogate, surrogate_pair_char};
ghost use Rattle.encoding_mem.specs.laws.Pieces.{pieces_by-nil, pieces_by-whole};
ghost use Rattle.encoding_mem.specs.laws.Pieces.{pieces_by-are_pieces};
ghost use Rattle.encoding_mem.specs.calls.Decoding.{IsFreshDecoder};
ghost use Rattle.encoding_mem.specs.calls.Resuming.{resumed_plain};
ghost use Rattle.encoding_mem.specs.calls.DecodedLength.{decoded_length, decoded_length_utf16};
ghost use Rattle.encoding_tables.specs.Utf16.{AreUnitsOf, unit_of, first_piece_utf16, pieces_utf16};
ghost use Rattle.encoding_tables.specs.laws.Utf16Decide.{decide_utf16, decide_unit, decide_pair};
ghost use Rattle.encoding_tables.specs.laws.Utf16.{cuts_utf16};

use encoding_mem::first::units_below;
use encoding_mem::first_piece::{DecoderRule, FirstPiece, UNIT_RUN, cut_short};
use encoding_mem::room::DecodedLength;
use encoding_mem::saved_pieces::SavedPieces;
use encoding_mem::scalar::scalar_of;
use encoding_mem::sink::Sink;
use encoding_mem::sink_decoder::{Buffered, SinkDecoder};
use encoding_mem::{DecoderResult, RawDecoder};
use std::simd::prelude::*;

// Which of its two bytes is a unit's high one. It is a type, so that the loop of neither order asks
// for it with each unit.
trait ByteOrder {
    ghost big_endian: { Bool };

    /// The unit that two bytes are.
    fn unit_of(a: u8, b: u8) -> u16
        ensures { result ≡ unit_of big_endian a b };
}

#[derive(Clone, Copy)]
struct BigEndian {}

impl ByteOrder for BigEndian {
    ghost big_endian = { true };

    #[inline(always)]
    fn unit_of(a: u8, b: u8) -> u16 {
        u16::from_be_bytes([a, b])
    }
}

#[derive(Clone, Copy)]
struct LittleEndian {}

impl ByteOrder for LittleEndian {
    ghost big_endian = { false };

    #[inline(always)]
    fn unit_of(a: u8, b: u8) -> u16 {
        u16::from_le_bytes([a, b])
    }
}

// The rule of UTF-16 in a byte order: a unit is a character, or two surrogates are.
#[derive(Drop)]
struct Utf16Rule<E: ByteOrder> {
    order: E,
}

impl<E: ByteOrder> DecoderRule for Utf16Rule<E> {
    ghost pieces = { λ _ x. pieces_utf16 E.big_endian x };

    ghost whole = { λ _. pieces_by-whole (first_piece_utf16 E.big_endian) (cuts_utf16 E.big_endian) };

    ghost are_pieces = { λ _. pieces_by-are_pieces (first_piece_utf16 E.big_endian) (cuts_utf16 E.big_endian) };

    ghost ends = { λ _. pieces_by-nil (first_piece_utf16 E.big_endian) };

    ghost needs = { λ _. decoded_length decoded_length_utf16 };

    ghost limits = { λ _. decoded_length_utf16 };

    ghost covers = { λ _ _ _. omega arith };

    ghost after = { λ s _. s };

    ghost steady = { λ _ _. refl };

    ghost in_mode = { λ s _. s };

    ghost modes_stay = { λ _ _. refl };

    #[inline(always)]
    fn first_piece(&self, bytes: &[u8], last: bool) -> FirstPiece {
        decide::<E>(bytes, last)
    }

    #[inline(always)]
    fn pass(&mut self, _bytes: &[u8]) {}

    #[inline(always)]
    fn text_at<'b>(&self, _bytes: &'b [u8], _most: usize) -> &'b str {
        ""
    }

    // If a unit from D800 hex on comes first, no block of units is looked at.
    #[inline(always)]
    fn units_at(&self, bytes: &[u8]) -> ([u16; UNIT_RUN], usize) {
        if bytes.len() < 2 * UNIT_RUN || E::unit_of(bytes[0], bytes[1]) >= 0xD800 {
            return ([0; UNIT_RUN], 0);
        }
        let units = units_in::<E>(bytes);
        (units, units_below(u16x32::from_array(units), 0xD800))
    }

    fn room(&self) -> DecodedLength {
        DecodedLength::utf16()
    }

    fn mode(&self) -> u8 {
        0
    }

    fn enter_mode(&mut self, _mode: u8) {}
}

// The units that the first bytes are.
#[inline(always)]
fn units_in<E: ByteOrder>(bytes: &[u8]) -> [u16; UNIT_RUN]
    requires { 64 ≤ length bytes.now }
    ensures whole { length result ≡ 32 }
    ensures units { AreUnitsOf E.big_endian 32 result bytes.now }
{
    let mut units = [0; UNIT_RUN];
    let mut at = 0;
    'units: while at < UNIT_RUN {
        units[at] = E::unit_of(bytes[2 * at], bytes[2 * at + 1]);
        at += 1;
    }
    units
}

#[inline(always)]
fn decide<E: ByteOrder>(bytes: &[u8], last: bool) -> FirstPiece
    ensures { result ≡ decide_utf16 E.big_endian bytes.now last }
{
    match bytes {
        [] => FirstPiece::More,
        [_] => cut_short(1, last),
        [a, b, rest @ ..] => decide_unit::<E>(E::unit_of(*a, *b), rest, last),
    }
}

// By a unit, and the bytes after it.
#[inline(always)]
fn decide_unit<E: ByteOrder>(unit: u16, rest: &[u8], last: bool) -> FirstPiece
    ensures { result ≡ decide_unit E.big_endian unit rest.now last }
{
    if unit < 0xD800 || unit >= 0xE000 {
        FirstPiece::One(scalar_of(u32::from(unit)), 2)
    } else if is_high_surrogate(unit) {
        decide_pair::<E>(unit, rest, last)
    } else {
        FirstPiece::Malformed(2)
    }
}

// By a high surrogate, and the bytes after it.
#[inline(always)]
fn decide_pair<E: ByteOrder>(high: u16, rest: &[u8], last: bool) -> FirstPiece
    requires { IsTrue (is_high_surrogate high) }
    ensures { result ≡ decide_pair E.big_endian high rest.now last }
{
    match rest {
        [] => cut_short(2, last),
        [_] => cut_short(3, last),
        [a, b, ..] => {
            let low = E::unit_of(*a, *b);
            if is_low_surrogate(low) {
                FirstPiece::One(char_of_pair(high, low), 4)
            } else {
                FirstPiece::Malformed(2)
            }
        }
    }
}

#[inline(always)]
fn is_high_surrogate(unit: u16) -> bool
    ensures { result ≡ is_high_surrogate unit }
{
    unit >= 0xD800 && unit < 0xDC00
}

#[inline(always)]
fn is_low_surrogate(unit: u16) -> bool
    ensures { result ≡ is_low_surrogate unit }
{
    unit >= 0xDC00 && unit < 0xE000
}

#[inline(always)]
fn char_of_pair(high: u16, low: u16) -> char
    requires high { IsTrue (is_high_surrogate high) }
    requires low { IsTrue (is_low_surrogate low) }
    ensures { result ≡ surrogate_pair_char high low }
{
    scalar_of(0x10000 + (high as u32 - 0xD800) * 0x400 + (low as u32 - 0xDC00))
}

// A decoder of UTF-16 for each byte order.
#[derive(Drop)]
enum Ordered {
    Big(Buffered<Utf16Rule<BigEndian>>),
    Little(Buffered<Utf16Rule<LittleEndian>>),
}

impl SinkDecoder for Ordered {
    ghost use Rattle.encoding_tables.specs.declared.utf16_decoder.Ordered.TheVariants.{Big, Little};

    ghost state = { elim [
      | Big d ↦ ⟦<Buffered<Utf16Rule<BigEndian>> as SinkDecoder>⟧.state d
      | Little d ↦ ⟦<Buffered<Utf16Rule<LittleEndian>> as SinkDecoder>⟧.state d
    ] };

    ghost resumed = { elim [
      | Big d ↦ ⟦<Buffered<Utf16Rule<BigEndian>> as SinkDecoder>⟧.resumed d
      | Little d ↦ ⟦<Buffered<Utf16Rule<LittleEndian>> as SinkDecoder>⟧.resumed d
    ] };

    #[inline(always)]
    fn decode_into<S: Sink>(
        &mut self,
        src: &[u8],
        sink: &mut S,
        last: bool,
    ) -> (DecoderResult, usize) {
        match self {
            Ordered::Big(decoder) => decoder.decode_into(src, sink, last),
            Ordered::Little(decoder) => decoder.decode_into(src, sink, last),
        }
    }

    fn held_len(&self) -> usize {
        match self {
            Ordered::Big(decoder) => decoder.held_len(),
            Ordered::Little(decoder) => decoder.held_len(),
        }
    }

    fn room(&self) -> DecodedLength {
        match self {
            Ordered::Big(decoder) => decoder.room(),
            Ordered::Little(decoder) => decoder.room(),
        }
    }

    fn saved(&self) -> SavedPieces {
        match self {
            Ordered::Big(decoder) => decoder.saved(),
            Ordered::Little(decoder) => decoder.saved(),
        }
    }

    fn resume(&mut self, saved: SavedPieces) {
        match self {
            Ordered::Big(decoder) => decoder.resume(saved),
            Ordered::Little(decoder) => decoder.resume(saved),
        }
    }
}

/// The decoder of UTF-16BE and UTF-16LE (the Encoding Standard, section 14.2.1), which needs no
/// index. A surrogate in no pair is malformed, 2 bytes, and so are the bytes that the end of the
/// input cuts off: 1, or 3 if they follow a high surrogate. Up to 3 bytes are pending.
#[derive(Drop)]
pub struct Utf16Decoder {
    inner: Ordered,
}

impl Utf16Decoder {
    /// A decoder of a new stream of UTF-16BE if `big_endian` is true, and else of UTF-16LE.
    pub fn new(big_endian: bool) -> Self
        ensures fresh { IsFreshDecoder (⟦<Utf16Decoder as RawDecoder>⟧.state result)
            (pieces_utf16 big_endian) decoded_length_utf16 }
        ensures resumed { ⟦<Utf16Decoder as SinkDecoder>⟧.resumed result
            ≡ resumed_plain (pieces_utf16 big_endian) decoded_length_utf16 }
    {
        let inner = if big_endian {
            Ordered::Big(Buffered::new(Utf16Rule {
                order: BigEndian {},
            }))
        } else {
            Ordered::Little(Buffered::new(Utf16Rule {
                order: LittleEndian {},
            }))
        };
        Utf16Decoder { inner }
    }

    /// How many bytes a computation of room counts beside the new ones before it halves them: those
    /// that are pending, and one more to round up.
    pub fn additional_from_state(&self) -> usize
        ensures { result ≡ (⟦<Utf16Decoder as RawDecoder>⟧.state self.now).pending + 1 }
    {
        self.pending_len() + 1
    }
}

impl SinkDecoder for Utf16Decoder {
    ghost state = { λ d. ⟦<Ordered as SinkDecoder>⟧.state d.inner };

    ghost resumed = { λ d. ⟦<Ordered as SinkDecoder>⟧.resumed d.inner };

    #[inline(never)]
    fn decode_into<S: Sink>(
        &mut self,
        src: &[u8],
        sink: &mut S,
        last: bool,
    ) -> (DecoderResult, usize) {
        self.inner.decode_into(src, sink, last)
    }

    fn held_len(&self) -> usize {
        self.inner.held_len()
    }

    fn room(&self) -> DecodedLength {
        self.inner.room()
    }

    fn saved(&self) -> SavedPieces {
        self.inner.saved()
    }

    fn resume(&mut self, saved: SavedPieces) {
        self.inner.resume(saved)
    }
}
