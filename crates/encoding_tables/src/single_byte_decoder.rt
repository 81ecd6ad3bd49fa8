//! The decoder of the single-byte encodings (the Encoding Standard, section 9.1, "single-byte
//! decoder").

ghost use Rattle.std.proofs.Common.{refl, arith};
ghost use Rattle.std.specs.Prelude.{◌≡◌, ◌<◌, not, true};
ghost use Rattle.std.specs.List.{position};
ghost use Rattle.encoding_mem.specs.laws.Pieces.{pieces_by-nil, pieces_by-whole};
ghost use Rattle.encoding_mem.specs.laws.Pieces.{pieces_by-are_pieces};
ghost use Rattle.encoding_mem.specs.calls.Decoding.{IsFreshDecoder};
ghost use Rattle.encoding_mem.specs.calls.Resuming.{resumed_plain, with_none_pending};
ghost use Rattle.encoding_mem.specs.calls.DecodedLength.{decoded_length};
ghost use Rattle.encoding_mem.specs.calls.DecodedLength.{decoded_length_single_byte};
ghost use Rattle.encoding_mem.specs.laws.Shows.{decided_by};
ghost use Rattle.encoding_tables.specs.laws.EachByte.{first_piece_of_byte};
ghost use Rattle.encoding_tables.specs.IndexLists.{has, index_entries};
ghost use Rattle.encoding_tables.specs.Kinds.{is_single_byte_kind};
ghost use Rattle.encoding_tables.specs.Lookups.{AreEntries};
ghost use Rattle.encoding_tables.specs.SingleByte.{char_of_byte, has_number, pieces_single_byte};
ghost use Rattle.encoding_tables.specs.SingleByte.{IsLatin1UpTo};
ghost use Rattle.encoding_tables.specs.laws.SingleByte.{AreBasic, cuts_single_byte};
ghost use Rattle.encoding_tables.specs.laws.SingleByte.{first_piece_single_byte};

use crate::each_byte_decoder::EachByteDecoder;
use crate::flat::Flat;
use crate::index_kind::IndexKind;
use crate::tables::Tables;
use encoding_mem::RawDecoder;
use encoding_mem::ascii::longer_ascii_prefix;
use encoding_mem::bytewise::DecidedPiece;
use encoding_mem::first_piece::{DecoderRule, FirstPiece};
use encoding_mem::room::DecodedLength;
use encoding_mem::sink_decoder::SinkDecoder;

/// The rule by which `SingleByteDecoder` decodes: each byte is a piece.
#[derive(Drop)]
pub struct SingleByteRule<'a> {
    flat: Flat<'a>,
    ghost scalars: { AreEntries flat },
    ghost basic: { AreBasic flat },
}

impl<'a> SingleByteRule<'a> {
    // The character of a byte.
    #[inline(always)]
    fn char_of(&self, byte: u8) -> Option<char>
        ensures { result ≡ char_of_byte self.now.flat byte }
    {
        if byte < 0x80 {
            Some(byte as char)
        } else {
            self.flat.value(byte as u32 - 0x80)
        }
    }

    // Whether the character of a byte has the byte's number.
    fn is_latin1(&self, byte: u8) -> bool
        ensures { result ≡ has_number byte (char_of_byte self.now.flat byte) }
    {
        match self.char_of(byte) {
            Some(c) => c as u32 == byte as u32,
            None => false,
        }
    }

    // The offset of the first byte whose character has another number, or that has no character.
    fn first_other(&self, bytes: &[u8]) -> Option<usize>
        ensures { result ≡ position (λ b. not (has_number b (char_of_byte self.now.flat b))) bytes.now }
    {
        bytes.iter().position(|byte| !self.is_latin1(*byte))
    }

    // How many bytes at the start are characters with the bytes' numbers.
    fn latin1_len(&self, bytes: &[u8]) -> usize
        ensures { IsLatin1UpTo (pieces_single_byte self.now.flat) bytes.now result }
    {
        match self.first_other(bytes) {
            Some(offset) => offset,
            None => bytes.len(),
        }
    }
}

impl<'a> DecoderRule for SingleByteRule<'a> {
    ghost pieces = { λ s x. pieces_single_byte s.flat x };

    ghost whole = { λ s. pieces_by-whole (first_piece_single_byte s.flat) (cuts_single_byte s.flat s.scalars) };

    ghost are_pieces = { λ s. pieces_by-are_pieces (first_piece_single_byte s.flat) (cuts_single_byte s.flat s.scalars) };

    ghost ends = { λ s. pieces_by-nil (first_piece_single_byte s.flat) };

    ghost needs = { λ _. decoded_length decoded_length_single_byte };

    ghost limits = { λ _. decoded_length_single_byte };

    ghost covers = { λ _ _ _. omega arith };

    ghost after = { λ s _. s };

    ghost steady = { λ _ _. refl };

    ghost in_mode = { λ s _. s };

    ghost modes_stay = { λ _ _. refl };

    #[inline(always)]
    fn first_piece(&self, bytes: &[u8], _last: bool) -> FirstPiece {
        prefix_of(self.char_of(bytes[0]))
    }

    #[inline(always)]
    fn pass(&mut self, _bytes: &[u8]) {}

    #[inline(always)]
    fn text_at<'b>(&self, bytes: &'b [u8], most: usize) -> &'b str {
        longer_ascii_prefix(bytes, most)
    }

    fn room(&self) -> DecodedLength {
        DecodedLength::single_byte()
    }

    fn mode(&self) -> u8 {
        0
    }

    fn enter_mode(&mut self, _mode: u8) {}
}

impl<'a> DecidedPiece for SingleByteRule<'a> {
    ghost decided = { λ s. decided_by (first_piece_single_byte s.flat) (cuts_single_byte s.flat s.scalars) (λ _ _ _. refl) };
}

// The piece of a byte, by its character: a byte that has none is malformed.
#[inline(always)]
fn prefix_of(c: Option<char>) -> FirstPiece
    ensures { result ≡ first_piece_of_byte c }
{
    match c {
        Some(c) => FirstPiece::One(c, 1),
        None => FirstPiece::Malformed(1),
    }
}

/// The decoder of a single-byte encoding, by its index (the Encoding Standard, section 9.1): a byte
/// below 80 is the character of its number, another the entry at the pointer that is the byte less
/// 80; a byte without an entry is malformed. Nothing is ever pending.
pub type SingleByteDecoder<'a> = EachByteDecoder<SingleByteRule<'a>>;

impl<'a> EachByteDecoder<SingleByteRule<'a>> {
    /// A decoder of a new stream. The conditions are that the index is there, which `Tables::has`
    /// tests, and that it is that of a single-byte encoding, which `IndexKind::is_single_byte`
    /// tests.
    pub fn new(tables: &'a Tables, kind: IndexKind) -> Self
        requires there { has tables.now kind ≡ true }
        requires single { is_single_byte_kind kind ≡ true }
        ensures fresh { IsFreshDecoder (⟦<SingleByteDecoder<'a> as RawDecoder>⟧.state result)
            (pieces_single_byte (index_entries tables.now kind)) decoded_length_single_byte }
        ensures resumed { ⟦<SingleByteDecoder<'a> as SinkDecoder>⟧.resumed result
            ≡ with_none_pending (resumed_plain (pieces_single_byte (index_entries tables.now kind))
            decoded_length_single_byte) }
    {
        EachByteDecoder::of_rule(SingleByteRule {
            flat: tables.single_byte(kind),
        })
    }

    /// How many of `bytes` stand for the characters of their own numbers, as in Latin1: the next
    /// byte, if there is one, does not.
    pub fn latin1_byte_compatible_up_to(&self, bytes: &[u8]) -> usize
        ensures { IsLatin1UpTo (⟦<SingleByteDecoder<'a> as RawDecoder>⟧.state self.now).pieces bytes.now result }
    {
        self.rule().latin1_len(bytes)
    }
}
