//! Rules in which ASCII gives itself and another first byte is a character, a lead, or nothing:
//! what all encodings of more than one byte a character share, except ISO-2022-JP.

ghost use Rattle.std.proofs.Common.{refl, arith};
ghost use Rattle.std.specs.Prelude.{◌≡◌, ◌↔◌, ◌≤◌, IsTrue};
ghost use Rattle.encoding_mem.specs.Pieces.{pieces_by};
ghost use Rattle.encoding_mem.specs.laws.Pieces.{pieces_by-nil, pieces_by-whole};
ghost use Rattle.encoding_mem.specs.laws.Pieces.{pieces_by-are_pieces};
ghost use Rattle.encoding_mem.specs.calls.DecodedLength.{decoded_length, decoded_length_multibyte};
ghost use Rattle.encoding_codecs.specs.TwoByte.{first_piece_by_lead};
ghost use Rattle.encoding_codecs.specs.laws.TwoByte.{IsLeadByteRule, cuts_rule};
ghost use Rattle.encoding_codecs.specs.laws.TwoByteDecide.{LeadRule};

use crate::codec_decoder::CodecDecoder;
use encoding_mem::ascii::longer_ascii_prefix;
use encoding_mem::first_piece::{DecoderRule, FirstPiece};
use encoding_mem::room::DecodedLength;
use encoding_mem::sink_decoder::SinkDecoder;

/// What a first byte from 80 hex on is, in an encoding whose characters begin with a lead.
#[derive(Clone, Copy)]
pub enum FirstByte {
    /// A character of one byte.
    Alone(char),
    /// A lead: more bytes belong to it.
    Lead,
    /// Nothing begins with it: it is malformed.
    Unused,
}

/// What an encoding makes of first bytes from 80 hex on, and of the bytes after a lead; ASCII is
/// itself. `LeadByteDecoderRule` makes a decoding rule of it.
pub trait LeadByteRule {
    /// What first bytes are, the piece of a lead and all that follows it, and what of it is decided
    /// by the bytes that are there.
    ghost rule: { Self → LeadRule };

    /// That these three agree, and that each piece is one that a decoder may take.
    ghost laws: { (s : Self) → IsLeadByteRule (rule s).first (rule s).after (rule s).decide };

    /// What a first byte is. The condition is that it is 80 hex or more.
    fn first(&self, byte: u8) -> FirstByte
        requires { 0x80 ≤ byte }
        ensures { result ≡ (rule self.now).first byte };

    /// The piece of a lead and of the bytes after it, or `More` if what follows decides it; `last`
    /// says that nothing follows. The condition is that `first` returns `Lead` for the lead.
    fn after_lead(&self, lead: u8, rest: &[u8], last: bool) -> FirstPiece
        requires { (rule self.now).first lead ≡ FirstByte.Lead }
        ensures { result ≡ (rule self.now).decide lead rest.now last };
}

/// The decoding rule of an encoding whose characters begin with a lead.
#[derive(Drop)]
pub struct LeadByteDecoderRule<T: LeadByteRule> {
    encoding: T,
}

impl<T: LeadByteRule> LeadByteDecoderRule<T> {
    pub(crate) fn new(encoding: T) -> Self
        ensures { result.encoding ≡ encoding }
    {
        LeadByteDecoderRule { encoding }
    }
}

impl<T: LeadByteRule> DecoderRule for LeadByteDecoderRule<T> {
    ghost pieces = { λ s. pieces_by (first_piece_by_lead (T.rule s.encoding).first (T.rule s.encoding).after) };

    ghost whole = { λ s. pieces_by-whole (first_piece_by_lead (T.rule s.encoding).first (T.rule s.encoding).after)
        (cuts_rule (T.rule s.encoding).first (T.rule s.encoding).after (T.rule s.encoding).decide (T.laws s.encoding)) };

    ghost are_pieces = { λ s. pieces_by-are_pieces (first_piece_by_lead (T.rule s.encoding).first (T.rule s.encoding).after)
        (cuts_rule (T.rule s.encoding).first (T.rule s.encoding).after (T.rule s.encoding).decide (T.laws s.encoding)) };

    ghost ends = { λ s. pieces_by-nil (first_piece_by_lead (T.rule s.encoding).first (T.rule s.encoding).after) };

    ghost needs = { λ _. decoded_length decoded_length_multibyte };

    ghost limits = { λ _. decoded_length_multibyte };

    ghost covers = { λ _ _ _. omega arith };

    ghost after = { λ s _. s };

    ghost steady = { λ _ _. refl };

    ghost in_mode = { λ s _. s };

    ghost modes_stay = { λ _ _. refl };

    #[inline(always)]
    fn first_piece(&self, bytes: &[u8], last: bool) -> FirstPiece {
        match bytes {
            [] => FirstPiece::More,
            [byte, ..] if *byte < 0x80 => FirstPiece::One(*byte as char, 1),
            [byte, rest @ ..] => match self.encoding.first(*byte) {
                FirstByte::Alone(c) => FirstPiece::One(c, 1),
                FirstByte::Lead => self.encoding.after_lead(*byte, rest, last),
                FirstByte::Unused => FirstPiece::Malformed(1),
            },
        }
    }

    #[inline(always)]
    fn pass(&mut self, _bytes: &[u8]) {}

    #[inline(always)]
    fn text_at<'b>(&self, bytes: &'b [u8], most: usize) -> &'b str {
        longer_ascii_prefix(bytes, most)
    }

    #[inline(always)]
    fn seeks_pairs(&self, first: u8) -> bool {
        first >= 0x80
    }

    fn room(&self) -> DecodedLength {
        DecodedLength::multibyte()
    }

    fn mode(&self) -> u8 {
        0
    }

    fn enter_mode(&mut self, _mode: u8) {}
}

impl<T: LeadByteRule> CodecDecoder<LeadByteDecoderRule<T>> {
    /// Whether nothing is pending, so that what follows is read as at the start of an input.
    pub fn in_neutral_state(&self) -> bool
        ensures { IsTrue result
            ↔ ((⟦<CodecDecoder<LeadByteDecoderRule<T>> as SinkDecoder>⟧.state self.now).pending ≡ 0) }
    {
        self.held_len() == 0
    }
}
