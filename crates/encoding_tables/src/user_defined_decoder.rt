//! The decoder of x-user-defined (the Encoding Standard, section 14.5.1, "x-user-defined decoder").

ghost use Rattle.std.proofs.Common.{refl, arith};
ghost use Rattle.std.specs.Prelude.{◌≡◌, ◌<◌, Some};
ghost use Rattle.encoding_mem.specs.laws.Pieces.{pieces_by-nil, pieces_by-whole};
ghost use Rattle.encoding_mem.specs.laws.Pieces.{pieces_by-are_pieces};
ghost use Rattle.encoding_mem.specs.calls.Decoding.{IsFreshDecoder};
ghost use Rattle.encoding_mem.specs.calls.Resuming.{resumed_plain, with_none_pending};
ghost use Rattle.encoding_mem.specs.calls.DecodedLength.{decoded_length};
ghost use Rattle.encoding_mem.specs.calls.DecodedLength.{decoded_length_single_byte};
ghost use Rattle.encoding_mem.specs.laws.Shows.{decided_by};
ghost use Rattle.encoding_tables.specs.UserDefined.{user_char_of_byte, pieces_user_defined};
ghost use Rattle.encoding_tables.specs.laws.UserDefined.{cuts_user_defined};
ghost use Rattle.encoding_tables.specs.laws.UserDefined.{first_piece_user_defined};

use crate::each_byte_decoder::EachByteDecoder;
use encoding_mem::RawDecoder;
use encoding_mem::ascii::longer_ascii_prefix;
use encoding_mem::bytewise::DecidedPiece;
use encoding_mem::first_piece::{DecoderRule, FirstPiece};
use encoding_mem::room::DecodedLength;
use encoding_mem::sink_decoder::SinkDecoder;

/// The rule by which `UserDefinedDecoder` decodes: each byte is a character.
#[derive(Clone, Copy)]
pub struct UserDefinedRule {}

impl DecoderRule for UserDefinedRule {
    ghost pieces = { λ _ x. pieces_user_defined x };

    ghost whole = { λ _. pieces_by-whole first_piece_user_defined cuts_user_defined };

    ghost are_pieces = { λ _. pieces_by-are_pieces first_piece_user_defined cuts_user_defined };

    ghost ends = { λ _. pieces_by-nil first_piece_user_defined };

    ghost needs = { λ _. decoded_length decoded_length_single_byte };

    ghost limits = { λ _. decoded_length_single_byte };

    ghost covers = { λ _ _ _. omega arith };

    ghost after = { λ s _. s };

    ghost steady = { λ _ _. refl };

    ghost in_mode = { λ s _. s };

    ghost modes_stay = { λ _ _. refl };

    fn first_piece(&self, bytes: &[u8], _last: bool) -> FirstPiece {
        FirstPiece::One(char_of(bytes[0]), 1)
    }

    fn pass(&mut self, _bytes: &[u8]) {}

    fn text_at<'b>(&self, bytes: &'b [u8], most: usize) -> &'b str {
        longer_ascii_prefix(bytes, most)
    }

    fn room(&self) -> DecodedLength {
        DecodedLength::single_byte()
    }

    fn mode(&self) -> u8 {
        0
    }

    fn enter_mode(&mut self, _mode: u8) {}
}

impl DecidedPiece for UserDefinedRule {
    ghost decided = { λ _. decided_by first_piece_user_defined cuts_user_defined (λ _ _ _. refl) };
}

// The character of a byte.
fn char_of(byte: u8) -> char
    ensures value { user_char_of_byte byte ≡ Some result }
    ensures basic { result < 0x10000 }
{
    if byte < 0x80 {
        byte as char
    } else {
        char::from_u32(0xF780 + (byte as u32 - 0x80)).unwrap()
    }
}

/// The decoder of x-user-defined (the Encoding Standard, section 14.5.1), which needs no index: a
/// byte below 80 is the character of its number, and the bytes from 80 are U+F780 to U+F7FF. No
/// byte is malformed, and nothing is ever pending.
pub type UserDefinedDecoder = EachByteDecoder<UserDefinedRule>;

impl EachByteDecoder<UserDefinedRule> {
    /// A decoder of a new stream.
    pub fn new() -> Self
        ensures fresh { IsFreshDecoder (⟦<UserDefinedDecoder as RawDecoder>⟧.state result)
            pieces_user_defined decoded_length_single_byte }
        ensures resumed { ⟦<UserDefinedDecoder as SinkDecoder>⟧.resumed result
            ≡ with_none_pending (resumed_plain pieces_user_defined decoded_length_single_byte) }
    {
        EachByteDecoder::of_rule(UserDefinedRule {})
    }
}
