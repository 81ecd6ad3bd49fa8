//! The decoder of the replacement encoding (the Encoding Standard, section 14.1.1, "replacement
//! decoder").

ghost use Rattle.std.proofs.Common.{refl};
ghost use Rattle.std.specs.Prelude.{◌≡◌};
ghost use Rattle.encoding_mem.specs.laws.Pieces.{pieces_in-nil, pieces_in-whole};
ghost use Rattle.encoding_mem.specs.laws.Pieces.{pieces_in-are_pieces};
ghost use Rattle.encoding_mem.specs.calls.Decoding.{IsFreshDecoder};
ghost use Rattle.encoding_tables.specs.calls.ReplacementModes.{is_error_returned};
ghost use Rattle.encoding_tables.specs.calls.ReplacementModes.{resumed_replacement};
ghost use Rattle.encoding_mem.specs.calls.DecodedLength.{decoded_length_replacement};
ghost use Rattle.encoding_mem.specs.laws.Shows.{decided_in};
ghost use Rattle.encoding_tables.specs.Replacement.{pieces_replacement};
ghost use Rattle.encoding_tables.specs.laws.Replacement.{first_piece_replacement};
ghost use Rattle.encoding_tables.specs.laws.Replacement.{after_replacement, replacement_left};
ghost use Rattle.encoding_tables.specs.laws.Replacement.{cuts_replacement, replacement_needs};
ghost use Rattle.encoding_tables.specs.laws.Replacement.{replacement_covers, decided_by_one};

use crate::each_byte_decoder::EachByteDecoder;
use encoding_mem::RawDecoder;
use encoding_mem::bytewise::DecidedPiece;
use encoding_mem::first_piece::{DecoderRule, FirstPiece};
use encoding_mem::room::DecodedLength;
use encoding_mem::sink_decoder::SinkDecoder;

/// The rule by which `ReplacementDecoder` decodes: one error, and no text.
#[derive(Clone, Copy)]
pub struct ReplacementRule {
    error_returned: bool,
}

impl DecoderRule for ReplacementRule {
    ghost pieces = { λ s x. replacement_left s.error_returned x };

    ghost whole = { λ s. pieces_in-whole first_piece_replacement after_replacement cuts_replacement s.error_returned };

    ghost are_pieces = { λ s. pieces_in-are_pieces first_piece_replacement after_replacement cuts_replacement s.error_returned };

    ghost ends = { λ s. pieces_in-nil first_piece_replacement after_replacement s.error_returned };

    ghost needs = { λ s. replacement_needs s.error_returned };

    ghost limits = { λ _. decoded_length_replacement };

    ghost covers = { λ s. replacement_covers s.error_returned };

    ghost after = { λ s x. record s { error_returned = after_replacement s.error_returned x } };

    ghost steady = { λ _ _. refl };

    ghost in_mode = { λ s mode. record s { error_returned = is_error_returned mode } };

    ghost modes_stay = { λ _ _. refl };

    fn first_piece(&self, _bytes: &[u8], _last: bool) -> FirstPiece {
        if self.error_returned {
            FirstPiece::Ignored(1)
        } else {
            FirstPiece::Malformed(1)
        }
    }

    fn pass(&mut self, _bytes: &[u8]) {
        self.error_returned = true;
    }

    fn text_at<'b>(&self, _bytes: &'b [u8], _most: usize) -> &'b str {
        ""
    }

    fn room(&self) -> DecodedLength {
        DecodedLength::replacement()
    }

    fn mode(&self) -> u8 {
        if self.error_returned { 1 } else { 0 }
    }

    fn enter_mode(&mut self, mode: u8) {
        self.error_returned = mode == 1;
    }
}

impl DecidedPiece for ReplacementRule {
    ghost decided = { λ s. decided_in first_piece_replacement after_replacement cuts_replacement decided_by_one s.error_returned };
}

/// The decoder of replacement (the Encoding Standard, section 14.1.1), which stands for encodings
/// that must not be decoded: the first byte is malformed, and all later bytes give nothing. Nothing
/// is ever pending.
pub type ReplacementDecoder = EachByteDecoder<ReplacementRule>;

impl EachByteDecoder<ReplacementRule> {
    /// A decoder of a new stream.
    pub fn new() -> Self
        ensures fresh { IsFreshDecoder (⟦<ReplacementDecoder as RawDecoder>⟧.state result)
            pieces_replacement decoded_length_replacement }
        ensures resumed { ⟦<ReplacementDecoder as SinkDecoder>⟧.resumed result
            ≡ resumed_replacement }
    {
        EachByteDecoder::of_rule(ReplacementRule {
            error_returned: false,
        })
    }
}
