//! The decoder of a rule by which any bytes decide their first piece: nothing is ever pending.

ghost use Rattle.std.specs.Prelude.{◌≡◌, ◌<◌, ℕ, List, [], length};
ghost use Rattle.encoding_mem.specs.calls.Decoding.{IsFreshDecoder};
ghost use Rattle.encoding_mem.specs.calls.Driver.{buffered};
ghost use Rattle.encoding_mem.specs.calls.Resuming.{resumed_by, with_none_pending};
ghost use Rattle.encoding_mem.specs.Decided.{IsUndecided};

use crate::codec::decoder_result::DecoderResult;
use crate::codec::driver::decode_detached;
use crate::codec::first_piece::DecoderRule;
use crate::codec::pending::Pending;
use crate::codec::room::DecodedLength;
use crate::codec::saved_pieces::{SavedBytes, SavedPieces};
use crate::codec::sink::Sink;
use crate::codec::sink_decoder::SinkDecoder;

/// A rule by which any bytes decide their first piece, as when each byte is one: nothing is ever
/// pending.
pub trait DecidedPiece: DecoderRule {
    /// No bytes leave their first piece undecided.
    ghost decided: { (s : Self) (x : List ℕ) → 0 < length x → IsUndecided (Self.pieces s) x → ⊥ };
}

/// The decoder that such a rule makes, in which nothing is ever pending.
#[derive(Drop)]
pub struct Bytewise<F: DecidedPiece> {
    rule: F,
}

impl<F: DecidedPiece> Bytewise<F> {
    /// A decoder by this rule.
    pub fn new(rule: F) -> Self
        ensures fresh { IsFreshDecoder (⟦<Bytewise<F> as SinkDecoder>⟧.state result)
            (F.pieces rule) (F.limits rule) }
        ensures resumed { ⟦<Bytewise<F> as SinkDecoder>⟧.resumed result
            ≡ with_none_pending (resumed_by F.pieces F.needs F.limits F.in_mode rule) }
    {
        Bytewise { rule }
    }

    /// The rule as it is now, by which what follows is read.
    pub fn rule(&self) -> &F
        ensures { (⟦<Bytewise<F> as SinkDecoder>⟧.state self.now).pieces ≡ F.pieces result.now }
    {
        &self.rule
    }
}

impl<F: DecidedPiece> SinkDecoder for Bytewise<F> {
    ghost state = { λ d. buffered (F.pieces d.rule) (F.whole d.rule) (F.are_pieces d.rule)
        (F.needs d.rule) (F.limits d.rule) (F.covers d.rule) [] };

    ghost resumed = { λ d. with_none_pending
        (resumed_by F.pieces F.needs F.limits F.in_mode d.rule) };

    #[inline(always)]
    fn decode_into<S: Sink>(
        &mut self,
        src: &[u8],
        sink: &mut S,
        last: bool,
    ) -> (DecoderResult, usize) {
        decode_detached(&mut self.rule, &mut Pending::new(), src, sink, last)
    }

    fn held_len(&self) -> usize {
        0
    }

    fn room(&self) -> DecodedLength {
        self.rule.room()
    }

    fn saved(&self) -> SavedPieces {
        SavedPieces {
            mode: self.rule.mode(),
            pending: SavedBytes::new(&[]),
        }
    }

    fn resume(&mut self, saved: SavedPieces) {
        self.rule.enter_mode(saved.mode);
    }
}
