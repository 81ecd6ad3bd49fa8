//! The one type of decoders of encodings each of whose bytes is a piece, with the rule inside.

ghost use Rattle.std.specs.Prelude.{◌≡◌};
ghost use Rattle.encoding_mem.specs.calls.Decoding.{IsFreshDecoder};
ghost use Rattle.encoding_mem.specs.calls.Resuming.{resumed_by, with_none_pending};

use encoding_mem::DecoderResult;
use encoding_mem::bytewise::{Bytewise, DecidedPiece};
use encoding_mem::room::DecodedLength;
use encoding_mem::saved_pieces::SavedPieces;
use encoding_mem::sink::Sink;
use encoding_mem::sink_decoder::SinkDecoder;

/// The decoder of an encoding each of whose bytes is a piece, by its rule `R`. `SingleByteDecoder`,
/// `UserDefinedDecoder` and `ReplacementDecoder` are names for it, each with its own `new`. It is a
/// `RawDecoder`.
#[derive(Drop)]
pub struct EachByteDecoder<R: DecidedPiece> {
    inner: Bytewise<R>,
}

impl<R: DecidedPiece> EachByteDecoder<R> {
    pub(crate) fn of_rule(rule: R) -> Self
        ensures fresh { IsFreshDecoder (⟦<EachByteDecoder<R> as SinkDecoder>⟧.state result)
            (R.pieces rule) (R.limits rule) }
        ensures resumed { ⟦<EachByteDecoder<R> as SinkDecoder>⟧.resumed result
            ≡ with_none_pending (resumed_by R.pieces R.needs R.limits R.in_mode rule) }
    {
        EachByteDecoder {
            inner: Bytewise::new(rule),
        }
    }

    // The rule, as it is now: by it is read what follows.
    pub(crate) fn rule(&self) -> &R
        ensures { (⟦<EachByteDecoder<R> as SinkDecoder>⟧.state self.now).pieces
            ≡ R.pieces result.now }
    {
        self.inner.rule()
    }
}

impl<R: DecidedPiece> SinkDecoder for EachByteDecoder<R> {
    ghost state = { λ d. ⟦<Bytewise<R> as SinkDecoder>⟧.state d.inner };

    ghost resumed = { λ d. ⟦<Bytewise<R> as SinkDecoder>⟧.resumed d.inner };

    #[inline(never)]
    fn decode_into<S: Sink>(
        &mut self,
        src: &[u8],
        sink: &mut S,
        last: bool,
    ) -> (DecoderResult, usize) {
        self.inner.decode_into(src, sink, last)
    }

    fn held_len(&self) -> usize {
        self.inner.held_len()
    }

    fn room(&self) -> DecodedLength {
        self.inner.room()
    }

    fn saved(&self) -> SavedPieces {
        self.inner.saved()
    }

    fn resume(&mut self, saved: SavedPieces) {
        self.inner.resume(saved)
    }
}
