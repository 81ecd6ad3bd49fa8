//! The one type of this crate's decoders, with the rule of each encoding inside.

ghost use Rattle.std.specs.Prelude.{◌≡◌};
ghost use Rattle.encoding_mem.specs.calls.Decoding.{IsFreshDecoder, ReadsByRule};
ghost use Rattle.encoding_mem.specs.calls.Resuming.{resumed_by};

use encoding_mem::DecoderResult;
use encoding_mem::first_piece::DecoderRule;
use encoding_mem::room::DecodedLength;
use encoding_mem::saved_pieces::SavedPieces;
use encoding_mem::sink::Sink;
use encoding_mem::sink_decoder::{Buffered, SinkDecoder};

/// The decoder of an encoding of this crate, by its rule `R`. `Big5Decoder` and its like are names
/// for it, each with its own `new`. It is a `RawDecoder`, whose rule of use it has.
#[derive(Drop)]
pub struct CodecDecoder<R: DecoderRule> {
    inner: Buffered<R>,
}

impl<R: DecoderRule> CodecDecoder<R> {
    // Nothing is pending.
    pub(crate) fn of_rule(rule: R) -> Self
        ensures fresh { IsFreshDecoder (⟦<CodecDecoder<R> as SinkDecoder>⟧.state result)
            (R.pieces rule) (R.limits rule) }
        ensures resumed { ⟦<CodecDecoder<R> as SinkDecoder>⟧.resumed result
            ≡ resumed_by R.pieces R.needs R.limits R.in_mode rule }
    {
        CodecDecoder {
            inner: Buffered::new(rule),
        }
    }

    // The rule, as it is now: by it are read what is pending and what follows.
    pub(crate) fn rule(&self) -> &R
        ensures { ReadsByRule (⟦<CodecDecoder<R> as SinkDecoder>⟧.state self.now)
            (R.pieces result.now) }
    {
        self.inner.rule()
    }
}

impl<R: DecoderRule> SinkDecoder for CodecDecoder<R> {
    ghost state = { λ d. ⟦<Buffered<R> as SinkDecoder>⟧.state d.inner };

    ghost resumed = { λ d. ⟦<Buffered<R> as SinkDecoder>⟧.resumed d.inner };

    // A function for each encoding: all loops in one would take registers from each other.
    #[inline(never)]
    fn decode_into<S: Sink>(
        &mut self,
        src: &[u8],
        sink: &mut S,
        last: bool,
    ) -> (DecoderResult, usize) {
        self.inner.decode_into(src, sink, last)
    }

    fn held_len(&self) -> usize {
        self.inner.held_len()
    }

    fn room(&self) -> DecodedLength {
        self.inner.room()
    }

    fn saved(&self) -> SavedPieces {
        self.inner.saved()
    }

    fn resume(&mut self, saved: SavedPieces) {
        self.inner.resume(saved)
    }
}
