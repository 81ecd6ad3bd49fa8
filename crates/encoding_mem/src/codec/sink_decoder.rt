//! A decoder into any destination, and how a rule becomes one.

ghost use Rattle.std.specs.Prelude.{◌≡◌, ℕ, ◌<◌, ◌+◌, ◌-◌, List, length};
ghost use Rattle.encoding_mem.specs.calls.Decoding.{DecoderState, StateCall};
ghost use Rattle.encoding_mem.specs.calls.Decoding.{IsFreshDecoder, ReadsByRule, sink_room};
ghost use Rattle.encoding_mem.specs.calls.Driver.{IsNear, buffered};
ghost use Rattle.encoding_mem.specs.calls.Resuming.{HoldsFew, Reading, reading_of, resumed_by};
ghost use Rattle.encoding_mem.specs.calls.Resuming.{saved_pending};
ghost use Rattle.encoding_mem.specs.calls.DecodedLength.{queried};

use crate::codec::decoder_result::DecoderResult;
use crate::codec::driver::{decode_detached, finish_pending};
use crate::codec::first_piece::DecoderRule;
use crate::codec::pending::Pending;
use crate::codec::raw_decoder::RawDecoder;
use crate::codec::room::{DecodedLength, OutputUnit};
use crate::codec::saved_pieces::{SavedBytes, SavedPieces};
use crate::codec::sink::Sink;
use crate::codec::utf8_sink::Utf8Sink;
use crate::codec::utf16_sink::Utf16Sink;

/// A decoder that writes into any destination. Each is a `RawDecoder` too, whose calls into slices
/// come by one `impl`; the rule of use is that of `RawDecoder`.
pub trait SinkDecoder {
    /// What contracts say of a decoder: the pieces that the bytes to come will give, how many bytes
    /// are pending, and the room that is enough.
    ghost state: { Self → DecoderState };

    /// How the bytes to come are read after `resume`, by the number of the mode and the pending
    /// bytes that are taken. Calls leave it as it is: by it decoders of one encoding are known.
    ghost resumed: { Self → ℕ → List ℕ → Reading };

    /// Decodes bytes into a destination up to the first malformed sequence. Returns how the call
    /// ended, and how many bytes of `src` were read.
    fn decode_into<S: Sink>(
        &mut self,
        src: &[u8],
        sink: &mut S,
        last: bool,
    ) -> (DecoderResult, usize)
        ensures call { StateCall (state self.old) (state self.new) src.now last result.1
            (λ text. S.writes sink.old text sink.new)
            (sink_room S.is_units S.free sink.old sink.new) result.0 }
        ensures resumed { resumed self.new ≡ resumed self.old };

    /// How many bytes are pending: read, but in no piece that is decided.
    fn held_len(&self) -> usize
        ensures { result ≡ (state self.now).pending };

    /// The numbers by which the length queries are computed.
    fn room(&self) -> DecodedLength
        ensures { result ≡ (state self.now).room };

    /// What changes as a decoder goes on, to be resumed (`resume`) in one of the same encoding.
    fn saved(&self) -> SavedPieces
        ensures same { resumed self.now result.mode (saved_pending result)
            ≡ reading_of (state self.now) }
        ensures pending { length (saved_pending result) ≡ (state self.now).pending }
        ensures few { HoldsFew (reading_of (state self.now)) };

    /// Goes on from where a decoder was saved (`saved`): bytes to come are read as that decoder
    /// would have read them, if it is one of the same encoding. The condition holds of what it
    /// saved.
    fn resume(&mut self, saved: SavedPieces)
        requires { HoldsFew (resumed self.old saved.mode (saved_pending saved)) }
        ensures same { reading_of (state self.new)
            ≡ resumed self.old saved.mode (saved_pending saved) }
        ensures resumed { resumed self.new ≡ resumed self.old };
}

// The room that is enough for the text of what is pending and of `n` more bytes.
fn room_for<D: SinkDecoder>(decoder: &D, count: OutputUnit, n: usize) -> Option<usize>
    ensures { result ≡ queried (D.state decoder.now).room count ((D.state decoder.now).pending + n) }
{
    decoder.room().query(count, decoder.held_len(), n)
}

impl<D: SinkDecoder> RawDecoder for D {
    ghost state = { D.state };

    fn decode_to_utf8_raw(
        &mut self,
        src: &[u8],
        dst: &mut [u8],
        last: bool,
    ) -> (DecoderResult, usize, usize) {
        let mut sink = Utf8Sink::new(dst);
        let (outcome, read) = self.decode_into(src, &mut sink, last);
        let written = sink.written();
        (outcome, read, written)
    }

    fn decode_to_utf16_raw(
        &mut self,
        src: &[u8],
        dst: &mut [u16],
        last: bool,
    ) -> (DecoderResult, usize, usize) {
        let mut sink = Utf16Sink::new(dst);
        let (outcome, read) = self.decode_into(src, &mut sink, last);
        let written = sink.written();
        (outcome, read, written)
    }

    fn max_utf16_buffer_length(&self, n: usize) -> Option<usize> {
        room_for(self, OutputUnit::Units, n)
    }

    fn max_utf8_buffer_length_without_replacement(&self, n: usize) -> Option<usize> {
        room_for(self, OutputUnit::Bytes, n)
    }

    fn max_utf8_buffer_length(&self, n: usize) -> Option<usize> {
        room_for(self, OutputUnit::Replaced, n)
    }

    fn pending_len(&self) -> usize {
        self.held_len()
    }
}

/// The decoder that a rule makes: the rule, and up to 6 bytes that are pending. A codec of another
/// crate is a `Buffered` over its own `DecoderRule`.
#[derive(Drop)]
pub struct Buffered<F: DecoderRule> {
    rule: F,
    pending: Pending,
    ghost short: { length pending < 7 },
    ghost near: { IsNear (F.pieces rule) pending },
}

impl<F: DecoderRule> Buffered<F> {
    /// A decoder by this rule, with nothing pending.
    pub fn new(rule: F) -> Self
        ensures fresh { IsFreshDecoder (⟦<Buffered<F> as SinkDecoder>⟧.state result)
            (F.pieces rule) (F.limits rule) }
        ensures resumed { ⟦<Buffered<F> as SinkDecoder>⟧.resumed result
            ≡ resumed_by F.pieces F.needs F.limits F.in_mode rule }
    {
        Buffered {
            rule,
            pending: Pending::new(),
        }
    }

    /// The rule as it is now, by which what is pending and what follows are read.
    pub fn rule(&self) -> &F
        ensures { ReadsByRule (⟦<Buffered<F> as SinkDecoder>⟧.state self.now)
            (F.pieces result.now) }
    {
        &self.rule
    }
}

impl<F: DecoderRule> SinkDecoder for Buffered<F> {
    ghost state = { λ d. buffered (F.pieces d.rule) (F.whole d.rule) (F.are_pieces d.rule)
        (F.needs d.rule) (F.limits d.rule) (F.covers d.rule) d.pending };

    ghost resumed = { λ d. resumed_by F.pieces F.needs F.limits F.in_mode d.rule };

    #[inline(always)]
    fn decode_into<S: Sink>(
        &mut self,
        src: &[u8],
        sink: &mut S,
        last: bool,
    ) -> (DecoderResult, usize) {
        let (ended, read) = finish_pending(&mut self.rule, &mut self.pending, src, sink, last);
        if let Some(outcome) = ended {
            return (outcome, read);
        }
        let (outcome, more) = decode_detached(
            &mut self.rule,
            &mut self.pending,
            &src[read..],
            sink,
            last,
        );
        (outcome, read + more)
    }

    fn held_len(&self) -> usize {
        self.pending.len()
    }

    fn room(&self) -> DecodedLength {
        self.rule.room()
    }

    fn saved(&self) -> SavedPieces {
        SavedPieces {
            mode: self.rule.mode(),
            pending: SavedBytes::new(self.pending.as_slice()),
        }
    }

    fn resume(&mut self, saved: SavedPieces) {
        self.rule.enter_mode(saved.mode);
        self.pending.fill(saved.pending.as_slice());
    }
}
