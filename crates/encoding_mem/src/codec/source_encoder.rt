//! An encoder of any source, and the two sources that a raw encoder is handed.

ghost use Rattle.std.specs.Prelude.{◌≡◌, ◌≢◌, ◌-◌, ◌≤◌, length, take};
ghost use Rattle.encoding_mem.specs.Coding.{IsCoding};
ghost use Rattle.encoding_mem.specs.calls.DecodedLength.{bound_at};
ghost use Rattle.encoding_mem.specs.calls.EncodedLength.{bound_for};
ghost use Rattle.encoding_mem.specs.calls.EncoderRule.{EncoderCall, EncoderParts, Moves};
ghost use Rattle.encoding_mem.specs.calls.EncoderRule.{WritesBytes, left};

use crate::codec::encode::{EncoderRule, encode};
use crate::codec::encoder_result::EncoderResult;
use crate::codec::form::EscapeState;
use crate::codec::raw_encoder::RawEncoder;
use crate::codec::room::EncodedLength;
use crate::codec::source::{Source, Utf8Source, Utf16Source};

/// An encoder that reads any source. Each is a `RawEncoder` too, whose calls on slices come by one
/// `impl`; the rule of use is that of `RawEncoder`.
pub trait SourceEncoder {
    /// What an encoder is to its callers.
    ghost parts: { Self → EncoderParts };

    /// Encodes what is left of a source up to the first character without bytes. Returns how the
    /// call ended, and how many bytes of `dst` were written. Nothing after them changes.
    fn encode_from<S: Source>(
        &mut self,
        source: &mut S,
        dst: &mut [u8],
        last: bool,
    ) -> (EncoderResult, usize)
        ensures source { S.all source.new ≡ S.all source.old }
        ensures wrote { WritesBytes dst.old dst.new result.1 }
        ensures call { EncoderCall (parts self.old) (parts self.new) last result.0
            (left S.text (S.all source.old) (S.offset source.old)) (take result.1 dst.new)
            (left S.text (S.all source.new) (S.offset source.new)) (length dst.new - result.1) }
        ensures enough { bound_at (bound_for (parts self.old).limits S.is_units)
            (length (S.all source.old) - S.offset source.old) ≤ length dst.old
            → result.0 ≢ EncoderResult.OutputFull };

    /// The numbers by which the length queries are computed.
    fn encoded_length(&self) -> EncodedLength
        ensures { result ≡ (parts self.now).limits };

    /// The set that is in force.
    fn current_set(&self) -> EscapeState
        ensures { result ≡ (parts self.now).set };

    /// Takes `next` as the set in force, if it is one that calls may leave (`EncoderRule::enter`).
    /// Nothing but the set in force changes.
    fn enter(&mut self, next: EscapeState)
        ensures same { parts self.new ≡ record (parts self.old) { set = (parts self.new).set } }
        ensures set { Moves (parts self.old).coding (parts self.old).set next
            → (parts self.new).set ≡ next };

    /// That no escape and no character has more bytes than `need` of its parts, and what else is
    /// true of every target.
    ghost laws: { (x : Self) → IsCoding (parts x).need (parts x).coding };
}

impl<R: EncoderRule> SourceEncoder for R {
    ghost parts = { R.parts };

    ghost laws = { R.laws };

    #[inline(always)]
    fn encode_from<S: Source>(
        &mut self,
        source: &mut S,
        dst: &mut [u8],
        last: bool,
    ) -> (EncoderResult, usize) {
        let mut set = EncoderRule::current_set(self);
        let (result, written) = encode(self, &mut set, source, dst, last);
        EncoderRule::enter(self, set);
        (result, written)
    }

    fn encoded_length(&self) -> EncodedLength {
        EncoderRule::encoded_length(self)
    }

    fn current_set(&self) -> EscapeState {
        EncoderRule::current_set(self)
    }

    fn enter(&mut self, next: EscapeState) {
        EncoderRule::enter(self, next);
    }
}

impl<E: SourceEncoder> RawEncoder for E {
    ghost parts = { E.parts };

    ghost laws = { E.laws };

    fn encode_from_utf8_raw(
        &mut self,
        src: &str,
        dst: &mut [u8],
        last: bool,
    ) -> (EncoderResult, usize, usize) {
        let mut source = Utf8Source::new(src);
        let (result, written) = self.encode_from(&mut source, dst, last);
        (result, source.read(), written)
    }

    fn encode_from_utf16_raw(
        &mut self,
        src: &[u16],
        dst: &mut [u8],
        last: bool,
    ) -> (EncoderResult, usize, usize) {
        let mut source = Utf16Source::new(src);
        let (result, written) = self.encode_from(&mut source, dst, last);
        (result, source.read(), written)
    }

    fn max_buffer_length_from_utf16_without_replacement(&self, n: usize) -> Option<usize> {
        self.encoded_length().units.at(n)
    }

    fn max_buffer_length_from_utf8_without_replacement(&self, n: usize) -> Option<usize> {
        self.encoded_length().bytes.at(n)
    }

    fn has_pending_state(&self) -> bool {
        !matches!(self.current_set(), EscapeState::Ascii)
    }
}
