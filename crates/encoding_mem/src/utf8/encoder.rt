//! The encoder of UTF-8.

ghost use Rattle.encoding_mem.specs.calls.EncoderRule.{IsFreshEncoder};
ghost use Rattle.encoding_mem.specs.calls.EncodedLength.{encoded_length_utf8};
ghost use Rattle.encoding_mem.specs.laws.EncodedLength.{utf8_room};
ghost use Rattle.encoding_mem.specs.Utf8Coding.{utf8_coding};
ghost use Rattle.encoding_mem.specs.laws.Utf8Coding.{utf8_coding_laws};
ghost use Rattle.encoding_mem.specs.declared.codec.form.EscapeState.TheVariants.{Ascii};

use crate::codec::encode::EncoderRule;
use crate::codec::form::{Bytes, EscapeState, Form};
use crate::codec::room::EncodedLength;
use crate::codec::source_encoder::SourceEncoder;

/// The encoder of UTF-8 (the Encoding Standard, section 8.1.2; RFC 3629). It never returns
/// `Unmappable`, and has no state: a call reads the longest prefix of whole characters whose bytes
/// fit.
#[derive(Drop)]
pub struct Utf8Encoder {}

impl Utf8Encoder {
    /// An encoder of a new stream.
    pub fn new() -> Self
        ensures { IsFreshEncoder (⟦<Utf8Encoder as SourceEncoder>⟧.parts result) 4
            utf8_coding encoded_length_utf8 }
    {
        Utf8Encoder {}
    }
}

impl EncoderRule for Utf8Encoder {
    ghost parts = { λ _. record {
      need = 4;
      coding = utf8_coding;
      set = Ascii;
      limits = encoded_length_utf8;
    } };

    ghost laws = { λ _. utf8_coding_laws };

    ghost fits = { λ _. utf8_room };

    fn step(&self, _from: EscapeState, c: char) -> (EscapeState, Form) {
        (EscapeState::Ascii, Form::Mapped(Bytes::utf8(c)))
    }

    fn escape(&self, _from: EscapeState, _to: EscapeState) -> Bytes {
        Bytes::none()
    }

    fn copies_ascii(&self, from: EscapeState) -> bool {
        matches!(from, EscapeState::Ascii)
    }

    fn copies_utf8(&self, from: EscapeState) -> bool {
        matches!(from, EscapeState::Ascii)
    }

    fn current_set(&self) -> EscapeState {
        EscapeState::Ascii
    }

    fn enter(&mut self, _next: EscapeState) {}

    fn encoded_length(&self) -> EncodedLength {
        EncodedLength::utf8()
    }
}
