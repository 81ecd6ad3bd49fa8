//! Makes one call of a decoder or an encoder, and keeps all that comes of it.

use crate::kinds::{Form, Outcome, widened};
use encoding_codecs::Iso2022JpDecoder;
use encoding_codecs::codec_decoder::CodecDecoder;
use encoding_codecs::lead_byte_rule::{LeadByteDecoderRule, LeadByteRule};
use encoding_front::VariantDecoder;
use encoding_mem::bytewise::DecidedPiece;
use encoding_mem::{RawDecoder, RawEncoder, Utf8Decoder};
use encoding_tables::Utf16Decoder;
use encoding_tables::each_byte_decoder::EachByteDecoder;
use std::alloc::{AllocError, Global};

/// The byte that fills a room before a call. It must still stand after the output.
pub const UNWRITTEN: u8 = 0xEE;

// The unit that fills a room before a call. It must still stand after the output.
pub(crate) const UNWRITTEN_UNIT: u16 = 0xEEEE;

/// All that comes of a call.
#[derive(Drop)]
pub struct Answer {
    /// How the call ended.
    pub outcome: Outcome,
    /// How many bytes or units it read.
    pub read: usize,
    /// The bytes or units that it wrote.
    pub output: Vec<u32>,
    /// Whether the rest of the room, after the output, is as it was before the call.
    pub keeps_rest: bool,
}

impl Answer {
    /// Returns the answer of a call into a room that was filled with `unwritten`. The call wrote so
    /// many elements to the front of it.
    pub fn of<T: Copy + PartialEq>(
        alloc: Global,
        outcome: Outcome,
        read: usize,
        (room, written): (&[T], usize),
        unwritten: T,
    ) -> Result<Answer, AllocError>
    where
        u32: From<T>,
    {
        let mut keeps_rest = true;
        for element in room.get(written..).unwrap_or(&[]) {
            keeps_rest = keeps_rest && *element == unwritten;
        }
        Ok(Answer {
            outcome,
            read,
            output: widened(alloc, room.get(..written).unwrap_or(&[]))?,
            keeps_rest,
        })
    }
}

/// A decoder that may report whether it is in the state in which a stream begins.
pub trait Neutral: RawDecoder {
    /// Returns whether it is in that state, or `None` if this decoder does not report it.
    fn is_neutral(&self) -> Option<bool>;

    /// Returns whether that agrees with the number of bytes that are pending.
    fn is_at_one(&self) -> bool;
}

impl<T: LeadByteRule> Neutral for CodecDecoder<LeadByteDecoderRule<T>> {
    fn is_neutral(&self) -> Option<bool> {
        Some(self.in_neutral_state())
    }

    fn is_at_one(&self) -> bool {
        self.in_neutral_state() == (self.pending_len() == 0)
    }
}

impl<'t> Neutral for Iso2022JpDecoder<'t> {
    fn is_neutral(&self) -> Option<bool> {
        Some(self.in_neutral_state())
    }

    fn is_at_one(&self) -> bool {
        !self.in_neutral_state() || self.pending_len() == 0
    }
}

impl Neutral for Utf8Decoder {
    fn is_neutral(&self) -> Option<bool> {
        Some(self.in_neutral_state())
    }

    fn is_at_one(&self) -> bool {
        self.in_neutral_state() == (self.pending_len() == 0)
    }
}

impl Neutral for Utf16Decoder {
    fn is_neutral(&self) -> Option<bool> {
        None
    }

    fn is_at_one(&self) -> bool {
        true
    }
}

impl<R: DecidedPiece> Neutral for EachByteDecoder<R> {
    fn is_neutral(&self) -> Option<bool> {
        None
    }

    fn is_at_one(&self) -> bool {
        self.pending_len() == 0
    }
}

impl<'t> Neutral for VariantDecoder<'t> {
    fn is_neutral(&self) -> Option<bool> {
        None
    }

    fn is_at_one(&self) -> bool {
        true
    }
}

/// Makes one call of a decoder into `room` bytes or units.
pub fn decode<D: RawDecoder>(
    alloc: Global,
    decoder: &mut D,
    form: Form,
    src: &[u8],
    room: usize,
    last: bool,
) -> Result<Answer, AllocError> {
    match form {
        Form::Utf8 => {
            let mut dst = std::vec![in alloc; UNWRITTEN; room]?;
            let (outcome, read, written) = decoder.decode_to_utf8_raw(src, &mut dst, last);
            let outcome = Outcome::of_decoder(outcome);
            Answer::of(alloc, outcome, read, (&dst, written), UNWRITTEN)
        }
        Form::Utf16 => {
            let mut dst = std::vec![in alloc; UNWRITTEN_UNIT; room]?;
            let (outcome, read, written) = decoder.decode_to_utf16_raw(src, &mut dst, last);
            let outcome = Outcome::of_decoder(outcome);
            Answer::of(alloc, outcome, read, (&dst, written), UNWRITTEN_UNIT)
        }
    }
}

/// Returns the room that a decoder asks for: without replacement, and with U+FFFD for each
/// malformed sequence.
pub fn decoded_room<D: RawDecoder>(
    decoder: &D,
    form: Form,
    n: usize,
) -> (Option<usize>, Option<usize>) {
    match form {
        Form::Utf8 => (
            decoder.max_utf8_buffer_length_without_replacement(n),
            decoder.max_utf8_buffer_length(n),
        ),
        Form::Utf16 => {
            let room = decoder.max_utf16_buffer_length(n);
            (room, room)
        }
    }
}

/// A text that is handed to an encoder.
#[derive(Clone, Copy)]
pub enum Text<'a> {
    Utf8(&'a str),
    Utf16(&'a [u16]),
}

impl<'a> Text<'a> {
    /// Returns how many bytes or units it has.
    pub fn len(self) -> usize {
        match self {
            Text::Utf8(text) => text.len(),
            Text::Utf16(units) => units.len(),
        }
    }

    /// Returns the text after its first `read` bytes or units. Returns `None` if the text cannot be
    /// split there.
    pub fn behind(self, read: usize) -> Option<Text<'a>> {
        match self {
            Text::Utf8(text) => Some(Text::Utf8(text.split_at_checked(read)?.1)),
            Text::Utf16(units) => Some(Text::Utf16(units.split_at_checked(read)?.1)),
        }
    }

    /// Returns the text before this place, in bytes or units. Returns `None` if the text cannot be
    /// split there.
    pub fn before(self, cut: usize) -> Option<Text<'a>> {
        match self {
            Text::Utf8(text) => Some(Text::Utf8(text.split_at_checked(cut)?.0)),
            Text::Utf16(units) => Some(Text::Utf16(units.split_at_checked(cut)?.0)),
        }
    }
}

/// Makes one call of an encoder into `room` bytes.
pub fn encode<E: RawEncoder>(
    alloc: Global,
    encoder: &mut E,
    text: Text<'_>,
    room: usize,
    last: bool,
) -> Result<Answer, AllocError> {
    let mut dst = std::vec![in alloc; UNWRITTEN; room]?;
    let (outcome, read, written) = match text {
        Text::Utf8(text) => encoder.encode_from_utf8_raw(text, &mut dst, last),
        Text::Utf16(units) => encoder.encode_from_utf16_raw(units, &mut dst, last),
    };
    let outcome = Outcome::of_encoder(outcome);
    Answer::of(alloc, outcome, read, (&dst, written), UNWRITTEN)
}

/// Returns the room that an encoder asks for, without references, for `n` bytes or units.
pub fn encoded_room<E: RawEncoder>(encoder: &E, form: Form, n: usize) -> Option<usize> {
    match form {
        Form::Utf8 => encoder.max_buffer_length_from_utf8_without_replacement(n),
        Form::Utf16 => encoder.max_buffer_length_from_utf16_without_replacement(n),
    }
}
