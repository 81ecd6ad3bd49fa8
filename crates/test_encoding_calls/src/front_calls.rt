//! Makes one call of a `Decoder`, of any kind, and keeps all that comes of it.

use crate::answer::{Answer, UNWRITTEN, UNWRITTEN_UNIT};
use crate::kinds::{Form, Outcome, widened};
use encoding_front::Decoder;
use encoding_mem::utf8_valid_up_to;
use std::alloc::{AllocError, Global};

/// Where the text of a call goes.
#[derive(Clone, Copy, PartialEq, Eq, Debug)]
pub enum Destination {
    Bytes,
    Units,
    /// Over the text of a `str`.
    Text,
    /// After the text of a `String`, into its spare capacity.
    Spare,
}

/// A kind of call: where the text goes, and whether U+FFFD is written for malformed sequences.
#[derive(Clone, Copy, PartialEq, Eq, Debug)]
pub struct Kind {
    pub destination: Destination,
    pub replaces: bool,
}

/// All that comes of a call, and whether the call reports a malformed sequence.
#[derive(Drop)]
pub struct KindAnswer {
    pub answer: Answer,
    pub had_errors: bool,
}

impl Kind {
    /// Returns the form of the text that the call writes.
    pub fn form(self) -> Form {
        match self.destination {
            Destination::Units => Form::Utf16,
            _ => Form::Utf8,
        }
    }

    /// Returns the room that a decoder asks for before a call of this kind. Returns `None` if the
    /// decoder is finished, or if the room does not fit a `usize`.
    pub fn room(self, decoder: &Decoder<'_>, n: usize) -> Option<usize> {
        if decoder.is_finished() {
            return None;
        }
        match self.destination {
            Destination::Units => decoder.max_utf16_buffer_length(n),
            _ if self.replaces => decoder.max_utf8_buffer_length(n),
            _ => decoder.max_utf8_buffer_length_without_replacement(n),
        }
    }

    /// Makes one call into `room` bytes or units. Returns `None` if the decoder is finished.
    pub fn call(
        self,
        alloc: Global,
        decoder: &mut Decoder<'_>,
        src: &[u8],
        room: usize,
        last: bool,
    ) -> Result<Option<KindAnswer>, AllocError> {
        match self.destination {
            Destination::Bytes => into_bytes(alloc, decoder, self.replaces, src, room, last),
            Destination::Units => into_units(alloc, decoder, self.replaces, src, room, last),
            Destination::Text => over_text(alloc, decoder, self.replaces, src, room, last),
            Destination::Spare => into_spare(alloc, decoder, self.replaces, src, room, last),
        }
    }
}

fn into_bytes(
    alloc: Global,
    decoder: &mut Decoder<'_>,
    replaces: bool,
    src: &[u8],
    room: usize,
    last: bool,
) -> Result<Option<KindAnswer>, AllocError> {
    let mut dst = std::vec![in alloc; UNWRITTEN; room]?;
    if decoder.is_finished() {
        return Ok(None);
    }
    let (outcome, read, written, had_errors) = if replaces {
        let (outcome, read, written, bad) = decoder.decode_to_utf8(src, &mut dst, last);
        (Outcome::of_coder(outcome), read, written, bad)
    } else {
        let (outcome, read, written) = decoder.decode_to_utf8_without_replacement(
            src, &mut dst, last,
        );
        (Outcome::of_decoder(outcome), read, written, false)
    };
    Ok(Some(KindAnswer {
        answer: Answer::of(alloc, outcome, read, (&dst, written), UNWRITTEN)?,
        had_errors,
    }))
}

fn into_units(
    alloc: Global,
    decoder: &mut Decoder<'_>,
    replaces: bool,
    src: &[u8],
    room: usize,
    last: bool,
) -> Result<Option<KindAnswer>, AllocError> {
    let mut dst = std::vec![in alloc; UNWRITTEN_UNIT; room]?;
    if decoder.is_finished() {
        return Ok(None);
    }
    let (outcome, read, written, had_errors) = if replaces {
        let (outcome, read, written, bad) = decoder.decode_to_utf16(src, &mut dst, last);
        (Outcome::of_coder(outcome), read, written, bad)
    } else {
        let (outcome, read, written) = decoder.decode_to_utf16_without_replacement(
            src, &mut dst, last,
        );
        (Outcome::of_decoder(outcome), read, written, false)
    };
    Ok(Some(KindAnswer {
        answer: Answer::of(alloc, outcome, read, (&dst, written), UNWRITTEN_UNIT)?,
        had_errors,
    }))
}

// Decodes over the bytes of a text. What stands after the output must still be text. It is not
// compared.
fn over_text(
    alloc: Global,
    decoder: &mut Decoder<'_>,
    replaces: bool,
    src: &[u8],
    room: usize,
    last: bool,
) -> Result<Option<KindAnswer>, AllocError> {
    let mut dst = std::vec![in alloc; 0; room]?;
    if decoder.is_finished() || utf8_valid_up_to(&dst) != dst.len() {
        return Ok(None);
    }
    let (outcome, read, written, had_errors) = if replaces {
        let (outcome, read, written, bad) = decoder.decode_to_str(src, &mut dst, last);
        (Outcome::of_coder(outcome), read, written, bad)
    } else {
        let (outcome, read, written) = decoder.decode_to_str_without_replacement(
            src, &mut dst, last,
        );
        (Outcome::of_decoder(outcome), read, written, false)
    };
    let output = dst.get(..written).unwrap_or(&[]);
    Ok(Some(KindAnswer {
        answer: Answer {
            outcome,
            read,
            output: widened(alloc, output)?,
            keeps_rest: utf8_valid_up_to(&dst) == dst.len(),
        },
        had_errors,
    }))
}

fn into_spare(
    alloc: Global,
    decoder: &mut Decoder<'_>,
    replaces: bool,
    src: &[u8],
    room: usize,
    last: bool,
) -> Result<Option<KindAnswer>, AllocError> {
    let mut text = String::with_capacity(alloc, room)?;
    if decoder.is_finished() {
        return Ok(None);
    }
    let (outcome, read, had_errors) = if replaces {
        let (outcome, read, bad) = decoder.decode_to_string(src, &mut text, last);
        (Outcome::of_coder(outcome), read, bad)
    } else {
        let (outcome, read) = decoder.decode_to_string_without_replacement(src, &mut text, last);
        (Outcome::of_decoder(outcome), read, false)
    };
    Ok(Some(KindAnswer {
        answer: Answer {
            outcome,
            read,
            output: widened(alloc, text.as_bytes())?,
            keeps_rest: text.capacity() == room,
        },
        had_errors,
    }))
}
