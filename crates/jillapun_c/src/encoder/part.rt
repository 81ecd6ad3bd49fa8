//! The part of a text in UTF-8 that a call of an encoder looks at.

ghost use Rattle.std.specs.Prelude.{◌≡◌, ◌+◌, ◌-◌, ◌^◌, ◌<◌, ◌≤◌, length, min, MatchOption};
ghost use Rattle.jillapun_c.specs.Coders.{encoder_in};
ghost use Rattle.jillapun_c.specs.TextParts.{BeginsMalformed, IsFirstPart, IsLookedAt, most_read};

use crate::encoder::handle::EncoderHandle;
use std::str;

/// The most bytes of a text that a call of the encoder reads into so much room, if no character
/// ends the call; 0 if the handle holds no encoder.
pub(crate) fn most_read(encoder: &EncoderHandle, room: usize) -> usize
    ensures { MatchOption (encoder_in encoder.now) (result ≡ 0)
        (λ e. result ≡ min (most_read e.encoding room) (2 ^ 64 - 1)) }
{
    match encoder.words.saved() {
        None => 0,
        Some(saved) if saved.encoding.can_encode_everything() => room,
        Some(_) => room.saturating_mul(4),
    }
}

// One place back, if no character begins at this one.
fn back_in_character(text: &[u8], at: usize) -> usize
    requires { (0 < at) × (at < length text.now) }
    ensures { (result ≤ at) × (at ≤ result + 1) }
{
    if text[at] & 0xC0 == 0x80 { at - 1 } else { at }
}

// How many bytes of a text a call looks at that reads at most so many. They end between characters,
// since the test of UTF-8 is slow on a character that is cut.
fn looked_at(text: &[u8], most: usize) -> usize
    ensures { IsLookedAt most text.now result }
{
    if text.len() <= most || text.len() - most <= 7 {
        return text.len();
    }
    let end = back_in_character(text, most + 7);
    let end = back_in_character(text, end);
    back_in_character(text, end)
}

/// The part of a text that a call encodes which reads at most so many bytes, and whether it is the
/// whole of the text; `None` if the text begins with a malformed sequence.
pub(crate) fn first_part(text: &[u8], most: usize) -> Option<(&str, bool)>
    ensures { MatchOption result (BeginsMalformed text.now)
        (λ p. IsFirstPart most text.now p.0.now p.1) }
{
    let len = encoding_mem::utf8_valid_up_to(&text[..looked_at(text, most)]);
    if len == 0 && !text.is_empty() {
        return None;
    }
    let part = unsafe { str::from_utf8_unchecked(&text[..len]) };
    Some((part, len == text.len()))
}
