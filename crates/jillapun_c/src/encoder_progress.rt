//! What a call of an encoder reports beside its status.

ghost use Rattle.std.specs.Prelude.{◌≡◌};
ghost use Rattle.jillapun_c.specs.EncoderCalls.{IsEncoderOutcome};
ghost use Rattle.jillapun_c.specs.TextParts.{told_outcome};

use crate::status::{INPUT_EMPTY, OUTPUT_FULL, UNMAPPABLE};
use encoding_mem::EncoderResult;

/// What a call of an encoder did.
#[repr(C)]
#[derive(Clone, Copy)]
pub struct EncoderProgress {
    /// Bytes of UTF-8, or UTF-16 code units, read.
    pub read: usize,
    /// Bytes written.
    pub written: usize,
    /// `INPUT_EMPTY`, `OUTPUT_FULL` or `UNMAPPABLE`.
    pub outcome: u8,
    /// Whether a numeric character reference was written for an unmappable character.
    pub had_unmappable: bool,
    /// At `UNMAPPABLE`, the code point of the character, or U+FFFD for U+000E, U+000F and U+001B in
    /// ISO-2022-JP; else 0.
    pub scalar: u32,
}

impl EncoderProgress {
    /// Nothing was done.
    pub(crate) const NONE: EncoderProgress = EncoderProgress {
        read: 0,
        written: 0,
        outcome: INPUT_EMPTY,
        had_unmappable: false,
        scalar: 0,
    };
}

/// The number of an outcome, and the character that it has.
pub(crate) fn encoder_outcome_of(outcome: EncoderResult) -> (u8, u32)
    ensures { IsEncoderOutcome outcome result.0 result.1 }
{
    match outcome {
        EncoderResult::InputEmpty => (INPUT_EMPTY, 0),
        EncoderResult::OutputFull => (OUTPUT_FULL, 0),
        EncoderResult::Unmappable(c) => (UNMAPPABLE, c as u32),
    }
}

/// The number of an outcome as it is reported of a whole text, or of a part of one: after a part
/// something is left to do.
pub(crate) fn told_outcome(is_whole: bool, outcome: u8) -> u8
    ensures { result ≡ told_outcome is_whole outcome }
{
    if !is_whole && outcome == INPUT_EMPTY {
        OUTPUT_FULL
    } else {
        outcome
    }
}
