//! What a call of a decoder or an encoder reports beside its status.

ghost use Rattle.std.specs.Prelude.{◌≡◌};
ghost use Rattle.jillapun_c.specs.DecoderCalls.{IsOutcome, text_outcome};

use crate::status::{INPUT_EMPTY, MALFORMED, OUTPUT_FULL};
use encoding_front::CoderResult;
use encoding_mem::DecoderResult;

/// What a call of a decoder did.
#[repr(C)]
#[derive(Clone, Copy)]
pub struct Progress {
    /// Bytes read.
    pub read: usize,
    /// Bytes of UTF-8, or UTF-16 code units, written.
    pub written: usize,
    /// `INPUT_EMPTY`, `OUTPUT_FULL` or `MALFORMED`.
    pub outcome: u8,
    /// At `MALFORMED`, the length of the malformed sequence in bytes, 1 to 4; else 0.
    pub malformed_length: u8,
    /// At `MALFORMED`, the number of bytes read after the sequence, 0 to 3; else 0.
    pub malformed_after: u8,
    /// Whether U+FFFD was written for a malformed sequence.
    pub had_errors: bool,
}

impl Progress {
    /// Nothing was done.
    pub(crate) const NONE: Progress = Progress {
        read: 0,
        written: 0,
        outcome: INPUT_EMPTY,
        malformed_length: 0,
        malformed_after: 0,
        had_errors: false,
    };
}

/// The number of an outcome.
pub(crate) fn outcome_of(outcome: CoderResult) -> u8
    ensures { result ≡ text_outcome outcome }
{
    match outcome {
        CoderResult::InputEmpty => INPUT_EMPTY,
        CoderResult::OutputFull => OUTPUT_FULL,
    }
}

/// The number of an outcome, and the lengths that it has.
pub(crate) fn part_outcome_of(outcome: DecoderResult) -> (u8, u8, u8)
    ensures { IsOutcome outcome result.0 result.1 result.2 }
{
    match outcome {
        DecoderResult::InputEmpty => (INPUT_EMPTY, 0, 0),
        DecoderResult::OutputFull => (OUTPUT_FULL, 0, 0),
        DecoderResult::Malformed(length, behind) => (MALFORMED, length, behind),
    }
}
