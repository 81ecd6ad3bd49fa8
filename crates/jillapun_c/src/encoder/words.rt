//! An encoder as plain words.

ghost use Rattle.std.specs.Prelude.{◌≡◌, None, Some};
ghost use Rattle.jillapun_c.specs.EncoderWords.{saved_encoder_in, set_at};

use crate::encoding_number::{encoding_of, number_of};
use encoding_front::SavedEncoder;
use encoding_mem::form::EscapeState;

/// Private state of an encoder.
#[repr(C)]
#[derive(Clone, Copy)]
pub struct EncoderWords {
    pub is_there: bool,
    pub encoding: u8,
    pub set: u8,
}

impl EncoderWords {
    /// There is no encoder.
    pub(crate) fn none() -> EncoderWords
        ensures { saved_encoder_in result ≡ None }
    {
        EncoderWords {
            is_there: false,
            encoding: 0,
            set: 0,
        }
    }

    /// Those of what was saved of an encoder.
    pub(crate) fn of(saved: SavedEncoder) -> EncoderWords
        ensures { saved_encoder_in result ≡ Some saved }
    {
        EncoderWords {
            is_there: true,
            encoding: number_of(saved.encoding),
            set: number_of_set(saved.set),
        }
    }

    /// What was saved of the encoder, if there is one.
    #[inline(always)]
    pub(crate) fn saved(self) -> Option<SavedEncoder>
        ensures { result ≡ saved_encoder_in self }
    {
        if !self.is_there {
            return None;
        }
        let encoding = encoding_of(self.encoding)?;
        let set = set_of(self.set)?;
        Some(SavedEncoder { encoding, set })
    }
}

/// The number that stands for a set.
pub(crate) fn number_of_set(set: EscapeState) -> u8
    ensures { set_at result ≡ Some set }
{
    set as u8
}

/// The set that a number stands for.
pub(crate) fn set_of(number: u8) -> Option<EscapeState>
    ensures { result ≡ set_at number }
{
    match number {
        0 => Some(EscapeState::Ascii),
        1 => Some(EscapeState::Roman),
        2 => Some(EscapeState::Jis),
        _ => None,
    }
}
