//! Why a whole text or a whole input was not converted at once.

use std::alloc::AllocError;
use thiserror::Error;

/// Why a whole input was not decoded, or a whole text not encoded, at once.
#[derive(Debug, Drop, PartialEq, Eq, Error)]
pub enum OneShotFault {
    /// The room that is asked for passes a `usize`.
    #[error("the room needed passes a usize")]
    Overflow,
    /// Memory for the result was refused.
    #[error("out of memory")]
    Memory,
}

impl From<AllocError> for OneShotFault {
    ghost use Rattle.std.specs.Prelude.{◌≡◌};
    ghost use Rattle.encoding_front.specs.declared.one_shot_fault.OneShotFault.TheVariants.{Memory};

    ghost from_gives = { λ _ fault. fault ≡ Memory };

    fn from(_refused: AllocError) -> OneShotFault {
        OneShotFault::Memory
    }
}
