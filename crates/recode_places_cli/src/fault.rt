//! Why nothing more is printed.

ghost use Rattle.std.specs.Prelude.{◌≤◌};

use recode::StartFault;
use recode_places::{Refusal, Stop};
use std::alloc::AllocError;
use thiserror::Error;

// Why nothing more is printed: what is said after the program's name.
#[derive(Debug, Drop, Error)]
pub(crate) enum Fault {
    #[error("a word is not UTF-8")]
    Words,
    // No encoding has the label.
    #[error("unknown label {0}")]
    Label(String),
    // The file, by its name as it is shown, can't be opened.
    #[error("{0}: missing")]
    Input(String),
    #[error("{0}")]
    Index(StartFault),
    #[error("out of memory")]
    Memory,
    #[error("{0}")]
    Stop(Stop),
}

impl From<AllocError> for Fault {
    fn from(_error: AllocError) -> Fault {
        Fault::Memory
    }
}

impl From<StartFault> for Fault {
    fn from(fault: StartFault) -> Fault {
        Fault::Index(fault)
    }
}

impl From<Stop> for Fault {
    fn from(stop: Stop) -> Fault {
        Fault::Stop(stop)
    }
}

impl From<Refusal> for Fault {
    fn from(refusal: Refusal) -> Fault {
        Fault::Stop(Stop::from(refusal))
    }
}

impl Fault {
    // The exit status.
    pub(crate) fn status(&self) -> u8
        ensures { result ≤ 4 }
    {
        match self {
            Fault::Words | Fault::Label(_) => 2,
            Fault::Input(_) | Fault::Index(_) | Fault::Memory => 3,
            Fault::Stop(_) => 4,
        }
    }
}
