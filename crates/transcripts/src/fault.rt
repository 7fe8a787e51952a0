//! Why a text isn't read as a transcript.

ghost use Rattle.std.specs.Prelude.{◌≡◌};
ghost use Rattle.transcripts.specs.declared.fault.TextFault.TheVariants.{Memory};

use std::alloc::{AllocError, AllocFailed};
use thiserror::Error;

/// The first line of a text that is no line of a transcript.
#[derive(Clone, Copy, Debug, PartialEq, Eq, Error)]
pub enum TextFault {
    #[error("X1 line {0}: neither `transcript EDITION NODES` nor an entry")]
    Syntax(usize),
    #[error("X2: out of memory")]
    Memory,
}

impl From<AllocError> for TextFault {
    ghost from_gives = { λ _ fault. fault ≡ Memory };

    fn from(_error: AllocError) -> TextFault {
        TextFault::Memory
    }
}

impl<T: Drop> From<AllocFailed<T>> for TextFault {
    ghost from_gives = { λ _ fault. fault ≡ Memory };

    fn from(_error: AllocFailed<T>) -> TextFault {
        TextFault::Memory
    }
}
