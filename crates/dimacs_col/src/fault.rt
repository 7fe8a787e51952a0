//! Why a text is refused.

ghost use Rattle.std.specs.Prelude.{◌≡◌};
ghost use Rattle.dimacs_col.specs.declared.fault.ColFault.TheVariants.{Memory};

use std::alloc::{AllocError, AllocFailed};
use thiserror::Error;

/// The first fault of a text. Each but the first and the last carries the number of its line,
/// counted from 1 over all lines, skipped ones too.
#[derive(Clone, Copy, Debug, PartialEq, Eq, Error)]
pub enum ColFault {
    #[error("F1: no problem line")]
    NoProblem,
    #[error("F2 line {0}: a second problem line")]
    SecondProblem(usize),
    #[error("F3 line {0}: an edge before the problem line")]
    EdgeBeforeProblem(usize),
    #[error("F4 line {0}: a field is missing, not a number or an unknown format")]
    BadField(usize),
    #[error("F5 line {0}: a vertex is 0 or above the number of vertices")]
    VertexRange(usize),
    #[error("F6 line {0}: an edge from a vertex to itself")]
    SelfLoop(usize),
    #[error("F7 line {0}: more vertices or edges than the limits allow")]
    TooLarge(usize),
    #[error("F8 line {0}: the first field is unknown")]
    UnknownLine(usize),
    #[error("F10 line {0}: an identifier or a bar before the problem line")]
    EarlyLine(usize),
    #[error("F11 line {0}: an identifier of more than 128 binary digits")]
    NumberRange(usize),
    #[error("F12 line {0}: a second identifier of a vertex")]
    IdTwice(usize),
    #[error("F13 line {0}: a barred channel is 0 or above 2048")]
    ChannelRange(usize),
    #[error("F14 line {0}: more barred channels of a vertex than the limit allows")]
    TooManyBars(usize),
    #[error("F9: out of memory")]
    Memory,
}

impl From<AllocError> for ColFault {
    ghost from_gives = { λ _ e. e ≡ Memory };

    fn from(_error: AllocError) -> ColFault {
        ColFault::Memory
    }
}

impl<T: Drop> From<AllocFailed<T>> for ColFault {
    ghost from_gives = { λ _ e. e ≡ Memory };

    fn from(_error: AllocFailed<T>) -> ColFault {
        ColFault::Memory
    }
}
