//! A plan that was read, and why a plan is refused.

ghost use Rattle.std.specs.Prelude.{◌≡◌};
ghost use Rattle.channel_plan.specs.declared.plan.CheckFault.TheVariants.{Memory};

use std::alloc::{AllocError, AllocFailed};
use thiserror::Error;

/// The rows of a plan text, in its order: a vertex and its channel.
#[derive(Debug, PartialEq, Eq, Drop)]
pub struct Plan {
    pub rows: Vec<(u32, u32)>,
}

/// Why a plan is refused. `read_plan` gives `Syntax`, `check` the others; either may give `Memory`.
#[derive(Clone, Copy, Debug, PartialEq, Eq, Error)]
pub enum CheckFault {
    #[error("C1 vertex {0}: it has no row")]
    Missing(u32),
    #[error("C2 vertex {0}: there is no such vertex")]
    Stranger(u32),
    #[error("C3 vertex {0}: it has a second row")]
    Twice(u32),
    #[error("C4 vertices {0} {1}: neighbours that share a channel")]
    Clash(u32, u32),
    #[error("C5 vertex {0}: its channel is above the greatest degree plus the greatest number of bars plus one")]
    TooHigh(u32),
    #[error("C8 vertex {0}: its channel is barred")]
    Barred(u32),
    #[error("C6 line {0}: neither `plan` nor a vertex and its channel")]
    Syntax(usize),
    #[error("C7: out of memory")]
    Memory,
}

impl From<AllocError> for CheckFault {
    ghost from_gives = { λ _ fault. fault ≡ Memory };

    fn from(_error: AllocError) -> CheckFault {
        CheckFault::Memory
    }
}

impl<T: Drop> From<AllocFailed<T>> for CheckFault {
    ghost from_gives = { λ _ fault. fault ≡ Memory };

    fn from(_error: AllocFailed<T>) -> CheckFault {
        CheckFault::Memory
    }
}
