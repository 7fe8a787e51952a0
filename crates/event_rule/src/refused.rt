//! Why an event, or a list of events, is refused.

ghost use Rattle.std.specs.Prelude.{◌≡◌};
ghost use Rattle.event_rule.specs.Refusals.{at_index};

use interference::Memory;
use thiserror::Error;

/// Why `step` refuses an event. Nothing is changed.
#[derive(Debug, Clone, Copy, PartialEq, Eq, Error)]
pub enum StepRefused {
    #[error("the node cannot make its next pulse yet")]
    NotReady,
    #[error("the out-list is empty")]
    NothingToPut,
    #[error("the link that comes by the port is empty")]
    LinkEmpty,
    #[error("there is no such vertex or port")]
    NoSuch,
    #[error("out of memory")]
    Memory,
}

impl From<Memory> for StepRefused {
    ghost use Rattle.event_rule.specs.declared.refused.StepRefused.TheVariants.{Memory};

    ghost from_gives = { λ _ refused. refused ≡ Memory };

    fn from(_memory: Memory) -> StepRefused {
        StepRefused::Memory
    }
}

/// Why `run` refuses a list of events: the index of the first that isn't possible, from 0, or memory.
#[derive(Debug, Clone, Copy, PartialEq, Eq, Error)]
pub enum RunRefused {
    #[error("event {0}: the node cannot make its next pulse yet")]
    NotReady(usize),
    #[error("event {0}: the out-list is empty")]
    NothingToPut(usize),
    #[error("event {0}: the link that comes by the port is empty")]
    LinkEmpty(usize),
    #[error("event {0}: there is no such vertex or port")]
    NoSuch(usize),
    #[error("out of memory")]
    Memory,
}

impl From<Memory> for RunRefused {
    ghost use Rattle.event_rule.specs.declared.refused.RunRefused.TheVariants.{Memory};

    ghost from_gives = { λ _ refused. refused ≡ Memory };

    fn from(_memory: Memory) -> RunRefused {
        RunRefused::Memory
    }
}

impl StepRefused {
    /// The refusal of a run whose event of this index is refused so.
    pub fn at(self, index: usize) -> RunRefused
        ensures index { result ≡ at_index index self }
    {
        match self {
            StepRefused::NotReady => RunRefused::NotReady(index),
            StepRefused::NothingToPut => RunRefused::NothingToPut(index),
            StepRefused::LinkEmpty => RunRefused::LinkEmpty(index),
            StepRefused::NoSuch => RunRefused::NoSuch(index),
            StepRefused::Memory => RunRefused::Memory,
        }
    }
}
