//! Why entries are refused.

ghost use Rattle.std.specs.Prelude.{◌≡◌};
ghost use Rattle.net_core.specs.Replays.{at_entry};

use event_rule::{RunRefused, StepRefused};
use interference::Memory;
use thiserror::Error;

/// Why `replay` refuses a list of entries: the first entry that no event writes down at its place.
#[derive(Debug, Clone, Copy, PartialEq, Eq, Error)]
pub enum ReplayRefused {
    /// The event of an entry isn't possible. `NoSuch` also if the vertex has no such neighbour.
    #[error("{0}")]
    Run(RunRefused),
    /// The event of the entry of this index, from 0, is possible, but has another pulse or wire.
    #[error("entry {0}: the event has another pulse or wire")]
    WrongWire(usize),
}

impl From<Memory> for ReplayRefused {
    ghost use Rattle.event_rule.specs.declared.refused.RunRefused.TheVariants.{Memory};
    ghost use Rattle.net_core.specs.declared.refused.ReplayRefused.TheVariants.{Run};

    ghost from_gives = { λ _ refused. refused ≡ Run Memory };

    fn from(_memory: Memory) -> ReplayRefused {
        ReplayRefused::Run(RunRefused::Memory)
    }
}

/// Why `replay_whole` refuses a list of stamped entries: by the first that isn't in place, or by the state at the end.
#[derive(Debug, Clone, Copy, PartialEq, Eq, Error)]
pub enum WholeRefused {
    /// As `replay` refuses the entry.
    #[error("{0}")]
    Replay(ReplayRefused),
    /// The entry of this index, from 0, has another stamp than the counter of its node gives it, or comes too late in
    /// the order of the stamps and vertices.
    #[error("entry {0}: another stamp, or out of order")]
    WrongStamp(usize),
    /// A node isn't drained at the end, or a link isn't empty.
    #[error("the entries end before the run does")]
    NotWhole,
}

impl From<Memory> for WholeRefused {
    ghost use Rattle.event_rule.specs.declared.refused.RunRefused.TheVariants.{Memory};
    ghost use Rattle.net_core.specs.declared.refused.ReplayRefused.TheVariants.{Run};
    ghost use Rattle.net_core.specs.declared.refused.WholeRefused.TheVariants.{Replay};

    ghost from_gives = { λ _ refused. refused ≡ Replay (Run Memory) };

    fn from(memory: Memory) -> WholeRefused {
        WholeRefused::Replay(memory.into())
    }
}

/// Why one entry is refused.
pub(crate) enum EntryRefused {
    /// The event isn't possible.
    Step(StepRefused),
    /// It has another pulse or wire.
    WrongWire,
}

impl From<StepRefused> for EntryRefused {
    ghost use Rattle.net_core.specs.declared.refused.EntryRefused.TheVariants.{Step};

    ghost from_gives = { λ refused entry. entry ≡ Step refused };

    fn from(refused: StepRefused) -> EntryRefused {
        EntryRefused::Step(refused)
    }
}

impl EntryRefused {
    /// The refusal of a list whose entry of this index is refused so.
    pub(crate) fn at(self, index: usize) -> ReplayRefused
        ensures index { result ≡ at_entry index self }
    {
        match self {
            EntryRefused::Step(refused) => ReplayRefused::Run(refused.at(index)),
            EntryRefused::WrongWire => ReplayRefused::WrongWire(index),
        }
    }
}
