//! Why an input of a command of `forestplay` has no answer.

ghost use Rattle.std.specs.Prelude.{◌≡◌};
ghost use Rattle.play_inputs.specs.RunFaults.{fault_of_run};
ghost use Rattle.play_inputs.specs.declared.fault.PlayFault.TheVariants.{Col, Event, Net, Memory, Replay};

use crate::replays::ReplayFault;
use dimacs_col::ColFault;
use event_texts::EventFault;
use interference::{Memory, NetFault};
use run_options::{PoolFault, RunFault};

/// Why an input of a command of `forestplay` has no answer.
#[derive(Debug, PartialEq, Eq, Drop)]
pub enum PlayFault {
    /// The text is no graph.
    Col(ColFault),
    /// The vertex that is to be the root isn't in its graph.
    NoRoot(u32),
    /// Its graph is no network.
    Net(NetFault),
    /// The run of workers on it has no outcome.
    Pool(PoolFault),
    /// The events that follow it are refused.
    Event(EventFault),
    /// The transcript that follows it is refused.
    Replay(ReplayFault),
    /// The workers stopped, and not every node was done.
    Stopped,
    /// Memory ran out.
    Memory,
}

impl From<ColFault> for PlayFault {
    ghost from_gives = { λ fault result. result ≡ Col fault };

    fn from(fault: ColFault) -> PlayFault {
        PlayFault::Col(fault)
    }
}

impl From<NetFault> for PlayFault {
    ghost from_gives = { λ fault result. result ≡ Net fault };

    fn from(fault: NetFault) -> PlayFault {
        PlayFault::Net(fault)
    }
}

impl From<RunFault> for PlayFault {
    ghost from_gives = { λ fault result. result ≡ fault_of_run fault };

    fn from(fault: RunFault) -> PlayFault {
        match fault {
            RunFault::Pool(fault) => PlayFault::Pool(fault),
            RunFault::Stopped => PlayFault::Stopped,
            RunFault::Memory => PlayFault::Memory,
        }
    }
}

impl From<EventFault> for PlayFault {
    ghost from_gives = { λ fault result. result ≡ Event fault };

    fn from(fault: EventFault) -> PlayFault {
        PlayFault::Event(fault)
    }
}

impl From<ReplayFault> for PlayFault {
    ghost from_gives = { λ fault result. result ≡ Replay fault };

    fn from(fault: ReplayFault) -> PlayFault {
        PlayFault::Replay(fault)
    }
}

impl From<Memory> for PlayFault {
    ghost from_gives = { λ _ result. result ≡ Memory };

    fn from(_memory: Memory) -> PlayFault {
        PlayFault::Memory
    }
}
