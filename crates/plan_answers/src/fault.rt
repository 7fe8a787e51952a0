//! Why a text has no answer.

ghost use Rattle.std.specs.Prelude.{◌≡◌};
ghost use Rattle.plan_answers.specs.RunFaults.{fault_of_run};
ghost use Rattle.plan_answers.specs.declared.fault.PlanFault.TheVariants.{Check, Col, Net, Memory};

use channel_plan::CheckFault;
use dimacs_col::ColFault;
use interference::{Memory, NetFault};
use run_options::{PoolFault, RunFault};

/// Why a text has no answer.
#[derive(Debug, PartialEq, Eq, Drop)]
pub enum PlanFault {
    /// The text is no graph.
    Col(ColFault),
    /// Its graph is no network.
    Net(NetFault),
    /// The run of workers on it has no outcome.
    Pool(PoolFault),
    /// The plan that follows it is refused.
    Check(CheckFault),
    /// The workers stopped, and not every node was done.
    Stopped,
    /// Memory ran out.
    Memory,
}

impl From<ColFault> for PlanFault {
    ghost from_gives = { λ fault result. result ≡ Col fault };

    fn from(fault: ColFault) -> PlanFault {
        PlanFault::Col(fault)
    }
}

impl From<NetFault> for PlanFault {
    ghost from_gives = { λ fault result. result ≡ Net fault };

    fn from(fault: NetFault) -> PlanFault {
        PlanFault::Net(fault)
    }
}

impl From<RunFault> for PlanFault {
    ghost from_gives = { λ fault result. result ≡ fault_of_run fault };

    fn from(fault: RunFault) -> PlanFault {
        match fault {
            RunFault::Pool(fault) => PlanFault::Pool(fault),
            RunFault::Stopped => PlanFault::Stopped,
            RunFault::Memory => PlanFault::Memory,
        }
    }
}

impl From<CheckFault> for PlanFault {
    ghost from_gives = { λ fault result. result ≡ Check fault };

    fn from(fault: CheckFault) -> PlanFault {
        PlanFault::Check(fault)
    }
}

impl From<Memory> for PlanFault {
    ghost from_gives = { λ _ result. result ≡ Memory };

    fn from(_memory: Memory) -> PlanFault {
        PlanFault::Memory
    }
}
