//! Faults and refusals: all variants, with what each carries.

use alpha_core::AlphaRefused;
use channel_plan::CheckFault;
use dimacs_col::ColFault;
use event_rule::{RunRefused, StepRefused};
use interference::NetFault;
use net_core::{ReplayRefused, WholeRefused};
use node_api::Refused;
use plan_answers::PlanFault;
use run_options::PoolFault;
use transcripts::TextFault;

/// The line of a fault, if it has one.
pub fn reading(fault: &ColFault) -> Option<usize> {
    match fault {
        ColFault::NoProblem | ColFault::Memory => None,
        ColFault::SecondProblem(line)
        | ColFault::EdgeBeforeProblem(line)
        | ColFault::BadField(line)
        | ColFault::VertexRange(line)
        | ColFault::SelfLoop(line)
        | ColFault::TooLarge(line)
        | ColFault::UnknownLine(line)
        | ColFault::EarlyLine(line)
        | ColFault::NumberRange(line)
        | ColFault::IdTwice(line)
        | ColFault::ChannelRange(line)
        | ColFault::TooManyBars(line) => Some(*line),
    }
}

/// The vertices of a fault, if it has some.
pub fn network(fault: &NetFault) -> Option<(u32, u32)> {
    match fault {
        NetFault::Degree(v) => Some((*v, *v)),
        NetFault::SameId(v, w) => Some((*v, *w)),
        NetFault::Memory => None,
    }
}

/// What the program refuses, if it is the program that does.
pub fn wire(refused: &AlphaRefused) -> Option<&Refused> {
    match refused {
        AlphaRefused::WrongPulse
        | AlphaRefused::DoublePayload
        | AlphaRefused::StrayAck
        | AlphaRefused::DoubleSafe
        | AlphaRefused::AfterClose => None,
        AlphaRefused::Program(refused) => Some(refused),
    }
}

/// Whether a refusal of `step` is memory.
pub fn step(refused: &StepRefused) -> bool {
    match refused {
        StepRefused::NotReady
        | StepRefused::NothingToPut
        | StepRefused::LinkEmpty
        | StepRefused::NoSuch => false,
        StepRefused::Memory => true,
    }
}

/// The index of an event that is refused, if it isn't memory.
pub fn run(refused: &RunRefused) -> Option<usize> {
    match refused {
        RunRefused::NotReady(i)
        | RunRefused::NothingToPut(i)
        | RunRefused::LinkEmpty(i)
        | RunRefused::NoSuch(i) => Some(*i),
        RunRefused::Memory => None,
    }
}

/// The index of an entry that is refused, if it isn't memory, nor the end.
pub fn replay(refused: &WholeRefused) -> Option<usize> {
    match refused {
        WholeRefused::Replay(ReplayRefused::Run(refused)) => run(refused),
        WholeRefused::Replay(ReplayRefused::WrongWire(i)) | WholeRefused::WrongStamp(i) => Some(*i),
        WholeRefused::NotWhole => None,
    }
}

/// The line of a fault, if it has one.
pub fn transcript(fault: &TextFault) -> Option<usize> {
    match fault {
        TextFault::Syntax(line) => Some(*line),
        TextFault::Memory => None,
    }
}

/// The number of a fault of workers.
pub fn workers(fault: &PoolFault) -> u8 {
    match fault {
        PoolFault::Memory => 1,
        PoolFault::Spawn => 2,
        PoolFault::BadOptions => 3,
        PoolFault::StampFull => 4,
    }
}

/// The vertices of a fault of a plan, if it has some.
pub fn plan(fault: &CheckFault) -> Option<(u32, u32)> {
    match fault {
        CheckFault::Missing(v)
        | CheckFault::Stranger(v)
        | CheckFault::Twice(v)
        | CheckFault::TooHigh(v)
        | CheckFault::Barred(v) => Some((*v, *v)),
        CheckFault::Clash(v, w) => Some((*v, *w)),
        CheckFault::Syntax(_) | CheckFault::Memory => None,
    }
}

/// Whether a fault is one of the six that were asked for, each with its crate's.
pub fn bytes(fault: &PlanFault) -> bool {
    match fault {
        PlanFault::Col(fault) => reading(fault) != Some(0),
        PlanFault::Net(fault) => network(fault) != Some((0, 0)),
        PlanFault::Pool(fault) => workers(fault) > 0,
        PlanFault::Check(fault) => plan(fault) != Some((0, 0)),
        PlanFault::Stopped | PlanFault::Memory => true,
    }
}
