//! The line that reports a fault, and the status that goes with it.

ghost use Rattle.std.specs.Prelude.{◌≡◌, IfOk};
ghost use Rattle.reports.specs.Lines.{line_with};
ghost use Rattle.plan_answers.specs.Faults.{check_text, col_text, fault_line, fault_status, net_text, pool_text};

use crate::fault::PlanFault;
use channel_plan::CheckFault;
use dimacs_col::ColFault;
use interference::NetFault;
use reports::{FaultReport, Place, memory_report, refusal, report_with, stopped_report};
use run_options::PoolFault;
use std::alloc::{AllocError, Global};

// The status if the command line is refused; no fault of the program's has it, since its command line takes no
// options that are out of range.
const REFUSED_WORDS: u8 = 2;

// The status if a thread was refused, or a stamp would be too great.
const NOT_DONE: u8 = 4;

/// The line and the status with which a program of a name reports a fault of the reading of a DIMACS text.
///
/// # Errors
/// If there is no memory for the line.
pub fn report_of_reading(
    alloc: Global,
    name: &str,
    fault: ColFault,
) -> Result<FaultReport, AllocError>
    ensures line { IfOk result (λ report. report.line.items ≡ line_with name.now (col_text fault).0) }
    ensures status { IfOk result (λ report. report.status ≡ (col_text fault).1) }
{
    match fault {
        ColFault::NoProblem => refusal(alloc, name, "F1", Place::None),
        ColFault::SecondProblem(n) => refusal(alloc, name, "F2", Place::Line(n)),
        ColFault::EdgeBeforeProblem(n) => refusal(alloc, name, "F3", Place::Line(n)),
        ColFault::BadField(n) => refusal(alloc, name, "F4", Place::Line(n)),
        ColFault::VertexRange(n) => refusal(alloc, name, "F5", Place::Line(n)),
        ColFault::SelfLoop(n) => refusal(alloc, name, "F6", Place::Line(n)),
        ColFault::TooLarge(n) => refusal(alloc, name, "F7", Place::Line(n)),
        ColFault::UnknownLine(n) => refusal(alloc, name, "F8", Place::Line(n)),
        ColFault::EarlyLine(n) => refusal(alloc, name, "F10", Place::Line(n)),
        ColFault::NumberRange(n) => refusal(alloc, name, "F11", Place::Line(n)),
        ColFault::IdTwice(n) => refusal(alloc, name, "F12", Place::Line(n)),
        ColFault::ChannelRange(n) => refusal(alloc, name, "F13", Place::Line(n)),
        ColFault::TooManyBars(n) => refusal(alloc, name, "F14", Place::Line(n)),
        ColFault::Memory => memory_report(alloc, name),
    }
}

/// The line and the status with which a program of a name reports a fault of a network.
///
/// # Errors
/// If there is no memory for the line.
pub fn report_of_network(
    alloc: Global,
    name: &str,
    fault: NetFault,
) -> Result<FaultReport, AllocError>
    ensures line { IfOk result (λ report. report.line.items ≡ line_with name.now (net_text fault).0) }
    ensures status { IfOk result (λ report. report.status ≡ (net_text fault).1) }
{
    match fault {
        NetFault::Degree(v) => refusal(alloc, name, "N1", Place::Vertex(v)),
        NetFault::SameId(v, w) => refusal(alloc, name, "N2", Place::Vertices(v, w)),
        NetFault::Memory => memory_report(alloc, name),
    }
}

/// The line and the status with which a program of a name reports a fault of a run of workers.
///
/// # Errors
/// If there is no memory for the line.
pub fn report_of_pool(
    alloc: Global,
    name: &str,
    fault: PoolFault,
) -> Result<FaultReport, AllocError>
    ensures line { IfOk result (λ report. report.line.items ≡ line_with name.now (pool_text fault).0) }
    ensures status { IfOk result (λ report. report.status ≡ (pool_text fault).1) }
{
    match fault {
        PoolFault::Memory => memory_report(alloc, name),
        PoolFault::Spawn => report_with(alloc, name, "threads", NOT_DONE),
        PoolFault::StampFull => report_with(alloc, name, "stamps", NOT_DONE),
        PoolFault::BadOptions => report_with(alloc, name, "options", REFUSED_WORDS),
    }
}

fn report_of_check(alloc: Global, name: &str, fault: CheckFault) -> Result<FaultReport, AllocError>
    ensures line { IfOk result (λ report. report.line.items ≡ line_with name.now (check_text fault).0) }
    ensures status { IfOk result (λ report. report.status ≡ (check_text fault).1) }
{
    match fault {
        CheckFault::Missing(v) => refusal(alloc, name, "C1", Place::Vertex(v)),
        CheckFault::Stranger(v) => refusal(alloc, name, "C2", Place::Vertex(v)),
        CheckFault::Twice(v) => refusal(alloc, name, "C3", Place::Vertex(v)),
        CheckFault::Clash(v, w) => refusal(alloc, name, "C4", Place::Vertices(v, w)),
        CheckFault::TooHigh(v) => refusal(alloc, name, "C5", Place::Vertex(v)),
        CheckFault::Barred(v) => refusal(alloc, name, "C8", Place::Vertex(v)),
        CheckFault::Syntax(n) => refusal(alloc, name, "C6", Place::Line(n)),
        CheckFault::Memory => memory_report(alloc, name),
    }
}

/// The line and the status with which a program of a name reports a fault.
///
/// # Errors
/// If there is no memory for the line.
pub fn fault_report(alloc: Global, name: &str, fault: PlanFault) -> Result<FaultReport, AllocError>
    ensures line { IfOk result (λ report. report.line.items ≡ fault_line name.now fault) }
    ensures status { IfOk result (λ report. report.status ≡ fault_status fault) }
{
    match fault {
        PlanFault::Col(fault) => report_of_reading(alloc, name, fault),
        PlanFault::Net(fault) => report_of_network(alloc, name, fault),
        PlanFault::Pool(fault) => report_of_pool(alloc, name, fault),
        PlanFault::Check(fault) => report_of_check(alloc, name, fault),
        PlanFault::Stopped => stopped_report(alloc, name),
        PlanFault::Memory => memory_report(alloc, name),
    }
}
