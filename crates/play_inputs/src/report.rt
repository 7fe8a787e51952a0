//! The line that reports a fault of `forestplay`, and the status that goes with it.

ghost use Rattle.std.specs.Prelude.{◌≡◌, IfOk};
ghost use Rattle.reports.specs.Lines.{line_with};
ghost use Rattle.play_inputs.specs.Faults.{event_text, fault_line, fault_status, replay_text};

use crate::fault::PlayFault;
use crate::replays::ReplayFault;
use event_texts::EventFault;
use plan_answers::{report_of_network, report_of_pool, report_of_reading};
use reports::{FaultReport, Place, memory_report, refusal, refusal_in_words, stopped_report};
use std::alloc::{AllocError, Global};

fn report_of_events(alloc: Global, name: &str, fault: EventFault) -> Result<FaultReport, AllocError>
    ensures line { IfOk result (λ report. report.line.items ≡ line_with name.now (event_text fault).0) }
    ensures status { IfOk result (λ report. report.status ≡ (event_text fault).1) }
{
    match fault {
        EventFault::NoEvent(n) => refusal(alloc, name, "NoEvent", Place::Line(n)),
        EventFault::NotReady(n, words) => {
            refusal_in_words(alloc, name, "NotReady", n, words.as_slice())
        }
        EventFault::NothingToPut(n, words) => {
            refusal_in_words(alloc, name, "NothingToPut", n, words.as_slice())
        }
        EventFault::LinkEmpty(n, words) => {
            refusal_in_words(alloc, name, "LinkEmpty", n, words.as_slice())
        }
        EventFault::NoSuch(n) => refusal(alloc, name, "NoSuch", Place::Line(n)),
        EventFault::Memory => memory_report(alloc, name),
    }
}

fn report_of_replay(
    alloc: Global,
    name: &str,
    fault: ReplayFault,
) -> Result<FaultReport, AllocError>
    ensures line { IfOk result (λ report. report.line.items ≡ line_with name.now (replay_text fault).0) }
    ensures status { IfOk result (λ report. report.status ≡ (replay_text fault).1) }
{
    match fault {
        ReplayFault::Syntax(n) => refusal(alloc, name, "X1", Place::Line(n)),
        ReplayFault::WrongProgram(n, words) => {
            refusal_in_words(alloc, name, "WrongProgram", n, words.as_slice())
        }
        ReplayFault::NotReady(n, words) => {
            refusal_in_words(alloc, name, "NotReady", n, words.as_slice())
        }
        ReplayFault::NothingToPut(n, words) => {
            refusal_in_words(alloc, name, "NothingToPut", n, words.as_slice())
        }
        ReplayFault::LinkEmpty(n, words) => {
            refusal_in_words(alloc, name, "LinkEmpty", n, words.as_slice())
        }
        ReplayFault::NoSuch(n) => refusal(alloc, name, "NoSuch", Place::Line(n)),
        ReplayFault::WrongWire(n, words) => {
            refusal_in_words(alloc, name, "WrongWire", n, words.as_slice())
        }
        ReplayFault::WrongStamp(n) => refusal(alloc, name, "WrongStamp", Place::Line(n)),
        ReplayFault::NotWhole(n) => refusal(alloc, name, "NotWhole", Place::Line(n)),
        ReplayFault::Memory => memory_report(alloc, name),
    }
}

/// The line and the status with which a program of a name reports a fault.
///
/// # Errors
/// If there is no memory for the line.
pub fn fault_report(alloc: Global, name: &str, fault: PlayFault) -> Result<FaultReport, AllocError>
    ensures line { IfOk result (λ report. report.line.items ≡ fault_line name.now fault) }
    ensures status { IfOk result (λ report. report.status ≡ fault_status fault) }
{
    match fault {
        PlayFault::Col(fault) => report_of_reading(alloc, name, fault),
        PlayFault::NoRoot(v) => refusal(alloc, name, "NoRoot", Place::Vertex(v)),
        PlayFault::Net(fault) => report_of_network(alloc, name, fault),
        PlayFault::Pool(fault) => report_of_pool(alloc, name, fault),
        PlayFault::Event(fault) => report_of_events(alloc, name, fault),
        PlayFault::Replay(fault) => report_of_replay(alloc, name, fault),
        PlayFault::Stopped => stopped_report(alloc, name),
        PlayFault::Memory => memory_report(alloc, name),
    }
}
