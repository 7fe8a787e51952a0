//! Events that were read, played.

ghost use Rattle.std.specs.Prelude.{◌≡◌, IfOk, IfErr, Ok};
ghost use Rattle.event_texts.specs.Played.{IsFaultOfRun, IsFaultOfStep, events_in};
ghost use Rattle.event_rule.specs.Step.{run};

use crate::fault::EventFault;
use crate::missing::missing_words;
use event_machine::NetState;
use event_rule::{Event, StepRefused};
use interference::Network;
use node_api::NodeProgram;
use std::alloc::Global;

// The refusal of an event in a state, with its line and what it lacks.
fn fault_of<P: NodeProgram>(
    alloc: Global,
    state: &NetState<P>,
    line: usize,
    event: Event,
    refused: StepRefused,
) -> EventFault
    ensures { IsFaultOfStep P.program state.now.net state.now.state line event refused result }
{
    let words = match missing_words(alloc, state, event) {
        Ok(words) => words,
        Err(_) => return EventFault::Memory,
    };
    match refused {
        StepRefused::NotReady => EventFault::NotReady(line, words),
        StepRefused::NothingToPut => EventFault::NothingToPut(line, words),
        StepRefused::LinkEmpty => EventFault::LinkEmpty(line, words),
        StepRefused::NoSuch => EventFault::NoSuch(line),
        StepRefused::Memory => EventFault::Memory,
    }
}

/// Plays events from the start, and returns the state that they lead to.
///
/// # Errors
///
/// The refusal of the first event that isn't possible, with its line and what it lacks; `Memory` if memory is refused.
pub fn play<P: NodeProgram>(
    alloc: Global,
    net: &Network,
    script: &[(usize, Event)],
) -> Result<NetState<P>, EventFault>
    ensures net { IfOk result (λ view. view.net ≡ net.now) }
    ensures ok { IfOk result (λ view. run P.program net.now (events_in script.now) ≡ Ok view.state) }
    ensures fault { IfErr result (IsFaultOfRun P.program net.now script.now) }
{
    let mut state = NetState::start(alloc, net)?;
    for row in script {
        match state.step(row.1) {
            Ok(()) => {}
            Err(refused) => return Err(fault_of(alloc, &state, row.0, row.1, refused)),
        }
    }
    Ok(state)
}
