//! Rounds in which each event of each vertex is attempted once, until a round makes none.

ghost use Rattle.std.specs.Prelude.{◌≡◌, ◌≢◌, ◌≤◌, ◌||◌, false, true, IfOk, Ok};
ghost use Rattle.interference.specs.Net.{IsVertex};
ghost use Rattle.alpha_laws.specs.Counts.{events_of_run};
ghost use Rattle.alpha_laws.specs.Progress.{HasEnded};
ghost use Rattle.event_rule.specs.declared.event.Event.{Event};
ghost use Rattle.event_rule.specs.declared.refused.StepRefused.{StepRefused};
ghost use Rattle.event_rule.specs.Events.{Possible};
ghost use Rattle.event_rule.specs.Step.{step};
ghost use Rattle.event_rule.specs.State.{link_at, node_of, sent_of};
ghost use Rattle.event_rule.specs.Commute.{vertex_of};
ghost use Rattle.event_rule.specs.Endings.{IsTerminal, IsWholeState};
ghost use Rattle.event_rule.specs.Progress.{events_in};
ghost use Rattle.lone_runs.specs.Went.{Went};

use event_machine::NetState;
use event_rule::{Event, StepRefused};
use interference::{Memory, Network};
use node_api::NodeProgram;
use std::alloc::Global;

pub(crate) fn either(a: bool, b: bool) -> bool
    ensures either { result ≡ (a || b) }
{
    a || b
}

fn is_memory(refused: StepRefused) -> bool
    ensures memory { result ≡ false → refused ≢ StepRefused.Memory }
{
    match refused {
        StepRefused::Memory => true,
        StepRefused::NotReady
        | StepRefused::NothingToPut
        | StepRefused::LinkEmpty
        | StepRefused::NoSuch => false,
    }
}

// Makes an event if it is possible. Returns whether it was.
pub(crate) fn attempt<P: NodeProgram>(state: &mut NetState<P>, event: Event) -> Result<bool, Memory>
    ensures went { IfOk result (λ did. Went P.program state.old did state.new) }
    ensures stuck { IfOk result (λ did. did ≡ false → Possible P.program state.new.net state.new.state event → ⊥) }
    ensures made { IfOk result (λ did. did ≡ true
        → step P.program state.old.net state.old.state event ≡ Ok state.new.state) }
{
    state.is_simulation();
    let _ = state.network().nodes();
    match state.step(event) {
        Ok(()) => Ok(true),
        Err(refused) => {
            if is_memory(refused) {
                Err(Memory)
            } else {
                Ok(false)
            }
        }
    }
}

// Attempts each event of a vertex once. Returns whether one was possible.
fn turn<P: NodeProgram>(state: &mut NetState<P>, v: u32) -> Result<bool, Memory>
    requires vertex { IsVertex state.old.net v }
    ensures went { IfOk result (λ did. Went P.program state.old did state.new) }
    ensures stuck { IfOk result (λ did. did ≡ false → (event : Event) → vertex_of event ≡ v
        → Possible P.program state.new.net state.new.state event → ⊥) }
{
    let mut did = attempt(state, Event::Pulse(v))?;
    let degree = state.network().degree(v);
    for port in 0..degree {
        let took = attempt(state, Event::Take(v, port))?;
        let put = attempt(state, Event::Put(v, port))?;
        did = either(did, either(took, put));
    }
    Ok(did)
}

// Attempts each event once. Returns whether one was possible.
pub(crate) fn round<P: NodeProgram>(state: &mut NetState<P>) -> Result<bool, Memory>
    ensures went { IfOk result (λ did. Went P.program state.old did state.new) }
    ensures stuck { IfOk result (λ did. did ≡ false → IsTerminal P.program state.new.net state.new.state) }
    ensures bounded { IfOk result
        (λ _. events_in P.program state.new.net state.new.state ≤ events_of_run P.program state.new.net) }
    ensures ended { IfOk result (λ did. did ≡ false → IsWholeState P.program state.new.net state.new.state
        × HasEnded P.program state.new.net (node_of P.program state.new.net state.new.state)
        (λ v i. sent_of (link_at state.new.state.links v i))) }
{
    let mut did = false;
    let count = state.network().nodes();
    for i in 0..count {
        let went = turn(state, i + 1)?;
        did = either(did, went);
    }
    state.is_simulation();
    let _ = state.network().nodes();
    Ok(did)
}

/// Plays all nodes on this thread until no event is possible. It always returns.
///
/// # Errors
///
/// `Memory` if memory is refused.
pub fn run_alone<P: NodeProgram>(alloc: Global, net: &Network) -> Result<NetState<P>, Memory>
    ensures network { IfOk result (λ view. view.net ≡ net.now) }
    ensures whole { IfOk result (λ view. IsWholeState P.program view.net view.state) }
    ensures ended { IfOk result (λ view. HasEnded P.program view.net (node_of P.program view.net view.state)
        (λ v i. sent_of (link_at view.state.links v i))) }
{
    let mut state = NetState::<P>::start(alloc, net)?;
    loop {
        let did = round(&mut state)?;
        if !did {
            return Ok(state);
        }
    }
}
