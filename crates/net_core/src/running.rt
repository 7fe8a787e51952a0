//! Lists of events.

ghost use Rattle.std.specs.Prelude.{◌≡◌, ◌≢◌, ◌∷◌, [], IfErr, IfOk, Err, Ok};
ghost use Rattle.event_rule.specs.declared.refused.RunRefused.TheVariants.{Memory};
ghost use Rattle.event_rule.specs.Simulation.{IsSimulation};
ghost use Rattle.event_rule.specs.Step.{run_from};
ghost use Rattle.net_core.specs.Runs.{RunMatches};

use event_machine::NetState;
use event_rule::{Event, RunRefused};
use interference::Network;
use node_api::NodeProgram;
use std::alloc::Global;

// Makes the event of an index of a list, from 0.
fn make<P: NodeProgram>(
    state: &mut NetState<P>,
    index: usize,
    event: Event,
) -> Result<(), RunRefused>
    ensures net { state.new.net ≡ state.old.net }
    ensures made { IfOk result (λ _.
        run_from P.program state.old.net index (event ∷ []) state.old.state ≡ Ok state.new.state) }
    ensures refused { IfErr result (λ refused. refused ≢ Memory
        → run_from P.program state.old.net index (event ∷ []) state.old.state ≡ Err refused) }
{
    match state.step(event) {
        Ok(()) => Ok(()),
        Err(refused) => Err(refused.at(index)),
    }
}

/// Makes the events of a list one after the other, from the start.
///
/// # Errors
///
/// The refusal of the first event that isn't possible, with its index from 0; `Memory` if memory is refused.
pub fn run<P: NodeProgram>(
    alloc: Global,
    net: &Network,
    events: &[Event],
) -> Result<NetState<P>, RunRefused>
    ensures run { RunMatches P.program net.now events.now result }
    ensures simulates { IfOk result (λ view. IsSimulation P.program view.net view.state) }
{
    let mut state = NetState::start(alloc, net)?;
    for (index, event) in events.iter().enumerate() {
        make(&mut state, index, *event)?;
    }
    state.is_simulation();
    Ok(state)
}
