//! Lists of entries.

ghost use Rattle.std.specs.Prelude.{◌≡◌, ◌≢◌, IfErr, IfOk};
ghost use Rattle.event_rule.specs.declared.refused.RunRefused.TheVariants.{Memory};
ghost use Rattle.event_rule.specs.Simulation.{IsSimulation};
ghost use Rattle.net_core.specs.declared.refused.ReplayRefused.TheVariants.{Run};
ghost use Rattle.event_rule.specs.Replays.{IsReplay};
ghost use Rattle.net_core.specs.Replays.{Stops};

use crate::entry_event::make_entry;
use crate::refused::ReplayRefused;
use entries::Row;
use event_machine::NetState;
use interference::Network;
use node_api::NodeProgram;
use std::alloc::Global;

/// Plays entries, each with the vertex of its node, from the start, and returns the state that they lead to.
///
/// # Errors
///
/// `Run` with the first entry whose event isn't possible where it stands, and why: first of all `NoSuch`, if there is
/// no such vertex or the neighbour is none. `WrongWire` with that entry if its event is possible, but its pulse or wire
/// is another. `Run` of `Memory` if memory is refused.
pub fn replay<P: NodeProgram>(
    alloc: Global,
    net: &Network,
    entries: &[Row<P::Payload>],
) -> Result<NetState<P>, ReplayRefused>
    ensures net { IfOk result (λ view. view.net ≡ net.now) }
    ensures accepts { IfOk result (λ view. IsReplay P.program net.now entries.now view.state) }
    ensures refuses { IfErr result (λ refused. refused ≢ Run Memory → Stops P.program net.now entries.now refused) }
    ensures simulates { IfOk result (λ view. IsSimulation P.program view.net view.state) }
{
    let mut state = NetState::start(alloc, net)?;
    for (index, row) in entries.iter().enumerate() {
        match make_entry(&mut state, row) {
            Ok(()) => {}
            Err(refused) => return Err(refused.at(index)),
        }
    }
    state.is_simulation();
    Ok(state)
}
