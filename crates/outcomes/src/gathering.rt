//! The nodes and links of a run become its outcome.

ghost use Rattle.std.specs.Prelude.{◌≡◌, ◌<◌, ◌^◌, ℕ, All, IfOk, None, map};
ghost use Rattle.interference.specs.Net.{vertices};
ghost use Rattle.node_api.specs.Program.{last_pulse_on};
ghost use Rattle.wired_nodes.specs.Links.{HoldAtMost};
ghost use Rattle.wired_nodes.specs.Stepped.{refusal_of};
ghost use Rattle.outcomes.specs.Outcome.{IsOutcome};
ghost use Rattle.outcomes.specs.Full.{HadMemory, HasStampLeft};

use crate::meeting::meet_rows;
use crate::outcome::Outcome;
use crate::taking_apart::{NodesAndEnds, split_ends};
use interference::{Memory, Network};
use node_api::NodeProgram;
use port_rows::crossed;
use std::alloc::Global;
use std::sync::Wait;
use wired_nodes::{Links, Node, Wiring};

// The last pulse of a program, which has 32 binary digits by its type.
fn last_pulse_of<P: NodeProgram>(net: &Network) -> u32
    ensures short { last_pulse_on P.program net.now < 2 ^ 32 }
{
    P::last_pulse(net)
}

/// What the nodes of a run, ascending, and its links leave, once all threads are joined. The outcome holds for every
/// capacity that no link's own capacity exceeds. No node remembers that a turn was refused memory, and none has come to
/// its greatest stamp, since a whole run has fewer events than that. So the refusals that are dropped with the nodes
/// are `None`.
///
/// # Errors
///
/// `Memory` if memory is refused.
pub fn gathered<J: Wiring, P: NodeProgram, R: Wait>(
    rt: &R,
    alloc: Global,
    net: &Network,
    links: &Links<J, P>,
    nodes: Vec<Box<Node<J, P>>>,
) -> Result<Outcome<P>, Memory>
    requires network { J.net ≡ net.now }
    requires nodes { map (λ b. b.value.vertex) nodes.items ≡ vertices J.net }
    requires none_refused { All (λ b. HadMemory (refusal_of b.value)) nodes.items }
    ensures outcome { IfOk result (λ outcome. (capacity : ℕ)
        → HoldAtMost links.now capacity → IsOutcome P.program net.now capacity J.transcript outcome) }
    ensures stamps { IfOk result (λ _. All (λ b. HasStampLeft b.value.counter b.value.aside) nodes.items) }
    ensures none_refused { IfOk result (λ _. All (λ b. refusal_of b.value ≡ None) nodes.items) }
{
    // So a run has fewer than 2^60 events, by a clause of this call.
    let _last = last_pulse_of::<P>(net);
    let NodesAndEnds {
        actors,
        puts,
        takes,
    } = split_ends(alloc, nodes)?;
    let takes = crossed(alloc, net, takes)?;
    let links = meet_rows(rt, alloc, links, puts, takes)?;
    Ok(Outcome { actors, links })
}
