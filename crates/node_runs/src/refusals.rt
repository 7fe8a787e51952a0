//! Which fault a run has if turns of its nodes ended early.

ghost use Rattle.std.specs.Prelude.{◌≡◌, map};
ghost use Rattle.wired_nodes.specs.Stepped.{refusal_of};
ghost use Rattle.node_runs.specs.Refusals.{fault_of_refusals};

use node_api::NodeProgram;
use pool::ThreadsFault;
use wired_nodes::{Node, TurnRefused, Wiring};

/// The fault of a run whose nodes remember refusals of their turns: `outcomes` knows that no stamp was refused.
///
/// # Errors
///
/// `Memory` if a node was refused memory.
pub fn fault_of_refusals<J: Wiring, P: NodeProgram>(
    nodes: &[Box<Node<J, P>>],
) -> Result<(), ThreadsFault>
    ensures fault { result ≡ fault_of_refusals tt (map (λ b. refusal_of b.value) nodes.now) }
{
    for node in nodes {
        match node.refusal() {
            None | Some(TurnRefused::StampFull) => {}
            Some(TurnRefused::Memory) => return Err(ThreadsFault::Memory),
        }
    }
    Ok(())
}
