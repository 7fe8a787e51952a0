//! A turn of a node, as a worker makes it.

ghost use Rattle.std.specs.Prelude.{◌≡◌};
ghost use Rattle.wired_nodes.specs.Stepped.{refusal_after, refusal_of};

use interference::Network;
use node_api::NodeProgram;
use pool::Turned;
use std::sync::Wait;
use wired_nodes::{Gate, Links, Node, Observer, TurnRefused, Wiring};

// Shows a node to the observer.
fn show<J: Wiring, P: NodeProgram, O: Observer, R: Wait>(
    rt: &R,
    net: &Network,
    observer: &O,
    worker: u32,
    node: &Node<J, P>,
)
    requires network { J.net ≡ net.now }
    requires observed { O.observes net.now }
{
    node.stands();
    observer.sees(rt, net, worker, node);
}

// A turn of a node, between the first and the last call of the gate. The observer sees the node before and after it.
// Returns whether the node did something, or the refusal that it remembers.
fn turn<J: Wiring, P: NodeProgram, G: Gate, O: Observer, R: Wait>(
    rt: &R,
    net: &Network,
    links: &Links<J, P>,
    gate: &G,
    observer: &O,
    worker: u32,
    node: &mut Node<J, P>,
) -> Result<bool, TurnRefused>
    requires network { J.net ≡ net.now }
    requires observed { O.observes net.now }
    ensures vertex { node.new.vertex ≡ node.old.vertex }
    ensures refusal { refusal_of node.new ≡ refusal_after (refusal_of node.old) result }
{
    gate.enter(rt, worker, node.vertex);
    show(rt, net, observer, worker, node);
    let turned = node.turn(rt, links, gate, worker);
    show(rt, net, observer, worker, node);
    gate.leave(rt, worker, node.vertex);
    turned
}

/// A turn of a node, as what it says to its worker: the run is to end if the turn was refused something, or if the node
/// has set a wire aside.
pub(crate) fn turn_of<J: Wiring, P: NodeProgram, G: Gate, O: Observer, R: Wait>(
    rt: &R,
    net: &Network,
    links: &Links<J, P>,
    gate: &G,
    observer: &O,
    worker: u32,
    node: &mut Node<J, P>,
) -> Turned
    requires network { J.net ≡ net.now }
    requires observed { O.observes net.now }
    ensures vertex { node.new.vertex ≡ node.old.vertex }
{
    let turned = turn(rt, net, links, gate, observer, worker, node);
    if turned.is_err() || node.aside.is_some() {
        return Turned::Ended;
    }
    if node.alpha.drained() {
        return Turned::Done;
    }
    match turned {
        Ok(true) => Turned::Moved,
        _ => Turned::Rested,
    }
}
