//! A node with one neighbour, whose calls a test makes by hand.

ghost use Rattle.std.specs.Prelude.{◌≡◌, IfOk, length};
ghost use Rattle.interference.specs.Net.{IsVertex, degree_of};

use alpha_core::{AlphaNode, AlphaRefused};
use interference::{Memory, Network};
use node_api::NodeProgram;
use std::alloc::Global;
use wires::Wire;

/// What a test does with the node.
#[derive(Clone, Copy)]
pub enum Act<T> {
    /// Feeds it a wire by its port.
    Take(Wire<T>),
    /// Makes its next pulse.
    Pulse,
}

/// The node of a vertex that has one neighbour, in a box: to own a box costs less proof than to own what is in it.
pub fn leaf<P: NodeProgram>(
    alloc: Global,
    net: &Network,
    v: u32,
) -> Result<Box<AlphaNode<P>>, Memory>
    requires vertex { IsVertex net.now v }
    requires one { degree_of net.now v ≡ 1 }
    ensures one { IfOk result (λ node. length node.value.node.view.ports ≡ 1) }
{
    Ok(Box::new(alloc, AlphaNode::start(alloc, net, v)?)?)
}

/// What the node returns, or nothing if it isn't to be asked now.
pub fn ask<P: NodeProgram>(
    node: &mut AlphaNode<P>,
    act: Act<P::Payload>,
) -> Option<Result<(), AlphaRefused>>
    requires one { length node.old.node.view.ports ≡ 1 }
    ensures one { length node.new.node.view.ports ≡ 1 }
{
    match act {
        Act::Take(wire) if node.can_take() => Some(node.on_wire(0, wire)),
        Act::Pulse if node.can_pulse() => Some(node.pulse()),
        _ => None,
    }
}

/// Takes off the oldest wire that the node has to put.
pub fn put_next<P: NodeProgram>(node: &mut AlphaNode<P>) -> Option<Wire<P::Payload>>
    requires one { length node.old.node.view.ports ≡ 1 }
    ensures one { length node.new.node.view.ports ≡ 1 }
{
    let front = node.front(0);
    if front.is_some() {
        node.put_done(0);
    }
    front
}

/// What comes of some acts: what the node returned to each, and all wires that it put.
#[derive(Drop)]
pub struct Played<T> {
    pub answers: Vec<Option<Result<(), AlphaRefused>>>,
    pub put: Vec<Wire<T>>,
}

impl<T: Copy> Played<T> {
    /// Nothing was played yet.
    pub fn new(alloc: Global) -> Played<T> {
        Played {
            answers: Vec::new(alloc),
            put: Vec::new(alloc),
        }
    }
}

/// Makes some acts one after the other. After each the node puts its wires, of which it has four at most.
pub fn play<P: NodeProgram>(
    node: &mut AlphaNode<P>,
    acts: &[Act<P::Payload>],
    played: &mut Played<P::Payload>,
) -> Result<(), Memory>
    requires one { length node.old.node.view.ports ≡ 1 }
    ensures one { length node.new.node.view.ports ≡ 1 }
{
    for act in acts {
        played.answers.push(ask(node, *act))?;
        put_all(node, &mut played.put)?;
    }
    Ok(())
}

fn put_all<P: NodeProgram>(
    node: &mut AlphaNode<P>,
    put: &mut Vec<Wire<P::Payload>>,
) -> Result<(), Memory>
    requires one { length node.old.node.view.ports ≡ 1 }
    ensures one { length node.new.node.view.ports ≡ 1 }
{
    for _ in 0..4 {
        if let Some(wire) = put_next(node) {
            put.push(wire)?;
        }
    }
    Ok(())
}
