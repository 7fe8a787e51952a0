//! Who sees the nodes of a run while it goes on.

ghost use Rattle.wired_nodes.specs.Stands.{NodeDid, NodeStands};

use crate::node::Node;
use crate::wiring::Wiring;
use interference::Network;
use node_api::NodeProgram;
use std::sync::Wait;

/// What a worker (from 0) calls with a node that it has in hand, before and after each of its turns.
pub trait Observer {
    ghost use Rattle.interference.specs.Net.{Net};

    /// The networks of whose runs it may be shown nodes.
    ghost observes: { Net → Type 0 };

    /// Sees a node of a run on the network. In every run, whether or not it ends, and whether or not a turn was refused
    /// something, the node stands where the synchronous run of its program has it, and some entries lead to it from its
    /// start.
    fn sees<J: Wiring, P: NodeProgram, R: Wait>(
        &self,
        rt: &R,
        network: &Network,
        worker: u32,
        node: &Node<J, P>,
    )
        requires observed { observes network.now }
        requires stands { NodeStands network.now node.now }
        requires did { NodeDid network.now node.now };
}

/// Nobody: an observer that does nothing.
pub struct Unobserved;

impl Observer for Unobserved {
    ghost observes = { λ network. Unit {0} };

    fn sees<J: Wiring, P: NodeProgram, R: Wait>(
        &self,
        _rt: &R,
        network: &Network,
        _worker: u32,
        node: &Node<J, P>,
    )
        requires stands { NodeStands network.now node.now }
        requires did { NodeDid network.now node.now }
    {}
}
