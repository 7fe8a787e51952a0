//! The state of a network, as it is read.

ghost use Rattle.std.specs.Prelude.{◌≡◌, ◌<◌, IfOk, length};
ghost use Rattle.interference.specs.Net.{IsNetwork, IsVertex, degree_of, vertices};
ghost use Rattle.node_api.specs.Program.{last_pulse_on};
ghost use Rattle.event_rule.specs.Simulation.{IsReachable, IsSimulation};
ghost use Rattle.event_rule.specs.State.{link_at, node_of, start, started_nodes};

use crate::links::Links;
use alpha_core::AlphaNode;
use interference::{Memory, Network};
use node_api::NodeProgram;
use std::alloc::Global;
use std::marker::Model;
use wires::Wire;

/// A network of nodes under synchroniser alpha, in a state that some list of events reaches. Contracts see
/// its network and the state.
///
/// It keeps a copy of the network, each node, and of each direction of a link the wires put and how many of
/// them were taken.
pub struct NetState<P: NodeProgram> {
    pub(crate) net: Network,
    // Entry v - 1 is of vertex v.
    pub(crate) nodes: Vec<AlphaNode<P>>,
    pub(crate) links: Links<P::Payload>,
}

impl<P: NodeProgram> Drop for NetState<P> {
    fn drop(self) {
        let NetState {
            net: _,
            nodes: _,
            links: _,
        } = self;
    }
}

impl<P: NodeProgram> Model for NetState<P> {
    ghost use Rattle.event_rule.specs.State.{NetView, state_in};
    ghost use Rattle.event_rule.specs.Simulation.{IsNetState};

    ghost Value = { NetView P P.Payload };

    ghost view = { λ a. record { net = a.net; state = state_in a.nodes.items a.links } };

    ghost invariant = { λ a. IsNetState P.program a.net a.nodes.items a.links };
}

/// The nodes of a network at pulse 0, by vertex.
fn started_nodes<P: NodeProgram>(alloc: Global, net: &Network) -> Result<Vec<AlphaNode<P>>, Memory>
    ensures nodes { IfOk result (λ nodes. nodes.items ≡ started_nodes P.program net.now (vertices net.now)) }
    ensures network { IsNetwork net.now }
{
    let mut nodes = Vec::with_capacity(alloc, net.nodes() as usize)?;
    for i in 0..net.nodes() {
        let node = AlphaNode::start(alloc, net, i + 1)?;
        nodes.push_reserved(node);
    }
    Ok(nodes)
}

impl<P: NodeProgram> NetState<P> {
    /// The start: each node at pulse 0 with its first wires in its out-lists, and nothing put on any link.
    ///
    /// # Errors
    ///
    /// `Memory` if memory is refused.
    pub fn start(alloc: Global, net: &Network) -> Result<NetState<P>, Memory>
        ensures start { IfOk result (λ view. view ≡ record { net = net.now; state = start P.program net.now }) }
        ensures simulates { IfOk result (λ view. IsSimulation P.program view.net view.state) }
    {
        let nodes = started_nodes(alloc, net)?;
        let links = Links::new(alloc, net)?;
        let net = net.copy(alloc)?;
        Ok(NetState { net, nodes, links })
    }

    /// Gives callers what holds of every `NetState`: some list of events reaches its state, and there the nodes
    /// simulate the synchronous run.
    pub fn is_simulation(&self)
        ensures reached { IsReachable P.program self.now.net self.now.state }
        ensures simulates { IsSimulation P.program self.now.net self.now.state }
    {
        let _ = &self.net;
    }

    /// The pulse of a vertex.
    pub fn pulse_of(&self, v: u32) -> u32
        requires vertex { IsVertex self.now.net v }
        ensures pulse { result ≡ (node_of P.program self.now.net self.now.state v).view.pulse }
    {
        self.node(v).pulse_number()
    }

    /// The node of a vertex.
    pub fn node(&self, v: u32) -> &AlphaNode<P>
        requires vertex { IsVertex self.now.net v }
        ensures node { result.now.node ≡ node_of P.program self.now.net self.now.state v }
        ensures last { result.now.last ≡ last_pulse_on P.program self.now.net }
    {
        &self.nodes[(v - 1) as usize]
    }

    /// How many wires the link out of a vertex by a port holds: those put and not taken.
    pub fn waiting(&self, v: u32, port: u32) -> usize
        requires vertex { IsVertex self.now.net v }
        requires port { port < degree_of self.now.net v }
        ensures waiting { result ≡ length (link_at self.now.state.links v port).held }
    {
        self.links.waiting(v, port)
    }

    /// How many wires were taken from the link out of a vertex by a port, and those that it holds, oldest
    /// first.
    pub fn link(&self, v: u32, port: u32) -> (usize, &[Wire<P::Payload>])
        requires vertex { IsVertex self.now.net v }
        requires port { port < degree_of self.now.net v }
        ensures taken { result.0 ≡ length (link_at self.now.state.links v port).taken }
        ensures held { result.1.now ≡ (link_at self.now.state.links v port).held }
    {
        self.links.parts(v, port)
    }

    /// The network.
    pub fn network(&self) -> &Network
        ensures network { result.now ≡ self.now.net }
    {
        &self.net
    }
}
