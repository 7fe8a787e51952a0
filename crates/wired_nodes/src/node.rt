//! A node with its ends.

ghost use Rattle.std.specs.Prelude.{◌≡◌, ◌<◌, [], All, IfOk, None, map};
ghost use Rattle.std.proofs.Props.{props};
ghost use Rattle.interference.specs.Net.{IsVertex};
ghost use Rattle.alpha_core.specs.Program.{start_node};
ghost use Rattle.link_queue.specs.Ends.{put_list, taken_list};
ghost use Rattle.wired_nodes.specs.Kept.{IsKept};
ghost use Rattle.wired_nodes.specs.Node.{links_in, links_out};
ghost use Rattle.wired_nodes.specs.Props.{Follows-prop, HasStamps-prop, Leads-prop};
ghost use Rattle.wired_nodes.specs.Remembered.{RemembersFull};

use crate::aside::Aside;
use crate::refused::TurnRefused;
use crate::wired::{WiredPut, WiredTake};
use crate::wiring::Wiring;
use alpha_core::{AlphaNode, Counter};
use entries::Recorder;
use interference::{Memory, Network};
use node_api::NodeProgram;
use std::alloc::Global;

/// A node of a run, with the ends of its links by port. A node that has set a wire aside does nothing in a turn.
pub struct Node<J: Wiring, P: NodeProgram> {
    pub vertex: u32,
    pub degree: u32,
    // Why a turn of it ended early, if one did: that memory was refused, or else the last. Only `turn` writes it.
    pub(crate) refusal: Option<TurnRefused>,
    /// From which its events and the wires that it puts have their stamps.
    pub counter: Counter,
    pub puts: Vec<WiredPut<J, P::Payload>>,
    pub takes: Vec<WiredTake<J, P::Payload>>,
    pub alpha: AlphaNode<P>,
    // A turn reads little of these two, so they come after what it reads at each wire.
    pub aside: Option<Aside<P::Payload>>,
    /// What it wrote down of its events, if the run's nodes do.
    pub recorder: Recorder<P::Payload>,
    /// It keeps its links, and writes down what it does, if the run's nodes do.
    pub ghost kept: { IsKept P.program vertex degree aside alpha.last alpha.node puts.items takes.items
        recorder counter } by { Prim.hlevel (props, Follows-prop, Leads-prop, HasStamps-prop) },
    /// If it remembers that a turn was refused a stamp, it has come to the greatest.
    pub ghost remembers: { RemembersFull refusal counter aside },
}

impl<J: Wiring, P: NodeProgram> Drop for Node<J, P> {
    fn drop(self) {
        let Node {
            vertex: _,
            degree: _,
            refusal: _,
            counter: _,
            puts: _,
            takes: _,
            alpha: _,
            aside: _,
            recorder: _,
        } = self;
    }
}

/// What is left of a node of a run when it ends: all but what its turns kept.
pub struct NodeParts<J: Wiring, P: NodeProgram> {
    pub vertex: u32,
    pub puts: Vec<WiredPut<J, P::Payload>>,
    pub takes: Vec<WiredTake<J, P::Payload>>,
    pub alpha: AlphaNode<P>,
    pub recorder: Recorder<P::Payload>,
}

impl<J: Wiring, P: NodeProgram> Node<J, P> {
    /// The node of a vertex at pulse 0, with ends at which nothing was put or taken. Without a transcript nothing else
    /// of a node can return out-of-memory.
    ///
    /// # Errors
    ///
    /// `Memory` if memory is refused.
    pub fn start(
        alloc: Global,
        net: &Network,
        vertex: u32,
        puts: Vec<WiredPut<J, P::Payload>>,
        takes: Vec<WiredTake<J, P::Payload>>,
        transcript: bool,
    ) -> Result<Node<J, P>, Memory>
        requires network { J.net ≡ net.now }
        requires vertex { IsVertex net.now vertex }
        requires outs { map (λ e. (e.vertex, e.port)) puts.items ≡ links_out net.now vertex }
        requires ins { map (λ e. (e.vertex, e.port)) takes.items ≡ links_in net.now vertex }
        requires nothing_put { All (λ e. put_list e.end ≡ []) puts.items }
        requires transcript { J.transcript ≡ transcript }
        requires nothing_taken { All (λ e. taken_list e.end ≡ []) takes.items }
        ensures vertex { IfOk result (λ node. node.vertex ≡ vertex) }
        ensures first { IfOk result (λ node. node.alpha.node ≡ start_node P.program net.now vertex) }
        ensures refusal { IfOk result (λ node. node.refusal ≡ None) }
    {
        let alpha = AlphaNode::start(alloc, net, vertex)?;
        Ok(Node {
            vertex,
            degree: net.degree(vertex),
            refusal: None,
            counter: Counter::new(),
            puts,
            takes,
            alpha,
            aside: None,
            recorder: Recorder::new(alloc, transcript),
        })
    }

    /// Why a turn of the node ended early, if one did: that memory was refused, or else that a stamp was too great.
    pub fn refusal(&self) -> Option<TurnRefused>
        ensures refusal { result ≡ self.now.refusal }
    {
        self.refusal
    }

    /// The node taken apart. Its refusal, what a turn set aside, and its counter are dropped.
    pub fn into_parts(self) -> NodeParts<J, P>
        ensures vertex { result.vertex ≡ self.vertex }
        ensures puts { result.puts ≡ self.puts }
        ensures takes { result.takes ≡ self.takes }
        ensures alpha { result.alpha ≡ self.alpha }
        ensures recorder { result.recorder ≡ self.recorder }
    {
        let Node {
            vertex,
            puts,
            takes,
            alpha,
            recorder,
            degree: _,
            refusal: _,
            counter: _,
            aside: _,
        } = self;
        NodeParts {
            vertex,
            puts,
            takes,
            alpha,
            recorder,
        }
    }
}
