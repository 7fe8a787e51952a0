//! Where a node stands.

ghost use Rattle.wired_nodes.specs.Stands.{NodeDid, NodeStands};

use crate::node::Node;
use crate::wiring::Wiring;
use node_api::NodeProgram;

impl<J: Wiring, P: NodeProgram> Node<J, P> {
    /// Where the node stands, whoever holds it and at whatever moment of whatever run, ended or not. Its program is in
    /// the state of the synchronous run at its pulse, and it has taken the inboxes of the pulses before: see `Stands`
    /// of `alpha_laws`. Some entries lead to it from its start. The call does nothing: its contract is a law.
    pub fn stands(&self)
        ensures stands { NodeStands J.net self.now }
        ensures did { NodeDid J.net self.now }
    {}
}
