//! A node as what lies in the deques of workers.

use crate::node::Node;
use crate::wiring::Wiring;
use deque_rule::Task;
use node_api::NodeProgram;

/// A node's number is its vertex less one.
impl<J: Wiring, P: NodeProgram> Task for Node<J, P> {
    ghost use Rattle.std.specs.Prelude.{◌-◌};

    ghost number_of = { λ n. n.vertex - 1 };

    fn number(&self) -> usize {
        (self.vertex - 1) as usize
    }
}
