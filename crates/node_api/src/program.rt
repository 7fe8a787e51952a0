//! Programs of nodes.

ghost use Rattle.std.specs.Prelude.{◌≡◌, ◌≤◌, IfOk, OnErr, length};
ghost use Rattle.interference.specs.Net.{Net, IsVertex};
ghost use Rattle.node_api.specs.Boxes.{nothing};
ghost use Rattle.node_api.specs.Program.{Program, Matches, RestsUntil, last_pulse_on, own_of};
ghost use Rattle.node_api.specs.Laws.{IsProgram};

use crate::inbox::Inbox;
use crate::outbox::Outbox;
use crate::payload::PayloadText;
use interference::{Memory, Network};
use std::alloc::Global;

/// Why a node refuses an inbox: the number of the rule that is broken, and the port (from 0) that breaks
/// it, if it is a rule of one port.
#[derive(Debug, Clone, Copy, PartialEq, Eq)]
pub struct Refused {
    pub rule: u16,
    pub port: Option<u32>,
}

/// A program that every node of a network runs, pulse by pulse.
///
/// At pulse 0 `init` is called. At each later pulse, up to the last, `pre_step`, `handle_messages` and
/// `post_step` are called in this order with the pulse's number, also if the inbox is empty; an engine may leave
/// out the calls of a pulse at which nothing came and the node rests (`rests_until`). No contract can say that an
/// engine calls `pre_step` and `post_step`; a test shows it of `run_rounds` and programs that never rest. Vertices
/// count from 1, ports and pulses from 0. The names of the calls are those of the simulator Sinalgo (ETH
/// Zurich); `rests_until` is ours.
pub trait NodeProgram: Sized + Drop + Send {
    ghost use Rattle.node_api.specs.declared.program.Refused.{Refused};

    /// What nodes send one another.
    type Payload: PayloadText;

    /// What the program means: its last pulse, a node's first state and messages, and its next ones.
    ghost program: { Program Self Self.Payload Refused };

    /// A node keeps its ports; on the synchronous run of every network nothing is refused, and nothing is
    /// sent at the last pulse.
    ghost laws: { IsProgram program };

    /// The pulse after which a node is done.
    fn last_pulse(net: &Network) -> u32
        ensures last { result ≡ last_pulse_on program net.now };

    /// The node of a vertex, before `init`.
    ///
    /// # Errors
    ///
    /// `Memory` if memory is refused. No other call of a program can return it.
    fn make(alloc: Global, net: &Network, v: u32) -> Result<Self, Memory>
        requires vertex { IsVertex net.now v }
        ensures made { IfOk result (λ node. node ≡ program.made (own_of net.now v)) };

    /// Sends the first messages, at pulse 0.
    fn init(&mut self, out: &mut Outbox<Self::Payload>)
        requires out { out.old ≡ nothing (program.ports self.old) }
        ensures node { (self.new, out.new) ≡ program.greet self.old };

    /// Prepares working space for a pulse; the state stays.
    fn pre_step(&mut self, pulse: u32)
        requires pulse { 1 ≤ pulse }
        ensures same { self.new ≡ self.old };

    /// Reads what came, changes the state and sends. A refusal leaves the state and the empty outbox.
    ///
    /// # Errors
    ///
    /// `Refused` if the inbox breaks a rule of the program. On the synchronous run none does.
    fn handle_messages(
        &mut self,
        pulse: u32,
        inbox: &mut Inbox<Self::Payload>,
        out: &mut Outbox<Self::Payload>,
    ) -> Result<(), Refused>
        requires rewound { inbox.old.cursor ≡ 0 }
        requires inbox { length inbox.old.slots ≡ program.ports self.old }
        requires out { out.old ≡ nothing (program.ports self.old) }
        ensures answer { Matches result (program.next self.old pulse inbox.old.slots) (self.new, out.new) }
        ensures refused { OnErr result ((self.new ≡ self.old) × (out.new ≡ out.old)) }
        ensures inbox { inbox.new.slots ≡ inbox.old.slots };

    /// Tidies working space after a pulse; the state stays.
    fn post_step(&mut self, pulse: u32)
        requires pulse { 1 ≤ pulse }
        ensures same { self.new ≡ self.old };

    /// The pulse before which the node, which has made `pulse`, rests: at the pulses between these two, both excluded,
    /// an empty inbox leaves its state, and nothing is sent. A program without a function of this name never rests.
    fn rests_until(&self, pulse: u32) -> u32
        ensures rests { RestsUntil program self.now pulse result }
    {
        let _ = pulse;
        0
    }
}
