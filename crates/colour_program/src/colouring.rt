//! The colouring as a program of nodes.
ghost use Rattle.std.specs.Prelude.{◌≡◌, OnErr, length};
ghost use Rattle.node_api.specs.Boxes.{nothing};
ghost use Rattle.node_api.specs.Program.{Matches};
ghost use Rattle.colour_rules.specs.Node.{ports};
ghost use Rattle.colour_rules.specs.Program.{next};

use colour_rules::{ColourNode, FIRST_MERGE, IdlePulses, Payload};
use interference::{Memory, Network};
use node_api::{Inbox, NodeProgram, Outbox, Refused};
use std::alloc::Global;
use std::marker::Model;

/// A node of the colouring, as a program of nodes. Contracts see the `Node` of `colour_rules`.
pub struct Colouring {
    // The pulses of which the node knows already that it does nothing if nothing comes.
    idle: IdlePulses,
    node: ColourNode,
}

impl Drop for Colouring {
    fn drop(self) {
        let Colouring { idle: _, node: _ } = self;
    }
}

impl Model for Colouring {
    ghost use Rattle.colour_rules.specs.Node.{Node};
    ghost use Rattle.colour_rules.specs.Stored.{node_code};
    ghost use Rattle.colour_rules.specs.Idle.{IsWaiting};

    ghost Value = { Node };

    ghost coded = { node_code };

    ghost view = { λ a. a.node };

    ghost invariant = { λ a. IsWaiting a.node a.idle };
}

impl Colouring {
    /// The node's colour so far: the least that isn't barred before its first choice, and its colour once the rounds
    /// are over.
    pub fn colour(&self) -> u16
        ensures { result ≡ self.now.merged }
    {
        self.node.colour()
    }

    // A pulse of which the node hasn't only to hear. Never inlined, so that an engine's loop has nothing of it but the
    // call.
    #[inline(never)]
    fn take_pulse(
        &mut self,
        pulse: u32,
        inbox: &Inbox<Payload>,
        out: &mut Outbox<Payload>,
    ) -> Result<(), Refused>
        requires inbox { length inbox.now.slots ≡ ports self.old }
        requires out { out.old ≡ nothing (ports self.old) }
        ensures answer { Matches result (next self.old pulse inbox.now.slots) (self.new, out.new) }
        ensures refused { OnErr result ((self.new ≡ self.old) × (out.new ≡ out.old)) }
    {
        self.idle = self.node.pulse(pulse, inbox, out)?;
        Ok(())
    }

    /// The node of the colouring.
    pub fn node(&self) -> &ColourNode
        ensures { result.now ≡ self.now }
    {
        &self.node
    }
}

impl NodeProgram for Colouring {
    ghost use Rattle.colour_rules.specs.Program.{colouring};
    ghost use Rattle.colour_laws.proofs.Rounds.{rounds_are_program};

    type Payload = Payload;

    ghost program = { colouring };

    ghost laws = { rounds_are_program };

    fn last_pulse(net: &Network) -> u32 {
        FIRST_MERGE - 1
            + net.forest_count() * (3 * (net.greatest_degree() + net.greatest_bars() + 1))
    }

    fn make(alloc: Global, net: &Network, v: u32) -> Result<Self, Memory> {
        let node = ColourNode::make(alloc, net, v)?;
        Ok(Colouring {
            idle: IdlePulses::none(),
            node,
        })
    }

    fn init(&mut self, out: &mut Outbox<Payload>) {
        self.node.greet(out);
    }

    fn pre_step(&mut self, _pulse: u32) {}

    fn handle_messages(
        &mut self,
        pulse: u32,
        inbox: &mut Inbox<Payload>,
        out: &mut Outbox<Payload>,
    ) -> Result<(), Refused> {
        if self.node.hear(self.idle, pulse, inbox) {
            return Ok(());
        }
        self.take_pulse(pulse, inbox, out)
    }

    fn post_step(&mut self, _pulse: u32) {}

    fn rests_until(&self, pulse: u32) -> u32 {
        if self.idle.from <= pulse.saturating_add(1) {
            self.idle.to
        } else {
            0
        }
    }
}
