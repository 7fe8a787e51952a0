//! A node, as a program of nodes.

ghost use Rattle.std.specs.Prelude.{◌≡◌};

use crate::payload::Word;
use interference::{Memory, Network};
use node_api::{Inbox, NodeProgram, Outbox, Refused};
use std::alloc::Global;
use std::marker::Model;

/// A node. Contracts see what it knows, and how many ports it has.
#[derive(Drop)]
pub struct Silent {
    number: u32,
    degree: u32,
}

impl Model for Silent {
    ghost use Rattle.silent.specs.Knowing.{Known};

    ghost Value = { Known };

    ghost view = { λ a. record { number = a.number; degree = a.degree } };
}

impl Silent {
    /// What the node has found.
    pub fn number(&self) -> u32
        ensures { result ≡ self.now.number }
    {
        self.number
    }
}

impl NodeProgram for Silent {
    ghost use Rattle.silent.specs.Knowing.{silent};
    ghost use Rattle.silent.specs.ProgramLaws.{silent_laws};

    type Payload = Word;

    ghost program = { silent };

    ghost laws = { silent_laws };

    // Place 1: after how many pulses a node is done. It may depend on the sizes of the network alone.
    fn last_pulse(net: &Network) -> u32 {
        net.nodes()
    }

    // Place 2: what a node knows at first, of its own data.
    fn make(_alloc: Global, net: &Network, v: u32) -> Result<Self, Memory> {
        Ok(Silent {
            number: 0,
            degree: net.degree(v),
        })
    }

    // Place 3: what it sends at pulse 0. `out.broadcast(Word(self.number))` sends at every port.
    fn init(&mut self, _out: &mut Outbox<Word>) {}

    fn pre_step(&mut self, _pulse: u32) {}

    // Place 4: what it makes of an inbox, and sends. `let mut reader = inbox.reader();`, and then
    // `while reader.has_next() { let Word(x) = reader.next(); .. }`
    fn handle_messages(
        &mut self,
        _pulse: u32,
        _inbox: &mut Inbox<Word>,
        _out: &mut Outbox<Word>,
    ) -> Result<(), Refused> {
        Ok(())
    }

    fn post_step(&mut self, _pulse: u32) {}

    // A node that does nothing by itself, only if something comes, rests to the end.
    fn rests_until(&self, _pulse: u32) -> u32 {
        u32::MAX
    }
}
