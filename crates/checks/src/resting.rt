//! A program that rests from its first pulse on, but for the node of vertex 1. Its working space counts the engine's
//! calls.
ghost use Rattle.std.specs.Prelude.{◌≡◌};

use interference::{Memory, Network};
use node_api::{Inbox, NodeProgram, Outbox, Refused};
use silent::Word;
use std::alloc::Global;
use std::marker::Model;

/// `Silent`, and how many pulses the engine called it for.
#[derive(Drop)]
pub struct Resting {
    degree: u32,
    // Working space, which contracts don't see.
    calls: u32,
    rests: bool,
}

impl Model for Resting {
    ghost use Rattle.silent.specs.Knowing.{Known};

    ghost Value = { Known };

    ghost view = { λ a. record { number = 0; degree = a.degree } };
}

impl Resting {
    /// How many pulses the engine called it for.
    pub fn calls(&self) -> u32 {
        self.calls
    }
}

impl NodeProgram for Resting {
    ghost use Rattle.silent.specs.Knowing.{silent};
    ghost use Rattle.silent.specs.ProgramLaws.{silent_laws};

    type Payload = Word;

    ghost program = { silent };

    ghost laws = { silent_laws };

    fn last_pulse(net: &Network) -> u32 {
        net.nodes()
    }

    fn make(_alloc: Global, net: &Network, v: u32) -> Result<Self, Memory> {
        Ok(Resting {
            degree: net.degree(v),
            calls: 0,
            rests: v != 1,
        })
    }

    fn init(&mut self, _out: &mut Outbox<Word>) {}

    fn pre_step(&mut self, _pulse: u32) {}

    fn handle_messages(
        &mut self,
        _pulse: u32,
        _inbox: &mut Inbox<Word>,
        _out: &mut Outbox<Word>,
    ) -> Result<(), Refused> {
        self.calls = self.calls.saturating_add(1);
        Ok(())
    }

    fn post_step(&mut self, _pulse: u32) {}

    fn rests_until(&self, _pulse: u32) -> u32 {
        if self.rests { u32::MAX } else { 0 }
    }
}
