//! A program whose working space counts the engine's calls.
ghost use Rattle.std.specs.Prelude.{◌≡◌};

use interference::{Memory, Network};
use node_api::{Inbox, NodeProgram, Outbox, Refused};
use std::alloc::Global;
use std::marker::Model;
use sync_rounds::{Best, Greatest};

/// `Greatest<D>`, and whether each pulse from 1 on called `pre_step`, `handle_messages` and `post_step`
/// once, in this order and with the pulse's number.
#[derive(Drop)]
pub struct Counted<const D: u32> {
    greatest: Greatest<D>,
    // Working space, which contracts don't see.
    calls: u32,
    in_order: bool,
}

impl<const D: u32> Model for Counted<D> {
    ghost use Rattle.sync_rounds.specs.Greatest.{Known};

    ghost Value = { Known };

    ghost view = { λ a. a.greatest };
}

impl<const D: u32> Counted<D> {
    /// How many calls there were, or none if one came out of order or with another number.
    pub fn calls(&self) -> Option<u32> {
        if self.in_order {
            Some(self.calls)
        } else {
            None
        }
    }

    // Counts a call of a pulse: the first, second or third (0 to 2).
    fn count(&mut self, pulse: u32, which: u32)
        ensures same { self.new ≡ self.old }
    {
        let due = self.calls / 3 + 1 == pulse && self.calls % 3 == which;
        self.in_order = self.in_order && due;
        self.calls = self.calls.wrapping_add(1);
    }
}

impl<const D: u32> NodeProgram for Counted<D> {
    ghost use Rattle.sync_rounds.specs.Spread.{spread};
    ghost use Rattle.sync_rounds.specs.SpreadLaws.{spread_laws};

    type Payload = Best;

    ghost program = { spread D };

    ghost laws = { spread_laws D };

    fn last_pulse(net: &Network) -> u32 {
        Greatest::<D>::last_pulse(net)
    }

    fn make(alloc: Global, net: &Network, v: u32) -> Result<Self, Memory> {
        let greatest = Greatest::<D>::make(alloc, net, v)?;
        Ok(Counted {
            greatest,
            calls: 0,
            in_order: true,
        })
    }

    fn init(&mut self, out: &mut Outbox<Best>) {
        self.greatest.init(out);
    }

    fn pre_step(&mut self, pulse: u32) {
        self.count(pulse, 0);
    }

    fn handle_messages(
        &mut self,
        pulse: u32,
        inbox: &mut Inbox<Best>,
        out: &mut Outbox<Best>,
    ) -> Result<(), Refused> {
        self.count(pulse, 1);
        self.greatest.handle_messages(pulse, inbox, out)
    }

    fn post_step(&mut self, pulse: u32) {
        self.count(pulse, 2);
    }
}
