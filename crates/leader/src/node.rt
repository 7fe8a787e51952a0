//! The election as a program of nodes.

ghost use Rattle.std.specs.Prelude.{◌≡◌};
ghost use Rattle.node_api.specs.Boxes.{nothing};
ghost use Rattle.leader.specs.Election.{sends};

use crate::candidate::Candidate;
use crate::hearing::greatest;
use interference::{Memory, Network};
use node_api::{Inbox, NodeProgram, Outbox, Refused};
use std::alloc::Global;
use std::marker::Model;

/// A node of the election. Contracts see the greatest identifier that it knows, how many ports it has, and its last
/// pulse.
#[derive(Drop)]
pub struct Leader {
    best: u128,
    degree: u32,
    last: u32,
}

impl Model for Leader {
    ghost use Rattle.leader.specs.Elector.{Elector};

    ghost Value = { Elector };

    ghost view = { λ a. record { best = a.best; degree = a.degree; last = a.last } };
}

impl Leader {
    /// The greatest identifier that the node knows, and once the rounds are over the leader of its component.
    pub fn best(&self) -> u128
        ensures { result ≡ self.now.best }
    {
        self.best
    }

    // Sends the greatest identifier to all neighbours, before the last pulse.
    fn send(&self, pulse: u32, out: &mut Outbox<Candidate>)
        requires out { out.old ≡ nothing self.now.degree }
        ensures sent { out.new ≡ sends pulse self.now }
    {
        if pulse < self.last {
            out.broadcast(Candidate(self.best));
        }
    }
}

impl NodeProgram for Leader {
    ghost use Rattle.leader.specs.Election.{election};
    ghost use Rattle.leader.specs.ElectionLaws.{election_is_program};

    type Payload = Candidate;

    ghost program = { election };

    ghost laws = { election_is_program };

    fn last_pulse(net: &Network) -> u32 {
        net.nodes()
    }

    fn make(_alloc: Global, net: &Network, v: u32) -> Result<Self, Memory> {
        Ok(Leader {
            best: net.id(v),
            degree: net.degree(v),
            last: net.nodes(),
        })
    }

    fn init(&mut self, out: &mut Outbox<Candidate>) {
        self.send(0, out);
    }

    fn pre_step(&mut self, _pulse: u32) {}

    fn handle_messages(
        &mut self,
        pulse: u32,
        inbox: &mut Inbox<Candidate>,
        out: &mut Outbox<Candidate>,
    ) -> Result<(), Refused> {
        let known = self.best;
        self.best = greatest(known, self.last, pulse, inbox)?;
        if known < self.best {
            self.send(pulse, out);
        }
        Ok(())
    }

    fn post_step(&mut self, _pulse: u32) {}

    fn rests_until(&self, _pulse: u32) -> u32 {
        u32::MAX
    }
}
