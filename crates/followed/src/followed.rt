//! A program that is followed by a sequel.

ghost use Rattle.std.specs.Prelude.{◌≡◌};

use crate::hearing::{hear, tell};
use crate::rules::TOO_EARLY;
use crate::said::Said;
use crate::sequel::Sequel;
use crate::texts::SequelText;
use interference::{Memory, Network};
use node_api::{Inbox, NodeProgram, Outbox, Refused};
use program_texts::NamedText;
use std::alloc::{AllocError, Global};
use std::marker::Model;

/// A node of a program that is followed by a sequel. Contracts see its state of the first program, and what it has
/// beside.
#[derive(Drop)]
pub struct Followed<P: NodeProgram, R: Sequel<P>> {
    first: P,
    beside: R,
    degree: u32,
    // What the first program hears and sends at a pulse: empty between its pulses.
    inbox: Inbox<P::Payload>,
    out: Outbox<P::Payload>,
}

impl<P: NodeProgram, R: Sequel<P>> Model for Followed<P, R> {
    ghost use Rattle.followed.specs.Followed.{Both, HasFreeBoxes};

    ghost Value = { Both P R };

    ghost view = { λ a. record { first = a.first; beside = a.beside } };

    ghost invariant = { λ a. HasFreeBoxes (R.before.ports a.first) a.degree a.inbox a.out };
}

impl<P: NodeProgram, R: Sequel<P>> Followed<P, R> {
    /// The node's state of the first program.
    pub fn first(&self) -> &P
        ensures { result.now ≡ self.now.first }
    {
        &self.first
    }

    /// What it has beside.
    pub fn beside(&self) -> &R
        ensures { result.now ≡ self.now.beside }
    {
        &self.beside
    }
}

impl<P: NodeProgram, R: Sequel<P>> NodeProgram for Followed<P, R> {
    ghost use Rattle.followed.specs.Followed.{followed};
    ghost use Rattle.followed.specs.FollowedLaws.{followed_is_program};

    type Payload = Said<P::Payload, R::Payload>;

    ghost program = { followed R.before R.sequel };

    ghost laws = { followed_is_program R.before R.sequel R.before_laws R.laws };

    fn last_pulse(net: &Network) -> u32 {
        R::last_pulse(net)
    }

    fn make(alloc: Global, net: &Network, v: u32) -> Result<Self, Memory> {
        let degree = net.degree(v);
        let first = P::make(alloc, net, v)?;
        let beside = R::begin(alloc, net, v)?;
        let inbox = Inbox::new(alloc, degree)?;
        let out = Outbox::new(alloc, degree)?;
        Ok(Followed {
            first,
            beside,
            degree,
            inbox,
            out,
        })
    }

    fn init(&mut self, out: &mut Outbox<Self::Payload>) {
        self.first.init(&mut self.out);
        tell(self.degree, &mut self.out, out);
    }

    fn pre_step(&mut self, pulse: u32) {
        if pulse <= self.beside.until() {
            self.first.pre_step(pulse);
        }
    }

    fn handle_messages(
        &mut self,
        pulse: u32,
        inbox: &mut Inbox<Self::Payload>,
        out: &mut Outbox<Self::Payload>,
    ) -> Result<(), Refused> {
        let until = self.beside.until();
        if until < pulse {
            return self
                .beside
                .pulse(&self.first, pulse - until - 1, inbox, out);
        }
        if let Some(port) = hear(inbox, &mut self.inbox) {
            self.inbox.clear();
            return Err(Refused {
                rule: TOO_EARLY,
                port: Some(port),
            });
        }
        if let Err(refused) = self
            .first
            .handle_messages(pulse, &mut self.inbox, &mut self.out)
        {
            self.inbox.clear();
            return Err(refused);
        }
        self.inbox.clear();
        tell(self.degree, &mut self.out, out);
        Ok(())
    }

    fn post_step(&mut self, pulse: u32) {
        if pulse <= self.beside.until() {
            self.first.post_step(pulse);
        }
    }

    // Up to the cut the node rests while the first program does.
    fn rests_until(&self, pulse: u32) -> u32 {
        self.first.rests_until(pulse).min(self.beside.until())
    }
}

impl<P: NodeProgram, R: SequelText<P>> NamedText for Followed<P, R> {
    ghost words = { R.words };

    ghost are_named = { R.are_named };

    fn rounds_end() {
        R::rounds_end();
    }

    fn program_name() -> &'static str {
        R::program_name()
    }

    fn push_found(&self, text: &mut Vec<u8>) -> Result<(), AllocError> {
        self.beside.push_found(&self.first, text)
    }

    fn push_more(&self, text: &mut Vec<u8>, net: &Network, v: u32) -> Result<(), AllocError> {
        self.beside.push_more(&self.first, text, net, v)
    }
}
