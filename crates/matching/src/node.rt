//! A node, as a program of nodes.

ghost use Rattle.std.specs.Prelude.{◌≡◌, ◌<◌, ◌^◌, IfSome, IsTrue, length, map};
ghost use Rattle.std.specs.Option.{option_or};
ghost use Rattle.node_api.specs.Boxes.{nothing};
ghost use Rattle.node_api.specs.First.{first_came};
ghost use Rattle.colour_rules.specs.Node.{ports};
ghost use Rattle.matching.specs.Knowing.{is_turn, offered, takes, tells_free, took, turned};

use crate::proposal::Proposal;
use colour_program::Colouring;
use colour_rules::{ColourNode, FIRST_MERGE, Payload};
use followed::{Followed, Said, Sequel};
use forests::Role;
use interference::{Memory, Network};
use node_api::{Inbox, Outbox, Refused};
use std::alloc::Global;
use std::marker::Model;

/// What a node has beside its colours: the port that leads to its partner, which contracts see.
#[derive(Drop)]
pub struct Turns {
    partner: Option<u32>,
}

/// A node that finds a partner.
pub type Matching = Followed<Colouring, Turns>;

impl Model for Turns {
    ghost use Rattle.std.specs.Prelude.{ℕ, Option};

    ghost Value = { Option ℕ };

    ghost view = { λ a. a.partner };
}

// The first port at which something came.
fn first_port(inbox: &Inbox<Said<Payload, Proposal>>) -> Option<u32>
    ensures first { result ≡ first_came inbox.now.slots }
    ensures within { IfSome result (λ port. port < length inbox.now.slots) }
{
    let mut reader = inbox.reader();
    if !reader.has_next() {
        return None;
    }
    let _payload = reader.next();
    Some(reader.sender())
}

// A free node tells its parent in a forest that it is free.
fn tell_free(node: &ColourNode, forest: u32, out: &mut Outbox<Said<Payload, Proposal>>)
    requires { out.old ≡ nothing (ports node.now) }
    ensures { out.new ≡ map (tells_free forest) node.now.roles }
{
    for port in 0..node.degree() {
        if let Role::Up(up) = node.role(port) {
            if u32::from(up) == forest {
                out.send(port, Said::Then(Proposal::Free(up)));
            }
        }
    }
}

// Whether it is the turn of a node's colour in a forest.
fn is_turn(node: &ColourNode, forest: u32, colour: u32) -> bool
    ensures turn { result ≡ is_turn node.now forest colour }
    ensures forest { IsTrue result → forest < 2 ^ 16 }
{
    forest < u32::from(node.forests()) && node.forest_colour(forest as u16) == u128::from(colour)
}

impl Turns {
    /// The port, from 0, that leads to the node's partner, if it has one.
    pub fn partner(&self) -> Option<u32>
        ensures { result ≡ self.now }
    {
        self.partner
    }

    // The first pulse of a turn.
    fn offer(
        &mut self,
        node: &ColourNode,
        forest: u32,
        came: Option<u32>,
        out: &mut Outbox<Said<Payload, Proposal>>,
    )
        requires out { out.old ≡ nothing (ports node.now) }
        ensures node { (self.new, out.new) ≡ offered node.now (option_or self.old came) forest }
    {
        self.partner = self.partner.or(came);
        if self.partner.is_none() {
            tell_free(node, forest, out);
        }
    }

    // The port of the child that the node takes.
    fn taken(&self, node: &ColourNode, forest: u32, colour: u32, came: Option<u32>) -> Option<u32>
        requires came { IfSome came (λ port. port < ports node.now) }
        ensures child { result ≡ takes node.now self.now forest colour came }
        ensures within { IfSome result (λ port. (port < ports node.now) × (forest < 2 ^ 16)) }
    {
        if is_turn(node, forest, colour) && self.partner.is_none() {
            came
        } else {
            None
        }
    }

    // The second pulse of a turn, by whom the node takes.
    fn take(
        &mut self,
        node: &ColourNode,
        forest: u32,
        child: Option<u32>,
        out: &mut Outbox<Said<Payload, Proposal>>,
    )
        requires out { out.old ≡ nothing (ports node.now) }
        requires within { IfSome child (λ port. (port < ports node.now) × (forest < 2 ^ 16)) }
        ensures node { (self.new, out.new) ≡ took node.now self.old forest child }
    {
        let _node = node;
        self.partner = self.partner.or(child);
        if let Some(port) = child {
            out.send(port, Said::Then(Proposal::Take(forest as u16)));
        }
    }
}

impl Sequel<Colouring> for Turns {
    ghost use Rattle.std.proofs.Common.{refl};
    ghost use Rattle.colour_rules.specs.Program.{colouring};
    ghost use Rattle.colour_laws.proofs.Rounds.{rounds_are_program};
    ghost use Rattle.matching.specs.Knowing.{turns};
    ghost use Rattle.matching.specs.ProgramLaws.{turns_laws};

    type Payload = Proposal;

    ghost before = { colouring };

    ghost before_laws = { rounds_are_program };

    ghost sequel = { turns };

    ghost laws = { turns_laws };

    fn until(&self) -> u32 {
        FIRST_MERGE - 1
    }

    fn last_pulse(net: &Network) -> u32 {
        FIRST_MERGE + 6 * net.forest_count()
    }

    fn begin(_alloc: Global, _net: &Network, _v: u32) -> Result<Turns, Memory> {
        Ok(Turns { partner: None })
    }

    fn pulse(
        &mut self,
        first: &Colouring,
        pulse: u32,
        inbox: &Inbox<Said<Payload, Proposal>>,
        out: &mut Outbox<Said<Payload, Proposal>>,
    ) -> Result<(), Refused> {
        let came = first_port(inbox);
        if pulse % 2 == 0 {
            self.offer(first.node(), pulse / 6, came, out);
        } else {
            let child = self.taken(first.node(), pulse / 6, pulse % 6 / 2, came);
            self.take(first.node(), pulse / 6, child, out);
        }
        Ok(())
    }

    ghost same = { refl };
}
