//! A node of the colouring: making it and its greeting.
ghost use Rattle.std.specs.Prelude.{◌≡◌, IfOk};
ghost use Rattle.interference.specs.Net.{IsVertex};
ghost use Rattle.node_api.specs.Boxes.{nothing};
ghost use Rattle.node_api.specs.Program.{own_of};
ghost use Rattle.colour_rules.specs.Node.{greet, made, ports};

use crate::colours::InForests;
use crate::numbers::Long;
use crate::payload::Payload;
use crate::taken::TakenColours;
use cole_vishkin::Identifier;
use forests::Role;
use interference::{Memory, Network};
use node_api::Outbox;
use std::alloc::Global;
use std::marker::Model;

/// A node of the colouring. Contracts see the `Node` of `specs/Node.antt`.
#[derive(Drop)]
pub struct ColourNode {
    pub(crate) id: Identifier,
    pub(crate) nodes: u32,
    pub(crate) greatest_degree: u16,
    pub(crate) greatest_bars: u16,
    pub(crate) forests: u16,
    // The merged colour before the forest that is being merged, and now: 0 to the span.
    pub(crate) colour_before: u16,
    pub(crate) merged: u16,
    // By port. A known role names one of the forests.
    pub(crate) roles: Vec<Role>,
    // The colours before the last shift are 0 to 5.
    pub(crate) colours: InForests,
    // With room for the colours 0 to the span. Of these the barred ones leave one free.
    pub(crate) taken: TakenColours,
}

impl Model for ColourNode {
    ghost use Rattle.std.specs.Prelude.{◌<◌};
    ghost use Rattle.node_api.specs.Program.{Sizes, span};
    ghost use Rattle.colour_rules.specs.InForests.{before_in, colours_in};
    ghost use Rattle.colour_rules.specs.Node.{IsNode, Node};
    ghost use Rattle.colour_rules.specs.Stored.{node_code};
    ghost use Rattle.colour_rules.specs.Taken.{barred_in, chosen_in, room_of};

    ghost Value = { Node };

    ghost coded = { node_code };

    ghost view = { λ a. record {
      id = a.id;
      sizes = record {
        nodes = a.nodes;
        greatest_degree = a.greatest_degree;
        greatest_bars = a.greatest_bars;
        forests = a.forests;
      };
      roles = a.roles.items;
      colours = colours_in a.id a.colours;
      before = before_in a.colours;
      colour_before = a.colour_before;
      merged = a.merged;
      chosen = chosen_in a.taken;
      barred = barred_in a.taken;
    } };

    ghost invariant = { λ a.
        let sizes : Sizes = record {
          nodes = a.nodes;
          greatest_degree = a.greatest_degree;
          greatest_bars = a.greatest_bars;
          forests = a.forests;
        } in
        IsNode sizes a.roles.items (colours_in a.id a.colours) (before_in a.colours) a.colour_before a.merged
        (barred_in a.taken)
        × (span sizes < room_of a.taken) };
}

impl ColourNode {
    /// The node of vertex `v`, before it greets: every role is unknown, its merged colour is the least that
    /// isn't barred, every other colour is 0, and nothing is chosen.
    ///
    /// # Errors
    ///
    /// `Memory` if there is none for its lists.
    pub fn make(alloc: Global, net: &Network, v: u32) -> Result<ColourNode, Memory>
        requires { IsVertex net.now v }
        ensures { IfOk result (λ node. node ≡ made (own_of net.now v)) }
    {
        let nodes = net.nodes();
        let degree = net.degree(v) as usize;
        let greatest_degree = net.greatest_degree() as u16;
        let greatest_bars = net.greatest_bars() as u16;
        let span = greatest_degree + greatest_bars;
        let forests = net.forest_count() as u16;
        let roles = vec![in alloc; Role::Unknown; degree]?;
        let colours = InForests::make(alloc, forests)?;
        let taken = TakenColours::make(alloc, net.bars(v), span)?;
        Ok(ColourNode {
            id: net.id(v),
            nodes,
            greatest_degree,
            greatest_bars,
            forests,
            roles,
            colours,
            colour_before: 0,
            merged: taken.least_free(span),
            taken,
        })
    }

    /// Pulse 0: sends every neighbour the node's identifier.
    pub fn greet(&mut self, out: &mut Outbox<Payload>)
        requires { out.old ≡ nothing (ports self.old) }
        ensures { (self.new, out.new) ≡ greet self.old }
    {
        out.broadcast(Payload::Hello(Long::new(self.id)));
    }

    /// The node's colour so far: the least that isn't barred before its first choice, and its colour once the
    /// rounds are over.
    pub fn colour(&self) -> u16
        ensures { result ≡ self.now.merged }
    {
        self.merged
    }
}
