//! What a run of workers leaves.

ghost use Rattle.std.specs.Prelude.{◌≡◌, ◌≤◌, ◌<◌, ◌-◌, IfSome, length, map, slice_get};
ghost use Rattle.outcomes.specs.Meets.{history_of_met};
ghost use Rattle.outcomes.specs.Outcome.{all_drained, all_empty, is_whole, link_in, none_held, row_in};
ghost use Rattle.outcomes.specs.Gathers.{gathered_of};

use crate::taking_apart::Actor;
use link_queue::Met;
use node_api::NodeProgram;
use std::marker::Model;

/// What a run of workers leaves: every node, ascending by vertex, and every link with what it still holds.
pub struct Outcome<P: NodeProgram> {
    pub(crate) actors: Vec<Actor<P>>,
    // Row v - 1 has the links out of vertex v, by port.
    pub(crate) links: Vec<Vec<Met<P::Payload>>>,
}

impl<P: NodeProgram> Drop for Outcome<P> {
    fn drop(self) {
        let Outcome {
            actors: _,
            links: _,
        } = self;
    }
}

impl<P: NodeProgram> Model for Outcome<P> {
    ghost use Rattle.std.specs.Prelude.{map};
    ghost use Rattle.outcomes.specs.Meets.{history_of_met};
    ghost use Rattle.outcomes.specs.Outcome.{Outcome};
    ghost use Rattle.outcomes.specs.Gathers.{gathered_of};

    ghost Value = { Outcome P P.Payload };

    ghost view = { λ o. record {
      nodes = map gathered_of o.actors.items;
      links = map (λ row. map history_of_met row.items) o.links.items;
    } };
}

impl<P: NodeProgram> Outcome<P> {
    /// Every node, once, ascending by vertex.
    pub fn actors(&self) -> &[Actor<P>]
        ensures nodes { map gathered_of result.now ≡ self.now.nodes }
    {
        self.actors.as_slice()
    }

    /// Every node, once, ascending by vertex; the links are dropped.
    pub fn into_actors(self) -> Vec<Actor<P>>
        ensures nodes { map gathered_of result.items ≡ self.nodes }
    {
        let Outcome { actors, links: _ } = self;
        actors
    }

    /// The link out of a vertex by a port.
    pub fn link(&self, vertex: u32, port: u32) -> &Met<P::Payload>
        requires vertex { (1 ≤ vertex) × (vertex ≤ length self.now.links) }
        requires port { port < length (row_in self.now vertex) }
        ensures link { history_of_met result.now ≡ link_in self.now vertex port }
    {
        &self.links[(vertex - 1) as usize][port as usize]
    }

    /// The pulse of the node of a vertex.
    pub fn pulses(&self, vertex: u32) -> u32
        requires vertex { (1 ≤ vertex) × (vertex ≤ length self.now.nodes) }
        ensures pulse { IfSome (slice_get self.now.nodes (vertex - 1)) (λ g. result ≡ g.alpha.node.view.pulse) }
    {
        self.actors[(vertex - 1) as usize].alpha().pulse_number()
    }

    // Whether every node is drained.
    fn all_drained(&self) -> bool
        ensures drained { result ≡ all_drained self.now.nodes }
    {
        for actor in self.actors.as_slice() {
            if !actor.alpha().drained() {
                return false;
            }
        }
        true
    }

    // Whether every link is empty.
    fn all_empty(&self) -> bool
        ensures empty { result ≡ all_empty self.now.links }
    {
        for row in self.links.as_slice() {
            if !none_held(row.as_slice()) {
                return false;
            }
        }
        true
    }

    /// Whether every node is drained, and every link is empty.
    pub fn is_whole(&self) -> bool
        ensures whole { result ≡ is_whole self.now }
    {
        self.all_drained() && self.all_empty()
    }
}

// Whether no link of a row holds a wire.
fn none_held<T>(row: &[Met<T>]) -> bool
    ensures empty { result ≡ none_held (map history_of_met row.now) }
{
    for met in row {
        if !met.held().is_empty() {
            return false;
        }
    }
    true
}
