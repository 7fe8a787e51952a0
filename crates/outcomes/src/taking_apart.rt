//! A node after the run, and the nodes taken apart.

ghost use Rattle.std.specs.Prelude.{◌≡◌, ◌≤◌, [], IfOk, map, vec_capacity};
ghost use Rattle.entries.specs.Recorded.{entries_by};
ghost use Rattle.port_rows.specs.Rows.{rows_of};

use alpha_core::AlphaNode;
use entries::Entries;
use node_api::NodeProgram;
use std::alloc::{AllocError, Global};
use wired_nodes::{Node, NodeParts, WiredPut, WiredTake, Wiring};

/// A node after the run, with its vertex and its entries.
pub struct Actor<P: NodeProgram> {
    // In a box, which takes the memory that the box of the node has just freed: a list of these values themselves would
    // take as much memory again as all nodes.
    left: Box<ActorParts<P>>,
}

// What is left of a node that was taken apart.
#[derive(Drop)]
struct ActorParts<P: NodeProgram> {
    vertex: u32,
    alpha: AlphaNode<P>,
    entries: Entries<P::Payload>,
}

impl<P: NodeProgram> Drop for Actor<P> {
    fn drop(self) {
        let Actor { left: _ } = self;
    }
}

impl<P: NodeProgram> Actor<P> {
    /// Its vertex, from 1.
    pub fn node(&self) -> u32
        ensures vertex { result ≡ self.now.left.value.vertex }
    {
        self.left.vertex
    }

    /// Its node under the synchroniser.
    pub fn alpha(&self) -> &AlphaNode<P>
        ensures alpha { result.now ≡ self.now.left.value.alpha }
    {
        &self.left.alpha
    }

    /// What it did, in order, each entry with its stamp; empty without a transcript.
    pub fn entries(&self) -> &Entries<P::Payload>
        ensures entries { result.now ≡ self.now.left.value.entries }
    {
        &self.left.entries
    }
}

/// The nodes of a run, and the ends that they had, each by vertex and port.
#[derive(Drop)]
pub struct NodesAndEnds<J: Wiring, P: NodeProgram> {
    pub actors: Vec<Actor<P>>,
    pub puts: Vec<Vec<WiredPut<J, P::Payload>>>,
    pub takes: Vec<Vec<WiredTake<J, P::Payload>>>,
}

// No nodes and no ends, with room for `count` nodes and their ends.
fn none_yet<J: Wiring, P: NodeProgram>(
    alloc: Global,
    count: usize,
) -> Result<NodesAndEnds<J, P>, AllocError>
    ensures actors { IfOk result (λ all. (all.actors.items ≡ []) × (count ≤ vec_capacity all.actors)) }
    ensures puts { IfOk result (λ all. (all.puts.items ≡ []) × (count ≤ vec_capacity all.puts)) }
    ensures takes { IfOk result (λ all. (all.takes.items ≡ []) × (count ≤ vec_capacity all.takes)) }
{
    let actors = Vec::with_capacity(alloc, count)?;
    let puts = Vec::with_capacity(alloc, count)?;
    let takes = Vec::with_capacity(alloc, count)?;
    Ok(NodesAndEnds {
        actors,
        puts,
        takes,
    })
}

/// The nodes without their ends, and the ends, in the order of the nodes.
///
/// # Errors
///
/// `AllocError` if memory is refused.
pub fn split_ends<J: Wiring, P: NodeProgram>(
    alloc: Global,
    nodes: Vec<Box<Node<J, P>>>,
) -> Result<NodesAndEnds<J, P>, AllocError>
    ensures vertices { IfOk result
        (λ both. map (λ a. a.left.value.vertex) both.actors.items ≡ map (λ b. b.value.vertex) nodes.items) }
    ensures alphas { IfOk result
        (λ both. map (λ a. a.left.value.alpha) both.actors.items ≡ map (λ b. b.value.alpha) nodes.items) }
    ensures entries { IfOk result
        (λ both. map (λ a. a.left.value.entries.items) both.actors.items
        ≡ map (λ b. entries_by b.value.recorder) nodes.items) }
    ensures puts { IfOk result
        (λ both. rows_of both.puts.items ≡ map (λ b. b.value.puts.items) nodes.items) }
    ensures takes { IfOk result
        (λ both. rows_of both.takes.items ≡ map (λ b. b.value.takes.items) nodes.items) }
{
    let mut all = none_yet(alloc, nodes.len())?;
    for node in nodes {
        let NodeParts {
            vertex,
            puts,
            takes,
            alpha,
            recorder,
        } = Box::into_inner(node).into_parts();
        let entries = recorder.into_entries(alloc);
        let left = Box::new(
            alloc,
            ActorParts {
                vertex,
                alpha,
                entries,
            },
        )?;
        all.actors.push_reserved(Actor { left });
        all.puts.push_reserved(puts);
        all.takes.push_reserved(takes);
    }
    Ok(all)
}
