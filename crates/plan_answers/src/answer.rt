//! The answer of each command to the bytes of a text.

ghost use Rattle.std.specs.Prelude.{◌≡◌, IfOk, IfErr};
ghost use Rattle.std.specs.List.{range_with_len};
ghost use Rattle.graph_limits.specs.Pairs.{AreVertices};
ghost use Rattle.dimacs_col.specs.Reading.{graph_of};
ghost use Rattle.interference.specs.Making.{BarsFit, EdgesFit, IsFaultOf};
ghost use Rattle.interference.specs.Net.{IsNetwork};
ghost use Rattle.plan_answers.specs.Answers.{IsFaultOfText, IsForestsAnswer, IsPlainAnswer, ReadsAs};
ghost use Rattle.plan_answers.specs.Answers.{identifiers_with, network_with};

use crate::colours_text::text_of_plan;
use crate::fault::PlanFault;
use crate::forests_text::text_of_forests;
use colour_laws::laws::colours_are_proper;
use dimacs_col::{ColFile, read};
use interference::{NetFault, Network};
use std::alloc::{AllocError, Global};

// The numbers 1 to n.
#[tactic(auto, using(crate::proofs::Numbering::one_more))]
fn numbers(alloc: Global, nodes: u32) -> Result<Vec<u128>, AllocError>
    ensures { IfOk result (λ ids. ids.items ≡ range_with_len 1 nodes) }
{
    let mut ids = Vec::new(alloc);
    for v in 0..nodes {
        ids.push(u128::from(v) + 1)?;
    }
    Ok(ids)
}

/// The identifier of each vertex of a graph: the first one given, and so the one that is written last, or its number.
///
/// # Errors
/// If memory ran out.
pub fn identifiers(
    alloc: Global,
    nodes: u32,
    given: &[(u32, u128)],
) -> Result<Vec<u128>, AllocError>
    requires { AreVertices nodes given.now }
    ensures { IfOk result (λ ids. ids.items ≡ identifiers_with given.now nodes) }
{
    let mut ids = numbers(alloc, nodes)?;
    for written in 0..given.len() {
        let (v, id) = given[given.len() - 1 - written];
        ids[v as usize - 1] = id;
    }
    Ok(ids)
}

// The network of a graph.
fn network_of_graph(alloc: Global, graph: &ColFile) -> Result<Network, NetFault>
    requires edges { EdgesFit graph.now.nodes graph.now.edges.items }
    requires vertices { AreVertices graph.now.nodes graph.now.ids.items }
    requires bars { BarsFit graph.now.nodes graph.now.bars.items }
    ensures made { IfOk result (λ net. net ≡ network_with (graph_of graph.now)) }
    ensures network { IfOk result IsNetwork }
    ensures fault { IfErr result (IsFaultOf (network_with (graph_of graph.now))) }
{
    let Ok(ids) = identifiers(alloc, graph.nodes, graph.ids.as_slice()) else {
        return Err(NetFault::Memory);
    };
    Network::new(
        alloc,
        graph.nodes,
        ids.as_slice(),
        graph.edges.as_slice(),
        graph.bars.as_slice(),
    )
}

/// The network that a DIMACS text describes.
///
/// # Errors
/// `Col` with the fault of the reading; else `Net` with the fault of the network. Reading and network may instead fail
/// for lack of memory: `ColFault::Memory` or `NetFault::Memory`.
pub fn network_of_text(alloc: Global, input: &[u8]) -> Result<Network, PlanFault>
    ensures ok { IfOk result (λ net. ReadsAs input.now (λ read. IsNetwork read × (net ≡ read))) }
    ensures network { IfOk result IsNetwork }
    ensures fault { IfErr result (IsFaultOfText input.now) }
{
    let graph = read(alloc, input)?;
    Ok(network_of_graph(alloc, &graph)?)
}

/// The forests text of the network that a DIMACS text describes.
///
/// # Errors
/// `Col` with the fault of the reading; else `Net` with the fault of the network. Any call may instead fail for lack of
/// memory: `ColFault::Memory`, `NetFault::Memory` or `Memory`.
pub fn forest_bytes(alloc: Global, input: &[u8]) -> Result<Vec<u8>, PlanFault>
    ensures ok { IfOk result (λ text. IsForestsAnswer input.now text.items) }
    ensures fault { IfErr result (IsFaultOfText input.now) }
{
    let network = network_of_text(alloc, input)?;
    Ok(text_of_forests(alloc, &network)?)
}

/// The channel plan of the network that a DIMACS text describes: the plan text of its colours. The nodes
/// find them by messages in rounds, on one thread.
///
/// # Errors
/// As of `forest_bytes`.
pub fn plain_bytes(alloc: Global, input: &[u8]) -> Result<Vec<u8>, PlanFault>
    ensures ok { IfOk result (λ text. IsPlainAnswer input.now text.items) }
    ensures fault { IfErr result (IsFaultOfText input.now) }
{
    colours_are_proper();
    let network = network_of_text(alloc, input)?;
    Ok(text_of_plan(alloc, &network)?)
}
