//! The making of a network: the faults in their order, then the packed lists.

ghost use Rattle.std.specs.Prelude.{◌≡◌, ℕ, ◌*◌, IfOk, IfErr, length};
ghost use Rattle.interference.specs.Net.{IsNetwork};
ghost use Rattle.interference.specs.Making.{BarsFit, EdgesFit, HaveSameId, IsCrowded, IsFaultOf};
ghost use Rattle.interference.specs.Making.{IsTryFaultOf, network_of};
ghost use Rattle.interference.specs.Filling.{AreDegrees, AreStarts, IsFilled};

use crate::bars::{bars_fit, packed_bars};
use crate::degrees::{count_ends, first_crowded, greatest, starts_of};
use crate::edges::edges_fit;
use crate::fault::{Memory, NetFault, TryFault};
use crate::forests::forest_count;
use crate::network::Network;
use crate::rows::fill;
use crate::same_ids::first_same_id;
use graph_limits::MAX_NODES;
use std::alloc::Global;

impl Network {
    /// Makes the network in which vertex v has the identifier `ids[v - 1]`, two vertices are
    /// neighbours if an edge joins them, and each bar, a vertex and a channel, bars the channel at
    /// the vertex. The edges are as `edges_fit` asks, the bars as `bars_fit` does; there is one
    /// identifier for each of the `nodes` vertices. A refusal leaves nothing behind.
    ///
    /// # Errors
    ///
    /// `Degree(v)` for the least vertex with more than `MAX_DEGREE` neighbours; else `SameId(v, w)`
    /// for the first two vertices with one identifier; `Memory` only if a growth is refused.
    pub fn new(
        alloc: Global,
        nodes: u32,
        ids: &[u128],
        edges: &[(u32, u32)],
        bars: &[(u32, u16)],
    ) -> Result<Network, NetFault>
        requires ids { length ids.now ≡ nodes }
        requires edges { EdgesFit nodes edges.now }
        requires bars { BarsFit nodes bars.now }
        ensures made { IfOk result (λ net. net ≡ network_of ids.now edges.now bars.now) }
        ensures network { IfOk result IsNetwork }
        ensures uncrowded { IfOk result (λ net. (v : ℕ) → IsCrowded net v → ⊥) }
        ensures distinct { IfOk result (λ net. (v w : ℕ) → HaveSameId net v w → ⊥) }
        ensures fault { IfErr result (IsFaultOf (network_of ids.now edges.now bars.now)) }
    {
        let degrees = degrees_of(alloc, nodes, edges)?;
        if let Some(v) = first_crowded(&degrees) {
            return Err(NetFault::Degree(v));
        }
        if let Some((v, w)) = first_same_id(alloc, ids)? {
            return Err(NetFault::SameId(v, w));
        }
        Ok(packed(alloc, nodes, ids, edges, bars, degrees)?)
    }

    /// Makes the network of any identifiers, edges and bars, one vertex for each identifier: as `new`,
    /// but it tests `edges_fit` and `bars_fit` itself.
    ///
    /// # Errors
    ///
    /// `Edges` if there are more than `MAX_NODES` identifiers or `edges_fit` refuses the edges; else
    /// `Bars` if `bars_fit` refuses the bars; else `Refused` with the fault that `new` returns.
    pub fn try_new(
        alloc: Global,
        ids: &[u128],
        edges: &[(u32, u32)],
        bars: &[(u32, u16)],
    ) -> Result<Network, TryFault>
        ensures made { IfOk result (λ net. net ≡ network_of ids.now edges.now bars.now) }
        ensures edges { IfOk result (λ net. EdgesFit (length ids.now) edges.now) }
        ensures bars { IfOk result (λ net. BarsFit (length ids.now) bars.now) }
        ensures uncrowded { IfOk result (λ net. (v : ℕ) → IsCrowded net v → ⊥) }
        ensures distinct { IfOk result (λ net. (v w : ℕ) → HaveSameId net v w → ⊥) }
        ensures fault { IfErr result (IsTryFaultOf ids.now edges.now bars.now) }
    {
        if ids.len() > MAX_NODES as usize {
            return Err(TryFault::Edges);
        }
        let nodes = ids.len() as u32;
        if !edges_fit(nodes, edges) {
            return Err(TryFault::Edges);
        }
        if !bars_fit(nodes, bars) {
            return Err(TryFault::Bars);
        }
        Ok(Network::new(alloc, nodes, ids, edges, bars)?)
    }
}

// The degree of vertex v at entry v.
fn degrees_of(alloc: Global, nodes: u32, edges: &[(u32, u32)]) -> Result<Vec<u32>, Memory>
    requires { EdgesFit nodes edges.now }
    ensures { IfOk result (λ degrees. AreDegrees nodes edges.now degrees.items) }
{
    let mut degrees = vec![in alloc; 0u32; nodes as usize + 1]?;
    count_ends(nodes, edges, &mut degrees);
    Ok(degrees)
}

// The network of identifiers and edges that are tested: no vertex is crowded, all identifiers differ.
fn packed(
    alloc: Global,
    nodes: u32,
    ids: &[u128],
    edges: &[(u32, u32)],
    bars: &[(u32, u16)],
    degrees: Vec<u32>,
) -> Result<Network, Memory>
    requires ids { length ids.now ≡ nodes }
    requires edges { EdgesFit nodes edges.now }
    requires bars { BarsFit nodes bars.now }
    requires degrees { AreDegrees nodes edges.now degrees.items }
    requires network { IsNetwork (network_of ids.now edges.now bars.now) }
    ensures made { IfOk result (λ net. net ≡ network_of ids.now edges.now bars.now) }
    ensures network { IfOk result IsNetwork }
{
    let greatest_degree = greatest(&degrees);
    let starts = starts_of(degrees);
    let (ports, backs) = rows_of(alloc, nodes, edges, &starts)?;
    let bars = packed_bars(alloc, nodes, bars)?;
    let forest_count = forest_count(ids, &starts, &ports);
    let ids = Vec::from_slice(alloc, ids)?;
    Ok(Network {
        ids,
        starts,
        ports,
        backs,
        bars,
        greatest_degree,
        forest_count,
        again: 0,
    })
}

// The neighbours of each vertex, and beside each the port that leads back.
fn rows_of(
    alloc: Global,
    nodes: u32,
    edges: &[(u32, u32)],
    starts: &[u32],
) -> Result<(Vec<u32>, Vec<u32>), Memory>
    requires fit { EdgesFit nodes edges.now }
    requires starts { AreStarts nodes edges.now starts.now (2 * length edges.now) }
    ensures { IfOk result (λ lists. IsFilled nodes edges.now starts.now lists.0.items lists.1.items) }
{
    let mut cursors = Vec::from_slice(alloc, starts)?;
    let mut ports = vec![in alloc; 0u32; 2 * edges.len()]?;
    let mut backs = vec![in alloc; 0u32; 2 * edges.len()]?;
    fill(nodes, edges, starts, &mut cursors, &mut ports, &mut backs);
    Ok((ports, backs))
}
