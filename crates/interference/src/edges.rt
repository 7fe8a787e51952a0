//! Whether a network takes a list of edges.

ghost use Rattle.std.specs.Prelude.{◌≡◌, ◌↔◌, IsTrue, All, Some};
ghost use Rattle.std.specs.List.Sorted.{IsStrictlySortedBy};
ghost use Rattle.std.specs.declared.cmp.Ordering.TheVariants.{Less};
ghost use Rattle.graph_limits.specs.Pairs.{pair_cmp, FitsIn};
ghost use Rattle.interference.specs.Making.{EdgesFit};

use graph_limits::{MAX_EDGES, MAX_NODES};

/// Whether `Network::new` takes the edges: at most `MAX_NODES` nodes and `MAX_EDGES` edges, each edge with
/// its smaller vertex first, both from 1 to `nodes`, the edges ascending, none twice.
pub fn edges_fit(nodes: u32, edges: &[(u32, u32)]) -> bool
    ensures { IsTrue result ↔ EdgesFit nodes edges.now }
{
    nodes <= MAX_NODES && edges.len() <= MAX_EDGES && all_fit(nodes, edges) && ascend(edges)
}

// Whether each edge has its smaller vertex first, and both are vertices.
fn all_fit(nodes: u32, edges: &[(u32, u32)]) -> bool
    ensures { IsTrue result ↔ All (FitsIn (Some nodes)) edges.now }
{
    for edge in edges {
        if edge.0 == 0 || edge.0 >= edge.1 || edge.1 > nodes {
            return false;
        }
    }
    true
}

// Whether a pair is strictly before another, by first vertex and then by second.
pub(crate) fn comes_before(low: (u32, u32), high: (u32, u32)) -> bool
    ensures { IsTrue result ↔ (pair_cmp low high ≡ Less) }
{
    low.0 < high.0 || low.0 == high.0 && low.1 < high.1
}

// Whether the edges ascend, so that none is there twice.
fn ascend(edges: &[(u32, u32)]) -> bool
    ensures { IsTrue result ↔ IsStrictlySortedBy pair_cmp edges.now }
{
    for i in 1..edges.len() {
        if !comes_before(edges[i - 1], edges[i]) {
            return false;
        }
    }
    true
}
