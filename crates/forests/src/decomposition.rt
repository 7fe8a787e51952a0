//! The forests of a whole network, as triples.

ghost use Rattle.std.specs.Prelude.{◌≡◌, ◌++◌, ◌+◌, ◌<◌, ◌≤◌, [], ◌∷◌, ℕ, IfOk, OnOk, length, map, replicate};
ghost use Rattle.std.specs.List.{flat_map, range_with_len};
ghost use Rattle.interference.specs.Net.{IsNetwork, IsVertex, forest_count_of};
ghost use Rattle.forests.specs.Forests.{forest_edges, higher, triples, up};
ghost use Rattle.forests.specs.Dealing.{edge_at, edges_in, edges_of, with_id};

use interference::{MAX_DEGREE, Memory, Network};
use std::alloc::Global;

// An edge of a forest: the forest, the child and its parent.
type Edge = (u16, u32, u32);

// Makes `parents` the neighbours of `v` that have a higher identifier, each with it, by port.
fn gather_parents(net: &Network, v: u32, parents: &mut Vec<(u128, u32)>) -> Result<(), Memory>
    requires { IsVertex net.now v }
    ensures { OnOk result (parents.new.items ≡ map (with_id net.now) (higher net.now v)) }
{
    parents.clear();
    let own = net.id(v);
    for neighbour in net.neighbours(v) {
        let id = net.id(*neighbour);
        if id > own {
            parents.push((id, *neighbour))?;
        }
    }
    Ok(())
}

// The same, by ascending identifier.
fn order_parents(net: &Network, v: u32, parents: &mut Vec<(u128, u32)>) -> Result<(), Memory>
    requires vertex { IsVertex net.now v }
    requires network { IsNetwork net.now }
    ensures { OnOk result (parents.new.items ≡ map (with_id net.now) (up net.now v)) }
{
    gather_parents(net, v, parents)?;
    parents.sort_unstable_by_key(|parent| parent.0);
    Ok(())
}

// Adds the edge from `v` to each of its parents to the forest of that number.
fn deal(v: u32, parents: &[(u128, u32)], forests: &mut [Vec<Edge>]) -> Result<(), Memory>
    requires room { length parents.now ≤ length forests.old }
    requires few { length forests.old ≤ MAX_DEGREE }
    ensures same_count { length forests.new ≡ length forests.old }
    ensures dealt { OnOk result ((f : ℕ) → f < length forests.old →
        edges_in forests.new f ≡ edges_in forests.old f ++ edge_at f v parents.now) }
{
    for (forest, (_, parent)) in parents.iter().enumerate() {
        forests[forest].push((forest as u16, v, *parent))?;
    }
    Ok(())
}

// `count` empty lists, one for each forest.
fn empty_forests(alloc: Global, count: u32) -> Result<Vec<Vec<Edge>>, Memory>
    ensures { IfOk result (λ forests. edges_of forests.items ≡ replicate count []) }
{
    let mut forests = Vec::new(alloc);
    for _forest in 0..count {
        forests.push(Vec::new(alloc))?;
    }
    Ok(forests)
}

// The edges of each forest.
fn deal_all(alloc: Global, net: &Network) -> Result<Vec<Vec<Edge>>, Memory>
    ensures { IfOk result (λ forests. edges_of forests.items
        ≡ map (forest_edges net.now) (range_with_len 0 (forest_count_of net.now))) }
{
    let mut forests = empty_forests(alloc, net.forest_count())?;
    let mut parents = Vec::new(alloc);
    for v in 1..net.nodes() + 1 {
        order_parents(net, v, &mut parents)?;
        deal(v, &parents, &mut forests)?;
    }
    Ok(forests)
}

// The lists, one after another.
fn join(alloc: Global, forests: &[Vec<Edge>]) -> Result<Vec<Edge>, Memory>
    ensures { IfOk result (λ edges. edges.items ≡ flat_map (λ forest. forest.items) forests.now) }
{
    let mut edges = Vec::new(alloc);
    for forest in forests {
        edges.extend_from_slice(forest)?;
    }
    Ok(edges)
}

/// The forests of a network, as triples of the forest, a child and its parent, ascending.
///
/// Forests count from 0 to one less than `net.forest_count()`. The parent of a vertex in forest f is
/// entry f of its neighbours of higher identifier, in the order of their identifiers; if there is no
/// such entry the vertex is a root of the forest, and in no triple as a child (Panconesi and Rizzi,
/// 2001).
///
/// # Errors
///
/// `Memory` only if a growth is refused.
pub fn decompose(alloc: Global, net: &Network) -> Result<Vec<(u16, u32, u32)>, Memory>
    ensures triples { IfOk result (λ edges. edges.items ≡ triples net.now) }
{
    let forests = deal_all(alloc, net)?;
    join(alloc, &forests)
}
