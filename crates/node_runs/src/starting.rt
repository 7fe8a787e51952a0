//! The nodes of a network, each with the ends of its links.

ghost use Rattle.std.specs.Prelude.{◌≡◌, ◌∷◌, ◌++◌, ◌<◌, [], All, IfOk, map, reverse, vec_len};
ghost use Rattle.interference.specs.Net.{IsVertex, vertices};
ghost use Rattle.alpha_core.specs.Program.{start_node};
ghost use Rattle.node_runs.specs.News.{AreNewEnds, AreNewOf};
ghost use Rattle.port_rows.specs.Rows.{rows_of};

use crate::making::PortEnds;
use crate::wired::{WiredEnds, wired_ends};
use interference::{Memory, Network};
use node_api::NodeProgram;
use std::alloc::Global;
use wired_nodes::{Node, Wiring};

// Takes the last row off.
fn last_row<T>(rows: &mut Vec<Vec<T>>) -> Vec<T>
    requires some { 0 < vec_len rows.old }
    ensures rows { rows.old.items ≡ rows.new.items ++ result ∷ [] }
{
    match rows.pop() {
        Some(row) => row,
        None => unreachable!(),
    }
}

// The node of a vertex, in a box.
fn boxed_node<J: Wiring, P: NodeProgram>(
    alloc: Global,
    net: &Network,
    v: u32,
    ends: Vec<PortEnds<P>>,
    transcript: bool,
) -> Result<Box<Node<J, P>>, Memory>
    requires network { J.net ≡ net.now }
    requires vertex { IsVertex net.now v }
    requires transcript { J.transcript ≡ transcript }
    requires ends { AreNewOf J.net J.tables J.links v ends.items }
    ensures vertex { IfOk result (λ node. node.value.vertex ≡ v) }
    ensures first { IfOk result (λ node. node.value.alpha.node ≡ start_node P.program net.now v) }
{
    let WiredEnds { puts, takes } = wired_ends::<J, P>(alloc, net, v, ends)?;
    let node = Node::<J, P>::start(alloc, net, v, puts, takes, transcript)?;
    Ok(Box::new(alloc, node)?)
}

/// All nodes of a run at pulse 0, from the last vertex down, each in a box with its ends. The ends are given as
/// `make_links` makes them: row `v - 1` has the ends of vertex `v`, by port. With `transcript` the nodes write down
/// what they do.
///
/// # Errors
///
/// `Memory` if memory is refused.
pub fn start_nodes<J: Wiring, P: NodeProgram>(
    alloc: Global,
    net: &Network,
    ends: Vec<Vec<PortEnds<P>>>,
    transcript: bool,
) -> Result<Vec<Box<Node<J, P>>>, Memory>
    requires net { J.net ≡ net.now }
    requires transcript { J.transcript ≡ transcript }
    requires ends { AreNewEnds J.net J.tables J.links (rows_of ends.items) }
    ensures nodes { IfOk result (λ nodes. map (λ b. b.value.vertex) nodes.items ≡ reverse (vertices J.net)) }
    ensures first { IfOk result
        (λ nodes. All (λ b. b.value.alpha.node ≡ start_node P.program net.now b.value.vertex) nodes.items) }
{
    let mut ends = ends;
    let mut nodes = Vec::new(alloc);
    let count = net.nodes();
    for k in 0..count {
        let node = boxed_node::<J, P>(alloc, net, count - k, last_row(&mut ends), transcript)?;
        nodes.push(node)?;
    }
    Ok(nodes)
}
