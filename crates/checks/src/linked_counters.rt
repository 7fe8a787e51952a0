//! A node whose neighbour puts a wire with a great stamp, so that its counter comes near the greatest number.

ghost use Rattle.std.specs.Prelude.{◌≡◌, ◌<◌, [], ◌∷◌, Some, false, map, slice_get};
ghost use Rattle.interference.specs.Net.{IsVertex};
ghost use Rattle.link_rule.specs.Legal.{name_of};
ghost use Rattle.link_queue.specs.Ends.{IsNewPutEnd, put_list, put_name, take_name, taken_list};
ghost use Rattle.wired_nodes.specs.Node.{links_in, links_out};
ghost use Rattle.wired_nodes.specs.Tables.{IsEndAt, table_of};
ghost use Rattle.checks.specs.SmallNets.{pair_net};

use interference::{Memory, Network};
use link_queue::{Link, PutEnd, TakeEnd};
use std::alloc::Global;
use std::marker::Brand;
use std::sync::Wait;
use sync_rounds::{Best, Greatest};
use wired_nodes::{Links, Node, OpenGate, TurnRefused, WiredPut, WiredTake, Wiring};
use wires::{Stamped, Wire};

/// What a turn of the node says, its counter after it, the stamp of the wire that its neighbour takes then, and whether
/// the node set a wire aside.
#[derive(Debug, Clone, Copy, PartialEq, Eq)]
pub struct Turned {
    pub said: Result<bool, TurnRefused>,
    pub counter: u64,
    pub came: Option<u64>,
    pub is_aside: bool,
}

// A turn of the node.
fn make_turn<J: Wiring, R: Wait>(
    rt: &R,
    links: &Links<J, Greatest<1>>,
    node: &mut Node<J, Greatest<1>>,
    far: &mut WiredTake<J, Best>,
) -> Turned {
    let said = node.turn(rt, links, &OpenGate, 0);
    let came = match links.try_take(far) {
        Some(item) => Some(item.stamp()),
        None => None,
    };
    Turned {
        said,
        counter: node.counter.value(),
        came,
        is_aside: node.aside.is_some(),
    }
}

/// A node of `Greatest<D>` with one neighbour, in a box: to own a box costs less proof than to own what is in it.
pub fn node_of<J: Wiring, const D: u32>(
    alloc: Global,
    network: &Network,
    vertex: u32,
    put: WiredPut<J, Best>,
    take: WiredTake<J, Best>,
) -> Result<Box<Node<J, Greatest<D>>>, Memory>
    requires network { J.net ≡ network.now }
    requires vertex { IsVertex network.now vertex }
    requires outs { (put.vertex, put.port) ∷ [] ≡ links_out network.now vertex }
    requires ins { (take.vertex, take.port) ∷ [] ≡ links_in network.now vertex }
    requires fresh { (put_list put.end ≡ []) × (taken_list take.end ≡ []) }
    requires transcript { J.transcript ≡ false }
{
    let puts = vec![in alloc; put]?;
    let takes = vec![in alloc; take]?;
    let node = Node::<J, Greatest<D>>::start(alloc, network, vertex, puts, takes, false)?;
    Ok(Box::new(alloc, node)?)
}

// The ends of two links at the node of vertex 2, and the far end of the link that it puts into.
#[derive(Drop)]
struct Ends {
    put: PutEnd<Greatest<1>>,
    take: TakeEnd<Greatest<1>>,
    far: TakeEnd<Greatest<1>>,
}

// A turn of the node of vertex 2 over two links.
fn turned_over<J: Wiring, R: Wait>(
    rt: &R,
    alloc: Global,
    network: &Network,
    links: Vec<Link<Greatest<1>>>,
    ends: Ends,
) -> Result<Turned, Memory>
    requires network { (network.now ≡ pair_net) × (J.net ≡ pair_net) }
    requires put { IsEndAt J.net J.tables 2 0 ends.put.pass.table_id (put_name ends.put)
        × (slice_get J.links 1 ≡ Some ends.put.pass.table_id) × (put_list ends.put ≡ []) }
    requires take { IsEndAt J.net J.tables 1 0 ends.take.pass.table_id (take_name ends.take)
        × (slice_get J.links 0 ≡ Some ends.take.pass.table_id) × (taken_list ends.take ≡ []) }
    requires far { IsEndAt J.net J.tables 2 0 ends.far.pass.table_id (take_name ends.far)
        × (slice_get J.links 1 ≡ Some ends.far.pass.table_id) }
    requires links { J.links ≡ map table_of links.items }
    requires transcript { J.transcript ≡ false }
{
    let Ends { put, take, far } = ends;
    let links = Links::<J, Greatest<1>>::new(links);
    let mut far = WiredTake::<J, Best>::new(2, 0, 1, far);
    let put = WiredPut::<J, Best>::new(2, 0, 1, put);
    let take = WiredTake::<J, Best>::new(1, 0, 0, take);
    let mut node = node_of::<J, 1>(alloc, network, 2, put, take)?;
    Ok(make_turn(rt, &links, &mut node, &mut far))
}

// Puts the payload of vertex 1 with this stamp; whether the link had room.
fn comes(link: &Link<Greatest<1>>, end: &mut PutEnd<Greatest<1>>, stamp: u64) -> bool
    requires end { IsNewPutEnd link.now end.old (name_of pair_net 1 0) }
    requires stamp { 0 < stamp }
{
    let wire = Wire::Payload(0, Best(1));
    link.try_put(end, Stamped { stamp, wire }).is_ok()
}

/// A turn of the node of vertex 2 of two, after its neighbour put its payload with this stamp.
pub fn turn_after<R: Wait>(
    rt: &R,
    alloc: Global,
    network: &Network,
    stamp: u64,
) -> Result<Turned, Memory>
    requires network { network.now ≡ pair_net }
    requires stamp { 0 < stamp }
{
    let (into, mut near, take) = Link::<Greatest<1>>::new(alloc, network, 1, 0, 1)?;
    let (out, put, far) = Link::<Greatest<1>>::new(alloc, network, 2, 0, 1)?;
    if !comes(&into, &mut near, stamp) {
        return Err(Memory);
    }
    let links = vec![in alloc; into, out]?;
    turned_over::<Brand, R>(rt, alloc, network, links, Ends { put, take, far })
}
