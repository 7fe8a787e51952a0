//! Two nodes of `Greatest` on two threads, over a link each way. What a node puts is legal, since a node puts it.
//! All that waits is bounded by a count, so a run ends on every schedule.

ghost use Rattle.std.specs.Prelude.{◌≡◌, ◌<◌, ◌≤◌, [], Some, false, map, slice_get};
ghost use Rattle.link_queue.specs.Ends.{put_list, put_name, take_name, taken_list};
ghost use Rattle.wired_nodes.specs.Tables.{IsEndAt, table_of};
ghost use Rattle.checks.specs.SmallNets.{pair_net};

use crate::linked_counters::node_of;
use interference::{Memory, Network};
use link_queue::{Link, PutEnd, TakeEnd};
use run_options::MAX_CAPACITY;
use std::alloc::Global;
use std::marker::Brand;
use std::sync::Wait;
use std::thread;
use std::thread::Threads;
use sync_rounds::{Best, Greatest};
use wired_nodes::{Links, Node, OpenGate, WiredPut, WiredTake, Wiring};

const TRIES: u32 = 1_000_000;

// How many pulses the nodes make.
const PULSES: u32 = 3_333;

// The ends of a link.
#[derive(Drop)]
struct Ends {
    put: PutEnd<Greatest<PULSES>>,
    take: TakeEnd<Greatest<PULSES>>,
}

// Tries turns of a node until one does something; whether one did.
fn moves<J: Wiring, R: Wait>(
    rt: &R,
    links: &Links<J, Greatest<PULSES>>,
    node: &mut Node<J, Greatest<PULSES>>,
) -> bool {
    for _ in 0..TRIES {
        match node.turn(rt, links, &OpenGate, 0) {
            Ok(true) => return true,
            Ok(false) => thread::yield_now(),
            Err(_) => return false,
        }
    }
    false
}

// Whether a node with one link each way is drained after as many turns as it can have events: it puts and takes
// 3 wires a pulse and a close, and makes the pulses.
fn drains<J: Wiring, R: Wait>(
    rt: &R,
    links: &Links<J, Greatest<PULSES>>,
    node: &mut Node<J, Greatest<PULSES>>,
) -> bool {
    for _ in 0..7 * u64::from(PULSES) + 2 {
        if node.alpha.drained() {
            return true;
        }
        if !moves(rt, links, node) {
            return false;
        }
    }
    node.alpha.drained()
}

// Whether a node is drained at its end, and knows the greatest identifier.
fn reaches_the_end<J: Wiring, R: Wait>(
    rt: &R,
    links: &Links<J, Greatest<PULSES>>,
    mut node: Box<Node<J, Greatest<PULSES>>>,
) -> bool {
    let is_drained = drains(rt, links, &mut node);
    is_drained && node.alpha.program().best() == 2
}

// The same of both nodes, each on a thread.
fn both_reach_the_end<J: Wiring + Send + Sync, R: Threads + Wait + Sync>(
    rt: &R,
    links: &Links<J, Greatest<PULSES>>,
    one: Box<Node<J, Greatest<PULSES>>>,
    two: Box<Node<J, Greatest<PULSES>>>,
) -> bool {
    let (first, second) = thread::join(
        rt,
        move || -> bool { reaches_the_end(rt, links, one) },
        move || -> bool { reaches_the_end(rt, links, two) },
    );
    first && second
}

// The nodes of these ends: `out` is of the link from vertex 1 to vertex 2, `back` of the other.
fn over<J: Wiring + Send + Sync, R: Threads + Wait + Sync>(
    rt: &R,
    alloc: Global,
    network: &Network,
    links: Vec<Link<Greatest<PULSES>>>,
    out: Ends,
    back: Ends,
) -> Result<bool, Memory>
    requires network { (network.now ≡ pair_net) × (J.net ≡ pair_net) }
    requires put { IsEndAt J.net J.tables 1 0 out.put.pass.table_id (put_name out.put)
        × (slice_get J.links 0 ≡ Some out.put.pass.table_id) × (put_list out.put ≡ []) }
    requires take { IsEndAt J.net J.tables 1 0 out.take.pass.table_id (take_name out.take)
        × (slice_get J.links 0 ≡ Some out.take.pass.table_id) × (taken_list out.take ≡ []) }
    requires put_back { IsEndAt J.net J.tables 2 0 back.put.pass.table_id (put_name back.put)
        × (slice_get J.links 1 ≡ Some back.put.pass.table_id) × (put_list back.put ≡ []) }
    requires take_back { IsEndAt J.net J.tables 2 0 back.take.pass.table_id (take_name back.take)
        × (slice_get J.links 1 ≡ Some back.take.pass.table_id) × (taken_list back.take ≡ []) }
    requires links { J.links ≡ map table_of links.items }
    requires transcript { J.transcript ≡ false }
{
    let links = Links::<J, Greatest<PULSES>>::new(links);
    let put = WiredPut::<J, Best>::new(1, 0, 0, out.put);
    let take = WiredTake::<J, Best>::new(2, 0, 1, back.take);
    let one = node_of::<J, PULSES>(alloc, network, 1, put, take)?;
    let put = WiredPut::<J, Best>::new(2, 0, 1, back.put);
    let take = WiredTake::<J, Best>::new(1, 0, 0, out.take);
    let two = node_of::<J, PULSES>(alloc, network, 2, put, take)?;
    Ok(both_reach_the_end(rt, &links, one, two))
}

/// Whether two nodes that make 3,333 pulses, each on a thread, hand over all wires over links of a capacity: ten
/// thousand each way.
pub fn hand_over<R: Threads + Wait + Sync>(
    rt: &R,
    alloc: Global,
    network: &Network,
    capacity: usize,
) -> Result<bool, Memory>
    requires capacity { (0 < capacity) × (capacity ≤ MAX_CAPACITY) }
    requires network { network.now ≡ pair_net }
{
    let (first, put, take) = Link::<Greatest<PULSES>>::new(alloc, network, 1, 0, capacity)?;
    let out = Ends { put, take };
    let (second, put, take) = Link::<Greatest<PULSES>>::new(alloc, network, 2, 0, capacity)?;
    let back = Ends { put, take };
    let links = vec![in alloc; first, second]?;
    over::<Brand, R>(rt, alloc, network, links, out, back)
}
