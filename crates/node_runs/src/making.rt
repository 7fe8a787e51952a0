//! The links of a network.

ghost use Rattle.std.specs.Prelude.{◌≡◌, ◌<◌, ◌≤◌, ◌+◌, ◌++◌, ◌∷◌, ℕ, [], IfOk, length, vec_len};
ghost use Rattle.interference.specs.Net.{IsVertex, count_of, degree_of, neighbour_of};
ghost use Rattle.port_rows.specs.Rows.{row_at, rows_of};
ghost use Rattle.node_runs.specs.Makes.{AreMade, AreMadeBefore, row_more};

use interference::{Memory, Network};
use link_queue::{Link, PutEnd, TakeEnd};
use node_api::NodeProgram;
use run_options::MAX_CAPACITY;
use std::alloc::{AllocError, Global};

/// The ends of a node at a port: one that puts on the link out by the port, and one that takes from the link that comes
/// in there. Each has the index of its link beside it.
#[derive(Drop)]
pub struct PortEnds<P: NodeProgram> {
    pub put_index: u32,
    pub put: PutEnd<P>,
    pub take_index: u32,
    pub take: TakeEnd<P>,
}

/// The links of a network, both directions of an edge side by side, and their ends: row `v - 1` has the ends of the
/// node of vertex `v`, by port.
#[derive(Drop)]
pub struct Made<P: NodeProgram> {
    pub links: Vec<Link<P>>,
    pub ends: Vec<Vec<PortEnds<P>>>,
}

// No links, and a row for the ends of each vertex, with room for them.
fn none_made<P: NodeProgram>(alloc: Global, net: &Network) -> Result<Made<P>, AllocError>
    ensures links { IfOk result (λ made. made.links.items ≡ []) }
    ensures count { IfOk result (λ made. length made.ends.items ≡ count_of net.now) }
    ensures rows { IfOk result (λ made. (u : ℕ) → row_at (rows_of made.ends.items) u ≡ []) }
{
    let mut ends = Vec::with_capacity(alloc, net.nodes() as usize)?;
    for v in 0..net.nodes() {
        ends.push_reserved(Vec::with_capacity(alloc, net.degree(v + 1) as usize)?);
    }
    Ok(Made {
        links: Vec::new(alloc),
        ends,
    })
}

// Appends a thing to the row of a vertex.
fn push_to<T: Drop>(rows: &mut Vec<Vec<T>>, v: u32, thing: T) -> Result<(), AllocError>
    requires row { (1 ≤ v) × (v ≤ vec_len rows.old) }
    ensures rows { IfOk result (λ _. rows_of rows.new.items ≡ row_more (rows_of rows.old.items) v thing) }
{
    rows[(v - 1) as usize].push(thing)?;
    Ok(())
}

// Appends two things.
fn push_two<T: Drop>(things: &mut Vec<T>, one: T, two: T) -> Result<(), AllocError>
    ensures { IfOk result (λ _. things.new.items ≡ (things.old.items ++ one ∷ []) ++ two ∷ []) }
{
    things.push(one)?;
    things.push(two)?;
    Ok(())
}

// Appends a thing to the row of a vertex, and then another to that of a second one.
fn push_to_both<T: Drop>(
    rows: &mut Vec<Vec<T>>,
    v: u32,
    thing: T,
    w: u32,
    other: T,
) -> Result<(), AllocError>
    requires row { (1 ≤ v) × (v ≤ vec_len rows.old) }
    requires other_row { (1 ≤ w) × (w ≤ vec_len rows.old) }
    ensures rows { IfOk result (λ _.
        rows_of rows.new.items ≡ row_more (row_more (rows_of rows.old.items) v thing) w other) }
{
    push_to(rows, v, thing)?;
    push_to(rows, w, other)
}

// Makes both links of an edge, out of `v` by port `i` and back.
fn make_edge<P: NodeProgram>(
    alloc: Global,
    net: &Network,
    v: u32,
    i: u32,
    capacity: usize,
    made: &mut Made<P>,
) -> Result<(), Memory>
    requires capacity { (0 < capacity) × (capacity ≤ MAX_CAPACITY) }
    requires vertex { IsVertex net.now v }
    requires port { i < degree_of net.now v }
    requires greater { v < neighbour_of net.now v i }
    requires before { AreMadeBefore net.now capacity v i made.old.links.items (rows_of made.old.ends.items) }
    ensures made { IfOk result (λ _.
        AreMadeBefore net.now capacity v (i + 1) made.new.links.items (rows_of made.new.ends.items)) }
{
    let (w, j) = (net.neighbour(v, i), net.back_port(v, i));
    let (out, put, other_take) = Link::<P>::new(alloc, net, v, i, capacity)?;
    let (back, other_put, take) = Link::<P>::new(alloc, net, w, j, capacity)?;
    let put_index = made.links.len() as u32;
    let take_index = put_index + 1;
    let ends = PortEnds {
        put_index,
        put,
        take_index,
        take,
    };
    let others = PortEnds {
        put_index: take_index,
        put: other_put,
        take_index: put_index,
        take: other_take,
    };
    push_two(&mut made.links, out, back)?;
    push_to_both(&mut made.ends, v, ends, w, others)?;
    Ok(())
}

// Makes the links of the edges of a vertex to greater ones.
fn make_edges<P: NodeProgram>(
    alloc: Global,
    net: &Network,
    v: u32,
    capacity: usize,
    made: &mut Made<P>,
) -> Result<(), Memory>
    requires capacity { (0 < capacity) × (capacity ≤ MAX_CAPACITY) }
    requires vertex { IsVertex net.now v }
    requires before { AreMadeBefore net.now capacity v 0 made.old.links.items (rows_of made.old.ends.items) }
    ensures made { IfOk result (λ _.
        AreMadeBefore net.now capacity (v + 1) 0 made.new.links.items (rows_of made.new.ends.items)) }
{
    for i in 0..net.degree(v) {
        if v < net.neighbour(v, i) {
            make_edge(alloc, net, v, i, capacity, made)?;
        }
    }
    Ok(())
}

/// Makes all links of a network, each for at most `capacity` wires, 1 to `MAX_CAPACITY`.
///
/// # Errors
///
/// `Memory` if memory is refused.
pub fn make_links<P: NodeProgram>(
    alloc: Global,
    net: &Network,
    capacity: usize,
) -> Result<Made<P>, Memory>
    requires capacity { (0 < capacity) × (capacity ≤ MAX_CAPACITY) }
    ensures made { IfOk result (λ made. AreMade net.now capacity made.links.items (rows_of made.ends.items)) }
{
    let mut made = none_made::<P>(alloc, net)?;
    for v in 0..net.nodes() {
        make_edges(alloc, net, v + 1, capacity, &mut made)?;
    }
    Ok(made)
}
