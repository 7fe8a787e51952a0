//! Networks to run, and what is read off a run.

ghost use Rattle.std.specs.Prelude.{◌≡◌, ◌<◌, ◌≤◌, length};
ghost use Rattle.interference.specs.Net.{IsVertex, degree_of, vertices};
ghost use Rattle.outcomes.specs.Outcome.{row_in};

use colour_program::Colouring;
use colour_rules::{Long, Payload};
use interference::Network;
use node_pool::run_workers;
use outcomes::Outcome;
use run_options::{Options, PoolFault};
use std::alloc::Global;
use std::sync::Wait;
use std::thread::Threads;
use sync_rounds::Greatest;
use wired_nodes::OpenGate;
use wires::{Stamped, Wire};

/// More looks than a run of two workers needs that gets on at all.
pub const BY_TWO: Options = Options {
    workers: 2,
    capacity: 4,
    turns: 1_000_000_000,
    transcript: false,
};

pub fn path(alloc: Global) -> Option<Network> {
    Network::try_new(alloc, &[1, 2, 3], &[(1, 2), (2, 3)], &[]).ok()
}

/// Two nodes with identifiers 1 and 2 and an edge.
pub fn pair(alloc: Global) -> Option<Network> {
    Network::try_new(alloc, &[1, 2], &[(1, 2)], &[]).ok()
}

/// Three nodes without edges.
pub fn apart(alloc: Global) -> Option<Network> {
    Network::try_new(alloc, &[1, 2, 3], &[], &[]).ok()
}

pub fn triangle(alloc: Global) -> Option<Network> {
    Network::try_new(alloc, &[1, 2, 3], &[(1, 2), (1, 3), (2, 3)], &[]).ok()
}

// Whether two vertices of a small network are neighbours: any bit that depends on all three numbers.
fn are_joined(number: u32, v: u32, w: u32) -> bool {
    let mixed = number
        .wrapping_mul(2_654_435_761)
        .wrapping_add(v.wrapping_mul(40_503))
        .wrapping_add(w.wrapping_mul(69_069));
    (mixed ^ (mixed >> 15)) % 2 == 0
}

// The identifiers of `count` vertices, in no order.
fn ids_of(alloc: Global, number: u32, count: u32) -> Option<Vec<u128>>
    requires few { count < 7 }
{
    let mut ids = Vec::new(alloc);
    for v in 1..count + 1 {
        if ids.push(u128::from((v * 37 + number % 101) % 101)).is_err() {
            return None;
        }
    }
    Some(ids)
}

// Adds the edges from a vertex to those behind it. Whether memory was enough.
fn add_edges(edges: &mut Vec<(u32, u32)>, number: u32, v: u32, count: u32) -> bool
    requires few { count < 7 }
    requires vertex { v ≤ count }
{
    for w in v + 1..count + 1 {
        if are_joined(number, v, w) && edges.push((v, w)).is_err() {
            return false;
        }
    }
    true
}

fn edges_of(alloc: Global, number: u32, count: u32) -> Option<Vec<(u32, u32)>>
    requires few { count < 7 }
{
    let mut edges = Vec::new(alloc);
    for v in 1..count + 1 {
        if !add_edges(&mut edges, number, v, count) {
            return None;
        }
    }
    Some(edges)
}

fn network_of(alloc: Global, ids: &[u128], number: u32) -> Option<Network> {
    match edges_of(alloc, number, number % 7) {
        Some(edges) => Network::try_new(alloc, ids, edges.as_slice(), &[]).ok(),
        None => None,
    }
}

/// One of many small networks, of at most six vertices, with identifiers in no order.
pub fn small(alloc: Global, number: u32) -> Option<Network> {
    match ids_of(alloc, number, number % 7) {
        Some(ids) => network_of(alloc, ids.as_slice(), number),
        None => None,
    }
}

// Whether a run is whole, and its nodes know these greatest identifiers, by vertex.
fn know<const D: u32>(outcome: &Outcome<Greatest<D>>, bests: &[u128]) -> bool {
    for (index, actor) in outcome.actors().iter().enumerate() {
        if bests.get(index) != Some(&actor.alpha().program().best()) {
            return false;
        }
    }
    outcome.is_whole() && outcome.actors().len() == bests.len()
}

/// Whether a run is whole, and its nodes know these greatest identifiers at the end, by vertex.
pub fn ends_with<const D: u32, R: Threads + Wait + Sync>(
    rt: &R,
    alloc: Global,
    net: &Network,
    workers: u32,
    capacity: u32,
    bests: &[u128],
) -> bool {
    let options = Options {
        workers,
        capacity,
        turns: 100_000_000,
        transcript: false,
    };
    match run_workers::<Greatest<D>, OpenGate, R>(rt, alloc, net, options, &OpenGate) {
        Ok(outcome) => know(&outcome, bests),
        Err(_) => false,
    }
}

/// The same wire, of a greeting from this identifier.
pub fn greeted(wire: Wire<u128>) -> Wire<Payload> {
    match wire {
        Wire::Payload(pulse, id) => Wire::Payload(pulse, Payload::Hello(Long::new(id))),
        Wire::Ack(pulse) => Wire::Ack(pulse),
        Wire::Safe(pulse) => Wire::Safe(pulse),
        Wire::Close => Wire::Close,
    }
}

// Whether these are the same wires and stamps, of greetings from these identifiers.
fn are_greetings(held: &[Stamped<Payload>], wanted: &[Stamped<u128>]) -> bool {
    for (one, other) in held.iter().zip(wanted) {
        if one.stamp != other.stamp || one.wire != greeted(other.wire) {
            return false;
        }
    }
    held.len() == wanted.len()
}

/// Whether the links out of a vertex hold just these wires after a run of the colouring, by port, each with its stamp.
pub fn holds(
    net: &Network,
    outcome: &Outcome<Colouring>,
    vertex: u32,
    by_port: &[&[Stamped<u128>]],
) -> bool
    requires vertex { IsVertex net.now vertex }
    requires rows { length outcome.now.links ≡ length (vertices net.now) }
    requires row { length (row_in outcome.now vertex) ≡ degree_of net.now vertex }
{
    for port in 0..net.degree(vertex) {
        let held = outcome.link(vertex, port).held();
        match by_port.get(port as usize) {
            Some(wanted) if are_greetings(held, *wanted) => (),
            _ => return false,
        }
    }
    true
}

/// One worker with a transcript, which makes this number of looks.
pub fn of_one(capacity: u32, looks: u64) -> Options {
    Options {
        workers: 1,
        capacity,
        turns: looks,
        transcript: true,
    }
}

/// The run of one worker with a transcript, after this number of looks.
pub fn run_of_one<R: Threads + Wait + Sync>(
    rt: &R,
    alloc: Global,
    net: &Network,
    capacity: u32,
    looks: u64,
) -> Result<Outcome<Colouring>, PoolFault> {
    run_workers::<Colouring, OpenGate, R>(rt, alloc, net, of_one(capacity, looks), &OpenGate)
}
