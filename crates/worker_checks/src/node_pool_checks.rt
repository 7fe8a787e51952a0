//! Runs of nodes on worker threads.

use crate::meeting::Meeting;
use crate::runs::{BY_TWO, apart, ends_with, path, small, triangle};
use crate::stealing::Stealing;
use colour_program::Colouring;
use interference::Network;
use node_pool::run_workers;
use run_options::{Options, PoolFault};
use std::alloc::Global;
use std::sync::Wait;
use std::thread::Threads;
use sync_rounds::{Greatest, run_rounds};
use wired_nodes::{Gate, OpenGate};

// How many pulses a node of the triangle makes at least; a turn makes one at most.
pub const PULSES: u64 = 30;

// Whether a run through a gate is whole, or why there is no outcome.
fn is_whole<G: Gate + Sync, R: Threads + Wait + Sync>(
    rt: &R,
    alloc: Global,
    net: &Network,
    options: Options,
    gate: &G,
) -> Result<bool, PoolFault> {
    let outcome = run_workers::<Colouring, G, R>(rt, alloc, net, options, gate)?;
    Ok(outcome.is_whole())
}

fn two_meet<R: Threads + Wait + Sync>(rt: &R, alloc: Global, net: &Network) -> bool {
    let gate = Meeting::new();
    is_whole(rt, alloc, net, BY_TWO, &gate) == Ok(true) && gate.saw_two_at_once(PULSES)
}

#[test]
fn two_workers_are_in_turns_at_once(rt: HostRuntime) {
    let net = triangle(rt.alloc()).expect(&rt, "network");
    assert!(rt; two_meet(&rt, rt.alloc(), &net));
}

// Two workers, the first of which has nodes 1 and 3: while one is held at node 1, the other has to steal node 3, or to
// have stolen node 1.
fn one_steals<R: Threads + Wait + Sync>(rt: &R, alloc: Global, net: &Network) -> bool {
    let gate = Stealing::new();
    is_whole(rt, alloc, net, BY_TWO, &gate) == Ok(true) && gate.saw_a_steal()
}

#[test]
fn a_worker_steals(rt: HostRuntime) {
    let net = apart(rt.alloc()).expect(&rt, "network");
    assert!(rt; one_steals(&rt, rt.alloc(), &net));
}

// The greatest identifiers that nodes of the rounds know.
fn bests_of(alloc: Global, nodes: &[Greatest<3>]) -> Option<Vec<u128>> {
    let mut bests = Vec::new(alloc);
    for node in nodes {
        if bests.push(node.best()).is_err() {
            return None;
        }
    }
    Some(bests)
}

fn bests_of_the_rounds(alloc: Global, net: &Network) -> Option<Vec<u128>> {
    match run_rounds::<Greatest<3>>(alloc, net) {
        Ok(nodes) => bests_of(alloc, nodes.as_slice()),
        Err(_) => None,
    }
}

// Whether these workers find the greatest identifiers on a network that the rounds find.
fn are_those_of_the_rounds<R: Threads + Wait + Sync>(
    rt: &R,
    alloc: Global,
    net: &Network,
    workers: u32,
    capacity: u32,
) -> bool {
    match bests_of_the_rounds(alloc, net) {
        Some(bests) => ends_with::<3, R>(rt, alloc, net, workers, capacity, bests.as_slice()),
        None => false,
    }
}

fn are_alike_on_a_small_one<R: Threads + Wait + Sync>(
    rt: &R,
    alloc: Global,
    number: u32,
    workers: u32,
) -> bool {
    match small(alloc, number) {
        Some(net) => are_those_of_the_rounds(rt, alloc, &net, workers, number % 4 + 1),
        None => false,
    }
}

// Whether within two links all nodes of the path of three know the greatest.
fn are_3_on_the_path<R: Threads + Wait + Sync>(rt: &R, alloc: Global, workers: u32) -> bool {
    match path(alloc) {
        Some(net) => ends_with::<2, R>(rt, alloc, &net, workers, 4, &[3, 3, 3]),
        None => false,
    }
}

fn end_as_the_rounds_do<R: Threads + Wait + Sync>(rt: &R, alloc: Global, workers: u32) -> bool {
    for number in 0..100 {
        if !are_alike_on_a_small_one(rt, alloc, number, workers) {
            return false;
        }
    }
    are_3_on_the_path(rt, alloc, workers)
}

#[test]
fn workers_end_as_the_rounds_do(rt: HostRuntime) {
    assert!(rt; end_as_the_rounds_do(&rt, rt.alloc(), 1));
    assert!(rt; end_as_the_rounds_do(&rt, rt.alloc(), 2));
    assert!(rt; end_as_the_rounds_do(&rt, rt.alloc(), 4));
}

// The greatest options, and no look.
const NO_LOOK: Options = Options {
    workers: 64,
    capacity: 64,
    turns: 0,
    transcript: false,
};

// Workers and capacities of which one is out of range, or both are.
static OUT_OF_RANGE: [(u32, u32); 6] = [
    (0, 4),
    (65, 4),
    (4, 0),
    (4, 65),
    (0, 0),
    (u32::MAX, u32::MAX),
];

fn are_refused<R: Threads + Wait + Sync>(rt: &R, alloc: Global, net: &Network) -> bool {
    for (workers, capacity) in &OUT_OF_RANGE {
        let options = Options {
            workers: *workers,
            capacity: *capacity,
            turns: 1,
            transcript: false,
        };
        if is_whole(rt, alloc, net, options, &OpenGate) != Err(PoolFault::BadOptions) {
            return false;
        }
    }
    true
}

// Whether a run on no nodes is whole without a look.
fn none_is_whole<R: Threads + Wait + Sync>(rt: &R, alloc: Global) -> bool {
    match Network::try_new(alloc, &[], &[], &[]) {
        Ok(none) => is_whole(rt, alloc, &none, NO_LOOK, &OpenGate) == Ok(true),
        Err(_) => false,
    }
}

// Whether options out of range are refused, and others aren't.
fn are_refused_alone<R: Threads + Wait + Sync>(rt: &R, alloc: Global, net: &Network) -> bool {
    are_refused(rt, alloc, net)
        && is_whole(rt, alloc, net, NO_LOOK, &OpenGate) == Ok(false)
        && none_is_whole(rt, alloc)
}

#[test]
fn options_out_of_range_are_refused_first(rt: HostRuntime) {
    let net = path(rt.alloc()).expect(&rt, "network");
    assert!(rt; are_refused_alone(&rt, rt.alloc(), &net));
}
