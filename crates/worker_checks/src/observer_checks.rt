//! What an observer is shown of a run, ended or not.

use crate::runs::{BY_TWO, of_one, triangle};
use crate::sightings::Counting;
use colour_program::Colouring;
use interference::Network;
use node_pool::run_observed;
use run_options::Options;
use std::alloc::Global;
use std::sync::Wait;
use std::thread::Threads;

// Whether a run that the observer sees is whole, if it has an outcome.
fn is_whole<R: Threads + Wait + Sync>(
    rt: &R,
    alloc: Global,
    net: &Network,
    options: Options,
    counting: &Counting,
) -> Option<bool> {
    match run_observed::<Colouring, Counting, Counting, R>(
        rt, alloc, net, options, counting, counting,
    ) {
        Ok(outcome) => Some(outcome.is_whole()),
        Err(_) => None,
    }
}

fn sees_each_turn<R: Threads + Wait + Sync>(
    rt: &R,
    alloc: Global,
    net: &Network,
    options: Options,
) -> bool {
    let counting = Counting::new();
    is_whole(rt, alloc, net, options, &counting) == Some(true)
        && counting.has_seen_all(1)
        && counting.has_seen_all(2)
        && counting.has_seen_all(3)
}

#[test]
fn an_observer_sees_each_node_on_its_way(rt: HostRuntime) {
    let net = triangle(rt.alloc()).expect(&rt, "network");
    assert!(rt; sees_each_turn(&rt, rt.alloc(), &net, BY_TWO));
    assert!(rt; sees_each_turn(&rt, rt.alloc(), &net, of_one(1, 1_000_000)));
}

// Two looks of one worker are at nodes 1 and 2. Node 1 puts two wires; node 2 takes one of them, whose stamp is 1, and
// puts three. Node 3 has done nothing.
fn sees_two_turns<R: Threads + Wait + Sync>(rt: &R, alloc: Global, net: &Network) -> bool {
    let counting = Counting::new();
    is_whole(rt, alloc, net, of_one(4, 2), &counting) == Some(false)
        && counting.has_seen(1, 1, 2)
        && counting.has_seen(2, 1, 5)
        && counting.has_seen(3, 0, 0)
}

#[test]
fn an_observer_sees_a_run_that_is_stopped(rt: HostRuntime) {
    let net = triangle(rt.alloc()).expect(&rt, "network");
    assert!(rt; sees_two_turns(&rt, rt.alloc(), &net));
}

// No run is made, and nobody is seen.
fn sees_nobody<R: Threads + Wait + Sync>(rt: &R, alloc: Global, net: &Network) -> bool {
    let counting = Counting::new();
    is_whole(rt, alloc, net, of_one(0, 2), &counting) == None
        && counting.has_seen(1, 0, 0)
        && counting.has_seen(2, 0, 0)
        && counting.has_seen(3, 0, 0)
}

#[test]
fn an_observer_sees_nobody_if_options_are_refused(rt: HostRuntime) {
    let net = triangle(rt.alloc()).expect(&rt, "network");
    assert!(rt; sees_nobody(&rt, rt.alloc(), &net));
}
