//! Worked runs of `Greatest`, and the order in which the engine calls a program.

use crate::counted::Counted;
use crate::networks::network;
use crate::resting::Resting;
use interference::Network;
use node_api::PayloadText;
use std::alloc::Global;
use sync_rounds::{Best, Greatest, run_rounds};

fn know<const D: u32>(nodes: &[Greatest<D>], wanted: &[u128]) -> bool {
    if nodes.len() != wanted.len() {
        return false;
    }
    for i in 0..nodes.len() {
        if nodes[i].best() != wanted[i] {
            return false;
        }
    }
    true
}

// Whether the nodes end with these greatest identifiers.
fn end_with<const D: u32>(alloc: Global, net: &Network, wanted: &[u128]) -> bool {
    match run_rounds::<Greatest<D>>(alloc, net) {
        Ok(nodes) => know(nodes.as_slice(), wanted),
        Err(_) => false,
    }
}

static PATH: [(u32, u32); 2] = [(1, 2), (2, 3)];

fn path_ends_with<const D: u32>(alloc: Global, wanted: &[u128]) -> bool {
    match network(alloc, &[1, 2, 3], &PATH) {
        Ok(net) => end_with::<D>(alloc, &net, wanted),
        Err(_) => false,
    }
}

// This and the next test do the same but for the number of pulses: tests/faults/test_allocations.py compares how
// often they allocate.
#[test]
fn greatest_within_1_link(rt: HostRuntime) {
    assert!(rt; path_ends_with::<1>(rt.alloc(), &[2, 3, 3]));
}

#[test]
fn greatest_within_no_and_two_links(rt: HostRuntime) {
    assert!(rt; path_ends_with::<0>(rt.alloc(), &[1, 2, 3]));
    assert!(rt; path_ends_with::<2>(rt.alloc(), &[3, 3, 3]));
}

#[test]
fn greatest_within_50_links(rt: HostRuntime) {
    assert!(rt; path_ends_with::<50>(rt.alloc(), &[3, 3, 3]));
}

// Vertices 1 and 2 with identifiers 9 and 4, vertex 3 alone, and a star of 5 about vertex 4.
static IDS: [u128; 7] = [9, 4, 20, 5, 8, 6, 7];

static EDGES: [(u32, u32); 4] = [(1, 2), (4, 5), (4, 6), (4, 7)];

fn stays_in_its_part(alloc: Global, net: &Network) -> bool {
    end_with::<0>(alloc, net, &IDS)
        && end_with::<1>(alloc, net, &[9, 9, 20, 8, 8, 6, 7])
        && end_with::<3>(alloc, net, &[9, 9, 20, 8, 8, 8, 8])
}

#[test]
fn greatest_stays_in_its_part_of_the_network(rt: HostRuntime) {
    let net = network(rt.alloc(), &IDS, &EDGES).expect(&rt, "network");
    assert!(rt; stays_in_its_part(rt.alloc(), &net));
}

fn has_the_word_best() -> bool {
    let (word, number) = Best(7).words();
    word == "best" && number == 7 && Best::from_words(word, number) == Some(Best(7))
}

#[test]
fn the_word_of_greatest_is_best(rt: HostRuntime) {
    let none = network(rt.alloc(), &[], &[]).expect(&rt, "network");
    assert!(rt; end_with::<1>(rt.alloc(), &none, &[]));
    assert!(rt; has_the_word_best());
}

// Whether each of these nodes made this number of calls, in order.
fn made_calls<const D: u32>(nodes: &[Counted<D>], calls: u32) -> bool {
    for node in nodes {
        if node.calls() != Some(calls) {
            return false;
        }
    }
    true
}

// Whether each node of the path of three did.
fn make_calls<const D: u32>(alloc: Global, net: &Network, calls: u32) -> bool {
    match run_rounds::<Counted<D>>(alloc, net) {
        Ok(nodes) => nodes.len() == 3 && made_calls(nodes.as_slice(), calls),
        Err(_) => false,
    }
}

#[test]
fn every_pulse_makes_its_three_calls_in_order(rt: HostRuntime) {
    let net = network(rt.alloc(), &[1, 2, 3], &PATH).expect(&rt, "network");
    assert!(rt; make_calls::<0>(rt.alloc(), &net, 0));
    assert!(rt; make_calls::<1>(rt.alloc(), &net, 3));
    assert!(rt; make_calls::<7>(rt.alloc(), &net, 21));
}

// Whether the first node was called at each of three pulses, and each other at one at most.
fn were_passed_over(nodes: &[Resting]) -> bool {
    for i in 0..nodes.len() {
        let calls = nodes[i].calls();
        if calls > 1 && i > 0 || calls != 3 && i == 0 {
            return false;
        }
    }
    nodes.len() == 3
}

fn passes_over(alloc: Global, net: &Network) -> bool {
    match run_rounds::<Resting>(alloc, net) {
        Ok(nodes) => were_passed_over(nodes.as_slice()),
        Err(_) => false,
    }
}

// The path of three nodes has three pulses. An engine doesn't know of the first that nodes rest.
#[test]
fn a_node_that_rests_is_passed_over(rt: HostRuntime) {
    let net = network(rt.alloc(), &[1, 2, 3], &PATH).expect(&rt, "network");
    assert!(rt; passes_over(rt.alloc(), &net));
}
