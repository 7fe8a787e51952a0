//! A worked run: the expected numbers are by hand.

use interference::{Network, bars_fit, edges_fit};
use silent::Silent;
use std::alloc::{AllocGlobal, Global};
use sync_rounds::run_rounds;

// The path 1 - 2 - 3.
static IDS: [u128; 3] = [1, 2, 3];

static EDGES: [(u32, u32); 2] = [(1, 2), (2, 3)];

fn numbers_are(nodes: &[Silent], wanted: &[u32]) -> bool {
    if nodes.len() != wanted.len() {
        return false;
    }
    for i in 0..nodes.len() {
        if nodes[i].number() != wanted[i] {
            return false;
        }
    }
    true
}

fn run_of_a_path(alloc: Global) -> bool {
    if !edges_fit(3, &EDGES) || !bars_fit(3, &[]) {
        return false;
    }
    let Ok(net) = Network::new(alloc, 3, &IDS, &EDGES, &[]) else {
        return false;
    };
    match run_rounds::<Silent>(alloc, &net) {
        Ok(nodes) => numbers_are(nodes.as_slice(), &[0, 0, 0]),
        Err(_) => false,
    }
}

#[test]
fn a_path_ends_with_its_numbers(rt: HostRuntime) {
    assert!(rt; run_of_a_path(rt.alloc()));
}
