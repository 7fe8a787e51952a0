//! A first program whose calls are counted, and which is cut off before its last pulse.

use crate::networks::network;
use crate::pausing::Pausing;
use interference::Network;
use std::alloc::Global;
use sync_rounds::run_rounds;

// Whether each node made the three calls of two pulses of the first program, in order, and no other, and then the
// pulses 0 and 1 of the sequel.
fn are_cut_off(nodes: &[Pausing]) -> bool {
    for node in nodes {
        if node.first().calls() != Some(6) || node.beside().made() != 1 {
            return false;
        }
    }
    true
}

fn end_cut_off(alloc: Global, net: &Network) -> bool {
    match run_rounds::<Pausing>(alloc, net) {
        Ok(nodes) => nodes.len() == 3 && are_cut_off(nodes.as_slice()),
        Err(_) => false,
    }
}

#[test]
fn each_pulse_up_to_the_cut_makes_all_calls_of_the_first_program(rt: HostRuntime) {
    let net = network(rt.alloc(), &[1, 2, 3], &[(1, 2), (2, 3)]).expect(&rt, "network");
    assert!(rt; end_cut_off(rt.alloc(), &net));
}
