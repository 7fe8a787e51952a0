//! Ports that are numbered, and networks that are decomposed.

use crate::networks::network;
use forests::Role::{Down, Unknown, Up};
use forests::{decompose, number_up};
use interference::Network;
use std::alloc::Global;

// Whether a network is decomposed into these triples.
fn has_triples(alloc: Global, net: &Network, triples: &[(u16, u32, u32)]) -> bool {
    match decompose(alloc, net) {
        Ok(found) => found.as_slice() == triples,
        Err(_) => false,
    }
}

fn decomposes(
    alloc: Global,
    ids: &[u128],
    edges: &[(u32, u32)],
    triples: &[(u16, u32, u32)],
) -> bool {
    match network(alloc, ids, edges) {
        Ok(net) => has_triples(alloc, &net, triples),
        Err(_) => false,
    }
}

fn three_are_numbered() -> bool {
    let mut roles = [Down(7); 3];
    number_up(5, &[9, 2, 7], &mut roles);
    roles == [Up(1), Unknown, Up(0)]
}

#[test]
fn ports_are_numbered_as_worked(rt: HostRuntime) {
    assert!(rt; three_are_numbered());
    assert!(rt; Unknown.forest() == None && Up(3).forest() == Some(3));
    assert!(rt; Down(0).forest() == Some(0));
}

static ALL: [(u32, u32); 3] = [(1, 2), (1, 3), (2, 3)];

static PATH: [(u32, u32); 2] = [(1, 2), (2, 3)];

// Identifiers, edges, and the triples worked by hand.
fn three_are_decomposed(alloc: Global) -> bool {
    decomposes(alloc, &[1, 2, 3], &ALL, &[(0, 1, 2), (0, 2, 3), (1, 1, 3)])
        && decomposes(alloc, &[1, 2, 3], &PATH, &[(0, 1, 2), (0, 2, 3)])
        && decomposes(alloc, &[9, 5, 7], &PATH, &[(0, 2, 3), (1, 2, 1)])
}

fn fewer_are_decomposed(alloc: Global) -> bool {
    decomposes(alloc, &[7, 2], &[(1, 2)], &[(0, 2, 1)])
        && decomposes(alloc, &[1, 2], &[], &[])
        && decomposes(alloc, &[], &[], &[])
}

#[test]
fn forests_are_decomposed_as_worked(rt: HostRuntime) {
    assert!(rt; three_are_decomposed(rt.alloc()));
    assert!(rt; fewer_are_decomposed(rt.alloc()));
}
