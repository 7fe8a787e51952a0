//! The networks of most tests, in boxes: to own a box costs less proof than to own a network.

use interference::{Memory, Network};
use std::alloc::Global;

/// The network of these identifiers and edges.
pub fn network(alloc: Global, ids: &[u128], edges: &[(u32, u32)]) -> Result<Box<Network>, Memory> {
    match Network::try_new(alloc, ids, edges, &[]) {
        Ok(net) => Ok(Box::new(alloc, net)?),
        Err(_) => Err(Memory),
    }
}

/// Two nodes with identifiers 1 and 2 and an edge.
pub fn edge(alloc: Global) -> Result<Box<Network>, Memory> {
    network(alloc, &[1, 2], &[(1, 2)])
}
