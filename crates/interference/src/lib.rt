//! The interference network as a data type: each vertex has a unique identifier, numbered ports to its neighbours, and
//! a set of barred colours.
//!
//! Vertices count from 1 and ports from 0; the ports of a vertex ascend by the neighbour's number. `forests`,
//! `node_api` and `channel_plan` use it. Contracts see a network as the record `Net` of `specs/Net.antt`: the list of
//! identifiers, and for each vertex the list of its neighbours and the list of its barred colours. Colours count from
//! 0: a colour is the channel less one.
//!
//! ```
//! let net = Network::new(alloc, 3, &[7, 9, 8], &[(1, 2), (1, 3), (2, 3)], &[(3, 1)])?;
//! net.neighbour(3, 1) // 2, the greater neighbour of vertex 3
//! net.bars(3) // [0], the colour of channel 1
//! ```
//!
//! Limits: `MAX_NODES` (20,000) nodes and `MAX_EDGES` (400,000) edges, both of `graph_limits`; `MAX_DEGREE` (1,023)
//! neighbours a node; `MAX_BARS` (1,024) bars a node, of channels up to `MAX_CHANNEL` (2,048); identifiers below 2^128.
#![tactic(auto)]

mod bars;
mod degrees;
mod edges;
mod fault;
mod forests;
pub mod laws;
mod limits;
mod making;
mod network;
mod rows;
mod same_ids;

pub use bars::bars_fit;
pub use edges::edges_fit;
pub use fault::{Memory, NetFault, TryFault};
pub use limits::MAX_DEGREE;
pub use network::Network;
