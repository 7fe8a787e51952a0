//! A program for breadth-first layers: every node that is reached from the root ends with its distance from the root
//! and a port that leads one link closer. The root is the node of identifier 1. Without a node of identifier 1 no node
//! is reached.
//!
//! The root sends its distance 0 to all neighbours at pulse 0. A node that hears for the first time at pulse p is at
//! distance p: the first port at which it heard leads towards the root, and it sends `hops p` to all neighbours. So a
//! node sends once, at the pulse that is its distance. With n nodes the last pulse is n - 1, and no distance is
//! greater. This is `SynchBFS` of N. A. Lynch, Distributed Algorithms, 1996, section 4.2.
//!
//! `laws` proves that the nodes end with the distances. A refusal names one of the `rules`.
//!
//! ```text
//! for node in &run_rounds::<Layers>(alloc, &net)? {
//!     layers.push(node.layer())?;
//! }
//! ```
//!
//! Limits: those of `node_api`.
#![tactic(auto)]

mod hearing;
mod hops;
pub mod laws;
mod layer;
mod node;
pub mod rules;
mod texts;

pub use hops::Hops;
pub use layer::{Layer, ROOT_ID};
pub use node::Layers;
