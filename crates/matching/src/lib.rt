//! A program for a maximal matching: each node ends with the port that leads to its partner, or it ends free and has no
//! free neighbour. Each node is its partner's partner. The algorithm is from A. Panconesi and R. Rizzi, Some simple
//! distributed algorithms for sparse networks, 2001. It uses the forests and three-colours of `colour_rules`, so a node
//! first runs the colouring up to pulse 12.
//!
//! ```text
//! for node in &run_rounds::<Matching>(alloc, &net)? {
//!     partners.push(node.beside().partner())?;
//! }
//! ```
//!
//! Limits: those of `colour_rules`.
#![tactic(auto)]

pub mod laws;
mod node;
mod proposal;
mod texts;

pub use node::{Matching, Turns};
pub use proposal::Proposal;
