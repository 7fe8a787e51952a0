//! A program that elects a leader by flooding: every node ends with the greatest identifier of its component.
//!
//! At pulse 0 a node sends its identifier to all neighbours, and later the greatest identifier that it knows, at the
//! pulses at which it heard a greater one. The last pulse is n, the number of nodes, and nothing is sent at it: every
//! vertex of a component is reached over fewer than n links. This is `OptFloodMax` of N. A. Lynch, Distributed
//! Algorithms, 1996, section 4.1, with n instead of the diameter.
//!
//! `laws` proves that the nodes end with the greatest identifier. A refusal names one of the `rules`.
//!
//! ```text
//! for node in &run_rounds::<Leader>(alloc, &net)? {
//!     leaders.push(node.best())?;
//! }
//! ```
//!
//! Limits: those of `node_api`.
#![tactic(auto)]

mod candidate;
mod hearing;
pub mod laws;
mod node;
pub mod rules;
mod texts;

pub use candidate::Candidate;
pub use node::Leader;
