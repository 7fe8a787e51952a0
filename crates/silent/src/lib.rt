//! A sample program in which no node sends a message and each node ends in its first state. `python3 build new-program`
//! makes a program of your own from this crate, which has all that a program needs, with each law proved.
//!
//! ```text
//! for node in &run_rounds::<Silent>(alloc, &net)? {
//!     numbers.push(node.number())?;
//! }
//! ```
//!
//! Limits: those of `node_api`.
#![tactic(auto)]

pub mod laws;
mod node;
mod payload;
mod texts;

pub use node::Silent;
pub use payload::Word;
