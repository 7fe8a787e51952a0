//! A program, run after the colouring, in which all nodes choose their colours again, so that no node can lower its own
//! colour while the others keep theirs. The colour classes of `colour_program` take turns, the greatest colour first.
//! In the turn of its class a node takes the least colour that isn't barred at it and isn't the new colour of a
//! neighbour. This is the iterated greedy of J. C. Culberson, Iterated greedy graph coloring and the difficulty
//! landscape, 1992, with the classes in reverse order, by messages.
//!
//! All these turns together are a pass. `Recolouring` makes one pass, and as many more as its network says
//! (`Network::again`), each from the colours of the pass before.
//!
//! The new colours are proper and not barred, at most the degree and the bars of each node, and no node can lower its
//! own while the others keep theirs; no pass ends with more channels than it began with (`laws`).
//!
//! ```text
//! for node in &run_rounds::<Recolouring>(alloc, &net.repeating(63))? {
//!     colours.push(node.beside().colour())?;
//! }
//! ```
//!
//! Limits: those of `colour_rules`.
#![tactic(auto)]

mod anew;
pub mod laws;
mod node;
mod texts;

pub use anew::Anew;
pub use node::{Recolouring, Recolours};
