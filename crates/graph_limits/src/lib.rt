//! Constants for the limits of a graph, such as the greatest number of vertices, and the pair of vertices that stands
//! for an edge. The reader of network texts and the network itself share them.
//!
//! `dimacs_col` reads texts within these limits, `interference` makes networks within them, and crates above cite them.
//!
//! ```text
//! assert(ordered(3, 1) == (1, 3));
//! ```
#![tactic(auto)]

mod limits;
mod pair;

pub use limits::{IDENTIFIER_DIGITS, MAX_BARS, MAX_CHANNEL, MAX_EDGES, MAX_NODES};
pub use pair::ordered;
