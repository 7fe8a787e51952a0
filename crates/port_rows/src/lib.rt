//! Tables with one value for each vertex and port, and a function that moves each value to the other end of its link. A
//! table has a row for each vertex, and a row has a value for each port.
//!
//! `crossed` moves each value to the other end of its link, and `pairs` makes one row of pairs from two rows. The
//! values may have any type. `outcomes` has the ends of links in such rows, and `node_runs` makes these rows.
//!
//! ```text
//! let takes = crossed(alloc, &network, takes)?;
//! let row = pairs(alloc, puts, takes)?;
//! ```
//!
//! Limits: those of `interference`.
#![tactic(auto)]

mod beside;
mod cross;

pub use beside::pairs;
pub use cross::crossed;
