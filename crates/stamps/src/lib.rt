//! The rule of stamps, which are Lamport's logical clocks on entries and wires, and the list of all nodes' entries in
//! the order of their stamps.
//!
//! Each node has a counter (`Counter` of `alpha_core`). A pulse or a put adds one to it; a take sets it to one more
//! than the maximum of the counter and the wire's stamp. The stamp of an entry is the counter after its event, and a
//! wire has the stamp of its put. So a take has a greater stamp than the put of its wire.
//!
//! `specs/Stamps.antt` says which stamps the entries of one node have, and `specs/Merged.antt` says it of the entries
//! of all nodes in one list. `order` makes that list, and only tests use it: the programs merge entries in
//! `transcripts`. `replay_whole` of `net_core` plays the list.
//!
//! ```text
//! let lists = [..];                            // the stamped entries of node v in place v - 1
//! if rising(&lists) {
//!     let rows = order(alloc, &lists)?;        // each a `StampedRow`, with its stamp and the vertex of its node
//! }
//! ```
#![tactic(auto)]

pub mod laws;
mod ordering;
mod rise;
mod table;

pub use ordering::order;
pub use rise::rising;
pub use table::StampTable;
