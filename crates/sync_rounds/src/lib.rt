//! An engine that runs any program of nodes with a common clock on one thread, one round after the other.
//!
//! `run_rounds` returns every node after the last pulse of the synchronous run, for every program; the command `plain`
//! calls it. `Rounds` makes one pulse at a time, for callers that look at the nodes and at their messages after each
//! pulse. `round_texts` is such a caller. `run_rounds` makes the pulses of a `Rounds` up to the last one. `Greatest` is
//! a small program, to try engines with and to read as an example.
//!
//! ```text
//! let nodes = run_rounds::<Greatest<2>>(alloc, &net)?;
//! let best = nodes[0].best();    // the greatest identifier within two links of vertex 1
//! ```
//!
//! The code allocates only at the start of a run: two inboxes for each node, which change places after a pulse, and an
//! outbox for each degree that occurs. The time of a pulse grows with the number of messages that are sent and of nodes
//! that are called. A node that rests and to which nothing came costs one look, and a port at which nothing is sent
//! costs nothing. The messages that a vertex sent are read in the inboxes of its neighbours. No contract says this
//! about memory and time.
//!
//! Limits: those of a `Network`, and a last pulse below 2³².
#![tactic(auto)]

mod boxes;
mod delivery;
mod engine;
mod greatest;
pub mod laws;
mod rounds;

pub use greatest::{Best, Greatest};
pub use rounds::{Rounds, run_rounds};
