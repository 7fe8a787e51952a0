//! An engine that runs all nodes of a network without a clock on one thread, in a fair order, until no event is
//! possible, with laws of every fair order.
//!
//! The nodes are the same as in a run of worker threads: all that a node knows of its neighbours is their wires.
//! `run_alone` always returns, and each node is then in the last state that `one_end` of `event_rule` gives it.
//! `run_alone` uses one of many orders: by `laws` every order in which each node's turn comes again and again ends in
//! the same states. `play_runs` calls it.
//!
//! ```text
//! let state = run_alone::<Colouring>(alloc, &network)?;
//! ```
//!
//! Limits: those of `interference`; all wires that were put stay in memory.
#![tactic(auto)]

mod alone;
pub mod laws;
mod recording;

pub use alone::run_alone;
pub use recording::record_alone;
