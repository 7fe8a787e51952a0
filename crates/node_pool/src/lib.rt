//! The function `run_workers`, which makes a whole run on worker threads: it takes a network and options, uses
//! `node_runs` and `outcomes`, and returns the outcome.
//!
//! Whatever the threads did, `IsOutcome` of `outcomes` holds of the result: it has each node once, in a state of the
//! synchronous run, with the lists of each link. `plan_runs` makes channel plans from outcomes.
//!
//! ```text
//! let options = Options { workers: 4, capacity: 4, turns: 1_000_000, transcript: false };
//! let outcome = run_workers::<Colouring, OpenGate, _>(&rt, alloc, &network, options, &OpenGate)?;
//! if outcome.is_whole() { .. outcome.actors() .. }
//! ```
//!
//! `run_workers` lets `node_runs` make the links and run the nodes, and then lets `outcomes` gather the nodes and
//! links.
//!
//! Limits: `MAX_WORKERS` and `MAX_CAPACITY`. Without a transcript no turn can return out-of-memory. Nothing is promised
//! about time, about fairness, that an outcome is whole, or that the call returns.
#![tactic(auto)]

mod run;

pub use run::{run_observed, run_workers};
