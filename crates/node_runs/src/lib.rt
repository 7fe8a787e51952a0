//! The first part of a run on worker threads: links and nodes are made from a network, and the workers of `pool` run
//! the nodes.
//!
//! `making` makes the links, each with its two ends; `wired` and `starting` make the nodes, each with the ends of its
//! links. `turns` has a node's turn as a worker makes it; `run` lets workers run the nodes, and `refusals` says which
//! fault a run has if turns of its nodes ended early. What a turn leaves is a fact of the node's type (`wired_nodes`).
//! `node_pool` calls the two functions of the example, and then lets `outcomes` gather the nodes and links.
//!
//! ```text
//! let made = make_links::<P>(alloc, &network, options.capacity.min(2) as usize)?;
//! let ran = start_and_run::<J, P, OpenGate, Unobserved, _>(
//!     &rt, alloc, &network, options, &OpenGate, &Unobserved, made,
//! )?;
//! ```
//!
//! Limits: `MAX_WORKERS` and `MAX_CAPACITY`. Without a transcript no turn can return out-of-memory. Nothing is promised
//! about time, about fairness, or that a call returns.
#![tactic(auto)]

mod making;
mod refusals;
mod run;
mod starting;
mod turns;
mod wired;

pub use making::{Made, make_links};
pub use run::{Ran, start_and_run};
