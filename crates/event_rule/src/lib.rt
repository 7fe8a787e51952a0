//! Executions as lists of events: the definitions of a state, an event, a run and a replay, and laws of every run, for
//! example that no run deadlocks and that the length of every run is bounded.
//!
//! `specs/State.antt` has the state of a network under synchroniser alpha (Awerbuch 1985). `specs/Step.antt` has the
//! events of the network as functions, and `specs/Events.antt` has events and runs as relations. `specs/Rows.antt` has
//! the entry that an event writes, and `specs/Replays.antt` and `specs/Whole.antt` say what a replay of entries is.
//! Proofs here show that the functions and the relations agree, and that each state which is reached simulates the
//! synchronous run. No function here makes an event: `event_machine` and `net_core` have such functions. So a crate
//! that only speaks of runs and replays (`outcomes`) needn't wait for their proofs.
//!
//! `laws` has progress: whatever events have come, some event is possible or all is done (`no_deadlock`); no list of
//! events goes on for ever (`runs_are_bounded`); and all lists that can't be continued lead to the same nodes
//! (`one_end`), after few laps if no turn leaves anything for later (`thorough_laps_end`). `outcomes` has the same laws
//! for runs of worker threads, except for the law about laps. `runs_simulate_the_pulse_machine` relates each state that
//! is reached to a state of a machine of pulses, and each event to a step of this machine or to none; it states nothing
//! about traces.
//!
//! ```text
//! let events = [Event::Put(1, 0), Event::Take(2, 0)];
//! let refused = StepRefused::NotReady.at(1); // RunRefused::NotReady(1): the second event of a list
//! event_rule::laws::no_deadlock::<S, M, E>(); // brings the law into a proof
//! ```
//!
//! Limits: those of `interference`. No law says that a possible event is ever made: this would need a fair scheduler.
#![tactic(auto)]

mod event;
pub mod laws;
mod refused;

pub use event::Event;
pub use refused::{RunRefused, StepRefused};
