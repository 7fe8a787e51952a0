//! A machine that holds the state of a network under synchroniser alpha (Awerbuch 1985), and makes one event at a time
//! if the event is possible.
//!
//! `step` makes an event, or says why the event isn't possible. After any events the state simulates the synchronous
//! run of the program: that is a clause of `start` and `step`, and a law of `laws`. `net_core` has `run`, which makes
//! the events of a list.
//!
//! `event_rule` defines events, states and runs, as functions and as relations.
//!
//! ```text
//! let mut state = NetState::<Colouring>::start(alloc, &network)?;
//! state.step(Event::Put(1, 0))?;
//! state.step(Event::Take(2, 0))?;
//! ```
//!
//! Limits: those of `interference`.
#![tactic(auto)]

mod events;
pub mod laws;
mod links;
mod state;
mod wire_list;

pub use state::NetState;
