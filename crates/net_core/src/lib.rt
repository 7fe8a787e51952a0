//! Functions that play a whole list on the machine of `event_machine`: `run` plays a list of events, and `replay` a
//! list of the entries that nodes wrote.
//!
//! `run` accepts a list of events, or names the first event that isn't possible, and says why.
//!
//! `replay` takes entries, each with the vertex of its node, in the order of the events. It accepts exactly the lists
//! of entries that some list of events writes. Otherwise it names the first entry that no event can write here, and
//! says why. Nothing is taken on trust: each pulse and each wire of an entry is compared with the pulse or wire of its
//! event. `replay_whole` takes stamped entries of a whole run, and returns the state with its stamps (`StampedState`).
//! `play_answers` calls both for the entries of a transcript.
//!
//! `specs/Runs.antt` says what `run` returns, and `specs/Replays.antt` and `specs/Whole.antt` say at which entry a
//! replay stops. `event_rule` defines the entry that an event writes, and a replay.
//!
//! ```text
//! let entries = [
//!     Row { vertex: 1, entry: Entry::Put(2, Wire::Close) },
//!     Row { vertex: 2, entry: Entry::Take(1, Wire::Close) },
//! ];
//! let state = replay::<Greatest<0>>(alloc, &network, &entries)?;
//! ```
//!
//! Limits: those of `interference`.
#![tactic(auto)]

mod entry_event;
pub mod laws;
mod refused;
mod replaying;
mod running;
mod same_wire;
mod stamped_state;
mod whole;
mod whole_state;

pub use entry_event::event_of;
pub use refused::{ReplayRefused, WholeRefused};
pub use replaying::replay;
pub use running::run;
pub use stamped_state::StampedState;
pub use whole::replay_whole;
