//! The commands `events` and `replay` of `forestplay`, which play a list of events or entries from the input, as
//! functions from input bytes to answer bytes. They work for any program of nodes that has a `ProgramText`.
//!
//! `play_commands` calls `events_bytes` or `replay_bytes`. Their faults and reports are in `play_inputs`. A first call
//! of `forestplan` doesn't prove this crate, nor `event_texts` below it.
//!
//! ```
//! let text = b"p edge 2 1\ne 1 2\nput 1 0\n";
//! let state = events_bytes::<Colouring>(alloc, text, Setting::AsRead)?;      // "node 1 pulse 0", ..
//! ```
//!
//! Limits are those of `plan_answers`.
#![tactic(auto)]

mod events;
mod replaying;

pub use events::events_bytes;
pub use replaying::replay_bytes;
