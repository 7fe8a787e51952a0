//! The commands `run`, `alone`, `ends` and `rounds` of `forestplay`, which run the nodes of any program, as functions
//! from input bytes to answer bytes. The input is a DIMACS text. `run`, `alone` and `ends` give the last states of the
//! nodes: `run` on worker threads, `alone` on one thread without a common clock, and `ends` in rounds. `rounds` gives
//! what the nodes send, pulse by pulse. For `run` and `alone` the crate can write a transcript, too. The crate names no
//! stream, no command line and no system. `play_commands` calls it.
//!
//! ```
//! let text = b"p edge 2 1\ne 1 2\n";
//! let ends = ends_bytes::<Leader>(alloc, text, Setting::AsRead)?;
//! // "node 1 pulse 2 leader 2", "node 2 pulse 2 leader 2 elected", a line each; the same of `alone_bytes`, `run_bytes`
//! ```
//!
//! Limits: those of `plan_answers`.
#![tactic(auto)]

mod ends;
mod last_states;
pub mod laws;
mod lines;
mod puts;
mod round_texts;
mod rounds;
mod run;
mod transcript;

pub use ends::alone_bytes;
pub use last_states::ends_bytes;
pub use rounds::rounds_bytes;
pub use run::run_bytes;
pub use transcript::{alone_transcript_bytes, run_transcript_bytes};
