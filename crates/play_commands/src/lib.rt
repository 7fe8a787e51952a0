//! The table of `forestplay`'s commands: for each command and each program of nodes the function of `play_answers` or
//! `play_runs` that computes the answer.
//!
//! `forestplay` calls `serve_words` of `serving` with `ForestplayCommands`.
//!
//! ```
//! let mut input: &[u8] = b"p edge 2 1\ne 1 2\n";
//! let (mut output, mut errors) = (Vec::new(alloc), Vec::new(alloc));
//! let words = ["forestplay", "run", "--program", "leader"];
//! let status =
//!     serve::<ForestplayCommands, _, _, _, _>(&rt, alloc, &words, &mut input, &mut output, &mut errors);
//! // status 0, output "node 1 pulse 2 leader 2", "node 2 pulse 2 leader 2 elected", a line each
//! ```
//!
//! Limits: those of `plan_answers`, and 256 passes of the recolouring, of which `command_line` allows 64.
#![tactic(auto)]

mod answer;
pub mod laws;
mod playing;
mod running;

pub use answer::ForestplayCommands;
