//! The commands `plan` and `transcript` of `forestplan`, which run worker threads, as functions from input bytes to
//! answer bytes, and laws that nodes of the colouring have the network's colours once all nodes have halted. The input
//! is a DIMACS text.
//!
//! The crate names no stream, no command line and no system, so that a test or another program can call the same
//! functions. The functions of all other commands are in `plan_answers`, which needs no thread.
//!
//! `plan_commands` calls `plan_bytes` or `transcript_bytes` for a command. For any program of nodes, `play_runs` calls
//! `whole_run` and `run_transcript`, and makes from their results what `forestplay run` prints.
//!
//! `coloured_runs` has what the simulation says of two programs, the colouring and `Greatest`: every list of events
//! simulates their synchronous run, and if all nodes of the colouring have halted, each has its colour, however the
//! nodes were run. So `plan_bytes` and `plain_bytes` return the same bytes if both return `Ok` (`laws`). No law
//! promises that nodes halt: every list of events can be continued until all nodes have halted, but a scheduler needn't
//! choose these events.
//!
//! ```
//! let text = b"p edge 3 3\ne 1 2\ne 1 3\ne 2 3\n";
//! let plan = plan_bytes(rt, alloc, text, options, &OpenGate)?; // "plan", "1 2", "2 3", "3 1", a line each
//! ```
//!
//! A text has at most 20,000 vertices and 400,000 edges, and a vertex at most 1,023 neighbours; more is a fault. Vertex
//! v has the identifier of its line `i`, or v if there is no such line.
#![tactic(auto)]

pub mod coloured_runs;
pub mod laws;
mod merged;
mod plan_text;
mod transcript;
mod workers;

pub use merged::push_edition_line;
pub use transcript::{run_transcript, transcript_bytes};
pub use workers::{plan_bytes, whole_run};
