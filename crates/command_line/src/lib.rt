//! The parser for the command lines of `forestplan` and `forestplay`, which turns words into a command with options, a
//! help text or a refusal.
//!
//! `plan_commands` calls `parse` with the words that `forestplan` was started with, its own name first, and
//! `play_commands` calls `parse_play` with the words of `forestplay`. No type of `clap` crosses this boundary.
//!
//! ```
//! match parse(alloc, &["forestplan", "plain"]) {
//!     Ok(Request::Plain) => ..,
//!     Ok(Request::Plan(options)) => ..,
//!     Ok(Request::Forests) => ..,
//!     Ok(Request::Check) => ..,
//!     Ok(Request::Transcript(options, edition)) => ..,
//!     Err(Declined::Help(text)) => ..,
//!     Err(Declined::Refused(text)) => ..,
//!     Err(Declined::Memory) => ..,
//! }
//! ```
//!
//! The commands are listed in `specs/Line.antt` in clap's own words, the options of a run of workers in
//! `specs/RunOptions.antt`, the programs of nodes in `specs/NodePrograms.antt`, and both functions return exactly what
//! these lists say. The texts of `clap`, such as help, are only tested. There is no `--version` and no command `help`.
//! Limits: those of `run_options`.
#![tactic(auto)]

mod command_options;
mod commands;
mod declined;
mod executable;
mod help;
mod line;
mod options;
mod play_request;
mod programs;
mod request;

pub use declined::Declined;
pub use executable::Executable;
pub use play_request::{Play, PlayRequest, parse_play};
pub use programs::{MAX_PASSES, NodeProgramName, Shown};
pub use request::{Request, parse};
