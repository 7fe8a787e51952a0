//! The frame around every command: words are parsed, the input is read, the answer or the fault is written, and the
//! exit status is returned. The caller gives the input as a source, and the output and the errors as two sinks.
//!
//! An executable lists its commands in a `Commands`: `forestplan` in `plan_commands`, and `forestplay` in
//! `play_commands`. Each program calls `serve_words` with the words and the streams that the system gives, and ends
//! with the `Served` that it returns.
//!
//! ```
//! let mut input: &[u8] = b"p edge 2 1\ne 1 2\n";
//! let (mut output, mut errors) = (Vec::new(alloc), Vec::new(alloc));
//! let words = ["forestplan", "plain"];
//! let status =
//!     serve::<ForestplanCommands, _, _, _, _>(&rt, alloc, &words, &mut input, &mut output, &mut errors);
//! // status 0, output "plan", "1 1", "2 2", a line each
//! ```
//!
//! The contract of `serve` says what goes to the output, to the errors and into the status, for all words, every input
//! and every stream, if the call returns. About the texts of `clap`, such as help, it only says where they go. A `Vec`
//! as an output doesn't know whether a write failed; so for the example the contract also allows the line
//! `forestplan: stream` with status 4.
#![tactic(auto)]

mod commands;
mod giving;
mod process;
mod served;
mod serving;
mod words;

pub use commands::Commands;
pub use process::arguments;
pub use served::{Served, serve_words};
pub use serving::{serve, serve_alone};
