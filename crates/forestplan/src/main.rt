//! The executable `forestplan`, which computes and checks channel plans: `main` hands the words and the standard
//! streams to `serving`. The program reads an interference graph from standard input, and writes a plan, the transcript
//! of a run that finds a plan, the forests, or the check of a plan to standard output.
//!
//! ```sh
//! printf 'p edge 3 3\ne 1 2\ne 1 3\ne 2 3\n' | forestplan plain
//! ```
//!
//! The contract of `serving` says what is written and which status is returned, for all words and every input. The type
//! of `main` says that the program ends with this status.
#![tactic(auto)]

use plan_commands::ForestplanCommands;
use serving::{Served, arguments, serve_words};
use std::rt::{Stderr, Stdin, Stdout};

fn main(rt: HostRuntime) -> Served<ForestplanCommands, Stdin, Stdout, Stderr> {
    let mut input = rt.stdin();
    let mut output = rt.stdout();
    let mut errors = rt.stderr();
    serve_words(&rt, arguments(&rt), &mut input, &mut output, &mut errors)
}
