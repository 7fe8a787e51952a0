//! The executable `forestplay`, which shows in lessons what the nodes of many programs do: `main` hands the words and
//! the standard streams to `serving`. The nodes run by hand, in rounds or on threads. The program reads standard input,
//! and writes to standard output.
//!
//! ```sh
//! printf 'p edge 2 1\ne 1 2\nput 1 0\ntake 2 0\nput 2 0\n' | forestplay events
//! ```
//!
//! The contract of `serving` says what is written and which status is returned, for all words and every input. The type
//! of `main` says that the program ends with this status.
#![tactic(auto)]

use play_commands::ForestplayCommands;
use serving::{Served, arguments, serve_words};
use std::rt::{Stderr, Stdin, Stdout};

fn main(rt: HostRuntime) -> Served<ForestplayCommands, Stdin, Stdout, Stderr> {
    let mut input = rt.stdin();
    let mut output = rt.stdout();
    let mut errors = rt.stderr();
    serve_words(&rt, arguments(&rt), &mut input, &mut output, &mut errors)
}
