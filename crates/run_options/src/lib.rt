//! The options of a run on worker threads, such as the number of workers and the capacity of a link, their ranges, and
//! the faults of such a run. The crate also has the two forms in which a transcript of a run is written.
//!
//! `command_line` reads the options from words, and `node_pool` runs nodes with these options. `node_pool` returns a
//! `PoolFault`, and `plan_runs` a `RunFault`.
//!
//! ```text
//! let options = Options { workers: 4, capacity: 4, turns: 1_000_000_000, transcript: false };
//! ```
//!
//! Limits: `MAX_WORKERS`, `MAX_CAPACITY` and `MAX_TURNS`.
#![tactic(auto)]

mod fault;

pub use fault::{PoolFault, RunFault};

/// The greatest number of workers.
pub const MAX_WORKERS: u32 = 64;

/// The greatest capacity of a link that may be asked for. A run never has more than two wires on a link.
pub const MAX_CAPACITY: u32 = 64;

/// The greatest number of looks of a worker that the command line takes; `node_pool` has no limit.
pub const MAX_TURNS: u64 = 1_000_000_000_000;

/// The number of the last edition of transcripts.
pub const MAX_EDITION: u32 = 2;

const _: () = prove!(
    MAX_WORKERS == 64 && MAX_CAPACITY == 64 && MAX_TURNS == 1_000_000_000_000 && MAX_EDITION == 2
);

/// How the nodes of a network are run.
#[derive(Debug, Clone, Copy, PartialEq, Eq)]
pub struct Options {
    /// The number of worker threads, 1 to `MAX_WORKERS`.
    pub workers: u32,
    /// How many wires a link may hold, 1 to `MAX_CAPACITY`. Above 2 it changes nothing, since no link ever holds more.
    pub capacity: u32,
    /// How often each worker looks for a node at most; a look that finds none counts.
    pub turns: u64,
    /// Whether each node writes down what it puts, takes and does.
    pub transcript: bool,
}

/// A form of transcripts.
#[derive(Debug, Clone, Copy, PartialEq, Eq)]
pub enum Edition {
    /// The entries of each node, by ascending vertex.
    One,
    /// All entries in the order of their stamps, each with its stamp.
    Two,
}
