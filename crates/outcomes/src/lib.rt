//! The outcome of a run on worker threads, which is all nodes and links that the run leaves, and laws that hold of
//! every outcome, such as the simulation of the synchronous run.
//!
//! Once all threads are joined, a run has its nodes back, each with the ends of its links. `taking_apart` takes the
//! nodes apart, `crossed` of `port_rows` moves each end that takes to the node from which its link leads, and `meeting`
//! brings both ends of each link together; `gathering` makes the outcome, which is `IsOutcome` of `specs/Outcome.antt`.
//! Nothing here starts or needs a thread: `node_runs` runs the nodes.
//!
//! `laws` says what holds of the nodes of an outcome, whatever the threads did. Each node keeps as a fact of its type
//! that it fits the lists of its own ends (`wired_nodes`). A wire that a node refuses in the middle of a run is set
//! aside, because no node can know by itself that no wire is ever refused. When all ends have met, the lists of both
//! ends of each link show that no wire was refused, and that the nodes simulate the synchronous run. The statement is
//! the same record as for lists of events: `Simulates` of `alpha_laws`. If an outcome is whole, `IsCompleteRun` of
//! `specs/Whole.antt` holds of it, too, and its wires are counted (`specs/Counts.antt`). If an outcome isn't whole, one
//! of its nodes can go on (`specs/Progress.antt`). With a transcript the entries of all nodes, in the order of their
//! stamps, are one run (`merged` of `IsOutcome`, `specs/Merged.antt`).
//!
//! That is the theorem of the one merged run. Each event of a node preserves the facts about its stamps
//! (`events_keep_stamps` of `stamps`). Once all ends have met, each take of a link has a greater stamp than its put
//! (`met_nodes_are_written`), so the entries in the order of their stamps are a replay that leads to the nodes and
//! links of the run (`merged_runs_replay`), and each has the stamp that the rows before it give it (`met_runs_replay`).
//! If the run is whole, `replay_whole` accepts them (`whole_runs_replay`, with `whole_replays_are_exact` of
//! `net_core`). `specs/MergedRuns.antt` has the statements of these laws.
//!
//! ```text
//! let outcome = gathered(&rt, alloc, &network, &links, nodes)?;
//! if outcome.is_whole() { .. outcome.actors() .. }
//! outcomes::laws::met_nodes_simulate::<S, M, E>(); // brings the law into a proof
//! ```
//!
//! Limits: those of `interference`.
#![tactic(auto)]

mod gathering;
pub mod laws;
mod meeting;
mod outcome;
mod taking_apart;

pub use gathering::gathered;
pub use outcome::Outcome;
pub use taking_apart::Actor;
