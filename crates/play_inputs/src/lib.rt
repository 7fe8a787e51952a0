//! The networks and the faults of `forestplay`: how a command makes a network from a text and a setting, such as a
//! chosen root, and how a fault is reported.
//!
//! `network_of_text` reads the network that a DIMACS text describes, as a `Setting` says: with a chosen vertex as the
//! root, or with more passes of a program that repeats itself. `play_answers` and `play_runs` call it, and compute the
//! answers. A `PlayFault` says why an input has no answer; `play_commands` calls `fault_report` for its line and
//! status. The faults of `forestplan` are in `plan_answers`, with the tables of the faults that both programs report.
//!
//! ```
//! let text = b"p edge 2 1\ne 1 2\n";
//! let root = Root { vertex: 2, id: 1 };
//! let network = network_of_text(alloc, text, Setting::Rooted(root))?;    // vertex 2 has identifier 1, vertex 1 has 2
//! ```
//!
//! Limits are those of `plan_answers`.
#![tactic(auto)]

mod fault;
mod network;
mod replays;
mod report;
mod setting;
mod setting_up;

pub use fault::PlayFault;
pub use network::network_of_text;
pub use replays::ReplayFault;
pub use report::fault_report;
pub use setting::{Root, Setting};
