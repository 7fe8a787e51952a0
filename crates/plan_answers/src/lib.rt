//! The commands `forests`, `plain` and `check` of `forestplan`, which start no thread, as functions from input bytes to
//! answer bytes, and the faults of `forestplan` with their reports. The input is a DIMACS text, which a plan follows
//! for `check`.
//!
//! `plan_runs` has the commands that run worker threads. `plan_commands` calls `forest_bytes`, `plain_bytes` or
//! `check_bytes` for a command, and `fault_report` if one fails. The faults of `forestplay` are in `play_inputs`, which
//! calls `report_of_reading`, `report_of_network` and `report_of_pool` for the faults that both programs have.
//!
//! ```
//! let text = b"p edge 3 3\ne 1 2\ne 1 3\ne 2 3\n";
//! let plan = plain_bytes(alloc, text)?;       // "plan", "1 2", "2 3", "3 1", a line each
//! ```
//!
//! A text has at most 20,000 vertices and 400,000 edges, and a vertex at most 1,023 neighbours; more is a fault. Vertex
//! v has the identifier of its line `i`, or v if there is no such line.
#![tactic(auto)]

mod answer;
mod colours_text;
mod fault;
mod forests_text;
mod report;
mod verdict;

pub use answer::{forest_bytes, identifiers, network_of_text, plain_bytes};
pub use fault::PlanFault;
pub use report::{fault_report, report_of_network, report_of_pool, report_of_reading};
pub use verdict::check_bytes;
