//! Channel plans as text: a writer, a reader, and the check of a plan against a network.
//!
//! A plan text is `plan`, and then a line for each vertex with its channel. `plan_answers` and `plan_runs` write plans
//! by `plan_text`, and `plan_answers` checks plans from any source by `split_plan`, `read_plan` and `check`.
//!
//! ```
//! let text = plan_text(alloc, &[1, 2, 0])?;          // "plan", "1 2", "2 3", "3 1", a line each
//! let plan = read_plan(alloc, text.as_slice())?;     // rows (1, 2), (2, 3), (3, 1)
//! let greatest = check(alloc, &triangle, &plan)?;    // 3
//! ```
//!
//! A channel is a colour plus one. Vertices and channels that are read are below 2^32; the time of a check is
//! proportional to rows and edges.
#![tactic(auto)]

mod checking;
mod fields;
pub mod laws;
mod plan;
mod reading;
mod split;
mod writing;

pub use checking::check;
pub use plan::{CheckFault, Plan};
pub use reading::read_plan;
pub use split::split_plan;
pub use writing::plan_text;
