//! One node of the colouring, pulse by pulse: which messages may come, which message the node refuses, and how it
//! computes its next colours and messages.
//!
//! The rounds are defined in `specs`: `Table` says which payload is due in which phase from which port, `Refusals` says
//! which broken rule is reported, `Choice` and `Program` say what a node does, and `next` of `Program` is a whole
//! pulse. `colour_laws` proves what these rounds do on a whole network. The code here is one node, from which
//! `colour_program` makes a program of nodes:
//!
//! ```text
//! let mut node = ColourNode::make(alloc, &net, v)?;
//! node.greet(&mut out);                                              // pulse 0
//! let idle = node.pulse(pulse, &mut inbox, &mut out)?; // each later pulse
//! ```
//!
//! A pulse that is not refused returns a range of later pulses in which the node does nothing if nothing comes, so that
//! a caller may leave these pulses out.
//!
//! The forests are from A. Panconesi and R. Rizzi, Some simple distributed algorithms for sparse networks, 2001. The
//! way to merge them is this project's own.
//!
//! Limits: degree 1,023, and so 1,023 forests; 1,024 barred channels of a node, and so colours 0 to 2,047. Only `make`
//! gets an allocator.
#![tactic(auto)]

mod colours;
mod hear;
mod idle;
pub mod laws;
mod merge;
mod node;
mod numbers;
mod payload;
mod phase;
mod ports;
mod pulse;
pub mod rules;
mod shown;
mod table;
mod taken;
mod tell;
mod turning;
mod work;

pub use idle::IdlePulses;
pub use node::ColourNode;
pub use numbers::{Long, Short};
pub use payload::Payload;
pub use phase::{FIRST_MERGE, Phase, Reduction, Schedule};
pub use taken::barred_set;
