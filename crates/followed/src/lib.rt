//! The composition of two programs of nodes: the nodes run a first program up to a certain pulse, and then a sequel,
//! which starts from the states that the first program has reached. In the sequel a node keeps its last state of the
//! first program, and has a second state beside it (`Sequel`). A message is a payload of the first program or of the
//! sequel (`Said`), each with its own words.
//!
//! ```text
//! type Matching = Followed<Colouring, Turns>; // a program of nodes
//! ```
//!
//! The result can have a sequel, too: that is a sequel of `Followed<P, R>`.
//!
//! Limits: those of `node_api`.
#![tactic(auto)]

mod followed;
mod hearing;
pub mod rules;
mod said;
mod sequel;
mod texts;

pub use followed::Followed;
pub use said::{Said, WordsBeside};
pub use sequel::Sequel;
pub use texts::SequelText;
