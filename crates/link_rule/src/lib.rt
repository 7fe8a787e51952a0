//! The order of wires in one direction of a link: its definition, a check that a list has this order, and laws, for
//! example that a prefix of a legal list is legal.
//!
//! ```text
//! let mut check = StreamCheck::new(last);
//! let (first, second) = (Wire::Safe(0), Wire::Close);            // in order for a last pulse of 1
//! check.feed(&Stamped { stamp: 1, wire: first }) && check.feed(&Stamped { stamp: 2, wire: second })
//! ```
//!
//! Apart from acknowledgements, the synchronous run of a program fixes the wires that a node sends over a link: this
//! list is the *stream*. A list is legal if its payloads, safes and close are a prefix of the stream, and its
//! acknowledgements are a prefix of the acknowledgements that are due. `StreamCheck` checks the order of wires and
//! their stamps, one wire after the other, and ignores what they carry; no program uses it. `alpha_laws` says that
//! every legal list passes it, and what a legal list with a close is. `link_queue` uses the names of links and the
//! legal lists of this crate (`specs/Legal.antt`). Neither needs a node, so `link_queue` is proved in parallel with
//! `alpha_core`.
#![tactic(auto)]

mod check;
pub mod laws;
mod name;

pub use check::StreamCheck;
pub use name::LinkName;
