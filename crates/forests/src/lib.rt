//! The decomposition of a network's edges into rooted forests (Panconesi and Rizzi, 2001), with
//! laws of the forests of every network.
//!
//! Each edge leads from its end of lower identifier, the child, to its end of higher identifier,
//! the parent. A vertex numbers its edges up from 0, by ascending identifier of the parent, and
//! forest f has the edges numbered f: so each vertex has at most one parent in forest f, and forest
//! f has no cycle. Forests count from 0 to one less than U, the greatest number of higher
//! neighbours of any vertex.
//!
//! `colour_rules` numbers the ports of one node by `number_up`, and colours all forests at the same
//! time; `plan_answers` prints what `decompose` returns for the whole network. A contract says
//! `parent net f v` for the parent of v in forest f, and `number net v w` for the forest of an
//! edge. `laws` says what holds of the forests of every network.
//!
//! ```text
//! let mut roles = [Role::Unknown; 3];
//! number_up(5, &[9, 2, 7], &mut roles);   // Up(1), Unknown, Up(0)
//! let edges = decompose(alloc, &net)?;    // of a triangle: (0, 1, 2), (0, 2, 3), (1, 1, 3)
//! ```
//!
//! Limits: those of a network, so at most `MAX_DEGREE` ports a node and as many forests.
#![tactic(auto)]

mod decomposition;
pub mod laws;
mod numbering;

pub use decomposition::decompose;
pub use numbering::{Role, number_up};
