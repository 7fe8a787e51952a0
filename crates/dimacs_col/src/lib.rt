//! The reader of network texts in the DIMACS colouring format: it returns the graph that a text describes, or the first
//! fault of the text. A graph is its number of vertices, the identifiers that lines give them, its set of edges and the
//! channels that lines bar at its vertices.
//!
//! `plan_answers` reads each network by `read`. `channel_plan`, `transcripts` and `event_texts` read the texts that
//! follow a network by its lines, fields and numbers; `text_start` says where such a text begins.
//!
//! ```text
//! c a path on three vertices
//! p edge 3 2
//! i 2 70
//! e 1 2
//! e 3 2
//! b 3 1
//! ```
//!
//! reads as `ColFile { nodes: 3, ids: [(2, 70)], edges: [(1, 2), (2, 3)], bars: [(3, 1)] }`.
//!
//! Limits, all of `graph_limits`: `MAX_NODES` (20,000) vertices, `MAX_EDGES` (400,000) distinct edges, identifiers of
//! `IDENTIFIER_DIGITS` (128) binary digits, channels up to `MAX_CHANNEL` (2,048) and `MAX_BARS` (1,024)
//! distinct bars of a vertex. The text is read from memory as a whole.
#![tactic(auto)]

mod bag;
mod bars;
mod fault;
mod fields;
mod kind;
mod laws;
mod lines;
mod reader;
mod split;

pub use fault::ColFault;
pub use fields::{Fields, small_number};
pub use laws::reading_is_one;
pub use lines::Lines;
pub use reader::{ColFile, read, without_carriage_return};
pub use split::{TextStart, text_before, text_start};
