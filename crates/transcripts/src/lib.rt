//! Transcripts of runs as text: a writer and a reader of the entries that nodes wrote of their events, one line for
//! each entry.
//!
//! A transcript is a line `transcript 1 NODES`, and then a line for each entry (`entries`). `transcript_text` writes a
//! transcript, and `read_transcript` reads a transcript from any source; it reads what `transcript_text` wrote as the
//! same entries. `push_row` writes one entry, for texts that have other lines too. A caller that has the entries node
//! by node writes the same text by `push_first_line`, and by `push_entries` for each node.
//!
//! In edition 2 the first line is `transcript 2 NODES`, and each entry has its stamp before the vertex. `stamped_text`
//! writes it, `push_stamped_row` one entry of it, and `read_any` reads both editions. Edition 3 is edition 2 with the
//! name of a program: its first line, which `push_named_line` writes, is `transcript 3 NAME NODES`.
//!
//! ```text
//! let rows = [
//!     Row { vertex: 1, entry: Entry::Put(2, Wire::Close) },
//!     Row { vertex: 2, entry: Entry::Take(1, Wire::Close) },
//! ];
//! let text = transcript_text(alloc, 2, &rows)?;          // "transcript 1 2", "1 put 2 close", "2 take 1 close"
//! let (nodes, rows) = read_transcript::<Best>(alloc, text.as_slice())?;
//! ```
//!
//! `push_merged` writes the entries of all nodes of a run as lines in one order: by their stamps, and then by the
//! vertices of their nodes. The entries of the node of vertex v, its `LeftEntries`, are in place v - 1. The time to
//! find the least entry grows with the logarithm of the number of nodes (`merging`). `order` of `stamps` makes the same
//! list for tests.
//!
//! `read_behind_network` reads a transcript that follows a network text in the same input, with lines that count from
//! the first line of the whole input, and `read_any_behind_network` reads one of any edition. `network_text` is the
//! text before the transcript, and `program_in` is the name in the transcript's first line. The caller has to ask
//! whether that is the program that it means.
//!
//! Nodes, vertices and pulses that are read are below 2^32, stamps below 2^64, numbers of payloads below 2^128.
//! `replay` says whether a vertex exists and whether a stamp is right.
#![tactic(auto)]

mod behind;
mod edition_row;
mod editions;
mod entry_line;
mod fault;
pub mod laws;
mod left_entries;
mod line_end;
mod lines;
mod merging;
mod names;
mod node_lines;
mod numbers;
mod pushing;
mod reading;
mod writing;

pub use behind::{entry_lines, network_text, program_in, read_behind_network};
pub use editions::{Transcript, read_any, read_any_behind_network};
pub use fault::TextFault;
pub use left_entries::LeftEntries;
pub use lines::{push_row, push_stamped_row};
pub use node_lines::push_entries;
pub use pushing::push_merged;
pub use reading::read_transcript;
pub use writing::{
    push_first_line, push_named_line, push_stamped_line, stamped_text, transcript_text,
};
