//! The record that a node writes of each of its events (a pulse, a put or a take), called an entry, and the list in
//! which a node stores its entries. By its entries a run can be read and replayed.
//!
//! `wired_nodes` writes a node's own entries into a `Recorder`, each with its stamp (`Counter` of `alpha_core`): a
//! `Recorder` has an `Entries`, or nothing. An `Entries` takes 20 bytes for each entry, and the bytes of a payload if
//! there is one. The 20 bytes lie in blocks that are never moved. `net_core` plays lists of entries, and `transcripts`
//! writes them as text and reads them: `Row` and `StampedRow` are entries of such lists.
//!
//! ```text
//! let mut entries = Entries::new(alloc);
//! entries.reserve()?;                                             // room for one more, of any kind
//! entries.push_reserved(1, Entry::Put(2, Wire::Payload(0, Payload::hello(1))));  // can't be refused
//! for entry in entries.iter() { .. }                              // each by value, from the first
//! for StampedEntry { stamp, entry } in entries.stamped() { .. }
//! ```
#![tactic(auto)]

mod bare;
mod blocks;
mod entry;
mod iter;
mod list;
mod recorder;
mod rows;
mod tuples;

pub use entry::Entry;
pub use iter::{Iter, StampedIter};
pub use list::Entries;
pub use recorder::Recorder;
pub use rows::{Row, StampedEntry, StampedRow};
