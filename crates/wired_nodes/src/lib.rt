//! A node and the ends of its links as one value that moves from thread to thread, and what this node does in one turn.
//!
//! All threads share the links of a run (`Links`); their ends move with the nodes. Only the type of an end says to
//! which link it belongs: each end of a run, and the links of the run, have the same `Wiring` as a type parameter, and
//! a fact of the type says at which vertex and port the end's link is, and at which index of `Links`. So ends may go
//! through queues and threads, and come back. `Links::try_take` has no condition, `Links::try_put` only requires that
//! the wire continues a legal list of the link, and `Links::meet` requires that both ends have the same vertex and
//! port.
//!
//! A `Node` keeps as facts of its type that it fits the lists of its own ends: `NodeKept` of `alpha_laws`, over the
//! lists that its ends put and took. So each turn of the node keeps these facts on every thread, and has no condition
//! for its caller. `node_runs` lets workers make turns of all nodes of a run.
//!
//! ```text
//! let mut node = Node::<J, Colouring>::start(alloc, &network, v, puts, takes, false)?;
//! while node.turn(&rt, &links, &OpenGate, 0)? {}
//! ```
//!
//! With a transcript a node writes down each of its events (`recorder`), and keeps as a fact of its type that these
//! entries are all of its events (`specs/Written.antt`). The place of an entry is reserved before the event; so a turn
//! that gets no memory for an entry leaves the node as it was after its last event. Without a transcript no turn can
//! return out-of-memory.
//!
//! Each event moves the node's `Counter` forward, with a transcript or without: a wire has on its link the stamp of its
//! put, and with a transcript each entry has its stamp (`specs/HasStamps.antt`). A turn returns `StampFull` if a stamp
//! would pass 18446744073709551615; a put or pulse leaves the node as after its last event, and a take sets the wire
//! aside.
//!
//! Limits: those of `alpha_core` and `link_queue`.
#![tactic(auto)]

mod aside;
mod gate;
pub mod laws;
mod links;
mod node;
mod observer;
mod refused;
mod standing;
mod task;
mod turn;
mod wired;
mod wiring;

pub use aside::{Aside, WhyAside};
pub use gate::{Gate, OpenGate};
pub use links::Links;
pub use node::{Node, NodeParts};
pub use observer::{Observer, Unobserved};
pub use refused::TurnRefused;
pub use wired::{WiredPut, WiredTake};
pub use wiring::Wiring;
