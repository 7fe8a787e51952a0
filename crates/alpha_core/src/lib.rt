//! The state machine of one node under synchroniser alpha (Awerbuch 1985): which wires the node sends, how it reacts to
//! each wire that it takes, and when it makes a pulse.
//!
//! A node acknowledges each payload as it takes it, says that it is safe at a pulse once its own payloads
//! of the pulse are acknowledged, and makes the next pulse once it and all its neighbours are safe.
//!
//! `Node` of `specs/View.antt` is the state of a node: its program's state and a view, with a record for each port.
//! `reaction` and `pulse` of `specs/Alpha.antt` are its steps, by the 36 cells of `specs/Table.antt`. `stream` of
//! `wires` is what the synchronous run sends over a link, and `Legal` says which lists of wires may come on this link,
//! up to any moment of a run.
//!
//! `alpha_laws` proves laws of all nodes of a network, `event_machine` plays a network of nodes event by event, and
//! `wired_nodes` puts the wires of a node on links.
//!
//! ```text
//! let mut node: AlphaNode<Colouring> = AlphaNode::start(alloc, &net, v)?;
//! while let Some(wire) = node.front(port) {
//!     ..                                       // the wire is put on the link of this port
//!     node.put_done(port);
//! }
//! if node.can_take() {
//!     node.on_wire(port, wire)?;               // a wire that came from the link of this port
//! }
//! if node.can_pulse() {
//!     node.pulse()?;
//! }
//! ```
//!
//! Limits: degree 1,023, four wires in an out-list.
#![tactic(auto)]

mod bare;
mod counter;
mod emitting;
mod inboxes;
pub mod laws;
mod marks;
mod node;
mod out_lists;
mod payloads;
mod ports;
mod refused;
mod table;
mod taking;
mod when;

pub use counter::{Counter, StampFull};
pub use node::AlphaNode;
pub use refused::AlphaRefused;
