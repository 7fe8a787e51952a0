//! The message types of a link: a wire (payload, acknowledgement, safe or close) and a wire with its stamp, with the
//! definition of a legal list of wires. `specs/Wires.antt` has functions of a list of wires, such as its payloads, and
//! `specs/Streams.antt` says which lists are legal.
//!
//! `alpha_core` says how a node reacts to a wire, `entries` what a node writes down of a wire, `stamps` how stamps
//! rise, and `link_queue` takes and puts stamped wires.
//!
//! ```text
//! let item = Stamped { stamp: 1, wire: Wire::Payload(0, payload) };
//! ```
//!
//! Limits: none; a stamp and a pulse have their types' ranges.
#![tactic(auto)]

mod stamped;
mod wire;

pub use stamped::Stamped;
pub use wire::Wire;
