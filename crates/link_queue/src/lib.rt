//! One direction of a link as a bounded, lock-free queue between two threads, with one end that puts wires and one end
//! that takes them.
//!
//! ```text
//! let (link, mut put_end, mut take_end) = Link::<Colouring>::new(alloc, &network, 1, 0, 4)?;
//! link.put(&rt, &mut put_end, Stamped { stamp: 1, wire });        // in one thread
//! link.take(&rt, &mut take_end);                                 // in another
//! let met = link.meet(&rt, alloc, put_end, take_end)?;           // once both ends are back
//! ```
//!
//! A `Link` lives outside the scope of the threads, which share it; its ends move with the nodes. Contracts see the
//! list of wires that an end put or took. The wires that are put have to be a prefix of a legal list of the link in the
//! synchronous run of the program `P`. So the wires that are taken are a prefix of one, too. When the ends meet, the
//! list of wires put is the list of wires taken, followed by the wires that the link still holds. This rests on the
//! promise of `crossbeam_queue`'s ruled array queue, and holds if no queue is pushed more than 2^62 times: a link is
//! pushed at most 3·R + 1 times, where R is the last pulse (`legal_lists_are_short` of `alpha_laws`). `put`, `take` and
//! `meet` may spin, and are not promised to return.
#![tactic(auto)]

mod ends;
mod link;
mod met;
mod queued;
mod rule;
mod view;

pub use ends::{PutEnd, PutSide, TakeEnd, TakeSide};
pub use link::{Link, MeetRefused};
pub use met::{Full, Met};
pub use queued::Queued;
