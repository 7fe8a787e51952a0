//! A wire with its stamp, as the queue of a link holds it.

ghost use Rattle.std.specs.Prelude.{◌≡◌};
ghost use Rattle.link_queue.specs.Queued.{stamped_of};

use node_api::PayloadText;
use wires::{Stamped, Wire};

/// A wire with its stamp, in one enum: after the pulse comes the stamp, and then the payload.
///
/// The compiler copies an enum by its parts, and a struct as a whole. So a node that matches what it takes is faster
/// with this than with a `Stamped`, and a place of the queue is no larger than for a wire alone if payloads have an
/// alignment of 16 bytes.
#[derive(Clone, Copy)]
pub enum Queued<T> {
    Payload(u32, u64, T),
    Ack(u32, u64),
    Safe(u32, u64),
    Close(u64),
}

impl<T: PayloadText> Queued<T> {
    /// A wire with its stamp.
    #[inline(always)]
    pub fn of(item: Stamped<T>) -> Queued<T>
        ensures { stamped_of result ≡ item }
    {
        let stamp = item.stamp;
        match item.wire {
            Wire::Payload(pulse, payload) => Queued::Payload(pulse, stamp, payload.by_words()),
            Wire::Ack(pulse) => Queued::Ack(pulse, stamp),
            Wire::Safe(pulse) => Queued::Safe(pulse, stamp),
            Wire::Close => Queued::Close(stamp),
        }
    }
}

impl<T: Copy> Queued<T> {
    /// The wire with its stamp, as the struct.
    pub fn stamped(&self) -> Stamped<T>
        ensures { result ≡ stamped_of self.now }
    {
        match *self {
            Queued::Payload(pulse, stamp, payload) => Stamped {
                stamp,
                wire: Wire::Payload(pulse, payload),
            },
            Queued::Ack(pulse, stamp) => Stamped {
                stamp,
                wire: Wire::Ack(pulse),
            },
            Queued::Safe(pulse, stamp) => Stamped {
                stamp,
                wire: Wire::Safe(pulse),
            },
            Queued::Close(stamp) => Stamped {
                stamp,
                wire: Wire::Close,
            },
        }
    }

    /// The stamp alone.
    pub fn stamp(&self) -> u64
        ensures { result ≡ (stamped_of self.now).stamp }
    {
        match *self {
            Queued::Payload(_, stamp, _) => stamp,
            Queued::Ack(_, stamp) => stamp,
            Queued::Safe(_, stamp) => stamp,
            Queued::Close(stamp) => stamp,
        }
    }
}
