//! A wire without its payload.

ghost use Rattle.std.specs.Prelude.{◌≡◌};
ghost use Rattle.alpha_core.specs.OutLists.{bare_of};

use std::mem::size_of;
use wires::Wire;

/// A wire of an out-list, without its payload.
#[derive(Clone, Copy)]
pub(crate) enum BareWire {
    Payload(u32),
    Ack(u32),
    Safe(u32),
    Close,
}

const _: () = prove!(size_of::<BareWire>() == 8);

// What an `ArrayVec` has in a place that isn't used.
impl Default for BareWire {
    ghost use Rattle.alpha_core.specs.declared.bare.BareWire.TheVariants.{Close};

    ghost is_default = { λ bare. bare ≡ Close };

    fn default() -> BareWire {
        BareWire::Close
    }
}

/// A wire without its payload.
pub(crate) fn bare_of<T>(wire: &Wire<T>) -> BareWire
    ensures bare { result ≡ bare_of wire.now }
{
    match *wire {
        Wire::Payload(pulse, _) => BareWire::Payload(pulse),
        Wire::Ack(pulse) => BareWire::Ack(pulse),
        Wire::Safe(pulse) => BareWire::Safe(pulse),
        Wire::Close => BareWire::Close,
    }
}
