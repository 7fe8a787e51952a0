//! Nodes that have no stamp left for their next event.

ghost use Rattle.std.specs.Prelude.{◌≡◌};
ghost use Rattle.checks.specs.SmallNets.{pair_net};

use crate::link_queue_checks::pair;
use crate::linked_counters::{Turned, turn_after};
use interference::{Memory, Network};
use std::alloc::Global;
use std::sync::Wait;
use wired_nodes::TurnRefused;

// A turn by the definition: takes, a pulse, puts. Its link holds one wire.
fn leaves(
    said: Result<bool, TurnRefused>,
    counter: u64,
    came: Option<u64>,
    is_aside: bool,
) -> Result<Turned, Memory> {
    Ok(Turned {
        said,
        counter,
        came,
        is_aside,
    })
}

// The node can't make a pulse before its neighbour is safe. So it takes, and puts its own payload and an
// acknowledgement, for which the link has no room.
fn puts_in_time<R: Wait>(rt: &R, alloc: Global, network: &Network) -> bool
    requires network { network.now ≡ pair_net }
{
    let (max, full) = (u64::MAX, Err(TurnRefused::StampFull));
    turn_after(rt, alloc, network, 1) == leaves(Ok(true), 3, Some(3), false)
        && turn_after(rt, alloc, network, max - 3)
            == leaves(Ok(true), max - 1, Some(max - 1), false)
        && turn_after(rt, alloc, network, max - 2) == leaves(full, max, Some(max), false)
        && turn_after(rt, alloc, network, max - 1) == leaves(full, max, None, false)
        && turn_after(rt, alloc, network, max) == leaves(full, 0, None, true)
}

#[test]
fn a_node_does_nothing_past_the_greatest_stamp(rt: HostRuntime) {
    let network = pair(&rt, rt.alloc()).expect(&rt, "network");
    assert!(rt; puts_in_time(&rt, rt.alloc(), &network));
}
