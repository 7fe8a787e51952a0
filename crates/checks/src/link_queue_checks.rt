//! Links that hand over in one thread and between two.

ghost use Rattle.std.specs.Prelude.{◌≡◌, ◌<◌, ◌≤◌, IfOk};
ghost use Rattle.checks.specs.SmallNets.{pair_net};

use crate::link_alone::{met_again, one_after_another};
use crate::link_threads::hand_over;
use colour_program::Colouring;
use colour_rules::{Long, Payload};
use interference::{NetFault, Network, bars_fit, edges_fit};
use link_rule::StreamCheck;
use run_options::MAX_CAPACITY;
use std::alloc::Global;
use std::process::Abort;
use std::sync::Wait;
use std::thread::Threads;
use sync_rounds::{Best, Greatest};
use wires::{Stamped, Wire};

/// Two nodes with identifiers 1 and 2 and an edge.
pub fn pair(rt: &impl Abort, alloc: Global) -> Result<Network, NetFault>
    ensures { IfOk result (λ net. net ≡ pair_net) }
{
    let ids = [1, 2];
    let edges = [(1, 2)];
    assert!(rt; edges_fit(2, &edges));
    assert!(rt; bars_fit(2, &[]));
    Network::new(alloc, 2, &ids, &edges, &[])
}

// A wire with its stamp.
fn item<T>(stamp: u64, wire: Wire<T>) -> Stamped<T> {
    Stamped { stamp, wire }
}

// Stamps, wires, and whether a check passes them. It refuses a wire out of order or a stamp that doesn't rise, and then
// goes on as if it hadn't come.
static CHECKED: [(u64, Wire<Best>, bool); 8] = [
    (0, Wire::Payload(0, Best(1)), false),
    (7, Wire::Safe(1), false),
    (5, Wire::Payload(0, Best(1)), true),
    (5, Wire::Safe(0), false),
    (4, Wire::Safe(0), false),
    (6, Wire::Safe(0), true),
    (u64::MAX, Wire::Close, true),
    (u64::MAX, Wire::Ack(0), false),
];

fn passes_what_is_due(check: &mut StreamCheck) -> bool {
    for (stamp, wire, passes) in &CHECKED {
        if check.feed(&item(*stamp, *wire)) != *passes {
            return false;
        }
    }
    true
}

// Whether one thread puts and takes what it should on a link of `Greatest`, and on one of the colouring.
fn greatest_is_handed_over<R: Wait>(rt: &R, alloc: Global, network: &Network) -> bool
    requires network { network.now ≡ pair_net }
{
    one_after_another::<Greatest<1>, _>(rt, alloc, network, Best(1)) == Ok((true, 0))
}

fn a_greeting_is_handed_over<R: Wait>(rt: &R, alloc: Global, network: &Network) -> bool
    requires network { network.now ≡ pair_net }
{
    let hello = Payload::Hello(Long::new(1));
    one_after_another::<Colouring, _>(rt, alloc, network, hello) == Ok((true, 0))
}

#[test]
fn one_thread_puts_and_takes(rt: HostRuntime) {
    let network = pair(&rt, rt.alloc()).expect(&rt, "network");
    assert!(rt; greatest_is_handed_over(&rt, rt.alloc(), &network));
    assert!(rt; a_greeting_is_handed_over(&rt, rt.alloc(), &network));
    assert!(rt; passes_what_is_due(&mut StreamCheck::new(1)));
}

// Whether a link holds the last wire when its ends meet. If memory is refused, it is tried again.
fn holds_the_last<R: Wait>(rt: &R, alloc: Global, network: &Network) -> bool
    requires network { network.now ≡ pair_net }
{
    let held = match met_again(rt, alloc, network) {
        Ok(held) => Ok(held),
        Err(_) => met_again(rt, alloc, network),
    };
    held == Ok(Some(item(3, Wire::Safe(0))))
}

fn pair_again(rt: &impl Abort, alloc: Global) -> Result<Network, NetFault>
    ensures { IfOk result (λ net. net ≡ pair_net) }
{
    match pair(rt, alloc) {
        Ok(net) => Ok(net),
        Err(_) => pair(rt, alloc),
    }
}

// tests/faults/test_refused_memory.py runs this test with each allocation refused in turn. What memory was refused to
// is tried again.
#[test]
fn a_link_meets_again_after_a_refused_growth(rt: HostRuntime) {
    let network = pair_again(&rt, rt.alloc()).expect(&rt, "network");
    assert!(rt; holds_the_last(&rt, rt.alloc(), &network));
}

// Whether two nodes hand over ten thousand wires each way, each on a thread.
fn hand_over_at<R: Threads + Wait + Sync>(
    rt: &R,
    alloc: Global,
    network: &Network,
    capacity: usize,
) -> bool
    requires capacity { (0 < capacity) × (capacity ≤ MAX_CAPACITY) }
    requires network { network.now ≡ pair_net }
{
    hand_over(rt, alloc, network, capacity) == Ok(true)
}

// The same at four capacities.
fn hand_over_at_each<R: Threads + Wait + Sync>(rt: &R, alloc: Global, network: &Network) -> bool
    requires network { network.now ≡ pair_net }
{
    hand_over_at(rt, alloc, network, 1)
        && hand_over_at(rt, alloc, network, 2)
        && hand_over_at(rt, alloc, network, 4)
        && hand_over_at(rt, alloc, network, 64)
}

#[test]
fn two_threads_hand_over_ten_thousand_wires(rt: HostRuntime) {
    let network = pair(&rt, rt.alloc()).expect(&rt, "network");
    assert!(rt; hand_over_at_each(&rt, rt.alloc(), &network));
}
