//! How often nodes of the colouring are called by an engine that passes over those that rest.

ghost use Rattle.std.specs.Prelude.{◌≡◌, ◌<◌, ◌+◌, ◌^◌};
ghost use Rattle.interference.specs.Net.{IsVertex};

use crate::networks::network;
use colour_program::Colouring;
use interference::{Memory, Network};
use node_api::NodeProgram;
use std::alloc::Global;
use sync_rounds::Rounds;

// The star of eight nodes: node 1 has an edge to each other one.
static STAR: [(u32, u32); 7] = [(1, 2), (1, 3), (1, 4), (1, 5), (1, 6), (1, 7), (1, 8)];

// Whether a node rests at the next pulse.
fn rests(rounds: &Rounds<'_, Colouring>, v: u32) -> bool
    requires vertex { IsVertex rounds.now.net v }
{
    let pulse = rounds.pulse();
    pulse.saturating_add(1) < rounds.node(v).rests_until(pulse)
}

// How many nodes rest at the next pulse.
fn resting(rounds: &Rounds<'_, Colouring>) -> u32 {
    let mut resting: u32 = 0;
    for i in 0..rounds.network().nodes() {
        if rests(rounds, i + 1) {
            resting = resting.saturating_add(1);
        }
    }
    resting
}

// How many nodes rest at the pulses after the first, all pulses taken together.
fn rests_of(alloc: Global, net: &Network) -> Result<u32, Memory> {
    let mut rounds = Rounds::<Colouring>::start(alloc, net)?;
    let mut rests: u32 = 0;
    for _done in 1..Colouring::last_pulse(net) {
        // The pulse of a last pulse that is small, which the prover wants to see.
        if rounds.pulse() < 1_000 {
            rounds.step();
            rests = rests.saturating_add(resting(&rounds));
        }
    }
    Ok(rests)
}

// Of the 180 pulses a node makes the first 12 and, in the merge of each of the 7 forests, at most two by itself: that
// of its turn, and one at which it looks when the next is. So at most 26 of 180; three quarters are far above that.
#[test]
fn nodes_rest_at_three_of_four_pulses(rt: HostRuntime) {
    let ids = [1u128, 2, 3, 4, 5, 6, 7, 8];
    let net = network(rt.alloc(), &ids, &STAR).expect(&rt, "network");
    let pulses = Colouring::last_pulse(&net);
    let rests = rests_of(rt.alloc(), &net).expect(&rt, "rounds");
    assert!(rt; pulses == 180);
    assert!(rt; rests > 8 * 135, "{rests}");
}
