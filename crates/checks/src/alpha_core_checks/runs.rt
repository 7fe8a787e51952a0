//! Worked runs of one node.

ghost use Rattle.std.specs.Prelude.{◌≡◌, ◌≤◌, length};
ghost use Rattle.interference.specs.Net.{IsVertex, degree_of};

use crate::alpha_core_checks::alone::{Act, Played, ask, leaf, play, put_next};
use crate::counted::Counted;
use crate::networks::edge;
use alpha_core::{AlphaNode, AlphaRefused};
use interference::Network;
use node_api::NodeProgram;
use std::alloc::Global;
use sync_rounds::{Best, Greatest};
use wires::Wire;

// What comes to a node without pulses, and what it returns: nothing but a close, and after it nothing at all.
static CLOSING: [Act<Best>; 3] = [
    Act::Take(Wire::Safe(0)),
    Act::Take(Wire::Close),
    Act::Take(Wire::Safe(0)),
];

static CLOSED: [Option<Result<(), AlphaRefused>>; 3] = [
    Some(Err(AlphaRefused::WrongPulse)),
    Some(Ok(())),
    Some(Err(AlphaRefused::AfterClose)),
];

// Whether a node without pulses starts halted, and is drained once it has put its close and taken its neighbour's.
fn closes(alloc: Global, node: &mut AlphaNode<Greatest<0>>) -> bool
    requires one { length node.old.node.view.ports ≡ 1 }
{
    let starts_halted = node.halted() && !node.drained();
    let mut played = Played::new(alloc);
    let is_played = play(node, &CLOSING, &mut played).is_ok();
    starts_halted
        && is_played
        && node.drained()
        && played.answers.as_slice() == CLOSED.as_slice()
        && played.put.as_slice() == [Wire::Close].as_slice()
}

fn closes_at_once(alloc: Global, net: &Network) -> bool
    requires vertex { IsVertex net.now 1 }
    requires one { degree_of net.now 1 ≡ 1 }
{
    match leaf(alloc, net, 1) {
        Ok(mut node) => closes(alloc, &mut node),
        Err(_) => false,
    }
}

#[test]
fn a_node_without_pulses_starts_halted(rt: HostRuntime) {
    let net = edge(rt.alloc()).expect(&rt, "network");
    assert!(rt; net.nodes() == 2 && net.degree(1) == 1);
    assert!(rt; closes_at_once(rt.alloc(), &net));
}

// Plays a node up to its last pulse, with a payload from its neighbour at each, and counts the wires that it puts. It
// takes no memory of its own.
fn wires_put<P: NodeProgram>(node: &mut AlphaNode<P>, payload: P::Payload, last: u32) -> u32
    requires one { length node.old.node.view.ports ≡ 1 }
{
    let mut put = u32::from(put_next(node).is_some());
    for pulse in 0..last {
        put = put.wrapping_add(pulse_put(node, payload, pulse));
    }
    put.wrapping_add(act_put(node, Act::Take(Wire::Close)))
}

// Plays a pulse: takes what comes at it, and makes the next.
fn pulse_put<P: NodeProgram>(node: &mut AlphaNode<P>, payload: P::Payload, pulse: u32) -> u32
    requires one { length node.old.node.view.ports ≡ 1 }
    ensures one { length node.new.node.view.ports ≡ 1 }
{
    let acknowledgement = act_put(node, Act::Take(Wire::Payload(pulse, payload)));
    let safe = act_put(node, Act::Take(Wire::Ack(pulse)));
    let nothing = act_put(node, Act::Take(Wire::Safe(pulse)));
    let payload_or_close = act_put(node, Act::Pulse);
    acknowledgement + safe + nothing + payload_or_close
}

// Puts what an act emits, if it isn't refused; how many wires that is, one at most.
fn act_put<P: NodeProgram>(node: &mut AlphaNode<P>, act: Act<P::Payload>) -> u32
    requires one { length node.old.node.view.ports ≡ 1 }
    ensures one { length node.new.node.view.ports ≡ 1 }
    ensures few { result ≤ 1 }
{
    if ask(node, act) != Some(Ok(())) {
        return 0;
    }
    u32::from(put_next(node).is_some())
}

// Whether a node of `Greatest` puts this number of wires in a whole run, and is then drained.
fn runs_to_the_end<const D: u32>(node: &mut AlphaNode<Greatest<D>>, wires: u32) -> bool
    requires one { length node.old.node.view.ports ≡ 1 }
{
    wires_put(node, Best(2), D) == wires && node.drained()
}

fn run_of_leaf<const D: u32>(alloc: Global, net: &Network, wires: u32) -> bool
    requires vertex { IsVertex net.now 1 }
    requires one { degree_of net.now 1 ≡ 1 }
{
    match leaf(alloc, net, 1) {
        Ok(mut node) => runs_to_the_end::<D>(&mut node, wires),
        Err(_) => false,
    }
}

fn whole_run<const D: u32>(alloc: Global, wires: u32) -> bool {
    match edge(alloc) {
        Ok(net) => {
            net.nodes() == 2 && net.degree(1) == 1 && run_of_leaf::<D>(alloc, &net, wires)
        }
        Err(_) => false,
    }
}

// This and the next test do the same but for the number of pulses: tests/faults/test_allocations.py compares how often
// they allocate.
#[test]
fn a_node_of_1_pulse(rt: HostRuntime) {
    assert!(rt; whole_run::<1>(rt.alloc(), 4));
}

#[test]
fn a_node_of_50_pulses(rt: HostRuntime) {
    assert!(rt; whole_run::<50>(rt.alloc(), 151));
}

// Whether a node counts its calls: none before a whole run, and three for each pulse behind it.
fn counts_its_calls(node: &mut AlphaNode<Counted<7>>) -> bool
    requires one { length node.old.node.view.ports ≡ 1 }
{
    node.program().calls() == Some(0)
        && wires_put(node, Best(2), 7) == 22
        && node.program().calls() == Some(21)
}

fn calls_of_leaf(alloc: Global, net: &Network) -> bool
    requires vertex { IsVertex net.now 1 }
    requires one { degree_of net.now 1 ≡ 1 }
{
    match leaf(alloc, net, 1) {
        Ok(mut node) => counts_its_calls(&mut node),
        Err(_) => false,
    }
}

#[test]
fn every_pulse_of_a_node_makes_its_three_calls_in_order(rt: HostRuntime) {
    let net = edge(rt.alloc()).expect(&rt, "network");
    assert!(rt; net.nodes() == 2 && net.degree(1) == 1);
    assert!(rt; calls_of_leaf(rt.alloc(), &net));
}
