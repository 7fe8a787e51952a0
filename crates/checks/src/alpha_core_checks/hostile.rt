//! A node of the colouring, and a neighbour that puts wires as it likes: each is taken or refused, and the node is
//! afterwards as its twin that got only those it took.

ghost use Rattle.std.specs.Prelude.{◌≡◌, length};
ghost use Rattle.interference.specs.Net.{IsVertex, degree_of};

use crate::alpha_core_checks::alone::{Act, Played, leaf, play};
use crate::networks::edge;
use crate::samples::Sample;
use alpha_core::{AlphaNode, AlphaRefused};
use colour_program::Colouring;
use colour_rules::Payload;
use interference::Network;
use node_api::Refused;
use std::alloc::Global;
use wires::Wire;

// What comes to a node of a payload, and what it puts of one.
fn comes(pulse: u32, sample: Sample) -> Act<Payload> {
    Act::Take(Wire::Payload(pulse, sample.payload()))
}

fn put(pulse: u32, sample: Sample) -> Wire<Payload> {
    Wire::Payload(pulse, sample.payload())
}

fn label() -> Act<Payload> {
    comes(1, Sample::Label(0))
}

const TAKEN: Option<Result<(), AlphaRefused>> = Some(Ok(()));

const EARLY: Option<Result<(), AlphaRefused>> = Some(Err(AlphaRefused::WrongPulse));

// Safe came without a payload, so the pulse is made, and what is due is missing.
const MISSING: Option<Result<(), AlphaRefused>> = Some(Err(AlphaRefused::Program(Refused {
    rule: 5,
    port: Some(0),
})));

// What comes to vertex 1 of an edge from its start, and the next pulse.
fn hostile() -> [Act<Payload>; 12] {
    [
        label(),
        Act::Take(Wire::Safe(0)),
        label(),
        Act::Take(Wire::Ack(0)),
        label(),
        label(),
        Act::Take(Wire::Ack(0)),
        Act::Take(Wire::Safe(0)),
        Act::Take(Wire::Close),
        Act::Take(Wire::Safe(1)),
        Act::Take(Wire::Safe(2)),
        Act::Pulse,
    ]
}

// What it returns to each.
static ANSWERS: [Option<Result<(), AlphaRefused>>; 12] = [
    EARLY,
    TAKEN,
    EARLY,
    TAKEN,
    TAKEN,
    Some(Err(AlphaRefused::DoublePayload)),
    Some(Err(AlphaRefused::StrayAck)),
    Some(Err(AlphaRefused::DoubleSafe)),
    EARLY,
    TAKEN,
    EARLY,
    MISSING,
];

// Those that it takes, what its twin returns that gets only these, and what both put.
fn only_taken() -> [Act<Payload>; 5] {
    [
        Act::Take(Wire::Safe(0)),
        Act::Take(Wire::Ack(0)),
        label(),
        Act::Take(Wire::Safe(1)),
        Act::Pulse,
    ]
}

static ONLY_TAKEN_ANSWERS: [Option<Result<(), AlphaRefused>>; 5] = [
    TAKEN, TAKEN, TAKEN, TAKEN, MISSING,
];

fn both_put() -> [Wire<Payload>; 3] {
    [put(0, Sample::Hello(1)), Wire::Safe(0), Wire::Ack(1)]
}

// What comes to vertex 1 as it makes two pulses, and what it puts.
fn two_pulses() -> [Act<Payload>; 7] {
    [
        comes(0, Sample::Hello(2)),
        Act::Take(Wire::Ack(0)),
        Act::Take(Wire::Safe(0)),
        Act::Pulse,
        Act::Take(Wire::Ack(1)),
        Act::Take(Wire::Safe(1)),
        Act::Pulse,
    ]
}

static ALL_TAKEN: [Option<Result<(), AlphaRefused>>; 7] = [TAKEN; 7];

fn two_pulses_put() -> [Wire<Payload>; 6] {
    [
        put(0, Sample::Hello(1)),
        Wire::Ack(0),
        Wire::Safe(0),
        put(1, Sample::Label(0)),
        Wire::Safe(1),
        Wire::Safe(2),
    ]
}

// What comes to vertex 2, which has no parent: at pulse 1 it sends nothing, and so is safe at once. At pulse 2 the
// label of its child is due.
fn unlabelled() -> [Act<Payload>; 6] {
    [
        comes(0, Sample::Hello(1)),
        Act::Take(Wire::Ack(0)),
        Act::Take(Wire::Safe(0)),
        Act::Pulse,
        Act::Take(Wire::Safe(1)),
        Act::Pulse,
    ]
}

static UNLABELLED_ANSWERS: [Option<Result<(), AlphaRefused>>; 6] = [
    TAKEN, TAKEN, TAKEN, TAKEN, TAKEN, MISSING,
];

fn unlabelled_put() -> [Wire<Payload>; 4] {
    [
        put(0, Sample::Hello(2)),
        Wire::Ack(0),
        Wire::Safe(0),
        Wire::Safe(1),
    ]
}

// What a node is given, and what it returns, puts and comes to.
#[derive(Clone, Copy)]
struct Play<'a> {
    acts: &'a [Act<Payload>],
    answers: &'a [Option<Result<(), AlphaRefused>>],
    put: &'a [Wire<Payload>],
    pulse: u32,
}

// Whether a node plays so.
fn plays_so(alloc: Global, node: &mut AlphaNode<Colouring>, play_of: &Play) -> bool
    requires one { length node.old.node.view.ports ≡ 1 }
{
    let mut played = Played::new(alloc);
    play(node, play_of.acts, &mut played).is_ok()
        && played.answers.as_slice() == play_of.answers
        && played.put.as_slice() == play_of.put
        && node.pulse_number() == play_of.pulse
}

// The same of the node of a vertex, made anew.
fn plays(alloc: Global, net: &Network, v: u32, play_of: &Play) -> bool
    requires vertex { IsVertex net.now v }
    requires one { degree_of net.now v ≡ 1 }
{
    match leaf(alloc, net, v) {
        Ok(mut node) => plays_so(alloc, &mut node, play_of),
        Err(_) => false,
    }
}

// Whether the nodes of an edge play so.
fn first_plays(alloc: Global, net: &Network) -> bool
    requires vertex { IsVertex net.now 1 }
    requires one { degree_of net.now 1 ≡ 1 }
{
    let hostile = Play {
        acts: &hostile(),
        answers: &ANSWERS,
        put: &both_put(),
        pulse: 0,
    };
    let only_taken = Play {
        acts: &only_taken(),
        answers: &ONLY_TAKEN_ANSWERS,
        put: &both_put(),
        pulse: 0,
    };
    let two_pulses = Play {
        acts: &two_pulses(),
        answers: &ALL_TAKEN,
        put: &two_pulses_put(),
        pulse: 2,
    };
    plays(alloc, net, 1, &hostile)
        && plays(alloc, net, 1, &only_taken)
        && plays(alloc, net, 1, &two_pulses)
}

fn second_plays(alloc: Global, net: &Network) -> bool
    requires vertex { IsVertex net.now 2 }
    requires one { degree_of net.now 2 ≡ 1 }
{
    let unlabelled = Play {
        acts: &unlabelled(),
        answers: &UNLABELLED_ANSWERS,
        put: &unlabelled_put(),
        pulse: 1,
    };
    plays(alloc, net, 2, &unlabelled)
}

#[test]
fn each_wire_of_a_hostile_neighbour(rt: HostRuntime) {
    let net = edge(rt.alloc()).expect(&rt, "network");
    assert!(rt; net.nodes() == 2 && net.degree(1) == 1 && net.degree(2) == 1);
    assert!(rt; first_plays(rt.alloc(), &net));
    assert!(rt; second_plays(rt.alloc(), &net));
}
