//! A network that is played to its end though memory is refused once: tests/faults/test_refused_memory.py runs this
//! test with each allocation refused in turn. What memory was refused to is tried again, as is every call here that
//! isn't refused.

ghost use Rattle.std.specs.Prelude.{◌≡◌};
ghost use Rattle.interference.specs.Net.{count_of, degree_of};

use crate::net_core_checks::run_all;
use crate::networks::edge;
use event_machine::NetState;
use event_rule::{Event, RunRefused, StepRefused};
use interference::{Memory, Network};
use std::alloc::Global;
use sync_rounds::Greatest;

// Two nodes with an edge, whose last pulse is 1: payloads, acknowledgements and safes of pulse 0, the pulses, and what
// closes the links.
static EVENTS: [Event; 18] = [
    Event::Put(1, 0),
    Event::Put(2, 0),
    Event::Take(1, 0),
    Event::Take(2, 0),
    Event::Put(1, 0),
    Event::Put(2, 0),
    Event::Take(1, 0),
    Event::Take(2, 0),
    Event::Put(1, 0),
    Event::Put(2, 0),
    Event::Take(1, 0),
    Event::Take(2, 0),
    Event::Pulse(1),
    Event::Pulse(2),
    Event::Put(1, 0),
    Event::Put(2, 0),
    Event::Take(1, 0),
    Event::Take(2, 0),
];

type Pair = NetState<Greatest<1>>;

fn edge_again(alloc: Global) -> Result<Box<Network>, Memory> {
    match edge(alloc) {
        Ok(net) => Ok(net),
        Err(_) => edge(alloc),
    }
}

// The pulses, and how many wires each link holds.
fn seen(state: &Pair) -> (u32, u32, usize, usize)
    requires pair { (count_of state.now.net ≡ 2) × (degree_of state.now.net 1 ≡ 1) × (degree_of state.now.net 2 ≡ 1) }
{
    (
        state.pulse_of(1),
        state.pulse_of(2),
        state.waiting(1, 0),
        state.waiting(2, 0),
    )
}

// The greatest identifier that each node knows, if it is drained.
fn bests(state: &Pair) -> (Option<u128>, Option<u128>)
    requires pair { count_of state.now.net ≡ 2 }
{
    let (one, two) = (state.node(1), state.node(2));
    (
        one.drained().then_some(one.program().best()),
        two.drained().then_some(two.program().best()),
    )
}

// Makes an event; once more if memory was refused to it, which left the state as it was. Whether it was made.
fn make(state: &mut Pair, event: Event) -> bool
    requires pair { (count_of state.old.net ≡ 2) × (degree_of state.old.net 1 ≡ 1) × (degree_of state.old.net 2 ≡ 1) }
    ensures pair { (count_of state.new.net ≡ 2) × (degree_of state.new.net 1 ≡ 1) × (degree_of state.new.net 2 ≡ 1) }
{
    let before = seen(state);
    match state.step(event) {
        Ok(()) => true,
        Err(StepRefused::Memory) => seen(state) == before && state.step(event).is_ok(),
        Err(_) => false,
    }
}

// Makes some events; whether all were made.
fn make_all(state: &mut Pair, events: &[Event]) -> bool
    requires pair { (count_of state.old.net ≡ 2) × (degree_of state.old.net 1 ≡ 1) × (degree_of state.old.net 2 ≡ 1) }
    ensures pair { (count_of state.new.net ≡ 2) × (degree_of state.new.net 1 ≡ 1) × (degree_of state.new.net 2 ≡ 1) }
{
    for event in events {
        if !make(state, *event) {
            return false;
        }
    }
    true
}

// Whether all events are made, and the nodes end as they should.
fn plays(state: &mut Pair) -> bool
    requires pair { (count_of state.old.net ≡ 2) × (degree_of state.old.net 1 ≡ 1) × (degree_of state.old.net 2 ≡ 1) }
{
    make_all(state, &EVENTS) && seen(state) == (1, 1, 0, 0) && bests(state) == (Some(2), Some(2))
}

// The same of a new state; nothing if memory was refused to it.
fn plays_anew(alloc: Global, net: &Network) -> Option<bool>
    requires pair { (count_of net.now ≡ 2) × (degree_of net.now 1 ≡ 1) × (degree_of net.now 2 ≡ 1) }
{
    match NetState::start(alloc, net) {
        Ok(mut state) => Some(plays(&mut state)),
        Err(_) => None,
    }
}

#[test]
fn a_state_goes_on_after_a_refused_growth(rt: HostRuntime) {
    let net = edge_again(rt.alloc()).expect(&rt, "network");
    assert!(rt; net.nodes() == 2 && net.degree(1) == 1 && net.degree(2) == 1);
    let played = plays_anew(rt.alloc(), &net);
    assert!(rt;
        played == Some(true) || played.is_none() && plays_anew(rt.alloc(), &net) == Some(true)
    );
}

// Whether the nodes end as they should; nothing if memory was refused.
fn runs(alloc: Global, net: &Network) -> Option<bool>
    requires two { count_of net.now ≡ 2 }
{
    match run_all(alloc, net, &EVENTS) {
        Ok(state) => Some(bests(&state) == (Some(2), Some(2))),
        Err(RunRefused::Memory) => None,
        Err(_) => Some(false),
    }
}

#[test]
fn a_list_runs_again_after_a_refused_growth(rt: HostRuntime) {
    let net = edge_again(rt.alloc()).expect(&rt, "network");
    assert!(rt; net.nodes() == 2);
    let ran = runs(rt.alloc(), &net);
    assert!(rt; ran == Some(true) || ran.is_none() && runs(rt.alloc(), &net) == Some(true));
}
