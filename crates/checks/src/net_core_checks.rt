//! Lists of events on the triangle: what `run` refuses, and what node 3 hears though two wires come a pulse early.

ghost use Rattle.std.specs.Prelude.{◌≡◌, IfOk};
ghost use Rattle.interference.specs.Net.{count_of};

use crate::heard::{Came, Heard};
use crate::networks::{edge, network};
use crate::samples::Sample;
use colour_program::Colouring;
use colour_rules::Payload;
use event_machine::NetState;
use event_rule::{Event, RunRefused};
use interference::Network;
use net_core::run;
use node_api::NodeProgram;
use std::alloc::Global;
use sync_rounds::Greatest;

/// Runs events.
pub fn run_all<P: NodeProgram>(
    alloc: Global,
    net: &Network,
    events: &[Event],
) -> Result<NetState<P>, RunRefused>
    ensures net { IfOk result (λ view. view.net ≡ net.now) }
{
    run(alloc, net, events)
}

// A run of the colouring on the triangle. After 30 events all greetings, acknowledgements and safes are put; the next
// two are node 1's takes of both safes. After 45 events node 3 is still at pulse 0, and has taken node 1's
// `Payload(1, Label(1))` and `Safe(1)`. Events 47 and 58 are its pulses 1 and 2.
static EVENTS: [Event; 58] = [
    Event::Put(1, 0),
    Event::Put(1, 1),
    Event::Put(2, 0),
    Event::Put(2, 1),
    Event::Put(3, 0),
    Event::Put(3, 1),
    Event::Take(1, 0),
    Event::Take(1, 1),
    Event::Take(2, 0),
    Event::Take(2, 1),
    Event::Take(3, 0),
    Event::Take(3, 1),
    Event::Put(1, 0),
    Event::Put(1, 1),
    Event::Put(2, 0),
    Event::Put(2, 1),
    Event::Put(3, 0),
    Event::Put(3, 1),
    Event::Take(1, 0),
    Event::Take(1, 1),
    Event::Take(2, 0),
    Event::Take(2, 1),
    Event::Take(3, 0),
    Event::Take(3, 1),
    Event::Put(1, 0),
    Event::Put(1, 1),
    Event::Put(2, 0),
    Event::Put(2, 1),
    Event::Put(3, 0),
    Event::Put(3, 1),
    Event::Take(1, 0),
    Event::Take(1, 1),
    Event::Pulse(1),
    Event::Put(1, 1),
    Event::Take(3, 0),
    Event::Take(3, 0),
    Event::Put(1, 0),
    Event::Take(2, 0),
    Event::Take(2, 0),
    Event::Put(2, 0),
    Event::Take(1, 0),
    Event::Put(3, 0),
    Event::Take(1, 1),
    Event::Put(1, 1),
    Event::Take(3, 0),
    Event::Take(3, 1),
    Event::Pulse(3),
    Event::Take(2, 1),
    Event::Pulse(2),
    Event::Put(2, 1),
    Event::Take(3, 1),
    Event::Put(3, 1),
    Event::Put(3, 1),
    Event::Take(2, 1),
    Event::Take(2, 1),
    Event::Put(2, 1),
    Event::Take(3, 1),
    Event::Pulse(3),
];

fn is_refused(alloc: Global, net: &Network, events: &[Event], refused: RunRefused) -> bool {
    match run::<Greatest<1>>(alloc, net, events) {
        Ok(_) => false,
        Err(why) => why == refused,
    }
}

// Whether node 1 can't make its pulse when it has taken one safe of two.
fn waits_for_both(alloc: Global, net: &Network) -> bool {
    let mut events = EVENTS;
    events[31] = Event::Pulse(1);
    let (first, _) = events.split_at(32);
    is_refused(alloc, net, first, RunRefused::NotReady(31))
}

type Triangle = NetState<Heard<Colouring>>;

// Whether node 3 is at a pulse, for which this came by its ports 0 and 1.
fn has_heard(state: &Triangle, pulse: u32, first: Came<Payload>, second: Came<Payload>) -> bool
    requires three { count_of state.now.net ≡ 3 }
{
    state.pulse_of(3) == pulse && state.node(3).program().heard() == (first, second)
}

// The same after some events.
fn hears(
    alloc: Global,
    net: &Network,
    events: &[Event],
    pulse: u32,
    first: Came<Payload>,
    second: Came<Payload>,
) -> bool
    requires three { count_of net.now ≡ 3 }
{
    match run_all(alloc, net, events) {
        Ok(state) => has_heard(&state, pulse, first, second),
        Err(_) => false,
    }
}

// Whether node 3 hears two greetings at pulse 1, and the label that came early at pulse 2.
fn keeps_what_is_early(alloc: Global, net: &Network) -> bool
    requires three { count_of net.now ≡ 3 }
{
    let (before, _) = EVENTS.split_at(45);
    let (at_1, _) = EVENTS.split_at(47);
    let hello_1 = Some((0, Sample::Hello(1).payload()));
    let hello_2 = Some((1, Sample::Hello(2).payload()));
    let label_1 = Some((0, Sample::Label(1).payload()));
    let label_0 = Some((1, Sample::Label(0).payload()));
    hears(alloc, net, before, 0, None, None)
        && hears(alloc, net, at_1, 1, hello_1, hello_2)
        && hears(alloc, net, &EVENTS, 2, label_1, label_0)
}

#[test]
fn run_plays_worked_lists_of_the_triangle(rt: HostRuntime) {
    let alloc: Global = rt.alloc();
    let triangle = network(alloc, &[1, 2, 3], &[(1, 2), (1, 3), (2, 3)]).expect(&rt, "network");
    let waits = [Event::Put(1, 0), Event::Pulse(1)];
    assert!(rt;
        is_refused(
            alloc,
            &triangle,
            &[Event::Take(1, 0)],
            RunRefused::LinkEmpty(0)
        )
    );
    assert!(rt; is_refused(alloc, &triangle, &waits, RunRefused::NotReady(1)));
    assert!(rt; is_refused(alloc, &triangle, &[Event::Pulse(4)], RunRefused::NoSuch(0)));
    assert!(rt; waits_for_both(alloc, &triangle));
    assert!(rt; triangle.nodes() == 3 && keeps_what_is_early(alloc, &triangle));
    let pair = edge(alloc).expect(&rt, "network");
    let twice = [Event::Put(1, 0), Event::Put(1, 0)];
    assert!(rt; is_refused(alloc, &pair, &twice, RunRefused::NothingToPut(1)));
}
