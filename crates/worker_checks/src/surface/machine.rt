//! A node under synchroniser alpha, lists of events, entries, and streams.

ghost use Rattle.std.specs.Prelude.{◌<◌, ◌^◌, IsTrue, length};
ghost use Rattle.interference.specs.Net.{IsVertex, degree_of};
ghost use Rattle.alpha_core.specs.View.{can_pulse, can_take, port_at};

use alpha_core::{AlphaNode, AlphaRefused, Counter, StampFull};
use colour_rules::Payload;
use entries::{Entry, Row, StampedEntry, StampedRow};
use event_machine::NetState;
use event_rule::{Event, RunRefused, StepRefused};
use interference::{Memory, Network};
use link_rule::StreamCheck;
use net_core::{ReplayRefused, StampedState, WholeRefused, replay, replay_whole, run};
use node_api::NodeProgram;
use stamps::{order, rising};
use std::alloc::Global;
use wires::{Stamped, Wire};

pub fn started<P: NodeProgram>(alloc: Global, net: &Network, v: u32) -> Result<AlphaNode<P>, Memory>
    requires { IsVertex net.now v }
{
    AlphaNode::<P>::start(alloc, net, v)
}

pub fn asked<P: NodeProgram>(node: &AlphaNode<P>) -> &P {
    let _: (bool, bool) = (node.can_take(), node.can_pulse());
    let _: (u32, bool, bool) = (node.pulse_number(), node.halted(), node.drained());
    node.program()
}

pub fn taken<P: NodeProgram>(
    node: &mut AlphaNode<P>,
    port: u32,
    wire: Wire<P::Payload>,
) -> Result<(), AlphaRefused>
    requires port { port < length node.old.node.view.ports }
    requires room { IsTrue (can_take node.old.node.view) }
{
    node.on_wire(port, wire)
}

pub fn pulsed<P: NodeProgram>(node: &mut AlphaNode<P>) -> Result<(), AlphaRefused>
    requires { IsTrue (can_pulse node.old.last node.old.node.view) }
{
    node.pulse()
}

pub fn put<P: NodeProgram>(node: &mut AlphaNode<P>, port: u32) -> Option<Wire<P::Payload>>
    requires port { port < length node.old.node.view.ports }
    requires some { 0 < length (port_at node.old.node.view port).out }
{
    let wire = node.front(port);
    node.put_done(port);
    wire
}

pub fn counter() {
    let _: fn() -> Counter = Counter::new;
    let _: fn(&Counter) -> u64 = Counter::value;
    let _: fn(&mut Counter) -> Result<u64, StampFull> = Counter::next;
    let _: fn(&mut Counter, u64) -> Result<u64, StampFull> = Counter::past;
    let _: fn(u32) -> StreamCheck = StreamCheck::new;
}

pub fn fed(check: &mut StreamCheck, item: &Stamped<Payload>) -> bool {
    check.feed(item)
}

pub fn state<P: NodeProgram>(alloc: Global, net: &Network) -> Result<NetState<P>, Memory> {
    NetState::start(alloc, net)
}

pub fn stepped<P: NodeProgram>(state: &mut NetState<P>, event: Event) -> Result<(), StepRefused> {
    state.step(event)
}

pub fn read<P: NodeProgram>(state: &NetState<P>, v: u32, port: u32) -> (u32, usize)
    requires vertex { IsVertex state.now.net v }
    requires port { port < degree_of state.now.net v }
{
    let _: &AlphaNode<P> = state.node(v);
    (state.pulse_of(v), state.waiting(v, port))
}

pub fn run_of<P: NodeProgram>(
    alloc: Global,
    net: &Network,
    events: &[Event],
) -> Result<NetState<P>, RunRefused> {
    run::<P>(alloc, net, events)
}

pub fn replayed<P: NodeProgram>(
    alloc: Global,
    net: &Network,
    entries: &[Row<P::Payload>],
) -> Result<NetState<P>, ReplayRefused> {
    replay::<P>(alloc, net, entries)
}

pub fn replayed_whole<P: NodeProgram>(
    alloc: Global,
    net: &Network,
    entries: &[StampedRow<P::Payload>],
) -> Result<StampedState<P>, WholeRefused> {
    replay_whole::<P>(alloc, net, entries)
}

pub fn stamp<P: NodeProgram>(state: &StampedState<P>, v: u32) -> u64 {
    state.stamp_of(v)
}

pub fn ordered(
    alloc: Global,
    lists: &[Vec<StampedEntry<Payload>>],
) -> Option<Result<Vec<StampedRow<Payload>>, Memory>>
    requires { length lists.now < 2 ^ 32 }
{
    if rising(lists) {
        Some(order(alloc, lists))
    } else {
        None
    }
}

/// The vertex of an event, and its port if it has one.
pub fn event(event: Event) -> (u32, Option<u32>) {
    match event {
        Event::Pulse(v) => (v, None),
        Event::Put(v, port) | Event::Take(v, port) => (v, Some(port)),
    }
}

/// The number of an entry (a pulse, or the neighbour's vertex), and the pulse of its wire if it has one.
pub fn entry(entry: Entry<Payload>) -> (u32, Option<u32>) {
    match entry {
        Entry::Pulse(pulse) => (pulse, None),
        Entry::Put(w, wire) | Entry::Take(w, wire) => (w, pulse_of(wire)),
    }
}

fn pulse_of(wire: Wire<Payload>) -> Option<u32> {
    match wire {
        Wire::Payload(pulse, _) | Wire::Ack(pulse) | Wire::Safe(pulse) => Some(pulse),
        Wire::Close => None,
    }
}

pub fn stamped(item: Stamped<Payload>) -> (u64, Wire<Payload>) {
    let Stamped { stamp, wire } = item;
    (stamp, wire)
}

/// Rows turn into the tuples that were asked for, and back.
pub fn tuples(
    row: (u32, Entry<Payload>),
    entry: (u64, Entry<Payload>),
    triple: (u64, u32, Entry<Payload>),
) -> (
    (u32, Entry<Payload>),
    (u64, Entry<Payload>),
    (u64, u32, Entry<Payload>),
) {
    let row: Row<Payload> = Row::from(row);
    let entry: StampedEntry<Payload> = StampedEntry::from(entry);
    let triple: StampedRow<Payload> = StampedRow::from(triple);
    (row.into(), entry.into(), triple.into())
}
