//! One entry, made by the event that it is of.

ghost use Rattle.std.specs.Prelude.{◌≡◌, ◌≢◌, ◌<◌, ◌≤◌, ◌+◌, true, false, IfErr, IfNone, IfOk, IfSome, MatchBool, Some};
ghost use Rattle.interference.specs.Net.{IsVertex, degree_of, port_to};
ghost use Rattle.net_core.specs.Replays.{IsMade, IsRefusedEntry};
ghost use Rattle.event_rule.specs.Rows.{event_of, has_place, next_wire, row_of};

use crate::refused::EntryRefused;
use crate::same_wire::carries;
use entries::{Entry, Row};
use event_machine::NetState;
use event_rule::{Event, StepRefused};
use interference::Network;
use node_api::NodeProgram;
use wires::Wire;

// The port of vertex `v` that leads to `w`; `None` if `w` isn't its neighbour.
fn port_to(net: &Network, v: u32, w: u32) -> Option<u32>
    requires vertex { IsVertex net.now v }
    ensures port { IfSome result (λ port. (port ≡ port_to net.now v w) × (port < degree_of net.now v)) }
    ensures none { IfNone result (degree_of net.now v ≤ port_to net.now v w) }
{
    match net.neighbours(v).binary_search(&w) {
        Ok(port) => Some(port as u32),
        Err(_) => None,
    }
}

/// The event that an entry of a vertex is of; `None` if there is no such vertex, or the other is no neighbour.
pub fn event_of<T: Copy>(net: &Network, row: &Row<T>) -> Option<Event>
    ensures event { IfSome result (λ event. event ≡ event_of net.now row.now) }
    ensures place { IfSome result (λ event. has_place net.now event ≡ true) }
    ensures none { IfNone result (has_place net.now (event_of net.now row.now) ≡ false) }
{
    let v = row.vertex;
    if v == 0 || net.nodes() < v {
        return None;
    }
    match row.entry {
        Entry::Pulse(_) => Some(Event::Pulse(v)),
        Entry::Put(w, _) => Some(Event::Put(v, port_to(net, v, w)?)),
        Entry::Take(w, _) => Some(Event::Take(v, port_to(net, v, w)?)),
    }
}

// The wire that an event moves, if it is possible and moves one.
fn next_wire<P: NodeProgram>(state: &NetState<P>, event: Event) -> Option<Wire<P::Payload>>
    requires place { has_place state.now.net event ≡ true }
    ensures { result ≡ next_wire P.program state.now.net state.now.state event }
{
    state.is_simulation();
    let net = state.network();
    match event {
        Event::Pulse(_) => None,
        Event::Put(v, port) => state.node(v).front(port),
        Event::Take(v, port) => {
            let (_, held) = state.link(net.neighbour(v, port), net.back_port(v, port));
            held.first().copied()
        }
    }
}

// Whether a pulse is the next one after another.
fn follows(pulse: u32, last: u32) -> bool
    ensures { MatchBool result (pulse ≡ last + 1) (pulse ≢ last + 1) }
{
    0 < pulse && pulse - 1 == last
}

// Whether the event of a row writes down just this row, if it is possible.
fn writes<P: NodeProgram>(state: &NetState<P>, event: Event, row: &Row<P::Payload>) -> bool
    requires event { event ≡ event_of state.now.net row.now }
    requires place { has_place state.now.net event ≡ true }
    ensures { MatchBool result (row_of P.program state.now.net state.now.state event ≡ Some row.now)
        (row_of P.program state.now.net state.now.state event ≢ Some row.now) }
{
    match row.entry {
        Entry::Pulse(pulse) => follows(pulse, state.pulse_of(row.vertex)),
        Entry::Put(_, wire) => carries(next_wire(state, event), wire),
        Entry::Take(_, wire) => carries(next_wire(state, event), wire),
    }
}

/// Makes the event of an entry of a vertex, which is to write down just this entry.
///
/// # Errors
///
/// The refusal of the event; `WrongWire` if it is possible, and writes down something else. What is left of the state
/// then isn't said.
pub(crate) fn make_entry<P: NodeProgram>(
    state: &mut NetState<P>,
    row: &Row<P::Payload>,
) -> Result<(), EntryRefused>
    ensures made { IfOk result (λ _. IsMade P.program state.old row.now state.new) }
    ensures refused { IfErr result (IsRefusedEntry P.program state.old row.now) }
{
    let Some(event) = event_of(state.network(), row) else {
        return Err(EntryRefused::Step(StepRefused::NoSuch));
    };
    let is_written = writes(state, event, row);
    state.step(event)?;
    if is_written {
        Ok(())
    } else {
        Err(EntryRefused::WrongWire)
    }
}
