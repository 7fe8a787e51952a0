//! The run written down: its rows in the order of their stamps, and then of their vertices.
//!
//! In tick s each vertex makes at most one event: one that gets the stamp s from the rows before it.

ghost use Rattle.std.specs.Prelude.{◌≡◌, ◌+◌, ◌<◌, ◌≤◌, ◌^◌, IfNone, IfOk, IfSome, Some, false, true};
ghost use Rattle.interference.specs.Net.{IsVertex};
ghost use Rattle.node_api.specs.Program.{last_pulse_on};
ghost use Rattle.alpha_core.specs.View.{can_pulse};
ghost use Rattle.alpha_laws.specs.Counts.{events_of_run};
ghost use Rattle.event_rule.specs.declared.event.Event.{Event};
ghost use Rattle.event_rule.specs.Events.{Possible};
ghost use Rattle.event_rule.specs.State.{node_of};
ghost use Rattle.event_rule.specs.Rows.{event_of, has_place, next_wire, row_of};
ghost use Rattle.event_rule.specs.Commute.{vertex_of};
ghost use Rattle.event_rule.specs.Endings.{IsTerminal};
ghost use Rattle.event_rule.specs.Progress.{events_in};
ghost use Rattle.lone_runs.specs.Recorded.{AreWhole, IsRecorded};
ghost use Rattle.lone_runs.specs.Ticks.{IsBeforeTick, IsInTurn, IsPassed};
ghost use Rattle.lone_runs.specs.Went.{Went};

use crate::alone::{attempt, either};
use entries::{Entry, Row, StampedRow};
use event_machine::NetState;
use event_rule::Event;
use interference::{Memory, Network};
use node_api::NodeProgram;
use stamps::StampTable;
use std::alloc::Global;
use wires::Wire;

// A state, the rows of the events that led to it, and what these say of the next row.
#[derive(Drop)]
struct Recording<P: NodeProgram> {
    state: NetState<P>,
    rows: Vec<StampedRow<P::Payload>>,
    table: StampTable,
}

// The oldest wire of the link that comes to a vertex by a port.
fn next_wire<P: NodeProgram>(state: &NetState<P>, v: u32, port: u32) -> Option<Wire<P::Payload>>
    requires place { has_place state.now.net (Event.Take v port) ≡ true }
    ensures { result ≡ next_wire P.program state.now.net state.now.state (Event.Take v port) }
{
    let net = state.network();
    let (_, held) = state.link(net.neighbour(v, port), net.back_port(v, port));
    held.first().copied()
}

// The number of a vertex's next pulse; `None` if it can't make one.
fn next_pulse<P: NodeProgram>(state: &NetState<P>, v: u32) -> Option<u32>
    requires vertex { IsVertex state.now.net v }
    ensures pulse { IfSome result (λ p. p ≡ (node_of P.program state.now.net state.now.state v).view.pulse + 1) }
    ensures none { IfNone result (can_pulse (last_pulse_on P.program state.now.net)
        (node_of P.program state.now.net state.now.state v).view ≡ true → ⊥) }
{
    state.is_simulation();
    let net = state.network();
    let _ = net.nodes();
    let node = state.node(v);
    if !node.can_pulse() {
        return None;
    }
    let pulse = node.pulse_number();
    if pulse < P::last_pulse(net) {
        Some(pulse + 1)
    } else {
        None
    }
}

// The entry that an event would write down; `None` if it isn't possible.
fn entry_of<P: NodeProgram>(state: &NetState<P>, event: Event) -> Option<Row<P::Payload>>
    requires place { has_place state.now.net event ≡ true }
    ensures row { IfSome result (λ row. row_of P.program state.now.net state.now.state event ≡ Some row) }
    ensures event { IfSome result (λ row. event_of state.now.net row ≡ event) }
    ensures none { IfNone result (Possible P.program state.now.net state.now.state event → ⊥) }
{
    state.is_simulation();
    let net = state.network();
    match event {
        Event::Pulse(v) => Some(Row {
            vertex: v,
            entry: Entry::Pulse(next_pulse(state, v)?),
        }),
        Event::Put(v, port) => Some(Row {
            vertex: v,
            entry: Entry::Put(net.neighbour(v, port), state.node(v).front(port)?),
        }),
        Event::Take(v, port) => Some(Row {
            vertex: v,
            entry: Entry::Take(net.neighbour(v, port), next_wire(state, v, port)?),
        }),
    }
}

// Makes an event, if it is possible and gets this stamp from the rows before it. Returns whether it did.
fn record<P: NodeProgram>(
    alloc: Global,
    recording: &mut Recording<P>,
    event: Event,
    stamp: u64,
) -> Result<bool, Memory>
    requires place { has_place recording.old.state.net event ≡ true }
    requires recorded { IsRecorded P.program recording.old.state recording.old.rows.items recording.old.table }
    requires turn { IsInTurn P.program recording.old.state.net recording.old.state.state recording.old.rows.items stamp
        (vertex_of event) }
    ensures recorded { IfOk result
        (λ _. IsRecorded P.program recording.new.state recording.new.rows.items recording.new.table) }
    ensures went { IfOk result (λ did. Went P.program recording.old.state did recording.new.state) }
    ensures turn { IfOk result (λ _. IsInTurn P.program recording.new.state.net recording.new.state.state
        recording.new.rows.items stamp (vertex_of event)) }
    ensures passed { IfOk result (λ _. IsPassed P.program recording.old.state recording.old.rows.items
        recording.new.state recording.new.rows.items stamp event) }
    ensures none { IfOk result (λ did. did ≡ false → recording.new.rows.items ≡ recording.old.rows.items) }
{
    recording.state.is_simulation();
    let _ = recording.state.network().nodes();
    let Some(bare) = entry_of(&recording.state, event) else {
        return Ok(false);
    };
    let row = StampedRow {
        stamp,
        vertex: bare.vertex,
        entry: bare.entry,
    };
    if !recording.table.is_in_place(&row) {
        return Ok(false);
    }
    let did = attempt(&mut recording.state, event)?;
    if !did {
        return Ok(false);
    }
    recording.table.add(alloc, &row)?;
    recording.rows.push(row)?;
    Ok(true)
}

// A tick of one vertex. Returns whether it made an event.
fn record_turn<P: NodeProgram>(
    alloc: Global,
    recording: &mut Recording<P>,
    v: u32,
    stamp: u64,
) -> Result<bool, Memory>
    requires vertex { IsVertex recording.old.state.net v }
    requires recorded { IsRecorded P.program recording.old.state recording.old.rows.items recording.old.table }
    requires turn { IsInTurn P.program recording.old.state.net recording.old.state.state recording.old.rows.items stamp
        v }
    ensures recorded { IfOk result
        (λ _. IsRecorded P.program recording.new.state recording.new.rows.items recording.new.table) }
    ensures went { IfOk result (λ did. Went P.program recording.old.state did recording.new.state) }
    ensures over { IfOk result (λ _. IsInTurn P.program recording.new.state.net recording.new.state.state
        recording.new.rows.items stamp (v + 1)) }
    ensures none { IfOk result (λ did. did ≡ false → recording.new.rows.items ≡ recording.old.rows.items) }
{
    let mut did = record(alloc, recording, Event::Pulse(v), stamp)?;
    let degree = recording.state.network().degree(v);
    for port in 0..degree {
        let took = record(alloc, recording, Event::Take(v, port), stamp)?;
        let put = record(alloc, recording, Event::Put(v, port), stamp)?;
        did = either(did, either(took, put));
    }
    Ok(did)
}

// A tick of all vertices. Returns whether one of them made an event.
fn record_tick<P: NodeProgram>(
    alloc: Global,
    recording: &mut Recording<P>,
    stamp: u64,
) -> Result<bool, Memory>
    requires recorded { IsRecorded P.program recording.old.state recording.old.rows.items recording.old.table }
    requires tick { IsBeforeTick P.program recording.old.state.net recording.old.state.state recording.old.rows.items
        stamp }
    ensures recorded { IfOk result
        (λ _. IsRecorded P.program recording.new.state recording.new.rows.items recording.new.table) }
    ensures went { IfOk result (λ did. Went P.program recording.old.state did recording.new.state) }
    ensures next { IfOk result (λ _. IsBeforeTick P.program recording.new.state.net recording.new.state.state
        recording.new.rows.items (stamp + 1)) }
    ensures over { IfOk result
        (λ did. did ≡ false → IsTerminal P.program recording.new.state.net recording.new.state.state) }
    ensures bounded { IfOk result (λ _. events_in P.program recording.new.state.net recording.new.state.state
        ≤ events_of_run P.program recording.new.state.net) }
{
    let mut did = false;
    let count = recording.state.network().nodes();
    for i in 0..count {
        let went = record_turn(alloc, recording, i + 1, stamp)?;
        did = either(did, went);
    }
    recording.state.is_simulation();
    let _ = recording.state.network().nodes();
    Ok(did)
}

// The last pulse of a program, which has 32 binary digits by its type.
fn last_pulse_of<P: NodeProgram>(net: &Network) -> u32
    ensures short { last_pulse_on P.program net.now < 2 ^ 32 }
{
    P::last_pulse(net)
}

// So a run has fewer than 2^60 events, and no count of them passes a `u64`.
fn runs_are_short<P: NodeProgram>(net: &Network)
    ensures short { events_of_run P.program net.now < 2 ^ 60 }
{
    let _nodes = net.nodes();
    let _last = last_pulse_of::<P>(net);
}

// Ticks until one makes no event: then none is possible. There are at most as many ticks as events, and one more.
fn record_all<P: NodeProgram>(alloc: Global, recording: &mut Recording<P>) -> Result<(), Memory>
    requires recorded { IsRecorded P.program recording.old.state recording.old.rows.items recording.old.table }
    requires tick { IsBeforeTick P.program recording.old.state.net recording.old.state.state recording.old.rows.items
        1 }
    ensures recorded { IfOk result
        (λ _. IsRecorded P.program recording.new.state recording.new.rows.items recording.new.table) }
    ensures network { IfOk result (λ _. recording.new.state.net ≡ recording.old.state.net) }
    ensures over { IfOk result (λ _. IsTerminal P.program recording.new.state.net recording.new.state.state) }
{
    let mut stamp: u64 = 1;
    loop {
        let did = record_tick(alloc, recording, stamp)?;
        if !did {
            return Ok(());
        }
        runs_are_short::<P>(recording.state.network());
        stamp += 1;
    }
}

/// The rows of a run on this thread that has ended, in the order of their stamps and then of their vertices: a whole
/// replay. It always returns.
///
/// # Errors
///
/// `Memory` if memory is refused.
pub fn record_alone<P: NodeProgram>(
    alloc: Global,
    net: &Network,
) -> Result<Vec<StampedRow<P::Payload>>, Memory>
    ensures whole { IfOk result (λ rows. AreWhole P.program net.now rows.items) }
{
    let state = NetState::<P>::start(alloc, net)?;
    let rows = Vec::new(alloc);
    let table = StampTable::new(alloc);
    let mut recording = Recording { state, rows, table };
    record_all(alloc, &mut recording)?;
    recording.state.is_simulation();
    let _ = recording.state.network().nodes();
    Ok(recording.rows)
}
