//! The table of what a node does with a wire: of its 36 cells the 31 that calls can reach, and what a cell that is due
//! asks for besides.

ghost use Rattle.std.specs.Prelude.{◌≡◌, length};
ghost use Rattle.interference.specs.Net.{IsVertex, degree_of};

use crate::alpha_core_checks::alone::{Act, Played, ask, leaf, play, put_next};
use crate::networks::edge;
use alpha_core::{AlphaNode, AlphaRefused};
use interference::Network;
use std::alloc::Global;
use std::process::Abort;
use sync_rounds::{Best, Greatest};
use wires::Wire;

// A legal list of wires for vertex 1 of two, whose last pulse is 3, and its pulses among them.
static RUN: [Act<Best>; 13] = [
    Act::Take(Wire::Payload(0, Best(2))),
    Act::Take(Wire::Safe(0)),
    Act::Take(Wire::Ack(0)),
    Act::Pulse,
    Act::Take(Wire::Payload(1, Best(2))),
    Act::Take(Wire::Safe(1)),
    Act::Take(Wire::Ack(1)),
    Act::Pulse,
    Act::Take(Wire::Payload(2, Best(2))),
    Act::Take(Wire::Safe(2)),
    Act::Take(Wire::Ack(2)),
    Act::Take(Wire::Close),
    Act::Pulse,
];

// What it puts.
static PUT: [Wire<Best>; 10] = [
    Wire::Payload(0, Best(1)),
    Wire::Ack(0),
    Wire::Safe(0),
    Wire::Payload(1, Best(2)),
    Wire::Ack(1),
    Wire::Safe(1),
    Wire::Payload(2, Best(2)),
    Wire::Ack(2),
    Wire::Safe(2),
    Wire::Close,
];

// What a cell says of its wire.
#[derive(Clone, Copy)]
enum Cell {
    // It is taken, and nothing, an acknowledgement of pulse 1, or safe of it is emitted.
    Taken,
    Acknowledged,
    Settled,
    Refused(AlphaRefused),
}

// After how many acts of the run a wire comes, the wire, and what its cell says.
type Row = (usize, Wire<Best>, Cell);

// The codes of DEFINITIONS.
const A1: Cell = Cell::Refused(AlphaRefused::WrongPulse);

const A2: Cell = Cell::Refused(AlphaRefused::DoublePayload);

const A3: Cell = Cell::Refused(AlphaRefused::StrayAck);

const A4: Cell = Cell::Refused(AlphaRefused::DoubleSafe);

const A5: Cell = Cell::Refused(AlphaRefused::AfterClose);

// A row for each cell that calls reach: after how many acts of the run, its wire, and what it says. A port is fresh at
// pulse 1 (after 4 acts; after 11, where close is due), paid at pulse 1 (after 5), or closed at pulse 2 (after 12). The
// pulse that can come is 1, or 3 at a port that is closed, and the wire's is below it, equal to it, above it.
static TABLE: [Row; 31] = [
    // Payload: below, equal, above, each at a port that is fresh, paid, closed.
    (4, Wire::Payload(0, Best(5)), A1),
    (5, Wire::Payload(0, Best(5)), A1),
    (12, Wire::Payload(2, Best(5)), A5),
    (4, Wire::Payload(1, Best(5)), Cell::Acknowledged),
    (5, Wire::Payload(1, Best(5)), A2),
    (12, Wire::Payload(3, Best(5)), A5),
    (4, Wire::Payload(2, Best(5)), A1),
    (5, Wire::Payload(2, Best(5)), A1),
    (12, Wire::Payload(4, Best(5)), A5),
    // Ack. The pulse that can come is the node's own, 1 or 2.
    (4, Wire::Ack(0), A3),
    (5, Wire::Ack(0), A3),
    (12, Wire::Ack(1), A5),
    (4, Wire::Ack(1), Cell::Settled),
    (5, Wire::Ack(1), Cell::Settled),
    (12, Wire::Ack(2), A5),
    (4, Wire::Ack(2), A3),
    (5, Wire::Ack(2), A3),
    (12, Wire::Ack(3), A5),
    // Safe.
    (4, Wire::Safe(0), A4),
    (5, Wire::Safe(0), A4),
    (12, Wire::Safe(2), A5),
    (4, Wire::Safe(1), Cell::Taken),
    (5, Wire::Safe(1), Cell::Taken),
    (12, Wire::Safe(3), A5),
    (4, Wire::Safe(2), A1),
    (5, Wire::Safe(2), A1),
    (12, Wire::Safe(4), A5),
    // Close, which is due behind the last safe: no calls lead to the cells below, to a paid port where it is due, or to
    // a closed one above.
    (11, Wire::Close, Cell::Taken),
    (12, Wire::Close, A5),
    (4, Wire::Close, A1),
    (5, Wire::Close, A1),
];

// What else decides a cell that is due.
static CONDITIONS: [Row; 8] = [
    // At pulse 0 before safe is said nothing of pulse 1 comes; then it does.
    (2, Wire::Payload(1, Best(5)), A1),
    (2, Wire::Safe(1), A1),
    (3, Wire::Payload(1, Best(5)), Cell::Acknowledged),
    (3, Wire::Safe(1), Cell::Taken),
    // The payload of pulse 0 is acknowledged.
    (3, Wire::Ack(0), A3),
    // At the pulse before the last no close comes before safe is said.
    (10, Wire::Close, A1),
    // The last pulse has neither payload nor safe.
    (11, Wire::Payload(3, Best(5)), A1),
    (11, Wire::Safe(3), A1),
];

// What came of a run into which another wire was fed: what the node returned to that wire and emitted then, what came
// of the acts of the run, whether it was drained at the end, and the greatest identifier that it knew.
#[derive(Drop)]
struct Fed {
    answer: Option<Result<(), AlphaRefused>>,
    emitted: Option<Wire<Best>>,
    played: Played<Best>,
    drained: bool,
    best: u128,
}

// Before a run.
fn not_fed(alloc: Global) -> Fed {
    Fed {
        answer: None,
        emitted: None,
        played: Played::new(alloc),
        drained: false,
        best: 0,
    }
}

// Plays a node, with another wire, if there is one, between two lists of acts, and notes what comes of it. Returns
// whether memory was enough.
fn play_with(
    node: &mut AlphaNode<Greatest<3>>,
    first: &[Act<Best>],
    wire: Option<Wire<Best>>,
    rest: &[Act<Best>],
    fed: &mut Fed,
) -> bool
    requires one { length node.old.node.view.ports ≡ 1 }
{
    let begins = play(node, first, &mut fed.played).is_ok();
    (fed.answer, fed.emitted) = feed(node, wire);
    let ends = play(node, rest, &mut fed.played).is_ok();
    fed.drained = node.drained();
    fed.best = node.program().best();
    begins && ends
}

// The same of vertex 1, made anew. What owns a node does nothing else, since each place at which a node may be dropped
// costs proof.
fn play_anew(
    alloc: Global,
    net: &Network,
    first: &[Act<Best>],
    wire: Option<Wire<Best>>,
    rest: &[Act<Best>],
    fed: &mut Fed,
) -> bool
    requires vertex { IsVertex net.now 1 }
    requires one { degree_of net.now 1 ≡ 1 }
{
    match leaf(alloc, net, 1) {
        Ok(mut node) => play_with(&mut node, first, wire, rest, fed),
        Err(_) => false,
    }
}

// What a node returns to a wire, and emits.
fn feed(
    node: &mut AlphaNode<Greatest<3>>,
    wire: Option<Wire<Best>>,
) -> (Option<Result<(), AlphaRefused>>, Option<Wire<Best>>)
    requires one { length node.old.node.view.ports ≡ 1 }
    ensures one { length node.new.node.view.ports ≡ 1 }
{
    match wire {
        Some(wire) => (ask(node, Act::Take(wire)), put_next(node)),
        None => (None, None),
    }
}

// Whether two runs ended with the same answers and wires.
fn alike(one: &Fed, other: &Fed) -> bool {
    one.played.answers == other.played.answers
        && one.played.put == other.played.put
        && one.best == other.best
}

// Whether a wire had the answer of its cell. If it was refused, the run went on as the run of the twin, which wasn't
// fed it; if it was taken, the run ended all the same.
fn fits_cell(cell: Cell, node: &Fed, twin: &Fed) -> bool {
    if !node.drained {
        return false;
    }
    match cell {
        Cell::Taken => node.answer == Some(Ok(())) && node.emitted == None,
        Cell::Acknowledged => {
            node.answer == Some(Ok(())) && node.emitted == Some(Wire::Ack(1)) && node.best == 5
        }
        Cell::Settled => node.answer == Some(Ok(())) && node.emitted == Some(Wire::Safe(1)),
        Cell::Refused(refused) => {
            node.answer == Some(Err(refused)) && node.emitted == None && alike(node, twin)
        }
    }
}

// Whether a node answers a wire as the row's cell says, after the row's number of acts of the run.
fn walk(alloc: Global, net: &Network, row: &Row) -> bool
    requires vertex { IsVertex net.now 1 }
    requires one { degree_of net.now 1 ≡ 1 }
{
    let (before, wire, cell) = *row;
    if before > RUN.len() {
        return false;
    }
    let (first, rest) = RUN.split_at(before);
    let mut node = not_fed(alloc);
    let mut twin = not_fed(alloc);
    play_anew(alloc, net, first, Some(wire), rest, &mut node)
        && play_anew(alloc, net, first, None, rest, &mut twin)
        && fits_cell(cell, &node, &twin)
        && twin.played.put.as_slice() == PUT.as_slice()
}

fn walk_all(rt: &impl Abort, alloc: Global, net: &Network, rows: &[Row])
    requires vertex { IsVertex net.now 1 }
    requires one { degree_of net.now 1 ≡ 1 }
{
    for i in 0..rows.len() {
        assert!(rt; walk(alloc, net, &rows[i]), "row {i}");
    }
}

#[test]
fn each_cell_that_calls_reach(rt: HostRuntime) {
    let net = edge(rt.alloc()).expect(&rt, "network");
    assert!(rt; net.nodes() == 2 && net.degree(1) == 1);
    walk_all(&rt, rt.alloc(), &net, &TABLE);
    walk_all(&rt, rt.alloc(), &net, &CONDITIONS);
}
