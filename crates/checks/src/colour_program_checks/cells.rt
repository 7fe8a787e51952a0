//! The table of what may come to a node: 96 cells, by phase, kind of payload and role of the port.

ghost use Rattle.std.specs.Prelude.{◌≡◌};
ghost use Rattle.colour_rules.specs.Node.{ports};

use crate::colour_program_checks::asked::{Asked, holds_at};
use crate::colour_program_checks::fed::{show, takes};
use crate::colour_program_checks::twins::go_on_alike;
use crate::networks::edge;
use crate::samples::Sample;
use colour_program::Colouring;
use colour_rules::rules::{AFTER_HALT, WRONG_KIND, WRONG_ROLE};
use interference::Network;
use node_api::Refused;
use std::alloc::Global;
use std::process::Abort;

// Two nodes with identifiers 1 and 2 and an edge. No rule forbids these payloads by their value.
const HELLO: Sample = Sample::Hello(3);

const LOWER_HELLO: Sample = Sample::Hello(1);

const LABEL: Sample = Sample::Label(0);

const COLOUR: Sample = Sample::Colour(3);

const CHOSEN: Sample = Sample::Chosen(0);

// The rule that a cell breaks.
const DUE: Option<u16> = None;

const P1: Option<u16> = Some(WRONG_KIND);

const P2: Option<u16> = Some(WRONG_ROLE);

const P6: Option<u16> = Some(AFTER_HALT);

// Pulse, payload, and what it breaks from a port that is Unknown, Up and Down.
type Row = (u32, Sample, Option<u16>, Option<u16>, Option<u16>);

static TABLE: [Row; 32] = [
    // Greet
    (0, HELLO, P1, P1, P1),
    (0, LABEL, P1, P1, P1),
    (0, COLOUR, P1, P1, P1),
    (0, CHOSEN, P1, P1, P1),
    // Orient
    (1, HELLO, DUE, P2, P2),
    (1, LABEL, P1, P1, P1),
    (1, COLOUR, P1, P1, P1),
    (1, CHOSEN, P1, P1, P1),
    // Seed
    (2, LABEL, DUE, P2, P2),
    (2, HELLO, P1, P1, P1),
    (2, COLOUR, P1, P1, P1),
    (2, CHOSEN, P1, P1, P1),
    // Step
    (3, COLOUR, P2, DUE, P2),
    (3, HELLO, P1, P1, P1),
    (3, LABEL, P1, P1, P1),
    (3, CHOSEN, P1, P1, P1),
    // Shift
    (7, COLOUR, P2, DUE, P2),
    (7, HELLO, P1, P1, P1),
    (7, LABEL, P1, P1, P1),
    (7, CHOSEN, P1, P1, P1),
    // Drop
    (8, COLOUR, P2, DUE, P2),
    (8, HELLO, P1, P1, P1),
    (8, LABEL, P1, P1, P1),
    (8, CHOSEN, P1, P1, P1),
    // Merge
    (14, CHOSEN, P2, DUE, DUE),
    (14, HELLO, P1, P1, P1),
    (14, LABEL, P1, P1, P1),
    (14, COLOUR, P1, P1, P1),
    // Halted
    (19, HELLO, P6, P6, P6),
    (19, LABEL, P6, P6, P6),
    (19, COLOUR, P6, P6, P6),
    (19, CHOSEN, P6, P6, P6),
];

// Whether two nodes take these payloads at the pulses from 1 on.
fn both_take(alloc: Global, node: &mut Colouring, twin: &mut Colouring, payloads: &[Sample]) -> bool
    requires ports { (ports node.old ≡ 1) × (ports twin.old ≡ 1) }
    ensures ports { (ports node.new ≡ 1) × (ports twin.new ≡ 1) }
{
    let mut pulse = 1u32;
    for payload in payloads {
        let came = [Some(*payload)];
        if !takes(alloc, node, pulse, &came) || !takes(alloc, twin, pulse, &came) {
            return false;
        }
        pulse = pulse.wrapping_add(1);
    }
    true
}

/// What a node returns on a payload at a pulse, once others came at the pulses from 1 on.
#[derive(Clone, Copy)]
pub struct Cell<'a> {
    earlier: &'a [Sample],
    pulse: u32,
    payload: Sample,
    due: Result<(), Refused>,
}

/// Whether a node returns what a cell says. If it refuses the payload, it shows the same from then on as its twin that
/// wasn't fed it.
pub fn fits_cell(
    alloc: Global,
    node: &mut Colouring,
    twin: &mut Colouring,
    v: u32,
    cell: Cell,
) -> bool
    requires ports { (ports node.old ≡ 1) × (ports twin.old ≡ 1) }
{
    if !both_take(alloc, node, twin, cell.earlier) {
        return false;
    }
    match show(alloc, node, cell.pulse, &[Some(cell.payload)]) {
        Some(shown) => {
            shown.answer == cell.due && (cell.due.is_ok() || go_on_alike(alloc, node, twin, v, 1))
        }
        None => false,
    }
}

// What a node returns that refuses a payload of its one port by a rule, or takes it.
fn due_for(broken: Option<u16>) -> Result<(), Refused> {
    match broken {
        Some(rule) => Err(Refused {
            rule,
            port: Some(0),
        }),
        None => Ok(()),
    }
}

// Whether new nodes with a port of each kind return what a row says.
fn walk(alloc: Global, net: &Network, row: &Row) -> bool {
    let (pulse, payload, unknown, up, down) = *row;
    let of_unknown = Cell {
        earlier: &[],
        pulse,
        payload,
        due: due_for(unknown),
    };
    let of_up = Cell {
        earlier: &[HELLO],
        due: due_for(up),
        ..of_unknown
    };
    let of_down = Cell {
        earlier: &[LOWER_HELLO, LABEL],
        due: due_for(down),
        ..of_unknown
    };
    holds_at(alloc, net, 1, Asked::Cell(of_unknown))
        && holds_at(alloc, net, 1, Asked::Cell(of_up))
        && holds_at(alloc, net, 2, Asked::Cell(of_down))
}

fn walk_all(rt: &impl Abort, alloc: Global, net: &Network, rows: &[Row]) {
    for i in 0..rows.len() {
        assert!(rt; walk(alloc, net, &rows[i]), "row {i}");
    }
}

#[test]
fn each_cell_of_the_table_has_its_rule(rt: HostRuntime) {
    let net = edge(rt.alloc()).expect(&rt, "network");
    walk_all(&rt, rt.alloc(), &net, &TABLE);
}
