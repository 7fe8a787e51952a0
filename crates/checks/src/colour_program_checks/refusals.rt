//! Refusals by value, by what is missing and by the node itself, and that they leave the node as it was.

ghost use Rattle.std.specs.Prelude.{◌≡◌};
ghost use Rattle.colour_rules.specs.Node.{ports};

use crate::colour_program_checks::asked::{Asked, holds_at};
use crate::colour_program_checks::fed::{show, show_alike, takes};
use crate::networks::network;
use crate::samples::Sample;
use crate::samples::Sample::{Chosen, Colour, Hello, Label};
use colour_program::Colouring;
use colour_rules::rules::{
    AFTER_HALT, COLOUR_RANGE, FOREST_RANGE, MISSING, WRONG_KIND, WRONG_ROLE,
};
use interference::Network;
use node_api::Refused;
use std::alloc::Global;
use std::process::Abort;

// A pulse, and what comes to the two ports of a node at it.
type Came = (u32, Option<Sample>, Option<Sample>);

// A triangle with identifiers 1, 2 and 30: two forests, degree 2, last pulse 30. Vertex 1 has two
// parents, vertex 2 a child and a parent, vertex 3 two children.
static IDS: [u128; 3] = [1, 2, 30];

static EDGES: [(u32, u32); 3] = [(1, 2), (1, 3), (2, 3)];

// What comes to its vertices before: to vertex 1 in three turns, to vertex 2 in one, to vertex 3 in two.
static PULSES: [u32; 6] = [1, 2, 24, 1, 1, 2];

static PAYLOADS: [[Option<Sample>; 2]; 6] = [
    [Some(Hello(2)), Some(Hello(30))],
    [None, None],
    [Some(Chosen(0)), Some(Chosen(1))],
    [Some(Hello(1)), Some(Hello(30))],
    [Some(Hello(1)), Some(Hello(2))],
    [Some(Label(1)), Some(Label(0))],
];

// What comes to a vertex in a turn, and what came in its last one behind that.
fn came_before(v: u32, turn: u32) -> Came {
    let (first, last) = match v {
        1 => (0, 2),
        2 => (3, 3),
        _ => (4, 5),
    };
    let place = (first + turn as usize).min(last);
    match (PULSES.as_slice().get(place), PAYLOADS.as_slice().get(place)) {
        (Some(pulse), Some([first, second])) => (*pulse, *first, *second),
        _ => (0, None, None),
    }
}

/// A vertex, how many pulses came before, what it refuses then, by which rule and of which port.
pub type Refusal = (u32, u32, Came, u16, Option<u32>);

static REFUSALS: [Refusal; 20] = [
    // A wrong kind, and a wrong role.
    (
        1,
        0,
        (1, Some(Hello(2)), Some(Label(0))),
        WRONG_KIND,
        Some(1),
    ),
    (
        2,
        1,
        (1, Some(Hello(1)), Some(Hello(30))),
        WRONG_ROLE,
        Some(1),
    ),
    // No such forest; a choice at the first step of a forest; one from a later forest.
    (2, 1, (2, Some(Label(2)), None), FOREST_RANGE, Some(0)),
    (1, 1, (13, Some(Chosen(0)), None), FOREST_RANGE, Some(0)),
    (1, 1, (14, None, Some(Chosen(0))), FOREST_RANGE, Some(1)),
    // The node's own identifier; one that came before.
    (
        1,
        0,
        (1, Some(Hello(2)), Some(Hello(1))),
        COLOUR_RANGE,
        Some(1),
    ),
    (
        1,
        0,
        (1, Some(Hello(2)), Some(Hello(2))),
        COLOUR_RANGE,
        Some(1),
    ),
    // The node's own colour, which is 0 until it is seeded with the identifier.
    (
        1,
        1,
        (3, Some(Colour(2)), Some(Colour(0))),
        COLOUR_RANGE,
        Some(1),
    ),
    (
        1,
        2,
        (3, Some(Colour(2)), Some(Colour(1))),
        COLOUR_RANGE,
        Some(1),
    ),
    // A chosen colour above the greatest degree.
    (1, 1, (14, Some(Chosen(3)), None), COLOUR_RANGE, Some(0)),
    // The node's own colour is 30 at a shift and at a drop, where the steps are left out.
    (3, 2, (7, None, None), COLOUR_RANGE, None),
    (3, 2, (8, None, None), COLOUR_RANGE, None),
    // No colour is free at the step of the pair of colours 1 and 0 in forest 1.
    (1, 3, (25, Some(Chosen(2)), None), COLOUR_RANGE, None),
    // Nothing where something is due.
    (1, 0, (1, Some(Hello(2)), None), MISSING, Some(1)),
    (2, 1, (2, None, None), MISSING, Some(0)),
    (1, 1, (3, Some(Colour(2)), None), MISSING, Some(1)),
    // After the last pulse.
    (1, 1, (31, None, Some(Chosen(0))), AFTER_HALT, Some(1)),
    // The first of two broken ports, and a port before the node itself.
    (
        1,
        0,
        (1, Some(Hello(1)), Some(Label(0))),
        COLOUR_RANGE,
        Some(0),
    ),
    (1, 0, (1, None, Some(Label(0))), MISSING, Some(0)),
    (3, 2, (7, None, Some(Colour(6))), WRONG_ROLE, Some(1)),
];

// Whether a node takes what comes to its vertex in its first turns.
fn takes_turns(alloc: Global, node: &mut Colouring, v: u32, turns: u32) -> bool
    requires ports { ports node.old ≡ 2 }
    ensures ports { ports node.new ≡ 2 }
{
    for turn in 0..turns {
        let (pulse, first, second) = came_before(v, turn);
        if !takes(alloc, node, pulse, &[first, second]) {
            return false;
        }
    }
    true
}

// Whether two nodes show the same of all that comes to their vertex, from the first pulse on.
fn show_the_same(alloc: Global, one: &mut Colouring, other: &mut Colouring, v: u32) -> bool
    requires ports { (ports one.old ≡ 2) × (ports other.old ≡ 2) }
{
    for turn in 0..3 {
        let (pulse, first, second) = came_before(v, turn);
        if !show_alike(alloc, one, other, pulse, &[first, second]) {
            return false;
        }
    }
    true
}

// Whether a node refuses what comes, and then goes on as its twin that wasn't fed it.
fn refuses(alloc: Global, node: &mut Colouring, twin: &mut Colouring, row: &Refusal) -> bool
    requires ports { (ports node.old ≡ 2) × (ports twin.old ≡ 2) }
{
    let (v, _, came, rule, port) = *row;
    let (pulse, first, second) = came;
    let colour = node.colour();
    match show(alloc, node, pulse, &[first, second]) {
        Some(shown) => {
            shown.answer == Err(Refused { rule, port })
                && shown.is_quiet
                && shown.colour == colour
                && show_the_same(alloc, node, twin, v)
        }
        None => false,
    }
}

/// Whether a node and its twin take what comes before a row, and the node refuses the row.
pub fn refuses_then(
    alloc: Global,
    node: &mut Colouring,
    twin: &mut Colouring,
    row: &Refusal,
) -> bool
    requires ports { (ports node.old ≡ 2) × (ports twin.old ≡ 2) }
{
    let (v, turns, _, _, _) = *row;
    takes_turns(alloc, node, v, turns)
        && takes_turns(alloc, twin, v, turns)
        && refuses(alloc, node, twin, row)
}

fn is_refused(alloc: Global, net: &Network, row: &Refusal) -> bool {
    holds_at(alloc, net, row.0, Asked::Refusal(row))
}

fn are_refused(rt: &impl Abort, alloc: Global, net: &Network, rows: &[Refusal]) {
    for i in 0..rows.len() {
        assert!(rt; is_refused(alloc, net, &rows[i]), "row {i}");
    }
}

// The greatest colour that may come from a parent at each pulse from 4 on.
static BOUNDS: [(u32, u128); 9] = [
    (4, 255),
    (5, 15),
    (6, 7),
    (7, 5),
    (8, 5),
    (9, 4),
    (10, 4),
    (11, 3),
    (12, 3),
];

/// Whether vertex 1, after its first turn, takes this colour from its parent by port 1 at a pulse.
pub fn takes_colour(alloc: Global, node: &mut Colouring, pulse: u32, colour: u128) -> bool
    requires ports { ports node.old ≡ 2 }
{
    takes_turns(alloc, node, 1, 1)
        && takes(alloc, node, pulse, &[Some(Colour(1)), Some(Colour(colour))])
}

// Whether one more is refused, and the bound is taken.
fn is_bound(alloc: Global, net: &Network, pulse: u32, bound: u128) -> bool {
    let above = (pulse, Some(Colour(1)), Some(Colour(bound.wrapping_add(1))));
    is_refused(alloc, net, &(1, 1, above, COLOUR_RANGE, Some(1)))
        && holds_at(alloc, net, 1, Asked::Colour(pulse, bound))
}

fn are_bounds(rt: &impl Abort, alloc: Global, net: &Network) {
    for (pulse, bound) in &BOUNDS {
        assert!(rt; is_bound(alloc, net, *pulse, *bound), "at {pulse}");
    }
}

// On a path a node has one parent at most, and here both neighbours say that they are higher.
static HIGHER: Refusal = (
    2,
    0,
    (1, Some(Hello(5)), Some(Hello(6))),
    FOREST_RANGE,
    None,
);

fn is_refused_on_a_path(alloc: Global) -> bool {
    match network(alloc, &[1, 2, 3], &[(1, 2), (2, 3)]) {
        Ok(net) => is_refused(alloc, &net, &HIGHER),
        Err(_) => false,
    }
}

#[test]
fn a_refusal_has_its_rule_and_its_port(rt: HostRuntime) {
    let net = network(rt.alloc(), &IDS, &EDGES).expect(&rt, "network");
    are_refused(&rt, rt.alloc(), &net, &REFUSALS);
    are_bounds(&rt, rt.alloc(), &net);
    assert!(rt; is_refused_on_a_path(rt.alloc()));
}
