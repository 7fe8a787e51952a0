//! The nodes of an edge at the pulses of their rounds, and twins: of two nodes in one state one refuses what comes,
//! and then both go on alike.

ghost use Rattle.std.specs.Prelude.{◌≡◌};
ghost use Rattle.colour_rules.specs.Node.{ports};

use crate::colour_program_checks::asked::{Asked, holds_at};
use crate::colour_program_checks::fed::{show, show_alike};
use crate::networks::edge;
use crate::samples::Sample;
use crate::samples::Sample::{Chosen, Colour, Hello, Label};
use colour_program::Colouring;
use colour_rules::rules::{AFTER_HALT, COLOUR_RANGE, FOREST_RANGE, WRONG_KIND, WRONG_ROLE};
use interference::Network;
use node_api::Refused;
use std::alloc::Global;
use std::process::Abort;

// What comes to vertices 1 and 2 of an edge at the pulses from 1 on, worked by hand: vertex 2 is the root of the one
// forest, its colours there are 2, then 0 after each bit step, then 1, 1, 0, 0, 1, 1. Vertex 1 chooses at pulse 13,
// vertex 2 at 15.
static CAME: [[Option<Sample>; 18]; 2] = [
    [
        Some(Hello(2)),
        None,
        Some(Colour(2)),
        Some(Colour(0)),
        Some(Colour(0)),
        Some(Colour(0)),
        Some(Colour(0)),
        Some(Colour(1)),
        Some(Colour(1)),
        Some(Colour(0)),
        Some(Colour(0)),
        Some(Colour(1)),
        None,
        None,
        None,
        Some(Chosen(1)),
        None,
        None,
    ],
    [
        Some(Hello(1)),
        Some(Label(0)),
        None,
        None,
        None,
        None,
        None,
        None,
        None,
        None,
        None,
        None,
        None,
        Some(Chosen(0)),
        None,
        None,
        None,
        None,
    ],
];

/// A vertex, a pulse, what comes at it in place of what is due, and the rule and port of the refusal.
pub type GoneOn = (u32, u32, Sample, u16, Option<u32>);

static REFUSALS: [GoneOn; 8] = [
    (1, 1, Hello(1), COLOUR_RANGE, Some(0)),
    (1, 2, Label(0), WRONG_ROLE, Some(0)),
    (1, 4, Colour(256), COLOUR_RANGE, Some(0)),
    (1, 19, Hello(5), AFTER_HALT, Some(0)),
    (2, 2, Label(1), FOREST_RANGE, Some(0)),
    (2, 2, Hello(1), WRONG_KIND, Some(0)),
    // No colour of 0 and 1 is free: 0 came at pulse 14.
    (2, 15, Chosen(1), COLOUR_RANGE, None),
    (2, 19, Hello(5), AFTER_HALT, Some(0)),
];

// What comes to a vertex of the edge at a pulse.
fn came(v: u32, pulse: u32) -> Option<Sample> {
    let row = CAME.as_slice().get(v.wrapping_sub(1) as usize)?;
    *row.as_slice().get(pulse.wrapping_sub(1) as usize)?
}

/// Whether two nodes show the same at each pulse from one to the last, with what comes to a vertex of the edge, and
/// once more behind it, where nothing comes.
pub fn go_on_alike(
    alloc: Global,
    one: &mut Colouring,
    other: &mut Colouring,
    v: u32,
    from: u32,
) -> bool
    requires ports { (ports one.old ≡ 1) × (ports other.old ≡ 1) }
{
    for pulse in from..20 {
        if !show_alike(alloc, one, other, pulse, &[came(v, pulse)]) {
            return false;
        }
    }
    true
}

// Brings a node made anew to a pulse of the rounds; whether memory is enough.
fn bring(alloc: Global, node: &mut Colouring, v: u32, pulse: u32) -> bool
    requires ports { ports node.old ≡ 1 }
    ensures ports { ports node.new ≡ 1 }
{
    for earlier in 1..pulse {
        if show(alloc, node, earlier, &[came(v, earlier)]).is_none() {
            return false;
        }
    }
    true
}

// Whether one of two nodes in one state refuses what comes, and then both go on alike, to the colours of the edge:
// the channels of the plan, less one.
fn refuses_and_goes_on(
    alloc: Global,
    node: &mut Colouring,
    twin: &mut Colouring,
    row: &GoneOn,
) -> bool
    requires ports { (ports node.old ≡ 1) × (ports twin.old ≡ 1) }
{
    let (v, pulse, payload, rule, port) = *row;
    let before = node.colour();
    match show(alloc, node, pulse, &[Some(payload)]) {
        Some(shown) => {
            shown.answer == Err(Refused { rule, port })
                && shown.is_quiet
                && shown.colour == before
                && go_on_alike(alloc, node, twin, v, pulse)
                && u32::from(node.colour()) + 1 == v
        }
        None => false,
    }
}

/// The same of nodes that are brought to the pulse of a row.
pub fn goes_on_from(alloc: Global, node: &mut Colouring, twin: &mut Colouring, row: &GoneOn) -> bool
    requires ports { (ports node.old ≡ 1) × (ports twin.old ≡ 1) }
{
    let (v, pulse, _, _, _) = *row;
    bring(alloc, node, v, pulse)
        && bring(alloc, twin, v, pulse)
        && refuses_and_goes_on(alloc, node, twin, row)
}

fn all_go_on(rt: &impl Abort, alloc: Global, net: &Network, rows: &[GoneOn]) {
    for i in 0..rows.len() {
        let row = &rows[i];
        assert!(rt; holds_at(alloc, net, row.0, Asked::GoesOn(row)), "row {i}");
    }
}

// Whether a node that has halted takes a pulse at which nothing comes, and sends nothing.
fn rests(alloc: Global, node: &mut Colouring, v: u32) -> bool
    requires ports { ports node.old ≡ 1 }
{
    match show(alloc, node, 19, &[None]) {
        Some(shown) => {
            shown.answer == Ok(()) && shown.is_quiet && u32::from(shown.colour) + 1 == v
        }
        None => false,
    }
}

/// The same of a node that is brought there.
pub fn is_brought_to_rest(alloc: Global, node: &mut Colouring, v: u32) -> bool
    requires ports { ports node.old ≡ 1 }
{
    bring(alloc, node, v, 19) && rests(alloc, node, v)
}

#[test]
fn a_node_goes_on_after_a_refusal_as_its_twin(rt: HostRuntime) {
    let net = edge(rt.alloc()).expect(&rt, "network");
    assert!(rt; holds_at(rt.alloc(), &net, 1, Asked::Rests));
    assert!(rt; holds_at(rt.alloc(), &net, 2, Asked::Rests));
    all_go_on(&rt, rt.alloc(), &net, &REFUSALS);
}
