//! What a test asks of two nodes of a vertex, made anew. What makes them does nothing else, and all tests share it,
//! since each place at which a node may be dropped costs proof.

ghost use Rattle.std.specs.Prelude.{◌≡◌};
ghost use Rattle.interference.specs.Net.{IsVertex, degree_of};
ghost use Rattle.colour_rules.specs.Node.{ports};

use crate::colour_program_checks::cells::{Cell, fits_cell};
use crate::colour_program_checks::fed::made;
use crate::colour_program_checks::refusals::{Refusal, refuses_then, takes_colour};
use crate::colour_program_checks::twins::{GoneOn, goes_on_from, is_brought_to_rest};
use colour_program::Colouring;
use interference::Network;
use std::alloc::Global;

/// What is asked of a node and its twin, or of the node alone.
#[derive(Clone, Copy)]
pub enum Asked<'a> {
    /// Whether a node with one port returns what a cell says.
    Cell(Cell<'a>),
    /// Whether a node with two ports refuses what a row says.
    Refusal(&'a Refusal),
    /// Whether a node with two ports takes a colour from its parent at a pulse.
    Colour(u32, u128),
    /// Whether a node with one port refuses what a row says, and goes on to its colour.
    GoesOn(&'a GoneOn),
    /// Whether a node with one port rests after its last pulse.
    Rests,
}

fn holds(
    alloc: Global,
    node: &mut Colouring,
    twin: &mut Colouring,
    v: u32,
    degree: u32,
    asked: Asked,
) -> bool
    requires node { ports node.old ≡ degree }
    requires twin { ports twin.old ≡ degree }
{
    match asked {
        Asked::Cell(cell) => degree == 1 && fits_cell(alloc, node, twin, v, cell),
        Asked::Refusal(row) => degree == 2 && refuses_then(alloc, node, twin, row),
        Asked::Colour(pulse, colour) => degree == 2 && takes_colour(alloc, node, pulse, colour),
        Asked::GoesOn(row) => degree == 1 && goes_on_from(alloc, node, twin, row),
        Asked::Rests => degree == 1 && is_brought_to_rest(alloc, node, v),
    }
}

fn holds_of_one(alloc: Global, net: &Network, node: &mut Colouring, v: u32, asked: Asked) -> bool
    requires vertex { IsVertex net.now v }
    requires ports { ports node.old ≡ degree_of net.now v }
{
    match made(alloc, net, v) {
        Ok(mut twin) => holds(alloc, node, &mut twin, v, net.degree(v), asked),
        Err(_) => false,
    }
}

fn holds_of_new(alloc: Global, net: &Network, v: u32, asked: Asked) -> bool
    requires vertex { IsVertex net.now v }
{
    match made(alloc, net, v) {
        Ok(mut node) => holds_of_one(alloc, net, &mut node, v, asked),
        Err(_) => false,
    }
}

/// Whether what is asked holds of two new nodes of a vertex.
pub fn holds_at(alloc: Global, net: &Network, v: u32, asked: Asked) -> bool {
    1 <= v && v <= net.nodes() && holds_of_new(alloc, net, v, asked)
}
