//! A node made for a test, and fed by hand. A caller may skip pulses.

ghost use Rattle.std.specs.Prelude.{◌≡◌, ◌≤◌, IfOk, length};
ghost use Rattle.interference.specs.Net.{IsVertex, degree_of};
ghost use Rattle.node_api.specs.Boxes.{nothing};
ghost use Rattle.colour_rules.specs.Node.{ports};

use crate::samples::Sample;
use colour_program::Colouring;
use colour_rules::{ColourNode, Payload};
use interference::{MAX_DEGREE, Memory, Network};
use node_api::{Inbox, NodeProgram, Outbox, Refused};
use std::alloc::Global;

/// The node of a vertex, which knows no port, in a box: to own a box costs less proof than to own what is in it.
pub fn made(alloc: Global, net: &Network, v: u32) -> Result<Box<Colouring>, Memory>
    requires vertex { IsVertex net.now v }
    ensures ports { IfOk result (λ node. ports node.value ≡ degree_of net.now v) }
{
    Ok(Box::new(alloc, Colouring::make(alloc, net, v)?)?)
}

/// What a node shows of a pulse.
#[derive(Clone, Copy, PartialEq)]
pub struct Shown {
    pub answer: Result<(), Refused>,
    pub is_quiet: bool,
    pub colour: u16,
    first_colour: Option<u128>,
    second_colour: Option<u128>,
}

// The node's colour in a forest, if there is such a forest.
fn forest_colour(node: &ColourNode, forest: u16) -> Option<u128> {
    if forest < node.forests() {
        Some(node.forest_colour(forest))
    } else {
        None
    }
}

// What a node shows that is fed an inbox.
fn shown_of(
    node: &mut Colouring,
    pulse: u32,
    inbox: &mut Inbox<Payload>,
    out: &mut Outbox<Payload>,
) -> Shown
    requires rewound { inbox.old.cursor ≡ 0 }
    requires inbox { length inbox.old.slots ≡ ports node.old }
    requires out { out.old ≡ nothing (ports node.old) }
    ensures ports { ports node.new ≡ ports node.old }
{
    let answer = node.handle_messages(pulse, inbox, out);
    Shown {
        answer,
        is_quiet: out.is_quiet(),
        colour: node.colour(),
        first_colour: forest_colour(node.node(), 0),
        second_colour: forest_colour(node.node(), 1),
    }
}

fn show_inbox(
    alloc: Global,
    node: &mut Colouring,
    pulse: u32,
    inbox: &mut Inbox<Payload>,
    degree: u32,
) -> Option<Shown>
    requires rewound { inbox.old.cursor ≡ 0 }
    requires inbox { length inbox.old.slots ≡ ports node.old }
    requires degree { degree ≡ ports node.old }
    requires few { degree ≤ MAX_DEGREE }
    ensures ports { ports node.new ≡ ports node.old }
{
    match Outbox::new(alloc, degree) {
        Ok(mut out) => Some(shown_of(node, pulse, inbox, &mut out)),
        Err(_) => None,
    }
}

/// Feeds a node with these payloads at its ports; nothing if memory is refused.
pub fn show(
    alloc: Global,
    node: &mut Colouring,
    pulse: u32,
    payloads: &[Option<Sample>],
) -> Option<Shown>
    requires ports { length payloads.now ≡ ports node.old }
    requires few { length payloads.now ≤ MAX_DEGREE }
    ensures ports { ports node.new ≡ ports node.old }
{
    match inbox_of(alloc, payloads) {
        Ok(mut inbox) => show_inbox(alloc, node, pulse, &mut inbox, payloads.len() as u32),
        Err(_) => None,
    }
}

/// Whether a node takes these payloads.
pub fn takes(alloc: Global, node: &mut Colouring, pulse: u32, payloads: &[Option<Sample>]) -> bool
    requires ports { length payloads.now ≡ ports node.old }
    requires few { length payloads.now ≤ MAX_DEGREE }
    ensures ports { ports node.new ≡ ports node.old }
{
    match show(alloc, node, pulse, payloads) {
        Some(shown) => shown.answer == Ok(()),
        None => false,
    }
}

/// Whether two nodes show the same of these payloads.
pub fn show_alike(
    alloc: Global,
    one: &mut Colouring,
    other: &mut Colouring,
    pulse: u32,
    payloads: &[Option<Sample>],
) -> bool
    requires one { length payloads.now ≡ ports one.old }
    requires other { length payloads.now ≡ ports other.old }
    requires few { length payloads.now ≤ MAX_DEGREE }
    ensures one { ports one.new ≡ ports one.old }
    ensures other { ports other.new ≡ ports other.old }
{
    let shown = show(alloc, one, pulse, payloads);
    shown.is_some() && show(alloc, other, pulse, payloads) == shown
}

// An inbox of these payloads.
fn inbox_of(alloc: Global, payloads: &[Option<Sample>]) -> Result<Inbox<Payload>, Memory>
    requires few { length payloads.now ≤ MAX_DEGREE }
    ensures ports { IfOk result (λ inbox. length inbox.slots ≡ length payloads.now) }
    ensures rewound { IfOk result (λ inbox. inbox.cursor ≡ 0) }
{
    let degree = payloads.len() as u32;
    let mut inbox = Inbox::new(alloc, degree)?;
    for port in 0..degree {
        if let Some(sample) = payloads[port as usize] {
            if inbox.is_empty(port) {
                inbox.put(port, sample.payload());
            }
        }
    }
    Ok(inbox)
}
