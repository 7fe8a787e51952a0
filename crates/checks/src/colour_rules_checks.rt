//! The text of each kind of payload, at its greatest number and one beyond; and each call once.

ghost use Rattle.std.specs.Prelude.{◌≡◌};
ghost use Rattle.interference.specs.Net.{IsVertex, degree_of};
ghost use Rattle.node_api.specs.Boxes.{nothing, unread};
ghost use Rattle.colour_rules.specs.Node.{ports};

use crate::networks::edge;
use crate::samples::Sample;
use colour_rules::{ColourNode, IdlePulses, Payload, Phase, Reduction};
use interference::Network;
use node_api::{Inbox, Outbox, PayloadText};
use std::alloc::Global;

static TEXTS: [(Sample, &str, u128); 4] = [
    (Sample::Hello(u128::MAX), "hello", u128::MAX),
    (Sample::Label(65535), "label", 65535),
    (Sample::Colour(u128::MAX), "colour", u128::MAX),
    (Sample::Chosen(65535), "chosen", 65535),
];

// Whether a payload has this word and number, and is read from them.
fn has_text(sample: Sample, word: &str, number: u128) -> bool {
    sample.payload().words() == (word, number)
        && Payload::from_words(word, number) == Some(sample.payload())
}

fn refuses_one_beyond() -> bool {
    Payload::from_words("label", 65536).is_none()
        && Payload::from_words("chosen", 65536).is_none()
        && Payload::from_words("best", 1).is_none()
}

#[test]
fn payloads_have_their_text(rt: HostRuntime) {
    for (sample, word, number) in &TEXTS {
        assert!(rt; has_text(*sample, *word, *number), "{word}");
    }
    assert!(rt; refuses_one_beyond());
}

// The phases of a node of the edge below, by pulse.
static PHASES: [(u32, Phase); 11] = [
    (0, Phase::Greet),
    (1, Phase::Orient),
    (2, Phase::Seed),
    (3, Phase::Work(Reduction::Step(0))),
    (7, Phase::Work(Reduction::Shift(5))),
    (8, Phase::Work(Reduction::Drop(5))),
    (10, Phase::Work(Reduction::Drop(4))),
    (12, Phase::Work(Reduction::Drop(3))),
    (13, Phase::Merge(0, 0)),
    (18, Phase::Merge(0, 5)),
    (19, Phase::Halted),
];

fn has_phases(node: &ColourNode) -> bool {
    for (pulse, phase) in &PHASES {
        if node.phase(*pulse) != *phase {
            return false;
        }
    }
    true
}

// Whether a node with identifier 1 and one port greets its neighbour, and takes a greeting.
fn begins(node: &mut ColourNode, inbox: &mut Inbox<Payload>, out: &mut Outbox<Payload>) -> bool
    requires node { ports node.old ≡ 1 }
    requires inbox { inbox.old ≡ unread (nothing 1) }
    requires out { out.old ≡ nothing 1 }
{
    node.greet(out);
    let greets = out.get(0) == Some(Sample::Hello(1).payload())
        && node.colour() == 0
        && has_phases(node);
    inbox.put(0, Sample::Hello(2).payload());
    out.clear();
    greets && node.pulse(1, inbox, out) == Ok(IdlePulses::none())
}

fn begins_over(alloc: Global, node: &mut ColourNode, inbox: &mut Inbox<Payload>) -> bool
    requires node { ports node.old ≡ 1 }
    requires inbox { inbox.old ≡ unread (nothing 1) }
{
    match Outbox::new(alloc, 1) {
        Ok(mut out) => begins(node, inbox, &mut out),
        Err(_) => false,
    }
}

fn begins_with(alloc: Global, node: &mut ColourNode) -> bool
    requires node { ports node.old ≡ 1 }
{
    match Inbox::new(alloc, 1) {
        Ok(mut inbox) => begins_over(alloc, node, &mut inbox),
        Err(_) => false,
    }
}

fn begins_anew(alloc: Global, net: &Network) -> bool
    requires vertex { IsVertex net.now 1 }
    requires one { degree_of net.now 1 ≡ 1 }
{
    match ColourNode::make(alloc, net, 1) {
        Ok(mut node) => begins_with(alloc, &mut node),
        Err(_) => false,
    }
}

// Two nodes with identifiers 1 and 2 and an edge: one forest, degree 1, last pulse 18.
#[test]
fn a_node_begins(rt: HostRuntime) {
    let net = edge(rt.alloc()).expect(&rt, "network");
    assert!(rt; net.nodes() == 2 && net.degree(1) == 1);
    assert!(rt; begins_anew(rt.alloc(), &net));
}
