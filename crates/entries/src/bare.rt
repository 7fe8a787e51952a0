//! An entry without its payload.

ghost use Rattle.std.specs.Prelude.{◌≡◌, ◌≤◌, [], ◌∷◌, drop, length};
ghost use Rattle.std.specs.Option.{option_to_list};
ghost use Rattle.entries.specs.Bare.{entry_of, payloads_of_kind, payloads_of_act, wire_of};

use crate::entry::Entry;
use std::mem::size_of;
use wires::Wire;

/// The kind of a wire.
#[derive(Debug, Clone, Copy, PartialEq, Eq)]
pub enum WireKind {
    Payload,
    Ack,
    Safe,
    Close,
}

/// What a node did, and the kind of the wire with which it did it.
#[derive(Debug, Clone, Copy, PartialEq, Eq)]
pub enum Act {
    Pulse,
    Put(WireKind),
    Take(WireKind),
}

/// An entry without its payload. Its vertex is 0 for an act that has none, and its pulse for a close.
#[derive(Debug, Clone, Copy)]
pub struct BareEntry {
    pub act: Act,
    pub vertex: u32,
    pub pulse: u32,
}

const _: () = prove!(size_of::<BareEntry>() == 12);

// A wire's kind, pulse and payload.
fn split_wire<T>(wire: Wire<T>) -> (WireKind, u32, Option<T>)
    ensures wire { wire_of result.0 result.1 (option_to_list result.2) ≡ wire ∷ [] }
    ensures count { payloads_of_kind result.0 ≡ length (option_to_list result.2) }
{
    match wire {
        Wire::Payload(pulse, payload) => (WireKind::Payload, pulse, Some(payload)),
        Wire::Ack(pulse) => (WireKind::Ack, pulse, None),
        Wire::Safe(pulse) => (WireKind::Safe, pulse, None),
        Wire::Close => (WireKind::Close, 0, None),
    }
}

// An entry without its payload, and the payload.
pub(crate) fn split<T>(entry: Entry<T>) -> (BareEntry, Option<T>)
    ensures entry { entry_of result.0.act result.0.vertex result.0.pulse (option_to_list result.1) ≡ entry ∷ [] }
    ensures count { payloads_of_act result.0.act ≡ length (option_to_list result.1) }
{
    match entry {
        Entry::Pulse(pulse) => {
            let act = Act::Pulse;
            (
                BareEntry {
                    act,
                    vertex: 0,
                    pulse,
                },
                None,
            )
        }
        Entry::Put(vertex, wire) => {
            let (kind, pulse, payload) = split_wire(wire);
            let act = Act::Put(kind);
            (BareEntry { act, vertex, pulse }, payload)
        }
        Entry::Take(vertex, wire) => {
            let (kind, pulse, payload) = split_wire(wire);
            let act = Act::Take(kind);
            (BareEntry { act, vertex, pulse }, payload)
        }
    }
}

// The wire of a kind with the first of the payloads, and the others.
pub(crate) fn join_wire<'a, T: Copy>(
    kind: WireKind,
    pulse: u32,
    payloads: &'a [T],
) -> (Wire<T>, &'a [T])
    requires { payloads_of_kind kind ≤ length payloads.now }
    ensures wire { wire_of kind pulse payloads.now ≡ result.0 ∷ [] }
    ensures rest { result.1.now ≡ drop (payloads_of_kind kind) payloads.now }
{
    match kind {
        WireKind::Payload => match payloads.split_first() {
            Some((payload, rest)) => (Wire::Payload(pulse, *payload), rest),
            None => unreachable!(),
        },
        WireKind::Ack => (Wire::Ack(pulse), payloads),
        WireKind::Safe => (Wire::Safe(pulse), payloads),
        WireKind::Close => (Wire::Close, payloads),
    }
}
