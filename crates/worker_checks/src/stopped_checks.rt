//! Runs of one worker that stop: what its first looks leave, and that each look only adds to what the ones before it
//! did.

ghost use Rattle.std.specs.Prelude.{◌≡◌, ℕ, length};
ghost use Rattle.interference.specs.Net.{IsVertex, count_of, degree_of, vertices};
ghost use Rattle.outcomes.specs.Outcome.{row_in};

use crate::runs::{greeted, holds, of_one, run_of_one, triangle};
use colour_program::Colouring;
use colour_rules::Payload;
use entries::{Entries, Entry, StampedEntry};
use interference::Network;
use node_pool::run_workers;
use outcomes::Outcome;
use run_options::Options;
use std::alloc::Global;
use std::sync::Wait;
use std::thread::Threads;
use wired_nodes::OpenGate;
use wires::{Stamped, Wire};

// A constant has the identifier of a greeting in place of the payload, whose number has a model.
const FROM_1: Wire<u128> = Wire::Payload(0, 1);

const FROM_2: Wire<u128> = Wire::Payload(0, 2);

// What nodes 1 and 2 of the triangle did by the first and by the second look, and node 2 over links that hold one wire.
const FIRST: &[StampedEntry<u128>] = &[
    StampedEntry {
        stamp: 1,
        entry: Entry::Put(2, FROM_1),
    },
    StampedEntry {
        stamp: 2,
        entry: Entry::Put(3, FROM_1),
    },
];

const SECOND: &[StampedEntry<u128>] = &[
    StampedEntry {
        stamp: 2,
        entry: Entry::Take(1, FROM_1),
    },
    StampedEntry {
        stamp: 3,
        entry: Entry::Put(1, FROM_2),
    },
    StampedEntry {
        stamp: 4,
        entry: Entry::Put(1, Wire::Ack(0)),
    },
    StampedEntry {
        stamp: 5,
        entry: Entry::Put(3, FROM_2),
    },
];

const SECOND_OF_ONE: &[StampedEntry<u128>] = &[
    StampedEntry {
        stamp: 2,
        entry: Entry::Take(1, FROM_1),
    },
    StampedEntry {
        stamp: 3,
        entry: Entry::Put(1, FROM_2),
    },
    StampedEntry {
        stamp: 4,
        entry: Entry::Put(3, FROM_2),
    },
];

// What they have put, by stamp.
const PUT_1: Stamped<u128> = Stamped {
    stamp: 1,
    wire: FROM_1,
};

const PUT_2: Stamped<u128> = Stamped {
    stamp: 2,
    wire: FROM_1,
};

const PUT_3: Stamped<u128> = Stamped {
    stamp: 3,
    wire: FROM_2,
};

const ACK_4: Stamped<u128> = Stamped {
    stamp: 4,
    wire: Wire::Ack(0),
};

const PUT_4: Stamped<u128> = Stamped {
    stamp: 4,
    wire: FROM_2,
};

const PUT_5: Stamped<u128> = Stamped {
    stamp: 5,
    wire: FROM_2,
};

// The same entry, of greetings.
fn greeted_entry(entry: Entry<u128>) -> Entry<Payload> {
    match entry {
        Entry::Pulse(pulse) => Entry::Pulse(pulse),
        Entry::Put(to, wire) => Entry::Put(to, greeted(wire)),
        Entry::Take(from, wire) => Entry::Take(from, greeted(wire)),
    }
}

// Whether these are the entries of a node.
fn are(entries: &Entries<Payload>, wanted: &[StampedEntry<u128>]) -> bool {
    entries.stamped().eq(
        wanted.iter().map(|wanted| StampedEntry {
            stamp: wanted.stamp,
            entry: greeted_entry(wanted.entry),
        }),
    )
}

// Whether the node with this index has these entries.
fn has_entries(outcome: &Outcome<Colouring>, index: usize, wanted: &[StampedEntry<u128>]) -> bool {
    match outcome.actors().get(index) {
        Some(actor) => {
            actor.node() as usize == index.wrapping_add(1) && are(actor.entries(), wanted)
        }
        None => false,
    }
}

// Whether nodes have these entries.
fn have_entries(outcome: &Outcome<Colouring>, entries: &[&[StampedEntry<u128>]]) -> bool {
    for (index, wanted) in entries.iter().enumerate() {
        if !has_entries(outcome, index, *wanted) {
            return false;
        }
    }
    outcome.actors().len() == entries.len()
}

// Whether each node is at pulse 0.
fn are_at_start(net: &Network, outcome: &Outcome<Colouring>) -> bool
    requires nodes { length outcome.now.nodes ≡ count_of net.now }
{
    for v in 1..net.nodes() + 1 {
        if outcome.pulses(v) != 0 {
            return false;
        }
    }
    true
}

// Whether the links hold these wires, by node and port, each with its stamp.
fn hold(net: &Network, outcome: &Outcome<Colouring>, links: &[[&[Stamped<u128>]; 2]]) -> bool
    requires rows { length outcome.now.links ≡ length (vertices net.now) }
    requires row { (v : ℕ) → IsVertex net.now v → length (row_in outcome.now v) ≡ degree_of net.now v }
{
    for v in 1..net.nodes() + 1 {
        match links.get((v - 1) as usize) {
            Some(by_port) if holds(net, outcome, v, by_port.as_slice()) => (),
            _ => return false,
        }
    }
    true
}

// What a run of one worker leaves.
struct Left {
    capacity: u32,
    looks: u64,
    // By node.
    entries: &'static [&'static [StampedEntry<u128>]],
    // By node and port.
    links: &'static [[&'static [Stamped<u128>]; 2]],
}

// What the first looks leave, over links that hold four wires and over links that hold one. The worker looks at nodes
// 1, 2, 3 in turn. A node at which it looks takes what its links hold, and puts what it has to put, port by port, as
// far as the links hold it. So node 3 has done nothing.
static LEFT: [Left; 6] = [
    Left {
        capacity: 4,
        looks: 0,
        entries: &[&[], &[], &[]],
        links: &[[&[], &[]], [&[], &[]], [&[], &[]]],
    },
    Left {
        capacity: 1,
        looks: 0,
        entries: &[&[], &[], &[]],
        links: &[[&[], &[]], [&[], &[]], [&[], &[]]],
    },
    Left {
        capacity: 4,
        looks: 1,
        entries: &[FIRST, &[], &[]],
        links: &[[&[PUT_1], &[PUT_2]], [&[], &[]], [&[], &[]]],
    },
    Left {
        capacity: 1,
        looks: 1,
        entries: &[FIRST, &[], &[]],
        links: &[[&[PUT_1], &[PUT_2]], [&[], &[]], [&[], &[]]],
    },
    Left {
        capacity: 4,
        looks: 2,
        entries: &[FIRST, SECOND, &[]],
        links: &[[&[], &[PUT_2]], [&[PUT_3, ACK_4], &[PUT_5]], [&[], &[]]],
    },
    Left {
        capacity: 1,
        looks: 2,
        entries: &[FIRST, SECOND_OF_ONE, &[]],
        links: &[[&[], &[PUT_2]], [&[PUT_3], &[PUT_4]], [&[], &[]]],
    },
];

// Whether a run isn't whole and leaves what it should.
fn leaves<R: Threads + Wait + Sync>(rt: &R, alloc: Global, net: &Network, left: &Left) -> bool {
    let options = of_one(left.capacity, left.looks);
    match run_workers::<Colouring, OpenGate, R>(rt, alloc, net, options, &OpenGate) {
        Ok(outcome) => {
            !outcome.is_whole()
                && are_at_start(net, &outcome)
                && have_entries(&outcome, left.entries)
                && hold(net, &outcome, left.links)
        }
        Err(_) => false,
    }
}

fn all_leave<R: Threads + Wait + Sync>(rt: &R, alloc: Global, net: &Network) -> bool {
    for left in &LEFT {
        if !leaves(rt, alloc, net, left) {
            return false;
        }
    }
    true
}

#[test]
fn the_first_looks_leave_a_run_that_is_not_whole(rt: HostRuntime) {
    let net = triangle(rt.alloc()).expect(&rt, "network");
    assert!(rt; all_leave(&rt, rt.alloc(), &net));
}

// Whether the entries of a node are the first entries of the node in another run.
fn begin(entries: &Entries<Payload>, others: &Entries<Payload>) -> bool {
    entries.stamped().eq(others.stamped().take(entries.len()))
}

// Whether a run did what another one did, and maybe more.
fn adds_to(after: &Outcome<Colouring>, before: &Outcome<Colouring>) -> bool {
    for (one, other) in before.actors().iter().zip(after.actors()) {
        if !begin(one.entries(), other.entries()) {
            return false;
        }
    }
    !before.is_whole() || after.is_whole()
}

// Whether a run of this number of looks did what the run before did, which it replaces.
fn adds<R: Threads + Wait + Sync>(
    rt: &R,
    alloc: Global,
    net: &Network,
    looks: u64,
    before: &mut Outcome<Colouring>,
) -> bool {
    match run_of_one(rt, alloc, net, 1, looks) {
        Ok(after) => {
            let is_more = adds_to(&after, before);
            *before = after;
            is_more
        }
        Err(_) => false,
    }
}

// Whether the runs of 1 to 200 looks do so, each behind the one before, and the last is whole.
fn all_add<R: Threads + Wait + Sync>(
    rt: &R,
    alloc: Global,
    net: &Network,
    before: &mut Outcome<Colouring>,
) -> bool {
    for looks in 1..201 {
        if !adds(rt, alloc, net, looks, before) {
            return false;
        }
    }
    before.is_whole()
}

fn all_add_to_none<R: Threads + Wait + Sync>(rt: &R, alloc: Global, net: &Network) -> bool {
    match run_of_one(rt, alloc, net, 1, 0) {
        Ok(mut before) => all_add(rt, alloc, net, &mut before),
        Err(_) => false,
    }
}

#[test]
fn each_look_adds_to_the_entries(rt: HostRuntime) {
    let net = triangle(rt.alloc()).expect(&rt, "network");
    assert!(rt; all_add_to_none(&rt, rt.alloc(), &net));
}
