//! The one merged run of two nodes that only close their links, lists of stamped entries that aren't a run, the merged
//! runs of workers on small networks, and a counter at its end.

use crate::replay_checks::MERGED;
use crate::runs::{pair, small};
use alpha_core::{Counter, StampFull};
use entries::{Entries, Entry, StampedEntry, StampedRow};
use event_rule::RunRefused;
use interference::Network;
use net_core::{ReplayRefused, WholeRefused, replay_whole};
use node_pool::run_workers;
use outcomes::Outcome;
use run_options::Options;
use stamps::{order, rising};
use std::alloc::Global;
use std::sync::Wait;
use std::thread::Threads;
use sync_rounds::{Best, Greatest};
use transcripts::stamped_text;
use wired_nodes::OpenGate;
use wires::Wire;

type Row = StampedRow<Best>;

// Both nodes put a close, and both take one.
const TO_1: Entry<Best> = Entry::Put(1, Wire::Close);

const TO_2: Entry<Best> = Entry::Put(2, Wire::Close);

const FROM_1: Entry<Best> = Entry::Take(1, Wire::Close);

const FROM_2: Entry<Best> = Entry::Take(2, Wire::Close);

const A: Row = StampedRow {
    stamp: 1,
    vertex: 1,
    entry: TO_2,
};

const B: Row = StampedRow {
    stamp: 2,
    vertex: 2,
    entry: FROM_1,
};

const C: Row = StampedRow {
    stamp: 3,
    vertex: 2,
    entry: TO_1,
};

const D: Row = StampedRow {
    stamp: 4,
    vertex: 1,
    entry: FROM_2,
};

static WHOLE: [Row; 4] = [A, B, C, D];

fn refusal<const D: u32>(alloc: Global, net: &Network, rows: &[Row]) -> Option<WholeRefused> {
    match replay_whole::<Greatest<D>>(alloc, net, rows) {
        Ok(_) => None,
        Err(refused) => Some(refused),
    }
}

const NOTHING_TO_PUT: WholeRefused = WholeRefused::Replay(ReplayRefused::Run(
    RunRefused::NothingToPut(1),
));

const LINK_EMPTY: WholeRefused = WholeRefused::Replay(ReplayRefused::Run(RunRefused::LinkEmpty(0)));

const WRONG_PUT: Entry<Best> = Entry::Put(1, Wire::Safe(0));

const WRONG_WIRE: WholeRefused = WholeRefused::Replay(ReplayRefused::WrongWire(2));

const WRONG_AT_0: Option<WholeRefused> = Some(WholeRefused::WrongStamp(0));

const WRONG_AT_1: Option<WholeRefused> = Some(WholeRefused::WrongStamp(1));

const WRONG_AT_2: Option<WholeRefused> = Some(WholeRefused::WrongStamp(2));

const WRONG_AT_3: Option<WholeRefused> = Some(WholeRefused::WrongStamp(3));

// Each node puts first, and the two puts come by vertex.
const FIRST: Row = StampedRow {
    stamp: 1,
    vertex: 1,
    entry: TO_2,
};

const SECOND: Row = StampedRow {
    stamp: 1,
    vertex: 2,
    entry: TO_1,
};

const LAST: Row = StampedRow {
    stamp: 2,
    vertex: 1,
    entry: FROM_2,
};

const OTHER: Row = StampedRow {
    stamp: 2,
    vertex: 2,
    entry: FROM_1,
};

// Rows at stamps that they don't have in the merged run.
const PUT_AT_2: Row = StampedRow {
    stamp: 2,
    vertex: 2,
    entry: TO_1,
};

const PUT_AT_4: Row = StampedRow {
    stamp: 4,
    vertex: 2,
    entry: TO_1,
};

const PUT_AT_MAX: Row = StampedRow {
    stamp: u64::MAX,
    vertex: 2,
    entry: TO_1,
};

const PUT_AT_0: Row = StampedRow {
    stamp: 0,
    vertex: 1,
    entry: TO_2,
};

const TAKE_AT_1: Row = StampedRow {
    stamp: 1,
    vertex: 2,
    entry: FROM_1,
};

const TAKE_AT_2: Row = StampedRow {
    stamp: 2,
    vertex: 1,
    entry: FROM_2,
};

const WRONG_AT_9: Row = StampedRow {
    stamp: 9,
    vertex: 2,
    entry: WRONG_PUT,
};

// Four rows, and why they are refused.
static CASES: [(Row, Row, Row, Row, Option<WholeRefused>); 12] = [
    (A, B, C, D, None),
    (FIRST, SECOND, LAST, OTHER, None),
    (SECOND, FIRST, LAST, OTHER, WRONG_AT_1),
    (FIRST, SECOND, OTHER, LAST, WRONG_AT_3),
    (A, B, PUT_AT_2, D, WRONG_AT_2),
    (A, B, PUT_AT_4, D, WRONG_AT_2),
    (A, B, PUT_AT_MAX, D, WRONG_AT_2),
    (PUT_AT_0, B, C, D, WRONG_AT_0),
    // By the counter of the node alone.
    (A, TAKE_AT_1, PUT_AT_2, D, WRONG_AT_1),
    (A, B, C, TAKE_AT_2, WRONG_AT_3),
    (A, A, B, C, Some(NOTHING_TO_PUT)),
    (A, B, WRONG_AT_9, D, Some(WRONG_WIRE)),
];

fn fours_are_refused(alloc: Global, net: &Network) -> bool {
    for (a, b, c, d, refused) in &CASES {
        if refusal::<0>(alloc, net, &[*a, *b, *c, *d]) != *refused {
            return false;
        }
    }
    true
}

// The stamps of both vertices after rows that end whole.
fn stamps_after(alloc: Global, net: &Network, rows: &[Row]) -> Option<(u64, u64)> {
    match replay_whole::<Greatest<0>>(alloc, net, rows) {
        Ok(stamped) => Some((stamped.stamp_of(1), stamped.stamp_of(2))),
        Err(_) => None,
    }
}

fn stamps_are_kept(alloc: Global, net: &Network) -> bool {
    stamps_after(alloc, net, &WHOLE) == Some((4, 3))
        && stamps_after(alloc, net, &[FIRST, SECOND, LAST, OTHER]) == Some((2, 2))
}

fn fewer_are_refused(alloc: Global, net: &Network) -> bool {
    refusal::<0>(alloc, net, &[B, C, D]) == Some(LINK_EMPTY)
        && refusal::<0>(alloc, net, &[A, B, C]) == Some(WholeRefused::NotWhole)
        && refusal::<0>(alloc, net, &[]) == Some(WholeRefused::NotWhole)
}

#[test]
fn a_merged_run_is_replayed_or_refused_by_the_first_row_out_of_place(rt: HostRuntime) {
    let net = pair(rt.alloc()).expect(&rt, "network");
    assert!(rt; fours_are_refused(rt.alloc(), &net));
    assert!(rt; fewer_are_refused(rt.alloc(), &net));
    assert!(rt; stamps_are_kept(rt.alloc(), &net));
}

type List = Vec<StampedEntry<Best>>;

// The entries of a node with their stamps.
fn list_of(alloc: Global, entries: &Entries<Best>) -> Option<List> {
    entries.stamped().collect(alloc).ok()
}

// Adds the entries of each node. Whether memory was enough.
fn add_lists<const D: u32>(
    alloc: Global,
    outcome: &Outcome<Greatest<D>>,
    lists: &mut Vec<List>,
) -> bool {
    for actor in outcome.actors() {
        match list_of(alloc, actor.entries()) {
            Some(list) => {
                if lists.push(list).is_err() {
                    return false;
                }
            }
            None => return false,
        }
    }
    true
}

fn lists_of<const D: u32, R: Threads + Wait + Sync>(
    rt: &R,
    alloc: Global,
    net: &Network,
    workers: u32,
    lists: &mut Vec<List>,
) -> bool {
    let options = Options {
        workers,
        capacity: 4,
        turns: 100_000_000,
        transcript: true,
    };
    match run_workers::<Greatest<D>, OpenGate, R>(rt, alloc, net, options, &OpenGate) {
        Ok(outcome) => add_lists(alloc, &outcome, lists),
        Err(_) => false,
    }
}

// The rows of the lists; none if the stamps of a node don't rise.
fn rows_of(alloc: Global, lists: &[List]) -> Option<Vec<Row>> {
    if lists.len() > 6 || !rising(lists) {
        return None;
    }
    order(alloc, lists).ok()
}

// The merged entries of a run by these workers.
fn merged<const D: u32, R: Threads + Wait + Sync>(
    rt: &R,
    alloc: Global,
    net: &Network,
    workers: u32,
) -> Option<Vec<Row>> {
    let mut lists = Vec::new(alloc);
    if lists_of::<D, R>(rt, alloc, net, workers, &mut lists) {
        rows_of(alloc, lists.as_slice())
    } else {
        None
    }
}

fn has_text(alloc: Global, rows: &[Row]) -> bool {
    match stamped_text(alloc, 2, rows) {
        Ok(text) => text.as_slice() == MERGED,
        Err(_) => false,
    }
}

// One worker looks at node 1, at node 2, and at node 1 again.
fn is_the_worked_run<R: Threads + Wait + Sync>(rt: &R, alloc: Global, net: &Network) -> bool {
    match merged::<0, R>(rt, alloc, net, 1) {
        Some(rows) => rows.as_slice() == WHOLE.as_slice() && has_text(alloc, rows.as_slice()),
        None => false,
    }
}

// Whether the merged run of these workers is replayed whole.
fn is_replayed<R: Threads + Wait + Sync>(
    rt: &R,
    alloc: Global,
    net: &Network,
    workers: u32,
) -> bool {
    match merged::<3, R>(rt, alloc, net, workers) {
        Some(rows) => refusal::<3>(alloc, net, rows.as_slice()) == None,
        None => false,
    }
}

// Whether the merged runs of 1, 2 and 4 workers on a small network are replayed whole.
fn are_replayed<R: Threads + Wait + Sync>(rt: &R, alloc: Global, number: u32) -> bool {
    match small(alloc, number) {
        Some(net) => {
            is_replayed(rt, alloc, &net, 1)
                && is_replayed(rt, alloc, &net, 2)
                && is_replayed(rt, alloc, &net, 4)
        }
        None => false,
    }
}

#[test]
fn merged_runs_of_workers_are_replayed_whole(rt: HostRuntime) {
    let net = pair(rt.alloc()).expect(&rt, "network");
    assert!(rt; is_the_worked_run(&rt, rt.alloc(), &net));
    for number in 0..50 {
        assert!(rt; are_replayed(&rt, rt.alloc(), number), "{number}");
    }
}

fn counts(counter: &mut Counter) -> bool {
    counter.value() == 0
        && counter.peek() == Ok(1)
        && counter.next() == Ok(1)
        && counter.past(u64::MAX) == Err(StampFull)
        && counter.past(0) == Ok(2)
        && counter.past(7) == Ok(8)
}

fn stops(counter: &mut Counter) -> bool {
    counter.past(u64::MAX - 1) == Ok(u64::MAX)
        && counter.peek() == Err(StampFull)
        && counter.next() == Err(StampFull)
        && counter.past(0) == Err(StampFull)
        && counter.value() == u64::MAX
}

#[test]
fn a_counter_stops_at_the_greatest_number(rt: HostRuntime) {
    let mut counter = Counter::new();
    assert!(rt; counts(&mut counter));
    assert!(rt; stops(&mut counter));
}
