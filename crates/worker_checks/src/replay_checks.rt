//! The whole run of two nodes that only close their links, read from its text and replayed, and single entries that no
//! event writes down at the start.

ghost use Rattle.std.specs.Prelude.{◌≡◌};
ghost use Rattle.interference.specs.Net.{count_of};

use crate::runs::pair;
use entries::{Entry, Row};
use event_machine::NetState;
use event_rule::RunRefused;
use interference::Network;
use net_core::{ReplayRefused, replay};
use std::alloc::Global;
use sync_rounds::{Best, Greatest};
use transcripts::read_transcript;
use wires::Wire;

pub const WHOLE: &[u8] =
    b"transcript 1 2\n1 put 2 close\n2 put 1 close\n1 take 2 close\n2 take 1 close\n";

// The same as one merged run, of edition 2.
pub const MERGED: &[u8] = b"transcript 2 2\n\
1 1 put 2 close\n2 2 take 1 close\n3 2 put 1 close\n4 1 take 2 close\n";

fn are_drained(state: &NetState<Greatest<0>>) -> bool
    requires two { count_of state.now.net ≡ 2 }
{
    state.node(1).drained() && state.node(2).drained()
}

// Whether rows are replayed to the end, or why they are refused.
fn ends(alloc: Global, net: &Network, rows: &[Row<Best>]) -> Result<bool, ReplayRefused>
    requires two { count_of net.now ≡ 2 }
{
    match replay::<Greatest<0>>(alloc, net, rows) {
        Ok(state) => Ok(are_drained(&state)),
        Err(refused) => Err(refused),
    }
}

// Rows that neither node can do at the start, and why.
static REFUSALS: [(Row<Best>, ReplayRefused); 7] = [
    (
        Row {
            vertex: 1,
            entry: Entry::Take(2, Wire::Close),
        },
        ReplayRefused::Run(RunRefused::LinkEmpty(0)),
    ),
    (
        Row {
            vertex: 1,
            entry: Entry::Put(2, Wire::Safe(0)),
        },
        ReplayRefused::WrongWire(0),
    ),
    (
        Row {
            vertex: 1,
            entry: Entry::Put(3, Wire::Close),
        },
        ReplayRefused::Run(RunRefused::NoSuch(0)),
    ),
    (
        Row {
            vertex: 1,
            entry: Entry::Pulse(1),
        },
        ReplayRefused::Run(RunRefused::NotReady(0)),
    ),
    (
        Row {
            vertex: 1,
            entry: Entry::Put(1, Wire::Close),
        },
        ReplayRefused::Run(RunRefused::NoSuch(0)),
    ),
    (
        Row {
            vertex: 3,
            entry: Entry::Pulse(1),
        },
        ReplayRefused::Run(RunRefused::NoSuch(0)),
    ),
    (
        Row {
            vertex: 0,
            entry: Entry::Put(2, Wire::Close),
        },
        ReplayRefused::Run(RunRefused::NoSuch(0)),
    ),
];

// Whether the transcript is read, and its rows are replayed to the end.
fn whole_ends(alloc: Global, net: &Network) -> bool
    requires two { count_of net.now ≡ 2 }
{
    match read_transcript::<Best>(alloc, WHOLE) {
        Ok((nodes, rows)) => nodes == 2 && ends(alloc, net, rows.as_slice()) == Ok(true),
        Err(_) => false,
    }
}

fn are_refused(alloc: Global, net: &Network) -> bool
    requires two { count_of net.now ≡ 2 }
{
    for (row, refused) in &REFUSALS {
        if ends(alloc, net, &[*row]) != Err(*refused) {
            return false;
        }
    }
    true
}

fn are_replayed_or_refused(alloc: Global, net: &Network) -> bool
    requires two { count_of net.now ≡ 2 }
{
    whole_ends(alloc, net) && are_refused(alloc, net)
}

#[test]
fn entries_are_replayed_or_refused_by_the_first_that_fails(rt: HostRuntime) {
    let net = pair(rt.alloc()).expect(&rt, "network");
    assert!(rt; net.nodes() == 2 && are_replayed_or_refused(rt.alloc(), &net));
}
