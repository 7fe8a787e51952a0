//! An observer that counts, and a gate that counts with it.

ghost use Rattle.wired_nodes.specs.Stands.{NodeDid, NodeStands};

use interference::Network;
use node_api::NodeProgram;
use std::sync::Wait;
use std::sync::atomic::{AtomicBool, AtomicU64, Ordering};
use wired_nodes::{Gate, Node, Observer, Wiring};

/// How many pulses a node of the triangle makes: 12 + 3·d·(d + 1), where d is 2. A turn makes one at most.
pub const PULSES: u64 = 30;

/// What was seen of one node.
#[derive(Drop)]
struct Sightings {
    turns: AtomicU64,
    count: AtomicU64,
    // The counter when the node was seen last, by which each event moves it up, and how often it had moved.
    counter: AtomicU64,
    moves: AtomicU64,
    // Whether it ever fell, or a turn began or ended with another number of sightings than two for each turn.
    was_wrong: AtomicBool,
}

impl Sightings {
    fn new() -> Sightings {
        Sightings {
            turns: AtomicU64::new(0),
            count: AtomicU64::new(0),
            counter: AtomicU64::new(0),
            moves: AtomicU64::new(0),
            was_wrong: AtomicBool::new(false),
        }
    }

    // Whether it was seen twice in each turn so far.
    fn are_two_a_turn(&self) -> bool {
        self.count.load(Ordering::SeqCst) == self.turns.load(Ordering::SeqCst).wrapping_mul(2)
    }

    fn see_no_other(&self) {
        if !self.are_two_a_turn() {
            self.was_wrong.store(true, Ordering::SeqCst);
        }
    }

    fn see(&self, counter: u64) {
        self.count.fetch_add(1, Ordering::SeqCst);
        let before = self.counter.swap(counter, Ordering::SeqCst);
        if counter > before {
            self.moves.fetch_add(1, Ordering::SeqCst);
        } else if counter < before {
            self.was_wrong.store(true, Ordering::SeqCst);
        }
    }

    fn are_right(&self) -> bool {
        self.are_two_a_turn() && !self.was_wrong.load(Ordering::SeqCst)
    }
}

/// Counts by node, from 1 to 3. Index 0 is no node's.
#[derive(Drop)]
pub struct Counting([Sightings; 4]);

impl Counting {
    pub fn new() -> Counting {
        Counting([
            Sightings::new(),
            Sightings::new(),
            Sightings::new(),
            Sightings::new(),
        ])
    }

    /// Whether the node made this many turns, was seen before and after each, and has this counter.
    pub fn has_seen(&self, node: usize, turns: u64, counter: u64) -> bool {
        match self.0.as_slice().get(node) {
            Some(sightings) => {
                sightings.are_right()
                    && sightings.turns.load(Ordering::SeqCst) == turns
                    && sightings.counter.load(Ordering::SeqCst) == counter
            }
            None => false,
        }
    }

    /// Whether the node was seen before and after each of its turns, and on its way: it had moved at least as often
    /// as a node of the triangle makes pulses.
    pub fn has_seen_all(&self, node: usize) -> bool {
        match self.0.as_slice().get(node) {
            Some(sightings) => {
                sightings.are_right() && sightings.moves.load(Ordering::SeqCst) >= PULSES
            }
            None => false,
        }
    }
}

impl Gate for Counting {
    fn enter<R: Wait>(&self, _rt: &R, _worker: u32, node: u32) {
        if let Some(sightings) = self.0.as_slice().get(node as usize) {
            sightings.see_no_other();
            sightings.turns.fetch_add(1, Ordering::SeqCst);
        }
    }

    fn middle<R: Wait>(&self, _rt: &R, _worker: u32, _node: u32) {}

    fn leave<R: Wait>(&self, _rt: &R, _worker: u32, node: u32) {
        if let Some(sightings) = self.0.as_slice().get(node as usize) {
            sightings.see_no_other();
        }
    }
}

impl Observer for Counting {
    ghost observes = { λ network. Unit {0} };

    // A counter that can't go on is at the greatest number.
    fn sees<J: Wiring, P: NodeProgram, R: Wait>(
        &self,
        _rt: &R,
        network: &Network,
        _worker: u32,
        node: &Node<J, P>,
    )
        requires stands { NodeStands network.now node.now }
        requires did { NodeDid network.now node.now }
    {
        let counter = match node.counter.peek() {
            Ok(next) => next.wrapping_sub(1),
            Err(_) => u64::MAX,
        };
        if let Some(sightings) = self.0.as_slice().get(node.vertex as usize) {
            sightings.see(counter);
        }
    }
}
