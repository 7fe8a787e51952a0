//! A gate at which two workers meet.

use std::sync::Wait;
use std::sync::atomic::{AtomicBool, AtomicU64, Ordering};
use std::thread;
use wired_nodes::Gate;

// How often a worker that is held looks for the other.
const TRIES: u32 = 1_000_000;

/// Counts by number, from 0 to 3.
#[derive(Drop)]
struct Counts([AtomicU64; 4]);

impl Counts {
    fn new() -> Counts {
        Counts([
            AtomicU64::new(0),
            AtomicU64::new(0),
            AtomicU64::new(0),
            AtomicU64::new(0),
        ])
    }

    fn add(&self, number: u32) {
        if let Some(count) = self.0.as_slice().get(number as usize) {
            count.fetch_add(1, Ordering::SeqCst);
        }
    }

    fn of(&self, number: u32) -> u64 {
        match self.0.as_slice().get(number as usize) {
            Some(count) => count.load(Ordering::SeqCst),
            None => 0,
        }
    }

    fn are_those_of(&self, other: &Counts) -> bool {
        self.of(0) == other.of(0)
            && self.of(1) == other.of(1)
            && self.of(2) == other.of(2)
            && self.of(3) == other.of(3)
    }
}

/// Holds the worker that is the first in the middle of a turn until the other of two has left a turn, and counts the
/// turns that workers (0 and 1) and nodes (1 to 3) have entered and left. Sees whether each middle of a turn is between
/// its entering and its leaving.
#[derive(Drop)]
pub struct Meeting {
    is_held: AtomicBool,
    holds: AtomicU64,
    was_alone: AtomicBool,
    was_outside: AtomicBool,
    entered_by_worker: Counts,
    entered_by_node: Counts,
    middles: Counts,
    by_worker: Counts,
    by_node: Counts,
}

impl Meeting {
    pub fn new() -> Meeting {
        Meeting {
            is_held: AtomicBool::new(false),
            holds: AtomicU64::new(0),
            was_alone: AtomicBool::new(false),
            was_outside: AtomicBool::new(false),
            entered_by_worker: Counts::new(),
            entered_by_node: Counts::new(),
            middles: Counts::new(),
            by_worker: Counts::new(),
            by_node: Counts::new(),
        }
    }

    /// Whether a worker was held once, until the other had left a turn, both left turns, and so did each node, at least
    /// this often; and whether they left as many turns as they entered, each with one middle, and none before it.
    pub fn saw_two_at_once(&self, least: u64) -> bool {
        let met = self.holds.load(Ordering::SeqCst) == 1 && !self.was_alone.load(Ordering::SeqCst);
        let workers = self.by_worker.of(0) > 0 && self.by_worker.of(1) > 0;
        let nodes = self.by_node.of(1) >= least
            && self.by_node.of(2) >= least
            && self.by_node.of(3) >= least;
        let pairs = self.entered_by_worker.are_those_of(&self.middles)
            && self.entered_by_worker.are_those_of(&self.by_worker)
            && self.entered_by_node.are_those_of(&self.by_node);
        let inside = !self.was_outside.load(Ordering::SeqCst);
        met && workers && nodes && pairs && inside
    }

    // Waits until a worker has left a turn. Returns whether it has, after at most `TRIES` looks.
    fn sees(&self, worker: u32) -> bool {
        for _ in 0..TRIES {
            if self.by_worker.of(worker) > 0 {
                return true;
            }
            thread::yield_now();
        }
        false
    }
}

impl Gate for Meeting {
    fn enter<R: Wait>(&self, _rt: &R, worker: u32, node: u32) {
        self.entered_by_worker.add(worker);
        self.entered_by_node.add(node);
    }

    fn middle<R: Wait>(&self, _rt: &R, worker: u32, _node: u32) {
        self.middles.add(worker);
        if self.entered_by_worker.of(worker) <= self.by_worker.of(worker) {
            self.was_outside.store(true, Ordering::SeqCst);
        }
        if self.is_held.swap(true, Ordering::SeqCst) {
            return;
        }
        self.holds.fetch_add(1, Ordering::SeqCst);
        let other = if worker == 0 { 1 } else { 0 };
        if !self.sees(other) {
            self.was_alone.store(true, Ordering::SeqCst);
        }
    }

    fn leave<R: Wait>(&self, _rt: &R, worker: u32, node: u32) {
        self.by_worker.add(worker);
        self.by_node.add(node);
    }
}
