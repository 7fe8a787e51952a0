//! A gate through which two workers come only if one steals.

use std::sync::Wait;
use std::sync::atomic::{AtomicBool, Ordering};
use std::thread;
use wired_nodes::Gate;

// How often a worker that is held looks for the other.
const TRIES: u32 = 1_000_000;

/// Holds the worker that is the first to enter node 1 until a turn of node 3 was left. Nodes 1 and 3 are dealt to one
/// worker of two.
#[derive(Drop)]
pub struct Stealing {
    is_held: AtomicBool,
    has_left: AtomicBool,
    was_alone: AtomicBool,
}

impl Stealing {
    pub fn new() -> Stealing {
        Stealing {
            is_held: AtomicBool::new(false),
            has_left: AtomicBool::new(false),
            was_alone: AtomicBool::new(false),
        }
    }

    /// Whether a worker was held at node 1, and another left a turn of node 3 meanwhile.
    pub fn saw_a_steal(&self) -> bool {
        self.is_held.load(Ordering::SeqCst)
            && self.has_left.load(Ordering::SeqCst)
            && !self.was_alone.load(Ordering::SeqCst)
    }

    // Waits until a turn of node 3 was left. Returns whether it was, after at most `TRIES` looks.
    fn sees(&self) -> bool {
        for _ in 0..TRIES {
            if self.has_left.load(Ordering::SeqCst) {
                return true;
            }
            thread::yield_now();
        }
        false
    }
}

impl Gate for Stealing {
    fn enter<R: Wait>(&self, _rt: &R, _worker: u32, node: u32) {
        if node != 1 || self.is_held.swap(true, Ordering::SeqCst) {
            return;
        }
        if !self.sees() {
            self.was_alone.store(true, Ordering::SeqCst);
        }
    }

    fn middle<R: Wait>(&self, _rt: &R, _worker: u32, _node: u32) {}

    fn leave<R: Wait>(&self, _rt: &R, _worker: u32, node: u32) {
        if node == 3 {
            self.has_left.store(true, Ordering::SeqCst);
        }
    }
}
