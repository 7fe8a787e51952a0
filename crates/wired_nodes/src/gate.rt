//! What a worker calls around a turn.

use std::sync::Wait;

/// What a worker (from 0) calls before, in the middle of, and after each turn of a node, by its vertex. A test's gate
/// may wait there; nothing is claimed of it.
pub trait Gate {
    fn enter<R: Wait>(&self, rt: &R, worker: u32, node: u32);

    /// After the takes of a turn, before its pulse.
    fn middle<R: Wait>(&self, rt: &R, worker: u32, node: u32);

    fn leave<R: Wait>(&self, rt: &R, worker: u32, node: u32);
}

/// A gate that does nothing.
pub struct OpenGate;

impl Gate for OpenGate {
    fn enter<R: Wait>(&self, _rt: &R, _worker: u32, _node: u32) {}

    fn middle<R: Wait>(&self, _rt: &R, _worker: u32, _node: u32) {}

    fn leave<R: Wait>(&self, _rt: &R, _worker: u32, _node: u32) {}
}
