//! One entry.

use wires::Wire;

/// An entry of a node: an event that it made. The start at pulse 0 is no event, so it has no entry.
#[derive(Debug, Clone, Copy, PartialEq, Eq)]
pub enum Entry<T> {
    /// This pulse was made.
    Pulse(u32),
    /// The wire was put on the link to this neighbour.
    Put(u32, Wire<T>),
    /// The wire was taken from the link of this neighbour.
    Take(u32, Wire<T>),
}
