//! What can happen in a network.

/// An event. Vertices count from 1, ports from 0.
#[derive(Debug, Clone, Copy, PartialEq, Eq)]
pub enum Event {
    /// The vertex makes its next pulse.
    Pulse(u32),
    /// The vertex puts the oldest wire of the port's out-list on the link.
    Put(u32, u32),
    /// The vertex takes the oldest wire of the link that comes by the port, and reacts.
    Take(u32, u32),
}
