//! A wire that a node did nothing with.

use wires::Wire;

/// Why a wire was set aside.
#[derive(Debug, Clone, Copy, PartialEq, Eq)]
pub enum WhyAside {
    /// The node refused it.
    Refused,
    /// The stamp of its take would pass 18446744073709551615. This is the stamp of the wire.
    StampFull(u64),
}

/// A wire that came by a port, and with which the node did nothing. It was taken off its link, and the node does
/// nothing in a further turn. When all ends of a run have met, the lists of the links show that no node refused one.
#[derive(Debug, Clone, Copy)]
pub struct Aside<T> {
    pub port: u32,
    pub wire: Wire<T>,
    pub why: WhyAside,
}
