//! A wire with its stamp.

use crate::wire::Wire;

/// A wire with the stamp of its put (Lamport 1978): the number of the counter of the node that put it, after the put.
#[derive(Debug, Clone, Copy, PartialEq, Eq)]
pub struct Stamped<T> {
    pub stamp: u64,
    pub wire: Wire<T>,
}
