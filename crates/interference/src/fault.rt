//! Why no network was made.

ghost use Rattle.std.specs.Prelude.{◌≡◌};
ghost use Rattle.interference.specs.declared.fault.NetFault.TheVariants.{Memory};
ghost use Rattle.interference.specs.declared.fault.TryFault.TheVariants.{Refused};

use std::alloc::{AllocError, AllocFailed};

/// Out of memory: a growth was refused.
#[derive(Debug, Clone, Copy, PartialEq, Eq)]
pub struct Memory;

impl From<AllocError> for Memory {
    fn from(_error: AllocError) -> Memory {
        Memory
    }
}

impl<T: Drop> From<AllocFailed<T>> for Memory {
    fn from(_error: AllocFailed<T>) -> Memory {
        Memory
    }
}

/// Why a network is refused; a network with several faults is refused for the first in this order.
/// Vertices count from 1.
#[derive(Debug, Clone, Copy, PartialEq, Eq)]
pub enum NetFault {
    /// N1: the least vertex that has more than `MAX_DEGREE` neighbours.
    Degree(u32),
    /// N2: the first two vertices, the smaller first, that have one identifier.
    SameId(u32, u32),
    /// N3: out of memory.
    Memory,
}

impl From<Memory> for NetFault {
    ghost from_gives = { λ _ fault. fault ≡ Memory };

    fn from(_memory: Memory) -> NetFault {
        NetFault::Memory
    }
}

/// Why `Network::try_new` makes no network.
#[derive(Debug, Clone, Copy, PartialEq, Eq)]
pub enum TryFault {
    /// `edges_fit` refuses the edges, or there are more than `MAX_NODES` identifiers.
    Edges,
    /// `bars_fit` refuses the bars.
    Bars,
    /// `Network::new` refuses the network.
    Refused(NetFault),
}

impl From<NetFault> for TryFault {
    ghost from_gives = { λ net fault. fault ≡ Refused net };

    fn from(fault: NetFault) -> TryFault {
        TryFault::Refused(fault)
    }
}
