//! Why a run of workers has no outcome, or none that is whole.

/// Why a run has no outcome; nothing is left of it.
#[derive(Debug, Clone, Copy, PartialEq, Eq)]
pub enum PoolFault {
    /// G1: out of memory for nodes, links, the pool's and the finished places, entries, or what is gathered.
    Memory,
    /// G2: a thread was refused; those that had begun are joined.
    Spawn,
    /// G3: workers or capacity are out of range.
    BadOptions,
    /// G4: a stamp would pass 18446744073709551615. No run returns it: `stamps_fit` of `node_pool::run_workers`.
    StampFull,
}

/// Why nothing is told of a whole run.
#[derive(Debug, Clone, Copy, PartialEq, Eq)]
pub enum RunFault {
    /// The run has no outcome.
    Pool(PoolFault),
    /// The workers stopped, and not every node was done.
    Stopped,
    /// Memory ran out for the text of the run.
    Memory,
}
