//! Why the threads of a run return nothing.

ghost use Rattle.std.specs.Prelude.{◌≡◌};
ghost use Rattle.pool.specs.Faults.{fault_of_threads};

use interference::Memory;
use run_options::PoolFault;
use std::alloc::AllocError;

/// Why the threads of a run return nothing.
#[derive(Debug, Clone, Copy, PartialEq, Eq)]
pub enum ThreadsFault {
    /// Out of memory for places, deques or workers' states, for the list of threads, for what they return; or in a
    /// turn of a task.
    Memory,
    /// A thread was refused; those that had begun are joined.
    Spawn,
}

impl From<AllocError> for ThreadsFault {
    ghost use Rattle.pool.specs.declared.faults.ThreadsFault.{ThreadsFault};

    ghost from_gives = { λ _ result. result ≡ ThreadsFault.Memory };

    fn from(_error: AllocError) -> ThreadsFault {
        ThreadsFault::Memory
    }
}

impl From<Memory> for ThreadsFault {
    ghost use Rattle.pool.specs.declared.faults.ThreadsFault.{ThreadsFault};

    ghost from_gives = { λ _ result. result ≡ ThreadsFault.Memory };

    fn from(_error: Memory) -> ThreadsFault {
        ThreadsFault::Memory
    }
}

impl From<ThreadsFault> for PoolFault {
    ghost from_gives = { λ fault result. result ≡ fault_of_threads fault };

    fn from(fault: ThreadsFault) -> PoolFault {
        match fault {
            ThreadsFault::Memory => PoolFault::Memory,
            ThreadsFault::Spawn => PoolFault::Spawn,
        }
    }
}
