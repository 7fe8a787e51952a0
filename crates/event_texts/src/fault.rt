//! Why events aren't played to their end.

ghost use Rattle.std.specs.Prelude.{◌≡◌};
ghost use Rattle.event_texts.specs.declared.fault.EventFault.TheVariants.{Memory};

use interference::Memory as OutOfMemory;
use std::alloc::{AllocError, AllocFailed};
use thiserror::Error;

/// The first line that is no event, or the first event that isn't possible, with the number of its line.
/// Behind it are words for what the event lacks, as `missing_words` has them.
#[derive(Debug, PartialEq, Eq, Drop, Error)]
pub enum EventFault {
    #[error("NoEvent line {0}: neither `pulse V`, `put V PORT` nor `take V PORT`")]
    NoEvent(usize),
    #[error("NotReady line {0}: the node cannot make its next pulse yet")]
    NotReady(usize, Vec<u8>),
    #[error("NothingToPut line {0}: the out-list is empty")]
    NothingToPut(usize, Vec<u8>),
    #[error("LinkEmpty line {0}: the link that comes by the port is empty")]
    LinkEmpty(usize, Vec<u8>),
    #[error("NoSuch line {0}: there is no such vertex or port")]
    NoSuch(usize),
    #[error("out of memory")]
    Memory,
}

impl From<AllocError> for EventFault {
    ghost from_gives = { λ _ fault. fault ≡ Memory };

    fn from(_error: AllocError) -> EventFault {
        EventFault::Memory
    }
}

impl<T: Drop> From<AllocFailed<T>> for EventFault {
    ghost from_gives = { λ _ fault. fault ≡ Memory };

    fn from(_error: AllocFailed<T>) -> EventFault {
        EventFault::Memory
    }
}

impl From<OutOfMemory> for EventFault {
    ghost from_gives = { λ _ fault. fault ≡ Memory };

    fn from(_memory: OutOfMemory) -> EventFault {
        EventFault::Memory
    }
}
