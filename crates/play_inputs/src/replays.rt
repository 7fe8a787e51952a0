//! Why a transcript isn't replayed.

ghost use Rattle.std.specs.Prelude.{◌≡◌};
ghost use Rattle.play_inputs.specs.TextFaults.{fault_of_text};
ghost use Rattle.play_inputs.specs.declared.replays.ReplayFault.TheVariants.{Memory};

use std::alloc::AllocError;
use transcripts::TextFault;

/// Why a transcript isn't replayed: it names another program, which the words say; or its first line that isn't a line
/// of a transcript, or its first entry that isn't possible or has another pulse or wire, with the number of its line.
/// After it come words for what the event lacks or leads to, as `missing_words` and `expected_words` of `event_texts`
/// have them.
#[derive(Debug, PartialEq, Eq, Drop)]
pub enum ReplayFault {
    /// The line isn't a line of a transcript.
    Syntax(usize),
    /// The first line names another program.
    WrongProgram(usize, Vec<u8>),
    /// The node can't make its next pulse yet.
    NotReady(usize, Vec<u8>),
    /// The out-list is empty.
    NothingToPut(usize, Vec<u8>),
    /// No wire of the neighbour waits.
    LinkEmpty(usize, Vec<u8>),
    /// There is no such vertex, or no such neighbour of it.
    NoSuch(usize),
    /// The event has another pulse or wire.
    WrongWire(usize, Vec<u8>),
    /// The entry has another stamp than the counter of its node gives it, or comes too late in the order.
    WrongStamp(usize),
    /// A node isn't drained at the end, or a link isn't empty; the line is the last entry's.
    NotWhole(usize),
    /// Memory ran out.
    Memory,
}

impl From<AllocError> for ReplayFault {
    ghost from_gives = { λ _ result. result ≡ Memory };

    fn from(_error: AllocError) -> ReplayFault {
        ReplayFault::Memory
    }
}

impl From<TextFault> for ReplayFault {
    ghost from_gives = { λ fault result. result ≡ fault_of_text fault };

    fn from(fault: TextFault) -> ReplayFault {
        match fault {
            TextFault::Syntax(line) => ReplayFault::Syntax(line),
            TextFault::Memory => ReplayFault::Memory,
        }
    }
}
