//! Giving an answer, or the report of a fault, with its status.

ghost use Rattle.std.specs.Prelude.{◌≡◌, ◌⊎◌};
ghost use Rattle.command_line.specs.Line.{name_of};
ghost use Rattle.serving.specs.CommandSet.{fault_line, fault_status};
ghost use Rattle.serving.specs.Serve.{GivesAnswer, IsReported, Puts};
ghost use Rattle.serving.specs.Serve.{memory_line, stream_line, unread_line};
ghost use Rattle.serving.specs.Streams.{writing};

use crate::commands::Commands;
use command_line::Executable;
use std::alloc::Global;
use whole_streams::{ReadFault, Sink, write_whole};

// The status if memory ran out or a stream failed.
const NOT_DONE: u8 = 4;

/// Writes a text to `errors`, and returns the status. A failed write there changes nothing.
pub(crate) fn refuse<E: Sink>(errors: &mut E, text: &[u8], status: u8) -> u8
    ensures reported { IsReported (writing E.contents E.faults errors.old errors.new) text.now }
    ensures status { result ≡ status }
{
    let _ = write_whole(errors, text);
    status
}

/// Reports that a stream failed.
pub(crate) fn refuse_stream<E: Sink>(executable: Executable, errors: &mut E) -> u8
    ensures reported { IsReported (writing E.contents E.faults errors.old errors.new) (stream_line executable) }
    ensures status { result ≡ 4 }
{
    match executable {
        Executable::Forestplan => refuse(errors, b"forestplan: stream\n", NOT_DONE),
        Executable::Forestplay => refuse(errors, b"forestplay: stream\n", NOT_DONE),
    }
}

/// Reports on `errors` that memory ran out, and returns the status 4.
pub(crate) fn refuse_memory<E: Sink>(executable: Executable, errors: &mut E) -> u8
    ensures reported { IsReported (writing E.contents E.faults errors.old errors.new) (memory_line executable) }
    ensures status { result ≡ 4 }
{
    match executable {
        Executable::Forestplan => refuse(errors, b"forestplan: memory\n", NOT_DONE),
        Executable::Forestplay => refuse(errors, b"forestplay: memory\n", NOT_DONE),
    }
}

/// Reports why an input couldn't be read, and returns the status 4.
pub(crate) fn refuse_unread<E: Sink>(executable: Executable, errors: &mut E, fault: ReadFault) -> u8
    ensures reported { IsReported (writing E.contents E.faults errors.old errors.new) (unread_line executable fault) }
    ensures status { result ≡ 4 }
{
    match fault {
        ReadFault::Stream => refuse_stream(executable, errors),
        ReadFault::Memory => refuse_memory(executable, errors),
    }
}

/// Writes a text to `output`, and reports if a write fails.
pub(crate) fn put<W: Sink, E: Sink>(
    executable: Executable,
    output: &mut W,
    errors: &mut E,
    text: &[u8],
) -> u8
    ensures { Puts executable (writing W.contents W.faults output.old output.new)
        (writing E.contents E.faults errors.old errors.new) text.now result }
{
    match write_whole(output, text) {
        Ok(()) => 0,
        Err(_) => refuse_stream(executable, errors),
    }
}

// Reports a fault, or that there is no memory for its line.
fn refuse_fault<C: Commands, E: Sink>(
    alloc: Global,
    executable: Executable,
    errors: &mut E,
    fault: C::Fault,
) -> u8
    ensures { (IsReported (writing E.contents E.faults errors.old errors.new)
        (fault_line C.commands (name_of executable) fault) × (result ≡ fault_status C.commands fault))
        ⊎ (IsReported (writing E.contents E.faults errors.old errors.new) (memory_line executable) × (result ≡ 4)) }
{
    match C::fault_report(alloc, executable.name(), fault) {
        Ok(report) => refuse(errors, report.line.as_slice(), report.status),
        Err(_) => refuse_memory(executable, errors),
    }
}

/// Gives an answer: its bytes go to `output`, and its fault is reported.
pub(crate) fn give<C: Commands, W: Sink, E: Sink>(
    alloc: Global,
    executable: Executable,
    answer: Result<Vec<u8>, C::Fault>,
    output: &mut W,
    errors: &mut E,
) -> u8
    ensures { GivesAnswer C.commands executable (writing W.contents W.faults output.old output.new)
        (writing E.contents E.faults errors.old errors.new) answer result }
{
    match answer {
        Ok(bytes) => put(executable, output, errors, bytes.as_slice()),
        Err(fault) => refuse_fault::<C, E>(alloc, executable, errors, fault),
    }
}
