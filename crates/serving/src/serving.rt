//! Serving one command, from its words and input to its output and status.

ghost use Rattle.std.specs.Prelude.{◌≡◌, IfErr, IfOk, Some, false, map, true};
ghost use Rattle.serving.specs.Serve.{Serves, ServesWords};
ghost use Rattle.serving.specs.Streams.{reading, writing};

use crate::commands::Commands;
use crate::giving::{give, put, refuse, refuse_memory, refuse_unread};
use command_line::Declined;
use std::alloc::Global;
use std::sync::Wait;
use std::thread::Threads;
use whole_streams::{Sink, Source, read_whole};

// The status if the command line is refused.
const REFUSED_WORDS: u8 = 2;

// Serves a command that starts no threads.
fn status_alone<C: Commands, R: Source, W: Sink, E: Sink>(
    alloc: Global,
    request: C::Request,
    input: &mut R,
    output: &mut W,
    errors: &mut E,
) -> u8
    requires in_range { C.can_answer request }
    requires alone { C.commands.starts_threads request ≡ false }
    ensures { Serves C.commands request (reading R.remaining R.faults R.reads_left input.old input.new)
        (writing W.contents W.faults output.old output.new)
        (writing E.contents E.faults errors.old errors.new) result }
{
    let executable = C::executable();
    match read_whole(alloc, input) {
        Ok(bytes) => {
            let answer = C::answer_alone(alloc, request, bytes.as_slice());
            give::<C, W, E>(alloc, executable, answer, output, errors)
        }
        Err(fault) => refuse_unread(executable, errors, fault),
    }
}

// Serves a command that starts threads.
fn status_by_threads<C: Commands, T: Threads + Wait + Sync, R: Source, W: Sink, E: Sink>(
    rt: &T,
    alloc: Global,
    request: C::Request,
    input: &mut R,
    output: &mut W,
    errors: &mut E,
) -> u8
    requires in_range { C.can_answer request }
    requires threads { C.commands.starts_threads request ≡ true }
    ensures { Serves C.commands request (reading R.remaining R.faults R.reads_left input.old input.new)
        (writing W.contents W.faults output.old output.new)
        (writing E.contents E.faults errors.old errors.new) result }
{
    let executable = C::executable();
    match read_whole(alloc, input) {
        Ok(bytes) => {
            let answer = C::answer_by_threads(rt, alloc, request, bytes.as_slice());
            give::<C, W, E>(alloc, executable, answer, output, errors)
        }
        Err(fault) => refuse_unread(executable, errors, fault),
    }
}

/// Serves the words as `serve` does, unless they ask for a command that starts threads. The call returns: it has no
/// runtime to wait with.
///
/// # Errors
/// What the words ask for, if this starts threads. Then nothing is read or written.
pub fn serve_alone<'a, C: Commands, R: Source, W: Sink, E: Sink>(
    alloc: Global,
    words: &'a [&'a str],
    input: &mut R,
    output: &mut W,
    errors: &mut E,
) -> Result<u8, C::Request>
    ensures served { IfOk result (λ status. ServesWords C.commands (map (λ word. word.now) words.entry.now)
        (reading R.remaining R.faults R.reads_left input.old input.new)
        (writing W.contents W.faults output.old output.new)
        (writing E.contents E.faults errors.old errors.new) status) }
    ensures asked { IfErr result
        (λ request. C.commands.request_of (map (λ word. word.now) words.entry.now) ≡ Some request) }
    ensures threads { IfErr result (λ request. C.commands.starts_threads request ≡ true) }
    ensures in_range { IfErr result C.can_answer }
    ensures untouched { IfErr result
        (λ _. (input.new ≡ input.old) × (output.new ≡ output.old) × (errors.new ≡ errors.old)) }
{
    let executable = C::executable();
    match C::parse(alloc, words) {
        Ok(request) if C::starts_threads(request) => Err(request),
        Ok(request) => Ok(status_alone::<C, R, W, E>(alloc, request, input, output, errors)),
        Err(Declined::Help(text)) => Ok(put(executable, output, errors, text.as_bytes())),
        Err(Declined::Refused(text)) => Ok(refuse(errors, text.as_bytes(), REFUSED_WORDS)),
        Err(Declined::Memory) => Ok(refuse_memory(executable, errors)),
    }
}

/// Serves the command of an executable that the words name, its name being the first word, and returns the
/// status of the program.
///
/// If the words ask for a command, `input` is read to its end, the answer goes to `output`, and the
/// status is 0; a fault of the command goes to `errors` as the line, and with the status, that the command set gives
/// it (`fault_text`). If they don't, nothing is read: help goes to `output` with status 0, any other text of clap to
/// `errors` with 2. If a read or a write fails, or memory runs out, a line on `errors` says so, with status 4. After
/// a failed write `output` holds a prefix of the answer. A failed write to `errors` changes nothing.
///
/// The two programs give their faults these statuses: 1 if the input is refused, 3 if workers stop before every node
/// is done, and 4 if a thread is refused or memory runs out.
///
/// All but the commands that start threads is the work of `serve_alone`, which returns. It isn't promised that one that
/// starts threads returns: the contract holds if it does.
pub fn serve<'a, C: Commands, T: Threads + Wait + Sync, R: Source, W: Sink, E: Sink>(
    rt: &T,
    alloc: Global,
    words: &'a [&'a str],
    input: &mut R,
    output: &mut W,
    errors: &mut E,
) -> u8
    ensures { ServesWords C.commands (map (λ word. word.now) words.entry.now)
        (reading R.remaining R.faults R.reads_left input.old input.new)
        (writing W.contents W.faults output.old output.new)
        (writing E.contents E.faults errors.old errors.new) result }
{
    match serve_alone::<C, R, W, E>(alloc, words, input, output, errors) {
        Ok(status) => status,
        Err(request) => {
            status_by_threads::<C, T, R, W, E>(rt, alloc, request, input, output, errors)
        }
    }
}
