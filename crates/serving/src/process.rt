//! Serving the words that the system gives.

ghost use Rattle.std.specs.Prelude.{IfOk, IfErr, map, string_bytes};
ghost use Rattle.serving.specs.Serve.{ServesWords, no_text_of};
ghost use Rattle.serving.specs.Streams.{reading, writing};

use crate::commands::Commands;
use crate::giving::refuse_memory;
use crate::serving::serve;
use crate::words::borrowed;
use std::env::Env;
use std::io;
use std::io::ErrorKind;
use std::sync::Wait;
use std::thread::Threads;
use whole_streams::{Sink, Source};

/// The words that the program was started with, its name first. No clause says that these are the system's words.
///
/// # Errors
/// `OutOfMemory`, or `InvalidData` if a word is no text.
pub fn arguments<T: Env + AllocGlobal>(rt: &T) -> io::Result<Vec<String>> {
    Ok(std::env::args(rt)?.collect(rt.alloc())?)
}

/// Serves the command of an executable that the words name, and returns the status of the program.
///
/// If a word is no text, the words are those of `no_text_of`: the name of the executable, and U+FFFD.
pub fn status_of<C: Commands, T, R: Source, W: Sink, E: Sink>(
    rt: &T,
    words: io::Result<Vec<String>>,
    input: &mut R,
    output: &mut W,
    errors: &mut E,
) -> u8
where
    T: Threads + Wait + Sync + AllocGlobal,
    ensures served { IfOk words (λ given. ServesWords C.commands (map string_bytes given.items)
        (reading R.remaining R.faults R.reads_left input.old input.new)
        (writing W.contents W.faults output.old output.new)
        (writing E.contents E.faults errors.old errors.new) result) }
    ensures refused { IfErr words (λ _. ServesWords C.commands (no_text_of C.commands.executable)
        (reading R.remaining R.faults R.reads_left input.old input.new)
        (writing W.contents W.faults output.old output.new)
        (writing E.contents E.faults errors.old errors.new) result) }
{
    let (alloc, executable) = (rt.alloc(), C::executable());
    match words {
        Ok(words) => match borrowed(alloc, words.as_slice()) {
            Ok(words) => serve::<C, T, R, W, E>(rt, alloc, words.as_slice(), input, output, errors),
            Err(_) => refuse_memory(executable, errors),
        },
        Err(error) if error.kind() == ErrorKind::OutOfMemory => refuse_memory(executable, errors),
        // clap takes texts alone and has no call for bytes, so that it is given the word U+FFFD, which names no
        // command: it then writes its usual refusal, with the usual status.
        Err(_) => serve::<C, T, R, W, E>(
            rt,
            alloc,
            &[executable.name(), "\u{FFFD}"],
            input,
            output,
            errors,
        ),
    }
}
