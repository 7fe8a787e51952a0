//! Serving the words of a program, and what it ends with.

ghost use Rattle.std.specs.Prelude.{◌≡◌, IfOk, IfErr, map, string_bytes};
ghost use Rattle.std.specs.Process.{exit_status};
ghost use Rattle.serving.specs.Serve.{ServesWords, no_text_of};
ghost use Rattle.serving.specs.Streams.{reading, writing};

use crate::commands::Commands;
use crate::process::status_of;
use std::io;
use std::io::Eprint;
use std::marker::{Model, PhantomData};
use std::process::{ExitCode, Termination};
use std::sync::Wait;
use std::thread::Threads;
use whole_streams::{Sink, Source};

/// The status of a program that has served the commands `C` over an input `R`, an output `W` and errors `E`: what
/// `main` returns. Contracts see the number. Only `serve_words` makes one, so a `main` of this type can't end with
/// another status; and it is no `Drop`, so a `main` that lets one go is refused.
pub struct Served<C, R, W, E> {
    status: u8,
    of: PhantomData<(C, R, W, E)>,
}

impl<C, R, W, E> Model for Served<C, R, W, E> {
    ghost use Rattle.std.specs.Prelude.{ℕ};

    ghost Value = { ℕ };

    ghost view = { λ s. s.status };
}

impl<C, R, W, E> Termination for Served<C, R, W, E> {
    /// The status, as the process ends with it.
    fn report<T: Eprint>(self, _rt: &T) -> ExitCode
        ensures status { exit_status result ≡ self }
    {
        let Served { status, of: _ } = self;
        ExitCode::from(status)
    }
}

/// Serves the command of an executable that the words name, and returns the status of the program, which `main` returns
/// as it is. `main` gives `arguments`, standard input, output and errors.
///
/// If a word is no text, the words are those of `no_text_of`: the name of the executable, and U+FFFD.
pub fn serve_words<C: Commands, T, R: Source, W: Sink, E: Sink>(
    rt: &T,
    words: io::Result<Vec<String>>,
    input: &mut R,
    output: &mut W,
    errors: &mut E,
) -> Served<C, R, W, E>
where
    T: Threads + Wait + Sync + AllocGlobal,
    ensures served { IfOk words (λ given. ServesWords C.commands (map string_bytes given.items)
        (reading R.remaining R.faults R.reads_left input.old input.new)
        (writing W.contents W.faults output.old output.new)
        (writing E.contents E.faults errors.old errors.new) result) }
    ensures refused { IfErr words (λ _. ServesWords C.commands (no_text_of C.commands.executable)
        (reading R.remaining R.faults R.reads_left input.old input.new)
        (writing W.contents W.faults output.old output.new)
        (writing E.contents E.faults errors.old errors.new) result) }
{
    Served {
        status: status_of::<C, T, R, W, E>(rt, words, input, output, errors),
        of: PhantomData,
    }
}
