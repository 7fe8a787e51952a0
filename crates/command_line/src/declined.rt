//! What `clap` finds in the words of a command line, or what is said of them.

ghost use Rattle.std.specs.Prelude.{◌≡◌, IfOk, IfErr, map};
ghost use Rattle.clap.specs.Words.{kind_of, subcommand_rows_of};
ghost use Rattle.command_line.specs.Asked.{HasEntered, IsDeclinedBy, MayDeclineFault, hint_of};

use crate::executable::Executable;
use crate::line::whole_line;
use clap::error::ErrorKind;
use clap::{ArgMatches, Error};
use std::alloc::Global;

const FORESTPLAN_READS: &'static str =
    "forestplan reads the network from standard input: forestplan plan < FILE\n";

const FORESTPLAY_READS: &'static str =
    "forestplay reads the network from standard input: forestplay rounds < FILE\n";

/// Why words ask for no command, and what is said of them.
#[derive(Debug, Drop)]
pub enum Declined {
    /// They ask for help, and this is the text.
    Help(String),
    /// They are refused, and this text of several lines says why.
    Refused(String),
    /// Memory ran out.
    Memory,
}

// The last line of a refusal of a word that clap doesn't know: it may be the name of a file.
fn hint(executable: Executable, kind: ErrorKind) -> &'static str
    ensures { result.now ≡ hint_of kind executable }
{
    match kind {
        ErrorKind::UnknownArgument | ErrorKind::InvalidSubcommand => match executable {
            Executable::Forestplan => FORESTPLAN_READS,
            Executable::Forestplay => FORESTPLAY_READS,
        },
        _ => "",
    }
}

// What clap says of words that ask for no command, and the hint.
fn declined_by(alloc: Global, executable: Executable, error: &Error) -> Declined
    ensures { IsDeclinedBy (kind_of error.now) result }
{
    let kind = error.kind();
    let hint = hint(executable, kind);
    let Ok(text) = format!(in alloc; "{error}{hint}") else {
        return Declined::Memory;
    };
    match kind {
        ErrorKind::OutOfMemory => Declined::Memory,
        ErrorKind::DisplayHelp => Declined::Help(text),
        _ => Declined::Refused(text),
    }
}

/// What clap finds in the words of an executable, if it finds no fault in them: then they have a command.
///
/// # Errors
/// `Help` or `Refused` by the first fault that clap meets in the words, or `Memory`.
pub fn matches_of<'a>(
    alloc: Global,
    executable: Executable,
    words: &'a [&'a str],
) -> Result<ArgMatches<'a>, Declined>
    ensures ok { IfOk result (λ matches.
        HasEntered executable (map (λ word. word.now) words.entry.now) (subcommand_rows_of matches)) }
    ensures err { IfErr result (MayDeclineFault executable (map (λ word. word.now) words.entry.now)) }
{
    let Ok(line) = whole_line(alloc, executable) else {
        return Err(Declined::Memory);
    };
    match line.try_get_matches_from(words) {
        Ok(matches) => Ok(matches),
        Err(error) => Err(declined_by(alloc, executable, &error)),
    }
}
