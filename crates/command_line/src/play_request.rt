//! What the words of `forestplay` ask for.

ghost use Rattle.std.specs.Prelude.{◌≡◌, Some, IfOk, IfErr, map};
ghost use Rattle.clap.specs.Words.{found_of, rows_of, subcommand_rows_of};
ghost use Rattle.command_line.specs.Asked.{IsPlayInRange, IsRefusal, MayDecline, alone_of, choice_of, play_named};
ghost use Rattle.command_line.specs.Asked.{play_request_of, played, run_of};

use crate::declined::{Declined, matches_of};
use crate::executable::Executable;
use crate::options::options_of;
use crate::programs::{
    NodeProgramName, Shown, is_program, program_of, program_word, shown_of, takes_root,
};
use clap::ArgMatches;
use run_options::Options;
use std::alloc::{AllocError, Global};

// The last lines of a refusal, as clap writes them.
const PROGRAM_NAMES: &'static str =
    "[possible values: colouring, leader, layers, matching, independent-set, recolouring]";

const ROOT_TAKER: &'static str = "[only with: --program layers]";

const PASSES_TAKER: &'static str = "[only with: --program recolouring]";

const TRY_HELP: &'static str = "For more information, try '--help'.";

/// What nodes are asked to do, whatever their program is.
#[derive(Clone, Copy, Debug, PartialEq, Eq)]
pub enum Play {
    /// The state that events lead to.
    Events,
    /// The state that the entries of a transcript lead to.
    Replay,
    /// The rounds of a network, pulse by pulse.
    Rounds,
    /// What nodes come to that worker threads run without a common clock.
    Run(Options, Shown),
    /// What nodes come to that one thread runs without a common clock.
    Alone(Shown),
    /// What nodes come to in rounds.
    Ends,
}

/// What `forestplay` is asked for.
#[derive(Clone, Copy, Debug, PartialEq, Eq)]
pub struct PlayRequest {
    /// The program of the nodes.
    pub program: NodeProgramName,
    /// What they are asked to do.
    pub play: Play,
}

// What nodes of the program that a command has are asked to do.
fn played(matches: &ArgMatches<'_>, play: Play) -> Option<PlayRequest>
    ensures { result ≡ played play (rows_of (found_of matches.now)) }
{
    let program = program_of(matches)?;
    Some(PlayRequest { program, play })
}

fn run_of(matches: &ArgMatches<'_>) -> Option<PlayRequest>
    ensures { result ≡ run_of (rows_of (found_of matches.now)) }
{
    let shown = shown_of(matches);
    let options = options_of(matches)?;
    played(matches, Play::Run(options, shown))
}

fn alone_of(matches: &ArgMatches<'_>) -> Option<PlayRequest>
    ensures { result ≡ alone_of (rows_of (found_of matches.now)) }
{
    let shown = shown_of(matches);
    played(matches, Play::Alone(shown))
}

fn play_named(name: &str, matches: &ArgMatches<'_>) -> Option<PlayRequest>
    ensures { result ≡ play_named name.now (rows_of (found_of matches.now)) }
{
    match name {
        "events" => played(matches, Play::Events),
        "replay" => played(matches, Play::Replay),
        "rounds" => played(matches, Play::Rounds),
        "run" => run_of(matches),
        "alone" => alone_of(matches),
        "ends" => played(matches, Play::Ends),
        _ => None,
    }
}

fn choice(matches: &ArgMatches<'_>) -> Option<PlayRequest>
    ensures { result ≡ choice_of play_named (subcommand_rows_of matches.now) }
{
    let (name, inner) = matches.subcommand()?;
    play_named(name, inner)
}

// The text that refuses a word for a program: if it names one, with the root, or else with the passes; and in the words
// of clap for a value that isn't one of a list if it names none.
fn refusal_of_program(alloc: Global, word: &str, takes_root: bool) -> Result<String, AllocError> {
    if is_program(word) {
        let (option, taker) = if takes_root {
            ("--passes <N>", PASSES_TAKER)
        } else {
            ("--root <V>", ROOT_TAKER)
        };
        format!(in alloc;
            "error: the argument '{option}' cannot be used with '--program {word}'\n  {taker}\n\n{TRY_HELP}\n"
        )
    } else {
        format!(in alloc;
            "error: invalid value '{word}' for '--program <NAME>'\n  {PROGRAM_NAMES}\n\n{TRY_HELP}\n"
        )
    }
}

// The refusal of words that name no program of nodes, or give a root or passes to one that takes none.
fn no_program(alloc: Global, matches: &ArgMatches<'_>) -> Declined
    ensures { IsRefusal result }
{
    let (word, takes_root) = match matches.subcommand() {
        Some((_, inner)) => (program_word(inner), takes_root(inner)),
        None => ("", false),
    };
    match refusal_of_program(alloc, word, takes_root) {
        Ok(text) => Declined::Refused(text),
        Err(_) => Declined::Memory,
    }
}

/// What the words ask `forestplay` for; the first is its name, and is not looked at.
///
/// # Errors
/// `Help` or `Refused` by the first fault that clap meets in the words. `Refused` if there is none, and the word of
/// `--program` names no program of nodes, or one that takes no root beside `--root`, or no passes beside `--passes`.
/// Any call may instead fail with `Memory`.
pub fn parse_play<'a>(alloc: Global, words: &'a [&'a str]) -> Result<PlayRequest, Declined>
    ensures ok { IfOk result (λ request. play_request_of (map (λ word. word.now) words.entry.now) ≡ Some request) }
    ensures in_range { IfOk result (λ request. IsPlayInRange request.play) }
    ensures err { IfErr result (MayDecline Executable.Forestplay
        (play_request_of (map (λ word. word.now) words.entry.now)) (map (λ word. word.now) words.entry.now)) }
{
    match matches_of(alloc, Executable::Forestplay, words) {
        Ok(matches) => match choice(&matches) {
            Some(request) => Ok(request),
            None => Err(no_program(alloc, &matches)),
        },
        Err(declined) => Err(declined),
    }
}
