//! What the words of `forestplan` ask for.

ghost use Rattle.std.specs.Prelude.{◌≡◌, Some, IfOk, IfErr, map};
ghost use Rattle.clap.specs.Words.{found_of, rows_of, subcommand_rows_of};
ghost use Rattle.command_line.specs.Asked.{IsInRange, MayDecline, choice_of, request_named, request_of};

use crate::declined::{Declined, matches_of};
use crate::executable::Executable;
use crate::options::{edition_of, options_of};
use clap::ArgMatches;
use run_options::{Edition, Options};
use std::alloc::Global;

/// What `forestplan` is asked for.
#[derive(Clone, Copy, Debug, PartialEq, Eq)]
pub enum Request {
    /// The forests of a network.
    Forests,
    /// A channel plan of a network, by rounds on one thread.
    Plain,
    /// The same plan, by nodes that worker threads run without a common clock.
    Plan(Options),
    /// What each node put, took and did in such a run, in an edition.
    Transcript(Options, Edition),
    /// The verdict on a channel plan of a network.
    Check,
}

fn request_named(name: &str, matches: &ArgMatches<'_>) -> Option<Request>
    ensures { result ≡ request_named name.now (rows_of (found_of matches.now)) }
{
    match name {
        "forests" => Some(Request::Forests),
        "plain" => Some(Request::Plain),
        "plan" => Some(Request::Plan(options_of(matches)?)),
        "transcript" => Some(Request::Transcript(options_of(matches)?, edition_of(matches)?)),
        "check" => Some(Request::Check),
        _ => None,
    }
}

fn choice(matches: &ArgMatches<'_>) -> Option<Request>
    ensures { result ≡ choice_of request_named (subcommand_rows_of matches.now) }
{
    let (name, inner) = matches.subcommand()?;
    request_named(name, inner)
}

/// What the words ask `forestplan` for; the first is its name, and is not looked at.
///
/// # Errors
/// `Help` or `Refused` by the first fault that clap meets in the words. Any call may instead fail with `Memory`.
pub fn parse<'a>(alloc: Global, words: &'a [&'a str]) -> Result<Request, Declined>
    ensures ok { IfOk result (λ request. request_of (map (λ word. word.now) words.entry.now) ≡ Some request) }
    ensures in_range { IfOk result IsInRange }
    ensures err { IfErr result (MayDecline Executable.Forestplan (request_of (map (λ word. word.now) words.entry.now))
        (map (λ word. word.now) words.entry.now)) }
{
    match matches_of(alloc, Executable::Forestplan, words) {
        Ok(matches) => match choice(&matches) {
            Some(request) => Ok(request),
            None => unreachable!(),
        },
        Err(declined) => Err(declined),
    }
}
