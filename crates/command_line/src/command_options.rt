//! The options that commands have, each in `clap`'s builders.

ghost use Rattle.std.specs.Prelude.{◌≡◌, false};
ghost use Rattle.clap.specs.Words.{rule_of};
ghost use Rattle.command_line.specs.Line.{rule_for};
ghost use Rattle.command_line.specs.NodePrograms.{passes_rule, program_rule, root_rule, transcript_rule};
ghost use Rattle.command_line.specs.RunOptions.{capacity_rule, edition_rule, number_rule, turns_rule, workers_rule};

use crate::help::{CAPACITY, EDITION, PASSES, PROGRAM, ROOT, SHOW_TRANSCRIPT, TURNS, WORKERS};
use crate::programs::MAX_PASSES;
use clap::builder::ValueParser;
use clap::{Arg, ArgAction};
use graph_limits::MAX_NODES;
use run_options::{MAX_CAPACITY, MAX_EDITION, MAX_TURNS, MAX_WORKERS};
use std::alloc::Global;

/// An option of a command.
#[derive(Clone, Copy)]
pub enum CommandOption {
    /// How many threads run the nodes.
    Workers,
    /// How many wires a link has room for.
    Capacity,
    /// How often a worker looks for a node.
    Turns,
    /// The edition of a transcript.
    Edition,
    /// The program of the nodes.
    Program,
    /// The root of the layers.
    Root,
    /// How often a recolouring chooses anew.
    Passes,
    /// Whether a transcript is printed.
    Transcript,
}

// An option with a number, of which clap checks the range.
fn number<'a>(
    alloc: Global,
    name: &'a str,
    least: u64,
    most: u64,
    default: &'a str,
    help: &'a str,
) -> Arg<'a>
    ensures rule { rule_of result ≡ number_rule name.entry.now least most default.entry.now }
    ensures local { result.global ≡ false }
{
    Arg::new(alloc, name)
        .long(name)
        .value_name("N")
        .value_parser(ValueParser::unsigned(least, most))
        .default_value(default)
        .help(help)
}

fn workers<'a>(alloc: Global) -> Arg<'a>
    ensures rule { rule_of result ≡ workers_rule }
    ensures local { result.global ≡ false }
{
    number(alloc, "workers", 1, u64::from(MAX_WORKERS), "4", WORKERS)
}

fn capacity<'a>(alloc: Global) -> Arg<'a>
    ensures rule { rule_of result ≡ capacity_rule }
    ensures local { result.global ≡ false }
{
    number(alloc, "capacity", 1, u64::from(MAX_CAPACITY), "4", CAPACITY)
}

fn turns<'a>(alloc: Global) -> Arg<'a>
    ensures rule { rule_of result ≡ turns_rule }
    ensures local { result.global ≡ false }
{
    number(alloc, "turns", 0, MAX_TURNS, "1000000000", TURNS)
}

fn edition<'a>(alloc: Global) -> Arg<'a>
    ensures rule { rule_of result ≡ edition_rule }
    ensures local { result.global ≡ false }
{
    number(alloc, "edition", 1, u64::from(MAX_EDITION), "2", EDITION)
}

fn program<'a>(alloc: Global) -> Arg<'a>
    ensures rule { rule_of result ≡ program_rule }
    ensures local { result.global ≡ false }
{
    Arg::new(alloc, "program")
        .long("program")
        .value_name("NAME")
        .default_value("colouring")
        .help(PROGRAM)
}

fn root<'a>(alloc: Global) -> Arg<'a>
    ensures rule { rule_of result ≡ root_rule }
    ensures local { result.global ≡ false }
{
    Arg::new(alloc, "root")
        .long("root")
        .value_name("V")
        .value_parser(ValueParser::unsigned(1, u64::from(MAX_NODES)))
        .help(ROOT)
}

fn passes<'a>(alloc: Global) -> Arg<'a>
    ensures rule { rule_of result ≡ passes_rule }
    ensures local { result.global ≡ false }
{
    Arg::new(alloc, "passes")
        .long("passes")
        .value_name("N")
        .value_parser(ValueParser::unsigned(1, u64::from(MAX_PASSES)))
        .help(PASSES)
}

fn transcript<'a>(alloc: Global) -> Arg<'a>
    ensures rule { rule_of result ≡ transcript_rule }
    ensures local { result.global ≡ false }
{
    Arg::new(alloc, "transcript")
        .long("transcript")
        .action(ArgAction::SetTrue)
        .help(SHOW_TRANSCRIPT)
}

/// The option in clap's words.
pub fn arg_of<'a>(alloc: Global, option: CommandOption) -> Arg<'a>
    ensures rule { rule_of result ≡ rule_for option }
    ensures local { result.global ≡ false }
{
    match option {
        CommandOption::Workers => workers(alloc),
        CommandOption::Capacity => capacity(alloc),
        CommandOption::Turns => turns(alloc),
        CommandOption::Edition => edition(alloc),
        CommandOption::Program => program(alloc),
        CommandOption::Root => root(alloc),
        CommandOption::Passes => passes(alloc),
        CommandOption::Transcript => transcript(alloc),
    }
}
