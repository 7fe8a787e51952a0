//! The options of a run of workers, as a command line gives them.

ghost use Rattle.std.specs.Prelude.{◌≡◌, ◌^◌};
ghost use Rattle.clap.specs.Words.{found_of, rows_of};
ghost use Rattle.command_line.specs.RunOptions.{edition_of, number_of, options_of};

use clap::ArgMatches;
use run_options::{Edition, Options};

/// The number that an option has, if it fits.
pub fn small_number(matches: &ArgMatches<'_>, name: &str) -> Option<u32>
    ensures { result ≡ number_of (2 ^ 32) name.now (rows_of (found_of matches.now)) }
{
    matches.get_one::<u32>(name)
}

fn great_number(matches: &ArgMatches<'_>, name: &str) -> Option<u64>
    ensures { result ≡ number_of (2 ^ 64) name.now (rows_of (found_of matches.now)) }
{
    matches.get_one::<u64>(name)
}

/// The options that a command has, from the words or by default. `transcript` is false: the call that runs the nodes
/// sets it.
pub fn options_of(matches: &ArgMatches<'_>) -> Option<Options>
    ensures { result ≡ options_of (rows_of (found_of matches.now)) }
{
    let workers = small_number(matches, "workers")?;
    let capacity = small_number(matches, "capacity")?;
    let turns = great_number(matches, "turns")?;
    Some(Options {
        workers,
        capacity,
        turns,
        transcript: false,
    })
}

/// The edition that a command has, from the words or by default.
pub fn edition_of(matches: &ArgMatches<'_>) -> Option<Edition>
    ensures { result ≡ edition_of (rows_of (found_of matches.now)) }
{
    match small_number(matches, "edition")? {
        1 => Some(Edition::One),
        _ => Some(Edition::Two),
    }
}
