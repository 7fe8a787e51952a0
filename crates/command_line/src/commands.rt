//! The commands of the two programs: each is a row.

use crate::command_options::CommandOption;
use crate::help;
use crate::help::Help;

/// A command: its name, what its help says, and its options in their order.
#[derive(Clone, Copy)]
pub struct CommandRow {
    pub name: &'static str,
    pub help: Help,
    pub options: &'static [CommandOption],
}

// The options of commands.
const NONE: &'static [CommandOption] = &[];

const OF_WORKERS: &'static [CommandOption] = &[
    CommandOption::Workers,
    CommandOption::Capacity,
    CommandOption::Turns,
];

const OF_A_TRANSCRIPT: &'static [CommandOption] = &[
    CommandOption::Workers,
    CommandOption::Capacity,
    CommandOption::Turns,
    CommandOption::Edition,
];

const OF_A_PROGRAM: &'static [CommandOption] = &[
    CommandOption::Program,
    CommandOption::Root,
    CommandOption::Passes,
];

const OF_A_RUN: &'static [CommandOption] = &[
    CommandOption::Program,
    CommandOption::Root,
    CommandOption::Passes,
    CommandOption::Workers,
    CommandOption::Capacity,
    CommandOption::Turns,
    CommandOption::Transcript,
];

const OF_A_RUN_ALONE: &'static [CommandOption] = &[
    CommandOption::Program,
    CommandOption::Root,
    CommandOption::Passes,
    CommandOption::Transcript,
];

/// The commands of `forestplan`.
pub const PLAN_COMMANDS: [CommandRow; 5] = [
    CommandRow {
        name: "forests",
        help: help::FORESTS,
        options: NONE,
    },
    CommandRow {
        name: "plain",
        help: help::PLAIN,
        options: NONE,
    },
    CommandRow {
        name: "plan",
        help: help::PLAN,
        options: OF_WORKERS,
    },
    CommandRow {
        name: "transcript",
        help: help::TRANSCRIPT,
        options: OF_A_TRANSCRIPT,
    },
    CommandRow {
        name: "check",
        help: help::CHECK,
        options: NONE,
    },
];

/// The commands of `forestplay`.
pub const PLAY_COMMANDS: [CommandRow; 6] = [
    CommandRow {
        name: "events",
        help: help::EVENTS,
        options: OF_A_PROGRAM,
    },
    CommandRow {
        name: "replay",
        help: help::REPLAY,
        options: OF_A_PROGRAM,
    },
    CommandRow {
        name: "rounds",
        help: help::ROUNDS,
        options: OF_A_PROGRAM,
    },
    CommandRow {
        name: "run",
        help: help::RUN,
        options: OF_A_RUN,
    },
    CommandRow {
        name: "alone",
        help: help::ALONE,
        options: OF_A_RUN_ALONE,
    },
    CommandRow {
        name: "ends",
        help: help::ENDS,
        options: OF_A_PROGRAM,
    },
];
