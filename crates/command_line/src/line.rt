//! The commands in `clap`'s builders.

ghost use Rattle.std.specs.Prelude.{◌≡◌, IfOk};
ghost use Rattle.std.specs.List.{fold};
ghost use Rattle.clap.specs.Words.{app_of, new_app, with_subcommand};
ghost use Rattle.command_line.specs.Line.{IsLocal, line, with_option, with_row, without_commands};

use crate::command_options::{CommandOption, arg_of};
use crate::commands::{CommandRow, PLAN_COMMANDS, PLAY_COMMANDS};
use crate::executable::Executable;
use crate::help;
use crate::help::Help;
use clap::Command;
use std::alloc::{AllocError, Global};

// A program with no command yet. Its texts say its name whatever file it is started from.
fn without_commands<'a>(alloc: Global, name: &'a str, help: Help) -> Result<Command<'a>, AllocError>
    ensures shape { IfOk result (λ c. app_of c ≡ without_commands name.entry.now) }
    ensures local { IfOk result IsLocal }
{
    command(alloc, name, help)
        .subcommand_required(true)
        .disable_help_subcommand(true)
        .bin_name(name)
}

// A command with no options.
fn command<'a>(alloc: Global, name: &'a str, help: Help) -> Command<'a>
    ensures shape { app_of result ≡ new_app name.entry.now }
    ensures local { IsLocal result }
{
    Command::new(alloc, name)
        .about(help.about)
        .long_about(help.long_about)
        .after_help(help.format)
}

// A command with one option more.
fn with_option<'a>(
    alloc: Global,
    command: Command<'a>,
    option: CommandOption,
) -> Result<Command<'a>, AllocError>
    requires { IsLocal command }
    ensures shape { IfOk result (λ c. app_of c ≡ with_option (app_of command.entry) option) }
    ensures local { IfOk result IsLocal }
{
    command.arg(arg_of(alloc, option))
}

// A command with these options.
fn with_options<'a>(
    alloc: Global,
    mut command: Command<'a>,
    options: &[CommandOption],
) -> Result<Command<'a>, AllocError>
    requires { IsLocal command }
    ensures shape { IfOk result (λ c. app_of c ≡ fold with_option (app_of command.entry) options.now) }
    ensures local { IfOk result IsLocal }
{
    for option in options {
        command = with_option(alloc, command, *option)?;
    }
    Ok(command)
}

fn with_command<'a>(command: Command<'a>, sub: Command<'a>) -> Result<Command<'a>, AllocError>
    requires locals { IsLocal command }
    requires local { IsLocal sub }
    ensures shape { IfOk result (λ c. app_of c ≡ with_subcommand (app_of command.entry) (app_of sub.entry).top) }
    ensures local { IfOk result IsLocal }
{
    command.subcommand(sub)
}

// A program with one command more.
fn with_row<'a>(
    alloc: Global,
    program: Command<'a>,
    row: CommandRow,
) -> Result<Command<'a>, AllocError>
    requires { IsLocal program }
    ensures shape { IfOk result (λ c. app_of c ≡ with_row (app_of program.entry) row) }
    ensures local { IfOk result IsLocal }
{
    let sub = with_options(alloc, command(alloc, row.name, row.help), row.options)?;
    with_command(program, sub)
}

// A program with these commands.
fn with_rows<'a>(
    alloc: Global,
    mut program: Command<'a>,
    rows: &[CommandRow],
) -> Result<Command<'a>, AllocError>
    requires { IsLocal program }
    ensures shape { IfOk result (λ c. app_of c ≡ fold with_row (app_of program.entry) rows.now) }
    ensures local { IfOk result IsLocal }
{
    for row in rows {
        program = with_row(alloc, program, *row)?;
    }
    Ok(program)
}

/// The whole command line of an executable.
///
/// # Errors
/// If memory ran out.
pub fn whole_line<'a>(alloc: Global, executable: Executable) -> Result<Command<'a>, AllocError>
    ensures shape { IfOk result (λ c. app_of c ≡ line executable) }
    ensures local { IfOk result IsLocal }
{
    match executable {
        Executable::Forestplan => {
            let program = without_commands(alloc, "forestplan", help::FORESTPLAN)?;
            with_rows(alloc, program, &PLAN_COMMANDS)
        }
        Executable::Forestplay => {
            let program = without_commands(alloc, "forestplay", help::FORESTPLAY)?;
            with_rows(alloc, program, &PLAY_COMMANDS)
        }
    }
}
