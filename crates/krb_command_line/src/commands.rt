//! krbtool and its commands, as `clap` gets them.

ghost use Rattle.std.specs.Prelude.{◌≡◌, false, fold, IfOk, map};
ghost use Rattle.clap.specs.Words.{app_of, with_rule};
ghost use Rattle.clap.specs.declared.builder.command.Command.TheViews.{out-Command};
ghost use Rattle.krb_command_line.specs.CommandLine.{bare, krbtool, with_command, with_file_commands, with_message_commands};
ghost use Rattle.krb_command_line.specs.Inner.Commands.{app_for, rule_for};

use crate::arguments::{Argument, arg_of};
use crate::table::{ABOUT, FILE_COMMANDS, MESSAGE_COMMANDS, VERSION};
use clap::Command;
use std::alloc::{AllocError, Global};

/// A command: its name, what it does, its operands and options, and what help says at its end.
pub(crate) struct Row<'a> {
    pub(crate) name: &'a str,
    pub(crate) about: &'a str,
    pub(crate) arguments: &'a [Argument<'a>],
    pub(crate) end: &'a str,
}

/// Builds `krbtool` with its commands.
#[tactic(auto, unfolding(crate::specs::CommandLine::krbtool))]
pub(crate) fn krbtool_command<'a>(alloc: Global) -> Result<Command<'a>, AllocError>
    ensures { IfOk result (λ c. app_of c ≡ krbtool) }
{
    let command = with_file_commands(alloc, bare_command(alloc))?;
    with_message_commands(alloc, command)
}

#[tactic(auto, unfolding(crate::specs::CommandLine::with_file_commands))]
fn with_file_commands<'a>(alloc: Global, command: Command<'a>) -> Result<Command<'a>, AllocError>
    ensures { IfOk result (λ c. app_of c ≡ with_file_commands (app_of command.entry)) }
{
    with_rows(alloc, command, &FILE_COMMANDS)
}

#[tactic(auto, unfolding(crate::specs::CommandLine::with_message_commands))]
fn with_message_commands<'a>(alloc: Global, command: Command<'a>) -> Result<Command<'a>, AllocError>
    ensures { IfOk result (λ c. app_of c ≡ with_message_commands (app_of command.entry)) }
{
    with_rows(alloc, command, &MESSAGE_COMMANDS)
}

/// Builds `krbtool` without commands.
pub(crate) fn bare_command<'a>(alloc: Global) -> Command<'a>
    ensures { app_of result ≡ bare }
{
    Command::new(alloc, "krbtool")
        .about(ABOUT)
        .version(VERSION)
        .subcommand_required(true)
}

// The command with these commands below it.
fn with_rows<'a>(
    alloc: Global,
    mut command: Command<'a>,
    rows: &'a [Row<'a>],
) -> Result<Command<'a>, AllocError>
    ensures { IfOk result (λ c. app_of c ≡ fold with_command (app_of command.entry) (map app_for rows.now)) }
{
    for row in rows {
        command = with_row(alloc, command, row)?;
    }
    Ok(command)
}

fn with_row<'a>(
    alloc: Global,
    command: Command<'a>,
    row: &'a Row<'a>,
) -> Result<Command<'a>, AllocError>
    ensures { IfOk result (λ c. app_of c ≡ with_command (app_of command.entry) (app_for row.now)) }
{
    let added = command_of(alloc, row)?;
    command.subcommand(added)
}

fn command_of<'a>(alloc: Global, row: &'a Row<'a>) -> Result<Command<'a>, AllocError>
    ensures app { IfOk result (λ c. app_of c ≡ app_for row.now) }
    ensures local { IfOk result (λ c. (out-Command c).has_globals ≡ false) }
{
    let bare = Command::new(alloc, row.name)
        .about(row.about)
        .after_help(row.end);
    with_arguments(alloc, bare, row.arguments)
}

// The command with these operands and options.
fn with_arguments<'a>(
    alloc: Global,
    mut command: Command<'a>,
    arguments: &'a [Argument<'a>],
) -> Result<Command<'a>, AllocError>
    requires local { (out-Command command).has_globals ≡ false }
    ensures app { IfOk result (λ c. app_of c ≡ fold with_rule (app_of command.entry) (map rule_for arguments.now)) }
    ensures local { IfOk result (λ c. (out-Command c).has_globals ≡ false) }
{
    for argument in arguments {
        command = with_argument(alloc, command, argument)?;
    }
    Ok(command)
}

fn with_argument<'a>(
    alloc: Global,
    command: Command<'a>,
    argument: &Argument<'a>,
) -> Result<Command<'a>, AllocError>
    requires local { (out-Command command).has_globals ≡ false }
    ensures app { IfOk result (λ c. app_of c ≡ with_rule (app_of command.entry) (rule_for argument.now)) }
    ensures local { IfOk result (λ c. (out-Command c).has_globals ≡ false) }
{
    let added = arg_of(alloc, argument)?;
    command.arg(added)
}
