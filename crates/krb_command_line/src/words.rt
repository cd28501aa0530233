//! The words of a command line.

ghost use Rattle.std.specs.Prelude.{◌≡◌, IfOk, IfSome, map};
ghost use Rattle.std.specs.List.{list_any};
ghost use Rattle.std.specs.Str.{bytes_eq};
ghost use Rattle.clap.specs.Words.{subcommand_of, subcommand_rows_of};
ghost use Rattle.krb_command_line.specs.CommandLine.{krbtool, IsCommand};
ghost use Rattle.krb_command_line.specs.Commands.{commands};

use crate::command_line::Command;
use crate::commands::{bare_command, krbtool_command};
use crate::reading::command_named;
use crate::table::NAMES;
use clap::error::ErrorKind;
use clap::{ArgMatches, Error};
use std::alloc::{AllocError, Global};

// What clap's matches ask for.
fn command_of<'a>(matches: &ArgMatches<'a>) -> Option<Command<'a>>
    ensures { IfSome result (λ command. IsCommand command (subcommand_rows_of matches.now)) }
{
    let (name, matches) = matches.subcommand()?;
    command_named(name, matches)
}

// What clap matches of the words.
fn matches_of<'a>(alloc: Global, words: &'a [&'a str]) -> Result<ArgMatches<'a>, Error>
    ensures { IfOk result (λ m. subcommand_rows_of m ≡ subcommand_of krbtool (map (λ w. w.now) words.entry.now)) }
{
    krbtool_command(alloc)?.try_get_matches_from(words)
}

/// Answers what the words of a command line ask for; the first is the program's name.
///
/// # Errors
/// `clap`'s own: a fault of the words, help if it was asked for, or out of memory.
pub fn read_words<'a>(alloc: Global, words: &'a [&'a str]) -> Result<Command<'a>, Error>
    ensures command { IfOk result (λ command. IsCommand command (subcommand_of krbtool (map (λ w. w.now) words.entry.now))) }
{
    let matches = matches_of(alloc, words)?;
    match command_of(&matches) {
        Some(command) => Ok(command),
        None => Err(no_command(alloc)?),
    }
}

// clap refuses words without a command, so this is never said.
fn no_command(alloc: Global) -> Result<Error, AllocError> {
    bare_command(alloc).error(ErrorKind::InvalidSubcommand, "no such command")
}

/// Returns whether a command of krbtool has this name.
pub fn is_command(word: &str) -> bool
    ensures { result ≡ list_any (λ entry. bytes_eq entry.name word.now) commands }
{
    is_among(&NAMES, word)
}

fn is_among(names: &[&str], word: &str) -> bool
    ensures { result ≡ list_any (λ name. bytes_eq name.now word.now) names.now }
{
    names.iter().any(|name| *name == word)
}
