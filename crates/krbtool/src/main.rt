//! krbtool: works with the files of Kerberos clients and services, and is a client or a service itself.
//!
//! `main` reads the command line and runs the command that it asks for. What the words mean is said by
//! `krb_command_line`, and what a command answers by the crates `krb_file_commands`, `krb_client_commands` and
//! `krb_service_command`.
#![tactic(auto)]

mod run;
mod streams;

ghost use Rattle.std.specs.Prelude.{◌≡◌, ◌≤◌, ◌⊎◌};

use crate::run::run;
use crate::streams::{NOWHERE, hold_streams};
use clap::error::ErrorKind;
use krb_command_line::{is_command, read_words};
use krb_file_commands::{FAILED, WRONG_WORDS, complain, file_line, memory_line, write_line};
use std::alloc::{AllocError, Global};
use std::io;
use std::process::ExitCode;

fn main(rt: HostRuntime) -> ExitCode {
    let Ok(_held) = hold_streams(&rt) else {
        return ExitCode::from(complain(&rt, file_line(NOWHERE), FAILED));
    };
    ExitCode::from(answer(&rt))
}

// Does what the words of the command line ask for, and returns the exit status.
fn answer(rt: &HostRuntime) -> u8
    ensures { result ≤ 3 }
{
    let given = match given_words(rt) {
        Ok(given) => given,
        Err(error) => return refuse_words(rt, error.kind()),
    };
    let Ok(words) = lent_words(rt.alloc(), &given) else {
        return refuse_memory(rt, &given);
    };
    match read_words(rt.alloc(), &words) {
        Ok(command) => run(rt, command),
        Err(error) if error.kind() == ErrorKind::OutOfMemory => refuse_memory(rt, &given),
        Err(error) => show(rt, &error),
    }
}

// Reports that the arguments can't be read, and returns the exit status for that.
fn refuse_words(rt: &HostRuntime, kind: io::ErrorKind) -> u8
    ensures { (result ≡ 2) ⊎ (result ≡ 3) }
{
    match kind {
        io::ErrorKind::OutOfMemory => refuse_memory(rt, &[]),
        _ => {
            let _ = eprintln!(rt; "krbtool: an argument isn't valid UTF-8");
            WRONG_WORDS
        }
    }
}

// Says that memory ran out while these words were read, and returns the exit status for that.
fn refuse_memory(rt: &HostRuntime, given: &[String]) -> u8
    ensures { result ≡ 3 }
{
    let name = match given.get(1) {
        Some(word) if is_command(word) => word,
        _ => "words",
    };
    complain(rt, memory_line(name), FAILED)
}

fn given_words(rt: &HostRuntime) -> io::Result<Vec<String>> {
    Ok(std::env::args(rt)?.collect(rt.alloc())?)
}

fn lent_words(alloc: Global, given: &[String]) -> Result<Vec<&str>, AllocError> {
    given.iter().map(|word| word.as_str()).collect(alloc)
}

// Prints clap's text: help that was asked for on standard output, a fault on standard error.
fn show(rt: &HostRuntime, error: &clap::Error) -> u8
    ensures { result ≤ 3 }
{
    let printed = error.print(rt);
    match error.kind() {
        ErrorKind::DisplayHelp | ErrorKind::DisplayVersion => match printed {
            Ok(()) => 0,
            Err(_) => complain(rt, write_line(), FAILED),
        },
        _ => WRONG_WORDS,
    }
}
