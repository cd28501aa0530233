//! The lines that the program prints of faults.

ghost use Rattle.std.specs.Prelude.{◌≡◌, None, codes};
ghost use Rattle.krb_file_commands.specs.FaultText.{line_of, name_text};

use crate::failure::{Failure, FailureText};
use krb_name::TextFault;
use std::fmt;
use std::marker::Model;

/// A line for standard error: `krbtool: NAME: FAULT`, with ` at OFFSET` if the fault has one. A
/// contract sees it as its text.
#[derive(Drop)]
pub struct FaultLine<'a> {
    name: &'a str,
    fault: &'static str,
    at: Option<usize>,
}

impl<'a> Model for FaultLine<'a> {
    ghost use Rattle.std.specs.Prelude.{List, ℕ};
    ghost use Rattle.krb_file_commands.specs.FaultText.{line_of};

    ghost Value = { List ℕ };

    ghost view = { λ l. line_of l.name.now (l.fault.now, l.at) };
}

impl fmt::Display for FaultLine<'_> {
    ghost use Rattle.std.specs.Prelude.{Some};

    ghost output = { λ text. Some text };

    fn fmt<W: fmt::Write>(&self, f: &mut fmt::Formatter<W>) -> fmt::Result {
        let name = self.name;
        let fault = self.fault;
        match self.at {
            Some(at) => write!(f, "krbtool: {name}: {fault} at {at}"),
            None => write!(f, "krbtool: {name}: {fault}"),
        }
    }
}

/// Gives the line for a fault of what has this name: a file as it was given, `output`, `input`, or
/// a command. `Input` is printed as `Read`. It takes no memory.
pub fn fault_line<'a, F: Failure>(name: &'a str, fault: &F) -> FaultLine<'a>
    ensures { result ≡ line_of name.entry.now (F.printed fault.now) }
{
    let (fault, at) = fault.text();
    FaultLine { name, fault, at }
}

/// Gives the line for a file that can't be opened or written. It takes no memory.
pub fn file_line(name: &str) -> FaultLine<'_>
    ensures { result ≡ line_of name.entry.now (codes "File", None) }
{
    plain(name, "File")
}

/// Gives the line for a file to write that is the one that is read. It takes no memory.
pub(crate) fn same_line(name: &str) -> FaultLine<'_>
    ensures { result ≡ line_of name.entry.now (codes "SameFile", None) }
{
    plain(name, "SameFile")
}

/// Gives the line for an argument of this name that isn't the name of a service. It takes no memory.
pub fn name_line<'a>(argument: &'a str, fault: &TextFault) -> FaultLine<'a>
    ensures { result ≡ line_of argument.entry.now (name_text fault.now) }
{
    let (fault, at) = name_text(fault);
    FaultLine {
        name: argument,
        fault,
        at,
    }
}

fn name_text(fault: &TextFault) -> FailureText
    ensures { (result.0.now, result.1) ≡ name_text fault.now }
{
    match fault {
        TextFault::BadText { at } => ("BadText", Some(*at)),
        TextFault::NoRealm => ("NoRealm", None),
        TextFault::OutOfMemory => ("OutOfMemory", None),
    }
}

/// Gives the line for an argument of this name that isn't one of its words. It takes no memory.
pub fn word_line(argument: &str) -> FaultLine<'_>
    ensures { result ≡ line_of argument.entry.now (codes "BadWord", None) }
{
    plain(argument, "BadWord")
}

/// Gives the line for a command that picked an entry of a type that isn't usable. It takes no memory.
pub(crate) fn type_line(command: &str) -> FaultLine<'_>
    ensures { result ≡ line_of command.entry.now (codes "UnusableType", None) }
{
    plain(command, "UnusableType")
}

/// Gives the line for an argument of this name that isn't in hexadecimal, or not of the right length. It takes no memory.
pub fn hex_line(argument: &str) -> FaultLine<'_>
    ensures { result ≡ line_of argument.entry.now (codes "BadHex", None) }
{
    plain(argument, "BadHex")
}

/// Gives the line for what memory ran out for. It takes no memory.
pub fn memory_line(name: &str) -> FaultLine<'_>
    ensures { result ≡ line_of name.entry.now (codes "OutOfMemory", None) }
{
    plain(name, "OutOfMemory")
}

/// Gives the line for standard output that can't be written. It takes no memory.
pub fn write_line() -> FaultLine<'static>
    ensures { result ≡ line_of (codes "output") (codes "Write", None) }
{
    plain("output", "Write")
}

fn plain<'a>(name: &'a str, fault: &'static str) -> FaultLine<'a>
    ensures { result ≡ line_of name.entry.now (fault.now, None) }
{
    FaultLine {
        name,
        fault,
        at: None,
    }
}
