//! Writing what a command made into a file that it may have read.

ghost use Rattle.std.specs.Prelude.{◌≡◌, ◌≢◌, ◌≤◌, ◌⊎◌, IfErr};
ghost use Rattle.krb_file_commands.specs.Tasks.{name_of, out_of};

use crate::engine::Product;
use crate::failure::FAILED;
use crate::fault_lines::{file_line, memory_line};
use crate::new_file::NewFile;
use crate::replacing::replace;
use crate::run::{complain, complain_of, open_file, source_of, tell_wrote};
use crate::target::{Target, target_of};
use std::fs::{Metadata, OpenOptions};
use std::io;
use std::io::{ErrorKind, Write};
use std::path::PathBuf;
use std::random::RandomSource;
use std::rt::Files;

// The name of standard output, which is written as it is open.
const STANDARD_OUTPUT: &str = "/dev/stdout";

/// What a command writes.
#[derive(Clone, Copy)]
pub(crate) enum Out<'a> {
    /// The file of this name, which it read.
    Input(&'a str),
    /// What this names.
    Named(&'a str),
}

impl<'a> Out<'a> {
    /// What this option names, or else the file that is read.
    pub(crate) fn of(option: Option<&'a str>, file: &'a str) -> Out<'a>
        ensures { result ≡ out_of option.entry file.entry }
    {
        match option {
            Some(name) => Out::Named(name),
            None => Out::Input(file),
        }
    }

    fn name(self) -> &'a str
        ensures { result ≡ name_of self.entry }
    {
        match self {
            Out::Input(name) | Out::Named(name) => name,
        }
    }
}

// What was written.
enum Stored {
    /// A regular file.
    File,
    /// Anything else, as standard output.
    Other,
}

/// Runs a command of this name over the file, and returns the exit status. What it makes is written as `store` says, once all is
/// made.
pub(crate) fn run_storing<R: AllocGlobal + Files + RandomSource + Print + Eprint, P: Product>(
    rt: &R,
    product: &P,
    command: &str,
    file: &str,
    out: Out<'_>,
) -> u8
    ensures known { result ≤ 3 }
    ensures ran { result ≢ 2 }
{
    match make(rt, product, command, file) {
        Ok(Ok(bytes)) => store(rt, &bytes, command, out),
        Ok(Err(fault)) => complain_of(rt, &fault, file, command),
        Err(status) => status,
    }
}

// What the command makes of the file. If the file can't be read, that is printed, and the exit status is the error.
fn make<R: AllocGlobal + Files + Eprint, P: Product>(
    rt: &R,
    product: &P,
    command: &str,
    file: &str,
) -> Result<Result<Vec<u8>, P::Fault>, u8>
    ensures { IfErr result (λ status. status ≡ 3) }
{
    let opened = open_file(rt, file)?;
    let mut source = source_of(rt, opened, command)?;
    Ok(product.make(rt.alloc(), &mut source))
}

/// Writes what a command made, and returns the exit status. If that fails, a fault is printed.
///
/// A regular file, or none yet, is replaced by a new file, and how many bytes it has is printed; after a fault it is as it was. The new
/// file has the mode 0600, or as far as possible the owner, the group and the mode of the old one without what that lets others do.
/// Anything else is written as it is, if it isn't the input.
pub(crate) fn store<R: AllocGlobal + Files + RandomSource + Print + Eprint>(
    rt: &R,
    bytes: &[u8],
    command: &str,
    out: Out<'_>,
) -> u8
    ensures { (result ≡ 0) ⊎ (result ≡ 3) }
{
    match write_out(rt, out, bytes) {
        Ok(Stored::File) => tell_wrote(rt, bytes.len()),
        Ok(Stored::Other) => 0,
        Err(error) if error.kind() == ErrorKind::OutOfMemory => {
            complain(rt, memory_line(command), FAILED)
        }
        Err(_) => complain(rt, file_line(out.name()), FAILED),
    }
}

fn write_out<R: AllocGlobal + Files + RandomSource + Print>(
    rt: &R,
    out: Out<'_>,
    bytes: &[u8],
) -> io::Result<Stored> {
    match out {
        Out::Named(STANDARD_OUTPUT) => write_other(io::writer(rt), bytes),
        _ => match (target_of(rt, out.name())?, out) {
            (Target::File { path, old }, _) => write_file(rt, path, old, bytes),
            (Target::Other, Out::Named(name)) => {
                write_other(OpenOptions::new().append(true).open(rt, name)?, bytes)
            }
            (Target::Other, Out::Input(_)) => Err(io::Error::from(ErrorKind::Unsupported)),
        },
    }
}

fn write_file<R: AllocGlobal + Files + RandomSource>(
    rt: &R,
    path: PathBuf,
    old: Option<Metadata>,
    bytes: &[u8],
) -> io::Result<Stored> {
    let mut files = NewFile::new(rt, path, old)?;
    match replace(&mut files, bytes) {
        Ok(()) => Ok(Stored::File),
        Err(_) => Err(io::Error::from(ErrorKind::Other)),
    }
}

fn write_other<W: Write + Drop>(mut to: W, bytes: &[u8]) -> io::Result<Stored> {
    to.write_all(bytes)?;
    Ok(Stored::Other)
}
