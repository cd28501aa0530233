//! Running a command over files: the files are opened, the engine runs, a fault is printed, and the status is returned.

ghost use Rattle.std.specs.Prelude.{◌≡◌, ◌≢◌, ◌≤◌, ◌⊎◌, None, IfErr, IfOk, OnOk};
ghost use Rattle.krb_file_commands.specs.Status as status;
ghost use Rattle.krb_file.specs.Flow.{source_failures};

use crate::engine::{Ended, Product, produce};
use crate::failure::{FAILED, Failure};
use crate::fault_lines::{FaultLine, fault_line, file_line, memory_line, same_line, write_line};
use crate::new_file::{OWNER_ALONE, close_to_others};
use crate::one_file::is_open_file;
use krb_file::{ReadSource, WriteSink};
use std::fs::{File, OpenFile, OpenOptions};
use std::io;
use std::io::{BufReader, Read, Write};
use std::os::unix::fs::OpenOptionsExt;
use std::rt::Files;

// How many bytes of a file are read at a time.
const PIECE: usize = 65_536;

/// Runs a command of this name over the file, and returns the exit status. What it makes is printed on standard output, or written
/// into OUT, which is made or emptied before the file is read. If OUT is that file itself, it is refused and stays as it is.
pub fn run_product<R: AllocGlobal + Files + Print + Eprint, P: Product>(
    rt: &R,
    product: &P,
    command: &str,
    file: &str,
    out: Option<&str>,
) -> u8
    ensures known { result ≤ 3 }
    ensures ran { result ≢ 2 }
{
    let opened = match open_file(rt, file) {
        Ok(opened) => opened,
        Err(status) => return status,
    };
    let ended = match out {
        Some(path) => match make_out(rt, &opened, path) {
            Ok(mut made) => {
                let ended = run_into(rt, product, command, opened, &mut made);
                on_disk(rt, ended, &made, path)
            }
            Err(status) => return status,
        },
        None => run_into(rt, product, command, opened, io::writer(rt)),
    };
    match ended {
        Ok(ended) => conclude(rt, ended, command, file, out),
        Err(status) => status,
    }
}

fn run_into<R: AllocGlobal + Eprint, P: Product, F: Read + Drop, W: Write + Drop>(
    rt: &R,
    product: &P,
    command: &str,
    file: F,
    writer: W,
) -> Result<Result<usize, Ended<P::Fault>>, u8>
    ensures { IfErr result (λ status. status ≡ 3) }
{
    let mut source = source_of(rt, file, command)?;
    let mut sink = WriteSink::new(writer);
    Ok(produce(rt.alloc(), &mut source, &mut sink, product))
}

// Waits until the disk has what ended well in OUT: some file systems report only then that there was no room. If it can't have
// that, it is printed, and the exit status is the error.
fn on_disk<R: Eprint, F: OpenFile, E: Drop>(
    rt: &R,
    ended: Result<Result<usize, E>, u8>,
    out: &F,
    path: &str,
) -> Result<Result<usize, E>, u8>
    requires { IfErr ended (λ status. status ≡ 3) }
    ensures { IfErr result (λ status. status ≡ 3) }
{
    match ended {
        Ok(Ok(_)) if !is_on_disk(out) => Err(complain(rt, file_line(path), FAILED)),
        _ => ended,
    }
}

// Waits until the disk has what a file holds, and returns whether it has. What isn't a file on a disk has nothing to wait for.
fn is_on_disk<F: OpenFile>(file: &F) -> bool {
    match file.metadata() {
        Ok(found) => !found.is_file() || file.sync_all().is_ok(),
        Err(_) => false,
    }
}

/// Opens a file. If it can't be opened, that is printed, and the exit status is the error.
pub fn open_file<R: Files + Eprint>(rt: &R, file: &str) -> Result<R::File, u8>
    ensures { IfErr result (λ status. status ≡ 3) }
{
    match File::open(rt, file) {
        Ok(opened) => Ok(opened),
        Err(_) => Err(complain(rt, file_line(file), FAILED)),
    }
}

/// Makes a source of a file for the command. What is asked of it a few bytes at a time is read in pieces of 65,536 bytes. If there
/// is no memory for a piece, that is printed, and the exit status is the error.
pub fn source_of<R: AllocGlobal + Eprint, F: Read + Drop>(
    rt: &R,
    file: F,
    command: &str,
) -> Result<ReadSource<BufReader<F>>, u8>
    ensures source { IfOk result (λ source. source_failures source ≡ 0) }
    ensures status { IfErr result (λ status. status ≡ 3) }
{
    match BufReader::with_capacity(rt.alloc(), PIECE, file) {
        Ok(reader) => Ok(ReadSource::new(reader)),
        Err(_) => Err(complain(rt, memory_line(command), FAILED)),
    }
}

// Makes OUT, for its owner alone since it holds keys; or empties the one that is there, whose mode stays but for what it lets others
// do. If that fails, or OUT is the file that is open, it is printed, and the exit status is the error.
fn make_out<R: Files + Eprint>(rt: &R, opened: &R::File, out: &str) -> Result<R::File, u8>
    ensures { IfErr result (λ status. status ≡ 3) }
{
    if is_open_file(rt, opened, out) {
        return Err(complain(rt, same_line(out), FAILED));
    }
    let mut options = OpenOptions::new();
    let options = options
        .write(true)
        .create(true)
        .truncate(true)
        .mode(OWNER_ALONE);
    match options.open(rt, out) {
        Ok(made) => {
            close_to_others(&made);
            Ok(made)
        }
        Err(_) => Err(complain(rt, file_line(out), FAILED)),
    }
}

// Prints how a command ended, if that isn't what it printed itself, and returns the exit status.
fn conclude<R: Print + Eprint, E: Failure>(
    rt: &R,
    ended: Result<usize, Ended<E>>,
    command: &str,
    file: &str,
    out: Option<&str>,
) -> u8
    ensures printed { out.entry ≡ None → OnOk ended (result ≡ 0) }
    ensures told { OnOk ended ((result ≡ 0) ⊎ (result ≡ 3)) }
    ensures fault { IfErr ended (λ e. result ≡ status.of_ended E.exit_status e) }
    ensures known { result ≤ 3 }
    ensures ran { result ≢ 2 }
{
    match ended {
        Ok(count) => match out {
            Some(_) => tell_wrote(rt, count),
            None => 0,
        },
        Err(fault) => match (fault, out) {
            (Ended::Write, Some(path)) => complain(rt, file_line(path), FAILED),
            _ => complain_of(rt, &fault, file, command),
        },
    }
}

/// Prints how many bytes were written, and returns the status.
pub(crate) fn tell_wrote<R: Print + Eprint>(rt: &R, count: usize) -> u8
    ensures { (result ≡ 0) ⊎ (result ≡ 3) }
{
    match println!(rt; "wrote {count}") {
        Ok(()) => 0,
        Err(_) => complain(rt, write_line(), FAILED),
    }
}

/// Prints a fault of a command on this file, and returns the exit status.
pub fn complain_of<R: Eprint, F: Failure>(rt: &R, fault: &F, file: &str, command: &str) -> u8
    ensures status { result ≡ F.exit_status fault.now }
    ensures failed { 1 ≤ result }
    ensures known { result ≤ 3 }
    ensures ran { result ≢ 2 }
{
    let name = fault.named(file, command);
    complain(rt, fault_line(name, fault), fault.status())
}

/// Prints the line, and returns the status.
pub fn complain<R: Eprint>(rt: &R, line: FaultLine<'_>, status: u8) -> u8
    ensures { result ≡ status }
{
    let _ = eprintln!(rt; "{line}");
    status
}
