//! A program of calls: it answers each line of standard input.

use crate::answer::Answer;
use crate::words::Words;
use std::alloc::Global;
use std::io::{self, BufRead, BufReader, BufWriter, Write};
use std::process::ExitCode;

/// What a program of calls keeps from line to line.
pub trait Calls: Sized + Drop {
    /// Keeps nothing yet.
    fn new(alloc: Global) -> Self;

    /// Makes the call that the words say, and answers it. `None` if they say none.
    fn call(&mut self, words: &mut Words, out: &mut Answer) -> Option<()>;
}

/// Answers each line of standard input with one line of standard output, and returns the exit status:
/// 2 if a line couldn't be read or written.
///
/// The line `new` drops what earlier lines made, and is answered `new`. A line that says no call, or
/// whose answer isn't whole, is answered `bad line`.
pub fn answer_lines<C: Calls>(rt: &HostRuntime) -> ExitCode {
    match answer_all::<C>(rt) {
        Ok(()) => ExitCode::from(0),
        Err(_) => ExitCode::from(2),
    }
}

fn answer_all<C: Calls>(rt: &HostRuntime) -> io::Result<()> {
    let mut out = BufWriter::new(rt.alloc(), io::writer(rt))?;
    answer_each::<C, _>(rt, &mut out)?;
    out.flush()
}

fn answer_each<C: Calls, W: Write>(rt: &HostRuntime, out: &mut W) -> io::Result<()> {
    let alloc = rt.alloc();
    let mut calls = C::new(alloc);
    for line in BufReader::new(alloc, rt.reader())?.lines(alloc) {
        answer_line(alloc, &mut calls, line?.as_str(), out)?;
    }
    Ok(())
}

fn answer_line<C: Calls, W: Write>(
    alloc: Global,
    calls: &mut C,
    line: &str,
    out: &mut W,
) -> io::Result<()> {
    let mut answer = Answer::new(alloc);
    if line == "new" {
        *calls = C::new(alloc);
        return writeln!(out, "new");
    }
    let text = match call(calls, &mut Words::new(alloc, line), &mut answer) {
        Some(()) => answer.text(),
        None => "bad line",
    };
    writeln!(out, "{text}")
}

fn call<C: Calls>(calls: &mut C, words: &mut Words, out: &mut Answer) -> Option<()> {
    calls.call(words, out)?;
    out.whole()?;
    if words.is_at_end() { Some(()) } else { None }
}
