//! Calls of the libraries below the files that the library for C doesn't make as they are, for tests that stand as data (tests/support/calls.py):
//! one call for each line of standard input, and one line of standard output for each.
//!
//! A line is a call and its arguments, as the functions `answer` of `sealing`, `elements`, `messages` and `tokens`, and the others that are called
//! below, list them. `new` is answered `new`, and a line that can't be read `bad line`. Numbers are decimal, times are seconds from
//! 1970-01-01T00:00:00Z on, and bytes are hexadecimal digits: `-` if there are none, `HEX*N` for HEX N times, several such joined by `+`. An answer
//! shows more than 1,024 bytes as `#LENGTH:SHA256`. A fault is shown by its text, as `Tag at 5`; a field that is left out is `none`; a list
//! stands in `[` and `]`.
#![tactic(auto)]

mod blocks;
mod codes;
mod elements;
mod field_words;
mod messages;
mod order;
mod sealing;
mod shapes;
mod tokens;
mod types;
mod views;

use krb_words::{Answer, Calls, Words, answer_lines};
use std::alloc::Global;
use std::process::ExitCode;

fn main(rt: HostRuntime) -> ExitCode {
    answer_lines::<Nothing>(&rt)
}

/// No line makes anything for a later one.
#[derive(Drop)]
struct Nothing;

impl Calls for Nothing {
    fn new(_: Global) -> Nothing {
        Nothing
    }

    fn call(&mut self, words: &mut Words, out: &mut Answer) -> Option<()> {
        match words.next()? {
            "aes" => blocks::answer_aes(words, out),
            "blocks" => blocks::answer_blocks(words, out),
            "cts" => blocks::answer_cts(words, out),
            "hmac" => codes::answer_hmac(words, out),
            "derive" => codes::answer_derive(words, out),
            "enc" => sealing::answer(words, out),
            "types" => sealing::show_types(out),
            "faults" => sealing::show_faults(out),
            "window" => order::answer(words, out),
            "der" => elements::answer(words, out),
            "msg" => messages::answer(words, out),
            "gss" => tokens::answer(words, out),
            _ => None,
        }
    }
}
