//! Makes calls of lists, names, sources, keytabs and credential caches that the library for C doesn't make, or doesn't show in full,
//! for tests that stand as data (tests/support/calls.py): one call for each line of standard input, and one line of standard output
//! for each. (What the library for C shows is tested through it: tests/support/files_in_c.py.)
//!
//! Single spaces stand between words. Bytes are written as `krb_words` says, a name as `TYPE/TEXT`, and a fault as `Debug` shows it. A
//! text of more than 1,024 bytes is shown as `#LENGTH:SHA256`. SOURCE is `slice`, `reader`, `piece:N` (N bytes a read), `piece:N:K`, whose
//! Kth read fails, or `flaky`, a reader that gives one byte, fails and is at its end. What was opened over a source gives it back at the
//! end of the line: `failures` and the reads that failed, and `left` and how many bytes it still gives.
//!
//! ```text
//! laws                               calls the laws, which do nothing
//! fault KIND INDEX                   a fault of a kind (name, read, flow, keytab, cache): its text, and of a file its offset or `none`
//! index HASH FROM COUNT|none NUMBERS the places of the hash, from one on; with a COUNT, after `fill`. NUMBERS are words, NUMBER^N is N times it
//! maxima LEAST NUMBERS               the places of the numbers that are found and cleared, one after another
//! name NAME TYPE ROOM REALM [COMPONENT ..]  a copy of the name of these parts: how many components it has, whether none, which, and
//!                                    the name; whether NAME is the same name, and has the same hash, components and realm
//! bytes BYTES BYTES                  of the first as they are pushed: how many, and whether none; as they are copied, and a copy of that;
//!                                    and whether the second are the same
//! list COUNT [TYPE BYTES ..]         a list of typed bytes: whether it is empty, and its elements
//! cursor BYTES CALL ..               u8, u16, u32, i16, i32, data16, data32, bytes COUNT, at, rest, is-at-end
//! sink pieces ROOM N K|none CALL ..  a sink of N bytes a write, whose Kth write fails: write BYTES, write-all BYTES, failures; and what it took
//! sink writer CALLS CALL ..          a sink over a writer that fails at its call number 1 and takes nothing at number 2; CALLS were made
//! source SOURCE BYTES COUNT ..       reads of so many bytes
//! window SOURCE BYTES CALL ..        fill COUNT, skip COUNT, run-out LIMIT, clear, bytes, held, given, failures
//! entries SOURCE FILE CALL ..        next, pass, held, failures
//! credentials SOURCE FILE CALL ..    the default principal and the offset; and the same calls
//! keytab SOURCE FILE                 the entries
//! keytab SOURCE FILE NAME ETYPE KVNO|none   what is picked
//! cache SOURCE FILE                  the default principal, the offset and the credentials; and the bytes as they are written
//! cache SOURCE FILE SERVER           the credentials for this server: their indices, and what `Debug` shows
//! made SOURCE FILE COUNT [TAG BYTES ..] [SERVER]   the same of a cache that is made of these fields, and of the credentials of the file
//! ```
#![tactic(auto)]

mod faults;
mod files;
mod flows;
mod lists;
mod sources;
mod values;

use krb_words::{Answer, Calls, Words, answer_lines};
use std::alloc::Global;
use std::process::ExitCode;

fn main(rt: HostRuntime) -> ExitCode {
    answer_lines::<Nothing>(&rt)
}

// Nothing is kept from line to line.
#[derive(Drop)]
struct Nothing;

impl Calls for Nothing {
    fn new(_: Global) -> Nothing {
        Nothing
    }

    fn call(&mut self, words: &mut Words, out: &mut Answer) -> Option<()> {
        match words.next()? {
            "laws" => faults::laws(out),
            "fault" => faults::fault(words, out),
            "index" => lists::index(words, out),
            "maxima" => lists::maxima(words, out),
            "name" => values::name(words, out),
            "bytes" => values::bytes(words, out),
            "list" => values::list(words, out),
            "cursor" => flows::cursor(words, out),
            "sink" => flows::sink(words, out),
            what => sources::open(what, words, out),
        }
    }
}
