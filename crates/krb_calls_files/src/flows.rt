//! Calls of cursors and sinks.

use crate::values::show;
use krb_file::{FileCursor, PieceSink, Short, Sink, WriteSink, write_all};
use krb_words::{Answer, Words};
use std::io;
use std::io::{ErrorKind, Write};

/// Reads fields.
pub(crate) fn cursor(words: &mut Words, out: &mut Answer) -> Option<()> {
    let bytes = words.bytes()?;
    read_fields(FileCursor::new(&bytes), words, out)
}

fn read_fields(mut cursor: FileCursor, words: &mut Words, out: &mut Answer) -> Option<()> {
    for _ in 0..u64::MAX {
        if words.is_at_end() {
            break;
        }
        read_field(&mut cursor, words, out)?;
    }
    Some(())
}

fn read_field(cursor: &mut FileCursor, words: &mut Words, out: &mut Answer) -> Option<()> {
    match words.next()? {
        "u8" => show(cursor.read_u8(), out),
        "u16" => show(cursor.read_u16(), out),
        "u32" => show(cursor.read_u32(), out),
        "i16" => show(cursor.read_i16(), out),
        "i32" => show(cursor.read_i32(), out),
        what => read_bytes(cursor, what, words, out),
    }
}

fn read_bytes(
    cursor: &mut FileCursor,
    what: &str,
    words: &mut Words,
    out: &mut Answer,
) -> Option<()> {
    match what {
        "data16" => show_field(cursor.read_data16(), out),
        "data32" => show_field(cursor.read_data32(), out),
        "bytes" => show_field(cursor.read_bytes(words.size()?), out),
        "at" => out.shown(cursor.at()),
        "rest" => out.bytes(cursor.rest()),
        "is-at-end" => out.truth(cursor.is_at_end()),
        _ => None,
    }
}

fn show_field(answer: Result<&[u8], Short>, out: &mut Answer) -> Option<()> {
    match answer {
        Ok(bytes) => out.bytes(bytes),
        Err(fault) => out.named(fault),
    }
}

// A writer that fails at its first call, takes nothing at the second, and then all.
#[derive(Drop)]
struct Slow {
    calls: u8,
    taken: Vec<u8>,
}

impl Write for Slow {
    fn write(&mut self, buffer: &[u8]) -> io::Result<usize> {
        self.calls = self.calls.saturating_add(1);
        match self.calls {
            1 => Err(io::Error::from(ErrorKind::Other)),
            2 => Ok(0),
            _ => self.taken.write(buffer),
        }
    }

    fn flush(&mut self) -> io::Result<()> {
        Ok(())
    }
}

/// Opens a sink.
pub(crate) fn sink(words: &mut Words, out: &mut Answer) -> Option<()> {
    match words.next()? {
        "pieces" => pieces(words, out),
        "writer" => writer(words, out),
        _ => None,
    }
}

fn pieces(words: &mut Words, out: &mut Answer) -> Option<()> {
    let mut room = vec![in words.alloc; 0u8; words.size()?].ok()?;
    let piece = words.size()?;
    let failing = words.uint32_or_none()?;
    let mut sink = PieceSink::new(&mut room, piece.max(1), failing.map(u64::from));
    write_to(&mut sink, words, out)?;
    out.bytes(sink.taken())
}

fn writer(words: &mut Words, out: &mut Answer) -> Option<()> {
    let calls = words.next()?.parse::<u8>().ok()?;
    let taken = Vec::new(words.alloc);
    let mut sink = WriteSink::new(Slow { calls, taken });
    write_to(&mut sink, words, out)?;
    out.bytes(&sink.into_inner().taken)
}

// Makes the calls of a sink, which is lent.
fn write_to<S: Sink + Drop>(sink: S, words: &mut Words, out: &mut Answer) -> Option<()> {
    let mut sink = sink;
    for _ in 0..u64::MAX {
        if words.is_at_end() {
            break;
        }
        write_once(&mut sink, words, out)?;
    }
    Some(())
}

fn write_once<S: Sink>(sink: &mut S, words: &mut Words, out: &mut Answer) -> Option<()> {
    match words.next()? {
        "write" => show(sink.write(&words.bytes()?), out),
        "write-all" => write_whole(sink, &words.bytes()?, out),
        "failures" => out.shown(sink.failures()),
        _ => None,
    }
}

fn write_whole<S: Sink>(sink: &mut S, bytes: &[u8], out: &mut Answer) -> Option<()> {
    match write_all(sink, bytes) {
        Ok(()) => out.word("ok"),
        Err(fault) => out.named(fault),
    }
}
