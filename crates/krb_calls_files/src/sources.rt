//! Sources, and windows over them.

use crate::files::{cache, credentials, entries, keytab, made};
use crate::values::show;
use krb_file::{PieceSource, ReadSource, SliceSource, Source, Window};
use krb_words::{Answer, Words};
use std::io;
use std::io::{ErrorKind, Read};

// A reader that gives one byte, then fails, and then is at its end.
#[derive(Drop)]
struct Flaky {
    calls: u8,
}

impl Read for Flaky {
    fn read(&mut self, buffer: &mut [u8]) -> io::Result<usize> {
        self.calls = self.calls.saturating_add(1);
        match self.calls {
            1 if !buffer.is_empty() => {
                buffer[0] = 7;
                Ok(1)
            }
            1 | 2 => Err(io::Error::from(ErrorKind::Other)),
            _ => Ok(0),
        }
    }
}

/// Opens something over a source of bytes.
pub(crate) fn open(what: &str, words: &mut Words, out: &mut Answer) -> Option<()> {
    let source = words.next()?;
    let bytes = words.bytes()?;
    match source {
        "slice" => over(SliceSource::new(&bytes), what, words, out),
        "reader" => over(ReadSource::new(bytes.as_slice()), what, words, out),
        "flaky" => over(ReadSource::new(Flaky { calls: 0 }), what, words, out),
        _ => over(pieces_of(source, &bytes)?, what, words, out),
    }
}

// Reads a source of pieces: `piece:N` or `piece:N:K`.
fn pieces_of<'a>(word: &str, bytes: &'a [u8]) -> Option<PieceSource<'a>> {
    let parts = word.strip_prefix("piece:")?;
    let (piece, failing) = match parts.split_once(':') {
        Some((piece, failing)) => (piece, Some(failing.parse::<u64>().ok()?)),
        None => (parts, None),
    };
    let piece = piece.parse::<usize>().ok()?;
    if piece == 0 {
        return None;
    }
    Some(PieceSource::new(bytes, piece, failing))
}

fn over<S: Source + Drop>(
    source: S,
    what: &str,
    words: &mut Words,
    out: &mut Answer,
) -> Option<()> {
    match what {
        "made" => made(source, words, out),
        "window" => window(Window::new(words.alloc, source), words, out),
        "entries" => entries(source, words, out),
        "credentials" => credentials(source, words, out),
        _ => lent(source, what, words, out),
    }
}

fn lent<S: Source + Drop>(
    source: S,
    what: &str,
    words: &mut Words,
    out: &mut Answer,
) -> Option<()> {
    let mut source = source;
    match what {
        "source" => read_from(&mut source, words, out)?,
        "keytab" => keytab(&mut source, words, out)?,
        "cache" => cache(&mut source, words, out)?,
        _ => return None,
    }
    give_back(source, out)
}

/// Shows how many reads of a source failed, and how many bytes are left of it. A read that fails then is made again: each source fails
/// once at most.
pub(crate) fn give_back<S: Source + Drop>(source: S, out: &mut Answer) -> Option<()> {
    let mut source = source;
    out.word("failures");
    out.shown(source.failures());
    out.word("left");
    out.shown(left_of(&mut source))
}

fn left_of<S: Source>(source: &mut S) -> u64 {
    let mut buffer = [0u8; 4_096];
    let mut left = 0u64;
    for _ in 0..u64::MAX {
        match source.read(&mut buffer) {
            Ok(0) => break,
            Ok(count) => left = left.saturating_add(count as u64),
            Err(_) => {}
        }
    }
    left
}

// Reads so many bytes at a time of a source, which is lent.
fn read_from<S: Source + Drop>(source: S, words: &mut Words, out: &mut Answer) -> Option<()> {
    let mut source = source;
    for _ in 0..u64::MAX {
        if words.is_at_end() {
            break;
        }
        read_once(&mut source, words, out)?;
    }
    Some(())
}

fn read_once<S: Source>(source: &mut S, words: &mut Words, out: &mut Answer) -> Option<()> {
    let mut buffer = vec![in words.alloc; 0u8; words.size()?].ok()?;
    match source.read(&mut buffer) {
        Ok(count) => out.bytes(buffer.get(..count)?),
        Err(fault) => out.named(fault),
    }
}

fn window<S: Source + Drop>(window: Window<S>, words: &mut Words, out: &mut Answer) -> Option<()> {
    let mut window = window;
    for _ in 0..u64::MAX {
        if words.is_at_end() {
            break;
        }
        call_window(&mut window, words, out)?;
    }
    give_back(window.into_source(), out)
}

fn call_window<S: Source>(
    window: &mut Window<S>,
    words: &mut Words,
    out: &mut Answer,
) -> Option<()> {
    match words.next()? {
        "fill" => fill(window, words.uint32()? as usize, out),
        "skip" => skip(window, words.uint32()? as usize, out),
        "run-out" => show(window.run_out(words.uint32()? as usize), out),
        "clear" => {
            window.clear();
            Some(())
        }
        what => show_window(window, what, out),
    }
}

fn fill<S: Source>(window: &mut Window<S>, count: usize, out: &mut Answer) -> Option<()> {
    window.given().checked_add(count)?;
    show(window.fill(count), out)
}

fn skip<S: Source>(window: &mut Window<S>, count: usize, out: &mut Answer) -> Option<()> {
    window.given().checked_add(count)?;
    show(window.skip(count), out)
}

fn show_window<S: Source>(window: &Window<S>, what: &str, out: &mut Answer) -> Option<()> {
    match what {
        "bytes" => out.bytes(window.bytes()),
        "held" => out.shown(window.held()),
        "given" => out.shown(window.given()),
        "failures" => out.shown(window.source().failures()),
        _ => None,
    }
}
