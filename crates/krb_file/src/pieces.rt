//! Sources and sinks for tests. They move a few bytes in each call, and fail if a test asks for it.

ghost use Rattle.std.specs.Prelude.{ℕ, ◌≡◌, ◌≢◌, ◌-◌, ◌<◌, ◌≤◌, ◌↔◌, min, Some, None, IfOk, IsErr, IsOk, drop, is_ok, length, take, [], if◌then◌else◌};
ghost use Rattle.std.specs.Io.{ReadsAtMost, WritesAtMost};
ghost use Rattle.std.specs.Io.KnownBytes.{ReadConsumes, WriteAppends};
ghost use Rattle.krb_file.specs.Flow.{counted};
ghost use Rattle.krb_file.specs.Pieces.{Pieces, SinkPieces, fails_next};

use crate::sink::{Sink, SinkFailed};
use crate::source::{Source, SourceFailed};
use std::marker::Model;

/// A source over a slice that gives a few bytes in each read, and fails once if it is asked to.
#[derive(Drop)]
pub struct PieceSource<'a> {
    rest: &'a [u8],
    piece: usize,
    fails_in: Option<u64>,
    failures: u64,
}

impl<'a> Model for PieceSource<'a> {
    ghost Value = { Pieces };

    ghost view = { λ s. record {
      bytes = s.rest.now;
      piece = s.piece;
      fails_in = s.fails_in;
      failures = s.failures;
    } };

    ghost invariant = { λ s. 0 < s.piece };
}

impl<'a> PieceSource<'a> {
    /// Gives `bytes`, at most `piece` of them in each read. Read number `failing`, counted from 1,
    /// fails; with `None` or 0 none does.
    ///
    /// Condition: `piece` is at least 1.
    pub fn new(bytes: &'a [u8], piece: usize, failing: Option<u64>) -> Self
        requires { 0 < piece }
        ensures { result ≡ record {
          bytes = bytes.now;
          piece = piece;
          fails_in = failing;
          failures = 0;
        } }
    {
        PieceSource {
            rest: bytes,
            piece,
            fails_in: failing,
            failures: 0,
        }
    }
}

impl Source for PieceSource<'_> {
    ghost remaining = { λ s. Some s.bytes };

    ghost failure_count = { λ s. s.failures };

    fn failures(&self) -> u64 {
        self.failures
    }

    fn read(&mut self, buffer: &mut [u8]) -> Result<usize, SourceFailed>
        ensures bound { ReadsAtMost result buffer.new }
        ensures bytes { ReadConsumes (Some self.old.bytes) (Some self.new.bytes) result buffer.new }
        ensures failed { self.new.failures ≡ counted self.old.failures (if is_ok result then 0 else 1) }
        ensures lent { ◌≡◌ {A = ℕ} 0 0 }
        ensures fails { IsErr result ↔ (self.old.fails_in ≡ Some 1) }
        ensures count { IfOk result (λ n.
            n ≡ min (min self.old.piece (length buffer.old)) (length self.old.bytes)) }
        ensures rest { IfOk result (λ n. drop n buffer.new ≡ drop n buffer.old) }
        ensures next { self.new.fails_in ≡ fails_next self.old.fails_in }
        ensures piece { self.new.piece ≡ self.old.piece }
    {
        let fails = self.fails_in == Some(1);
        self.fails_in = counted_down(self.fails_in);
        if fails {
            self.failures = self.failures.saturating_add(1);
            return Err(SourceFailed);
        }
        let count = self.piece.min(buffer.len()).min(self.rest.len());
        let (front, rest) = self.rest.split_at(count);
        buffer[..count].copy_from_slice(front);
        self.rest = rest;
        Ok(count)
    }
}

/// A sink over a slice that takes a few bytes in each write. It fails once if it is asked to, and at
/// each write for which the slice has no room.
#[derive(Drop)]
pub struct PieceSink<'a> {
    room: &'a mut [u8],
    len: usize,
    piece: usize,
    fails_in: Option<u64>,
    failures: u64,
}

impl<'a> Model for PieceSink<'a> {
    ghost Value = { SinkPieces };

    ghost view = { λ s. record {
      pieces = record {
        bytes = take s.len s.room.now;
        piece = s.piece;
        fails_in = s.fails_in;
        failures = s.failures;
      };
      size = length s.room.now;
    } };

    ghost invariant = { λ s. (0 < s.piece) × (s.len ≤ length s.room.now) };
}

impl<'a> PieceSink<'a> {
    /// Takes bytes into `room`, at most `piece` of them in each write. Write number `failing`,
    /// counted from 1, fails; with `None` or 0 none does.
    ///
    /// Condition: `piece` is at least 1.
    pub fn new(room: &'a mut [u8], piece: usize, failing: Option<u64>) -> Self
        requires { 0 < piece }
        ensures { result ≡ record {
          pieces = record { bytes = []; piece = piece; fails_in = failing; failures = 0 };
          size = length room.old;
        } }
    {
        PieceSink {
            room,
            len: 0,
            piece,
            fails_in: failing,
            failures: 0,
        }
    }

    /// Returns the bytes that it took.
    pub fn taken(&self) -> &[u8]
        ensures { result.now ≡ self.now.pieces.bytes }
    {
        &self.room[..self.len]
    }
}

impl Sink for PieceSink<'_> {
    ghost taken = { λ s. Some s.pieces.bytes };

    ghost failure_count = { λ s. s.pieces.failures };

    fn failures(&self) -> u64 {
        self.failures
    }

    fn write(&mut self, bytes: &[u8]) -> Result<usize, SinkFailed>
        ensures bound { WritesAtMost result bytes.now }
        ensures some { IfOk result (λ count. 0 < length bytes.now → 0 < count) }
        ensures bytes { WriteAppends (Some self.old.pieces.bytes) (Some self.new.pieces.bytes)
            result bytes.now }
        ensures failed { self.new.pieces.failures
            ≡ counted self.old.pieces.failures (if is_ok result then 0 else 1) }
        ensures fails { self.old.pieces.fails_in ≡ Some 1 → IsErr result }
        ensures full { length self.old.pieces.bytes ≡ self.old.size → 0 < length bytes.now → IsErr result }
        ensures goes { self.old.pieces.fails_in ≢ Some 1
            → length self.old.pieces.bytes < self.old.size → IsOk result }
        ensures empty { self.old.pieces.fails_in ≢ Some 1 → bytes.now ≡ [] → IsOk result }
        ensures count { IfOk result (λ n. n ≡ min (min self.old.pieces.piece (length bytes.now))
            (self.old.size - length self.old.pieces.bytes)) }
        ensures next { self.new.pieces.fails_in ≡ fails_next self.old.pieces.fails_in }
        ensures piece { self.new.pieces.piece ≡ self.old.pieces.piece }
        ensures size { self.new.size ≡ self.old.size }
    {
        let fails = self.fails_in == Some(1);
        self.fails_in = counted_down(self.fails_in);
        let room = self.room.len() - self.len;
        let count = self.piece.min(bytes.len()).min(room);
        if fails || (count == 0 && !bytes.is_empty()) {
            self.failures = self.failures.saturating_add(1);
            return Err(SinkFailed);
        }
        let end = self.len + count;
        self.room[self.len..end].copy_from_slice(&bytes[..count]);
        self.len = end;
        Ok(count)
    }
}

fn counted_down(fails_in: Option<u64>) -> Option<u64>
    ensures { result ≡ fails_next fails_in }
{
    match fails_in {
        Some(calls) if calls > 1 => Some(calls - 1),
        _ => None,
    }
}
