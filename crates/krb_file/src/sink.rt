//! What bytes are written to.

ghost use Rattle.std.specs.Prelude.{◌≡◌, ◌<◌, ℕ, List, Option, None, IfOk, is_ok, length, if◌then◌else◌};
ghost use Rattle.std.specs.Io.{WritesAtMost};
ghost use Rattle.std.specs.Io.KnownBytes.{WriteAppends};
ghost use Rattle.krb_file.specs.Flow.{counted};

use std::io::Write;
use thiserror::Error;

/// A write failed, and the sink counted it.
#[derive(Clone, Copy, Debug, PartialEq, Eq, Error)]
#[error("the sink could not be written")]
pub struct SinkFailed;

/// What bytes are written to, piece by piece. It counts the writes that failed.
pub trait Sink {
    /// The bytes that it took, if the sink says which.
    ghost taken: { Self → Option (List ℕ) } = { λ _. None };

    /// How many writes have failed, or 2^64 - 1 if more have.
    ghost failure_count: { Self → ℕ };

    /// Returns how many writes have failed, or 18,446,744,073,709,551,615 if more have.
    fn failures(&self) -> u64
        ensures { result ≡ failure_count self.now };

    /// Takes the first of `bytes`, and returns how many bytes it took: at most all of them, and at
    /// least one if there is one. The count of failures grows by one with each `Err`, which takes
    /// no byte, and not otherwise. It stays at 18,446,744,073,709,551,615 once it is there.
    fn write(&mut self, bytes: &[u8]) -> Result<usize, SinkFailed>
        ensures bound { WritesAtMost result bytes.now }
        ensures some { IfOk result (λ count. 0 < length bytes.now → 0 < count) }
        ensures bytes { WriteAppends (taken self.old) (taken self.new) result bytes.now }
        ensures failed { failure_count self.new
            ≡ counted (failure_count self.old) (if is_ok result then 0 else 1) };
}

impl<S: Sink> Sink for &mut S {
    ghost taken = { λ sink. S.taken sink.now };

    ghost failure_count = { λ sink. S.failure_count sink.now };

    fn failures(&self) -> u64 {
        Sink::failures(&**self)
    }

    fn write(&mut self, bytes: &[u8]) -> Result<usize, SinkFailed> {
        Sink::write(&mut **self, bytes)
    }
}

/// Makes a sink of any writer. Every error of the writer counts as a failed write, and so does an
/// `Ok(0)` if there was a byte to write.
#[derive(Drop)]
pub struct WriteSink<W> {
    writer: W,
    failures: u64,
}

impl<W: Write> WriteSink<W> {
    ghost use Rattle.krb_file.specs.Flow.{sink_writer, sink_failures};

    /// Writes to `writer`; no write has failed yet.
    pub fn new(writer: W) -> Self
        ensures writer { sink_writer result ≡ writer }
        ensures failures { sink_failures result ≡ 0 }
    {
        WriteSink {
            writer,
            failures: 0,
        }
    }

    /// Returns the writer itself.
    pub fn into_inner(self) -> W
        ensures { result ≡ sink_writer self }
    {
        let WriteSink {
            writer,
            failures: _,
        } = self;
        writer
    }
}

impl<W: Write> Sink for WriteSink<W> {
    ghost use Rattle.krb_file.specs.Flow.{sink_writer, sink_failures};

    ghost taken = { λ sink. W.contents (sink_writer sink) };

    ghost failure_count = { sink_failures };

    fn failures(&self) -> u64 {
        self.failures
    }

    fn write(&mut self, bytes: &[u8]) -> Result<usize, SinkFailed> {
        match self.writer.write(bytes) {
            Ok(count) if count > 0 || bytes.is_empty() => Ok(count),
            _ => {
                self.failures = self.failures.saturating_add(1);
                Err(SinkFailed)
            }
        }
    }
}
