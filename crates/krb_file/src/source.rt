//! What bytes are read from.

ghost use Rattle.std.specs.Prelude.{◌≡◌, ℕ, List, Option, None, is_ok, if◌then◌else◌};
ghost use Rattle.std.specs.Io.{ReadsAtMost};
ghost use Rattle.std.specs.Io.KnownBytes.{ReadConsumes};
ghost use Rattle.krb_file.specs.Flow.{counted};

use std::io::Read;
use thiserror::Error;

/// A read failed, and the source counted it.
#[derive(Clone, Copy, Debug, PartialEq, Eq, Error)]
#[error("the source could not be read")]
pub struct SourceFailed;

/// What bytes are read from, piece by piece. It counts the reads that failed.
pub trait Source {
    /// The bytes that are still to come, if the source says which.
    ghost remaining: { Self → Option (List ℕ) } = { λ _. None };

    /// How many reads have failed, or 2^64 - 1 if more have.
    ghost failure_count: { Self → ℕ };

    /// The name of the reference through which a borrowed source is used, which no call changes; 0 for
    /// any other source.
    ghost lender: { Self → ℕ } = { λ _. 0 };

    /// Returns how many reads have failed, or 18,446,744,073,709,551,615 if more have.
    fn failures(&self) -> u64
        ensures { result ≡ failure_count self.now };

    /// Reads into the start of `buffer`, and returns how many bytes came: at most as many as the
    /// buffer has room for. If it has room, `Ok(0)` means the end of the bytes. The count of
    /// failures grows by one with each `Err`, which loses no byte, and not otherwise. It stays at
    /// 18,446,744,073,709,551,615 once it is there.
    fn read(&mut self, buffer: &mut [u8]) -> Result<usize, SourceFailed>
        ensures bound { ReadsAtMost result buffer.new }
        ensures bytes { ReadConsumes (remaining self.old) (remaining self.new) result buffer.new }
        ensures failed { failure_count self.new
            ≡ counted (failure_count self.old) (if is_ok result then 0 else 1) }
        ensures lent { lender self.new ≡ lender self.old };
}

impl<S: Source> Source for &mut S {
    ghost remaining = { λ source. S.remaining source.now };

    ghost failure_count = { λ source. S.failure_count source.now };

    ghost lender = { λ source. source.ghost_name };

    fn failures(&self) -> u64 {
        Source::failures(&**self)
    }

    fn read(&mut self, buffer: &mut [u8]) -> Result<usize, SourceFailed> {
        Source::read(&mut **self, buffer)
    }
}

/// Makes a source of any reader. Every error of the reader counts as a failed read.
#[derive(Drop)]
pub struct ReadSource<R> {
    reader: R,
    failures: u64,
}

impl<R: Read> ReadSource<R> {
    ghost use Rattle.krb_file.specs.Flow.{source_reader, source_failures};

    /// Reads from `reader`; no read has failed yet.
    pub fn new(reader: R) -> Self
        ensures reader { source_reader result ≡ reader }
        ensures failures { source_failures result ≡ 0 }
    {
        ReadSource {
            reader,
            failures: 0,
        }
    }
}

impl<R: Read> Source for ReadSource<R> {
    ghost use Rattle.krb_file.specs.Flow.{source_reader, source_failures};

    ghost remaining = { λ source. R.remaining (source_reader source) };

    ghost failure_count = { source_failures };

    fn failures(&self) -> u64 {
        self.failures
    }

    fn read(&mut self, buffer: &mut [u8]) -> Result<usize, SourceFailed> {
        match self.reader.read(buffer) {
            Ok(count) => Ok(count),
            Err(_) => {
                self.failures = self.failures.saturating_add(1);
                Err(SourceFailed)
            }
        }
    }
}
