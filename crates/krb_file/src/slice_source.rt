//! A source over bytes in memory.

ghost use Rattle.std.specs.Prelude.{◌≡◌, ℕ, List, Some, Ok, IfOk, drop, is_ok, length, min, if◌then◌else◌};
ghost use Rattle.std.specs.Io.{ReadsAtMost};
ghost use Rattle.std.specs.Io.KnownBytes.{ReadConsumes};
ghost use Rattle.krb_file.specs.Flow.{counted};

use crate::source::{Source, SourceFailed};
use std::marker::Model;

/// A source over bytes in memory, which never fails. A contract sees it as the list of the bytes
/// that are still to come.
#[derive(Drop)]
pub struct SliceSource<'a> {
    rest: &'a [u8],
}

impl<'a> Model for SliceSource<'a> {
    ghost Value = { List ℕ };

    ghost view = { λ s. s.rest.now };
}

impl<'a> SliceSource<'a> {
    /// Gives `bytes`.
    pub fn new(bytes: &'a [u8]) -> Self
        ensures { result ≡ bytes.now }
    {
        SliceSource { rest: bytes }
    }
}

impl Source for SliceSource<'_> {
    ghost remaining = { λ bytes. Some bytes };

    ghost failure_count = { λ _. 0 };

    fn failures(&self) -> u64 {
        0
    }

    fn read(&mut self, buffer: &mut [u8]) -> Result<usize, SourceFailed>
        ensures bound { ReadsAtMost result buffer.new }
        ensures bytes { ReadConsumes (Some self.old) (Some self.new) result buffer.new }
        ensures failed { 0 ≡ counted 0 (if is_ok result then 0 else 1) }
        ensures lent { ◌≡◌ {A = ℕ} 0 0 }
        ensures count { result ≡ Ok (min (length buffer.old) (length self.old)) }
        ensures rest { IfOk result (λ n. drop n buffer.new ≡ drop n buffer.old) }
    {
        let count = buffer.len().min(self.rest.len());
        let (front, rest) = self.rest.split_at(count);
        buffer[..count].copy_from_slice(front);
        self.rest = rest;
        Ok(count)
    }
}
