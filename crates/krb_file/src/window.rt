//! The bytes of a source that are held.

ghost use Rattle.std.specs.Prelude.{◌≡◌, ◌+◌, ◌-◌, ◌^◌, ◌<◌, ◌≤◌, ℕ, [], length, take, is_ok, if◌then◌else◌, OnOk};
ghost use Rattle.krb_file.specs.Flow.{counted, failed_reads};
ghost use Rattle.krb_file.specs.Window.{Keeps, Skips, Fills, Passes, RunsOut};
ghost use Rattle.krb_file.specs.Inner.Window.{ReadsAt, ComesOnce};

use crate::reading::ReadFault;
use crate::source::{Source, SourceFailed};
use std::alloc::{AllocError, Global};
use std::marker::Model;

// How many bytes are asked of a source at a time, if they are kept and if they aren't.
const PIECE: usize = 65_536;

const PASSED: usize = 4_096;

/// A source, and those of its bytes that are held, in one buffer.
///
/// Counts the bytes that the source has given, and knows the most that were held at once. Never
/// asks the source for more bytes than a call says.
#[derive(Drop)]
pub struct Window<S> {
    source: S,
    // Those that are held, and then room for others, which has been filled before.
    bytes: Vec<u8>,
    len: usize,
    peak: usize,
    given: usize,
}

impl<S> Model for Window<S> {
    ghost use Rattle.std.specs.Prelude.{◌≤◌, length, take};
    ghost use Rattle.krb_file.specs.Window.{AtHand};

    ghost Value = { AtHand S };

    ghost view = { λ w. record {
      source = w.source;
      bytes = take w.len w.bytes.items;
      peak = w.peak;
      given = w.given;
    } };

    ghost invariant = { λ w. (w.len ≤ length w.bytes.items) × (w.len ≤ w.peak) };
}

impl<S: Source> Window<S> {
    /// Holds no byte of `source` yet, and allocates no memory.
    pub fn new(alloc: Global, source: S) -> Self
        ensures { result ≡ record { source = source; bytes = []; peak = 0; given = 0 } }
    {
        Window {
            source,
            bytes: Vec::new(alloc),
            len: 0,
            peak: 0,
            given: 0,
        }
    }

    /// Returns the source.
    pub fn source(&self) -> &S
        ensures { result.now ≡ self.now.source }
    {
        &self.source
    }

    /// Returns the source itself.
    pub fn into_source(self) -> S
        ensures { result ≡ self.source }
    {
        let Window {
            source,
            bytes: _,
            len: _,
            peak: _,
            given: _,
        } = self;
        source
    }

    /// Returns the bytes that are held.
    pub fn bytes(&self) -> &[u8]
        ensures { result.now ≡ self.now.bytes }
    {
        &self.bytes[..self.len]
    }

    /// Returns how many bytes were held at once at most.
    pub fn held(&self) -> usize
        ensures peak { result ≡ self.now.peak }
        ensures within { length self.now.bytes ≤ result }
    {
        self.peak
    }

    /// Returns how many bytes the source has given in all.
    pub fn given(&self) -> usize
        ensures { result ≡ self.now.given }
    {
        self.given
    }

    /// Discards the held bytes. Their memory is kept for others.
    pub fn clear(&mut self)
        ensures { self.new ≡ record self.old { bytes = [] } }
    {
        self.len = 0;
    }

    /// Takes `count` bytes of the source, appends them to those held, and returns whether so many
    /// came. Fewer come only if the source ends.
    ///
    /// They are read in pieces of at most 65,536, and the buffer grows as they come.
    ///
    /// Condition: `count` and the bytes given so far are fewer than 18,446,744,073,709,551,616.
    ///
    /// # Errors
    /// After each of these, the bytes that came before it are held.
    /// - `Read`: a read failed.
    /// - `OutOfMemory`: there is no memory for the bytes.
    pub fn fill(&mut self, count: usize) -> Result<bool, ReadFault>
        requires count { self.old.given + count < 2 ^ 64 }
        ensures fills { Fills (S.remaining self.old.source) (S.remaining self.new.source)
            self.old self.new count result }
        ensures failed { S.failure_count self.new.source
            ≡ counted (S.failure_count self.old.source) (failed_reads result) }
        ensures lent { S.lender self.new.source ≡ S.lender self.old.source }
    {
        let _peak = self.peak;
        let mut left = count;
        while left > 0 {
            let came = self.fill_some(left)?;
            if came == 0 {
                return Ok(false);
            }
            left -= came;
        }
        Ok(true)
    }

    /// Takes `count` bytes of the source, keeps none of them, and returns whether so many came.
    /// Fewer come only if the source ends. Allocates no memory.
    ///
    /// Condition: that of `fill`.
    ///
    /// # Errors
    /// `SourceFailed`: a read failed.
    pub fn skip(&mut self, count: usize) -> Result<bool, SourceFailed>
        requires count { self.old.given + count < 2 ^ 64 }
        ensures passes { Passes (S.remaining self.old.source) (S.remaining self.new.source)
            self.old self.new count result }
        ensures failed { S.failure_count self.new.source
            ≡ counted (S.failure_count self.old.source) (if is_ok result then 0 else 1) }
        ensures lent { S.lender self.new.source ≡ S.lender self.old.source }
    {
        let mut left = count;
        while left > 0 {
            let passed = self.skip_some(left)?;
            if passed == 0 {
                return Ok(false);
            }
            left -= passed;
        }
        Ok(true)
    }

    /// Reads the source to its end, or until it has given one byte more than `limit` in all, keeps
    /// none of the bytes, and returns whether it ended before that. If it had given more than `limit`
    /// before, nothing is read. Allocates no memory.
    ///
    /// Condition: `limit` is below 18,446,744,073,709,551,615.
    ///
    /// # Errors
    /// `SourceFailed`: a read failed.
    pub fn run_out(&mut self, limit: usize) -> Result<bool, SourceFailed>
        requires limit { limit < 2 ^ 64 - 1 }
        ensures runs_out { RunsOut (S.remaining self.old.source) (S.remaining self.new.source)
            self.old self.new limit result }
        ensures failed { S.failure_count self.new.source
            ≡ counted (S.failure_count self.old.source) (if is_ok result then 0 else 1) }
        ensures lent { S.lender self.new.source ≡ S.lender self.old.source }
    {
        while self.given() <= limit {
            let most = limit - self.given() + 1;
            if self.skip_some(most)? == 0 {
                return Ok(true);
            }
        }
        Ok(false)
    }

    // Asks the source once for at most `most` bytes, which are then at hand.
    fn fill_some(&mut self, most: usize) -> Result<usize, ReadFault>
        requires some { 0 < most }
        requires most { self.old.given + most < 2 ^ 64 }
        ensures keeps { ComesOnce Keeps (S.remaining self.old.source) (S.remaining self.new.source)
            self.old self.new most result }
        ensures failed { S.failure_count self.new.source
            ≡ counted (S.failure_count self.old.source) (failed_reads result) }
        ensures lent { S.lender self.new.source ≡ S.lender self.old.source }
    {
        let came = read_at(&mut self.source, &mut self.bytes, self.len, most.min(PIECE))?;
        self.len += came;
        self.peak = self.peak.max(self.len);
        self.given += came;
        Ok(came)
    }

    // Asks the source once for at most `most` bytes, and keeps none of them.
    fn skip_some(&mut self, most: usize) -> Result<usize, SourceFailed>
        requires some { 0 < most }
        requires most { self.old.given + most < 2 ^ 64 }
        ensures skips { ComesOnce Skips (S.remaining self.old.source) (S.remaining self.new.source)
            self.old self.new most result }
        ensures failed { S.failure_count self.new.source
            ≡ counted (S.failure_count self.old.source) (if is_ok result then 0 else 1) }
        ensures lent { S.lender self.new.source ≡ S.lender self.old.source }
    {
        let mut passed = [0u8; PASSED];
        let came = self.source.read(&mut passed[..most.min(PASSED)])?;
        self.given += came;
        Ok(came)
    }
}

// Asks a source once for at most `most` bytes, and puts those that come at a place in `bytes`. What is
// before that place stays.
fn read_at<S: Source>(
    source: &mut S,
    bytes: &mut Vec<u8>,
    at: usize,
    most: usize,
) -> Result<usize, ReadFault>
    requires some { 0 < most }
    requires most { most ≤ 65536 }
    requires at { at ≤ length bytes.old.items }
    ensures at { ReadsAt (S.remaining source.old) (S.remaining source.new)
        bytes.old.items bytes.new.items at most result }
    ensures failed { S.failure_count source.new
        ≡ counted (S.failure_count source.old) (failed_reads result) }
    ensures lent { S.lender source.new ≡ S.lender source.old }
{
    let end = at + most;
    make_room(bytes, end)?;
    Ok(source.read(&mut bytes[at..end])?)
}

// Makes the bytes at least so many. Those that are there stay.
fn make_room(bytes: &mut Vec<u8>, len: usize) -> Result<(), AllocError>
    ensures room { OnOk result (len ≤ length bytes.new.items) }
    ensures longer { length bytes.old.items ≤ length bytes.new.items }
    ensures kept { (at : ℕ) → at ≤ length bytes.old.items
        → take at bytes.new.items ≡ take at bytes.old.items }
{
    if bytes.len() < len {
        bytes.resize(len, 0)?;
    }
    Ok(())
}
