//! What the bytes of a file are taken from, piece by piece.

ghost use Rattle.std.specs.Prelude.{◌≡◌, ◌+◌, ◌^◌, ◌<◌, ◌≤◌, ℕ, [], Err, ⊤, is_ok, length, if◌then◌else◌};
ghost use Rattle.krb_file.specs.Flow.{counted, failed_reads};
ghost use Rattle.krb_file.specs.Window.{Fills, Passes};
ghost use Rattle.krb_file.specs.Hand.{Hand, window_hand};

use crate::reading::ReadFault;
use crate::source::{Source, SourceFailed};
use crate::window::Window;

/// What the bytes of a file are taken from, piece by piece: the [`Window`] of a source, or a
/// [`Slice`](crate::Slice). It counts the bytes that it has given, and holds some of them, next to each other.
pub trait Feed {
    /// The bytes that are still to come, if it says which; those that are held, the most that were
    /// held at once, and how many were taken in all.
    ghost hand: { Self → Hand };

    /// How many reads have failed.
    ghost failure_count: { Self → ℕ };

    /// The name of the reference through which a borrowed source is used; 0 for any other feed.
    ghost lender: { Self → ℕ };

    /// That a call may be out of memory: empty for a feed that allocates nothing.
    ghost allocates: { Type 0 };

    /// Returns how many bytes were taken in all.
    fn given(&self) -> usize
        ensures { result ≡ (hand self.now).given };

    /// Returns the bytes that are held.
    fn bytes(&self) -> &[u8]
        ensures bytes { result.now ≡ (hand self.now).bytes }
        ensures within { length result.now ≤ (hand self.now).peak };

    /// Discards the held bytes.
    fn clear(&mut self)
        ensures cleared { hand self.new ≡ record (hand self.old) { bytes = [] } }
        ensures failed { failure_count self.new ≡ failure_count self.old }
        ensures lent { lender self.new ≡ lender self.old };

    /// Takes the next `count` bytes, holds them after the others, and returns whether so many came.
    /// Fewer come only at the end.
    ///
    /// Condition: `count` and the bytes given so far are fewer than 18,446,744,073,709,551,616.
    ///
    /// # Errors
    /// After each of these, the bytes that came before it are held.
    /// - `Read`: a read failed.
    /// - `OutOfMemory`: there is no memory for the bytes.
    fn fill(&mut self, count: usize) -> Result<bool, ReadFault>
        requires count { (hand self.old).given + count < 2 ^ 64 }
        ensures fills { Fills (hand self.old).source (hand self.new).source
            (hand self.old) (hand self.new) count result }
        ensures memory { result ≡ Err ReadFault.OutOfMemory → allocates }
        ensures failed { failure_count self.new ≡ counted (failure_count self.old) (failed_reads result) }
        ensures lent { lender self.new ≡ lender self.old };

    /// Discards the held bytes, takes the next `count`, holds none of them, and returns whether so
    /// many came. Fewer come only at the end.
    ///
    /// Condition: that of `fill`.
    ///
    /// # Errors
    /// `SourceFailed`: a read failed.
    fn skip(&mut self, count: usize) -> Result<bool, SourceFailed>
        requires count { (hand self.old).given + count < 2 ^ 64 }
        ensures passes { Passes (hand self.old).source (hand self.new).source
            (record (hand self.old) { bytes = [] }) (hand self.new) count result }
        ensures failed { failure_count self.new ≡ counted (failure_count self.old) (if is_ok result then 0 else 1) }
        ensures lent { lender self.new ≡ lender self.old };
}

impl<S: Source> Feed for Window<S> {
    ghost hand = { window_hand S.remaining };

    ghost failure_count = { λ window. S.failure_count window.source };

    ghost lender = { λ window. S.lender window.source };

    ghost allocates = { ⊤ };

    fn given(&self) -> usize {
        Window::given(self)
    }

    fn bytes(&self) -> &[u8] {
        let _held = self.held();
        Window::bytes(self)
    }

    fn clear(&mut self) {
        Window::clear(self);
    }

    fn fill(&mut self, count: usize) -> Result<bool, ReadFault> {
        Window::fill(self, count)
    }

    fn skip(&mut self, count: usize) -> Result<bool, SourceFailed> {
        self.clear();
        Window::skip(self, count)
    }
}
