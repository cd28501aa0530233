//! The bytes of a file in memory, piece by piece.

ghost use Rattle.std.specs.Prelude.{◌≡◌, []};
ghost use Rattle.krb_file.specs.Hand.{slice_hand};

use crate::feed::Feed;
use crate::reading::ReadFault;
use crate::source::SourceFailed;
use std::marker::Model;

/// The bytes of a file in memory. It allocates nothing, copies nothing and never fails.
#[derive(Drop)]
pub struct Slice<'a> {
    // Those that are held, and then those that are still to come.
    bytes: &'a [u8],
    held: usize,
    peak: usize,
    given: usize,
}

impl<'a> Model for Slice<'a> {
    ghost use Rattle.std.specs.Prelude.{◌≤◌, List, ℕ, length, take, drop};
    ghost use Rattle.krb_file.specs.Window.{AtHand};

    ghost Value = { AtHand (List ℕ) };

    ghost view = { λ s. record {
      source = drop s.held s.bytes.now;
      bytes = take s.held s.bytes.now;
      peak = s.peak;
      given = s.given;
    } };

    ghost invariant = { λ s. (s.held ≤ length s.bytes.now) × (s.held ≤ s.peak) };
}

impl<'a> Slice<'a> {
    /// Gives `bytes`, and holds none of them yet.
    pub fn new(bytes: &'a [u8]) -> Self
        ensures { result ≡ record { source = bytes.now; bytes = []; peak = 0; given = 0 } }
    {
        Slice {
            bytes,
            held: 0,
            peak: 0,
            given: 0,
        }
    }
}

impl Feed for Slice<'_> {
    ghost hand = { slice_hand };

    ghost failure_count = { λ _. 0 };

    ghost lender = { λ _. 0 };

    ghost allocates = { ⊥ };

    fn given(&self) -> usize {
        self.given
    }

    fn bytes(&self) -> &[u8] {
        &self.bytes[..self.held]
    }

    fn clear(&mut self) {
        self.bytes = &self.bytes[self.held..];
        self.held = 0;
    }

    #[tactic(auto, using(crate::proofs::SliceLaws::fills))]
    fn fill(&mut self, count: usize) -> Result<bool, ReadFault> {
        let came = count.min(self.bytes.len() - self.held);
        self.held += came;
        self.given += came;
        self.peak = self.peak.max(self.held);
        Ok(came == count)
    }

    fn skip(&mut self, count: usize) -> Result<bool, SourceFailed> {
        let (_, left) = self.bytes.split_at(self.held);
        let (piece, rest) = left.split_at(count.min(left.len()));
        self.bytes = rest;
        self.held = 0;
        self.given += piece.len();
        Ok(piece.len() == count)
    }
}
