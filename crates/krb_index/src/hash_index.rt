//! Finding the places of a hash.

ghost use Rattle.std.specs.Prelude.{◌≡◌, ◌≢◌, ◌<◌, ◌≤◌, ◌%◌, ◌^◌, ◌-◌, ℕ, IfOk, IfSome, MatchOption, length, min, replicate};
ghost use Rattle.krb_index.specs.Inner.Buckets.{bucket_at, IsIndex, IsLinkedFrom};
ghost use Rattle.krb_index.specs.Places.{IsFirstEqual, NoneEqual};

use std::alloc::{AllocError, Global};
use std::marker::Model;

/// An index of hashes, to find the places of one of them. A contract sees it as their list.
///
/// Each hash falls into a bucket, and the places of a bucket are linked, from the first to the last.
/// So finding a hash takes as long with many hashes as with few, unless many are equal, or were
/// chosen so that many share a bucket.
#[derive(Drop)]
pub struct HashIndex {
    hashes: Vec<u32>,
    // The first place of each bucket. It is past the last place if there is none.
    firsts: Vec<u32>,
    // After each place, the next of its bucket. It is past the last place if there is none.
    nexts: Vec<u32>,
}

// The most hashes that an index has.
const MOST: usize = 4_294_967_295;

impl Model for HashIndex {
    ghost use Rattle.std.specs.Prelude.{ℕ, List};
    ghost use Rattle.krb_index.specs.Inner.Buckets.{IsIndex};

    ghost Value = { List ℕ };

    ghost view = { λ index. index.hashes.items };

    ghost invariant = { λ index. IsIndex index.hashes.items index.firsts.items index.nexts.items };
}

impl HashIndex {
    /// Makes the index of `hashes`.
    ///
    /// Allocates 8 bytes for each hash, and 4 more.
    ///
    /// # Errors
    /// There is no memory, or there are more than 4,294,967,295 hashes. The hashes are freed.
    pub fn new(alloc: Global, hashes: Vec<u32>) -> Result<HashIndex, AllocError>
        ensures { IfOk result (λ index. index ≡ hashes.items) }
    {
        if hashes.len() > MOST {
            return Err(AllocError);
        }
        let mut firsts = vec![in alloc; 0; hashes.len() + 1]?;
        let mut nexts = vec![in alloc; 0; hashes.len()]?;
        link(&hashes, firsts.as_mut_slice(), nexts.as_mut_slice());
        Ok(HashIndex {
            hashes,
            firsts,
            nexts,
        })
    }

    /// Returns the first place of `hash`, from the place `from` on, or `None` if there is none.
    ///
    /// After a place that was found, `find(hash, at + 1)` goes on from there. From any other place it
    /// looks at the whole bucket, from its first place on.
    pub fn find(&self, hash: u32, from: usize) -> Option<usize>
        ensures first { MatchOption result
            (NoneEqual self.now hash from)
            (IsFirstEqual self.now hash from) }
        ensures bound { IfSome result (λ at. at < 2 ^ 64 - 1) }
    {
        let mut at = start(&self.hashes, &self.firsts, &self.nexts, hash, from);
        while at < self.hashes.len() {
            if from <= at && self.hashes[at] == hash {
                return Some(at);
            }
            at = self.nexts[at] as usize;
        }
        None
    }

    /// Makes it the index of `hash`, `count` times, or as often as it has hashes if these are fewer.
    /// Allocates no memory.
    pub fn fill(&mut self, hash: u32, count: usize)
        ensures { self.new ≡ replicate (min count (length self.old)) hash }
    {
        self.hashes.truncate(count);
        self.hashes.as_mut_slice().fill(hash);
        self.nexts.truncate(count);
        link(
            &self.hashes,
            self.firsts.as_mut_slice(),
            self.nexts.as_mut_slice(),
        );
    }
}

// Returns a place of the bucket of `hash`, or one past the last. From the place `from` on, the
// bucket has none before it.
fn start(hashes: &[u32], firsts: &[u32], nexts: &[u32], hash: u32, from: usize) -> usize
    requires { IsIndex hashes.now firsts.now nexts.now }
    ensures skips { (k : ℕ) → from ≤ k → k < result → k < length hashes.now
        → bucket_at (length firsts.now) hashes.now k ≢ hash % length firsts.now }
    ensures lands { result < length hashes.now
        → bucket_at (length firsts.now) hashes.now result ≡ hash % length firsts.now }
    ensures goes_on { 0 < from → from ≤ length hashes.now
        → bucket_at (length firsts.now) hashes.now (from - 1) ≡ hash % length firsts.now → from ≤ result }
{
    let bucket = bucket_of(hash, firsts.len());
    if 0 < from && from <= hashes.len() && bucket_of(hashes[from - 1], firsts.len()) == bucket {
        nexts[from - 1] as usize
    } else {
        firsts[bucket] as usize
    }
}

// Links the places of each bucket.
fn link(hashes: &[u32], firsts: &mut [u32], nexts: &mut [u32])
    requires some { 0 < length firsts.old }
    requires most { length hashes.now < 2 ^ 32 }
    requires nexts { length nexts.old ≡ length hashes.now }
    ensures { IsLinkedFrom (length firsts.old) hashes.now 0 firsts.new nexts.new }
{
    firsts.fill(hashes.len() as u32);
    for at in (0..hashes.len()).rev() {
        let bucket = bucket_of(hashes[at], firsts.len());
        nexts[at] = firsts[bucket];
        firsts[bucket] = at as u32;
    }
}

// The bucket of a hash, among `count`.
fn bucket_of(hash: u32, count: usize) -> usize
    requires { 0 < count }
    ensures bucket { result ≡ hash % count }
    ensures within { result < count }
{
    hash as usize % count
}
