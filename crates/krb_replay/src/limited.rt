//! A memory that takes only so many tuples.

ghost use Rattle.std.specs.Prelude.{◌≡◌, ◌⊎◌, ◌∷◌, ◌-ℤ◌, ◌↔◌, ℤ, IsErr, IsOk, IsTrue, OnErr, OnOk, Some, pos};
ghost use Rattle.krb_replay.specs.Limit.{CountsFirst, CountsOne, IsFull, IsPastAny, Reaches, counts_refusal, limited, limits_of};
ghost use Rattle.krb_replay.specs.Memory.{AddsStamp, IsRecent, SameStamps, later_of};
ghost use Rattle.krb_replay.specs.Stamp.{Stamp};

use crate::memory::{ReplayMemory, later};
use crate::skew::Skew;
use crate::tuple::Tuple;
use krb_time::Moment;
use std::alloc::AllocError;
use std::marker::Model;

/// A memory over another one that takes at most so many tuples, and at most so many of one client.
///
/// Past a limit `remember` returns `AllocError`, and nothing changes except the count of refusals
/// ([`LimitedMemory::refused`]). A tuple that is in the set already isn't refused. A tuple counts
/// while it is in the set and its time isn't before the moment that [`ReplayMemory::expect`] was
/// last given, or the latest moment if that is later, less the skew. So what the next `advance`
/// drops doesn't count any more.
#[derive(Debug, Drop)]
pub struct LimitedMemory<M> {
    memory: M,
    limit: usize,
    limit_for_client: usize,
    oldest: i64,
    refused: u64,
}

impl<M> Model for LimitedMemory<M> {
    ghost use Rattle.krb_replay.specs.Limit.{Limited};

    ghost Value = { Limited M };

    ghost view = { λ limited. record {
      memory = limited.memory;
      limit = limited.limit;
      limit_for_client = limited.limit_for_client;
      oldest = limited.oldest;
      refused = limited.refused;
    } };
}

impl<M: ReplayMemory> LimitedMemory<M> {
    /// Limits a memory. All tuples that it has count at first.
    pub fn new(memory: M, limit: usize, limit_for_client: usize) -> LimitedMemory<M>
        ensures { result ≡ limited memory limit limit_for_client }
    {
        LimitedMemory {
            memory,
            limit,
            limit_for_client,
            oldest: i64::MIN,
            refused: 0,
        }
    }

    /// Returns the memory that is limited.
    pub fn memory(&self) -> &M
        ensures { result.now ≡ self.now.memory }
    {
        &self.memory
    }

    /// Returns the most tuples that it takes.
    pub fn limit(&self) -> usize
        ensures { result ≡ self.now.limit }
    {
        self.limit
    }

    /// Returns the most tuples of one client that it takes.
    pub fn limit_for_client(&self) -> usize
        ensures { result ≡ self.now.limit_for_client }
    {
        self.limit_for_client
    }

    /// Returns how many tuples were refused for a limit. The number begins again at 0 after
    /// 18,446,744,073,709,551,615.
    pub fn refused(&self) -> u64
        ensures { result ≡ self.now.refused }
    {
        self.refused
    }

    /// Returns whether a limit is reached for this tuple and it isn't in the set, so that `remember`
    /// refuses it.
    pub fn is_full(&self, tuple: &Tuple) -> bool
        ensures { IsTrue result ↔ IsFull M.has self.now tuple.now }
    {
        self.reaches(tuple) && !self.memory.contains(tuple)
    }

    // Returns whether a limit is reached for this tuple.
    fn reaches(&self, tuple: &Tuple) -> bool
        ensures { IsTrue result ↔ Reaches (M.has self.now.memory) self.now.oldest tuple.now (limits_of self.now) }
    {
        if self.memory.has_at_least(None, self.limit, self.oldest) {
            return true;
        }
        self.memory
            .has_at_least(Some(tuple), self.limit_for_client, self.oldest)
    }
}

impl<M: ReplayMemory> ReplayMemory for LimitedMemory<M> {
    const KEEPS: bool = M::KEEPS;

    ghost KEEPS = { M.KEEPS };

    ghost FORGETS = { M.FORGETS };

    ghost has = { λ limited. M.has limited.memory };

    ghost newest = { λ limited. M.newest limited.memory };

    ghost limits = { λ limited. limits_of limited ∷ M.limits limited.memory };

    ghost counts_since = { λ limited oldest. (limited.oldest ≡ oldest) × M.counts_since limited.memory oldest };

    ghost refusals = { λ limited. limited.refused ∷ M.refusals limited.memory };

    fn contains(&self, tuple: &Tuple) -> bool {
        self.memory.contains(tuple)
    }

    fn has_at_least(&self, client_of: Option<&Tuple>, count: usize, oldest: i64) -> bool {
        self.memory.has_at_least(client_of, count, oldest)
    }

    fn expect(&mut self, moment: Moment, skew: Skew)
        ensures set { SameStamps (M.has self.old.memory) (M.has self.new.memory) }
        ensures newest { M.newest self.new.memory ≡ M.newest self.old.memory }
        ensures oldest { self.new.oldest ≡ later_of (M.newest self.old.memory) moment -ℤ pos skew }
        ensures counts { M.counts_since self.new.memory (later_of (M.newest self.old.memory) moment -ℤ pos skew) }
        ensures limit { self.new.limit ≡ self.old.limit }
        ensures limit_for_client { self.new.limit_for_client ≡ self.old.limit_for_client }
        ensures limits { M.limits self.new.memory ≡ M.limits self.old.memory }
        ensures refused { self.new.refused ≡ self.old.refused }
        ensures refusals { M.refusals self.new.memory ≡ M.refusals self.old.memory }
    {
        self.oldest = later(self.memory.latest(), moment).micros() - skew.micros();
        self.memory.expect(moment, skew);
    }

    fn remember(&mut self, tuple: Tuple) -> Result<(), AllocError>
        ensures ok { OnOk result (AddsStamp (M.has self.old.memory) (M.has self.new.memory) tuple) }
        ensures err { OnErr result (SameStamps (M.has self.old.memory) (M.has self.new.memory)) }
        ensures repeat { M.has self.old.memory tuple → IsOk result }
        ensures newest { M.newest self.new.memory ≡ M.newest self.old.memory }

        // A tuple past a limit is refused, and that is counted.
        ensures full { IsFull M.has self.old tuple → IsErr result × (self.new ≡ counts_refusal self.old) }

        // Nothing else is counted as a refusal.
        ensures room { (IsFull M.has self.old tuple → ⊥) → self.new.refused ≡ self.old.refused }

        // So is one past a limit of the memory that is limited, if the same stamps count for that.
        ensures full_any { (oldest : ℤ) → (self.old.oldest ≡ oldest) × M.counts_since self.old.memory oldest
            → IsPastAny (M.has self.old.memory) oldest tuple (limits_of self.old ∷ M.limits self.old.memory)
            → IsErr result × CountsOne (self.old.refused ∷ M.refusals self.old.memory) (self.new.refused ∷ M.refusals self.new.memory) }
        ensures first_any { (oldest : ℤ) → (self.old.oldest ≡ oldest) × M.counts_since self.old.memory oldest
            → IsPastAny (M.has self.old.memory) oldest tuple (limits_of self.old ∷ M.limits self.old.memory)
            → CountsFirst (M.has self.old.memory) oldest tuple (limits_of self.old ∷ M.limits self.old.memory)
            (self.old.refused ∷ M.refusals self.old.memory) (self.new.refused ∷ M.refusals self.new.memory) }
        ensures room_any { (oldest : ℤ) → (self.old.oldest ≡ oldest) × M.counts_since self.old.memory oldest
            → ((self.new.refused ∷ M.refusals self.new.memory) ≡ (self.old.refused ∷ M.refusals self.old.memory))
            ⊎ (CountsOne (self.old.refused ∷ M.refusals self.old.memory) (self.new.refused ∷ M.refusals self.new.memory)
            × (IsErr result × IsPastAny (M.has self.old.memory) oldest tuple (limits_of self.old ∷ M.limits self.old.memory))) }
        ensures counts { (oldest : ℤ) → M.counts_since self.old.memory oldest → M.counts_since self.new.memory oldest }
        ensures limit { self.new.limit ≡ self.old.limit }
        ensures limit_for_client { self.new.limit_for_client ≡ self.old.limit_for_client }
        ensures limits { M.limits self.new.memory ≡ M.limits self.old.memory }
        ensures oldest { self.new.oldest ≡ self.old.oldest }
    {
        if self.is_full(&tuple) {
            self.refused = self.refused.wrapping_add(1);
            return Err(AllocError);
        }
        self.memory.remember(tuple)
    }

    fn advance(&mut self, moment: Moment, skew: Skew)
        ensures newest { M.newest self.new.memory ≡ Some (later_of (M.newest self.old.memory) moment) }
        ensures none_added { (stamp : Stamp) → M.has self.new.memory stamp → M.has self.old.memory stamp }
        ensures kept { (stamp : Stamp) → M.has self.old.memory stamp
            → IsRecent (later_of (M.newest self.old.memory) moment) skew stamp → M.has self.new.memory stamp }
        ensures keeps { IsTrue M.KEEPS → SameStamps (M.has self.old.memory) (M.has self.new.memory) }
        ensures forgets { IsTrue M.FORGETS → (stamp : Stamp) → M.has self.new.memory stamp
            → IsRecent (later_of (M.newest self.old.memory) moment) skew stamp }
        ensures limit { self.new.limit ≡ self.old.limit }
        ensures limit_for_client { self.new.limit_for_client ≡ self.old.limit_for_client }
        ensures limits { M.limits self.new.memory ≡ M.limits self.old.memory }
        ensures oldest { self.new.oldest ≡ self.old.oldest }
        ensures refused { self.new.refused ≡ self.old.refused }
        ensures refusals { M.refusals self.new.memory ≡ M.refusals self.old.memory }
        ensures counts { (oldest : ℤ) → M.counts_since self.old.memory oldest → M.counts_since self.new.memory oldest }
    {
        self.memory.advance(moment, skew);
    }

    fn len(&self) -> usize {
        self.memory.len()
    }

    fn latest(&self) -> Option<Moment> {
        self.memory.latest()
    }
}
