//! A memory that forgets what is old.

ghost use Rattle.std.specs.Prelude.{◌≡◌, ◌+◌, ◌≤◌, ◌≤ℤ◌, ◌<ℤ◌, [], None, length, true, false};
ghost use Rattle.krb_replay.specs.Inner.Held.{FreesAtMost, IsLater, since};
ghost use Rattle.krb_replay.specs.Memory.{earlier_of};

use crate::held::Held;
use crate::memory::{ReplayMemory, later};
use crate::skew::Skew;
use crate::tuple::Tuple;
use krb_time::Moment;
use std::alloc::{AllocError, Global};
use std::marker::Model;

// How many dropped tuples a call frees, if there are as many. A call adds at most one.
const FREED_AT_ONCE: usize = 16;

/// The memory for a service that runs for a long time: `advance` drops all tuples whose time is
/// before the latest moment less the skew.
///
/// Tuples may come in any order. The time for a look-up and a new tuple grows with the logarithm of
/// how many tuples are held, also if many are of the same microsecond. Counting tuples since a moment
/// adds up how many are in each bucket of at most 1,024 tuples. (This is measured, and not proved.)
///
/// What `advance` drops is out of the set at once, and is freed later: each call of `expect`,
/// `remember` and `advance` frees 16 tuples, if there are as many. A tuple that is older than what was
/// dropped is remembered only after all of that is freed.
///
/// Tuples of one service and one client share the two names. The names are freed with the last such
/// tuple; those of a client's first tuple are freed with the client's last.
#[derive(Debug, Drop)]
pub struct TimedMemory {
    held: Held,
    // Held tuples before this time, in microseconds since 1970-01-01T00:00:00Z, are dropped.
    oldest: i64,
    latest: Option<Moment>,
}

impl Model for TimedMemory {
    ghost use Rattle.std.specs.Prelude.{None};
    ghost use Rattle.krb_replay.specs.Inner.Held.{number_before, since};
    ghost use Rattle.krb_replay.specs.Memory.{Memory};

    ghost Value = { Memory };

    ghost view = { λ memory. record {
      stamps = since memory.oldest memory.held;
      latest = memory.latest;
      unfreed = number_before None memory.oldest memory.held;
      oldest = memory.oldest;
    } };
}

impl TimedMemory {
    ghost use Rattle.std.specs.Prelude.{ℕ, ◌+◌, ◌-◌, ◌≤◌, ◌*◌, ◌^◌, min, Contains};
    ghost use Rattle.krb_replay.specs.Memory.{HasNone, IsSizeOf, empty_memory, held_of};

    /// Makes an empty memory, which was given no moment. Allocates nothing yet.
    pub fn new(alloc: Global) -> TimedMemory
        ensures value { result ≡ empty_memory }
        ensures empty { HasNone (⟦<TimedMemory as ReplayMemory>⟧.has result) }
        ensures newest { ⟦<TimedMemory as ReplayMemory>⟧.newest result ≡ None }
    {
        TimedMemory {
            held: Held::new(alloc),
            oldest: i64::MIN,
            latest: None,
        }
    }

    /// Returns how many tuples take room: those in the set, and those that were dropped and aren't
    /// freed yet.
    pub fn held(&self) -> usize
        ensures least { (size : ℕ) → IsSizeOf (Contains self.now.stamps) size → size ≤ result }
        ensures size { (size : ℕ) → IsSizeOf (Contains self.now.stamps) size → result ≡ size + self.now.unfreed }
        ensures exact { result ≡ held_of self.now }
    {
        self.held.len()
    }

    /// Returns about how many bytes these take. It is an estimate: 28 for a tuple, and 200 for the
    /// two names that tuples share.
    ///
    /// A tuple takes 24 bytes, its buckets have at most an eighth more room if tuples come in the
    /// order of their times, and the lists of buckets take less than 1 byte for each. Not counted
    /// is the room of a bucket's freed tuples, until its last one is freed: at most 19,000 bytes, and
    /// 10,000 for each client. Names as short as `host/web@EX` and `alice@EX` take 170 bytes, and each
    /// further letter 1 more. A client's third tuple takes about 50 bytes more, for the list of its
    /// times; so does its second, if it is more than 71 minutes from the first. The heap's own headers
    /// aren't counted.
    pub fn bytes(&self) -> usize
        ensures least { min (28 * held_of self.now) (2 ^ 64 - 1) ≤ result }
        ensures most { result ≤ 228 * held_of self.now }
    {
        self.held.bytes()
    }
}

impl ReplayMemory for TimedMemory {
    ghost use Rattle.std.specs.Prelude.{◌+◌, ◌-◌, ◌≤◌, ◌≤ℤ◌, ◌-ℤ◌, pos, Contains, IsOk, OnErr, OnOk, Some};
    ghost use Rattle.krb_replay.specs.Memory.{AddsStamp, FreesSome, IsRecent, SameStamps, earlier_of, held_of, later_of};
    ghost use Rattle.krb_replay.specs.Stamp.{Stamp};

    const KEEPS: bool = false;

    ghost KEEPS = { false };

    ghost FORGETS = { true };

    ghost has = { λ memory. Contains memory.stamps };

    ghost newest = { λ memory. memory.latest };

    ghost limits = { λ memory. [] };

    ghost counts_since = { λ memory oldest. Unit {0} };

    ghost refusals = { λ memory. [] };

    fn contains(&self, tuple: &Tuple) -> bool {
        tuple.time().micros() >= self.oldest && self.held.contains(tuple)
    }

    fn has_at_least(&self, client_of: Option<&Tuple>, count: usize, oldest: i64) -> bool {
        self.held
            .has_at_least(client_of, count, later_moment(self.oldest, oldest))
    }

    fn expect(&mut self, _moment: Moment, _skew: Skew)
        ensures set { SameStamps (Contains self.old.stamps) (Contains self.new.stamps) }
        ensures stamps { self.new.stamps ≡ self.old.stamps }
        ensures newest { self.new.latest ≡ self.old.latest }
        ensures oldest { self.new.oldest ≡ self.old.oldest }

        // 16 that were dropped are freed, or all if they are fewer.
        ensures frees { self.new.unfreed ≡ self.old.unfreed - 16 }
        ensures shrinks { held_of self.new ≤ held_of self.old }
    {
        free_some(&mut self.held, self.oldest);
    }

    fn remember(&mut self, tuple: Tuple) -> Result<(), AllocError>
        ensures ok { OnOk result (AddsStamp (Contains self.old.stamps) (Contains self.new.stamps) tuple) }
        ensures err { OnErr result (SameStamps (Contains self.old.stamps) (Contains self.new.stamps)) }
        ensures repeat { Contains self.old.stamps tuple → IsOk result }
        ensures unchanged { OnErr result (self.new.stamps ≡ self.old.stamps) }
        ensures newest { self.new.latest ≡ self.old.latest }
        ensures oldest { self.new.oldest ≡ earlier_of self.old.oldest tuple.time }

        // 16 that were dropped are freed, or all if they are fewer. All are freed for a tuple that
        // is older than what was dropped.
        ensures frees { FreesSome 16 self.old.unfreed self.new.unfreed }
        ensures frees_16 { self.old.oldest ≤ℤ tuple.time → self.new.unfreed ≡ self.old.unfreed - 16 }
        ensures frees_all { tuple.time <ℤ self.old.oldest → self.new.unfreed ≡ 0 }
        ensures grows { held_of self.new ≤ held_of self.old + 1 }
    {
        let oldest = reach_back(&mut self.held, self.oldest, tuple.time().micros());
        free_some(&mut self.held, oldest);
        let added = self.held.add(tuple);
        self.oldest = oldest;
        added
    }

    fn advance(&mut self, moment: Moment, skew: Skew)
        ensures newest { self.new.latest ≡ Some (later_of self.old.latest moment) }
        ensures none_added { (stamp : Stamp) → Contains self.new.stamps stamp → Contains self.old.stamps stamp }
        ensures kept { (stamp : Stamp) → Contains self.old.stamps stamp
            → IsRecent (later_of self.old.latest moment) skew stamp → Contains self.new.stamps stamp }
        ensures forgets { (stamp : Stamp) → Contains self.new.stamps stamp → IsRecent (later_of self.old.latest moment) skew stamp }

        ensures oldest { self.new.oldest ≡ later_of (Some self.old.oldest) (later_of self.old.latest moment -ℤ pos skew) }

        // 16 of those that are dropped now or were before are freed, or all if they are fewer.
        ensures frees { self.new.unfreed ≡ held_of self.old - length self.new.stamps - 16 }
        ensures shrinks { held_of self.new ≤ held_of self.old }
    {
        let latest = later(self.latest, moment);
        let cut = latest.micros() - skew.micros();
        let oldest = later_moment(self.oldest, cut);
        free_some(&mut self.held, oldest);
        self.oldest = oldest;
        self.latest = Some(latest);
    }

    fn len(&self) -> usize {
        self.held.number_since(None, self.oldest)
    }

    fn latest(&self) -> Option<Moment> {
        self.latest
    }
}

fn later_moment(one: i64, other: i64) -> i64
    ensures { IsLater one other result }
{
    if one < other { other } else { one }
}

// Frees all that is dropped if a tuple of `time` would be dropped, too. Returns the time before
// which held tuples are dropped from now on.
fn reach_back(held: &mut Held, oldest: i64, time: i64) -> i64
    ensures same { since result held.new ≡ since oldest held.old }
    ensures reached { result ≤ℤ time }
    ensures value { result ≡ earlier_of oldest time }
    ensures stays { oldest ≤ℤ time → held.new ≡ held.old }
    ensures live { time <ℤ oldest → since result held.new ≡ held.new }
    ensures shrinks { length held.new ≤ length held.old }
{
    if oldest <= time {
        return oldest;
    }
    while held.free_first(oldest) {}
    time
}

// Frees 16 of what is dropped, or all if it is less.
fn free_some(held: &mut Held, oldest: i64)
    ensures same { since oldest held.new ≡ since oldest held.old }
    ensures frees { FreesAtMost 16 oldest held.old held.new }
{
    for _ in 0..FREED_AT_ONCE {
        if !held.free_first(oldest) {
            return;
        }
    }
}
