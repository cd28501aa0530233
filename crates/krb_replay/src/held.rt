//! What a timed memory holds.

ghost use Rattle.std.specs.Prelude.{◌≡◌, ◌↔◌, ◌≤◌, ◌≤ℤ◌, ◌<◌, ◌+◌, ◌-◌, ◌*◌, ◌^◌, ℤ, None, [], drop, false, min, length, Contains, IfOk, IfSome, IsOk, IsTrue, OnErr, OnOk};
ghost use Rattle.std.specs.Option.{option_map, unwrap_or};
ghost use Rattle.std.specs.declared.cmp.Ordering.TheVariants.{Equal};
ghost use Rattle.krb_replay.specs.Inner.Counts.{AddsIf, SameCounts, TakesIf, count_by};
ghost use Rattle.krb_replay.specs.Inner.Held.{IsOnce, differs, number_before, number_of, since};
ghost use Rattle.krb_replay.specs.Inner.Order.{client_cmp, pair_cmp};
ghost use Rattle.krb_replay.specs.Inner.Times.{AddsTime, SameTimes, TakesTime, all_by, times_by};
ghost use Rattle.krb_replay.specs.Memory.{AddsStamp};

use crate::client_times::ClientTimes;
use crate::counts::Counts;
use crate::held_tuple::HeldTuple;
use crate::pair::{ByClient, Pair};
use crate::tuple::Tuple;
use krb_tally::{Tally, Timed};
use std::alloc::{AllocError, Global};
use std::marker::Model;

/// Tuples in order, by their times first. Those with the same names share one copy of them. The times
/// of each client's tuples are kept a second time, so that those since a moment can be counted without
/// a look at each. The names of a client's first tuple are kept with them, as long as the client has
/// any. How many tuples each other pair of names has is counted, and such names are kept as long as a
/// tuple has them. So most clients, who have one service, are looked up in one tree.
///
/// No call moves many tuples: they are in buckets.
#[derive(Debug, Drop)]
pub(crate) struct Held {
    tuples: Tally<HeldTuple>,
    clients: ClientTimes,
    // Of names that aren't kept with the clients.
    pairs: Counts<Pair>,
    // No client has more tuples. It isn't lowered when tuples are freed.
    most: usize,
}

impl Model for Held {
    ghost use Rattle.std.specs.Prelude.{List};
    ghost use Rattle.krb_replay.specs.Inner.Held.{AreCounted, AreTimed, IsMost, IsOnce, others};
    ghost use Rattle.krb_replay.specs.Inner.Order.{client_cmp, pair_cmp};
    ghost use Rattle.krb_replay.specs.Stamp.{Stamp};

    ghost Value = { List Stamp };

    ghost view = { λ held. held.tuples };

    ghost invariant = { λ held. IsOnce held.tuples
        × (AreTimed client_cmp held.tuples held.clients.times
        × (AreCounted pair_cmp (others held.clients.times held.tuples) held.pairs.counts
        × IsMost held.clients.times held.most)) };
}

impl Held {
    pub(crate) fn new(alloc: Global) -> Held
        ensures { result ≡ [] }
    {
        Held {
            tuples: Tally::new(alloc),
            clients: ClientTimes::new(alloc),
            pairs: Counts::new(alloc),
            most: 0,
        }
    }

    pub(crate) fn contains(&self, tuple: &Tuple) -> bool
        ensures { IsTrue result ↔ Contains self.now tuple.now }
    {
        self.tuples.has(tuple.held())
    }

    pub(crate) fn len(&self) -> usize
        ensures len { result ≡ length self.now }
        ensures small { result < 2 ^ 63 }
        ensures once { IsOnce self.now }
    {
        self.tuples.len()
    }

    /// Returns about how many bytes are taken: 28 for a tuple, and 200 for two short names. A
    /// tuple has at most two names of its own.
    pub(crate) fn bytes(&self) -> usize
        ensures least { min (28 * length self.now) (2 ^ 64 - 1) ≤ result }
        ensures most { result ≤ 228 * length self.now }
    {
        let tuples = self.tuples.len();
        let pairs = tuples.min(self.clients.len().saturating_add(self.pairs.len()));
        tuples
            .saturating_mul(28)
            .saturating_add(pairs.saturating_mul(200))
    }

    /// Adds the tuple, if it isn't held.
    pub(crate) fn add(&mut self, tuple: Tuple) -> Result<(), AllocError>
        ensures ok { OnOk result (AddsStamp (Contains self.old) (Contains self.new) tuple) }
        ensures err { OnErr result (self.new ≡ self.old) }
        ensures repeat { Contains self.old tuple → IsOk result }
        ensures grows { length self.new ≤ length self.old + 1 }
        ensures before { (oldest : ℤ) → oldest ≤ℤ tuple.time → number_before None oldest self.new ≡ number_before None oldest self.old }
    {
        if self.tuples.has(tuple.held()) {
            return Ok(());
        }
        let kept = self.clients.kept(tuple.names());
        let is_other = is_other(kept, tuple.names());
        let tuple = share_names(kept, &self.pairs, tuple)?;
        let (held, names) = tuple.into_parts();
        let time = held.timestamp();
        let number = count(&mut self.clients, &mut self.pairs, &names, time, is_other)?;
        match self.tuples.add(held) {
            Ok(()) => {
                self.most = self.most.max(number);
                Ok(())
            }
            Err(_) => {
                uncount(&mut self.clients, &mut self.pairs, &names, time, is_other);
                Err(AllocError)
            }
        }
    }

    /// Frees the first tuple if its time is before `oldest`, in microseconds since
    /// 1970-01-01T00:00:00Z, and returns whether it did.
    pub(crate) fn free_first(&mut self, oldest: i64) -> bool
        ensures freed { IsTrue result → length self.new + 1 ≡ length self.old }
        ensures same { since oldest self.new ≡ since oldest self.old }
        ensures none { result ≡ false → (self.new ≡ self.old) × (since oldest self.old ≡ self.old) }
    {
        let Some(first) = self.tuples.first() else {
            return false;
        };
        if first.timestamp() >= oldest {
            return false;
        }
        self.pop_first()
    }

    /// Frees the first tuple, if there is one, and returns whether it did.
    pub(crate) fn pop_first(&mut self) -> bool
        ensures freed { IsTrue result ↔ (0 < length self.old) }
        ensures rest { self.new ≡ drop 1 self.old }
    {
        match self.tuples.pop_first() {
            Some(first) => {
                let (time, names) = first.into_parts();
                let is_other = is_other(self.clients.kept(&names), &names);
                let time = time.micros();
                uncount(&mut self.clients, &mut self.pairs, &names, time, is_other);
                true
            }
            None => false,
        }
    }

    // At least as many as are held: of the client of a tuple, or of all clients.
    fn most_of(&self, client_of: Option<&Tuple>) -> usize
        ensures number { number_of (option_map (λ tuple. tuple.now.client) client_of.entry) self.now ≤ result }
        ensures once { IsOnce self.now }
    {
        match client_of {
            Some(_) => self.most,
            None => self.tuples.len(),
        }
    }

    // How many tuples are held: of the client of a tuple, or of all clients.
    fn number(&self, client_of: Option<&Tuple>) -> usize
        ensures number { result ≡ number_of (option_map (λ tuple. tuple.now.client) client_of.entry) self.now }
        ensures once { IsOnce self.now }
    {
        match client_of {
            Some(tuple) => self.clients.of(tuple.names()),
            None => self.tuples.len(),
        }
    }

    /// Returns how many tuples aren't before `oldest`: of the client of a tuple, or of all clients.
    pub(crate) fn number_since(&self, client_of: Option<&Tuple>, oldest: i64) -> usize
        ensures number { result ≡ number_of (option_map (λ tuple. tuple.now.client) client_of.entry) (since oldest self.now) }
        ensures once { IsOnce self.now }
    {
        match client_of {
            Some(tuple) => self.clients.since(tuple.names(), oldest),
            None => self.tuples.since(oldest),
        }
    }

    /// Returns whether at least `count` tuples aren't before `oldest`: of the client of a tuple, or
    /// of all clients.
    pub(crate) fn has_at_least(&self, client_of: Option<&Tuple>, count: usize, oldest: i64) -> bool
        ensures enough { IsTrue result ↔ (count ≤ number_of (option_map (λ tuple. tuple.now.client) client_of.entry) (since oldest self.now)) }
        ensures once { IsOnce self.now }
    {
        // If no client has so many, none is looked up.
        if self.most_of(client_of) < count {
            return false;
        }
        // Most clients have far fewer, and nothing is added up for them.
        if self.number(client_of) < count {
            return false;
        }
        count <= self.number_since(client_of, oldest)
    }
}

// Whether other names than these are kept of their client.
fn is_other(kept: Option<&ByClient>, names: &ByClient) -> bool
    ensures { result ≡ differs (unwrap_or (option_map (λ kept. kept.now) kept.entry) names.now) names.now }
{
    match kept {
        Some(kept) => kept.pair() != names.pair(),
        None => false,
    }
}

// The same tuple, which shares its names with those that are held.
fn share_names(
    kept: Option<&ByClient>,
    pairs: &Counts<Pair>,
    tuple: Tuple,
) -> Result<Tuple, AllocError>
    ensures { IfOk result (λ shared. shared ≡ tuple) }
{
    let shared = match equal_pair(kept, pairs, tuple.names().pair()) {
        Some(pair) => pair.share()?,
        None => return Ok(tuple),
    };
    tuple.with_names(shared)
}

// The equal pair that is held, if the client has tuples: the one that is kept with the client, or
// another one.
fn equal_pair<'a>(
    kept: Option<&'a ByClient>,
    pairs: &'a Counts<Pair>,
    pair: &Pair,
) -> Option<&'a Pair>
    ensures { IfSome result (λ kept. pair_cmp pair.now kept.now ≡ Equal) }
{
    let Some(kept) = kept else {
        return None;
    };
    if pair == kept.pair() {
        return Some(kept.pair());
    }
    pairs.kept(pair)
}

// Counts a tuple of these names and this time for its client and, if other names are kept of the
// client, for its names. Or counts it for neither. Returns how many tuples the client has now.
fn count(
    clients: &mut ClientTimes,
    pairs: &mut Counts<Pair>,
    names: &ByClient,
    time: i64,
    is_other: bool,
) -> Result<usize, AllocError>
    ensures number { IfOk result (λ number. number ≡ all_by client_cmp clients.new.times names.now) }
    ensures client { OnOk result (AddsTime client_cmp clients.old.times clients.new.times names.now time) }
    ensures pair { OnOk result (AddsIf pair_cmp is_other pairs.old.counts pairs.new.counts names.now) }
    ensures client_err { OnErr result (SameTimes client_cmp clients.old.times clients.new.times) }
    ensures pair_err { OnErr result (SameCounts pair_cmp pairs.old.counts pairs.new.counts) }
{
    let client = ByClient::new(names.pair().share()?);
    count_other(pairs, names.pair(), is_other)?;
    match clients.add(client, time) {
        Ok(number) => Ok(number),
        Err(_) => {
            uncount_other(pairs, names.pair(), is_other);
            Err(AllocError)
        }
    }
}

// Counts a tuple of these names and this time no more. What isn't counted any more is freed.
fn uncount(
    clients: &mut ClientTimes,
    pairs: &mut Counts<Pair>,
    names: &ByClient,
    time: i64,
    is_other: bool,
)
    requires client { Contains (times_by client_cmp clients.old.times names.now) time }
    requires pair { IsTrue is_other → 0 < count_by pair_cmp pairs.old.counts names.now }
    ensures client { TakesTime client_cmp clients.old.times clients.new.times names.now time }
    ensures pair { TakesIf pair_cmp is_other pairs.old.counts pairs.new.counts names.now }
{
    clients.remove(names, time);
    uncount_other(pairs, names.pair(), is_other);
}

fn count_other(pairs: &mut Counts<Pair>, pair: &Pair, is_other: bool) -> Result<(), AllocError>
    ensures ok { OnOk result (AddsIf pair_cmp is_other pairs.old.counts pairs.new.counts pair.now) }
    ensures err { OnErr result (SameCounts pair_cmp pairs.old.counts pairs.new.counts) }
{
    if !is_other {
        return Ok(());
    }
    pairs.add(pair.share()?)
}

fn uncount_other(pairs: &mut Counts<Pair>, pair: &Pair, is_other: bool)
    requires { IsTrue is_other → 0 < count_by pair_cmp pairs.old.counts pair.now }
    ensures { TakesIf pair_cmp is_other pairs.old.counts pairs.new.counts pair.now }
{
    if is_other {
        pairs.remove(pair);
    }
}
