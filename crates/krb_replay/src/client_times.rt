//! The times of each client's tuples.

ghost use Rattle.std.specs.Prelude.{◌≡◌, ◌∷◌, [], Contains, IfOk, IsTrue, OnErr, OnOk, false, length};
ghost use Rattle.std.specs.BTreeMap.{btree_map_len, get_key};
ghost use Rattle.std.specs.Option.{option_map};
ghost use Rattle.krb_replay.specs.Inner.Held.{is_recent};
ghost use Rattle.krb_replay.specs.Inner.Order.{TwoNames, client_cmp};
ghost use Rattle.krb_replay.specs.Inner.Times.{AddsTime, HasNoEmpty, SameTimes, TakesTime, all_by, number_by, times_by};

use crate::pair::ByClient;
use krb_tally::Times;
use std::alloc::{AllocError, Global};
use std::collections::BTreeMap;

/// The times of each client's tuples, if it has any: in microseconds since 1970-01-01T00:00:00Z, and
/// each as often as a tuple has it. The names of a client's first tuple are kept, as long as it has
/// any.
#[derive(Debug, Drop)]
pub(crate) struct ClientTimes {
    times: BTreeMap<ByClient, Times>,
    alloc: Global,
}

impl ClientTimes {
    pub(crate) fn new(alloc: Global) -> ClientTimes
        ensures none { (key : TwoNames) → times_by client_cmp result.times key ≡ [] }
        ensures no_empty { HasNoEmpty client_cmp result.times }
    {
        ClientTimes {
            times: BTreeMap::new(alloc),
            alloc,
        }
    }

    /// Returns how many clients have tuples.
    pub(crate) fn len(&self) -> usize
        ensures { result ≡ btree_map_len self.now.times }
    {
        self.times.len()
    }

    /// Returns the names that are kept of the client, if it has tuples.
    pub(crate) fn kept(&self, client: &ByClient) -> Option<&ByClient>
        ensures { option_map (λ kept. kept.now) result ≡ get_key client_cmp self.now.times client.now }
    {
        match self.times.get_key_value(client) {
            Some((kept, _)) => Some(kept),
            None => None,
        }
    }

    /// Returns how many tuples the client has.
    pub(crate) fn of(&self, client: &ByClient) -> usize
        ensures { result ≡ length (times_by client_cmp self.now.times client.now) }
    {
        match self.times.get(client) {
            Some(times) => times.len(),
            None => 0,
        }
    }

    /// Returns how many tuples of the client aren't before `oldest`.
    pub(crate) fn since(&self, client: &ByClient, oldest: i64) -> usize
        ensures { result ≡ number_by client_cmp self.now.times client.now (is_recent oldest) }
    {
        match self.times.get(client) {
            Some(times) => times.since(oldest),
            None => 0,
        }
    }

    /// Adds the time of one more tuple of the client, and returns how many tuples it has now.
    pub(crate) fn add(&mut self, client: ByClient, time: i64) -> Result<usize, AllocError>
        ensures ok { OnOk result (AddsTime client_cmp self.old.times self.new.times client time) }
        ensures number { IfOk result (λ number. number ≡ all_by client_cmp self.new.times client) }
        ensures err { OnErr result (SameTimes client_cmp self.old.times self.new.times) }
    {
        if let Some(times) = self.times.get_mut(&client) {
            times.add(self.alloc, time)?;
            return Ok(times.len());
        }
        self.times.insert(client, Times::new(time))?;
        Ok(1)
    }

    /// Removes the time of a tuple of the client. Frees the names that are kept, if the client has
    /// no more tuples.
    pub(crate) fn remove(&mut self, client: &ByClient, time: i64)
        requires { Contains (times_by client_cmp self.old.times client.now) time }
        ensures { TakesTime client_cmp self.old.times self.new.times client.now time }
    {
        if self.remove_from_several(client, time) {
            return;
        }
        let _ = self.times.remove_entry(client);
        self.free_if_empty();
    }

    // Removes the time, if the client has others. Returns whether it did.
    fn remove_from_several(&mut self, client: &ByClient, time: i64) -> bool
        requires { Contains (times_by client_cmp self.old.times client.now) time }
        ensures removed { IsTrue result → TakesTime client_cmp self.old.times self.new.times client.now time }
        ensures kept { result ≡ false → SameTimes client_cmp self.old.times self.new.times }
        ensures only { result ≡ false → times_by client_cmp self.new.times client.now ≡ time ∷ [] }
    {
        match self.times.get_mut(client) {
            Some(times) => times.remove(time),
            None => false,
        }
    }

    // An emptied tree keeps a block.
    fn free_if_empty(&mut self)
        ensures { self.new.times.entries ≡ self.old.times.entries }
    {
        if self.times.is_empty() {
            self.times.clear();
        }
    }
}
