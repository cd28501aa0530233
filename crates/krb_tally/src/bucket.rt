//! Some of the items.

ghost use Rattle.std.specs.Prelude.{◌≡◌, ◌≢◌, ◌-◌, ◌≤◌, ◌<◌, ◌≤ℤ◌, ◌<ℤ◌, ◌∷◌, ℤ, pos, [], All, Contains, IfOk, IsTrue, MatchOption, OnErr, OnOk, drop, false, length, slice_index_or, take};
ghost use Rattle.std.specs.List.{remove};
ghost use Rattle.krb_tally.specs.Times.{HasEqual, LacksEqual, number_since};
ghost use Rattle.krb_tally.specs.Inner.Buckets.{AddsIn, IsAt, IsRising, IsSorted, place_from};

use crate::search::search;
use crate::timed::Timed;
use std::alloc::{AllocError, Global};
use std::marker::Model;

// How many items a bucket holds at most.
const MOST: usize = 1_024;

/// From 1 to 1,024 items, in order.
#[derive(Debug, Drop)]
pub(crate) struct Bucket<T: Timed> {
    items: Vec<T>,
}

impl<T: Timed> Model for Bucket<T> {
    ghost use Rattle.std.specs.Prelude.{◌<◌, ◌≤◌, List, length};
    ghost use Rattle.krb_tally.specs.Inner.Buckets.{IsRising, IsSorted};

    ghost Value = { List T };

    ghost view = { λ bucket. bucket.items.items };

    ghost invariant = { λ bucket. (0 < length bucket.items.items)
        × ((length bucket.items.items ≤ 1024)
        × (IsRising T.timestamp bucket.items.items × IsSorted T.cmp bucket.items.items)) };
}

impl<T: Timed + Drop> Bucket<T> {
    /// Makes a bucket of one item. Allocates room for one.
    pub(crate) fn new(alloc: Global, item: T) -> Result<Bucket<T>, AllocError>
        ensures { IfOk result (λ bucket. bucket ≡ item ∷ []) }
    {
        let mut items = Vec::with_capacity(alloc, 1)?;
        items.push(item)?;
        Ok(Bucket { items })
    }

    pub(crate) fn len(&self) -> usize
        ensures len { result ≡ length self.now }
        ensures some { 0 < result }
        ensures most { result ≤ 1024 }
        ensures rising { IsRising T.timestamp self.now }
        ensures sorted { IsSorted T.cmp self.now }
    {
        self.items.len()
    }

    pub(crate) fn is_full(&self) -> bool
        ensures full { IsTrue result → 1024 ≤ length self.now }
        ensures room { result ≡ false → length self.now < 1024 }
    {
        self.items.len() >= MOST
    }

    /// Returns the first item.
    pub(crate) fn first(&self) -> &T
        ensures there { Contains self.now result.now }
        ensures least { All (λ item. T.timestamp result.now ≤ℤ T.timestamp item) self.now }
        ensures least_from { (one : T) → All (λ item. place_from T.cmp one result.now ≤ℤ place_from T.cmp one item) self.now }
        ensures place { result.now ≡ slice_index_or self.now 0 result.now }
    {
        &self.items[0]
    }

    /// Returns the last item.
    pub(crate) fn last(&self) -> &T
        ensures there { Contains self.now result.now }
        ensures greatest { All (λ item. T.timestamp item ≤ℤ T.timestamp result.now) self.now }
        ensures greatest_from { (one : T) → All (λ item. place_from T.cmp one item ≤ℤ place_from T.cmp one result.now) self.now }
        ensures place { result.now ≡ slice_index_or self.now (length self.now - 1) result.now }
    {
        &self.items[self.items.len() - 1]
    }

    /// Adds an item. Makes room for an eighth more if there is none, and not for twice as many, so that
    /// little room is unused.
    pub(crate) fn add(&mut self, item: T) -> Result<(), AllocError>
        requires { length self.old < 1024 }
        ensures ok { OnOk result (AddsIn (place_from T.cmp item) self.old item self.new) }
        ensures err { OnErr result (self.new ≡ self.old) }
    {
        self.make_room()?;
        self.insert(item)
    }

    fn make_room(&mut self) -> Result<(), AllocError>
        ensures { self.new ≡ self.old }
    {
        let len = self.items.len();
        if len == self.items.capacity() {
            self.items.reserve_exact(len / 8 + 1)?;
        }
        Ok(())
    }

    fn insert(&mut self, item: T) -> Result<(), AllocError>
        requires { length self.old < 1024 }
        ensures ok { OnOk result (AddsIn (place_from T.cmp item) self.old item self.new) }
        ensures err { OnErr result (self.new ≡ self.old) }
    {
        let at = number_below(self.items.as_slice(), &item);
        self.items.insert(at, item)?;
        Ok(())
    }

    /// Returns a place at which an item of this time stands, if there is one.
    pub(crate) fn find(&self, time: i64) -> Option<usize>
        ensures { MatchOption result (All (λ item. T.timestamp item ≢ time) self.now) (λ at. IsAt T.timestamp self.now at time) }
    {
        let at = number_before(self.items.as_slice(), time);
        if at < self.items.len() && self.items[at].timestamp() == time {
            Some(at)
        } else {
            None
        }
    }

    /// Removes the item at the place `at`. There are others.
    pub(crate) fn take(&mut self, at: usize) -> T
        requires within { at < length self.old }
        requires others { 1 < length self.old }
        ensures item { result ≡ slice_index_or self.old at result }
        ensures others { self.new ≡ remove self.old at }
    {
        self.items.remove(at)
    }

    /// Returns the item at the place `at`. There are no others.
    pub(crate) fn into_item(self, at: usize) -> T
        requires { at < length self }
        ensures { result ≡ slice_index_or self at result }
    {
        let mut items = self.items;
        items.remove(at)
    }

    /// Returns how many items aren't before `oldest`.
    pub(crate) fn since(&self, oldest: i64) -> usize
        ensures { result ≡ number_since T.timestamp oldest self.now }
    {
        self.items.len() - number_before(self.items.as_slice(), oldest)
    }

    /// Moves the items from the middle on into a bucket, and frees their room here.
    pub(crate) fn split(&mut self) -> Result<Bucket<T>, AllocError>
        requires { 1024 ≤ length self.old }
        ensures lower { OnOk result (self.new ≡ take 512 self.old) }
        ensures upper { IfOk result (λ bucket. bucket ≡ drop 512 self.old) }
        ensures lower_room { OnOk result (length self.new < 1024) }
        ensures upper_room { IfOk result (λ bucket. length bucket < 1024) }
        ensures err { OnErr result (self.new ≡ self.old) }
    {
        let upper = self.halve()?;
        self.free_room();
        Ok(upper)
    }

    fn halve(&mut self) -> Result<Bucket<T>, AllocError>
        requires { 1024 ≤ length self.old }
        ensures lower { OnOk result (self.new ≡ take 512 self.old) }
        ensures upper { IfOk result (λ bucket. bucket ≡ drop 512 self.old) }
        ensures lower_room { OnOk result (length self.new < 1024) }
        ensures upper_room { IfOk result (λ bucket. length bucket < 1024) }
        ensures err { OnErr result (self.new ≡ self.old) }
    {
        let items = self.items.split_off(MOST / 2)?;
        Ok(Bucket { items })
    }

    fn free_room(&mut self)
        ensures { self.new ≡ self.old }
    {
        self.items.shrink_to_fit();
    }
}

impl Bucket<i64> {
    /// Copies the times. Allocates room for as many.
    pub(crate) fn copy(&self) -> Result<Bucket<i64>, AllocError>
        ensures same { IfOk result (λ bucket. bucket ≡ self.now) }
    {
        Ok(Bucket {
            items: self.items.clone()?,
        })
    }
}

impl<T: Timed> Bucket<T> {
    /// Returns whether there is an equal item of the same time.
    pub(crate) fn has(&self, item: &T) -> bool
        ensures found { IsTrue result → HasEqual T.timestamp T.eq self.now item.now }
        ensures lacks { result ≡ false → LacksEqual T.timestamp T.eq self.now item.now }
    {
        let at = number_below(self.items.as_slice(), item);
        if at == self.items.len() {
            return false;
        }
        self.items[at].cmp(item).is_eq()
    }
}

/// Returns whether one item is before another in the order.
pub(crate) fn is_before<T: Timed>(one: &T, other: &T) -> bool
    ensures before { IsTrue result → place_from T.cmp other.now one.now <ℤ pos 1 }
    ensures from { result ≡ false → pos 1 ≤ℤ place_from T.cmp other.now one.now }
{
    one.cmp(other).is_lt()
}

// How many of the items, which are in order, are before `item`.
fn number_below<T: Timed>(items: &[T], item: &T) -> usize
    requires { IsSorted T.cmp items.now }
    ensures within { result ≤ length items.now }
    ensures before { All (λ one. place_from T.cmp item.now one <ℤ pos 1) (take result items.now) }
    ensures from { All (λ one. pos 1 ≤ℤ place_from T.cmp item.now one) (drop result items.now) }
{
    search(items.len(), |at| is_below(items, at, item))
}

// Whether the item at a place is before `item`.
fn is_below<T: Timed>(items: &[T], at: usize, item: &T) -> bool
    requires { at < length items.now }
    ensures before { IsTrue result → (one : T) → place_from T.cmp item.now (slice_index_or items.now at one) <ℤ pos 1 }
    ensures from { result ≡ false → (one : T) → pos 1 ≤ℤ place_from T.cmp item.now (slice_index_or items.now at one) }
{
    is_before(&items[at], item)
}

// How many of the items, which are in order, have a time before `time`.
fn number_before<T: Timed>(items: &[T], time: i64) -> usize
    requires { IsRising T.timestamp items.now }
    ensures within { result ≤ length items.now }
    ensures before { All (λ item. T.timestamp item <ℤ time) (take result items.now) }
    ensures from { All (λ item. time ≤ℤ T.timestamp item) (drop result items.now) }
{
    search(items.len(), |at| is_early(items, at, time))
}

// Whether the item at a place has a time before `time`.
fn is_early<T: Timed>(items: &[T], at: usize, time: i64) -> bool
    requires { at < length items.now }
    ensures before { IsTrue result → (one : T) → T.timestamp (slice_index_or items.now at one) <ℤ time }
    ensures from { result ≡ false → (one : T) → time ≤ℤ T.timestamp (slice_index_or items.now at one) }
{
    items[at].timestamp() < time
}
