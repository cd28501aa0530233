//! Items in order, by their times first.

ghost use Rattle.std.specs.Prelude.{◌≡◌, ◌≢◌, ◌∷◌, ◌⊎◌, ◌+◌, ◌-◌, ◌≤◌, ◌<◌, ◌≤ℤ◌, ◌<ℤ◌, ◌^◌, ℤ, pos, suc, [], All, Contains, IfOk, IsTrue, MatchOption, OnErr, OnOk, Some, false, length, slice_get, slice_index_or, take, true};
ghost use Rattle.std.specs.List.Sorted.{IsPermutation};
ghost use Rattle.krb_tally.specs.Times.{HasEqual, LacksEqual, number_since};
ghost use Rattle.krb_tally.specs.Inner.Buckets.{Fits, Halves, IsIn, IsPlace, IsRising, IsSorted, Reaches, TakesOut, all_of, place_from};

use crate::bucket::{Bucket, is_before};
use crate::search::search;
use crate::timed::Timed;
use std::alloc::{AllocError, Global};
use std::marker::Model;

/// Items, each as often as it was added. A contract sees them as a list, in order.
///
/// The items are in buckets. A call finds its bucket by binary search, and its place in the bucket,
/// too. `since` then adds up the lengths of the later buckets. Ten million items are in about 10,000
/// buckets if each was later than the one before, and in at most about 30,000 otherwise, if none is
/// removed from the middle.
///
/// Each of many items takes its size and at most an eighth more, if none is removed. A bucket is freed
/// with its last item. Until then it keeps the room of those that were removed. The list of buckets
/// keeps its greatest size. (How items are kept, how long a call takes and how much memory, no contract
/// says.)
#[derive(Debug, Drop)]
pub struct Tally<T: Timed> {
    // They follow each other in order.
    buckets: Vec<Bucket<T>>,
    len: usize,
}

impl<T: Timed> Model for Tally<T> {
    ghost use Rattle.std.specs.Prelude.{◌≡◌, ◌<◌, ◌^◌, List, length};
    ghost use Rattle.krb_tally.specs.Inner.Buckets.{IsRising, IsSorted, all_of};

    ghost Value = { List T };

    ghost view = { λ tally. all_of tally.buckets.items };

    ghost invariant = { λ tally. (tally.len ≡ length (all_of tally.buckets.items))
        × ((length (all_of tally.buckets.items) < 2 ^ 63)
        × (IsRising T.timestamp (all_of tally.buckets.items) × IsSorted T.cmp (all_of tally.buckets.items))) };
}

impl<T: Timed + Drop> Tally<T> {
    /// Makes a tally without items. Allocates nothing yet.
    pub fn new(alloc: Global) -> Tally<T>
        ensures { result ≡ [] }
    {
        Tally {
            buckets: Vec::new(alloc),
            len: 0,
        }
    }

    /// Makes a tally of a bucket's items.
    pub(crate) fn of_bucket(alloc: Global, bucket: Bucket<T>) -> Result<Tally<T>, AllocError>
        ensures { IfOk result (λ tally. tally ≡ bucket) }
    {
        let len = bucket.len();
        let mut buckets = Vec::with_capacity(alloc, 1)?;
        buckets.push(bucket)?;
        Ok(Tally { buckets, len })
    }

    /// Returns how many items there are.
    pub fn len(&self) -> usize
        ensures len { result ≡ length self.now }
        ensures small { result < 2 ^ 63 }
    {
        let Tally { len, .. } = self;
        *len
    }

    /// Returns the first item, if there is any. No other is before it.
    pub fn first(&self) -> Option<&T>
        ensures first { MatchOption result (self.now ≡ []) (λ first. slice_get self.now 0 ≡ Some first.now) }
        ensures least { MatchOption result (self.now ≡ []) (λ first. All (λ item. T.timestamp first.now ≤ℤ T.timestamp item) self.now) }
    {
        first_of(self.buckets.as_slice())
    }

    /// Returns the last item, if there is any. No other is after it.
    pub fn last(&self) -> Option<&T>
        ensures last { MatchOption result (self.now ≡ []) (λ last. slice_get self.now (length self.now - 1) ≡ Some last.now) }
        ensures there { MatchOption result (self.now ≡ []) (λ last. Contains self.now last.now) }
        ensures greatest { MatchOption result (self.now ≡ []) (λ last. All (λ item. T.timestamp item ≤ℤ T.timestamp last.now) self.now) }
    {
        last_of(self.buckets.as_slice())
    }

    /// Adds an item.
    ///
    /// # Errors
    /// `AllocError`: there is no memory. The items are as before.
    pub fn add(&mut self, item: T) -> Result<(), AllocError>
        ensures ok { OnOk result (IsPermutation (item ∷ self.old) self.new) }
        ensures err { OnErr result (self.new ≡ self.old) }
    {
        if self.len >= isize::MAX as usize {
            return Err(AllocError);
        }
        add_in(&mut self.buckets, item)?;
        self.len += 1;
        Ok(())
    }

    /// Removes an item of this time, if there is any, and returns it.
    pub fn remove(&mut self, time: i64) -> Option<T>
        ensures item { MatchOption result (All (λ item. T.timestamp item ≢ time) self.old) (λ item. T.timestamp item ≡ time) }
        ensures others { MatchOption result (self.new ≡ self.old) (λ item. IsPermutation self.old (item ∷ self.new)) }
    {
        let place = find(self.buckets.as_slice(), time)?;
        let item = remove_at(&mut self.buckets, place);
        self.len -= 1;
        Some(item)
    }

    /// Removes the first item, if there is any, and returns it.
    pub fn pop_first(&mut self) -> Option<T>
        ensures { MatchOption result ((self.old ≡ []) × (self.new ≡ [])) (λ item. self.old ≡ item ∷ self.new) }
    {
        let place = place_of_first(self.buckets.as_slice())?;
        let item = remove_at(&mut self.buckets, place);
        self.len -= 1;
        Some(item)
    }

    /// Returns how many items aren't before `oldest`.
    pub fn since(&self, oldest: i64) -> usize
        ensures { result ≡ number_since T.timestamp oldest self.now }
    {
        number_in(self.buckets.as_slice(), oldest)
    }
}

impl<T: Timed + Drop> Tally<T> {
    /// Returns whether there is an equal item of the same time.
    pub fn has(&self, item: &T) -> bool
        ensures found { IsTrue result → HasEqual T.timestamp T.eq self.now item.now }
        ensures lacks { result ≡ false → LacksEqual T.timestamp T.eq self.now item.now }
    {
        has_in(self.buckets.as_slice(), item)
    }
}

// Whether the buckets have an equal item of the same time.
fn has_in<T: Timed + Drop>(buckets: &[Bucket<T>], item: &T) -> bool
    requires { IsSorted T.cmp (all_of buckets.now) }
    ensures found { IsTrue result → HasEqual T.timestamp T.eq (all_of buckets.now) item.now }
    ensures lacks { result ≡ false → LacksEqual T.timestamp T.eq (all_of buckets.now) item.now }
{
    let bucket = bucket_of(buckets, item);
    if bucket == buckets.len() {
        return false;
    }
    buckets[bucket].has(item)
}

// The first bucket whose last item isn't before an item. It is as many as there are if there is
// none.
fn bucket_of<T: Timed + Drop>(buckets: &[Bucket<T>], item: &T) -> usize
    requires { IsSorted T.cmp (all_of buckets.now) }
    ensures within { result ≤ length buckets.now }
    ensures before { All (λ one. place_from T.cmp item.now one <ℤ pos 1) (all_of (take result buckets.now)) }
    ensures reached { result < length buckets.now → Reaches (place_from T.cmp item.now) buckets.now result (pos 1) }
{
    search(buckets.len(), |at| ends_below(buckets, at, item))
}

// Whether each item of the bucket at a place is before `item`, and so each of an earlier bucket.
fn ends_below<T: Timed + Drop>(buckets: &[Bucket<T>], at: usize, item: &T) -> bool
    requires within { at < length buckets.now }
    requires sorted { IsSorted T.cmp (all_of buckets.now) }
    ensures before { IsTrue result → All (λ one. place_from T.cmp item.now one <ℤ pos 1) (all_of (take (at + 1) buckets.now)) }
    ensures reached { result ≡ false → Reaches (place_from T.cmp item.now) buckets.now at (pos 1) }
{
    is_before(buckets[at].last(), item)
}

// The first of the items, which are in order.
fn first_of<T: Timed + Drop>(buckets: &[Bucket<T>]) -> Option<&T>
    requires { IsRising T.timestamp (all_of buckets.now) }
    ensures first { MatchOption result (all_of buckets.now ≡ []) (λ first. slice_get (all_of buckets.now) 0 ≡ Some first.now) }
    ensures least { MatchOption result (all_of buckets.now ≡ []) (λ first. All (λ item. T.timestamp first.now ≤ℤ T.timestamp item) (all_of buckets.now)) }
{
    match buckets.first() {
        Some(bucket) => Some(bucket.first()),
        None => None,
    }
}

// The last of the items, which are in order.
fn last_of<T: Timed + Drop>(buckets: &[Bucket<T>]) -> Option<&T>
    requires { IsRising T.timestamp (all_of buckets.now) }
    ensures last { MatchOption result (all_of buckets.now ≡ []) (λ last. slice_get (all_of buckets.now) (length (all_of buckets.now) - 1) ≡ Some last.now) }
    ensures there { MatchOption result (all_of buckets.now ≡ []) (λ last. Contains (all_of buckets.now) last.now) }
    ensures greatest { MatchOption result (all_of buckets.now ≡ []) (λ last. All (λ item. T.timestamp item ≤ℤ T.timestamp last.now) (all_of buckets.now)) }
{
    if buckets.is_empty() {
        return None;
    }
    Some(buckets[buckets.len() - 1].last())
}

// The first bucket whose last time isn't before a moment. It is as many as there are if there is
// none.
fn bucket_for<T: Timed + Drop>(buckets: &[Bucket<T>], moment: i64) -> usize
    requires { IsRising T.timestamp (all_of buckets.now) }
    ensures within { result ≤ length buckets.now }
    ensures before { All (λ item. T.timestamp item <ℤ moment) (all_of (take result buckets.now)) }
    ensures reached { result < length buckets.now → Reaches T.timestamp buckets.now result moment }
{
    search(buckets.len(), |at| ends_early(buckets, at, moment))
}

// Whether each item of the bucket at a place has a time before a moment, and so each of an earlier
// bucket.
fn ends_early<T: Timed + Drop>(buckets: &[Bucket<T>], at: usize, moment: i64) -> bool
    requires within { at < length buckets.now }
    requires rising { IsRising T.timestamp (all_of buckets.now) }
    ensures before { IsTrue result → All (λ item. T.timestamp item <ℤ moment) (all_of (take (at + 1) buckets.now)) }
    ensures reached { result ≡ false → Reaches T.timestamp buckets.now at moment }
{
    buckets[at].last().timestamp() < moment
}

// How many items of the buckets aren't before `oldest`.
fn number_in<T: Timed + Drop>(buckets: &[Bucket<T>], oldest: i64) -> usize
    requires few { length (all_of buckets.now) < 2 ^ 64 }
    requires rising { IsRising T.timestamp (all_of buckets.now) }
    ensures { result ≡ number_since T.timestamp oldest (all_of buckets.now) }
{
    let bucket = bucket_for(buckets, oldest);
    if bucket == buckets.len() {
        return 0;
    }
    buckets[bucket].since(oldest) + number_of_all(&buckets[bucket + 1..])
}

// How many items the buckets have.
fn number_of_all<T: Timed + Drop>(buckets: &[Bucket<T>]) -> usize
    requires { length (all_of buckets.now) < 2 ^ 64 }
    ensures { result ≡ length (all_of buckets.now) }
{
    let mut found = 0;
    for bucket in buckets {
        found += bucket.len();
    }
    found
}

// Where an item stands: in which bucket, and at which of its places.
#[derive(Drop)]
struct Place {
    bucket: usize,
    at: usize,
}

// Returns where an item of the time stands, if any does.
fn find<T: Timed + Drop>(buckets: &[Bucket<T>], time: i64) -> Option<Place>
    requires { IsRising T.timestamp (all_of buckets.now) }
    ensures { MatchOption result (All (λ item. T.timestamp item ≢ time) (all_of buckets.now))
        (λ place. IsIn T.timestamp buckets.now place.bucket place.at time) }
{
    let bucket = bucket_for(buckets, time);
    if bucket == buckets.len() {
        return None;
    }
    match buckets[bucket].find(time) {
        Some(at) => Some(Place { bucket, at }),
        None => None,
    }
}

// Returns where the first item stands, if there is any.
fn place_of_first<T: Timed + Drop>(buckets: &[Bucket<T>]) -> Option<Place>
    ensures none { MatchOption result (all_of buckets.now ≡ []) (λ place. IsPlace buckets.now place.bucket place.at) }
    ensures first { MatchOption result (all_of buckets.now ≡ []) (λ place. (place.bucket ≡ 0) × (place.at ≡ 0)) }
{
    if buckets.is_empty() || buckets[0].len() == 0 {
        return None;
    }
    Some(Place { bucket: 0, at: 0 })
}

// Removes the item at a place. A bucket has always an item, so one of a single item goes as well.
fn remove_at<T: Timed + Drop>(buckets: &mut Vec<Bucket<T>>, place: Place) -> T
    requires there { IsPlace buckets.old.items place.bucket place.at }
    requires rising { IsRising T.timestamp (all_of buckets.old.items) }
    requires sorted { IsSorted T.cmp (all_of buckets.old.items) }
    ensures out { TakesOut buckets.old.items place.bucket place.at result buckets.new.items }
    ensures item { result ≡ slice_index_or (slice_index_or buckets.old.items place.bucket []) place.at result }
    ensures rising { IsRising T.timestamp (all_of buckets.new.items) }
    ensures sorted { IsSorted T.cmp (all_of buckets.new.items) }
{
    if buckets[place.bucket].len() > 1 {
        return buckets[place.bucket].take(place.at);
    }
    buckets.remove(place.bucket).into_item(place.at)
}

// Where a new item goes: into a bucket, or into a new one at its place.
#[derive(Drop)]
struct Room {
    bucket: usize,
    is_new: bool,
}

// Returns where a new item goes.
fn room_for<T: Timed + Drop>(buckets: &[Bucket<T>], item: &T) -> Room
    requires { IsSorted T.cmp (all_of buckets.now) }
    ensures place { result.bucket ≤ length buckets.now }
    ensures new { result.is_new ≡ true → Fits (place_from T.cmp item.now) buckets.now (pos 1) result.bucket result.bucket }
    ensures old { result.is_new ≡ false → (result.bucket < length buckets.now) × Fits (place_from T.cmp item.now) buckets.now (pos 1) result.bucket (suc result.bucket) }
{
    let bucket = bucket_of(buckets, item);
    if bucket == buckets.len() || !is_before(buckets[bucket].first(), item) {
        return room_between(buckets, bucket, item);
    }
    Room {
        bucket,
        is_new: false,
    }
}

// Returns where an item goes that fits between two buckets: into the one before, or into the next,
// or into a new one if both are full. So items that come in order fill the buckets.
fn room_between<T: Timed + Drop>(buckets: &[Bucket<T>], next: usize, item: &T) -> Room
    requires place { next ≤ length buckets.now }
    requires fits { Fits (place_from T.cmp item.now) buckets.now (pos 1) next next }
    ensures place { result.bucket ≤ length buckets.now }
    ensures new { result.is_new ≡ true → Fits (place_from T.cmp item.now) buckets.now (pos 1) result.bucket result.bucket }
    ensures old { result.is_new ≡ false → (result.bucket < length buckets.now) × Fits (place_from T.cmp item.now) buckets.now (pos 1) result.bucket (suc result.bucket) }
{
    if next > 0 && !buckets[next - 1].is_full() {
        return Room {
            bucket: next - 1,
            is_new: false,
        };
    }
    Room {
        bucket: next,
        is_new: next == buckets.len() || buckets[next].is_full(),
    }
}

// Returns where a new item goes. Makes two buckets of its bucket first, if that is full.
fn make_room<T: Timed + Drop>(buckets: &mut Vec<Bucket<T>>, item: &T) -> Result<Room, AllocError>
    requires { IsSorted T.cmp (all_of buckets.old.items) }
    ensures same { all_of buckets.new.items ≡ all_of buckets.old.items }
    ensures place { IfOk result (λ room. room.bucket ≤ length buckets.new.items) }
    ensures new { IfOk result (λ room. room.is_new ≡ true → Fits (place_from T.cmp item.now) buckets.new.items (pos 1) room.bucket room.bucket) }
    ensures old { IfOk result (λ room. room.is_new ≡ false → (room.bucket < length buckets.new.items) × Fits (place_from T.cmp item.now) buckets.new.items (pos 1) room.bucket (suc room.bucket)) }
    ensures room { IfOk result (λ room. room.is_new ≡ false → length (slice_index_or buckets.new.items room.bucket []) < 1024) }
{
    let room = room_for(buckets.as_slice(), item);
    if room.is_new || !buckets[room.bucket].is_full() {
        return Ok(room);
    }
    split(buckets, room.bucket)?;
    Ok(Room {
        bucket: half_for(buckets.as_slice(), room.bucket, item),
        is_new: false,
    })
}

// Returns which of two buckets a new item goes into: into the one at `lower` or into the next.
fn half_for<T: Timed + Drop>(buckets: &[Bucket<T>], lower: usize, item: &T) -> usize
    requires within { suc lower < length buckets.now }
    requires fits { Fits (place_from T.cmp item.now) buckets.now (pos 1) lower (suc (suc lower)) }
    requires sorted { IsSorted T.cmp (all_of buckets.now) }
    ensures either { (result ≡ lower) ⊎ (result ≡ suc lower) }
    ensures fits { Fits (place_from T.cmp item.now) buckets.now (pos 1) result (suc result) }
{
    if is_before(buckets[lower + 1].first(), item) {
        lower + 1
    } else {
        lower
    }
}

// Adds an item.
fn add_in<T: Timed + Drop>(buckets: &mut Vec<Bucket<T>>, item: T) -> Result<(), AllocError>
    requires rising { IsRising T.timestamp (all_of buckets.old.items) }
    requires sorted { IsSorted T.cmp (all_of buckets.old.items) }
    ensures ok { OnOk result (IsPermutation (item ∷ all_of buckets.old.items) (all_of buckets.new.items)) }
    ensures err { OnErr result (all_of buckets.new.items ≡ all_of buckets.old.items) }
    ensures rising { IsRising T.timestamp (all_of buckets.new.items) }
    ensures sorted { IsSorted T.cmp (all_of buckets.new.items) }
{
    let room = make_room(buckets, &item)?;
    if room.is_new {
        return add_new(buckets, room.bucket, item);
    }
    add_to(buckets, room.bucket, item)
}

// Adds an item to a bucket.
fn add_to<T: Timed + Drop>(
    buckets: &mut Vec<Bucket<T>>,
    bucket: usize,
    item: T,
) -> Result<(), AllocError>
    requires within { bucket < length buckets.old.items }
    requires fits { Fits (place_from T.cmp item) buckets.old.items (pos 1) bucket (suc bucket) }
    requires rising { IsRising T.timestamp (all_of buckets.old.items) }
    requires sorted { IsSorted T.cmp (all_of buckets.old.items) }
    requires room { length (slice_index_or buckets.old.items bucket []) < 1024 }
    ensures ok { OnOk result (IsPermutation (item ∷ all_of buckets.old.items) (all_of buckets.new.items)) }
    ensures err { OnErr result (all_of buckets.new.items ≡ all_of buckets.old.items) }
    ensures rising { IsRising T.timestamp (all_of buckets.new.items) }
    ensures sorted { IsSorted T.cmp (all_of buckets.new.items) }
{
    buckets[bucket].add(item)?;
    Ok(())
}

// Adds a bucket of one item.
fn add_new<T: Timed + Drop>(
    buckets: &mut Vec<Bucket<T>>,
    bucket: usize,
    item: T,
) -> Result<(), AllocError>
    requires within { bucket ≤ length buckets.old.items }
    requires fits { Fits (place_from T.cmp item) buckets.old.items (pos 1) bucket bucket }
    requires rising { IsRising T.timestamp (all_of buckets.old.items) }
    requires sorted { IsSorted T.cmp (all_of buckets.old.items) }
    ensures ok { OnOk result (IsPermutation (item ∷ all_of buckets.old.items) (all_of buckets.new.items)) }
    ensures err { OnErr result (all_of buckets.new.items ≡ all_of buckets.old.items) }
    ensures rising { IsRising T.timestamp (all_of buckets.new.items) }
    ensures sorted { IsSorted T.cmp (all_of buckets.new.items) }
{
    begin(buckets)?;
    let one = Bucket::new(*buckets.allocator(), item)?;
    buckets.insert(bucket, one)?;
    Ok(())
}

// Makes room for one bucket and no more, if there is none. Most owners have few items.
fn begin<T: Timed + Drop>(buckets: &mut Vec<Bucket<T>>) -> Result<(), AllocError>
    ensures { buckets.new.items ≡ buckets.old.items }
{
    if buckets.is_empty() {
        buckets.reserve_exact(1)?;
    }
    Ok(())
}

// Makes two buckets of a full one.
fn split<T: Timed + Drop>(buckets: &mut Vec<Bucket<T>>, bucket: usize) -> Result<(), AllocError>
    requires within { bucket < length buckets.old.items }
    requires full { 1024 ≤ length (slice_index_or buckets.old.items bucket []) }
    ensures same { all_of buckets.new.items ≡ all_of buckets.old.items }
    ensures halves { OnOk result (Halves buckets.old.items bucket buckets.new.items) }
{
    buckets.reserve(1)?;
    let upper = buckets[bucket].split()?;
    // There is room, so that nothing is lost.
    buckets.insert(bucket + 1, upper)?;
    Ok(())
}
