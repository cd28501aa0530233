//! The times of one owner, of whom there may be many.

ghost use Rattle.std.specs.Prelude.{◌≡◌, ◌≢◌, ◌↔◌, ◌∷◌, ◌<◌, ◌+ℤ◌, ℕ, ℤ, pos, [], None, All, Contains, IfOk, IfSome, IsTrue, MatchOption, OnErr, OnOk, false, length};
ghost use Rattle.std.specs.List.Sorted.{IsPermutation};
ghost use Rattle.krb_tally.specs.Times.{own_time, number_since};
ghost use Rattle.krb_tally.specs.Inner.Kept.{FitsTwo, times_of};
ghost use Rattle.krb_tally.specs.declared.times.Kept.TheVariants.{Two};
ghost use Rattle.krb_tally.specs.Inner.Removal.{Removes};

use crate::bucket::Bucket;
use crate::tally::Tally;
use std::alloc::{AllocError, Global};
use std::marker::Model;
use std::mem::size_of;

/// The times of one owner, each as often as it was added. There is at least one. A contract sees
/// them as a list, in some order.
///
/// Most owners have one time, or two that are less than 2 to the 32 apart: these take 16 bytes, and
/// nothing is allocated for them. Others are in one bucket if they are few, and in a [`Tally`] if they
/// are many; both are allocated. A tally is freed once one time is left. A bucket stays: an owner that
/// has now two times and now three would otherwise allocate at each change. (How times are kept, how
/// long a call takes and how much memory, no contract says.)
#[derive(Debug, Drop)]
pub struct Times {
    kept: Kept,
}

#[derive(Debug, Drop)]
enum Kept {
    One(i64),
    // Two times: how much later the second is than the first, and the first. So they take as much
    // as one.
    Two(u32, i64),
    Few(Box<Bucket<i64>>),
    Many(Box<Tally<i64>>),
}

impl Model for Times {
    ghost use Rattle.std.specs.Prelude.{◌<◌, List, ℤ, length};
    ghost use Rattle.krb_tally.specs.Inner.Kept.{FitsTwo, times_of};

    ghost Value = { List ℤ };

    ghost view = { λ times. times_of times.kept };

    ghost invariant = { λ times. (0 < length (times_of times.kept)) × FitsTwo times.kept };
}

const _: () = prove!(size_of::<Times>() == 16);

impl Times {
    /// Makes the times of an owner that has one. Allocates nothing.
    pub fn new(time: i64) -> Times
        ensures { result ≡ time ∷ [] }
    {
        Times {
            kept: Kept::One(time),
        }
    }

    /// Returns how many times there are.
    pub fn len(&self) -> usize
        ensures len { result ≡ length self.now }
        ensures some { 0 < result }
    {
        match &self.kept {
            Kept::One(_) => 1,
            Kept::Two(..) => 2,
            Kept::Few(times) => times.len(),
            Kept::Many(times) => times.len(),
        }
    }

    /// Returns how many times aren't before `oldest`.
    pub fn since(&self, oldest: i64) -> usize
        ensures { result ≡ number_since own_time oldest self.now }
    {
        match &self.kept {
            Kept::One(time) => usize::from(*time >= oldest),
            Kept::Two(later, first) => since_of_two(*later, *first, oldest),
            Kept::Few(times) => times.since(oldest),
            Kept::Many(times) => times.since(oldest),
        }
    }

    /// Adds a time.
    ///
    /// # Errors
    /// `AllocError`: there is no memory. The times are as before.
    pub fn add(&mut self, alloc: Global, time: i64) -> Result<(), AllocError>
        ensures ok { OnOk result (IsPermutation (time ∷ self.old) self.new) }
        ensures err { OnErr result (self.new ≡ self.old) }
    {
        match &mut self.kept {
            Kept::One(first) => {
                self.kept = both(alloc, *first, time)?;
                Ok(())
            }
            Kept::Two(..) => {
                self.kept = Kept::Few(third(alloc, &self.kept, time)?);
                Ok(())
            }
            Kept::Few(times) => {
                if times.is_full() {
                    self.kept = Kept::Many(one_more(alloc, times, time)?);
                    return Ok(());
                }
                times.add(time)
            }
            Kept::Many(times) => times.add(time),
        }
    }

    /// Removes a time, if it is there and isn't the only one. Returns whether it did.
    pub fn remove(&mut self, time: i64) -> bool
        ensures exactly { IsTrue result ↔ (Contains self.old time × (1 < length self.old)) }
        ensures removed { IsTrue result → IsPermutation self.old (time ∷ self.new) }
        ensures kept { result ≡ false → self.new ≡ self.old }
    {
        if let Some(other) = other_of_two(&self.kept, time) {
            self.kept = Kept::One(other);
            return true;
        }
        let removed = match &mut self.kept {
            Kept::One(_) => false,
            Kept::Two(..) => false,
            Kept::Few(times) => remove_few(times, time),
            Kept::Many(times) => remove_many(times, time),
        };
        free_if_one(&mut self.kept);
        removed
    }
}

// How many of two times aren't before `oldest`.
fn since_of_two(later: u32, first: i64, oldest: i64) -> usize
    requires { FitsTwo (Two later first) }
    ensures { result ≡ number_since own_time oldest (times_of (Two later first)) }
{
    usize::from(first >= oldest) + usize::from(second_of(later, first) >= oldest)
}

fn second_of(later: u32, first: i64) -> i64
    requires { FitsTwo (Two later first) }
    ensures { result ≡ first +ℤ pos later }
{
    first + i64::from(later)
}

// What keeps two times: they are in place if they are near each other, and in a bucket otherwise.
fn both(alloc: Global, one: i64, other: i64) -> Result<Kept, AllocError>
    ensures times { IfOk result (λ kept. IsPermutation (other ∷ one ∷ []) (times_of kept)) }
    ensures fits { IfOk result (λ kept. FitsTwo kept) }
{
    if let Some(two) = near(one, other) {
        return Ok(two);
    }
    if let Some(two) = near(other, one) {
        return Ok(two);
    }
    Ok(Kept::Few(two_in_a_bucket(alloc, one, other)?))
}

// Two times in place, if the second isn't before the first, and is less than 2 to the 32 after it.
fn near(first: i64, second: i64) -> Option<Kept>
    ensures times { IfSome result (λ kept. times_of kept ≡ first ∷ second ∷ []) }
    ensures fits { IfSome result (λ kept. FitsTwo kept) }
{
    match u32::try_from(second.checked_sub(first)?) {
        Ok(later) => Some(Kept::Two(later, first)),
        Err(_) => None,
    }
}

fn two_in_a_bucket(alloc: Global, one: i64, other: i64) -> Result<Box<Bucket<i64>>, AllocError>
    ensures { IfOk result (λ times. IsPermutation (other ∷ one ∷ []) times.value) }
{
    let mut times = Bucket::new(alloc, one)?;
    times.add(other)?;
    Ok(Box::new(alloc, times)?)
}

// Two times in place, and one more.
fn third(alloc: Global, kept: &Kept, time: i64) -> Result<Box<Bucket<i64>>, AllocError>
    requires { FitsTwo kept.now }
    ensures { IfOk result (λ times. IsPermutation (time ∷ times_of kept.now) times.value) }
{
    let Kept::Two(later, first) = kept else {
        return Err(AllocError);
    };
    let mut times = two_in_a_bucket(alloc, second_of(*later, *first), *first)?;
    times.add(time)?;
    Ok(times)
}

// The other one of two times in place, if one of them is `time`.
fn other_of_two(kept: &Kept, time: i64) -> Option<i64>
    requires { FitsTwo kept.now }
    ensures other { IfSome result (λ other. IsPermutation (times_of kept.now) (time ∷ other ∷ [])) }
    ensures none { result ≡ None → (later : ℕ) (first : ℤ) → kept.now ≡ Two later first → All (λ one. one ≢ time) (times_of kept.now) }
{
    let Kept::Two(later, first) = kept else {
        return None;
    };
    let second = second_of(*later, *first);
    if time == *first {
        Some(second)
    } else if time == second {
        Some(*first)
    } else {
        None
    }
}

// Copies the times of a full bucket, and adds one.
fn one_more(alloc: Global, times: &Bucket<i64>, time: i64) -> Result<Box<Tally<i64>>, AllocError>
    ensures { IfOk result (λ more. IsPermutation (time ∷ times.now) more.value) }
{
    let mut more = Tally::of_bucket(alloc, times.copy()?)?;
    more.add(time)?;
    Ok(Box::new(alloc, more)?)
}

// Removes a time of a bucket, if it is there and isn't the only one. Returns whether it did.
fn remove_few(times: &mut Bucket<i64>, time: i64) -> bool
    ensures { Removes times.old time result times.new }
{
    if times.len() == 1 {
        return false;
    }
    let Some(at) = times.find(time) else {
        return false;
    };
    let _ = times.take(at);
    true
}

// Removes a time of a tally, if it is there and isn't the only one. Returns whether it did.
fn remove_many(times: &mut Tally<i64>, time: i64) -> bool
    ensures { Removes times.old time result times.new }
{
    if times.len() < 2 {
        return false;
    }
    times.remove(time).is_some()
}

// Frees a tally in which one time is left.
fn free_if_one(kept: &mut Kept)
    ensures times { times_of kept.new ≡ times_of kept.old }
    ensures fits { FitsTwo kept.old → FitsTwo kept.new }
{
    let Kept::Many(times) = kept else {
        return;
    };
    if let Some(only) = only_of(times) {
        *kept = Kept::One(only);
    }
}

// The time of a tally that has no others.
fn only_of(times: &Tally<i64>) -> Option<i64>
    ensures { MatchOption result (length times.now ≢ 1) (λ only. times.now ≡ only ∷ []) }
{
    if times.len() != 1 {
        return None;
    }
    times.first().copied()
}
