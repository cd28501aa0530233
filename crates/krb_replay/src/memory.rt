//! What every memory of seen requests does.

ghost use Rattle.std.specs.Prelude.{◌≡◌, ◌↔◌, ◌⊎◌, ◌-ℤ◌, ℕ, ℤ, pos, Bool, List, Option, Some, IsErr, IsOk, IsTrue, OnOk, OnErr};
ghost use Rattle.std.specs.Option.{option_map};
ghost use Rattle.krb_replay.specs.Limit.{CountsFirst, CountsOne, HasAtLeast, IsPastAny, Limits, Since};
ghost use Rattle.krb_replay.specs.Stamp.{Stamp};
ghost use Rattle.krb_replay.specs.Memory.{later_of, IsRecent, SameStamps, AddsStamp, IsSizeOf};

use crate::skew::Skew;
use crate::tuple::Tuple;
use krb_time::Moment;
use std::alloc::AllocError;

/// A memory of seen requests: a set of tuples, and the latest moment that it was given.
///
/// No call has a condition. Only `remember` allocates memory. (That isn't proved.)
pub trait ReplayMemory {
    /// Whether `advance` drops nothing.
    const KEEPS: bool;

    ghost KEEPS: { Bool };

    /// Whether `advance` drops each tuple that may be dropped.
    ghost FORGETS: { Bool };

    /// The set: whether the memory has this stamp. A stamp is all that a contract sees of a tuple.
    ghost has: { Self → Stamp → Type 0 };

    /// The latest moment, if the memory was given any.
    ghost newest: { Self → Option ℤ };

    /// The limits, if the memory has any.
    ghost limits: { Self → List Limits };

    /// Whether exactly the stamps whose time isn't before a moment count for the limits.
    ghost counts_since: { Self → ℤ → Type 0 };

    /// How many tuples were refused for each of the limits, modulo 2 to the 64.
    ghost refusals: { Self → List ℕ };

    /// Returns whether the set has the tuple.
    fn contains(&self, tuple: &Tuple) -> bool
        ensures { IsTrue result ↔ has self.now tuple.now };

    /// Returns whether the set has at least `count` tuples whose time isn't before `oldest`, in
    /// microseconds since 1970-01-01T00:00:00Z. With a tuple, only those of its client count.
    fn has_at_least(&self, client_of: Option<&Tuple>, count: usize, oldest: i64) -> bool
        ensures { IsTrue result ↔ HasAtLeast (Since (has self.now) (option_map (λ tuple. tuple.now.client) client_of.entry) oldest) count };

    /// Says that the memory is given `moment` right after the next tuple. The set and the latest
    /// moment stay the same. From now on only what will then still be there counts for a limit.
    fn expect(&mut self, moment: Moment, skew: Skew)
        ensures set { SameStamps (has self.old) (has self.new) }
        ensures newest { newest self.new ≡ newest self.old }
        ensures counts { counts_since self.new (later_of (newest self.old) moment -ℤ pos skew) }
        ensures limits { limits self.new ≡ limits self.old }
        ensures refusals { refusals self.new ≡ refusals self.old };

    /// Adds the tuple to the set, and changes nothing else. A tuple that the set has already is no
    /// error.
    ///
    /// # Errors
    /// `AllocError`: there is no memory for the tuple; or the memory has a limit, which is reached,
    /// and counts that. The set and the latest moment are unchanged.
    fn remember(&mut self, tuple: Tuple) -> Result<(), AllocError>
        ensures ok { OnOk result (AddsStamp (has self.old) (has self.new) tuple) }
        ensures err { OnErr result (SameStamps (has self.old) (has self.new)) }
        ensures repeat { has self.old tuple → IsOk result }
        ensures newest { newest self.new ≡ newest self.old }

        // A tuple past a limit is refused, and the first limit that is reached counts that. Nothing
        // else is counted.
        ensures full { (oldest : ℤ) → counts_since self.old oldest → IsPastAny (has self.old) oldest tuple (limits self.old)
            → IsErr result × CountsOne (refusals self.old) (refusals self.new) }
        ensures first { (oldest : ℤ) → counts_since self.old oldest → IsPastAny (has self.old) oldest tuple (limits self.old)
            → CountsFirst (has self.old) oldest tuple (limits self.old) (refusals self.old) (refusals self.new) }
        ensures refused { (oldest : ℤ) → counts_since self.old oldest → (refusals self.new ≡ refusals self.old)
            ⊎ (CountsOne (refusals self.old) (refusals self.new) × (IsErr result × IsPastAny (has self.old) oldest tuple (limits self.old))) }
        ensures limits { limits self.new ≡ limits self.old }
        ensures counts { (oldest : ℤ) → counts_since self.old oldest → counts_since self.new oldest };

    /// Gives the memory a moment. The latest moment becomes the later of this moment and the one so
    /// far, if there was one. The memory may drop each tuple whose time is before the latest moment
    /// less `skew`, and no other.
    fn advance(&mut self, moment: Moment, skew: Skew)
        ensures newest { newest self.new ≡ Some (later_of (newest self.old) moment) }
        ensures none_added { (stamp : Stamp) → has self.new stamp → has self.old stamp }
        ensures kept { (stamp : Stamp) → has self.old stamp
            → IsRecent (later_of (newest self.old) moment) skew stamp → has self.new stamp }

        // A memory that keeps what it has drops none, and one that forgets drops all that it may.
        ensures keeps { IsTrue KEEPS → SameStamps (has self.old) (has self.new) }
        ensures forgets { IsTrue FORGETS → (stamp : Stamp) → has self.new stamp
            → IsRecent (later_of (newest self.old) moment) skew stamp }
        ensures limits { limits self.new ≡ limits self.old }
        ensures refusals { refusals self.new ≡ refusals self.old }
        ensures counts { (oldest : ℤ) → counts_since self.old oldest → counts_since self.new oldest };

    /// Returns the number of tuples in the set.
    fn len(&self) -> usize
        ensures { IsSizeOf (has self.now) result };

    /// Returns the latest moment that the memory was given, if any.
    fn latest(&self) -> Option<Moment>
        ensures { result ≡ newest self.now };
}

/// The later of the latest moment so far, if any, and a new moment.
pub(crate) fn later(latest: Option<Moment>, moment: Moment) -> Moment
    ensures { result ≡ later_of latest moment }
{
    match latest {
        Some(latest) if moment <= latest => latest,
        _ => moment,
    }
}
