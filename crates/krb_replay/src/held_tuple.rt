//! A tuple as it is held.

ghost use Rattle.std.specs.Prelude.{◌≡◌};
ghost use Rattle.std.proofs.Common.{rules};
ghost use Rattle.std.specs.Cmp.{partial_order_from_own_ties};
ghost use Rattle.std.specs.Cmp.Rules.{comparing};
ghost use Rattle.std.specs.Ordering.{as_partial_cmp, eq_by_cmp};
ghost use Rattle.krb_replay.specs.Inner.Order.{names_of, stamp_by_time, stamp_cmp, stamp_total};

use crate::names::Names;
use crate::pair::{ByClient, Pair};
use krb_tally::Timed;
use krb_time::Moment;
use std::cmp::Ordering;
use std::marker::Model;
use std::mem::size_of;
use std::rc::Rc;

/// A tuple's time, and a reference to its names. Nothing else is kept of each tuple.
#[derive(Debug, Drop)]
pub(crate) struct HeldTuple {
    time: Moment,
    names: Rc<Names>,
}

const _: () = prove!(size_of::<HeldTuple>() == 16);

impl Model for HeldTuple {
    ghost use Rattle.krb_replay.specs.Stamp.{Stamp};

    ghost Value = { Stamp };

    ghost view = { λ held. record { server = held.names.value.0; client = held.names.value.1; time = held.time } };
}

impl HeldTuple {
    pub(crate) fn new(time: Moment, names: Rc<Names>) -> HeldTuple
        ensures { result ≡ record { server = names.value.0; client = names.value.1; time = time } }
    {
        HeldTuple { time, names }
    }

    /// Returns the authenticator's time.
    pub(crate) fn time(&self) -> Moment
        ensures { result ≡ self.now.time }
    {
        self.time
    }

    /// Returns the time, and the names as trees compare them.
    pub(crate) fn into_parts(self) -> (Moment, ByClient)
        ensures time { result.0 ≡ self.time }
        ensures names { result.1 ≡ names_of self }
    {
        (self.time, ByClient::new(Pair::of(self.names)))
    }
}

impl Timed for HeldTuple {
    ghost timestamp = { λ stamp. stamp.time };

    ghost by_time = { stamp_by_time };

    fn timestamp(&self) -> i64 {
        let time = self.time();
        time.micros()
    }
}

impl Ord for HeldTuple {
    ghost cmp = { stamp_cmp };

    ghost total = { Prim.search (stamp_total, comparing, rules) };

    ghost matches_partial_cmp = { Prim.search (comparing, rules) };

    ghost matches_eq = { Prim.search (comparing, rules) };

    fn cmp(&self, other: &HeldTuple) -> Ordering {
        match self.time.cmp(&other.time) {
            Ordering::Equal => {}
            apart => return apart,
        }
        self.names.compare(&other.names)
    }
}

impl PartialOrd for HeldTuple {
    ghost partial_cmp = { as_partial_cmp stamp_cmp };

    ghost laws = { partial_order_from_own_ties (Prim.search (stamp_total, comparing, rules)) (Prim.search (comparing, rules)) };

    fn partial_cmp(&self, other: &HeldTuple) -> Option<Ordering> {
        Some(self.cmp(other))
    }
}

impl PartialEq for HeldTuple {
    ghost eq = { eq_by_cmp stamp_cmp };

    ghost laws = { Prim.search (stamp_total, comparing, rules) };

    fn eq(&self, other: &HeldTuple) -> bool {
        self.cmp(other).is_eq()
    }
}

impl Eq for HeldTuple {
    ghost laws = { Prim.search (stamp_total, comparing, rules) };
}
