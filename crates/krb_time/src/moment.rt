//! Moments.

ghost use Rattle.std.specs.Prelude.{◌≡◌, ◌<◌, SomeIff};
ghost use Rattle.krb_time.specs.Time.{IsSeconds};
ghost use Rattle.krb_time.specs.Moments.{micros_of};
ghost use Rattle.std.proofs.Common.{rules};
ghost use Rattle.std.specs.Cmp.{partial_order_from_own_ties};
ghost use Rattle.std.specs.Cmp.Rules.{comparing};
ghost use Rattle.std.specs.Ordering.{as_partial_cmp, int_cmp};

use crate::{Microseconds, Seconds};
use std::cmp::Ordering;
use std::marker::Model;

/// A microsecond of the years 0000 to 9999. Moments are ordered by time. A contract sees a moment
/// as its microseconds since 1970-01-01T00:00:00Z, which are negative before that.
#[derive(Clone, Copy, Debug, PartialEq, Eq, Hash)]
pub struct Moment {
    micros: i64,
}

impl Model for Moment {
    ghost use Rattle.std.specs.Prelude.{ℤ};
    ghost use Rattle.krb_time.specs.Moments.{IsMoment};

    ghost Value = { ℤ };

    ghost view = { λ m. m.micros };

    ghost invariant = { λ m. IsMoment m.micros };

    ghost inverse = { λ z. record { micros = z } };
}

impl Moment {
    /// Returns the moment so many microseconds after a second, which is counted from
    /// 1970-01-01T00:00:00Z. Returns `None` outside the years 0000 to 9999, or if there are
    /// 1,000,000 microseconds or more.
    pub fn new(seconds: i64, micros: u32) -> Option<Moment>
        ensures { SomeIff result (IsSeconds seconds × (micros < 1_000_000)) (micros_of seconds micros) }
    {
        Some(Moment::at(Seconds::new(seconds)?, Microseconds::new(micros)?))
    }

    /// Returns the moment so many microseconds after a message's time, which is a second.
    pub fn at(second: Seconds, micros: Microseconds) -> Moment
        ensures { result ≡ micros_of second micros }
    {
        Moment {
            micros: 1_000_000 * second.get() + i64::from(micros.get()),
        }
    }

    /// Returns the first microsecond of a second.
    pub fn start_of(second: Seconds) -> Moment
        ensures { result ≡ micros_of second 0 }
    {
        Moment {
            micros: 1_000_000 * second.get(),
        }
    }

    /// Returns the microseconds since 1970-01-01T00:00:00Z, which are negative before that.
    pub fn micros(self) -> i64
        ensures { result ≡ self }
    {
        self.micros
    }

    /// Returns the second in which the moment lies, and the microseconds since that second began,
    /// as messages have them.
    pub fn parts(self) -> (Seconds, Microseconds)
        ensures { self ≡ micros_of result.0 result.1 }
    {
        let second = Seconds::new(self.micros.div_euclid(1_000_000));
        let micros = Microseconds::new(self.micros.rem_euclid(1_000_000) as u32);
        match (second, micros) {
            (Some(second), Some(micros)) => (second, micros),
            _ => unreachable!(),
        }
    }
}

impl Ord for Moment {
    ghost cmp = { int_cmp };

    ghost total = { Prim.search (comparing, rules) };

    ghost matches_partial_cmp = { Prim.search (comparing, rules) };

    ghost matches_eq = { Prim.search (comparing, rules) };

    fn cmp(&self, other: &Moment) -> Ordering {
        self.micros.cmp(&other.micros)
    }
}

impl PartialOrd for Moment {
    ghost partial_cmp = { as_partial_cmp int_cmp };

    ghost laws = { partial_order_from_own_ties (Prim.search (comparing, rules)) (Prim.search (comparing, rules)) };

    fn partial_cmp(&self, other: &Moment) -> Option<Ordering> {
        Some(self.cmp(other))
    }
}
