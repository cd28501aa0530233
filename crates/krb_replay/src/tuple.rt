//! What is remembered of a request.

ghost use Rattle.std.specs.Prelude.{◌≡◌, IfOk, SomeIff};
ghost use Rattle.std.proofs.Common.{rules};
ghost use Rattle.std.specs.Cmp.{partial_order_from_own_ties};
ghost use Rattle.std.specs.Cmp.Rules.{comparing};
ghost use Rattle.std.specs.Ordering.{as_partial_cmp, eq_by_cmp};
ghost use Rattle.krb_time.specs.Moments.{IsMoment, micros_of};
ghost use Rattle.krb_replay.specs.Bytes.{IsBytesOf};
ghost use Rattle.krb_replay.specs.Keeping.{kept_until};
ghost use Rattle.krb_replay.specs.Stamp.{name_of};
ghost use Rattle.std.specs.Option.{option_map};
ghost use Rattle.krb_replay.specs.Inner.Held.{is_of};
ghost use Rattle.krb_replay.specs.Inner.Order.{names_of, stamp_by_time, stamp_cmp, stamp_total};

use crate::held_tuple::HeldTuple;
use crate::pair::{ByClient, Pair};
use crate::skew::Skew;
use crate::stamp_bytes::write_time;
use krb_name::Principal;
use krb_tally::Timed;
use krb_time::{Microseconds, Moment, Seconds};
use std::alloc::{AllocError, Global};
use std::cmp::Ordering;
use std::marker::Model;

/// What is remembered of a request (RFC 4120, section 3.2.3): the names of the server and the
/// client, and the time of the authenticator. Two times differ if they are a microsecond apart.
/// Name types aren't part of it.
///
/// Tuples are ordered by time. Those of the same time are ordered by their names, in some fixed
/// order.
#[derive(Debug, Drop)]
pub struct Tuple {
    // What a memory keeps.
    held: HeldTuple,
    // The same names, by which it looks for others that have them.
    names: ByClient,
}

impl Model for Tuple {
    ghost use Rattle.std.specs.Prelude.{◌≡◌};
    ghost use Rattle.krb_replay.specs.Inner.Order.{names_of};
    ghost use Rattle.krb_replay.specs.Stamp.{Stamp};

    ghost Value = { Stamp };

    ghost view = { λ tuple. tuple.held };

    ghost invariant = { λ tuple. tuple.names ≡ names_of tuple.held };
}

impl Tuple {
    /// Makes the tuple of these names and of the authenticator's ctime and cusec. The names are
    /// copied, without their types, and freed.
    ///
    /// # Errors
    /// `AllocError`: there is no memory for the names.
    pub fn new(
        alloc: Global,
        server: Principal,
        client: Principal,
        ctime: Seconds,
        cusec: Microseconds,
    ) -> Result<Tuple, AllocError>
        ensures { IfOk result (λ tuple. tuple ≡ record {
          server = name_of server;
          client = name_of client;
          time = micros_of ctime cusec;
        }) }
    {
        Tuple::of(alloc, &server, &client, ctime, cusec)
    }

    /// Makes the tuple of these names and of the authenticator's ctime and cusec. The names are
    /// copied, without their types.
    ///
    /// # Errors
    /// `AllocError`: there is no memory for the names.
    pub fn of(
        alloc: Global,
        server: &Principal,
        client: &Principal,
        ctime: Seconds,
        cusec: Microseconds,
    ) -> Result<Tuple, AllocError>
        ensures { IfOk result (λ tuple. tuple ≡ record {
          server = name_of server.now;
          client = name_of client.now;
          time = micros_of ctime cusec;
        }) }
    {
        let names = Pair::new(alloc, server, client)?;
        Ok(Tuple {
            held: HeldTuple::new(Moment::at(ctime, cusec), names.share_names()?),
            names: ByClient::new(names),
        })
    }

    /// Returns the authenticator's time.
    pub fn time(&self) -> Moment
        ensures { result ≡ self.now.time }
    {
        self.held.time()
    }

    /// Returns what a memory keeps.
    pub(crate) fn held(&self) -> &HeldTuple
        ensures { result.now ≡ self.now }
    {
        &self.held
    }

    /// Returns the names.
    pub(crate) fn names(&self) -> &ByClient
        ensures { result.now ≡ names_of self.now }
    {
        &self.names
    }

    /// Returns what a memory keeps, and the names.
    pub(crate) fn into_parts(self) -> (HeldTuple, ByClient)
        ensures held { result.0 ≡ self }
        ensures names { result.1 ≡ names_of self }
    {
        (self.held, self.names)
    }

    /// Returns whether the tuple has the same client as another one, if there is another.
    pub(crate) fn is_of(&self, client_of: Option<&Tuple>) -> bool
        ensures { result ≡ is_of (option_map (λ tuple. tuple.now.client) client_of.entry) self.now }
    {
        match client_of {
            Some(other) => self.names == other.names,
            None => true,
        }
    }

    /// Returns the tuple of the same time that holds `names`.
    pub(crate) fn with_names(self, names: Pair) -> Result<Tuple, AllocError>
        requires { names ≡ names_of self }
        ensures { IfOk result (λ tuple. tuple ≡ self) }
    {
        Ok(Tuple {
            held: HeldTuple::new(self.time(), names.share_names()?),
            names: ByClient::new(names),
        })
    }

    /// Writes the tuple as one string of bytes, for a store that several services share. Two tuples
    /// have the same bytes exactly if they are equal.
    ///
    /// The bytes are the server's name, the client's, and the authenticator's time. A name is its
    /// realm, the number of its components, and each component. A realm or a component is its
    /// length and its bytes. The time is in microseconds since 1970-01-01T00:00:00Z. Lengths, the
    /// number of components and the time have 8 bytes each, the highest first; the time is in two's
    /// complement. The form is our own.
    ///
    /// # Errors
    /// `AllocError`: there is no memory for the bytes.
    pub fn to_bytes(&self, alloc: Global) -> Result<Vec<u8>, AllocError>
        ensures { IfOk result (λ bytes. IsBytesOf self.now bytes.items) }
    {
        let mut out = Vec::new(alloc);
        let names = self.names.pair().names();
        out.extend_from_slice(names.server())?;
        out.extend_from_slice(names.client())?;
        write_time(&mut out, self.time())?;
        Ok(out)
    }

    /// Returns the last moment at which a shared store must still have the tuple, by its own clock:
    /// the authenticator's time plus twice `skew`. Returns `None` if that is after the year 9999.
    ///
    /// A service accepts a request until its clock is later than the authenticator's time by more
    /// than the skew (RFC 4120, section 3.2.3). The store's clock may be ahead of the service's by
    /// the skew again.
    pub fn keep_until(&self, skew: Skew) -> Option<Moment>
        ensures { SomeIff result (IsMoment (kept_until self.now skew)) (kept_until self.now skew) }
    {
        moment_of(self.time().micros() + 2 * skew.micros())
    }
}

// The moment so many microseconds after 1970-01-01T00:00:00Z, if it is of the years 0000 to 9999.
fn moment_of(micros: i64) -> Option<Moment>
    ensures { SomeIff result (IsMoment micros) micros }
{
    Moment::new(
        micros.div_euclid(1_000_000),
        micros.rem_euclid(1_000_000) as u32,
    )
}

impl Timed for Tuple {
    ghost timestamp = { λ stamp. stamp.time };

    ghost by_time = { stamp_by_time };

    fn timestamp(&self) -> i64 {
        self.held.timestamp()
    }
}

impl Ord for Tuple {
    ghost cmp = { stamp_cmp };

    ghost total = { Prim.search (stamp_total, comparing, rules) };

    ghost matches_partial_cmp = { Prim.search (comparing, rules) };

    ghost matches_eq = { Prim.search (comparing, rules) };

    fn cmp(&self, other: &Tuple) -> Ordering {
        self.held.cmp(&other.held)
    }
}

impl PartialOrd for Tuple {
    ghost partial_cmp = { as_partial_cmp stamp_cmp };

    ghost laws = { partial_order_from_own_ties (Prim.search (stamp_total, comparing, rules)) (Prim.search (comparing, rules)) };

    fn partial_cmp(&self, other: &Tuple) -> Option<Ordering> {
        Some(self.cmp(other))
    }
}

impl PartialEq for Tuple {
    ghost eq = { eq_by_cmp stamp_cmp };

    ghost laws = { Prim.search (stamp_total, comparing, rules) };

    fn eq(&self, other: &Tuple) -> bool {
        self.cmp(other).is_eq()
    }
}

impl Eq for Tuple {
    ghost laws = { Prim.search (stamp_total, comparing, rules) };
}
