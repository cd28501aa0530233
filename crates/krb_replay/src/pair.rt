//! The names of a tuple, which tuples share.

ghost use Rattle.std.specs.Prelude.{◌≡◌, IfOk};
ghost use Rattle.std.proofs.Common.{rules};
ghost use Rattle.std.specs.Cmp.{partial_order_from_own_ties};
ghost use Rattle.std.specs.Cmp.Rules.{comparing};
ghost use Rattle.std.specs.Ordering.{as_partial_cmp, eq_by_cmp};
ghost use Rattle.krb_replay.specs.Stamp.{name_of};
ghost use Rattle.krb_replay.specs.Inner.Order.{client_cmp, client_total, name_cmp, pair_cmp, pair_total};

use crate::names::Names;
use krb_name::Principal;
use std::alloc::{AllocError, Global};
use std::cmp::Ordering;
use std::marker::Model;
use std::mem::size_of;
use std::rc::Rc;

/// The names of a service and a client. All that share them hold one copy, which is freed with the
/// last of them. A hash of the client's name stands beside the reference, so that the names are read
/// only for clients of one hash.
#[derive(Debug, Drop)]
pub(crate) struct Pair {
    client_hash: u32,
    names: Rc<Names>,
}

const _: () = prove!(size_of::<Pair>() == 16);

impl Model for Pair {
    ghost use Rattle.std.specs.Prelude.{◌≡◌};
    ghost use Rattle.krb_replay.specs.Inner.Names.{hash_of};
    ghost use Rattle.krb_replay.specs.Inner.Order.{TwoNames};

    ghost Value = { TwoNames };

    ghost view = { λ pair. pair.names.value };

    ghost invariant = { λ pair. pair.client_hash ≡ hash_of pair.names.value.1 };
}

impl Pair {
    /// Copies the names into a pair that nothing else shares yet.
    pub(crate) fn new(
        alloc: Global,
        server: &Principal,
        client: &Principal,
    ) -> Result<Pair, AllocError>
        ensures { IfOk result (λ pair. pair ≡ (name_of server.now, name_of client.now)) }
    {
        let names = Names::new(alloc, server, client)?;
        Ok(Pair::of(Rc::new(alloc, names)?))
    }

    /// Makes a pair of names that may have other holders.
    pub(crate) fn of(names: Rc<Names>) -> Pair
        ensures { result ≡ names.value }
    {
        Pair {
            client_hash: names.client_hash(),
            names,
        }
    }

    /// Returns one more holder of the same names. Allocates no memory. It fails only if there are
    /// too many holders to count.
    pub(crate) fn share(&self) -> Result<Pair, AllocError>
        ensures { IfOk result (λ pair. pair ≡ self.now) }
    {
        Ok(Pair {
            client_hash: self.client_hash,
            names: self.names.clone()?,
        })
    }

    /// Returns one more reference to the names. Allocates no memory. It fails only if there are too
    /// many to count.
    pub(crate) fn share_names(&self) -> Result<Rc<Names>, AllocError>
        ensures { IfOk result (λ names. names.value ≡ self.now) }
    {
        self.names.clone()
    }

    pub(crate) fn names(&self) -> &Names
        ensures { result.now ≡ self.now }
    {
        &self.names
    }

    /// Compares the clients, by the hashes of their names first. So a tree over them is filled
    /// evenly, also if clients come in the order of their names.
    fn compare_clients(&self, other: &Pair) -> Ordering
        ensures { result ≡ name_cmp self.now.1 other.now.1 }
    {
        match self.client_hash.cmp(&other.client_hash) {
            Ordering::Equal => self.names().compare_client_bytes(other.names()),
            apart => apart,
        }
    }
}

impl Ord for Pair {
    ghost cmp = { pair_cmp };

    ghost total = { Prim.search (pair_total, comparing, rules) };

    ghost matches_partial_cmp = { Prim.search (comparing, rules) };

    ghost matches_eq = { Prim.search (comparing, rules) };

    fn cmp(&self, other: &Pair) -> Ordering {
        match self.compare_clients(other) {
            Ordering::Equal => self.names().compare_servers(other.names()),
            apart => apart,
        }
    }
}

impl PartialOrd for Pair {
    ghost partial_cmp = { as_partial_cmp pair_cmp };

    ghost laws = { partial_order_from_own_ties (Prim.search (pair_total, comparing, rules)) (Prim.search (comparing, rules)) };

    fn partial_cmp(&self, other: &Pair) -> Option<Ordering> {
        Some(self.cmp(other))
    }
}

impl PartialEq for Pair {
    ghost eq = { eq_by_cmp pair_cmp };

    ghost laws = { Prim.search (pair_total, comparing, rules) };

    fn eq(&self, other: &Pair) -> bool {
        self.cmp(other).is_eq()
    }
}

impl Eq for Pair {
    ghost laws = { Prim.search (pair_total, comparing, rules) };
}

/// The names of a service and a client, ordered by the client alone.
#[derive(Debug, Drop)]
pub(crate) struct ByClient {
    pair: Pair,
}

impl Model for ByClient {
    ghost use Rattle.krb_replay.specs.Inner.Order.{TwoNames};

    ghost Value = { TwoNames };

    ghost view = { λ by. by.pair };
}

impl ByClient {
    pub(crate) fn new(pair: Pair) -> ByClient
        ensures { result ≡ pair }
    {
        ByClient { pair }
    }

    pub(crate) fn pair(&self) -> &Pair
        ensures { result.now ≡ self.now }
    {
        &self.pair
    }
}

impl Ord for ByClient {
    ghost cmp = { client_cmp };

    ghost total = { Prim.search (client_total, comparing, rules) };

    ghost matches_partial_cmp = { Prim.search (comparing, rules) };

    ghost matches_eq = { Prim.search (comparing, rules) };

    fn cmp(&self, other: &ByClient) -> Ordering {
        self.pair.compare_clients(&other.pair)
    }
}

impl PartialOrd for ByClient {
    ghost partial_cmp = { as_partial_cmp client_cmp };

    ghost laws = { partial_order_from_own_ties (Prim.search (client_total, comparing, rules)) (Prim.search (comparing, rules)) };

    fn partial_cmp(&self, other: &ByClient) -> Option<Ordering> {
        Some(self.cmp(other))
    }
}

impl PartialEq for ByClient {
    ghost eq = { eq_by_cmp client_cmp };

    ghost laws = { Prim.search (client_total, comparing, rules) };

    fn eq(&self, other: &ByClient) -> bool {
        self.cmp(other).is_eq()
    }
}

impl Eq for ByClient {
    ghost laws = { Prim.search (client_total, comparing, rules) };
}
