//! A name that is looked up.

ghost use Rattle.std.specs.Prelude.{◌≡◌};
ghost use Rattle.krb_name.specs.Name.{name_hash};

use crate::principal::Principal;
use std::marker::Model;

/// A name that is looked up in a [`NamedList`](crate::NamedList), and its hash: it is hashed once, however
/// often it is looked up. A contract sees it as the name.
#[derive(Drop)]
pub struct SoughtName<'a> {
    name: &'a Principal,
    hash: u32,
}

impl<'a> Model for SoughtName<'a> {
    ghost use Rattle.std.specs.Prelude.{◌≡◌};
    ghost use Rattle.krb_name.specs.Name.{name_hash};
    ghost use Rattle.krb_name.specs.declared.principal.Principal.{Principal as PrincipalValue};

    ghost Value = { PrincipalValue };

    ghost view = { λ s. s.name.now };

    ghost invariant = { λ s. s.hash ≡ name_hash s.name.now };
}

impl<'a> SoughtName<'a> {
    /// Hashes `name`.
    pub fn new(name: &'a Principal) -> Self
        ensures { result ≡ name.now }
    {
        let hash = name.name_hash();
        SoughtName { name, hash }
    }

    /// The name.
    pub(crate) fn principal(&self) -> &Principal
        ensures { result.now ≡ self.now }
    {
        self.name
    }

    /// The hash of the name.
    pub(crate) fn hash(&self) -> u32
        ensures { result ≡ name_hash self.now }
    {
        self.hash
    }
}
