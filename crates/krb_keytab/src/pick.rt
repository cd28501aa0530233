//! The choice of an entry for a principal.

ghost use Rattle.std.specs.Prelude.{◌≡◌, ◌∷◌, ◌++◌, [], List};
ghost use Rattle.krb_name.specs.declared.principal.Principal.{Principal as PrincipalValue};
ghost use Rattle.krb_name.specs.Name.{SameName};
ghost use Rattle.krb_keytab.specs.Entry.{KeytabEntry};
ghost use Rattle.krb_keytab.specs.Inner.Pick.{Counts};
ghost use Rattle.krb_keytab.specs.Pick.{IsChoiceBy, choice_of};

use crate::entry::Entry;
use crate::usable::{Counted, has_version, is_key};
use krb_name::{NamedList, Principal, SoughtName};

/// What a keytab has for a principal, an encryption type and a version number.
#[derive(Clone, Copy)]
pub enum Picked<'a> {
    /// This entry.
    Entry(&'a Entry),
    /// No entry has the name.
    NoName,
    /// No entry of that name has the encryption type and, for `Keytab::pick`, a key that is usable
    /// with it.
    NoKey,
    /// None of these entries has the requested version number.
    NoVersion,
}

impl<'a> Picked<'a> {
    ghost use Rattle.krb_keytab.specs.Pick.{IsChoiceBy, choice_of};
    ghost use Rattle.krb_keytab.specs.Inner.Pick.{Counts, or_no_key, or_no_version};

    // What is picked if there is one more entry of the name.
    pub(crate) fn or_entry(
        self,
        entry: &'a Entry,
        etype: i32,
        kvno: Option<u32>,
        counted: Counted,
    ) -> Picked<'a>
        ensures { (entries : List KeytabEntry) (name : PrincipalValue)
            → SameName entry.now.principal name
            → IsChoiceBy (Counts counted) entries name etype kvno (choice_of self.entry)
            → IsChoiceBy (Counts counted) (entries ++ entry.now ∷ []) name etype kvno (choice_of result) }
    {
        if !is_key(entry, etype, counted) {
            return self.or_no_key();
        }
        if !has_version(entry, kvno) {
            return self.or_no_version();
        }
        match self {
            Picked::Entry(best) if best.kvno() >= entry.kvno() => self,
            _ => Picked::Entry(entry),
        }
    }

    fn or_no_key(self) -> Picked<'a>
        ensures { choice_of result ≡ or_no_key (choice_of self.entry) }
    {
        match self {
            Picked::NoName => Picked::NoKey,
            _ => self,
        }
    }

    fn or_no_version(self) -> Picked<'a>
        ensures { choice_of result ≡ or_no_version (choice_of self.entry) }
    {
        match self {
            Picked::NoName | Picked::NoKey => Picked::NoVersion,
            _ => self,
        }
    }
}

/// Picks an entry, and looks at those of the name.
pub(crate) fn pick_entry<'a>(
    entries: &'a NamedList<Entry>,
    name: &Principal,
    etype: i32,
    kvno: Option<u32>,
    counted: Counted,
) -> Picked<'a>
    ensures { IsChoiceBy (Counts counted) entries.now name.now etype kvno (choice_of result) }
{
    let sought = SoughtName::new(name);
    let mut picked = Picked::NoName;
    let mut from = 0;
    while let Some(at) = entries.find(&sought, from) {
        picked = picked.or_entry(&entries.as_slice()[at], etype, kvno, counted);
        from = at + 1;
    }
    picked
}
