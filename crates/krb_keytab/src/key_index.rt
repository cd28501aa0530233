//! Looking for keys.

ghost use Rattle.std.specs.Prelude.{◌≡◌, ◌↔◌, IfOk, IsTrue, take};
ghost use Rattle.krb_keytab.specs.SameKey.{HasKeyOf, IsSameKey};

use crate::entry::Entry;
use krb_index::HashIndex;
use std::alloc::{AllocError, Global};
use std::marker::Model;

/// An index of entries by key, to find out whether a key is among them. A contract sees it as the
/// list of the entries.
///
/// Two entries have the same key if their names, encryption types, version numbers and bytes are
/// the same. Names are compared as by `Principal::same_name`. Timestamps aren't compared.
///
/// Looking for a key takes as long with many entries as with few, unless they were chosen so that
/// many share a place in the index.
#[derive(Drop)]
pub struct KeyIndex<'a> {
    entries: &'a [Entry],
    // Of the hashes of their keys, in the same order.
    index: HashIndex,
}

impl<'a> Model for KeyIndex<'a> {
    ghost use Rattle.std.specs.Prelude.{◌≡◌, List, map};
    ghost use Rattle.krb_keytab.specs.Entry.{KeytabEntry};
    ghost use Rattle.krb_keytab.specs.Inner.KeyHash.{key_hash};

    ghost Value = { List KeytabEntry };

    ghost view = { λ k. k.entries.now };

    ghost invariant = { λ k. k.index ≡ map key_hash k.entries.now };
}

impl<'a> KeyIndex<'a> {
    /// Makes the index of `entries`.
    ///
    /// Allocates 12 bytes for each entry, and 4 more.
    ///
    /// # Errors
    /// There is no memory, or there are more than 4,294,967,295 entries.
    pub fn new(alloc: Global, entries: &'a [Entry]) -> Result<KeyIndex<'a>, AllocError>
        ensures { IfOk result (λ index. index ≡ entries.now) }
    {
        let mut hashes = Vec::with_capacity(alloc, entries.len())?;
        for entry in entries {
            hashes.push(entry.key_hash())?;
        }
        let index = HashIndex::new(alloc, hashes)?;
        Ok(KeyIndex { entries, index })
    }

    /// Returns whether one of the entries has the key of `entry`.
    pub fn has(&self, entry: &Entry) -> bool
        ensures { IsTrue result ↔ HasKeyOf self.now entry.now }
    {
        self.has_before(self.entries.len(), entry)
    }

    /// Returns whether one of the first `place` entries has the key of `entry`. If there are fewer,
    /// it looks for it in all.
    pub fn has_before(&self, place: usize, entry: &Entry) -> bool
        ensures { IsTrue result ↔ HasKeyOf (take place self.now) entry.now }
    {
        let hash = entry.key_hash();
        let mut from = 0;
        while let Some(at) = self.index.find(hash, from) {
            if at >= place {
                return false;
            }
            if is_same_key(&self.entries[at], entry) {
                return true;
            }
            from = at + 1;
        }
        false
    }
}

fn is_same_key(one: &Entry, other: &Entry) -> bool
    ensures { IsTrue result ↔ IsSameKey one.now other.now }
{
    one.principal().same_name(other.principal())
        && one.etype() == other.etype()
        && one.kvno() == other.kvno()
        && one.key() == other.key()
}
