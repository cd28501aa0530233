//! How many tuples each client has, or each pair of names.

ghost use Rattle.std.specs.Prelude.{◌≡◌, ◌<◌, IfSome, OnErr, OnOk};
ghost use Rattle.std.specs.BTreeMap.{btree_map_len, get_key};
ghost use Rattle.std.specs.Option.{option_map};
ghost use Rattle.std.specs.declared.cmp.Ordering.TheVariants.{Equal};
ghost use Rattle.krb_replay.specs.Inner.Counts.{AddsOne, HasNoZero, SameCounts, TakesOne, count_by};

use std::alloc::{AllocError, Global};
use std::collections::BTreeMap;

/// How many tuples each key has, if it has any. A count has 4 bytes.
#[derive(Debug, Drop)]
pub(crate) struct Counts<K: Ord> {
    counts: BTreeMap<K, u32>,
}

impl<K: Ord + Drop> Counts<K> {
    pub(crate) fn new(alloc: Global) -> Counts<K>
        ensures none { (key : K) → count_by K.cmp result.counts key ≡ 0 }
        ensures no_zero { HasNoZero K.cmp result.counts }
    {
        Counts {
            counts: BTreeMap::new(alloc),
        }
    }

    /// Returns how many keys have tuples.
    pub(crate) fn len(&self) -> usize
        ensures { result ≡ btree_map_len self.now.counts }
    {
        self.counts.len()
    }

    /// Returns how many tuples the key has.
    pub(crate) fn of(&self, key: &K) -> u32
        ensures { result ≡ count_by K.cmp self.now.counts key.now }
    {
        match self.counts.get(key) {
            Some(count) => *count,
            None => 0,
        }
    }

    /// Returns the equal key that is kept, if the key has tuples.
    pub(crate) fn kept(&self, key: &K) -> Option<&K>
        ensures equal { IfSome result (λ kept. K.cmp key.now kept.now ≡ Equal) }
        ensures same { option_map (λ kept. kept.now) result ≡ get_key K.cmp self.now.counts key.now }
    {
        match self.counts.get_key_value(key) {
            Some((kept, _)) => Some(kept),
            None => None,
        }
    }

    /// Counts one more tuple of the key. It fails if there is no memory, or the key has 4,294,967,295
    /// tuples already.
    pub(crate) fn add(&mut self, key: K) -> Result<(), AllocError>
        ensures ok { OnOk result (AddsOne K.cmp self.old.counts self.new.counts key) }
        ensures err { OnErr result (SameCounts K.cmp self.old.counts self.new.counts) }
    {
        let Some(count) = self.of(&key).checked_add(1) else {
            return Err(AllocError);
        };
        self.counts.insert(key, count)?;
        Ok(())
    }

    /// Counts one tuple of the key less. Frees the key that is kept, if it has no more tuples.
    pub(crate) fn remove(&mut self, key: &K)
        requires { 0 < count_by K.cmp self.old.counts key.now }
        ensures { TakesOne K.cmp self.old.counts self.new.counts key.now }
    {
        let count = self.of(key);
        if count > 1 {
            match self.counts.get_mut(key) {
                Some(held) => {
                    *held = count - 1;
                    return;
                }
                None => return,
            }
        }
        let _ = self.counts.remove_entry(key);
        self.free_if_empty();
    }

    // An emptied tree keeps a block.
    fn free_if_empty(&mut self)
        ensures { self.new.counts.entries ≡ self.old.counts.entries }
    {
        if self.counts.is_empty() {
            self.counts.clear();
        }
    }
}
