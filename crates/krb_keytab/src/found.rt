//! What a reader finds where a record may begin, and what it keeps of an entry.

ghost use Rattle.std.specs.Prelude.{◌≡◌, ⊤, IfOk, OnErr};
ghost use Rattle.krb_keytab.specs.Entry.{KeytabEntry};
ghost use Rattle.krb_keytab.specs.Inner.Meeting.{nothing_of};

use crate::entry::Entry;
use crate::view::EntryView;
use std::alloc::{AllocError, Global};

/// What is at a place where a record may begin, with what is kept of an entry.
#[derive(Drop)]
pub(crate) enum Found<E> {
    /// The records have ended.
    End,
    /// A hole.
    Hole,
    /// An entry.
    Entry(E),
}

/// What a reader keeps of each entry.
pub(crate) trait Keep {
    type Kept: Drop;

    /// What is kept of this entry.
    ghost kept_of: { KeytabEntry → Self.Kept };

    /// That memory may be lacking for it.
    ghost allocates: { Type 0 };

    /// Returns what is kept of `entry`.
    fn keep(&self, entry: &EntryView) -> Result<Self::Kept, AllocError>
        ensures kept { IfOk result (λ kept. kept ≡ kept_of entry.now) }
        ensures memory { OnErr result allocates };
}

/// Keeps nothing.
#[derive(Drop)]
pub(crate) struct Nothing;

impl Keep for Nothing {
    type Kept = ();

    ghost kept_of = { nothing_of };

    ghost allocates = { ⊥ };

    fn keep(&self, _entry: &EntryView) -> Result<(), AllocError> {
        Ok(())
    }
}

/// Keeps a copy, in this memory.
impl Keep for Global {
    type Kept = Entry;

    ghost kept_of = { λ entry. entry };

    ghost allocates = { ⊤ };

    fn keep(&self, entry: &EntryView) -> Result<Entry, AllocError> {
        entry.to_entry(*self)
    }
}
