//! A list of things that have names, in which one is found by its name.

ghost use Rattle.std.specs.Prelude.{◌≡◌, ◌<◌, ◌≤◌, [], ◌∷◌, ◌++◌, IfOk, IfSome, IfNone, OnErr, OnOk, MatchOption, All, length, drop};
ghost use Rattle.krb_name.specs.Name.{SameName};
ghost use Rattle.krb_name.specs.Named.{IsFirstNamed, HasOtherName, KeepsNamed};
ghost use Rattle.krb_name.specs.Inner.Named.{OthersBetween};

use crate::principal::Principal;
use crate::sought_name::SoughtName;
use krb_index::HashIndex;
use std::alloc::{AllocError, Global};
use std::marker::Model;

/// A thing that has a name, by which it is found in a [`NamedList`].
pub trait Named {
    ghost use Rattle.krb_name.specs.declared.principal.Principal.{Principal as PrincipalValue};

    /// Its name.
    ghost name_of: { Self → PrincipalValue };

    /// Returns its name.
    fn name(&self) -> &Principal
        ensures { result.now ≡ name_of self.now };
}

/// A list of things that have names. A contract sees it as the list of these things.
///
/// A list that [`NamedListBuilder::finish`] made has an index of its names. Finding a name in it takes
/// as long with many names as with few, unless they were chosen so that many share a place in the
/// index.
#[derive(Drop)]
pub struct NamedList<T: Named + Drop> {
    // Of the hashes of the names, in the same order. None if the list was made without. It is freed
    // first: memory that is freed may be overwritten, also what the items' room has left over.
    index: Option<HashIndex>,
    items: Vec<T>,
}

impl<T: Named + Drop> Model for NamedList<T> {
    ghost use Rattle.std.specs.Prelude.{◌≡◌, List, IfSome, map};
    ghost use Rattle.krb_name.specs.Name.{name_hash};

    ghost Value = { List T };

    ghost view = { λ list. list.items.items };

    ghost invariant = { λ list. IfSome list.index (λ hashes.
        hashes ≡ map (λ one. name_hash (T.name_of one)) list.items.items) };
}

impl<T: Named + Drop> NamedList<T> {
    /// Makes a list without an index. Allocates no memory.
    pub fn plain(items: Vec<T>) -> NamedList<T>
        ensures { result ≡ items.items }
    {
        let index = None;
        NamedList { index, items }
    }

    /// Returns the items.
    pub fn as_slice(&self) -> &[T]
        ensures { result.now ≡ self.now }
    {
        self.items.as_slice()
    }

    /// Returns the index of the first item, from the index `from` on, that has this name. Returns
    /// `None` if there is none. Name types aren't compared.
    pub fn find(&self, name: &SoughtName<'_>, from: usize) -> Option<usize>
        ensures found { IfSome result (IsFirstNamed T.name_of self.now name.now from) }
        ensures within { IfSome result (λ at. at < length self.now) }
        ensures none { IfNone result (All (HasOtherName T.name_of name.now) (drop from self.now)) }
    {
        let wanted = name.principal();
        let mut next = from;
        while let Some(at) = self.candidate(name, next) {
            if self.items[at].name().same_name(wanted) {
                return Some(at);
            }
            next = at + 1;
        }
        None
    }

    /// Keeps only the items of this name, in their order. The others are freed. Allocates no memory.
    /// Name types aren't compared.
    pub fn retain_named(&mut self, name: &Principal)
        ensures kept { KeepsNamed T.name_of name.now self.old self.new }
        ensures named { All (λ one. SameName (T.name_of one) name.now) self.new }
    {
        self.items.retain(|item| item.name().same_name(name));
        if let Some(index) = &mut self.index {
            index.fill(name.name_hash(), self.items.len());
        }
    }

    // The first item, from the index `from` on, that may have this name.
    fn candidate(&self, name: &SoughtName<'_>, from: usize) -> Option<usize>
        ensures { MatchOption result
            (OthersBetween T.name_of self.now name.now from (length self.now))
            (λ at. (from ≤ at) × (at < length self.now)
            × OthersBetween T.name_of self.now name.now from at) }
    {
        match &self.index {
            Some(index) => index.find(name.hash(), from),
            None if from < self.items.len() => Some(from),
            None => None,
        }
    }
}

/// Makes a [`NamedList`] of items that come one by one. A contract sees it as the list of these
/// items.
///
/// The name of an item is hashed when the item comes, so that the index can be made without reading
/// the items again. A hash takes 4 bytes. The list of hashes grows by doubling, as that of the items
/// does: it takes up to 8 bytes more for each item while it grows, and up to 4 after that.
#[derive(Drop)]
pub struct NamedListBuilder<T: Named + Drop> {
    items: Vec<T>,
    // Of the names, in the same order.
    hashes: Vec<u32>,
}

impl<T: Named + Drop> Model for NamedListBuilder<T> {
    ghost use Rattle.std.specs.Prelude.{◌≡◌, List, map};
    ghost use Rattle.krb_name.specs.Name.{name_hash};

    ghost Value = { List T };

    ghost view = { λ builder. builder.items.items };

    ghost invariant = { λ builder.
        builder.hashes.items ≡ map (λ one. name_hash (T.name_of one)) builder.items.items };
}

impl<T: Named + Drop> NamedListBuilder<T> {
    /// Makes a builder without items. Allocates no memory yet.
    pub fn new(alloc: Global) -> NamedListBuilder<T>
        ensures { result ≡ [] }
    {
        NamedListBuilder {
            items: Vec::new(alloc),
            hashes: Vec::new(alloc),
        }
    }

    /// Makes a builder without items, with room for `count` of them.
    ///
    /// # Errors
    /// There is no memory.
    pub fn with_room(alloc: Global, count: usize) -> Result<NamedListBuilder<T>, AllocError>
        ensures { IfOk result (λ builder. builder ≡ []) }
    {
        Ok(NamedListBuilder {
            items: Vec::with_capacity(alloc, count)?,
            hashes: Vec::with_capacity(alloc, count)?,
        })
    }

    /// Appends `item`, and hashes its name.
    ///
    /// # Errors
    /// There is no memory. The items are unchanged, and `item` is freed.
    pub fn push(&mut self, item: T) -> Result<(), AllocError>
        ensures ok { OnOk result (self.new ≡ self.old ++ item ∷ []) }
        ensures err { OnErr result (self.new ≡ self.old) }
    {
        self.items.reserve(1)?;
        self.hashes.reserve(1)?;
        self.hashes.push_reserved(item.name().name_hash());
        self.items.push_reserved(item);
        Ok(())
    }

    /// Returns the items, in the order in which they came.
    pub fn as_slice(&self) -> &[T]
        ensures { result.now ≡ self.now }
    {
        &self.items
    }

    /// Returns the number of items.
    pub fn len(&self) -> usize
        ensures { result ≡ length self.now }
    {
        self.items.len()
    }

    /// Makes the list of the items, with an index. The index takes 12 bytes for each item and 4 more,
    /// and keeps the room of the hashes that isn't used.
    ///
    /// # Errors
    /// There is no memory, or there are more than 4,294,967,295 items. The items are freed.
    pub fn finish(self, alloc: Global) -> Result<NamedList<T>, AllocError>
        ensures { IfOk result (λ list. list ≡ self) }
    {
        let NamedListBuilder { items, hashes } = self;
        let index = Some(HashIndex::new(alloc, hashes)?);
        Ok(NamedList { index, items })
    }

    /// Makes the list of the items, without an index. This is for few items. Allocates no memory.
    pub fn finish_plain(self) -> NamedList<T>
        ensures { result ≡ self }
    {
        let NamedListBuilder { items, .. } = self;
        NamedList::plain(items)
    }
}
