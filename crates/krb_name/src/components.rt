//! The components of a name.

ghost use Rattle.std.specs.Prelude.{◌≡◌, ◌==◌, ◌<◌, ◌^◌, ℕ, List, [], ◌∷◌, ◌++◌, length, All, IfOk, OnErr, OnOk};
ghost use Rattle.std.specs.Int.{w32};
ghost use Rattle.std.specs.List.{flat_map};
ghost use Rattle.std.specs.Cmp.Lexicographic.{pointwise};
ghost use Rattle.std.specs.Iterator.{YieldsFirstBy, item_count};
ghost use Rattle.std.proofs.Common.{rules};
ghost use Rattle.std.specs.Cmp.Rules.{comparing};
ghost use Rattle.krb_file.specs.Cursor.{data_at, data_bytes, times_at};
ghost use Rattle.krb_name.specs.Inner.Held.{AreHeld, IsRead, components_at, listed};

use krb_file::FileCursor;
use std::alloc::{AllocError, Global};
use std::marker::Model;

// How many bytes the length of a component takes.
const LENGTH: usize = 4;

/// The components of a name, in their order (`name-string` of a `PrincipalName`, RFC 4120, section
/// 5.2.2). A contract sees them as a list of lists of bytes.
///
/// They are one piece of memory, in which each takes 4 bytes more than its own.
#[derive(Debug)]
pub struct Components {
    count: usize,
    // Each component after its length.
    bytes: Vec<u8>,
}

impl Model for Components {
    ghost Value = { List (List ℕ) };

    ghost view = { λ c. listed (components_at c.count c.bytes.items) };

    ghost invariant = { λ c. AreHeld c.count c.bytes.items };
}

impl Components {
    /// Makes an empty list. Allocates no memory yet.
    pub fn new(alloc: Global) -> Self
        ensures { result ≡ [] }
    {
        Components {
            count: 0,
            bytes: Vec::new(alloc),
        }
    }

    /// Makes an empty list with room for `count` components of `len` bytes in all.
    ///
    /// # Errors
    /// `AllocError`: there is no memory for that room.
    pub fn with_room(alloc: Global, count: usize, len: usize) -> Result<Self, AllocError>
        ensures { IfOk result (λ components. components ≡ []) }
    {
        let room = count.saturating_mul(LENGTH).saturating_add(len);
        Ok(Components {
            count: 0,
            bytes: Vec::with_capacity(alloc, room)?,
        })
    }

    /// Returns the allocator.
    pub fn allocator(&self) -> Global {
        *self.bytes.allocator()
    }

    /// Returns an iterator over the components, in their order.
    pub fn iter(&self) -> ComponentsIter<'_>
        ensures { result ≡ self.now }
    {
        ComponentsIter {
            left: self.count,
            cursor: FileCursor::new(self.bytes.as_slice()),
        }
    }

    /// Returns the components one after another, each after its length, a big-endian number of 32
    /// bits, as credential caches have them.
    pub fn spelled(&self) -> &[u8]
        ensures spelled { result.now ≡ flat_map (data_bytes w32) self.now }
        ensures small { All (λ component. length component < 2 ^ 32) self.now }
    {
        self.bytes.as_slice()
    }

    /// Returns the number of components.
    pub fn len(&self) -> usize
        ensures { result ≡ length self.now }
    {
        let Components { count, .. } = self;
        *count
    }

    /// Returns whether there are no components.
    pub fn is_empty(&self) -> bool
        ensures { result ≡ (length self.now == 0) }
    {
        self.len() == 0
    }

    /// Appends a copy of `component`.
    ///
    /// # Errors
    /// `AllocError`: there is no memory for it, or it has 4 GiB or more. The components are then
    /// unchanged.
    pub fn push(&mut self, component: &[u8]) -> Result<(), AllocError>
        ensures ok { OnOk result (self.new ≡ self.old ++ component.now ∷ []) }
        ensures small { OnOk result (length component.now < 2 ^ 32) }
        ensures err { OnErr result (self.new ≡ self.old) }
    {
        append(&mut self.bytes, component)?;
        let _len = self.bytes.as_slice().len();
        self.count += 1;
        Ok(())
    }
}

// Appends a component after its length. Without memory, nothing is appended.
fn append(bytes: &mut Vec<u8>, component: &[u8]) -> Result<(), AllocError>
    ensures ok { OnOk result (bytes.new.items ≡ bytes.old.items ++ data_bytes w32 component.now) }
    ensures small { OnOk result (length component.now < 2 ^ 32) }
    ensures err { OnErr result (bytes.new.items ≡ bytes.old.items) }
{
    let Ok(length) = u32::try_from(component.len()) else {
        return Err(AllocError);
    };
    bytes.reserve(LENGTH + component.len())?;
    bytes.extend_from_slice(&length.to_be_bytes())?;
    bytes.extend_from_slice(component)
}

/// An iterator over [`Components`] that allocates no memory. A contract sees it as the components
/// that are left.
#[derive(Drop)]
pub struct ComponentsIter<'a> {
    left: usize,
    cursor: FileCursor<'a>,
}

impl<'a> Model for ComponentsIter<'a> {
    ghost Value = { List (List ℕ) };

    ghost view = { λ c. listed (times_at (data_at w32) c.left c.cursor) };

    ghost invariant = { λ c. IsRead (times_at (data_at w32) c.left c.cursor) };
}

impl<'a> Iterator for ComponentsIter<'a> {
    type Item = &'a [u8];

    ghost next_gives = { YieldsFirstBy (λ x. x.now) (λ c. c) };

    ghost remaining = { item_count (λ c. c) };

    fn next(&mut self) -> Option<&'a [u8]> {
        if self.left == 0 {
            return None;
        }
        self.left -= 1;
        // Can't fail: the invariant says that so many components are here.
        let Ok(first) = self.cursor.read_data32() else {
            return None;
        };
        Some(first)
    }
}

// Written by hand, so that callers see a call.
impl Drop for Components {
    fn drop(self) {
        let Components { count: _, bytes } = self;
        drop(bytes);
    }
}

impl Clone for Components {
    ghost is_clone = { λ old made. made ≡ old };

    fn clone(&self) -> Result<Components, AllocError> {
        Ok(Components {
            count: self.count,
            bytes: self.bytes.clone()?,
        })
    }
}

impl PartialEq for Components {
    ghost eq = { pointwise (pointwise ◌==◌) };

    ghost laws = { Prim.search (comparing, rules) };

    fn eq(&self, other: &Components) -> bool {
        self.count == other.count && self.bytes.as_slice() == other.bytes.as_slice()
    }
}

impl Eq for Components {
    ghost laws = { Prim.search (comparing, rules) };
}
