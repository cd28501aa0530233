//! Reading the parts of a cache from a cursor.

ghost use Rattle.std.specs.Prelude.{◌≡◌, ℕ, List, [], ◌∷◌, ◌++◌, Option, None, Some, IfOk, OnOk};
ghost use Rattle.std.specs.Int.{w32};
ghost use Rattle.krb_file.specs.Cursor.{Place, data_at, times_at};

use crate::item_fault::ItemFault;
use krb_file::FileCursor;
use krb_name::{Bytes, Components};
use std::alloc::{AllocError, Global};

// Each call reads the part that begins here, copies it and moves past it. On an error the position
// is unspecified.

pub(crate) fn read_data(alloc: Global, cursor: &mut FileCursor<'_>) -> Result<Bytes, ItemFault>
    ensures read { IfOk result (λ bytes. data_at w32 cursor.old ≡ Some (bytes, cursor.new)) }
    ensures missing { result ≡ Err ItemFault.Missing → data_at w32 cursor.old ≡ None }
{
    let bytes = cursor.read_data32()?;
    Ok(Bytes::from_slice(alloc, bytes)?)
}

/// A list whose elements stand one after another.
pub(crate) trait Listed: Sized {
    /// What an element means.
    ghost Element: { Type 0 };

    /// How an element is read.
    ghost element: { Place → Option (Element × Place) };

    /// The elements.
    ghost elements: { Self → List Element };

    /// Makes an empty list with room for `count` elements.
    fn with_room(alloc: Global, count: usize) -> Result<Self, AllocError>
        ensures { IfOk result (λ list. elements list ≡ []) };

    /// Reads the element that begins here, and appends a copy of it.
    fn read_next(&mut self, alloc: Global, cursor: &mut FileCursor<'_>) -> Result<(), ItemFault>
        ensures read { OnOk result ((one : Element) × (element cursor.old ≡ Some (one, cursor.new))
            × (elements self.new ≡ elements self.old ++ one ∷ [])) }
        ensures missing { result ≡ Err ItemFault.Missing → element cursor.old ≡ None };
}

#[tactic(auto, using(krb_file::proofs::Repeated::times_goes_on, krb_file::proofs::Repeated::times_stops, krb_file::proofs::Repeated::times_done))]
pub(crate) fn read_list<L: Listed + Drop>(
    alloc: Global,
    cursor: &mut FileCursor<'_>,
    count: u32,
) -> Result<L, ItemFault>
    ensures read { IfOk result (λ list.
        times_at L.element count cursor.old ≡ Some (L.elements list, cursor.new)) }
    ensures missing { result ≡ Err ItemFault.Missing
        → times_at L.element count cursor.old ≡ None }
{
    let mut list = L::with_room(alloc, count as usize)?;
    for _ in 0..count {
        list.read_next(alloc, cursor)?;
    }
    Ok(list)
}

impl Listed for Components {
    ghost Element = { List ℕ };

    ghost element = { data_at w32 };

    ghost elements = { λ components. components };

    fn with_room(alloc: Global, count: usize) -> Result<Components, AllocError> {
        // (room for short ones, so that most need no more)
        Components::with_room(alloc, count, count.saturating_mul(12))
    }

    fn read_next(&mut self, _: Global, cursor: &mut FileCursor<'_>) -> Result<(), ItemFault> {
        Ok(self.push(cursor.read_data32()?)?)
    }
}
