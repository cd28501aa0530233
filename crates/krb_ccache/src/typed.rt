//! Addresses and authorization data: bytes with a type.

ghost use Rattle.std.specs.Prelude.{◌≡◌, ◌==◌, List, [], ◌∷◌, ◌++◌, length, OnErr, OnOk};
ghost use Rattle.krb_ccache.specs.declared.typed.TypedBytes.{TypedBytes as TypedBytesValue};

use crate::item_fault::ItemFault;
use crate::items::{Listed, read_data};
use krb_file::FileCursor;
use krb_name::Bytes;
use std::alloc::{AllocError, Global};
use std::marker::Model;

/// Bytes with a type: an address (`HostAddress`, RFC 4120, section 5.2.5), or an element of
/// authorization data (`AuthorizationData`, section 5.2.6).
#[derive(Debug, Drop)]
pub struct TypedBytes {
    /// The type's number: `addr-type` or `ad-type`.
    pub kind: u16,
    /// The bytes.
    pub bytes: Bytes,
}

/// Addresses, or elements of authorization data, in their order. A contract sees them as a list.
#[derive(Debug, Drop)]
pub struct TypedList {
    items: Vec<TypedBytes>,
}

impl Model for TypedList {
    ghost Value = { List TypedBytesValue };

    ghost view = { λ list. list.items.items };
}

impl TypedList {
    /// Makes an empty list. Allocates no memory yet.
    pub fn new(alloc: Global) -> Self
        ensures { result ≡ [] }
    {
        TypedList {
            items: Vec::new(alloc),
        }
    }

    /// Returns the elements, in their order.
    pub fn as_slice(&self) -> &[TypedBytes]
        ensures { result.now ≡ self.now }
    {
        self.items.as_slice()
    }

    /// Returns how many elements there are.
    pub fn len(&self) -> usize
        ensures { result ≡ length self.now }
    {
        self.items.len()
    }

    /// Returns whether there are no elements.
    pub fn is_empty(&self) -> bool
        ensures { result ≡ (length self.now == 0) }
    {
        self.items.is_empty()
    }

    /// Appends `element`. If there is no memory, the list is unchanged.
    pub fn push(&mut self, element: TypedBytes) -> Result<(), AllocError>
        ensures ok { OnOk result (self.new ≡ self.old ++ element ∷ []) }
        ensures err { OnErr result (self.new ≡ self.old) }
    {
        Ok(self.items.push(element)?)
    }
}

impl Listed for TypedList {
    ghost use Rattle.krb_ccache.specs.Inner.Reading.{typed_at};

    ghost Element = { TypedBytesValue };

    ghost element = { typed_at };

    ghost elements = { λ list. list };

    fn with_room(alloc: Global, count: usize) -> Result<TypedList, AllocError> {
        Ok(TypedList {
            items: Vec::with_capacity(alloc, count)?,
        })
    }

    #[tactic(auto, unfolding(crate::specs::Inner::Reading::typed_at))]
    fn read_next(&mut self, alloc: Global, cursor: &mut FileCursor<'_>) -> Result<(), ItemFault> {
        let kind = cursor.read_u16()?;
        let bytes = read_data(alloc, cursor)?;
        Ok(self.push(TypedBytes { kind, bytes })?)
    }
}
