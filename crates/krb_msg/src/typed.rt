//! A number that names a type, and bytes of that type.

ghost use Rattle.std.specs.Prelude.{refl, ◌≡◌, IfOk};
ghost use Rattle.std.specs.Iterator.{YieldsFirstBy, item_count};
ghost use Rattle.std.specs.Option.{option_map};
ghost use Rattle.krb_der.specs.Kind.{leaf, octets};
ghost use Rattle.krb_msg.specs.Borrowed.{typed_of};
ghost use Rattle.krb_msg.specs.Module.{sequence_of, typed};
ghost use Rattle.krb_msg.specs.Owned.{owned_list_of, owned_typed_of};

use krb_der::{Cursor, Element, Encode, EncodeFault, Fault, Field, Octets, Writer, write_sequence};
use std::alloc::{AllocError, Global};
use std::fmt;
use std::marker::Model;

/// Bytes, and the number of their type: a checksum, an address, an element of authorization data,
/// or a transited encoding (RFC 4120, sections 5.2.9, 5.2.5, 5.2.6 and 5.3). The bytes are a slice
/// of the input.
#[derive(Clone, Copy, PartialEq, Eq)]
pub struct TypedRef<'a> {
    /// The type: `cksumtype`, `addr-type`, `ad-type` or `tr-type`.
    pub kind: i32,
    /// The bytes: `checksum`, `address`, `ad-data` or `contents`.
    pub bytes: &'a [u8],
}

// A checksum may hold delegated credentials, so no byte is shown, here and below.
impl fmt::Debug for TypedRef<'_> {
    ghost use Rattle.std.specs.Prelude.{Some};
    ghost use Rattle.krb_msg.specs.Shown.{shown_typed_ref};

    ghost debug_output = { λ typed. Some (shown_typed_ref typed.kind typed.bytes.now) };

    fn fmt<W: fmt::Write>(&self, f: &mut fmt::Formatter<W>) -> fmt::Result {
        let kind = self.kind;
        write!(f, "TypedRef(type {kind}, {} bytes)", self.bytes.len())
    }
}

impl<'a> Element<'a> for TypedRef<'a> {
    ghost kind = { typed (leaf octets) };

    ghost view = { typed_of };

    ghost clear = { refl };

    fn read(cursor: &mut Cursor<'a>) -> Result<TypedRef<'a>, Fault> {
        let row = cursor.sequence()?;
        let (Field::<0xa0, i32>(kind), row) = row;
        let (Field::<0xa1, Octets>(bytes), ()) = row;
        Ok(TypedRef {
            kind,
            bytes: bytes.0,
        })
    }
}

impl<'a> TypedRef<'a> {
    /// Copies the value.
    ///
    /// # Errors
    /// There is no memory.
    pub fn to_owned(&self, alloc: Global) -> Result<Typed, AllocError>
        ensures { IfOk result (λ made. owned_typed_of made ≡ typed_of self.now) }
    {
        Ok(Typed {
            kind: self.kind,
            bytes: self.bytes.to_vec(alloc)?,
        })
    }
}

/// A copy of it, if it is there.
pub(crate) fn owned_typed(
    alloc: Global,
    typed: &Option<TypedRef>,
) -> Result<Option<Typed>, AllocError>
    ensures { IfOk result (λ made. option_map owned_typed_of made ≡ option_map typed_of typed.now) }
{
    typed
        .as_ref()
        .map(|typed| typed.to_owned(alloc))
        .transpose()
}

/// Bytes, and the number of their type: a checksum, an address, an element of authorization data,
/// or a transited encoding (RFC 4120, sections 5.2.9, 5.2.5, 5.2.6 and 5.3).
#[derive(Drop)]
pub struct Typed {
    /// The type: `cksumtype`, `addr-type`, `ad-type` or `tr-type`.
    pub kind: i32,
    /// The bytes: `checksum`, `address`, `ad-data` or `contents`.
    pub bytes: Vec<u8>,
}

impl fmt::Debug for Typed {
    ghost use Rattle.std.specs.Prelude.{Some};
    ghost use Rattle.krb_msg.specs.Shown.{shown_typed};

    ghost debug_output = { λ typed. Some (shown_typed typed.kind typed.bytes.items) };

    fn fmt<W: fmt::Write>(&self, f: &mut fmt::Formatter<W>) -> fmt::Result {
        let kind = self.kind;
        write!(f, "Typed(type {kind}, {} bytes)", self.bytes.len())
    }
}

impl Encode for Typed {
    ghost kind = { typed (leaf octets) };

    ghost view = { owned_typed_of };

    fn write(&self, out: &mut Writer) -> Result<(), EncodeFault> {
        let rest = (Field::<0xa1, _>(Octets(self.bytes.as_slice())), ());
        let row = (Field::<0xa0, _>(&self.kind), rest);
        write_sequence(&row, out)
    }
}

/// A row of addresses, or of elements of authorization data, as slices of the input. A contract
/// sees them as the list of their types and bytes.
#[derive(Debug, Drop)]
pub struct TypedListRef<'a> {
    content: Cursor<'a>,
}

impl<'a> Model for TypedListRef<'a> {
    ghost use Rattle.std.specs.Prelude.{List};
    ghost use Rattle.krb_der.specs.Kind.{leaf, octets, ValueOf};
    ghost use Rattle.krb_der.specs.Computed.Listed.{AreListed, listed};
    ghost use Rattle.krb_msg.specs.Module.{typed};

    ghost Value = { List (ValueOf (typed (leaf octets))) };

    ghost view = { λ l. listed (typed (leaf octets)) l.content };

    ghost invariant = { λ l. AreListed (typed (leaf octets)) l.content };
}

impl<'a> TypedListRef<'a> {
    /// Returns an iterator over the elements, in their order.
    pub fn iter(&self) -> TypedIter<'a>
        ensures { result ≡ self.now }
    {
        TypedIter {
            left: self.content.again(),
        }
    }

    /// Copies the elements, in their order.
    ///
    /// # Errors
    /// There is no memory.
    pub fn to_owned(&self, alloc: Global) -> Result<Vec<Typed>, AllocError>
        ensures { IfOk result (λ made. owned_list_of made.items ≡ self.now) }
    {
        let mut made = Vec::new(alloc);
        for element in self.iter() {
            made.push(element.to_owned(alloc)?)?;
        }
        Ok(made)
    }
}

/// An iterator over [`TypedListRef`] that allocates no memory. A contract sees it as the elements
/// that are left.
#[derive(Debug, Drop)]
pub struct TypedIter<'a> {
    left: Cursor<'a>,
}

impl<'a> Model for TypedIter<'a> {
    ghost use Rattle.std.specs.Prelude.{List};
    ghost use Rattle.krb_der.specs.Kind.{leaf, octets, ValueOf};
    ghost use Rattle.krb_der.specs.Computed.Listed.{AreListed, listed};
    ghost use Rattle.krb_msg.specs.Module.{typed};

    ghost Value = { List (ValueOf (typed (leaf octets))) };

    ghost view = { λ l. listed (typed (leaf octets)) l.left };

    ghost invariant = { λ l. AreListed (typed (leaf octets)) l.left };
}

impl<'a> Iterator for TypedIter<'a> {
    type Item = TypedRef<'a>;

    ghost next_gives = { YieldsFirstBy typed_of (λ l. l) };

    ghost remaining = { item_count (λ l. l) };

    fn next(&mut self) -> Option<TypedRef<'a>> {
        self.left.next::<TypedRef>()
    }
}

/// Copies of the elements, if there is a list.
pub(crate) fn owned_list(
    alloc: Global,
    list: &Option<TypedListRef>,
) -> Result<Option<Vec<Typed>>, AllocError>
    ensures { IfOk result (λ made. option_map (λ l. owned_list_of l.items) made ≡ list.now) }
{
    list.as_ref().map(|list| list.to_owned(alloc)).transpose()
}

impl<'a> Element<'a> for TypedListRef<'a> {
    ghost kind = { sequence_of (typed (leaf octets)) };

    ghost view = { λ l. l };

    ghost clear = { refl };

    fn read(cursor: &mut Cursor<'a>) -> Result<TypedListRef<'a>, Fault> {
        let content = cursor.list::<TypedRef>()?;
        Ok(TypedListRef { content })
    }
}
