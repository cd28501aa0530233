//! A name without its realm.

ghost use Rattle.std.specs.Prelude.{refl, ◌≡◌, ◌↔◌, IfOk, IsTrue, map};
ghost use Rattle.std.specs.Option.{option_map};
ghost use Rattle.krb_der.specs.Writing.{EncodesValue};
ghost use Rattle.krb_msg.specs.Borrowed.{name_of};
ghost use Rattle.krb_msg.specs.Fields.{name_value};
ghost use Rattle.krb_msg.specs.Module.{principal_name};
ghost use Rattle.krb_msg.specs.Owned.{owned_name_of, principal_name_of};

use crate::texts::Texts;
use krb_der::{
    Cursor, Element, Encode, EncodeFault, Fault, Field, TextList, Writer, write_sequence,
};
use krb_name::{Bytes, Components, Principal};
use smallvec::SmallVec;
use std::alloc::{AllocError, Global};
use std::convert::AsSlice;

/// A `PrincipalName` (RFC 4120, section 5.2.2) of a message.
#[derive(Debug, Drop)]
pub struct NameRef<'a> {
    /// The name type (RFC 4120, section 6.2).
    pub name_type: i32,
    /// The components, in their order.
    pub components: Texts<'a>,
}

impl<'a> Element<'a> for NameRef<'a> {
    ghost kind = { principal_name };

    ghost view = { name_of };

    ghost clear = { refl };

    fn read(cursor: &mut Cursor<'a>) -> Result<NameRef<'a>, Fault> {
        let row = cursor.sequence()?;
        let (Field::<0xa0, i32>(name_type), row) = row;
        let (Field::<0xa1, Texts>(components), ()) = row;
        Ok(NameRef {
            name_type,
            components,
        })
    }
}

impl<'a> NameRef<'a> {
    /// Returns whether the names have the same components, byte for byte. Name types aren't compared (RFC 4120, section 6.2).
    pub fn has_same_components(&self, other: &NameRef) -> bool
        ensures { IsTrue result ↔ (self.now.components ≡ other.now.components) }
    {
        let mut others = other.components.iter();
        for component in self.components.iter() {
            match others.next() {
                Some(text) if text == component => {}
                _ => return false,
            }
        }
        others.next().is_none()
    }

    /// Copies the name.
    ///
    /// # Errors
    /// There is no memory.
    pub fn to_owned(&self, alloc: Global) -> Result<Name, AllocError>
        ensures { IfOk result (λ made. owned_name_of made ≡ name_of self.now) }
    {
        Ok(Name {
            name_type: self.name_type,
            components: self.components.to_owned(alloc)?,
        })
    }

    /// Returns the principal of this name in a realm, with copies of both.
    ///
    /// # Errors
    /// There is no memory.
    pub fn to_principal(&self, alloc: Global, realm: &[u8]) -> Result<Principal, AllocError>
        ensures realm { IfOk result (λ made. made.realm ≡ realm.now) }
        ensures name { IfOk result (λ made. principal_name_of made ≡ name_of self.now) }
    {
        let Name {
            name_type,
            components,
        } = self.to_owned(alloc)?;
        Ok(Principal {
            realm: Bytes::from_slice(alloc, realm)?,
            name_type,
            components,
        })
    }
}

/// A copy of the name, if there is one.
pub(crate) fn owned_name(alloc: Global, name: &Option<NameRef>) -> Result<Option<Name>, AllocError>
    ensures { IfOk result (λ made. option_map owned_name_of made ≡ option_map name_of name.now) }
{
    name.as_ref().map(|name| name.to_owned(alloc)).transpose()
}

/// A `PrincipalName` (RFC 4120, section 5.2.2): a name without a realm.
#[derive(Debug, Drop)]
pub struct Name {
    /// The name type (RFC 4120, section 6.2).
    pub name_type: i32,
    /// The components, in their order.
    pub components: Components,
}

impl Encode for Name {
    ghost kind = { principal_name };

    ghost view = { owned_name_of };

    fn write(&self, out: &mut Writer) -> Result<(), EncodeFault> {
        write_name(&self.name_type, &self.components, out)
    }
}

/// The name of a principal without its realm, ready to be written.
#[derive(Clone, Copy)]
pub(crate) struct NameIn<'a>(pub(crate) &'a Principal);

impl Encode for NameIn<'_> {
    ghost kind = { principal_name };

    ghost view = { λ n. principal_name_of n.0.now };

    fn write(&self, out: &mut Writer) -> Result<(), EncodeFault> {
        write_name(&self.0.name_type, &self.0.components, out)
    }
}

// A component that is lent, to be written as a string.
#[derive(Clone, Copy, Default)]
struct Component<'a>(&'a [u8]);

impl AsSlice<u8> for Component<'_> {
    ghost items = { λ c. c.0.now };

    fn as_slice(&self) -> &[u8] {
        self.0
    }
}

// The components, to be written. Up to four take no memory.
fn lent(components: &Components) -> Result<SmallVec<Component<'_>, 4>, AllocError>
    ensures { IfOk result (λ made. map (λ c. c.0.now) made.items ≡ components.now) }
{
    let mut made = SmallVec::new(components.allocator());
    for component in components.iter() {
        made.push(Component(component))?;
    }
    Ok(made)
}

fn write_name(name_type: &i32, components: &Components, out: &mut Writer) -> Result<(), EncodeFault>
    ensures { EncodesValue principal_name (name_value name_type.now components.now) result out.old out.new }
{
    let made = lent(components)?;
    let rest = (Field::<0xa1, _>(TextList(made.as_slice())), ());
    let row = (Field::<0xa0, _>(name_type), rest);
    write_sequence(&row, out)
}
