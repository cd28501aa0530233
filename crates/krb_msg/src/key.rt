//! Keys of any encryption type.

ghost use Rattle.std.specs.Prelude.{refl, ◌≡◌, IfOk};
ghost use Rattle.std.specs.Option.{option_map};
ghost use Rattle.krb_msg.specs.Borrowed.{key_of};
ghost use Rattle.krb_msg.specs.Module.{encryption_key};
ghost use Rattle.krb_msg.specs.Owned.{owned_key_of};

use crate::typed::TypedRef;
use krb_der::{Cursor, Element, Encode, EncodeFault, Fault, Field, Octets, Writer, write_sequence};
use std::alloc::{AllocError, Global};

/// A key of any type (`EncryptionKey`, RFC 4120, section 5.2.9), as a slice of the input. There is
/// no `Debug`, so no log shows a key.
#[derive(Clone, Copy)]
pub struct KeyRef<'a> {
    /// The encryption type that the key is for.
    pub etype: i32,
    /// The bytes of the key.
    pub bytes: &'a [u8],
}

impl<'a> Element<'a> for KeyRef<'a> {
    ghost kind = { encryption_key };

    ghost view = { key_of };

    ghost clear = { refl };

    fn read(cursor: &mut Cursor<'a>) -> Result<KeyRef<'a>, Fault> {
        let TypedRef { kind, bytes } = TypedRef::read(cursor)?;
        Ok(KeyRef { etype: kind, bytes })
    }
}

impl<'a> KeyRef<'a> {
    /// Copies the key.
    ///
    /// # Errors
    /// There is no memory.
    pub fn to_owned(&self, alloc: Global) -> Result<RawKey, AllocError>
        ensures { IfOk result (λ made. owned_key_of made ≡ key_of self.now) }
    {
        Ok(RawKey {
            etype: self.etype,
            bytes: self.bytes.to_vec(alloc)?,
        })
    }
}

/// A copy of the key, if there is one.
pub(crate) fn owned_key(alloc: Global, key: &Option<KeyRef>) -> Result<Option<RawKey>, AllocError>
    ensures { IfOk result (λ made. option_map owned_key_of made ≡ option_map key_of key.now) }
{
    key.as_ref().map(|key| key.to_owned(alloc)).transpose()
}

/// A key of any type (`EncryptionKey`, RFC 4120, section 5.2.9). There is no `Debug`, so no log
/// shows a key.
#[derive(Drop)]
pub struct RawKey {
    /// The encryption type that the key is for.
    pub etype: i32,
    /// The bytes of the key.
    pub bytes: Vec<u8>,
}

impl Encode for RawKey {
    ghost kind = { encryption_key };

    ghost view = { owned_key_of };

    fn write(&self, out: &mut Writer) -> Result<(), EncodeFault> {
        let rest = (Field::<0xa1, _>(Octets(self.bytes.as_slice())), ());
        let row = (Field::<0xa0, _>(&self.etype), rest);
        write_sequence(&row, out)
    }
}
