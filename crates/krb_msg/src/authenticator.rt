// Made from messages.toml by tools/generate/messages.py. Don't edit this file.
//! What a client seals for a service in a request.

ghost use Rattle.std.specs.Prelude.{refl, ◌≡◌, IfOk};
ghost use Rattle.krb_der.specs.Reading.{Parses};
ghost use Rattle.krb_der.specs.Writing.{IsEncoded};
ghost use Rattle.krb_msg.specs.Borrowed.{authenticator_of};
ghost use Rattle.krb_msg.specs.Module.{authenticator};
ghost use Rattle.krb_msg.specs.Owned.{owned_authenticator_of};

use crate::key::{KeyRef, RawKey, owned_key};
use crate::name::{NameIn, NameRef};
use crate::optional::{seq_number_in, seq_number_of};
use crate::tag;
use crate::typed::{Typed, TypedListRef, TypedRef, owned_list, owned_typed};
use krb_der::{
    Constant, Cursor, Element, Encode, EncodeFault, Fault, Field, Maybe, MaybeRef, Message,
    Microseconds, Seconds, SeqNumber, Text, Writer, write_application,
};
use krb_name::Principal;
use std::alloc::{AllocError, Global};

/// An `Authenticator` (RFC 4120, section 5.5.1). Its texts and octets are slices of the input.
#[derive(Drop)]
pub struct AuthenticatorRef<'a> {
    /// The client's realm.
    pub crealm: &'a [u8],
    /// The client's name.
    pub cname: NameRef<'a>,
    /// A checksum over data that the application sends along.
    pub checksum: Option<TypedRef<'a>>,
    /// The microseconds of the client's time.
    pub cusec: Microseconds,
    /// The client's time.
    pub ctime: Seconds,
    /// A key for this session that the client chose.
    pub subkey: Option<KeyRef<'a>>,
    /// The client's first sequence number.
    pub seq_number: Option<u32>,
    /// Authorization data.
    pub authorization: Option<TypedListRef<'a>>,
}

impl<'a> Element<'a> for AuthenticatorRef<'a> {
    ghost kind = { authenticator };

    ghost view = { authenticator_of };

    ghost clear = { refl };

    fn read(cursor: &mut Cursor<'a>) -> Result<AuthenticatorRef<'a>, Fault> {
        match cursor.application(tag::AUTHENTICATOR) {
            Ok(row) => {
                let (Field::<0xa0, Constant<5>>(_), row) = row;
                let (Field::<0xa1, Text>(crealm), row) = row;
                let (Field::<0xa2, NameRef>(cname), row) = row;
                let (Maybe::<0xa3, TypedRef>(checksum), row) = row;
                let (Field::<0xa4, Microseconds>(cusec), row) = row;
                let (Field::<0xa5, Seconds>(ctime), row) = row;
                let (Maybe::<0xa6, KeyRef>(subkey), row) = row;
                let (Maybe::<0xa7, SeqNumber>(seq_number), row) = row;
                let (Maybe::<0xa8, TypedListRef>(authorization), ()) = row;
                Ok(AuthenticatorRef {
                    crealm: crealm.0,
                    cname,
                    checksum,
                    cusec,
                    ctime,
                    subkey,
                    seq_number: seq_number_of(seq_number),
                    authorization,
                })
            }
            Err(fault) => Err(fault),
        }
    }
}

impl<'a> Message<'a> for AuthenticatorRef<'a> {}

impl<'a> AuthenticatorRef<'a> {
    /// Reads a message of this type that takes up all of the bytes. Allocates no memory. Errors as
    /// of [`krb_der::parse`].
    pub fn parse(bytes: &'a [u8]) -> Result<AuthenticatorRef<'a>, Fault>
        ensures { Parses authenticator authenticator_of result bytes.entry.now }
    {
        krb_der::parse(bytes)
    }

    /// Copies the message.
    ///
    /// # Errors
    /// There is no memory.
    pub fn to_owned(&self, alloc: Global) -> Result<Authenticator, AllocError>
        ensures { IfOk result (λ made. owned_authenticator_of made ≡ authenticator_of self.now) }
    {
        Ok(Authenticator {
            client: self.cname.to_principal(alloc, self.crealm)?,
            checksum: owned_typed(alloc, &self.checksum)?,
            cusec: self.cusec,
            ctime: self.ctime,
            subkey: owned_key(alloc, &self.subkey)?,
            seq_number: self.seq_number,
            authorization: owned_list(alloc, &self.authorization)?,
        })
    }
}

/// An `Authenticator` (RFC 4120, section 5.5.1).
#[derive(Drop)]
pub struct Authenticator {
    /// The client: `crealm` and `cname`.
    pub client: Principal,
    /// A checksum over data that the application sends along.
    pub checksum: Option<Typed>,
    /// The microseconds of the client's time.
    pub cusec: Microseconds,
    /// The client's time.
    pub ctime: Seconds,
    /// A key for this session that the client chose.
    pub subkey: Option<RawKey>,
    /// The client's first sequence number.
    pub seq_number: Option<u32>,
    /// Authorization data.
    pub authorization: Option<Vec<Typed>>,
}

impl Encode for Authenticator {
    ghost kind = { authenticator };

    ghost view = { owned_authenticator_of };

    fn write(&self, out: &mut Writer) -> Result<(), EncodeFault> {
        let rest = (MaybeRef::<0xa8, _>(&self.authorization), ());
        let rest = (Maybe::<0xa7, _>(seq_number_in(self.seq_number)), rest);
        let rest = (MaybeRef::<0xa6, _>(&self.subkey), rest);
        let rest = (Field::<0xa5, _>(self.ctime), rest);
        let rest = (Field::<0xa4, _>(self.cusec), rest);
        let rest = (MaybeRef::<0xa3, _>(&self.checksum), rest);
        let rest = (Field::<0xa2, _>(NameIn(&self.client)), rest);
        let rest = (Field::<0xa1, _>(Text(self.client.realm.as_slice())), rest);
        let row = (Field::<0xa0, Constant<5>>(Constant), rest);
        write_application(&row, tag::AUTHENTICATOR, out)
    }
}

impl Authenticator {
    /// Returns the bytes of the message. Errors as of [`krb_der::encoded`].
    pub fn encode(&self, alloc: Global) -> Result<Vec<u8>, EncodeFault>
        ensures { IsEncoded authenticator (owned_authenticator_of self.now) result }
    {
        krb_der::encoded(alloc, self)
    }
}
