// Made from messages.toml by tools/generate/messages.py. Don't edit this file.
//! The sealed part of a ticket.

ghost use Rattle.std.specs.Prelude.{refl, ◌≡◌, IfOk};
ghost use Rattle.krb_der.specs.Reading.{Parses};
ghost use Rattle.krb_der.specs.Writing.{IsEncoded};
ghost use Rattle.krb_msg.specs.Borrowed.{enc_ticket_part_of};
ghost use Rattle.krb_msg.specs.Module.{enc_ticket_part};
ghost use Rattle.krb_msg.specs.Owned.{owned_enc_ticket_part_of};

use crate::key::{KeyRef, RawKey};
use crate::name::{NameIn, NameRef};
use crate::tag;
use crate::typed::{Typed, TypedListRef, TypedRef, owned_list};
use krb_der::{
    Cursor, Element, Encode, EncodeFault, Fault, Field, Flags, Maybe, MaybeRef, Message, Seconds,
    Text, Writer, write_application,
};
use krb_name::Principal;
use std::alloc::{AllocError, Global};

/// An `EncTicketPart` (RFC 4120, section 5.3). Its texts and octets are slices of the input.
#[derive(Drop)]
pub struct EncTicketRef<'a> {
    /// The ticket's flags: bit 7 is invalid, bit 12 transited-policy-checked.
    pub flags: Flags,
    /// The session key.
    pub key: KeyRef<'a>,
    /// The client's realm.
    pub crealm: &'a [u8],
    /// The client's name.
    pub cname: NameRef<'a>,
    /// The realms that took part in the client's authentication.
    pub transited: TypedRef<'a>,
    /// When the client was authenticated.
    pub authtime: Seconds,
    /// When the ticket becomes valid; if absent, at authtime.
    pub starttime: Option<Seconds>,
    /// When the ticket expires.
    pub endtime: Seconds,
    /// The end of the time in which the ticket can be renewed.
    pub renew_till: Option<Seconds>,
    /// The addresses that the ticket is for.
    pub caddr: Option<TypedListRef<'a>>,
    /// Authorization data.
    pub authorization: Option<TypedListRef<'a>>,
}

impl<'a> Element<'a> for EncTicketRef<'a> {
    ghost kind = { enc_ticket_part };

    ghost view = { enc_ticket_part_of };

    ghost clear = { refl };

    fn read(cursor: &mut Cursor<'a>) -> Result<EncTicketRef<'a>, Fault> {
        match cursor.application(tag::ENC_TICKET_PART) {
            Ok(row) => {
                let (Field::<0xa0, Flags>(flags), row) = row;
                let (Field::<0xa1, KeyRef>(key), row) = row;
                let (Field::<0xa2, Text>(crealm), row) = row;
                let (Field::<0xa3, NameRef>(cname), row) = row;
                let (Field::<0xa4, TypedRef>(transited), row) = row;
                let (Field::<0xa5, Seconds>(authtime), row) = row;
                let (Maybe::<0xa6, Seconds>(starttime), row) = row;
                let (Field::<0xa7, Seconds>(endtime), row) = row;
                let (Maybe::<0xa8, Seconds>(renew_till), row) = row;
                let (Maybe::<0xa9, TypedListRef>(caddr), row) = row;
                let (Maybe::<0xaa, TypedListRef>(authorization), ()) = row;
                Ok(EncTicketRef {
                    flags,
                    key,
                    crealm: crealm.0,
                    cname,
                    transited,
                    authtime,
                    starttime,
                    endtime,
                    renew_till,
                    caddr,
                    authorization,
                })
            }
            Err(fault) => Err(fault),
        }
    }
}

impl<'a> Message<'a> for EncTicketRef<'a> {}

impl<'a> EncTicketRef<'a> {
    /// Reads a message of this type that takes up all of the bytes. Allocates no memory. Errors as
    /// of [`krb_der::parse`].
    pub fn parse(bytes: &'a [u8]) -> Result<EncTicketRef<'a>, Fault>
        ensures { Parses enc_ticket_part enc_ticket_part_of result bytes.entry.now }
    {
        krb_der::parse(bytes)
    }

    /// Copies the message.
    ///
    /// # Errors
    /// There is no memory.
    pub fn to_owned(&self, alloc: Global) -> Result<EncTicketPart, AllocError>
        ensures { IfOk result (λ made. owned_enc_ticket_part_of made ≡ enc_ticket_part_of self.now) }
    {
        Ok(EncTicketPart {
            flags: self.flags,
            key: self.key.to_owned(alloc)?,
            client: self.cname.to_principal(alloc, self.crealm)?,
            transited: self.transited.to_owned(alloc)?,
            authtime: self.authtime,
            starttime: self.starttime,
            endtime: self.endtime,
            renew_till: self.renew_till,
            caddr: owned_list(alloc, &self.caddr)?,
            authorization: owned_list(alloc, &self.authorization)?,
        })
    }
}

/// An `EncTicketPart` (RFC 4120, section 5.3).
#[derive(Drop)]
pub struct EncTicketPart {
    /// The ticket's flags: bit 7 is invalid, bit 12 transited-policy-checked.
    pub flags: Flags,
    /// The session key.
    pub key: RawKey,
    /// The client: `crealm` and `cname`.
    pub client: Principal,
    /// The realms that took part in the client's authentication.
    pub transited: Typed,
    /// When the client was authenticated.
    pub authtime: Seconds,
    /// When the ticket becomes valid; if absent, at authtime.
    pub starttime: Option<Seconds>,
    /// When the ticket expires.
    pub endtime: Seconds,
    /// The end of the time in which the ticket can be renewed.
    pub renew_till: Option<Seconds>,
    /// The addresses that the ticket is for.
    pub caddr: Option<Vec<Typed>>,
    /// Authorization data.
    pub authorization: Option<Vec<Typed>>,
}

impl Encode for EncTicketPart {
    ghost kind = { enc_ticket_part };

    ghost view = { owned_enc_ticket_part_of };

    fn write(&self, out: &mut Writer) -> Result<(), EncodeFault> {
        let rest = (MaybeRef::<0xaa, _>(&self.authorization), ());
        let rest = (MaybeRef::<0xa9, _>(&self.caddr), rest);
        let rest = (MaybeRef::<0xa8, _>(&self.renew_till), rest);
        let rest = (Field::<0xa7, _>(self.endtime), rest);
        let rest = (MaybeRef::<0xa6, _>(&self.starttime), rest);
        let rest = (Field::<0xa5, _>(self.authtime), rest);
        let rest = (Field::<0xa4, _>(&self.transited), rest);
        let rest = (Field::<0xa3, _>(NameIn(&self.client)), rest);
        let rest = (Field::<0xa2, _>(Text(self.client.realm.as_slice())), rest);
        let rest = (Field::<0xa1, _>(&self.key), rest);
        let row = (Field::<0xa0, _>(self.flags), rest);
        write_application(&row, tag::ENC_TICKET_PART, out)
    }
}

impl EncTicketPart {
    /// Returns the bytes of the message. Errors as of [`krb_der::encoded`].
    pub fn encode(&self, alloc: Global) -> Result<Vec<u8>, EncodeFault>
        ensures { IsEncoded enc_ticket_part (owned_enc_ticket_part_of self.now) result }
    {
        krb_der::encoded(alloc, self)
    }
}
