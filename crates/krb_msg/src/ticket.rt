// Made from messages.toml by tools/generate/messages.py. Don't edit this file.
//! Tickets and encrypted parts of messages.

ghost use Rattle.std.specs.Prelude.{refl, ◌≡◌, IfOk};
ghost use Rattle.krb_der.specs.Reading.{Parses};
ghost use Rattle.krb_der.specs.Writing.{IsEncoded};
ghost use Rattle.krb_msg.specs.Borrowed.{encrypted_of, ticket_of};
ghost use Rattle.krb_msg.specs.Module.{encrypted_data, ticket};
ghost use Rattle.krb_msg.specs.Owned.{owned_encrypted_of, owned_ticket_of};

use crate::name::{NameIn, NameRef};
use crate::tag;
use krb_der::{
    Constant, Cursor, Element, Encode, EncodeFault, Fault, Field, Maybe, MaybeRef, Message, Octets,
    Text, Writer, write_application, write_sequence,
};
use krb_name::Principal;
use std::alloc::{AllocError, Global};

/// Sealed data (`EncryptedData`, RFC 4120, section 5.2.9), as a slice of the input.
#[derive(Clone, Copy, Debug, PartialEq, Eq)]
pub struct EncryptedRef<'a> {
    /// The encryption type.
    pub etype: i32,
    /// The version number of the key, if it is given.
    pub kvno: Option<u32>,
    /// The sealed bytes.
    pub cipher: &'a [u8],
}

impl<'a> Element<'a> for EncryptedRef<'a> {
    ghost kind = { encrypted_data };

    ghost view = { encrypted_of };

    ghost clear = { refl };

    fn read(cursor: &mut Cursor<'a>) -> Result<EncryptedRef<'a>, Fault> {
        let row = cursor.sequence()?;
        let (Field::<0xa0, i32>(etype), row) = row;
        let (Maybe::<0xa1, u32>(kvno), row) = row;
        let (Field::<0xa2, Octets>(cipher), ()) = row;
        Ok(EncryptedRef {
            etype,
            kvno,
            cipher: cipher.0,
        })
    }
}

impl<'a> EncryptedRef<'a> {
    /// Copies the value.
    ///
    /// # Errors
    /// There is no memory.
    pub fn to_owned(&self, alloc: Global) -> Result<Encrypted, AllocError>
        ensures { IfOk result (λ made. owned_encrypted_of made ≡ encrypted_of self.now) }
    {
        Ok(Encrypted {
            etype: self.etype,
            kvno: self.kvno,
            cipher: self.cipher.to_vec(alloc)?,
        })
    }
}

/// Sealed data (`EncryptedData`, RFC 4120, section 5.2.9).
#[derive(Debug, Drop)]
pub struct Encrypted {
    /// The encryption type.
    pub etype: i32,
    /// The version number of the key, if it is given.
    pub kvno: Option<u32>,
    /// The sealed bytes.
    pub cipher: Vec<u8>,
}

impl Encode for Encrypted {
    ghost kind = { encrypted_data };

    ghost view = { owned_encrypted_of };

    fn write(&self, out: &mut Writer) -> Result<(), EncodeFault> {
        let rest = (Field::<0xa2, _>(Octets(self.cipher.as_slice())), ());
        let rest = (MaybeRef::<0xa1, _>(&self.kvno), rest);
        let row = (Field::<0xa0, _>(&self.etype), rest);
        write_sequence(&row, out)
    }
}

/// A `Ticket` (RFC 4120, section 5.3). Its texts and octets are slices of the input.
#[derive(Debug, Drop)]
pub struct TicketRef<'a> {
    /// The service's realm.
    pub realm: &'a [u8],
    /// The service's name.
    pub sname: NameRef<'a>,
    /// The sealed `EncTicketPart`.
    pub enc_part: EncryptedRef<'a>,
}

impl<'a> Element<'a> for TicketRef<'a> {
    ghost kind = { ticket };

    ghost view = { ticket_of };

    ghost clear = { refl };

    fn read(cursor: &mut Cursor<'a>) -> Result<TicketRef<'a>, Fault> {
        let row = cursor.application(tag::TICKET)?;
        let (Field::<0xa0, Constant<5>>(_), row) = row;
        let (Field::<0xa1, Text>(realm), row) = row;
        let (Field::<0xa2, NameRef>(sname), row) = row;
        let (Field::<0xa3, EncryptedRef>(enc_part), ()) = row;
        Ok(TicketRef {
            realm: realm.0,
            sname,
            enc_part,
        })
    }
}

impl<'a> Message<'a> for TicketRef<'a> {}

impl<'a> TicketRef<'a> {
    /// Reads a ticket that takes up all of the bytes. Allocates no memory. Errors as of
    /// [`krb_der::parse`].
    pub fn parse(bytes: &'a [u8]) -> Result<TicketRef<'a>, Fault>
        ensures { Parses ticket ticket_of result bytes.entry.now }
    {
        krb_der::parse(bytes)
    }

    /// Copies the message.
    ///
    /// # Errors
    /// There is no memory.
    pub fn to_owned(&self, alloc: Global) -> Result<Ticket, AllocError>
        ensures { IfOk result (λ made. owned_ticket_of made ≡ ticket_of self.now) }
    {
        Ok(Ticket {
            service: self.sname.to_principal(alloc, self.realm)?,
            enc_part: self.enc_part.to_owned(alloc)?,
        })
    }
}

/// A `Ticket` (RFC 4120, section 5.3).
#[derive(Debug, Drop)]
pub struct Ticket {
    /// The service: `realm` and `sname`.
    pub service: Principal,
    /// The sealed `EncTicketPart`.
    pub enc_part: Encrypted,
}

impl Encode for Ticket {
    ghost kind = { ticket };

    ghost view = { owned_ticket_of };

    fn write(&self, out: &mut Writer) -> Result<(), EncodeFault> {
        let rest = (Field::<0xa3, _>(&self.enc_part), ());
        let rest = (Field::<0xa2, _>(NameIn(&self.service)), rest);
        let rest = (Field::<0xa1, _>(Text(self.service.realm.as_slice())), rest);
        let row = (Field::<0xa0, Constant<5>>(Constant), rest);
        write_application(&row, tag::TICKET, out)
    }
}

impl Ticket {
    /// Returns the bytes of the message. Errors as of [`krb_der::encoded`].
    pub fn encode(&self, alloc: Global) -> Result<Vec<u8>, EncodeFault>
        ensures { IsEncoded ticket (owned_ticket_of self.now) result }
    {
        krb_der::encoded(alloc, self)
    }
}
