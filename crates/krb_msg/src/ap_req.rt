// Made from messages.toml by tools/generate/messages.py. Don't edit this file.
//! Requests.

ghost use Rattle.std.specs.Prelude.{refl, ◌≡◌, IfOk};
ghost use Rattle.krb_der.specs.Reading.{Parses};
ghost use Rattle.krb_der.specs.Writing.{IsEncoded};
ghost use Rattle.krb_msg.specs.Borrowed.{ap_req_of};
ghost use Rattle.krb_msg.specs.Module.{ap_req};
ghost use Rattle.krb_msg.specs.Owned.{owned_ap_req_of};

use crate::header::Header;
use crate::ticket::{Encrypted, EncryptedRef, Ticket, TicketRef};
use crate::{message_type, tag};
use krb_der::{
    Constant, Cursor, Element, Encode, EncodeFault, Fault, Field, Flags, Message, Writer,
    write_application,
};
use std::alloc::{AllocError, Global};

/// An `AP-REQ` (RFC 4120, section 5.5.1). Its texts and octets are slices of the input.
#[derive(Debug, Drop)]
pub struct ApReqRef<'a> {
    /// The options: bit 1 is use-session-key, bit 2 mutual-required.
    pub options: Flags,
    /// The ticket.
    pub ticket: TicketRef<'a>,
    /// The sealed `Authenticator`.
    pub authenticator: EncryptedRef<'a>,
}

impl<'a> Element<'a> for ApReqRef<'a> {
    ghost kind = { ap_req };

    ghost view = { ap_req_of };

    ghost clear = { refl };

    fn read(cursor: &mut Cursor<'a>) -> Result<ApReqRef<'a>, Fault> {
        let row = cursor.application(tag::AP_REQ)?;
        let Header::<{ message_type::AP_REQ }, _>(row) = row;
        let (Field::<0xa2, Flags>(options), row) = row;
        let (Field::<0xa3, TicketRef>(ticket), row) = row;
        let (Field::<0xa4, EncryptedRef>(authenticator), ()) = row;
        Ok(ApReqRef {
            options,
            ticket,
            authenticator,
        })
    }
}

impl<'a> Message<'a> for ApReqRef<'a> {}

impl<'a> ApReqRef<'a> {
    /// Reads a message of this type that takes up all of the bytes. Allocates no memory. Errors as
    /// of [`krb_der::parse`].
    pub fn parse(bytes: &'a [u8]) -> Result<ApReqRef<'a>, Fault>
        ensures { Parses ap_req ap_req_of result bytes.entry.now }
    {
        krb_der::parse(bytes)
    }

    /// Copies the message.
    ///
    /// # Errors
    /// There is no memory.
    pub fn to_owned(&self, alloc: Global) -> Result<ApReq, AllocError>
        ensures { IfOk result (λ made. owned_ap_req_of made ≡ ap_req_of self.now) }
    {
        Ok(ApReq {
            options: self.options,
            ticket: self.ticket.to_owned(alloc)?,
            authenticator: self.authenticator.to_owned(alloc)?,
        })
    }
}

/// An `AP-REQ` (RFC 4120, section 5.5.1).
#[derive(Debug, Drop)]
pub struct ApReq {
    /// The options: bit 1 is use-session-key, bit 2 mutual-required.
    pub options: Flags,
    /// The ticket.
    pub ticket: Ticket,
    /// The sealed `Authenticator`.
    pub authenticator: Encrypted,
}

impl Encode for ApReq {
    ghost kind = { ap_req };

    ghost view = { owned_ap_req_of };

    fn write(&self, out: &mut Writer) -> Result<(), EncodeFault> {
        let rest = (Field::<0xa4, _>(&self.authenticator), ());
        let rest = (Field::<0xa3, _>(&self.ticket), rest);
        let rest = (Field::<0xa2, _>(self.options), rest);
        let rest = (
            Field::<0xa1, Constant<{ message_type::AP_REQ }>>(Constant),
            rest,
        );
        let row = (Field::<0xa0, Constant<5>>(Constant), rest);
        write_application(&row, tag::AP_REQ, out)
    }
}

impl ApReq {
    /// Returns the bytes of the message. Errors as of [`krb_der::encoded`].
    pub fn encode(&self, alloc: Global) -> Result<Vec<u8>, EncodeFault>
        ensures { IsEncoded ap_req (owned_ap_req_of self.now) result }
    {
        krb_der::encoded(alloc, self)
    }
}
