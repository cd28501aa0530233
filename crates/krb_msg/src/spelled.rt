//! A ticket as the bytes that spell it, and a request over it.

ghost use Rattle.krb_der.specs.Reading.{Parses};
ghost use Rattle.krb_der.specs.Writing.{IsEncoded};
ghost use Rattle.krb_msg.specs.Module.{ap_req, ticket};
ghost use Rattle.krb_msg.specs.Spelled.{spelled_ap_req_of};

use crate::ticket::{Encrypted, TicketRef};
use crate::{laws, message_type, tag};
use krb_der::{
    Constant, Encode, EncodeFault, Fault, Field, Flags, MESSAGE_LIMIT, Writer, write_application,
};
use std::alloc::Global;
use std::marker::Model;

/// A `Ticket` (RFC 4120, section 5.3) and the bytes that it was read from. It is written as they
/// are, without a copy of its parts.
#[derive(Drop)]
pub struct SpelledTicket<'a> {
    ticket: TicketRef<'a>,
    bytes: &'a [u8],
}

impl<'a> Model for SpelledTicket<'a> {
    ghost use Rattle.krb_der.specs.Kind.{ValueOf};
    ghost use Rattle.krb_der.specs.Writing.{Writes};
    ghost use Rattle.krb_msg.specs.Borrowed.{ticket_of};
    ghost use Rattle.krb_msg.specs.Module.{ticket as ticket_kind};

    ghost Value = { ValueOf ticket_kind };

    ghost view = { λ t. ticket_of t.ticket };

    ghost invariant = { λ t. Writes ticket_kind (ticket_of t.ticket) t.bytes.now };
}

impl<'a> SpelledTicket<'a> {
    /// Reads a ticket that takes up all of the bytes. Allocates no memory. Errors as of
    /// [`krb_der::parse`].
    pub fn parse(bytes: &'a [u8]) -> Result<SpelledTicket<'a>, Fault>
        ensures { Parses ticket (λ t. t) result bytes.entry.now }
    {
        laws::one_spelling();
        let ticket = TicketRef::parse(bytes)?;
        Ok(SpelledTicket { ticket, bytes })
    }
}

impl Encode for SpelledTicket<'_> {
    ghost kind = { ticket };

    ghost view = { λ t. t };

    fn write(&self, out: &mut Writer) -> Result<(), EncodeFault> {
        krb_der::laws::written();
        if out.len().saturating_add(self.bytes.len()) > MESSAGE_LIMIT {
            return Err(EncodeFault::TooLong);
        }
        out.raw(self.bytes)?;
        Ok(())
    }
}

/// An `AP-REQ` (RFC 4120, section 5.5.1) that is made of a ticket's bytes.
#[derive(Drop)]
pub struct ApReqOver<'a> {
    /// The options: bit 1 is use-session-key, bit 2 mutual-required.
    pub options: Flags,
    /// The ticket.
    pub ticket: SpelledTicket<'a>,
    /// The sealed `Authenticator`.
    pub authenticator: Encrypted,
}

impl Encode for ApReqOver<'_> {
    ghost kind = { ap_req };

    ghost view = { spelled_ap_req_of };

    fn write(&self, out: &mut Writer) -> Result<(), EncodeFault> {
        let rest = (Field::<0xa4, _>(&self.authenticator), ());
        let rest = (Field::<0xa3, _>(&self.ticket), rest);
        let rest = (Field::<0xa2, _>(self.options), rest);
        let rest = (
            Field::<0xa1, Constant<{ message_type::AP_REQ }>>(Constant),
            rest,
        );
        let row = (Field::<0xa0, Constant<5>>(Constant), rest);
        write_application(&row, tag::AP_REQ, out)
    }
}

impl ApReqOver<'_> {
    /// Returns the bytes of the message. Errors as of [`krb_der::encoded`].
    pub fn encode(&self, alloc: Global) -> Result<Vec<u8>, EncodeFault>
        ensures { IsEncoded ap_req (spelled_ap_req_of self.now) result }
    {
        krb_der::encoded(alloc, self)
    }
}
