// Made from messages.toml by tools/generate/messages.py. Don't edit this file.
//! Replies.

ghost use Rattle.std.specs.Prelude.{refl, ◌≡◌, IfOk};
ghost use Rattle.krb_der.specs.Reading.{Parses};
ghost use Rattle.krb_der.specs.Writing.{IsEncoded};
ghost use Rattle.krb_msg.specs.Borrowed.{ap_rep_of};
ghost use Rattle.krb_msg.specs.Module.{ap_rep};
ghost use Rattle.krb_msg.specs.Owned.{owned_ap_rep_of};

use crate::header::Header;
use crate::ticket::{Encrypted, EncryptedRef};
use crate::{message_type, tag};
use krb_der::{
    Constant, Cursor, Element, Encode, EncodeFault, Fault, Field, Message, Writer,
    write_application,
};
use std::alloc::{AllocError, Global};

/// An `AP-REP` (RFC 4120, section 5.5.2). Its octets are slices of the input.
#[derive(Debug, Drop)]
pub struct ApRepRef<'a> {
    /// The sealed `EncAPRepPart`.
    pub enc_part: EncryptedRef<'a>,
}

impl<'a> Element<'a> for ApRepRef<'a> {
    ghost kind = { ap_rep };

    ghost view = { ap_rep_of };

    ghost clear = { refl };

    fn read(cursor: &mut Cursor<'a>) -> Result<ApRepRef<'a>, Fault> {
        let row = cursor.application(tag::AP_REP)?;
        let Header::<{ message_type::AP_REP }, _>(row) = row;
        let (Field::<0xa2, EncryptedRef>(enc_part), ()) = row;
        Ok(ApRepRef { enc_part })
    }
}

impl<'a> Message<'a> for ApRepRef<'a> {}

impl<'a> ApRepRef<'a> {
    /// Reads a message of this type that takes up all of the bytes. Allocates no memory. Errors as
    /// of [`krb_der::parse`].
    pub fn parse(bytes: &'a [u8]) -> Result<ApRepRef<'a>, Fault>
        ensures { Parses ap_rep ap_rep_of result bytes.entry.now }
    {
        krb_der::parse(bytes)
    }

    /// Copies the message.
    ///
    /// # Errors
    /// There is no memory.
    pub fn to_owned(&self, alloc: Global) -> Result<ApRep, AllocError>
        ensures { IfOk result (λ made. owned_ap_rep_of made ≡ ap_rep_of self.now) }
    {
        Ok(ApRep {
            enc_part: self.enc_part.to_owned(alloc)?,
        })
    }
}

/// An `AP-REP` (RFC 4120, section 5.5.2).
#[derive(Debug, Drop)]
pub struct ApRep {
    /// The sealed `EncAPRepPart`.
    pub enc_part: Encrypted,
}

impl Encode for ApRep {
    ghost kind = { ap_rep };

    ghost view = { owned_ap_rep_of };

    fn write(&self, out: &mut Writer) -> Result<(), EncodeFault> {
        let rest = (Field::<0xa2, _>(&self.enc_part), ());
        let rest = (
            Field::<0xa1, Constant<{ message_type::AP_REP }>>(Constant),
            rest,
        );
        let row = (Field::<0xa0, Constant<5>>(Constant), rest);
        write_application(&row, tag::AP_REP, out)
    }
}

impl ApRep {
    /// Returns the bytes of the message. Errors as of [`krb_der::encoded`].
    pub fn encode(&self, alloc: Global) -> Result<Vec<u8>, EncodeFault>
        ensures { IsEncoded ap_rep (owned_ap_rep_of self.now) result }
    {
        krb_der::encoded(alloc, self)
    }
}
