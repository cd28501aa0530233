// Made from messages.toml by tools/generate/messages.py. Don't edit this file.
//! What a service seals for a client in a reply.

ghost use Rattle.std.specs.Prelude.{refl, ◌≡◌, IfOk};
ghost use Rattle.krb_der.specs.Reading.{Parses};
ghost use Rattle.krb_der.specs.Writing.{IsEncoded};
ghost use Rattle.krb_msg.specs.Borrowed.{enc_ap_rep_part_of};
ghost use Rattle.krb_msg.specs.Module.{enc_ap_rep_part};
ghost use Rattle.krb_msg.specs.Owned.{owned_enc_ap_rep_part_of};

use crate::key::{KeyRef, RawKey, owned_key};
use crate::optional::{seq_number_in, seq_number_of};
use crate::tag;
use krb_der::{
    Cursor, Element, Encode, EncodeFault, Fault, Field, Maybe, MaybeRef, Message, Microseconds,
    Seconds, SeqNumber, Writer, write_application,
};
use std::alloc::{AllocError, Global};
use std::marker::PhantomData;

/// An `EncAPRepPart` (RFC 4120, section 5.5.2). Its octets are slices of the input.
#[derive(Drop)]
pub struct EncApRepRef<'a> {
    /// The client's time, as in its authenticator.
    pub ctime: Seconds,
    /// The microseconds of the client's time.
    pub cusec: Microseconds,
    /// A key for this session that the service chose.
    pub subkey: Option<KeyRef<'a>>,
    /// The service's first sequence number.
    pub seq_number: Option<u32>,
    // Without this field the borrow checker refuses `?` on what `parse` answers.
    input: PhantomData<&'a [u8]>,
}

impl<'a> Element<'a> for EncApRepRef<'a> {
    ghost kind = { enc_ap_rep_part };

    ghost view = { enc_ap_rep_part_of };

    ghost clear = { refl };

    fn read(cursor: &mut Cursor<'a>) -> Result<EncApRepRef<'a>, Fault> {
        match cursor.application(tag::ENC_AP_REP_PART) {
            Ok(row) => {
                let (Field::<0xa0, Seconds>(ctime), row) = row;
                let (Field::<0xa1, Microseconds>(cusec), row) = row;
                let (Maybe::<0xa2, KeyRef>(subkey), row) = row;
                let (Maybe::<0xa3, SeqNumber>(seq_number), ()) = row;
                Ok(EncApRepRef {
                    ctime,
                    cusec,
                    subkey,
                    seq_number: seq_number_of(seq_number),
                    input: PhantomData,
                })
            }
            Err(fault) => Err(fault),
        }
    }
}

impl<'a> Message<'a> for EncApRepRef<'a> {}

impl<'a> EncApRepRef<'a> {
    /// Reads a message of this type that takes up all of the bytes. Allocates no memory. Errors as
    /// of [`krb_der::parse`].
    pub fn parse(bytes: &'a [u8]) -> Result<EncApRepRef<'a>, Fault>
        ensures { Parses enc_ap_rep_part enc_ap_rep_part_of result bytes.entry.now }
    {
        krb_der::parse(bytes)
    }

    /// Copies the message.
    ///
    /// # Errors
    /// There is no memory.
    pub fn to_owned(&self, alloc: Global) -> Result<EncApRepPart, AllocError>
        ensures { IfOk result (λ made. owned_enc_ap_rep_part_of made ≡ enc_ap_rep_part_of self.now) }
    {
        Ok(EncApRepPart {
            ctime: self.ctime,
            cusec: self.cusec,
            subkey: owned_key(alloc, &self.subkey)?,
            seq_number: self.seq_number,
        })
    }
}

/// An `EncAPRepPart` (RFC 4120, section 5.5.2).
#[derive(Drop)]
pub struct EncApRepPart {
    /// The client's time, as in its authenticator.
    pub ctime: Seconds,
    /// The microseconds of the client's time.
    pub cusec: Microseconds,
    /// A key for this session that the service chose.
    pub subkey: Option<RawKey>,
    /// The service's first sequence number.
    pub seq_number: Option<u32>,
}

impl Encode for EncApRepPart {
    ghost kind = { enc_ap_rep_part };

    ghost view = { owned_enc_ap_rep_part_of };

    fn write(&self, out: &mut Writer) -> Result<(), EncodeFault> {
        let rest = (Maybe::<0xa3, _>(seq_number_in(self.seq_number)), ());
        let rest = (MaybeRef::<0xa2, _>(&self.subkey), rest);
        let rest = (Field::<0xa1, _>(self.cusec), rest);
        let row = (Field::<0xa0, _>(self.ctime), rest);
        write_application(&row, tag::ENC_AP_REP_PART, out)
    }
}

impl EncApRepPart {
    /// Returns the bytes of the message. Errors as of [`krb_der::encoded`].
    pub fn encode(&self, alloc: Global) -> Result<Vec<u8>, EncodeFault>
        ensures { IsEncoded enc_ap_rep_part (owned_enc_ap_rep_part_of self.now) result }
    {
        krb_der::encoded(alloc, self)
    }
}
