// Made from messages.toml by tools/generate/messages.py. Don't edit this file.
//! Error messages.

ghost use Rattle.std.specs.Prelude.{refl, ◌≡◌, IfOk};
ghost use Rattle.krb_der.specs.Reading.{Parses};
ghost use Rattle.krb_der.specs.Writing.{IsEncoded};
ghost use Rattle.krb_msg.specs.Borrowed.{krb_error_of};
ghost use Rattle.krb_msg.specs.Module.{krb_error};
ghost use Rattle.krb_msg.specs.Owned.{owned_krb_error_of};

use crate::header::Header;
use crate::name::{Name, NameIn, NameRef, owned_name};
use crate::optional::{octets_bytes, octets_in, owned_octets, owned_text, text_bytes, text_in};
use crate::{message_type, tag};
use krb_der::{
    Constant, Cursor, Element, Encode, EncodeFault, Fault, Field, Maybe, MaybeRef, Message,
    Microseconds, Octets, Seconds, Text, Writer, write_application,
};
use krb_name::{Bytes, Principal};
use std::alloc::{AllocError, Global};

/// A `KRB-ERROR` (RFC 4120, section 5.9.1). Its texts and octets are slices of the input.
#[derive(Debug, Drop)]
pub struct KrbErrorRef<'a> {
    /// The client's time, if the request gave it.
    pub ctime: Option<Seconds>,
    /// The microseconds of the client's time.
    pub cusec: Option<Microseconds>,
    /// The service's time.
    pub stime: Seconds,
    /// The microseconds of the service's time.
    pub susec: Microseconds,
    /// What went wrong (RFC 4120, section 7.5.9).
    pub error_code: i32,
    /// The client's realm.
    pub crealm: Option<&'a [u8]>,
    /// The client's name.
    pub cname: Option<NameRef<'a>>,
    /// The service's realm.
    pub realm: &'a [u8],
    /// The service's name.
    pub sname: NameRef<'a>,
    /// A text for people.
    pub e_text: Option<&'a [u8]>,
    /// More about the error.
    pub e_data: Option<&'a [u8]>,
}

impl<'a> Element<'a> for KrbErrorRef<'a> {
    ghost kind = { krb_error };

    ghost view = { krb_error_of };

    ghost clear = { refl };

    fn read(cursor: &mut Cursor<'a>) -> Result<KrbErrorRef<'a>, Fault> {
        match cursor.application(tag::KRB_ERROR) {
            Ok(row) => {
                let Header::<{ message_type::KRB_ERROR }, _>(row) = row;
                let (Maybe::<0xa2, Seconds>(ctime), row) = row;
                let (Maybe::<0xa3, Microseconds>(cusec), row) = row;
                let (Field::<0xa4, Seconds>(stime), row) = row;
                let (Field::<0xa5, Microseconds>(susec), row) = row;
                let (Field::<0xa6, i32>(error_code), row) = row;
                let (Maybe::<0xa7, Text>(crealm), row) = row;
                let (Maybe::<0xa8, NameRef>(cname), row) = row;
                let (Field::<0xa9, Text>(realm), row) = row;
                let (Field::<0xaa, NameRef>(sname), row) = row;
                let (Maybe::<0xab, Text>(e_text), row) = row;
                let (Maybe::<0xac, Octets>(e_data), ()) = row;
                Ok(KrbErrorRef {
                    ctime,
                    cusec,
                    stime,
                    susec,
                    error_code,
                    crealm: text_bytes(crealm),
                    cname,
                    realm: realm.0,
                    sname,
                    e_text: text_bytes(e_text),
                    e_data: octets_bytes(e_data),
                })
            }
            Err(fault) => Err(fault),
        }
    }
}

impl<'a> Message<'a> for KrbErrorRef<'a> {}

impl<'a> KrbErrorRef<'a> {
    /// Reads a message of this type that takes up all of the bytes. Allocates no memory. Errors as
    /// of [`krb_der::parse`].
    pub fn parse(bytes: &'a [u8]) -> Result<KrbErrorRef<'a>, Fault>
        ensures { Parses krb_error krb_error_of result bytes.entry.now }
    {
        krb_der::parse(bytes)
    }

    /// Copies the message.
    ///
    /// # Errors
    /// There is no memory.
    pub fn to_owned(&self, alloc: Global) -> Result<KrbError, AllocError>
        ensures { IfOk result (λ made. owned_krb_error_of made ≡ krb_error_of self.now) }
    {
        Ok(KrbError {
            ctime: self.ctime,
            cusec: self.cusec,
            stime: self.stime,
            susec: self.susec,
            error_code: self.error_code,
            crealm: owned_text(alloc, &self.crealm)?,
            cname: owned_name(alloc, &self.cname)?,
            service: self.sname.to_principal(alloc, self.realm)?,
            e_text: owned_text(alloc, &self.e_text)?,
            e_data: owned_octets(alloc, &self.e_data)?,
        })
    }
}

/// A `KRB-ERROR` (RFC 4120, section 5.9.1).
#[derive(Debug, Drop)]
pub struct KrbError {
    /// The client's time, if the request gave it.
    pub ctime: Option<Seconds>,
    /// The microseconds of the client's time.
    pub cusec: Option<Microseconds>,
    /// The service's time.
    pub stime: Seconds,
    /// The microseconds of the service's time.
    pub susec: Microseconds,
    /// What went wrong (RFC 4120, section 7.5.9).
    pub error_code: i32,
    /// The client's realm.
    pub crealm: Option<Bytes>,
    /// The client's name.
    pub cname: Option<Name>,
    /// The service: `realm` and `sname`.
    pub service: Principal,
    /// A text for people.
    pub e_text: Option<Bytes>,
    /// More about the error.
    pub e_data: Option<Vec<u8>>,
}

impl Encode for KrbError {
    ghost kind = { krb_error };

    ghost view = { owned_krb_error_of };

    fn write(&self, out: &mut Writer) -> Result<(), EncodeFault> {
        let rest = (Maybe::<0xac, _>(octets_in(&self.e_data)), ());
        let rest = (Maybe::<0xab, _>(text_in(&self.e_text)), rest);
        let rest = (Field::<0xaa, _>(NameIn(&self.service)), rest);
        let rest = (Field::<0xa9, _>(Text(self.service.realm.as_slice())), rest);
        let rest = (MaybeRef::<0xa8, _>(&self.cname), rest);
        let rest = (Maybe::<0xa7, _>(text_in(&self.crealm)), rest);
        let rest = (Field::<0xa6, _>(&self.error_code), rest);
        let rest = (Field::<0xa5, _>(self.susec), rest);
        let rest = (Field::<0xa4, _>(self.stime), rest);
        let rest = (MaybeRef::<0xa3, _>(&self.cusec), rest);
        let rest = (MaybeRef::<0xa2, _>(&self.ctime), rest);
        let rest = (
            Field::<0xa1, Constant<{ message_type::KRB_ERROR }>>(Constant),
            rest,
        );
        let row = (Field::<0xa0, Constant<5>>(Constant), rest);
        write_application(&row, tag::KRB_ERROR, out)
    }
}

impl KrbError {
    /// Returns the bytes of the message. Errors as of [`krb_der::encoded`].
    pub fn encode(&self, alloc: Global) -> Result<Vec<u8>, EncodeFault>
        ensures { IsEncoded krb_error (owned_krb_error_of self.now) result }
    {
        krb_der::encoded(alloc, self)
    }
}
