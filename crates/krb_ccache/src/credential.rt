//! A credential of a cache, and a field of its header.

ghost use Rattle.std.specs.Prelude.{◌≡◌, ℕ, true, List, Some};
ghost use Rattle.krb_ccache.specs.Types.{Credential as CredentialValue, Layout as LayoutValue};
ghost use Rattle.krb_ccache.specs.Format.{Spells};
ghost use Rattle.krb_ccache.specs.Inner.Row.{Row as RowShape, Raw, row_bytes, FitsRow, ◌▸◌};
ghost use Rattle.krb_ccache.specs.Inner.Standing.{spelled_as};
ghost use Rattle.krb_ccache.specs.Spelling.{credential_bytes};
ghost use Rattle.krb_ccache.specs.Value.{server_of, HasCredentialLengths, FitsCredential};

use crate::field::Field;
use crate::key_type::KeyType;
use crate::part::Part;
use crate::typed::TypedList;
use krb_name::{Bytes, Named, Principal};
use std::fmt;

/// A field of a cache's header. Tag 1 has the KDC's clock offset, in 8 bytes. Other tags are kept
/// as they are.
#[derive(Debug, Drop)]
pub struct HeaderField {
    /// The tag.
    pub tag: u16,
    /// The value.
    pub value: Bytes,
}

/// A credential: a ticket, its session key, and what the KDC said about them (`EncKDCRepPart`, RFC
/// 4120, section 5.4.2). The fields are those of the file format, in its order.
///
/// In a configuration entry `ticket` has a value instead of a ticket. `Debug` shows the encryption
/// type alone, so no log shows a key.
#[derive(Drop)]
pub struct Credential {
    /// Whose ticket it is.
    pub client: Principal,
    /// The service that the ticket is for.
    pub server: Principal,
    /// The encryption type of the session key.
    pub etype: i16,
    /// The bytes of the session key.
    pub key: Bytes,
    /// When the client was authenticated, in seconds since 1970-01-01.
    pub authtime: u32,
    /// When the ticket becomes valid, in seconds since 1970-01-01; 0 if the KDC didn't say.
    pub starttime: u32,
    /// When the ticket expires.
    pub endtime: u32,
    /// The end of the time in which it can be renewed; 0 if it can't.
    pub renew_till: u32,
    /// Whether the ticket is sealed under the session key of another ticket.
    pub is_skey: bool,
    /// The ticket's flags; bit 0 of RFC 4120, section 5.3, is the most significant.
    pub ticket_flags: u32,
    /// The addresses that the ticket is for.
    pub addresses: TypedList,
    /// Authorization data.
    pub authdata: TypedList,
    /// The bytes of the ticket.
    pub ticket: Bytes,
    /// The bytes of a second ticket, or none.
    pub second_ticket: Bytes,
}

/// The fields of a credential in the order of the file, with names, bytes and lists of these types.
type RowOf<N, B, L> = (N, (N, KeyAnd<B, TimesAnd<FlagsAnd<(L, (L, (B, B)))>>>));

// The encryption type, and the key.
type KeyAnd<B, R> = (KeyType, (B, R));

// `authtime`, `starttime`, `endtime` and `renew_till`.
type TimesAnd<R> = (u32, (u32, (u32, (u32, R))));

// `is_skey`, and the ticket's flags.
type FlagsAnd<R> = (bool, (u32, R));

/// The fields of a credential.
pub(crate) type Row = RowOf<Principal, Bytes, TypedList>;

/// The same, by reference.
type RowRef<'a> = RowOf<&'a Principal, &'a Bytes, &'a TypedList>;

/// A value whose fields stand in a row, as proofs see it.
pub(crate) trait HasRow {
    /// Which fields these are.
    ghost fields: { RowShape };

    /// What their bytes say, with these after the encryption type and this one for `is_skey`.
    ghost parts: { CredentialValue → List ℕ → ℕ → Raw fields };
}

impl HasRow for Credential {
    ghost fields = { ⟦<Row as Field>⟧.fields };

    ghost parts = { λ c second mark. c.client ▸ c.server ▸ (c.etype ▸ second) ▸ c.key
        ▸ c.authtime ▸ c.starttime ▸ c.endtime ▸ c.renew_till ▸ mark ▸ c.ticket_flags
        ▸ c.addresses ▸ c.authdata ▸ c.ticket ▸ c.second_ticket };
}

impl Credential {
    /// Returns the fields, in the order of the file.
    pub(crate) fn row(&self) -> RowRef<'_>
        ensures spelled { ⟦<RowRef<'static> as Part>⟧.spelled result ≡ credential_bytes self.now }
        ensures fits { HasCredentialLengths self.now → ⟦<RowRef<'static> as Part>⟧.Fits result }
        ensures range { ⟦<RowRef<'static> as Part>⟧.InRange result → FitsCredential self.now }
    {
        let tickets = (&self.ticket, &self.second_ticket);
        let lists = (&self.addresses, (&self.authdata, tickets));
        let flags = (self.is_skey, (self.ticket_flags, lists));
        let ends = (self.endtime, (self.renew_till, flags));
        let times = (self.authtime, (self.starttime, ends));
        let etype = self.etype;
        let key = (KeyType { etype }, (&self.key, times));
        (&self.client, (&self.server, key))
    }

    /// Makes the credential of these fields.
    pub(crate) fn from_row(row: Row) -> Credential
        ensures { (layout : LayoutValue) (raw : Raw (⟦<Credential as HasRow>⟧.fields)) → row ≡ ⟦<Row as Field>⟧.value raw
            → FitsRow (⟦<Credential as HasRow>⟧.fields) true layout raw
            → Spells layout (spelled_as (row_bytes (⟦<Credential as HasRow>⟧.fields) raw) result) }
    {
        let (client, (server, (KeyType { etype }, (key, times)))) = row;
        let (authtime, (starttime, (endtime, (renew_till, flags)))) = times;
        let (is_skey, (ticket_flags, (addresses, (authdata, tickets)))) = flags;
        let (ticket, second_ticket) = tickets;
        Credential {
            client,
            server,
            etype,
            key,
            authtime,
            starttime,
            endtime,
            renew_till,
            is_skey,
            ticket_flags,
            addresses,
            authdata,
            ticket,
            second_ticket,
        }
    }
}

impl Named for Credential {
    ghost name_of = { server_of };

    fn name(&self) -> &Principal {
        &self.server
    }
}

impl fmt::Debug for Credential {
    ghost use Rattle.krb_ccache.specs.Value.{shown};

    ghost debug_output = { λ credential. Some (shown credential.etype) };

    fn fmt<W: fmt::Write>(&self, f: &mut fmt::Formatter<W>) -> fmt::Result {
        let etype = self.etype;
        write!(f, "Credential(etype {etype})")
    }
}
