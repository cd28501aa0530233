//! Opened requests: what is remembered of them, and what is known of them if they are accepted.

ghost use Rattle.std.specs.Prelude.{◌≡◌, IfOk};
ghost use Rattle.krb_ap.specs.Words.{IsTakenFrom, IsUsable, ap_req_of, authenticator_of, enc_ticket_part_of, option_map, owned_list_of, owned_typed_of, part_client, sent_at, service_of, stamp_of, typed_of};
ghost use Rattle.krb_ap.specs.Answer.{taken_of};
ghost use Rattle.krb_ap.specs.Inner.Stages.{key_in};

use crate::accepted::Accepted;
use crate::keys::{owned_key, usable_key};
use krb_msg::{
    ApReqRef, AuthenticatorRef, EncTicketRef, MUTUAL_REQUIRED, Moment, Principal, Typed,
    TypedListRef, TypedRef,
};
use krb_replay::Tuple;
use std::alloc::{AllocError, Global};

/// What a request is opened as (RFC 4120, section 3.2.3): the request, the ticket's sealed part and
/// the authenticator.
#[derive(Drop)]
pub(crate) struct Opened<'a> {
    pub(crate) request: &'a ApReqRef<'a>,
    pub(crate) part: &'a EncTicketRef<'a>,
    pub(crate) auth: &'a AuthenticatorRef<'a>,
    // The one copy of each name: the tuple is made of it, and then the answer has it.
    pub(crate) server: Principal,
    pub(crate) client: Principal,
    ghost server_is: { server ≡ service_of (ap_req_of request.now) },
    ghost client_is: { client ≡ part_client (enc_ticket_part_of part.now) },
}

impl Opened<'_> {
    /// What is remembered of it.
    #[inline(never)]
    pub(crate) fn tuple(&self, alloc: Global) -> Result<Tuple, AllocError>
        ensures { IfOk result (λ tuple. tuple
            ≡ stamp_of (ap_req_of self.now.request.now) (enc_ticket_part_of self.now.part.now) (authenticator_of self.now.auth.now)) }
    {
        let auth = self.auth;
        Tuple::of(alloc, &self.server, &self.client, auth.ctime, auth.cusec)
    }

    /// What is known of it, if it is accepted.
    #[inline(never)]
    pub(crate) fn accepted(self, alloc: Global) -> Result<Accepted, AllocError>
        requires { IsUsable (key_in self.part.now.key) }
        ensures { IfOk result (λ x. IsTakenFrom (ap_req_of self.entry.request.now) (enc_ticket_part_of self.entry.part.now) (authenticator_of self.entry.auth.now) (taken_of x)) }
    {
        let part = self.part;
        let auth = self.auth;
        Ok(Accepted {
            client: self.client,
            service: self.server,
            session_key: usable_key(part.key.etype, part.key.bytes),
            flags: part.flags,
            transited: part.transited.to_owned(alloc)?,
            authtime: part.authtime,
            starttime: part.starttime,
            endtime: part.endtime,
            addresses: owned_list(alloc, &part.caddr)?,
            ticket_authorization: owned_list(alloc, &part.authorization)?,
            subkey: owned_key(alloc, &auth.subkey)?,
            seq: auth.seq_number,
            checksum: owned_typed(alloc, &auth.checksum)?,
            authenticator_authorization: owned_list(alloc, &auth.authorization)?,
            ctime: auth.ctime,
            cusec: auth.cusec,
            mutual: self.request.options.has(MUTUAL_REQUIRED),
        })
    }
}

/// When a client sent a request, by its own clock.
pub(crate) fn sent_at(auth: &AuthenticatorRef) -> Moment
    ensures { result ≡ sent_at (authenticator_of auth.now) }
{
    Moment::at(auth.ctime, auth.cusec)
}

fn owned_list(alloc: Global, list: &Option<TypedListRef>) -> Result<Option<Vec<Typed>>, AllocError>
    ensures { IfOk result (λ made. option_map (λ l. owned_list_of l.items) made ≡ list.now) }
{
    list.as_ref().map(|list| list.to_owned(alloc)).transpose()
}

fn owned_typed(alloc: Global, typed: &Option<TypedRef>) -> Result<Option<Typed>, AllocError>
    ensures { IfOk result (λ made. option_map owned_typed_of made ≡ option_map typed_of typed.now) }
{
    typed
        .as_ref()
        .map(|typed| typed.to_owned(alloc))
        .transpose()
}
