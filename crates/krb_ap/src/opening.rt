//! The steps of opening a request, which `judging` puts in order.

ghost use Rattle.std.specs.Prelude.{◌≡◌, ◌≢◌, ◌<◌, ◌↔◌, false, IfOk, IfErr, IsTrue, OnOk};
ghost use Rattle.krb_ap.specs.Words.{Asks, IsKnown, IsMessage, Opens, ap_req_of, authenticator, authenticator_of, enc_ticket_part, enc_ticket_part_of, name_size, part_client, profile_of, ticket_of, ticket_service};
ghost use Rattle.krb_ap.specs.Causes.{BeginsOtherwise, place};
ghost use Rattle.krb_ap.specs.Inner.Stages.{IsCauseOfBytes, IsNone, IsShut};
ghost use Rattle.krb_ap.specs.declared.refusal.Refusal.TheVariants.{AuthenticatorIntegrity, OutOfMemory, Skew, TicketIntegrity};

use crate::inner_laws::facts;
use crate::refusal::Refusal;
use krb_enc::{OpenFault, UsageKey, etype};
use krb_msg::{
    ApReqRef, AuthenticatorRef, EncTicketRef, EncryptedRef, KeyRef, Principal, TicketRef,
    USE_SESSION_KEY, tag,
};
use std::alloc::{AllocError, Global};

/// Refuses unless this holds.
pub(crate) fn require(holds: bool, refusal: Refusal) -> Result<(), Refusal>
    ensures so { OnOk result (IsTrue holds) }
    ensures not_so { IfErr result (λ answered. (answered ≡ refusal) × (holds ≡ false)) }
{
    if holds { Ok(()) } else { Err(refusal) }
}

/// Reads a request of the ordinary kind (not user-to-user). It allocates no memory.
#[inline(never)]
pub(crate) fn read_request<'a>(bytes: &'a [u8]) -> Result<ApReqRef<'a>, Refusal>
    ensures read { IfOk result (λ request. Asks bytes.entry.now (ap_req_of request)) }
    ensures refused { IfErr result (IsCauseOfBytes bytes.entry.now) }
    ensures named { IfErr result (λ refusal. refusal ≢ OutOfMemory) }
    ensures early { IfErr result (λ refusal. place refusal < place Skew) }
{
    facts();
    if begins_otherwise(bytes, tag::AP_REQ) {
        return Err(Refusal::MessageType);
    }
    let request = match ApReqRef::parse(bytes) {
        Ok(request) => request,
        Err(fault) => return Err(Refusal::Malformed(fault)),
    };
    if request.options.has(USE_SESSION_KEY) {
        return Err(Refusal::UserToUser);
    }
    if !is_known(&request.ticket.enc_part) {
        return Err(Refusal::TicketEtype);
    }
    Ok(request)
}

/// Whether bytes begin with another tag. It allocates no memory.
pub(crate) fn begins_otherwise(bytes: &[u8], tag: u8) -> bool
    ensures { IsTrue result ↔ BeginsOtherwise tag bytes.now }
{
    bytes.first().is_some_and(|first| *first != tag)
}

fn is_known(sealed: &EncryptedRef) -> bool
    ensures { IsTrue result ↔ IsKnown sealed.now.etype }
{
    etype::is_known(sealed.etype)
}

/// Whether the name of the service that a ticket is for is larger than `most`. It reads no more of
/// the name than it must, and allocates no memory.
pub(crate) fn is_larger(ticket: &TicketRef, most: usize) -> bool
    ensures { IsTrue result ↔ (most < name_size (ticket_service (ticket_of ticket.now))) }
{
    if most < ticket.realm.len() {
        return true;
    }
    let mut left = most - ticket.realm.len();
    for component in ticket.sname.components.iter() {
        if left <= component.len() {
            return true;
        }
        left -= component.len() + 1;
    }
    false
}

/// The service that a ticket is for.
pub(crate) fn service(alloc: Global, ticket: &TicketRef) -> Result<Principal, AllocError>
    ensures { IfOk result (λ service. service ≡ ticket_service (ticket_of ticket.now)) }
{
    ticket.sname.to_principal(alloc, ticket.realm)
}

/// The client that a ticket names.
pub(crate) fn client(alloc: Global, part: &EncTicketRef) -> Result<Principal, AllocError>
    ensures { IfOk result (λ client. client ≡ part_client (enc_ticket_part_of part.now)) }
{
    part.cname.to_principal(alloc, part.crealm)
}

/// Reads the plain text of a ticket's sealed part. It allocates no memory.
pub(crate) fn read_ticket<'a>(plain: &'a [u8]) -> Result<EncTicketRef<'a>, Refusal>
    ensures found { IfOk result (λ part. IsMessage enc_ticket_part (enc_ticket_part_of part) plain.entry.now) }
    ensures refused { IfErr result (λ refusal. refusal ≡ TicketIntegrity) }
    ensures none { IfErr result (λ _. IsNone enc_ticket_part plain.entry.now) }
{
    EncTicketRef::parse(plain).map_err(|_| Refusal::TicketIntegrity)
}

/// Whether a text is sealed with a key's encryption type.
pub(crate) fn is_of_type(sealed: &EncryptedRef, key: &KeyRef) -> bool
    ensures { IsTrue result ↔ (sealed.now.etype ≡ key.now.etype) }
{
    sealed.etype == key.etype
}

/// Reads the plain text of an authenticator. It allocates no memory.
pub(crate) fn read_authenticator<'a>(plain: &'a [u8]) -> Result<AuthenticatorRef<'a>, Refusal>
    ensures found { IfOk result (λ auth. IsMessage authenticator (authenticator_of auth) plain.entry.now) }
    ensures refused { IfErr result (λ refusal. refusal ≡ AuthenticatorIntegrity) }
    ensures none { IfErr result (λ _. IsNone authenticator plain.entry.now) }
{
    AuthenticatorRef::parse(plain).map_err(|_| Refusal::AuthenticatorIntegrity)
}

/// Opens a sealed text, or answers `shut` if nothing opens.
pub(crate) fn open_under(
    alloc: Global,
    key: &UsageKey,
    cipher: &[u8],
    shut: Refusal,
) -> Result<Vec<u8>, Refusal>
    ensures opened { IfOk result (λ plain.
        Opens (profile_of key.now.key) key.now.key.bytes key.now.usage cipher.now plain.items) }
    ensures refused { IfErr result (λ refusal. refusal ≢ OutOfMemory → refusal ≡ shut) }
    ensures nothing { IfErr result (λ refusal. refusal ≢ OutOfMemory → IsShut key.now.key key.now.usage cipher.now) }
{
    match key.open(alloc, cipher) {
        Ok(plain) => Ok(plain),
        Err(OpenFault::OutOfMemory) => Err(Refusal::OutOfMemory),
        Err(OpenFault::Short) => Err(shut),
        Err(OpenFault::Integrity) => Err(shut),
    }
}
