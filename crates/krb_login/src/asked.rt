//! What a request asks for, as anyone can read it.

ghost use Rattle.std.specs.Prelude.{◌≡◌, ◌↔◌, IfOk, OnErr, IsSomeAnd, IsTrue};
ghost use Rattle.std.specs.Option.{MatchOption};
ghost use Rattle.krb_ap.specs.Opened.{AsksFor as AsksForService, service_of};
ghost use Rattle.krb_ap.specs.Taken.{IsMutual};
ghost use Rattle.krb_login.specs.Asked.{Asks, AsksNothing, AsksSomething, IsAsked};
ghost use Rattle.krb_login.specs.Inner.{Awaits};
ghost use Rattle.krb_msg.specs.Borrowed.{ap_req_of};

use krb_msg::{ApReqRef, MUTUAL_REQUIRED, Principal};
use std::alloc::{AllocError, Global};

/// What a request asks for. Nothing of this is sealed, so it is fit for a log, and proves nothing.
#[derive(Debug, Drop)]
pub struct Asked {
    /// The service that the ticket is for.
    pub service: Principal,
    /// The encryption type that the ticket is sealed with.
    pub etype: i32,
    /// The version number of the key that the ticket is sealed with, if the ticket says it.
    pub kvno: Option<u32>,
    /// Whether the client awaits a reply.
    pub wants_reply: bool,
}

/// Reads what a request asks for, without any key; or nothing if the bytes aren't a request.
///
/// # Errors
/// `AllocError`: the bytes are a request, and there is no memory for the service's name.
#[inline(never)]
pub fn asked_by(alloc: Global, bytes: &[u8]) -> Result<Option<Asked>, AllocError>
    ensures asked { IfOk result (λ asked. MatchOption asked (AsksNothing bytes.now) (Asks bytes.now)) }
    ensures memory { OnErr result (AsksSomething bytes.now) }
{
    let Ok(request) = ApReqRef::parse(bytes) else {
        return Ok(None);
    };
    match of_request(alloc, &request) {
        Ok(asked) => Ok(Some(asked)),
        Err(error) => Err(error),
    }
}

/// Says what a request asks for, whose ticket is for this service; or nothing if the bytes aren't a
/// request.
pub(crate) fn asked_of(service: Principal, bytes: &[u8]) -> Option<Asked>
    ensures { AsksForService bytes.now service → IsSomeAnd result (Asks bytes.now) }
{
    krb_msg::laws::one_value();
    let Ok(request) = ApReqRef::parse(bytes) else {
        return None;
    };
    Some(asked_with(service, &request))
}

/// Whether the client of a request awaits a reply.
pub(crate) fn wants_reply(bytes: &[u8]) -> bool
    ensures { Awaits bytes.now result }
{
    let Ok(request) = ApReqRef::parse(bytes) else {
        return false;
    };
    is_mutual(&request)
}

fn of_request(alloc: Global, request: &ApReqRef) -> Result<Asked, AllocError>
    ensures { IfOk result (IsAsked (ap_req_of request.now)) }
{
    let ticket = &request.ticket;
    let service = ticket.sname.to_principal(alloc, ticket.realm)?;
    Ok(asked_with(service, request))
}

fn asked_with(service: Principal, request: &ApReqRef) -> Asked
    ensures { service ≡ service_of (ap_req_of request.now) → IsAsked (ap_req_of request.now) result }
{
    let ticket = &request.ticket;
    Asked {
        service,
        etype: ticket.enc_part.etype,
        kvno: ticket.enc_part.kvno,
        wants_reply: is_mutual(request),
    }
}

fn is_mutual(request: &ApReqRef) -> bool
    ensures { IsTrue result ↔ IsMutual (ap_req_of request.now) }
{
    request.options.has(MUTUAL_REQUIRED)
}
