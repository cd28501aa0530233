//! What is seen of a request by a keytab, as far as it opens.

ghost use Rattle.std.specs.Prelude.{◌≡◌, false, List, IfOk};
ghost use Rattle.krb_enc.specs.Key.{IsUsable};
ghost use Rattle.krb_keytab.specs.Entry.{KeytabEntry};
ghost use Rattle.krb_keytab.specs.Pick.{choice_of, chosen};
ghost use Rattle.krb_msg.specs.Borrowed.{ap_req_of, authenticator_of, enc_ticket_part_of, ticket_of};
ghost use Rattle.krb_msg.specs.Fields.{ticket_service};
ghost use Rattle.krb_ap.specs.Opened.{entry_key, session_key};
ghost use Rattle.krb_explain_keys.specs.Keyed.{new_service};
ghost use Rattle.krb_explain_keys.specs.Seen.{AreShutLines, FindsOfAuthenticator, FindsOfShut, OpensTicket, Sees, SeesAuthenticator, SeesByChoice, SeesNone, SeesOpenedTicket, SeesRequest, SeesShut, SeesTicket, no_request_causes, other_size_lines, other_type_lines};
ghost use Rattle.krb_explain_keys.specs.Authenticator.{AreAuthenticatorLines};
ghost use Rattle.krb_explain_keys.specs.Inner.Seen.{authenticator_causes, request_causes, sight_of};
ghost use Rattle.krb_explain_keys.specs.Inner.Shut.{IsUsableChoice};

use crate::authenticator::authenticator_lines;
use crate::choice::{choice_lines, pick_for};
use crate::facts::facts;
use crate::opening::{authenticator_text, has_usable_key, ticket_text};
use crate::standing::{
    AuthenticatorStanding, RequestStanding, TicketStanding, standing_of_authenticator,
    standing_of_request, standing_of_shut, standing_of_ticket,
};
use crate::ticket::ticket_lines;
use krb_enc::etype::is_known;
use krb_explain::{listed, type_text};
use krb_keytab::{Entry, Keytab, Picked};
use krb_msg::{ApReqRef, AuthenticatorRef, EncTicketRef, Moment, Principal, TicketRef};
use krb_readable::Text;
use krb_replay::Skew;
use std::alloc::{AllocError, Global};

/// A service's clock, and how far clocks may differ.
#[derive(Clone, Copy)]
pub(crate) struct Clock {
    pub(crate) now: Moment,
    pub(crate) skew: Skew,
}

/// What is seen of a request.
#[derive(Drop)]
pub(crate) struct Seen {
    pub(crate) lines: Vec<Text>,
    pub(crate) of_request: RequestStanding,
    pub(crate) of_ticket: TicketStanding,
    pub(crate) of_authenticator: AuthenticatorStanding,
}

/// What is seen of an authenticator.
#[derive(Drop)]
pub(crate) struct AuthenticatorSeen {
    pub(crate) lines: Vec<Text>,
    pub(crate) standing: AuthenticatorStanding,
}

const NO_REQUEST: RequestStanding = RequestStanding {
    other_type: false,
    no_name: false,
    no_key: false,
    no_version: false,
};

const NO_TICKET: TicketStanding = TicketStanding {
    shut: false,
    early: false,
    late: false,
    untrusted: false,
};

const SHUT_TICKET: TicketStanding = TicketStanding {
    shut: true,
    early: false,
    late: false,
    untrusted: false,
};

const NO_AUTHENTICATOR: AuthenticatorStanding = AuthenticatorStanding {
    unusable: false,
    shut: false,
    mismatched: false,
    skewed: false,
    unignorable: false,
};

/// Looks at bytes that are to be a request.
pub(crate) fn seen_of(
    alloc: Global,
    bytes: &[u8],
    keytab: &Keytab,
    clock: Clock,
) -> Result<Seen, AllocError>
    ensures { IfOk result (λ seen. Sees (new_service keytab.now clock.skew) clock.now bytes.now (sight_of seen)) }
{
    match ApReqRef::parse(bytes) {
        Ok(request) => seen_of_request(alloc, &request, keytab, clock),
        Err(_) => Ok(seen_none(Vec::new(alloc))),
    }
}

// If nothing is to be opened, lines alone are seen.
fn seen_none(lines: Vec<Text>) -> Seen
    ensures none { SeesNone (sight_of result) lines.items }
    ensures of_request { request_causes result.of_request ≡ no_request_causes }
{
    Seen {
        lines,
        of_request: NO_REQUEST,
        of_ticket: NO_TICKET,
        of_authenticator: NO_AUTHENTICATOR,
    }
}

fn seen_of_request(
    alloc: Global,
    request: &ApReqRef,
    keytab: &Keytab,
    clock: Clock,
) -> Result<Seen, AllocError>
    ensures { IfOk result (λ seen. SeesRequest (new_service keytab.now clock.skew) clock.now (ap_req_of request.now) (sight_of seen)) }
{
    let sealed = &request.ticket.enc_part;
    let service = service_of(alloc, &request.ticket)?;
    let picked = pick_for(keytab, &service, sealed);
    let lines = choice_lines(alloc, keytab, &service, sealed, picked)?;
    let mut seen = seen_by_choice(alloc, request, picked, lines, clock)?;
    seen.of_request = standing_of_request(sealed.etype, picked);
    Ok(seen)
}

// The service that a ticket is for.
fn service_of(alloc: Global, ticket: &TicketRef) -> Result<Principal, AllocError>
    ensures { IfOk result (λ service. service ≡ ticket_service (ticket_of ticket.now)) }
{
    ticket.sname.to_principal(alloc, ticket.realm)
}

fn seen_by_choice(
    alloc: Global,
    request: &ApReqRef,
    picked: Picked<'_>,
    lines: Vec<Text>,
    clock: Clock,
) -> Result<Seen, AllocError>
    requires { IsUsableChoice (choice_of picked) }
    ensures { IfOk result (λ seen. (entries : List KeytabEntry) → SeesByChoice (new_service entries clock.skew) clock.now (ap_req_of request.now)
        (choice_of picked.entry) (sight_of seen) lines.items) }
{
    match picked {
        Picked::Entry(entry) => seen_by_entry(alloc, request, entry, lines, clock),
        Picked::NoName | Picked::NoKey | Picked::NoVersion => Ok(seen_none(lines)),
    }
}

// What is seen by an entry that is chosen, after the lines of the choice.
fn seen_by_entry(
    alloc: Global,
    request: &ApReqRef,
    entry: &Entry,
    lines: Vec<Text>,
    clock: Clock,
) -> Result<Seen, AllocError>
    requires { IsUsable (entry_key entry.now) }
    ensures { IfOk result (λ seen. (entries : List KeytabEntry) → SeesByChoice (new_service entries clock.skew) clock.now (ap_req_of request.now)
        (chosen entry.now) (sight_of seen) lines.items) }
{
    let inner = seen_of_ticket(alloc, request, entry, clock)?;
    let mut lines = lines;
    let mut rest = inner.lines;
    lines.append(&mut rest)?;
    Ok(Seen {
        lines,
        of_request: NO_REQUEST,
        of_ticket: inner.of_ticket,
        of_authenticator: inner.of_authenticator,
    })
}

fn seen_of_ticket(
    alloc: Global,
    request: &ApReqRef,
    entry: &Entry,
    clock: Clock,
) -> Result<Seen, AllocError>
    requires { IsUsable (entry_key entry.now) }
    ensures { IfOk result (λ seen. (entries : List KeytabEntry) → SeesTicket (new_service entries clock.skew) clock.now entry.now (ap_req_of request.now)
        (sight_of seen)) }
{
    facts();
    let Some(plain) = ticket_text(alloc, entry, request.ticket.enc_part.cipher)? else {
        return seen_shut(alloc);
    };
    match EncTicketRef::parse(plain.as_slice()) {
        Ok(part) => seen_of_part(alloc, request, &part, clock),
        Err(_) => seen_shut(alloc),
    }
}

// What is seen of a ticket that isn't opened.
fn seen_shut(alloc: Global) -> Result<Seen, AllocError>
    ensures { IfOk result (λ seen. SeesShut (sight_of seen)) }
{
    let line = Text::of(alloc, "ticket: the entry's key doesn't open it")?;
    Ok(Seen {
        lines: listed(alloc, [line])?,
        of_request: NO_REQUEST,
        of_ticket: SHUT_TICKET,
        of_authenticator: NO_AUTHENTICATOR,
    })
}

// What is seen of an opened ticket.
fn seen_of_part(
    alloc: Global,
    request: &ApReqRef,
    part: &EncTicketRef,
    clock: Clock,
) -> Result<Seen, AllocError>
    ensures { IfOk result (λ seen. (entries : List KeytabEntry) (entry : KeytabEntry)
        → OpensTicket entry (ap_req_of request.now) (enc_ticket_part_of part.now)
        → SeesOpenedTicket (new_service entries clock.skew) clock.now entry (ap_req_of request.now) (sight_of seen)) }
{
    let of_ticket = standing_of_ticket(request, part, clock.now, clock.skew);
    let mut lines = ticket_lines(alloc, part)?;
    let inner = seen_of_authenticator(alloc, request, part, clock)?;
    let mut rest = inner.lines;
    lines.append(&mut rest)?;
    Ok(Seen {
        lines,
        of_request: NO_REQUEST,
        of_ticket,
        of_authenticator: inner.standing,
    })
}

fn seen_of_authenticator(
    alloc: Global,
    request: &ApReqRef,
    part: &EncTicketRef,
    clock: Clock,
) -> Result<AuthenticatorSeen, AllocError>
    ensures { IfOk result (λ seen. (entries : List KeytabEntry) → SeesAuthenticator (new_service entries clock.skew) clock.now (ap_req_of request.now)
        (enc_ticket_part_of part.now) seen.lines.items (authenticator_causes seen.standing)) }
{
    facts();
    let Some(plain) = authenticator_text(alloc, request, part)? else {
        return seen_nothing(alloc, request, part);
    };
    match AuthenticatorRef::parse(plain.as_slice()) {
        Ok(auth) => seen_opened(alloc, part, &auth, clock),
        Err(_) => seen_nothing(alloc, request, part),
    }
}

// What is seen of an authenticator that the session key of this ticket doesn't open.
fn seen_nothing(
    alloc: Global,
    request: &ApReqRef,
    part: &EncTicketRef,
) -> Result<AuthenticatorSeen, AllocError>
    ensures lines { IfOk result (λ seen. AreShutLines (session_key (enc_ticket_part_of part.now)) seen.lines.items) }
    ensures finds { IfOk result (λ seen. FindsOfShut (ap_req_of request.now) (enc_ticket_part_of part.now) (authenticator_causes seen.standing)) }
{
    Ok(AuthenticatorSeen {
        lines: shut_lines(alloc, part)?,
        standing: standing_of_shut(request, part),
    })
}

fn shut_lines(alloc: Global, part: &EncTicketRef) -> Result<Vec<Text>, AllocError>
    ensures { IfOk result (λ lines. AreShutLines (session_key (enc_ticket_part_of part.now)) lines.items) }
{
    if has_usable_key(part) {
        let line = Text::of(alloc, "authenticator: the session key doesn't open it")?;
        listed(alloc, [line])
    } else if is_known(part.key.etype) {
        other_size_lines(alloc, part.key.etype, part.key.bytes.len())
    } else {
        other_type_lines(alloc, part.key.etype)
    }
}

fn other_size_lines(alloc: Global, etype: i32, size: usize) -> Result<Vec<Text>, AllocError>
    ensures { IfOk result (λ lines. lines.items ≡ other_size_lines etype size) }
{
    let key = type_text(alloc, etype)?;
    let line = Text::new(format!(in alloc;
        "authenticator: not opened, since the session key has {size} bytes, and one of type {key} has another size"
    )?);
    listed(alloc, [line])
}

fn other_type_lines(alloc: Global, etype: i32) -> Result<Vec<Text>, AllocError>
    ensures { IfOk result (λ lines. lines.items ≡ other_type_lines etype) }
{
    let key = type_text(alloc, etype)?;
    let line = Text::new(format!(in alloc;
        "authenticator: not opened, since the session key is of type {key}"
    )?);
    let note = Text::of(
        alloc,
        "note: the service needs session keys of type 19 or 20 (docs/OPERATING.md, Keys)",
    )?;
    listed(alloc, [line, note])
}

// What is seen of an opened authenticator.
fn seen_opened(
    alloc: Global,
    part: &EncTicketRef,
    auth: &AuthenticatorRef,
    clock: Clock,
) -> Result<AuthenticatorSeen, AllocError>
    ensures lines { IfOk result (λ seen. AreAuthenticatorLines clock.now (authenticator_of auth.now) seen.lines.items) }
    ensures finds { IfOk result (λ seen. FindsOfAuthenticator clock.skew clock.now (enc_ticket_part_of part.now) (authenticator_of auth.now)
        (authenticator_causes seen.standing)) }
{
    Ok(AuthenticatorSeen {
        lines: authenticator_lines(alloc, auth, clock.now)?,
        standing: standing_of_authenticator(part, auth, clock.now, clock.skew),
    })
}
