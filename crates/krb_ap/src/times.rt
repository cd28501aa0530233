//! What is asked of an opened ticket and its authenticator, one condition at a time.
//!
//! [`Acceptor::accept`](crate::Acceptor::accept) asks all of it. With these functions other programs can say of a request which
//! conditions hold.

ghost use Rattle.std.specs.Prelude.{◌≡◌, ◌↔◌, ◌≤ℤ◌, ◌<ℤ◌, ◌+ℤ◌, All, IfSome, IsTrue, MatchOption, pos};
ghost use Rattle.krb_ap.specs.Words.{SameClient, ap_req_of, authenticator_of, enc_ticket_part_of, type_of};
ghost use Rattle.krb_ap.specs.Times.{Near, IsEarly, IsLate, IsPathTrusted, MayBeIgnored};
ghost use Rattle.krb_ap.specs.Inner.Stages.{IsOfTimes, TimesRefuse};

use crate::opened::Opened;
use crate::refusal::Refusal;
use krb_msg::{
    ApReqRef, AuthenticatorRef, EncTicketRef, INVALID, Moment, TRANSITED_POLICY_CHECKED,
    TypedListRef,
};
use krb_replay::Skew;

/// Returns whether two moments differ by at most the skew.
pub fn is_near(one: Moment, other: Moment, skew: Skew) -> bool
    ensures { IsTrue result ↔ Near one other skew }
{
    is_within(one, other, skew) && is_within(other, one, skew)
}

// Whether a moment is later than another by at most the skew, if it is.
fn is_within(one: Moment, other: Moment, skew: Skew) -> bool
    ensures { IsTrue result ↔ (one ≤ℤ (other +ℤ pos skew)) }
{
    one.micros() <= other.micros() + skew.micros()
}

/// Whether a moment is later than a service's start by more than the skew. It is if there is no
/// start.
pub(crate) fn is_past(start: Option<Moment>, moment: Moment, skew: Skew) -> bool
    ensures { IsTrue result ↔ IfSome start (λ start. (start +ℤ pos skew) <ℤ moment) }
{
    start.is_none_or(|start| !is_within(moment, start, skew))
}

/// Why a request is refused though its time is near and it is new, if it is.
pub(crate) fn refusal_of_times(opened: &Opened, now: Moment, skew: Skew) -> Option<Refusal>
    ensures { MatchOption result
        (IsOfTimes skew now (ap_req_of opened.now.request.now) (enc_ticket_part_of opened.now.part.now) (authenticator_of opened.now.auth.now))
        (TimesRefuse skew now (ap_req_of opened.now.request.now) (enc_ticket_part_of opened.now.part.now) (authenticator_of opened.now.auth.now)) }
{
    let part = opened.part;
    if is_early(part, now, skew) {
        return Some(Refusal::NotYetValid);
    }
    if is_late(part, now, skew) {
        return Some(Refusal::Expired);
    }
    if !is_path_trusted(opened.request, part) {
        return Some(Refusal::Transited);
    }
    if !is_ignorable(&part.authorization) || !is_ignorable(&opened.auth.authorization) {
        return Some(Refusal::Authorization);
    }
    None
}

/// Returns whether a ticket isn't valid yet: it begins later than a moment plus the skew, or is marked as invalid.
pub fn is_early(part: &EncTicketRef, now: Moment, skew: Skew) -> bool
    ensures { IsTrue result ↔ IsEarly (enc_ticket_part_of part.now) now skew }
{
    let start = part.starttime.unwrap_or(part.authtime);
    !is_within(Moment::start_of(start), now, skew) || part.flags.has(INVALID)
}

/// Returns whether a ticket has expired: a moment is later than its endtime plus the skew.
pub fn is_late(part: &EncTicketRef, now: Moment, skew: Skew) -> bool
    ensures { IsTrue result ↔ IsLate (enc_ticket_part_of part.now) now skew }
{
    !is_within(now, Moment::start_of(part.endtime), skew)
}

/// Returns whether the realms between a ticket's client and the service need no check: the client's realm is that of the ticket, or
/// the ticket says that the KDC has checked them (RFC 4120, section 2.7).
pub fn is_path_trusted(request: &ApReqRef, part: &EncTicketRef) -> bool
    ensures { IsTrue result ↔ IsPathTrusted (ap_req_of request.now) (enc_ticket_part_of part.now) }
{
    part.crealm == request.ticket.realm || part.flags.has(TRANSITED_POLICY_CHECKED)
}

/// Returns whether authorization data may be ignored: there is none, or each outer element is of the type AD-IF-RELEVANT (RFC 4120,
/// section 5.2.6.1).
pub fn is_ignorable(elements: &Option<TypedListRef>) -> bool
    ensures { IsTrue result ↔ MayBeIgnored elements.now }
{
    elements.as_ref().is_none_or(has_only_type_1)
}

fn has_only_type_1(elements: &TypedListRef) -> bool
    ensures { IsTrue result ↔ All (λ element. type_of element ≡ pos 1) elements.now }
{
    for element in elements.iter() {
        // (AD-IF-RELEVANT)
        if element.kind != 1 {
            return false;
        }
    }
    true
}

/// Returns whether a ticket and an authenticator name one client. Name types aren't compared.
pub fn is_same_client(part: &EncTicketRef, auth: &AuthenticatorRef) -> bool
    ensures { IsTrue result ↔ SameClient (enc_ticket_part_of part.now) (authenticator_of auth.now) }
{
    part.crealm == auth.crealm && part.cname.has_same_components(&auth.cname)
}
