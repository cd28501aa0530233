//! Which causes for refusing a request hold of what is seen of it.

ghost use Rattle.std.specs.Prelude.{◌≡◌, ◌↔◌, IsTrue};
ghost use Rattle.krb_msg.specs.Borrowed.{ap_req_of, authenticator_of, enc_ticket_part_of};
ghost use Rattle.krb_keytab.specs.Pick.{choice_of};
ghost use Rattle.krb_explain_keys.specs.Seen.{FindsOfAuthenticator, FindsOfRequest, FindsOfShut, FindsOfTicket, IsNotOpenable, choice_causes};
ghost use Rattle.krb_explain_keys.specs.Inner.Seen.{authenticator_causes, request_causes, ticket_causes};

use crate::opening::has_usable_key;
use krb_ap::times::{is_early, is_ignorable, is_late, is_near, is_path_trusted, is_same_client};
use krb_enc::etype::is_known;
use krb_keytab::Picked;
use krb_msg::{ApReqRef, AuthenticatorRef, EncTicketRef, Moment};
use krb_replay::Skew;

/// Which causes hold of a request before anything is opened.
#[derive(Clone, Copy)]
pub(crate) struct RequestStanding {
    pub(crate) other_type: bool,
    pub(crate) no_name: bool,
    pub(crate) no_key: bool,
    pub(crate) no_version: bool,
}

/// Which causes hold of a ticket.
#[derive(Clone, Copy)]
pub(crate) struct TicketStanding {
    pub(crate) shut: bool,
    pub(crate) early: bool,
    pub(crate) late: bool,
    pub(crate) untrusted: bool,
}

/// Which causes hold of an authenticator.
#[derive(Clone, Copy)]
pub(crate) struct AuthenticatorStanding {
    pub(crate) unusable: bool,
    pub(crate) shut: bool,
    pub(crate) mismatched: bool,
    pub(crate) skewed: bool,
    pub(crate) unignorable: bool,
}

/// Which causes hold of a request for whose ticket, of this type, this was picked.
pub(crate) fn standing_of_request(etype: i32, picked: Picked<'_>) -> RequestStanding
    ensures { FindsOfRequest etype (choice_of picked.entry) (request_causes result) }
{
    let known = is_known(etype);
    picked_standing(known, picked)
}

fn picked_standing(known: bool, picked: Picked<'_>) -> RequestStanding
    ensures { request_causes result ≡ choice_causes known (choice_of picked.entry) }
{
    let none = RequestStanding {
        other_type: !known,
        no_name: false,
        no_key: false,
        no_version: false,
    };
    match picked {
        Picked::Entry(_) => none,
        Picked::NoName => RequestStanding {
            no_name: true,
            ..none
        },
        Picked::NoKey => RequestStanding {
            no_key: known,
            ..none
        },
        Picked::NoVersion => RequestStanding {
            no_version: true,
            ..none
        },
    }
}

/// Which causes hold of an opened ticket at a moment.
pub(crate) fn standing_of_ticket(
    request: &ApReqRef,
    part: &EncTicketRef,
    now: Moment,
    skew: Skew,
) -> TicketStanding
    ensures { FindsOfTicket skew now (ap_req_of request.now) (enc_ticket_part_of part.now) (ticket_causes result) }
{
    TicketStanding {
        shut: false,
        early: is_early(part, now, skew),
        late: is_late(part, now, skew),
        untrusted: !is_path_trusted(request, part),
    }
}

/// Which causes hold of an opened authenticator at a moment.
pub(crate) fn standing_of_authenticator(
    part: &EncTicketRef,
    auth: &AuthenticatorRef,
    now: Moment,
    skew: Skew,
) -> AuthenticatorStanding
    ensures { FindsOfAuthenticator skew now (enc_ticket_part_of part.now) (authenticator_of auth.now) (authenticator_causes result) }
{
    AuthenticatorStanding {
        unusable: false,
        shut: false,
        mismatched: !is_same_client(part, auth),
        skewed: !is_near(Moment::at(auth.ctime, auth.cusec), now, skew),
        unignorable: !is_ignorable(&part.authorization) || !is_ignorable(&auth.authorization),
    }
}

/// Which causes hold of an authenticator that the session key of its ticket doesn't open.
pub(crate) fn standing_of_shut(request: &ApReqRef, part: &EncTicketRef) -> AuthenticatorStanding
    ensures { FindsOfShut (ap_req_of request.now) (enc_ticket_part_of part.now) (authenticator_causes result) }
{
    AuthenticatorStanding {
        unusable: !has_usable_key(part),
        shut: is_not_openable(request, part),
        mismatched: false,
        skewed: false,
        unignorable: !is_ignorable(&part.authorization),
    }
}

fn is_not_openable(request: &ApReqRef, part: &EncTicketRef) -> bool
    ensures { IsTrue result ↔ IsNotOpenable (ap_req_of request.now) (enc_ticket_part_of part.now) }
{
    has_usable_key(part) || request.authenticator.etype != part.key.etype
}
