// Made from crates/krb_ap/causes.toml by `make generate`. Don't edit this file.

//! The causes for refusing a request, and the breaches.

use krb_ap::Refusal;
use krb_login::Breach;
use krb_msg::{Fault, FaultKind};

// What is malformed is cut off at the byte 7.
pub(crate) const CUT: Fault = Fault {
    kind: FaultKind::Truncated,
    at: 7,
};

pub(crate) static CAUSES: [Refusal; 19] = [
    Refusal::MessageType,
    Refusal::Malformed(CUT),
    Refusal::UserToUser,
    Refusal::TicketEtype,
    Refusal::NotUs,
    Refusal::NoKey,
    Refusal::BadKeyVersion,
    Refusal::TicketIntegrity,
    Refusal::SessionKey,
    Refusal::AuthenticatorIntegrity,
    Refusal::BadMatch,
    Refusal::Skew,
    Refusal::JustStarted,
    Refusal::Repeat,
    Refusal::NotYetValid,
    Refusal::Expired,
    Refusal::Transited,
    Refusal::Authorization,
    Refusal::OutOfMemory,
];

pub(crate) static BREACHES: [Breach; 3] = [
    Breach::AnonymousClient,
    Breach::ForeignRealm,
    Breach::ChannelBindings,
];
