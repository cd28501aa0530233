// Made from interface.toml by `make generate`. Don't edit this file.

//! The codes of causes for refusing a request, and of breaches of a service's terms.

ghost use Rattle.std.specs.Prelude.{◌≡◌};
ghost use Rattle.std.specs.Option.{MatchOption};
ghost use Rattle.krb_ap.specs.declared.refusal.Refusal.{Refusal as RefusalValue};
ghost use Rattle.krb_c.specs.Codes.{breach_code, cause_code};
ghost use Rattle.krb_c.specs.Refusal.{IsCauseOf};

use crate::code;
use krb_ap::Refusal;
use krb_der::{Fault, FaultKind};
use krb_login::Breach;

/// The code of a cause.
pub(crate) fn code_of(refusal: &Refusal) -> u32
    ensures { result ≡ cause_code refusal.now }
{
    match refusal {
        Refusal::MessageType => code::MESSAGE_TYPE,
        Refusal::Malformed(_) => code::MALFORMED,
        Refusal::UserToUser => code::USER_TO_USER,
        Refusal::TicketEtype => code::TICKET_ETYPE,
        Refusal::NotUs => code::NOT_US,
        Refusal::NoKey => code::NO_KEY,
        Refusal::BadKeyVersion => code::BAD_KEY_VERSION,
        Refusal::TicketIntegrity => code::TICKET_INTEGRITY,
        Refusal::SessionKey => code::SESSION_KEY,
        Refusal::AuthenticatorIntegrity => code::AUTHENTICATOR_INTEGRITY,
        Refusal::BadMatch => code::BAD_MATCH,
        Refusal::Skew => code::SKEW,
        Refusal::JustStarted => code::JUST_STARTED,
        Refusal::Repeat => code::REPEAT,
        Refusal::NotYetValid => code::NOT_YET_VALID,
        Refusal::Expired => code::EXPIRED,
        Refusal::Transited => code::TRANSITED,
        Refusal::Authorization => code::AUTHORIZATION,
        Refusal::OutOfMemory => code::OUT_OF_MEMORY,
    }
}

/// The code of a breach of a service's terms.
pub(crate) fn breach_code_of(breach: Breach) -> u32
    ensures { result ≡ breach_code breach }
{
    match breach {
        Breach::AnonymousClient => code::ANONYMOUS_CLIENT,
        Breach::ForeignRealm => code::FOREIGN_REALM,
        Breach::ChannelBindings => code::CHANNEL_BINDINGS,
    }
}

/// The cause that has a code. A malformed request's has no place.
pub(crate) fn cause_of(code: u32) -> Option<Refusal>
    ensures { MatchOption result ((refusal : RefusalValue) → ¬ IsCauseOf code refusal) (λ refusal. IsCauseOf code refusal) }
{
    match code {
        code::MESSAGE_TYPE => Some(Refusal::MessageType),
        code::MALFORMED => Some(Refusal::Malformed(Fault {
            kind: FaultKind::Truncated,
            at: 0,
        })),
        code::USER_TO_USER => Some(Refusal::UserToUser),
        code::TICKET_ETYPE => Some(Refusal::TicketEtype),
        code::NOT_US => Some(Refusal::NotUs),
        code::NO_KEY => Some(Refusal::NoKey),
        code::BAD_KEY_VERSION => Some(Refusal::BadKeyVersion),
        code::TICKET_INTEGRITY => Some(Refusal::TicketIntegrity),
        code::SESSION_KEY => Some(Refusal::SessionKey),
        code::AUTHENTICATOR_INTEGRITY => Some(Refusal::AuthenticatorIntegrity),
        code::BAD_MATCH => Some(Refusal::BadMatch),
        code::SKEW => Some(Refusal::Skew),
        code::JUST_STARTED => Some(Refusal::JustStarted),
        code::REPEAT => Some(Refusal::Repeat),
        code::NOT_YET_VALID => Some(Refusal::NotYetValid),
        code::EXPIRED => Some(Refusal::Expired),
        code::TRANSITED => Some(Refusal::Transited),
        code::AUTHORIZATION => Some(Refusal::Authorization),
        _ => None,
    }
}
