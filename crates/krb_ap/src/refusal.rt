// Made from causes.toml by `make generate`. Don't edit this file.

//! Why a request is refused.

ghost use Rattle.std.specs.Prelude.{◌≡◌};
ghost use Rattle.krb_ap.specs.Causes.{code_of, name_of, place};
ghost use Rattle.krb_ap.specs.declared.refusal.Refusal.TheVariants.{OutOfMemory};

use krb_msg::{Fault, error_code as code};
use std::alloc::AllocError;
use thiserror::Error;

/// Why a request is refused (RFC 4120, section 3.2.3): the first that applies, in this order, which
/// is our own; or `OutOfMemory`.
#[derive(Clone, Copy, Debug, PartialEq, Eq, Error)]
pub enum Refusal {
    /// The message isn't empty, and its first byte isn't that of a request.
    #[error("the first byte isn't that of a request")]
    MessageType,
    /// The bytes aren't exactly one valid request; the fault says what is wrong, and where.
    #[error("the bytes aren't a request: {0}")]
    Malformed(Fault),
    /// The request has the option use-session-key set: its ticket is sealed under another ticket's
    /// session key.
    #[error("the option use-session-key is set")]
    UserToUser,
    /// The ticket's encryption type is neither 19 nor 20.
    #[error("the ticket's encryption type isn't 19 or 20")]
    TicketEtype,
    /// The keytab has no entry of the ticket's service.
    #[error("the ticket is for a service that isn't served here")]
    NotUs,
    /// No entry of the ticket's service has the ticket's type and a usable key.
    #[error("no key of the ticket's encryption type is usable")]
    NoKey,
    /// No usable key of the ticket's service and type has the ticket's version number.
    #[error("no key of the ticket's encryption type has its version number")]
    BadKeyVersion,
    /// The chosen key doesn't open the ticket, or the decrypted bytes aren't exactly one valid
    /// EncTicketPart.
    #[error("the key doesn't open the ticket")]
    TicketIntegrity,
    /// The ticket's session key isn't of type 19 with 16 bytes or type 20 with 32.
    #[error("the ticket's session key isn't usable")]
    SessionKey,
    /// The session key isn't of the authenticator's type, or doesn't open it, or the decrypted
    /// bytes aren't exactly one valid Authenticator.
    #[error("the session key doesn't open the authenticator")]
    AuthenticatorIntegrity,
    /// The authenticator and the ticket name different clients.
    #[error("the authenticator and the ticket name different clients")]
    BadMatch,
    /// The client's time differs from the service's by more than the skew.
    #[error("the clocks differ by more than the skew")]
    Skew,
    /// The service was started again, and its clock or the client's isn't later than this start by
    /// more than the skew. The request is remembered.
    #[error("the service has just started")]
    JustStarted,
    /// A request of the same service, client and client's time was seen before.
    #[error("a request of this service, client and time was seen before")]
    Repeat,
    /// The ticket begins more than the skew after the service's time, or is marked invalid. The
    /// request is remembered.
    #[error("the ticket isn't valid yet, or is marked invalid")]
    NotYetValid,
    /// The ticket ended more than the skew before the service's time. The request is remembered.
    #[error("the ticket has expired")]
    Expired,
    /// The client's realm isn't that of the ticket's service, and the ticket doesn't say that a KDC
    /// checked the realms between them. The request is remembered.
    #[error("the client is of another realm, and no KDC checked the realms between")]
    Transited,
    /// The ticket or the authenticator has authorization data that may not be ignored. The request
    /// is remembered.
    #[error("the request has authorization data that may not be ignored")]
    Authorization,
    /// Memory ran out, or the memory of seen requests reached a limit, which it counts. Nothing else
    /// has changed.
    #[error("out of memory")]
    OutOfMemory,
}

impl Refusal {
    // Its row of the table: place, name and code.
    fn row(&self) -> (u32, &'static str, Option<i32>)
        ensures place { result.0 ≡ place self.now }
        ensures name { result.1.now ≡ name_of self.now }
        ensures code { result.2 ≡ code_of self.now }
    {
        match self {
            Refusal::MessageType => (100, "MessageType", Some(code::KRB_AP_ERR_MSG_TYPE)),
            Refusal::Malformed(_) => (200, "Malformed", Some(code::KRB_ERR_GENERIC)),
            Refusal::UserToUser => (300, "UserToUser", Some(code::KRB_AP_ERR_NOKEY)),
            Refusal::TicketEtype => (400, "TicketEtype", Some(code::KDC_ERR_ETYPE_NOSUPP)),
            Refusal::NotUs => (500, "NotUs", Some(code::KRB_AP_ERR_NOT_US)),
            Refusal::NoKey => (600, "NoKey", Some(code::KRB_AP_ERR_NOKEY)),
            Refusal::BadKeyVersion => (700, "BadKeyVersion", Some(code::KRB_AP_ERR_BADKEYVER)),
            Refusal::TicketIntegrity => (
                800,
                "TicketIntegrity",
                Some(code::KRB_AP_ERR_BAD_INTEGRITY),
            ),
            Refusal::SessionKey => (900, "SessionKey", Some(code::KDC_ERR_ETYPE_NOSUPP)),
            Refusal::AuthenticatorIntegrity => (
                1_000,
                "AuthenticatorIntegrity",
                Some(code::KRB_AP_ERR_BAD_INTEGRITY),
            ),
            Refusal::BadMatch => (1_100, "BadMatch", Some(code::KRB_AP_ERR_BADMATCH)),
            Refusal::Skew => (1_200, "Skew", Some(code::KRB_AP_ERR_SKEW)),
            Refusal::JustStarted => (1_250, "JustStarted", Some(code::KRB_AP_ERR_SKEW)),
            Refusal::Repeat => (1_300, "Repeat", Some(code::KRB_AP_ERR_REPEAT)),
            Refusal::NotYetValid => (1_400, "NotYetValid", Some(code::KRB_AP_ERR_TKT_NYV)),
            Refusal::Expired => (1_500, "Expired", Some(code::KRB_AP_ERR_TKT_EXPIRED)),
            Refusal::Transited => (1_600, "Transited", Some(code::KRB_ERR_GENERIC)),
            Refusal::Authorization => (1_700, "Authorization", Some(code::KRB_ERR_GENERIC)),
            Refusal::OutOfMemory => (1_800, "OutOfMemory", None),
        }
    }

    /// Returns the error code that a KRB-ERROR contains (RFC 4120, section 7.5.9), or none for
    /// `OutOfMemory`.
    pub fn code(&self) -> Option<i32>
        ensures { result ≡ code_of self.now }
    {
        self.row().2
    }

    /// Returns its name, as the enum has it.
    pub fn name(&self) -> &'static str
        ensures { result.now ≡ name_of self.now }
    {
        self.row().1
    }

    /// Returns a number that grows with the place of the cause in the order. It stays the same if
    /// other causes are added.
    pub fn place(&self) -> u32
        ensures { result ≡ place self.now }
    {
        self.row().0
    }
}

impl From<AllocError> for Refusal {
    ghost from_gives = { λ _ refusal. refusal ≡ OutOfMemory };

    fn from(_: AllocError) -> Refusal {
        Refusal::OutOfMemory
    }
}
