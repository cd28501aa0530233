//! Why a client isn't let in.

ghost use Rattle.std.specs.Prelude.{◌≡◌};
ghost use Rattle.krb_login.specs.Login.{code_of};

use crate::breach::Breach;
use krb_ap::Refusal;
use krb_gss::TokenFault;
use krb_msg::error_code;
use thiserror::Error;

/// Why a client isn't let in.
#[derive(Clone, Copy, Debug, PartialEq, Eq, Error)]
pub enum Cause {
    /// The bytes are no token that this service takes. Nothing was decided. A fault's place counts from
    /// the first of the bytes.
    #[error("{0}")]
    Token(TokenFault),
    /// The request is refused. The place of a fault counts from the first byte of the request, which
    /// may lie in a token.
    #[error("{0}")]
    Request(Refusal),
    /// The request is accepted, and remembered, but it breaks the service's terms.
    #[error("{0}")]
    Breached(Breach),
    /// Memory ran out. A request that was accepted before that is remembered.
    #[error("out of memory")]
    OutOfMemory,
    /// The request is accepted, and remembered, but the store that the service shares didn't say
    /// whether it is new. Only [`Asking::settle`](crate::Asking::settle) refuses for it.
    #[error("the store of stamps doesn't answer")]
    StoreFailed,
}

impl Cause {
    /// Returns the error code of the KRB-ERROR that goes back to a client that awaits a reply (RFC
    /// 4120, section 7.5.9), or none if no error goes back.
    pub fn code(&self) -> Option<i32>
        ensures { result ≡ code_of self.now }
    {
        match self {
            Cause::Request(refusal) => refusal.code(),
            Cause::Breached(breach) => Some(breach.code()),
            Cause::StoreFailed => Some(error_code::KRB_ERR_GENERIC),
            Cause::Token(_) | Cause::OutOfMemory => None,
        }
    }
}
