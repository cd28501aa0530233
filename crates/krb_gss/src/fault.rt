//! Why bytes are no token.

ghost use Rattle.std.specs.Prelude.{◌≡◌};

use crate::Foreign;
use krb_der::Fault;
use thiserror::Error;

/// What is wrong with the bytes of a token, and at which of them.
#[derive(Clone, Copy, Debug, PartialEq, Eq, Error)]
pub enum TokenFault {
    /// A rule of DER is broken.
    #[error("{0}")]
    Malformed(Fault),
    /// The first byte isn't that of a token.
    #[error("no token of a mechanism")]
    NotToken,
    /// The token continues a negotiation (NegTokenResp); it doesn't begin one.
    #[error("the token continues a negotiation")]
    Response,
    /// The mechanism named first isn't Kerberos; its name is at this offset.
    #[error("another mechanism at {1}: {0:?}")]
    OtherMechanism(Foreign, usize),
    /// The negotiation has no mechToken or responseToken. The name of its mechanism is at this offset or, in a
    /// client's later token, the fields are. `Negotiation` asks a client for its token.
    #[error("no token of the mechanism at {0}")]
    NoToken(usize),
    /// The token's identifier, at this offset, is another.
    #[error("another token identifier at {0}")]
    TokenId(usize),
    /// A message AP-REQ stands where a token of Kerberos must, at this offset: it has no frame. Clients of
    /// DCE style send it so, and those that don't use GSS-API.
    #[error("a request without a token around it at {0}")]
    Unframed(usize),
    /// The negotiation is over: it has taken a request, or refused a token.
    #[error("the negotiation is over")]
    Ended,
}

impl From<Fault> for TokenFault {
    ghost use Rattle.krb_gss.specs.declared.fault.TokenFault.TheVariants.{Malformed};

    ghost from_gives = { λ f e. e ≡ Malformed f };

    fn from(fault: Fault) -> TokenFault {
        TokenFault::Malformed(fault)
    }
}
