//! What the check of a list of mechanisms leads to.

use crate::pending::Pending;
use krb_ap::Accepted;
use krb_context::{Context, ReceiveFault};
use krb_gss::TokenFault;
use std::alloc::AllocError;
use thiserror::Error;

/// A client that is let in, and has shown that it sent the list of mechanisms that the service saw.
/// There is no `Debug`, so no log shows a key.
#[derive(Drop)]
pub struct Admitted {
    /// What is known of the client.
    pub accepted: Accepted,
    /// The service's side of the context, for messages after the login. It has sent and taken the MIC of the list.
    pub context: Box<Context>,
    /// The bytes to send back, if any.
    pub answer: Option<Vec<u8>>,
}

/// What the check of a list leads to.
#[derive(Drop)]
pub enum Checking {
    /// The client is let in.
    Shown(Admitted),
    /// The client is asked for its MIC, with these bytes.
    Waits(Pending, Vec<u8>),
}

/// What is made for a client whose list is checked, before it is known whether it is let in. There is no `Debug`, so no log shows a key.
#[derive(Drop)]
pub(crate) struct Prepared {
    /// The service's side of the context. It has sent the MIC of the list, and taken the client's, if that came.
    pub(crate) context: Box<Context>,
    /// The bytes that go back.
    pub(crate) sent: Vec<u8>,
    /// Whether the client's MIC came.
    pub(crate) is_shown: bool,
}

/// Why a client whose request is accepted isn't let in.
#[derive(Clone, Copy, Debug, PartialEq, Eq, Error)]
pub enum ListFault {
    /// The bytes aren't a client's later message, or the login is over. The fault's place counts from the first of them.
    #[error("{0}")]
    Token(TokenFault),
    /// The client's subkey isn't of type 19 or 20, so there is no context.
    #[error("the subkey is of another encryption type")]
    OtherKey,
    /// The message has no mechListMIC, and the client has all that it needs for one.
    #[error("the mechListMIC is missing")]
    Missing,
    /// The mechListMIC isn't the client's MIC of the list that the service saw, or the context doesn't take it.
    #[error("the mechListMIC is wrong: {0}")]
    Wrong(ReceiveFault),
    /// Memory ran out.
    #[error("out of memory")]
    OutOfMemory,
}

impl From<TokenFault> for ListFault {
    ghost use Rattle.std.specs.Prelude.{◌≡◌};
    ghost use Rattle.krb_talk.specs.declared.checking.ListFault.TheVariants.{Token};

    ghost from_gives = { λ fault e. e ≡ Token fault };

    fn from(fault: TokenFault) -> ListFault {
        ListFault::Token(fault)
    }
}

impl From<ReceiveFault> for ListFault {
    ghost use Rattle.std.specs.Prelude.{◌≡◌};
    ghost use Rattle.krb_talk.specs.declared.checking.ListFault.TheVariants.{Wrong};

    ghost from_gives = { λ fault e. e ≡ Wrong fault };

    fn from(fault: ReceiveFault) -> ListFault {
        ListFault::Wrong(fault)
    }
}

impl From<AllocError> for ListFault {
    ghost use Rattle.std.specs.Prelude.{◌≡◌};
    ghost use Rattle.krb_talk.specs.declared.checking.ListFault.TheVariants.{OutOfMemory};

    ghost from_gives = { λ _ e. e ≡ OutOfMemory };

    fn from(_error: AllocError) -> ListFault {
        ListFault::OutOfMemory
    }
}
