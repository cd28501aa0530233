// Made from crates/krb_ap/causes.toml by `make generate`. Don't edit this file.

//! Why a client isn't let in though its request is accepted.

ghost use Rattle.std.specs.Prelude.{◌≡◌, Some};
ghost use Rattle.krb_ap.specs.Causes.{code_of as refusal_code};
ghost use Rattle.krb_ap.specs.declared.refusal.Refusal.TheVariants.{Authorization};
ghost use Rattle.krb_login.specs.Terms.{code_of, name_of, place};

use krb_msg::error_code;
use thiserror::Error;

/// Why a client isn't let in though its request is accepted: the first that applies, in this order,
/// which is our own. The request is remembered.
#[derive(Clone, Copy, Debug, PartialEq, Eq, Error)]
pub enum Breach {
    /// The client is anonymous, by its name or by the ticket's flag, and anonymous clients aren't
    /// let in.
    #[error("the client is anonymous")]
    AnonymousClient,
    /// The client's realm isn't one of those that are let in.
    #[error("the client is of a realm that isn't let in")]
    ForeignRealm,
    /// The client's channel bindings aren't those of the connection or can't be read, or it sends
    /// none though each client has to.
    #[error("the channel bindings aren't those of the connection")]
    ChannelBindings,
}

impl Breach {
    /// Returns the error code of the KRB-ERROR that goes back (RFC 4120, section 7.5.9).
    pub fn code(self) -> i32
        ensures code { result ≡ code_of self }
        ensures sent { Some result ≡ refusal_code Authorization }
    {
        match self {
            Breach::AnonymousClient => error_code::KRB_ERR_GENERIC,
            Breach::ForeignRealm => error_code::KRB_ERR_GENERIC,
            Breach::ChannelBindings => error_code::KRB_ERR_GENERIC,
        }
    }

    /// Returns its name, as the enum has it.
    pub fn name(self) -> &'static str
        ensures { result.now ≡ name_of self }
    {
        match self {
            Breach::AnonymousClient => "AnonymousClient",
            Breach::ForeignRealm => "ForeignRealm",
            Breach::ChannelBindings => "ChannelBindings",
        }
    }

    /// Returns a number that grows with the place of the breach in the order, and is greater than
    /// that of each `Refusal`. It stays the same if other breaches are added.
    pub fn place(self) -> u32
        ensures { result ≡ place self }
    {
        match self {
            Breach::AnonymousClient => 1_900,
            Breach::ForeignRealm => 2_000,
            Breach::ChannelBindings => 2_100,
        }
    }
}
