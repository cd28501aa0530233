//! The two sides of a context.

ghost use Rattle.std.specs.Prelude.{◌≡◌, ◌≤◌};
ghost use Rattle.krb_context.specs.Side.{peer_of, sender_flag, seal_usage, sign_usage};

/// A side of a context (RFC 2743, section 1.1.3).
#[derive(Clone, Copy, Debug, PartialEq, Eq)]
pub enum Role {
    /// The side that asked for the context: the client.
    Initiator,
    /// The side that was asked: the service.
    Acceptor,
}

impl Role {
    /// Returns the other side.
    pub fn peer(self) -> Role
        ensures { result ≡ peer_of self }
    {
        match self {
            Role::Initiator => Role::Acceptor,
            Role::Acceptor => Role::Initiator,
        }
    }

    // The flag SentByAcceptor, if it is the acceptor that sends.
    pub(crate) fn sender_flag(self) -> u8
        ensures value { result ≡ sender_flag self }
        ensures most { result ≤ 1 }
    {
        match self {
            Role::Initiator => 0,
            Role::Acceptor => 1,
        }
    }

    // The key usage of MIC tokens that this side sends.
    pub(crate) fn sign_usage(self) -> u32
        ensures { result ≡ sign_usage self }
    {
        match self {
            Role::Initiator => 25,
            Role::Acceptor => 23,
        }
    }

    // The key usage of Wrap tokens that this side sends.
    pub(crate) fn seal_usage(self) -> u32
        ensures { result ≡ seal_usage self }
    {
        match self {
            Role::Initiator => 24,
            Role::Acceptor => 22,
        }
    }
}
