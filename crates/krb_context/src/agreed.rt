//! What both sides of a context agreed on.

ghost use Rattle.std.specs.Prelude.{◌≡◌, MatchBool};
ghost use Rattle.krb_context.specs.Context.{IsRefusedBy, MayTake, first_of, key_of};

use crate::order::Order;
use crate::role::Role;
use krb_enc::Key;

/// What a service knows of a request that it accepted and of its reply, or a client of its request
/// and of the reply. There is no `Debug`, so no log shows a key.
#[derive(Drop)]
pub struct Agreed {
    /// The session key of the ticket.
    pub session_key: Key,
    /// The subkey that the request's authenticator has.
    pub initiator_subkey: Option<Key>,
    /// The subkey that the service's reply has.
    pub acceptor_subkey: Option<Key>,
    /// The sequence number that the authenticator has; 0 if it has none.
    pub initiator_number: u32,
    /// The sequence number that the reply has; 0 if it has none. If there is no reply, MIT krb5
    /// takes the authenticator's.
    pub acceptor_number: u32,
}

impl Agreed {
    /// Returns the key that protects the messages: the acceptor's subkey if it has one, else the
    /// initiator's if it has one, else the session key.
    ///
    /// Source: RFC 4121, section 2.
    pub fn key(&self) -> &Key
        ensures { result.now ≡ key_of self.now }
    {
        match (&self.acceptor_subkey, &self.initiator_subkey) {
            (Some(key), _) => key,
            (None, Some(key)) => key,
            (None, None) => &self.session_key,
        }
    }

    // The number of the first token that a side sends.
    pub(crate) fn first_number(&self, side: Role) -> u64
        ensures { result ≡ first_of self.now side }
    {
        match side {
            Role::Initiator => u64::from(self.initiator_number),
            Role::Acceptor => u64::from(self.acceptor_number),
        }
    }
}

/// How a side of a context writes and takes tokens.
#[derive(Clone, Copy, Debug, PartialEq, Eq)]
pub struct Options {
    /// By how many bytes sealed tokens are rotated when they are written (RRC): any number. 0 is what
    /// MIT krb5 writes; 32 (type 19) or 40 (type 20) puts the tag and the sealed header in front.
    /// Tokens that are read may have any number.
    pub rotation: u16,
    /// Whether only the next token is taken, and each other one refused.
    pub is_in_order: bool,
    /// Whether a repeat is refused, and a token that is too old to know whether it is one. One after a
    /// gap is taken, and a late one (RFC 2743, section 1.2.3: replay detection without sequencing).
    pub refuses_repeats: bool,
}

impl Options {
    // Whether a token is taken that stands so to those before it.
    pub(crate) fn takes(self, order: Order) -> bool
        ensures { MatchBool result (MayTake self order) (IsRefusedBy self order) }
    {
        if self.is_in_order && !order.is_next() {
            return false;
        }
        !self.refuses_repeats || order.is_new()
    }
}
