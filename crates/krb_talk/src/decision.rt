//! What is decided on a client's message.

use crate::checking::{Admitted, ListFault};
use krb_login::{LetIn, Refused, Unsent};

/// A client that isn't let in, since it hasn't shown that the list of mechanisms is its own. Its request may have been accepted, and
/// is remembered then.
#[derive(Debug, Drop)]
pub struct Unshown {
    /// Why.
    pub fault: ListFault,
    /// The bytes to send back: a reject.
    pub answer: Option<Vec<u8>>,
    /// Why the reject is missing, if it is: only `OutOfMemory`.
    pub unsent: Option<Unsent>,
}

/// What is decided on a client's message. It can only be read as one of these.
#[derive(Drop)]
pub enum Decision {
    /// The client is let in, by a service's decision alone: it has sent no list that names Kerberos later.
    LetIn(LetIn),
    /// The client is let in, and has shown that it sent the list that the service saw.
    Shown(Admitted),
    /// The client is asked for its next message, with these bytes.
    GoOn(Vec<u8>),
    /// The service refuses the client.
    Refused(Refused),
    /// The client isn't let in, for its list.
    Unshown(Unshown),
}
