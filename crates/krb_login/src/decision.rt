//! What a service decides, and what it sends back.

use crate::asked::Asked;
use crate::cause::Cause;
use krb_ap::Accepted;

/// A client that is let in. There is no `Debug`, so no log shows a key.
#[derive(Drop)]
pub struct LetIn {
    /// What is known of the client.
    pub accepted: Accepted,
    /// The bytes to send back, if any.
    pub answer: Option<Vec<u8>>,
}

/// A client that isn't let in.
#[derive(Debug, Drop)]
pub struct Refused {
    /// Why.
    pub cause: Cause,
    /// What the request asked for, if it could be read.
    pub asked: Option<Asked>,
    /// The bytes to send back, if any.
    pub answer: Option<Vec<u8>>,
    /// Why bytes are missing that should go back.
    pub unsent: Option<Unsent>,
}

/// Why bytes that should go back to a client that isn't let in can't be made.
#[derive(Clone, Copy, Debug, PartialEq, Eq)]
pub enum Unsent {
    /// The error, or its token, would have more than 1,048,576 bytes.
    TooLong,
    /// There is no memory.
    OutOfMemory,
}

/// What a service decides. It can only be read as one of these.
#[derive(Drop)]
pub enum Decision {
    /// The client is let in.
    LetIn(LetIn),
    /// The client is asked for its next token, with these bytes.
    GoOn(Vec<u8>),
    /// The client isn't let in.
    Refused(Refused),
}
