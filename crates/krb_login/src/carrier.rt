//! What a request comes in, and what its answer goes back in.

ghost use Rattle.std.specs.Prelude.{◌≡◌, ◌≢◌, None, IfOk, OnOk, OnErr, IsErrOf, length};
ghost use Rattle.krb_gss.specs.Answer.{bytes_of, message_of};
ghost use Rattle.krb_login.specs.Carrying.{FitsInto, GoesBack, Says, completed, rejected};

use krb_gss::{
    Answer, Mechanism, Verdict, WrapFault, Wrapping, wrap_answer, wrap_later, wrap_verdict,
};
use std::alloc::{AllocError, Global};

/// What a request comes in. Its answer goes back in the same.
#[derive(Clone, Copy, Debug, PartialEq, Eq)]
pub enum Carrier {
    /// Nothing: the request is the bytes.
    Alone,
    /// The first token of a client.
    First(Wrapping, Mechanism),
    /// A later token of a negotiation.
    Later(Mechanism),
}

impl Carrier {
    /// Wraps a message AP-REP or KRB-ERROR that goes back.
    ///
    /// # Errors
    /// - `TooLong`: the token would have more than 1,048,576 bytes. A message by itself is copied,
    ///   however long it is.
    /// - `OutOfMemory`.
    pub fn wrap(self, alloc: Global, answer: Answer<'_>) -> Result<Vec<u8>, WrapFault>
        ensures wrapped { IfOk result (λ bytes. GoesBack self (message_of answer.entry) bytes.items) }
        ensures fits { OnOk result (FitsInto self (length (bytes_of (message_of answer.entry)))) }
        ensures too_long { IsErrOf result WrapFault.TooLong → FitsInto self (length (bytes_of (message_of answer.entry))) → ⊥ }
        ensures memory { IsErrOf result WrapFault.OutOfMemory → FitsInto self (length (bytes_of (message_of answer.entry))) }
    {
        match self {
            Carrier::Alone => Ok(Vec::from_slice(alloc, answer.bytes())?),
            Carrier::First(wrapping, mechanism) => wrap_answer(alloc, wrapping, mechanism, answer),
            Carrier::Later(mechanism) => wrap_later(alloc, mechanism, answer),
        }
    }

    /// Returns what a service says to a client that is let in and awaits no reply.
    pub fn completed(self) -> Option<Verdict>
        ensures { result ≡ completed self }
    {
        match self {
            Carrier::First(Wrapping::Negotiated(first), _) => Some(Verdict::Completed(Some(first))),
            Carrier::Later(_) => Some(Verdict::Completed(None)),
            _ => None,
        }
    }

    /// Returns what a service says to a client that it refuses, if it sends no error.
    pub fn rejected(self) -> Option<Verdict>
        ensures { result ≡ rejected self }
    {
        match self {
            Carrier::First(Wrapping::Negotiated(_), _) | Carrier::Later(_) => {
                Some(Verdict::Rejected)
            }
            _ => None,
        }
    }
}

/// The bytes that say this, if anything is said.
pub(crate) fn said(alloc: Global, verdict: Option<Verdict>) -> Result<Option<Vec<u8>>, AllocError>
    ensures says { IfOk result (Says verdict) }
    ensures due { OnErr result (verdict ≢ None) }
{
    match verdict {
        None => Ok(None),
        Some(verdict) => Ok(Some(wrap_verdict(alloc, verdict)?)),
    }
}
