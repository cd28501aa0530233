//! The service's side of a negotiation.

ghost use Rattle.std.specs.Prelude.{◌≡◌, List, ℕ, IfOk, IfErr, IsOkAnd};
ghost use Rattle.std.specs.Option.{MatchOption};
ghost use Rattle.krb_gss.specs.Later.{IsLaterToken, IsLaterFault};
ghost use Rattle.krb_gss.specs.Negotiation.{IsAsking, Takes};
ghost use Rattle.krb_gss.specs.Inner.Reading.{asked_at, going_on_at, whole_at};

use crate::framing::{begin, framed};
use crate::mechanism::named;
use crate::negotiation::{going_on, init};
use crate::opening::message;
use crate::{Foreign, Mechanism, Opened, TokenFault, open_token};
use krb_der::Cursor;

/// How far a negotiation is, on the service's side. It begins as `Begun`.
#[derive(Clone, Copy, Debug, PartialEq, Eq)]
pub enum Negotiation {
    /// No token of the client was taken.
    Begun,
    /// The client named Kerberos first, by this name, and was asked for its token.
    ///
    /// A caller that sets this state after [`open_listing`](crate::open_listing) has to check the client's mechListMIC itself:
    /// [`take`](Negotiation::take) doesn't look at it.
    Asked(Mechanism),
    /// A request was taken, or a token was refused.
    Ended,
}

/// The request in a client's later token.
#[derive(Clone, Copy, Debug, PartialEq, Eq)]
pub struct Later<'a> {
    /// The name that the token of Kerberos has.
    pub mechanism: Mechanism,
    /// The request, a message AP-REQ.
    pub request: &'a [u8],
}

/// What a negotiation took from a token.
#[derive(Clone, Copy, Debug, PartialEq, Eq)]
pub enum Taken<'a> {
    /// The first token holds a request. `wrap_answer` wraps its answer.
    First(Opened<'a>),
    /// The client named Kerberos first, by this name, and sent no token. `Verdict::Incomplete` asks for it.
    Asks(Mechanism),
    /// A later token holds a request. `wrap_later` wraps its answer.
    Later(Later<'a>),
}

impl Negotiation {
    /// Takes the next token of the client, from the first on.
    ///
    /// A negotiation has at most two rounds. The first token holds a request, or names Kerberos first and
    /// holds none; then the second one holds it. A negotiation whose first mechanism is another is refused
    /// by the name of that mechanism, also if Kerberos is in its list: a change of the list would be found
    /// only by a mechListMIC, and this crate makes none.
    ///
    /// # Errors
    /// A fault by the rules of `specs::Fault` for the first token, and of `specs::Later` for the second one. `Ended`
    /// if the negotiation is over, as it is after each error.
    pub fn take<'a>(&mut self, bytes: &'a [u8]) -> Result<Taken<'a>, TokenFault>
        ensures { Takes bytes.entry.now self.old result self.new }
    {
        match *self {
            Negotiation::Begun => self.take_first(bytes),
            Negotiation::Asked(_) => self.take_later(bytes),
            Negotiation::Ended => Err(TokenFault::Ended),
        }
    }

    fn take_first<'a>(&mut self, bytes: &'a [u8]) -> Result<Taken<'a>, TokenFault>
        ensures { Takes bytes.entry.now Negotiation.Begun result self.new }
    {
        if let Some(first) = asked(bytes) {
            *self = Negotiation::Asked(first);
            return Ok(Taken::Asks(first));
        }
        *self = Negotiation::Ended;
        match open_token(bytes) {
            Ok(opened) => Ok(Taken::First(opened)),
            Err(fault) => Err(fault),
        }
    }

    fn take_later<'a>(&mut self, bytes: &'a [u8]) -> Result<Taken<'a>, TokenFault>
        ensures { (first : Mechanism) → Takes bytes.entry.now (Negotiation.Asked first) result self.new }
    {
        *self = Negotiation::Ended;
        match open_later(bytes) {
            Ok(later) => Ok(Taken::Later(later)),
            Err(fault) => Err(fault),
        }
    }
}

/// The name by which a negotiation names Kerberos first, if it has no token.
fn asked(bytes: &[u8]) -> Option<Mechanism>
    ensures { MatchOption result ((first : Mechanism) → IsAsking first bytes.now → ⊥) (λ first. IsAsking first bytes.now) }
{
    asked_here(bytes)
}

#[tactic(auto, unfolding(crate::specs::Inner::Reading::asked_at))]
fn asked_here(bytes: &[u8]) -> Option<Mechanism>
    ensures { result ≡ asked_at bytes.now }
{
    let Ok(cursor) = begin(bytes) else {
        return None;
    };
    let Ok((name, after)) = framed(cursor) else {
        return None;
    };
    let Err(Foreign::Negotiation) = named(name.rest()) else {
        return None;
    };
    let Ok((oid, token)) = init(after) else {
        return None;
    };
    match (token, named(oid.rest())) {
        (None, Ok(first)) => Some(first),
        _ => None,
    }
}

/// Opens a client's later token, in a negotiation that it has begun. A mechListMIC in it isn't looked at:
/// [`later_mic`](crate::later_mic) reads that.
///
/// # Errors
/// A fault by the rules of `specs::Later`.
pub fn open_later<'a>(bytes: &'a [u8]) -> Result<Later<'a>, TokenFault>
    ensures found { IfOk result (λ l. IsLaterToken l.mechanism l.request.now bytes.entry.now) }
    ensures only { (mechanism : Mechanism) (request : List ℕ) → IsLaterToken mechanism request bytes.entry.now
        → IsOkAnd result (λ l. (l.mechanism ≡ mechanism) × (l.request.now ≡ request)) }
    ensures faulty { IfErr result (IsLaterFault bytes.entry.now) }
{
    let (mechanism, inner) = whole(bytes)?;
    let request = message(&inner)?;
    Ok(Later { mechanism, request })
}

#[tactic(auto, unfolding(crate::specs::Inner::Reading::whole_at))]
fn whole<'a>(bytes: &'a [u8]) -> Result<(Mechanism, Cursor<'a>), TokenFault>
    ensures { result ≡ whole_at going_on_at bytes.entry.now }
{
    let cursor = begin(bytes)?;
    going_on(cursor)
}
