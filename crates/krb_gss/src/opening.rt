//! Opening the first token of a client.

ghost use Rattle.std.specs.Prelude.{◌≡◌, IfOk, IfErr};
ghost use Rattle.krb_gss.specs.Mechanism.{named_of};
ghost use Rattle.krb_gss.specs.Token.{IsMessage};
ghost use Rattle.krb_gss.specs.Fault.{IsNoMessage, IsTokenFault};
ghost use Rattle.krb_gss.specs.Opening.{FindsToken, OpensEach};
ghost use Rattle.krb_gss.specs.Inner.Reading.{begin_from, negotiated_at, within_from, framed_at, wrapped_at, whole_at};

use crate::framing::{FRAME, REQUEST, begin, begins, framed};
use crate::mechanism::named;
use crate::negotiation::proposed;
use crate::{Foreign, Mechanism, TokenFault};
use krb_der::Cursor;

/// What a request or its answer stands in.
#[derive(Clone, Copy, Debug, PartialEq, Eq)]
pub enum Wrapping {
    /// A token of Kerberos alone.
    Bare,
    /// A negotiation (SPNEGO) that names this mechanism first.
    Negotiated(Mechanism),
}

/// What a client's first token holds.
#[derive(Clone, Copy, Debug, PartialEq, Eq)]
pub struct Opened<'a> {
    /// What the request stands in.
    pub wrapping: Wrapping,
    /// The name that the token of Kerberos has.
    pub mechanism: Mechanism,
    /// The request, a message AP-REQ.
    pub request: &'a [u8],
}

/// Opens the first token of a client, bare or negotiated.
///
/// # Errors
/// A fault by the rules of `specs::Fault`.
pub fn open_token<'a>(bytes: &'a [u8]) -> Result<Opened<'a>, TokenFault>
    ensures found { FindsToken result bytes.entry.now }
    ensures only { OpensEach result bytes.entry.now }
    ensures faulty { IfErr result (IsTokenFault bytes.entry.now) }
{
    let ((wrapping, mechanism), inner) = whole(bytes)?;
    let request = message(&inner)?;
    Ok(Opened {
        wrapping,
        mechanism,
        request,
    })
}

/// The message after the identifier of a request.
pub(crate) fn message<'a>(inner: &Cursor<'a>) -> Result<&'a [u8], TokenFault>
    ensures found { IfOk result (λ x. IsMessage 0x01 inner.now x.now) }
    ensures faulty { IfErr result (IsNoMessage (IsMessage 0x01 inner.now) inner.now) }
{
    match inner.rest() {
        [0x01, 0, message @ ..] => Ok(message),
        _ => Err(TokenFault::TokenId(inner.at())),
    }
}

/// Checks that a token of a mechanism begins here.
fn is_token(bytes: &[u8]) -> Result<(), TokenFault>
    ensures { result ≡ begin_from bytes.now }
{
    if begins(bytes, FRAME) {
        return Ok(());
    }
    if begins(bytes, 0xa1) {
        return Err(TokenFault::Response);
    }
    if begins(bytes, REQUEST) {
        return Err(TokenFault::Unframed(0));
    }
    Err(TokenFault::NotToken)
}

/// Reads a negotiation that a client begins, up to the identifier.
fn negotiated<'a>(after: Cursor<'a>) -> Result<((Wrapping, Mechanism), Cursor<'a>), TokenFault>
    ensures { result ≡ negotiated_at after.entry }
{
    let (first, mechanism, inner) = proposed(after)?;
    Ok(((Wrapping::Negotiated(first), mechanism), inner))
}

/// Reads what is after the name of a token's mechanism, up to the identifier.
fn within<'a>(
    oid: Cursor,
    after: Cursor<'a>,
) -> Result<((Wrapping, Mechanism), Cursor<'a>), TokenFault>
    ensures { result ≡ within_from oid.entry.at after.entry (named_of oid.entry.rest) }
{
    match named(oid.rest()) {
        Ok(mechanism) => Ok(((Wrapping::Bare, mechanism), after)),
        Err(Foreign::Negotiation) => negotiated(after),
        Err(other) => Err(TokenFault::OtherMechanism(other, oid.at())),
    }
}

/// Reads a token up to the identifier.
#[tactic(auto, unfolding(crate::specs::Inner::Reading::framed_at))]
fn unframed<'a>(cursor: Cursor<'a>) -> Result<((Wrapping, Mechanism), Cursor<'a>), TokenFault>
    ensures { result ≡ framed_at cursor.entry }
{
    let (oid, after) = framed(cursor)?;
    within(oid, after)
}

/// The same of bytes that may be no token.
#[tactic(auto, unfolding(crate::specs::Inner::Reading::wrapped_at))]
fn wrapped<'a>(cursor: Cursor<'a>) -> Result<((Wrapping, Mechanism), Cursor<'a>), TokenFault>
    ensures { result ≡ wrapped_at cursor.entry }
{
    is_token(cursor.rest())?;
    unframed(cursor)
}

#[tactic(auto, unfolding(crate::specs::Inner::Reading::whole_at))]
fn whole<'a>(bytes: &'a [u8]) -> Result<((Wrapping, Mechanism), Cursor<'a>), TokenFault>
    ensures { result ≡ whole_at wrapped_at bytes.entry.now }
{
    let cursor = begin(bytes)?;
    wrapped(cursor)
}
