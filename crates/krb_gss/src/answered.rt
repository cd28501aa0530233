//! Opening a service's answer.

ghost use Rattle.std.specs.Prelude.{◌≡◌, IfOk, IfErr};
ghost use Rattle.krb_gss.specs.Answer.{message_of, Stands};
ghost use Rattle.krb_gss.specs.Fault.{IsNoMessage};
ghost use Rattle.krb_gss.specs.Answered.{FindsAnswer, OpensEachAnswer, IsAnswerFault};
ghost use Rattle.krb_gss.specs.Inner.Reading.{answer_at, whole_at};

use crate::framing::{FRAME, begin, begins, kerberos};
use crate::negotiation::accepted;
use crate::{Answer, Mechanism, TokenFault, Wrapping};
use krb_der::Cursor;

/// What a service's answer holds.
#[derive(Clone, Copy, Debug, PartialEq, Eq)]
pub struct Answered<'a> {
    /// What the answer stands in.
    pub wrapping: Wrapping,
    /// The name that the token of Kerberos has.
    pub mechanism: Mechanism,
    /// The answer.
    pub answer: Answer<'a>,
}

/// Opens a service's answer to the first token of a client, bare or negotiated.
///
/// The negState and the mechListMIC of a negotiation aren't looked at.
///
/// # Errors
/// A fault by the rules of `specs::Answered`.
pub fn open_answer<'a>(bytes: &'a [u8]) -> Result<Answered<'a>, TokenFault>
    ensures found { FindsAnswer result bytes.entry.now }
    ensures only { OpensEachAnswer result bytes.entry.now }
    ensures faulty { IfErr result (IsAnswerFault bytes.entry.now) }
{
    let ((wrapping, mechanism), inner) = whole(bytes)?;
    let answer = message(&inner)?;
    Ok(Answered {
        wrapping,
        mechanism,
        answer,
    })
}

/// The message after the identifier of an answer.
fn message<'a>(inner: &Cursor<'a>) -> Result<Answer<'a>, TokenFault>
    ensures found { IfOk result (λ x. Stands inner.now (message_of x)) }
    ensures faulty { IfErr result (IsNoMessage (Stands inner.now) inner.now) }
{
    match inner.rest() {
        [2, 0, message @ ..] => Ok(Answer::Reply(message)),
        [3, 0, message @ ..] => Ok(Answer::Error(message)),
        _ => Err(TokenFault::TokenId(inner.at())),
    }
}

/// Reads an answer up to the identifier.
#[tactic(auto, unfolding(crate::specs::Inner::Reading::answer_at))]
fn wrapped<'a>(cursor: Cursor<'a>) -> Result<((Wrapping, Mechanism), Cursor<'a>), TokenFault>
    ensures { result ≡ answer_at cursor.entry }
{
    if begins(cursor.rest(), FRAME) {
        let (mechanism, inner) = kerberos(cursor)?;
        return Ok(((Wrapping::Bare, mechanism), inner));
    }
    if begins(cursor.rest(), 0xa1) {
        let (first, mechanism, inner) = accepted(cursor)?;
        return Ok(((Wrapping::Negotiated(first), mechanism), inner));
    }
    Err(TokenFault::NotToken)
}

#[tactic(auto, unfolding(crate::specs::Inner::Reading::whole_at))]
fn whole<'a>(bytes: &'a [u8]) -> Result<((Wrapping, Mechanism), Cursor<'a>), TokenFault>
    ensures { result ≡ whole_at answer_at bytes.entry.now }
{
    let cursor = begin(bytes)?;
    wrapped(cursor)
}
