//! What goes back to a client that is let in, and to one that isn't.

ghost use Rattle.std.specs.Prelude.{◌≡◌, ◌≢◌, List, ℕ, ℤ, false, None, Some, IfErr, IfOk, IsErrOf, IsTrue, OnErr, IsSomeAnd};
ghost use Rattle.std.specs.Option.{MatchOption};
ghost use Rattle.krb_ap.specs.Answer.{taken_of};
ghost use Rattle.krb_ap.specs.ErrorReply.{IsErrorReply};
ghost use Rattle.krb_ap.specs.declared.refusal.Refusal.{Refusal as RefusalValue};
ghost use Rattle.krb_gss.specs.Answer.{error};
ghost use Rattle.krb_login.specs.Asked.{Asks, AsksNothing, AsksSomething};
ghost use Rattle.krb_login.specs.Carrying.{GoesBack, Says, rejected};
ghost use Rattle.krb_login.specs.Inner.{IsSentSo};
ghost use Rattle.krb_login.specs.Login.{IsAnswerDue, IsAnswered, IsDue, IsErrorLong, IsNothingDue, IsRefusedSo, SaysNothing};

use crate::asked::{Asked, asked_by, wants_reply};
use crate::carrier::{Carrier, said};
use crate::cause::Cause;
use crate::decision::{Refused, Unsent};
use krb_ap::{Accepted, Refusal, ReplyFault, ReplyOptions, error_reply};
use krb_gss::{Answer, WrapFault};
use krb_msg::{Moment, Principal};
use std::alloc::Global;

/// Makes what goes back to a client that is let in, or nothing if it awaits nothing.
pub(crate) fn answer_of(
    alloc: Global,
    carrier: Carrier,
    accepted: &Accepted,
    confounder: &[u8; 16],
    choice: ReplyOptions,
) -> Result<Option<Vec<u8>>, WrapFault>
    ensures answered { IfOk result (IsAnswered carrier (taken_of accepted.now) confounder.now choice) }
    ensures due { OnErr result (IsAnswerDue carrier (taken_of accepted.now)) }
{
    if !accepted.mutual {
        return Ok(said(alloc, carrier.completed())?);
    }
    let reply = accepted.reply(alloc, confounder, choice)?;
    Ok(Some(carrier.wrap(alloc, Answer::Reply(&reply))?))
}

/// Says nothing to a client, since memory ran out.
pub(crate) fn out_of_memory() -> Refused
    ensures cause { result.cause ≡ Cause.OutOfMemory }
    ensures silent { SaysNothing result }
{
    Refused {
        cause: Cause::OutOfMemory,
        asked: None,
        answer: None,
        unsent: Some(Unsent::OutOfMemory),
    }
}

/// Says why the client of a request isn't let in, and makes what goes back to it.
pub(crate) fn refused(
    alloc: Global,
    carrier: Carrier,
    request: &[u8],
    now: Moment,
    cause: Cause,
    refusal: &Refusal,
) -> Refused
    ensures cause { result.cause ≡ cause }
    ensures so { IsRefusedSo now carrier request.now refusal.now result }
{
    match asked_by(alloc, request) {
        Ok(asked) => refused_as(alloc, carrier, asked, now, cause, refusal),
        Err(_) => refused_unread(carrier, request, cause),
    }
}

// Says only the cause, since there is no memory for what the request asks for.
fn refused_unread(carrier: Carrier, request: &[u8], cause: Cause) -> Refused
    ensures cause { result.cause ≡ cause }
    ensures so { AsksSomething request.now → (now : ℤ) (refusal : RefusalValue) → IsRefusedSo now carrier request.now refusal result }
{
    let unsent = if is_due(carrier, request) {
        Some(Unsent::OutOfMemory)
    } else {
        None
    };
    Refused {
        cause,
        asked: None,
        answer: None,
        unsent,
    }
}

// Whether an error or a reject is due to the client of a request.
fn is_due(carrier: Carrier, request: &[u8]) -> bool
    ensures due { IsTrue result → AsksSomething request.now → IsDue carrier request.now }
    ensures none { result ≡ false → AsksSomething request.now → IsNothingDue carrier request.now }
{
    wants_reply(request) || carrier.rejected().is_some()
}

/// Says why the client of a request that asked for this isn't let in, and makes what goes back to it.
pub(crate) fn refused_as(
    alloc: Global,
    carrier: Carrier,
    asked: Option<Asked>,
    now: Moment,
    cause: Cause,
    refusal: &Refusal,
) -> Refused
    ensures cause { result.cause ≡ cause }
    ensures asked { result.asked ≡ asked }
    ensures so { (request : List ℕ) → MatchOption asked (AsksNothing request) (Asks request)
        → IsRefusedSo now carrier request refusal.now result }
{
    match refusal_of(alloc, carrier, now, &asked, refusal) {
        Ok(answer) => Refused {
            cause,
            asked,
            answer,
            unsent: None,
        },
        Err(why) => Refused {
            cause,
            asked,
            answer: None,
            unsent: Some(why),
        },
    }
}

// What goes back to a client that is refused.
fn refusal_of(
    alloc: Global,
    carrier: Carrier,
    now: Moment,
    asked: &Option<Asked>,
    refusal: &Refusal,
) -> Result<Option<Vec<u8>>, Unsent>
    ensures { (request : List ℕ) → MatchOption asked.now (AsksNothing request) (Asks request)
        → IsSentSo now carrier request refusal.now asked.now result }
{
    match asked {
        None => rejection(alloc, carrier),
        Some(asked) => refusal_to(alloc, carrier, now, asked, refusal),
    }
}

fn refusal_to(
    alloc: Global,
    carrier: Carrier,
    now: Moment,
    asked: &Asked,
    refusal: &Refusal,
) -> Result<Option<Vec<u8>>, Unsent>
    ensures { (request : List ℕ) → Asks request asked.now → IsSentSo now carrier request refusal.now (Some asked.now) result }
{
    if asked.wants_reply {
        error_to(alloc, carrier, now, &asked.service, refusal)
    } else {
        rejection(alloc, carrier)
    }
}

/// Rejects a client that is in a negotiation.
pub(crate) fn rejection(alloc: Global, carrier: Carrier) -> Result<Option<Vec<u8>>, Unsent>
    ensures sent { IfOk result (Says (rejected carrier)) }
    ensures unsent { IfErr result (λ why. (why ≡ Unsent.OutOfMemory) × (rejected carrier ≢ None)) }
{
    match said(alloc, carrier.rejected()) {
        Ok(sent) => Ok(sent),
        Err(_) => Err(Unsent::OutOfMemory),
    }
}

fn error_to(
    alloc: Global,
    carrier: Carrier,
    now: Moment,
    service: &Principal,
    refusal: &Refusal,
) -> Result<Option<Vec<u8>>, Unsent>
    ensures sent { IfOk result (λ sent. IsSomeAnd sent (λ bytes. (message : List ℕ)
        × (IsErrorReply refusal.now now service.now message × GoesBack carrier (error message) bytes.items))) }
    ensures long { IsErrOf result Unsent.TooLong → IsErrorLong refusal.now now carrier service.now }
{
    match error_in(alloc, carrier, now, service, refusal) {
        Ok(bytes) => Ok(Some(bytes)),
        Err(why) => Err(why),
    }
}

// The error of a refusal, in the carrier.
fn error_in(
    alloc: Global,
    carrier: Carrier,
    now: Moment,
    service: &Principal,
    refusal: &Refusal,
) -> Result<Vec<u8>, Unsent>
    ensures sent { IfOk result (λ bytes. (message : List ℕ)
        × (IsErrorReply refusal.now now service.now message × GoesBack carrier (error message) bytes.items)) }
    ensures long { IsErrOf result Unsent.TooLong → IsErrorLong refusal.now now carrier service.now }
{
    let message = match error_reply(alloc, refusal, now, service) {
        Ok(message) => message,
        Err(ReplyFault::TooLong) => return Err(Unsent::TooLong),
        // A refusal with no code is for lack of memory.
        Err(ReplyFault::NoCode | ReplyFault::OutOfMemory) => return Err(Unsent::OutOfMemory),
    };
    match carrier.wrap(alloc, Answer::Error(&message)) {
        Ok(bytes) => Ok(bytes),
        Err(WrapFault::TooLong) => Err(Unsent::TooLong),
        Err(WrapFault::OutOfMemory) => Err(Unsent::OutOfMemory),
    }
}
