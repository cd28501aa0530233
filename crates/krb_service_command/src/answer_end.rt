//! What follows an answer of `accept` on its line.

ghost use Rattle.std.specs.Prelude.{◌≡◌, ◌≢◌, ◌≤◌, ◌++◌, ◌∷◌, [], IfOk, IsErrOf, OnOk, string_bytes};
ghost use Rattle.krb_gss.specs.Answer.{message_of};
ghost use Rattle.krb_call_lines.specs.Forms.{IsSentTooLong, TellsAnswer};
ghost use Rattle.krb_service_command.specs.AnswerEnd.{IsErrorEnd, IsReplyEnd, IsAnswerEnd, named, end_status, end_text};

use krb_ap::{Accepted, Outcome, Refusal, ReplyFault, ReplyOptions, error_reply};
use krb_call_lines::Envelope;
use krb_file_commands::FAILED;
use krb_gss::{Answer, WrapFault, wrap_answer};
use krb_msg::Moment;
use krb_name::Principal;
use std::alloc::{AllocError, Global};
use std::fmt::Write;

/// What follows an answer on its line.
#[derive(Drop)]
pub(crate) enum AnswerEnd {
    /// Nothing.
    Nothing,
    /// A reply, or the token that holds it, in hexadecimal.
    Reply(String),
    /// An error, or the token that holds it, in hexadecimal.
    Error(String),
    /// Nothing either: memory ran out for it.
    OutOfMemory,
}

/// What a call is answered, and what follows that on its line.
#[derive(Drop)]
pub(crate) struct LineAnswer {
    /// The acceptor's answer.
    pub outcome: Outcome,
    /// What follows it.
    pub end: AnswerEnd,
}

/// Makes what follows the answer to a call of this moment: a reply to a request that asks for one and came with a confounder, or the
/// error that reports a refusal, if the service's name is given. It is wrapped as the request was.
pub(crate) fn end_of(
    alloc: Global,
    envelope: Option<Envelope>,
    outcome: &Outcome,
    now: Moment,
    confounder: Option<[u8; 16]>,
    service: Option<&Principal>,
) -> AnswerEnd
    ensures { IsAnswerEnd envelope outcome.now now confounder (named service.entry) result }
{
    match outcome {
        Ok(accepted) => match confounder {
            Some(confounder) => reply_end(alloc, envelope, accepted, &confounder),
            None => AnswerEnd::Nothing,
        },
        Err(refusal) => match service {
            Some(service) => error_end(alloc, envelope, refusal, now, service),
            None => AnswerEnd::Nothing,
        },
    }
}

fn reply_end(
    alloc: Global,
    envelope: Option<Envelope>,
    accepted: &Accepted,
    confounder: &[u8; 16],
) -> AnswerEnd
    ensures { IsReplyEnd envelope accepted.now confounder.now result }
{
    if !accepted.mutual {
        return AnswerEnd::Nothing;
    }
    let options = ReplyOptions {
        subkey: None,
        seq: None,
    };
    // A reply without a subkey is far shorter than a token may be.
    match accepted.reply(alloc, confounder, options) {
        Ok(bytes) => match sent_text(alloc, envelope, Answer::Reply(&bytes)) {
            Ok(text) => AnswerEnd::Reply(text),
            Err(_) => AnswerEnd::OutOfMemory,
        },
        Err(_) => AnswerEnd::OutOfMemory,
    }
}

fn error_end(
    alloc: Global,
    envelope: Option<Envelope>,
    refusal: &Refusal,
    now: Moment,
    service: &Principal,
) -> AnswerEnd
    ensures { IsErrorEnd envelope refusal.now now service.now result }
{
    match error_reply(alloc, refusal, now, service) {
        Ok(bytes) => match sent_text(alloc, envelope, Answer::Error(&bytes)) {
            Ok(text) => AnswerEnd::Error(text),
            Err(fault) => match fault {
                WrapFault::TooLong => AnswerEnd::Nothing,
                WrapFault::OutOfMemory => AnswerEnd::OutOfMemory,
            },
        },
        Err(fault) => match fault {
            ReplyFault::NoCode => AnswerEnd::Nothing,
            ReplyFault::TooLong => AnswerEnd::Nothing,
            ReplyFault::OutOfMemory => AnswerEnd::OutOfMemory,
        },
    }
}

// What is sent for an answer, in hexadecimal: its message, or the token that holds it.
fn sent_text(
    alloc: Global,
    envelope: Option<Envelope>,
    answer: Answer<'_>,
) -> Result<String, WrapFault>
    ensures text { IfOk result (λ text. TellsAnswer envelope (message_of answer.entry) (string_bytes text)) }
    ensures too_long { IsErrOf result WrapFault.TooLong → IsSentTooLong envelope (message_of answer.entry) }
{
    match envelope {
        Some(envelope) => token_text(alloc, envelope, answer),
        None => Ok(hex::encode(alloc, answer.bytes())?),
    }
}

fn token_text(alloc: Global, envelope: Envelope, answer: Answer<'_>) -> Result<String, WrapFault>
    ensures text { IfOk result (λ text. TellsAnswer (Some envelope) (message_of answer.entry) (string_bytes text)) }
    ensures too_long { IsErrOf result WrapFault.TooLong → IsSentTooLong (Some envelope) (message_of answer.entry) }
{
    let token = wrap_answer(alloc, envelope.wrapping, envelope.mechanism, answer)?;
    Ok(hex::encode(alloc, token)?)
}

/// Writes what is printed of it after a line, with a space in front, and the line's end.
pub(crate) fn write_end(end: &AnswerEnd, line: &mut String) -> Result<(), AllocError>
    ensures { OnOk result (string_bytes line.new ≡ string_bytes line.old ++ (end_text end.now ++ 10 ∷ [])) }
{
    match end {
        AnswerEnd::Reply(digits) => write!(line, " reply {digits}\n"),
        AnswerEnd::Error(digits) => write!(line, " error {digits}\n"),
        AnswerEnd::Nothing | AnswerEnd::OutOfMemory => line.push('\n'),
    }
}

/// Returns what it makes of the exit status: 3 if memory ran out, else 0.
pub(crate) fn status_of_end(end: &AnswerEnd) -> u8
    ensures status { result ≡ end_status end.now }
    ensures known { result ≤ 3 }
    ensures ran { result ≢ 2 }
{
    match end {
        AnswerEnd::OutOfMemory => FAILED,
        AnswerEnd::Nothing => 0,
        AnswerEnd::Reply(_) => 0,
        AnswerEnd::Error(_) => 0,
    }
}
