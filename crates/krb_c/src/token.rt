//! Tokens of GSS-API, in which clients send a request and services answer it.

ghost use Rattle.krb_c.specs.Tokens.{OpensToken, foreign_code, later_of, mechanism_number, token_answer, wrapped_of};
ghost use Rattle.std.specs.Prelude.{IfErr, IfOk, ◌≡◌};
ghost use Rattle.krb_c.specs.TokenAnswers.{OpensAnswer, says_error};
ghost use Rattle.krb_gss.specs.Answer.{message_of};
ghost use Rattle.krb_c.specs.Answer.{Delivers};
ghost use Rattle.krb_c.specs.Wrapping.{IsNoLater, IsNoWrapping, IsRequestFault, IsUnanswered, WrapsAnswer, WrapsRequest, as_error, as_reply};
ghost use Rattle.std.specs.Option.{MatchOption};

use crate::answer::hand_over;
use crate::code;
use crate::structs::{Answer, Wrapped};
use krb_gss::{
    Foreign, Mechanism, Opened, TokenFault, WrapFault, Wrapping, open_answer, open_token,
    wrap_answer, wrap_later, wrap_request,
};
use std::alloc::Global;

/// Opens the first token of a client (`krb_gss::open_token`): writes the request to the buffer, and
/// what it was wrapped in to `wrapped`. It allocates no memory.
#[unsafe(no_mangle)]
pub extern "C" fn fevstunik_token_open(
    token: &[u8],
    wrapped: &mut Wrapped,
    buffer: &mut [u8],
) -> Answer
    ensures { OpensToken token.now wrapped.old wrapped.new buffer.old buffer.new result }
{
    let opened = match open_token(token) {
        Ok(opened) => opened,
        Err(fault) => return token_told(fault),
    };
    *wrapped = wrapped_of(&opened);
    hand_over(opened.request, buffer)
}

pub(crate) fn wrapped_of(opened: &Opened) -> Wrapped
    ensures { result ≡ wrapped_of opened.now.wrapping opened.now.mechanism }
{
    Wrapped {
        mechanism: number_of(opened.mechanism),
        negotiated: match opened.wrapping {
            Wrapping::Bare => 0,
            Wrapping::Negotiated(mechanism) => number_of(mechanism),
        },
    }
}

pub(crate) fn number_of(mechanism: Mechanism) -> u32
    ensures { result ≡ mechanism_number mechanism }
{
    match mechanism {
        Mechanism::Kerberos => 1,
        Mechanism::Microsoft => 2,
        Mechanism::Draft => 3,
    }
}

/// Opens a service's answer to a client's first token (`krb_gss::open_answer`): writes the message
/// to the buffer, and to `is_error` whether it is an error. It allocates no memory.
#[unsafe(no_mangle)]
pub extern "C" fn fevstunik_token_answer(
    token: &[u8],
    is_error: &mut bool,
    buffer: &mut [u8],
) -> Answer
    ensures { OpensAnswer token.now is_error.old is_error.new buffer.old buffer.new result }
{
    match open_answer(token) {
        Ok(opened) => {
            *is_error = says_error(opened.answer);
            hand_over(opened.answer.bytes(), buffer)
        }
        Err(fault) => token_told(fault),
    }
}

fn says_error(answer: krb_gss::Answer<'_>) -> bool
    ensures { result ≡ says_error (message_of answer.entry) }
{
    match answer {
        krb_gss::Answer::Reply(_) => false,
        krb_gss::Answer::Error(_) => true,
    }
}

pub(crate) fn token_told(fault: TokenFault) -> Answer
    ensures { result ≡ token_answer fault }
{
    match fault {
        TokenFault::Malformed(fault) => Answer::placed(code::TOKEN_MALFORMED, fault.at),
        TokenFault::NotToken => Answer::plain(code::NOT_A_TOKEN),
        TokenFault::Response => Answer::plain(code::TOKEN_CONTINUES),
        TokenFault::OtherMechanism(foreign, at) => Answer::placed(code_of(foreign), at),
        TokenFault::NoToken(at) => Answer::placed(code::TOKEN_EMPTY, at),
        TokenFault::TokenId(at) => Answer::placed(code::TOKEN_ID, at),
        TokenFault::Unframed(at) => Answer::placed(code::TOKEN_UNFRAMED, at),
        TokenFault::Ended => Answer::plain(code::NEGOTIATION_OVER),
    }
}

fn code_of(foreign: Foreign) -> u32
    ensures { result ≡ foreign_code foreign }
{
    match foreign {
        Foreign::Negotiation => code::NESTED_NEGOTIATION,
        Foreign::Ntlm => code::NTLM,
        Foreign::IaKerb => code::IAKERB,
        Foreign::Unknown => code::OTHER_MECHANISM,
    }
}

/// Builds the first token of a client for a request (`krb_gss::wrap_request`).
#[unsafe(no_mangle)]
pub extern "C" fn fevstunik_token_request(
    wrapped: &Wrapped,
    alloc: Global,
    request: &[u8],
    buffer: &mut [u8],
) -> Answer
    ensures { Delivers (WrapsRequest wrapped.now request.now) (IsRequestFault wrapped.now request.now) buffer.old buffer.new result }
{
    match request_wrapped(alloc, wrapped, request) {
        Ok(token) => hand_over(token.as_slice(), buffer),
        Err(answer) => answer,
    }
}

fn request_wrapped(alloc: Global, wrapped: &Wrapped, request: &[u8]) -> Result<Vec<u8>, Answer>
    ensures token { IfOk result (λ token. WrapsRequest wrapped.now request.now token.items) }
    ensures fault { IfErr result (IsRequestFault wrapped.now request.now) }
{
    let Some((wrapping, mechanism)) = wrapping_of(wrapped) else {
        return Err(Answer::plain(code::BAD_MECHANISM));
    };
    match wrap_request(alloc, wrapping, mechanism, request) {
        Ok(token) => Ok(token),
        Err(WrapFault::TooLong) => Err(Answer::plain(code::TOO_LONG)),
        Err(WrapFault::OutOfMemory) => Err(Answer::plain(code::OUT_OF_MEMORY)),
    }
}

/// Builds the token that answers a client with a reply (`krb_gss::wrap_answer`).
#[unsafe(no_mangle)]
pub extern "C" fn fevstunik_token_reply(
    wrapped: &Wrapped,
    alloc: Global,
    reply: &[u8],
    buffer: &mut [u8],
) -> Answer
    ensures { Delivers (WrapsAnswer wrapped.now (as_reply reply.now)) (IsUnanswered wrapped.now (as_reply reply.now)) buffer.old buffer.new result }
{
    match answer_wrapped(alloc, wrapped, krb_gss::Answer::Reply(reply)) {
        Ok(token) => hand_over(token.as_slice(), buffer),
        Err(answer) => answer,
    }
}

/// Builds the token that answers a client with an error (`krb_gss::wrap_answer`).
#[unsafe(no_mangle)]
pub extern "C" fn fevstunik_token_error(
    alloc: Global,
    wrapped: &Wrapped,
    error: &[u8],
    buffer: &mut [u8],
) -> Answer
    ensures { Delivers (WrapsAnswer wrapped.now (as_error error.now)) (IsUnanswered wrapped.now (as_error error.now)) buffer.old buffer.new result }
{
    match answer_wrapped(alloc, wrapped, krb_gss::Answer::Error(error)) {
        Ok(token) => hand_over(token.as_slice(), buffer),
        Err(answer) => answer,
    }
}

fn answer_wrapped(
    alloc: Global,
    wrapped: &Wrapped,
    answer: krb_gss::Answer<'_>,
) -> Result<Vec<u8>, Answer>
    ensures token { IfOk result (λ token. WrapsAnswer wrapped.now (message_of answer.entry) token.items) }
    ensures fault { IfErr result (IsUnanswered wrapped.now (message_of answer.entry)) }
{
    if let Some(mechanism) = later_mechanism_of(wrapped) {
        return later_wrapped(alloc, mechanism, answer);
    }
    let Some((wrapping, mechanism)) = wrapping_of(wrapped) else {
        return Err(Answer::plain(code::BAD_MECHANISM));
    };
    match wrap_answer(alloc, wrapping, mechanism, answer) {
        Ok(token) => Ok(token),
        Err(WrapFault::TooLong) => Err(Answer::plain(code::TOO_LONG)),
        Err(WrapFault::OutOfMemory) => Err(Answer::plain(code::OUT_OF_MEMORY)),
    }
}

/// The answer to a later token, whose mechanism this is.
fn later_wrapped(
    alloc: Global,
    mechanism: Mechanism,
    answer: krb_gss::Answer<'_>,
) -> Result<Vec<u8>, Answer>
    ensures token { IfOk result (λ token. WrapsAnswer (later_of mechanism) (message_of answer.entry) token.items) }
    ensures fault { IfErr result (IsUnanswered (later_of mechanism) (message_of answer.entry)) }
{
    match wrap_later(alloc, mechanism, answer) {
        Ok(token) => Ok(token),
        Err(WrapFault::TooLong) => Err(Answer::plain(code::TOO_LONG)),
        Err(WrapFault::OutOfMemory) => Err(Answer::plain(code::OUT_OF_MEMORY)),
    }
}

pub(crate) fn mechanism_of(number: u32) -> Option<Mechanism>
    ensures { MatchOption result ((mechanism : Mechanism) → number ≡ mechanism_number mechanism → ⊥) (λ mechanism. number ≡ mechanism_number mechanism) }
{
    match number {
        1 => Some(Mechanism::Kerberos),
        2 => Some(Mechanism::Microsoft),
        3 => Some(Mechanism::Draft),
        _ => None,
    }
}

/// The number in place of a mechanism that an earlier answer named.
pub(crate) const NAMED: u32 = 100;

fn later_mechanism_of(wrapped: &Wrapped) -> Option<Mechanism>
    ensures { MatchOption result (IsNoLater wrapped.now) (λ mechanism. wrapped.now ≡ later_of mechanism) }
{
    if wrapped.negotiated == NAMED {
        return mechanism_of(wrapped.mechanism);
    }
    None
}

fn wrapping_of(wrapped: &Wrapped) -> Option<(Wrapping, Mechanism)>
    ensures { MatchOption result (IsNoWrapping wrapped.now) (λ found. wrapped.now ≡ wrapped_of found.0 found.1) }
{
    let mechanism = mechanism_of(wrapped.mechanism)?;
    if wrapped.negotiated == 0 {
        return Some((Wrapping::Bare, mechanism));
    }
    let first = mechanism_of(wrapped.negotiated)?;
    Some((Wrapping::Negotiated(first), mechanism))
}
