//! Wrapping a request in the first token of a client, and the service's answers to its tokens.

ghost use Rattle.std.specs.Prelude.{◌≡◌, ◌<◌, ◌≤◌, [], length, None, IfOk, OnOk, IsErrOf};
ghost use Rattle.krb_der.specs.Spells.{limit};
ghost use Rattle.krb_gss.specs.Token.{IsToken};
ghost use Rattle.krb_gss.specs.Wrapping.{IsResponding, Writes, written_size, WritesRequest};
ghost use Rattle.krb_gss.specs.ListMic.{WritesRequestMic};
ghost use Rattle.krb_gss.specs.Answer.{message_of, bytes_of, id_of, state_of, said_state, said_name, IsAnswer, WritesAnswer, WritesLater, WritesVerdict, answer_size, later_size};
ghost use Rattle.krb_gss.specs.Inner.Putting.{of_token};

use crate::putting::{Held, Message, Proposal, Response, Token};
use crate::{Answer, Mechanism, Verdict, Wrapping};
use krb_der::{EncodeFault, EncodeParts, Writer, encoded_parts};
use std::alloc::{AllocError, Global};
use thiserror::Error;

/// Why a token wasn't written.
#[derive(Debug, Drop, Error)]
pub enum WrapFault {
    /// The token would have more than 1,048,576 bytes.
    #[error("the token would be longer than 1048576 bytes")]
    TooLong,
    /// There is no memory.
    #[error("out of memory")]
    OutOfMemory,
}

impl From<AllocError> for WrapFault {
    ghost use Rattle.krb_gss.specs.declared.wrapping.WrapFault.TheVariants.{OutOfMemory};

    ghost from_gives = { λ _ e. e ≡ OutOfMemory };

    fn from(_error: AllocError) -> WrapFault {
        WrapFault::OutOfMemory
    }
}

/// Returns the bytes of these parts.
pub(crate) fn encoded<P: EncodeParts>(alloc: Global, parts: &P) -> Result<Vec<u8>, WrapFault>
    ensures written { IfOk result (λ bytes. P.writes parts.now bytes.items) }
    ensures within { IfOk result (λ bytes. length bytes.items ≤ limit) }
    ensures fits { OnOk result (P.size parts.now ≤ limit) }
    ensures too_long { IsErrOf result WrapFault.TooLong → limit < P.size parts.now }
    ensures memory { IsErrOf result WrapFault.OutOfMemory → P.size parts.now ≤ limit }
{
    match encoded_parts(alloc, parts) {
        Ok(bytes) => Ok(bytes),
        Err(EncodeFault::TooLong) => Err(WrapFault::TooLong),
        Err(EncodeFault::OutOfMemory) => Err(WrapFault::OutOfMemory),
    }
}

/// Writes a token in its wrapping: as the first of a client or, with a state, as an answer.
fn wrap(
    alloc: Global,
    wrapping: Wrapping,
    state: Option<u8>,
    token: Token<'_>,
) -> Result<Vec<u8>, WrapFault>
    ensures written { IfOk result (λ bytes. of_token (Writes wrapping state) token.entry bytes.items) }
    ensures within { IfOk result (λ bytes. length bytes.items ≤ limit) }
    ensures fits { OnOk result (written_size wrapping state token.entry.mechanism (length token.entry.message.bytes.now) ≤ limit) }
    ensures too_long { IsErrOf result WrapFault.TooLong
        → limit < written_size wrapping state token.entry.mechanism (length token.entry.message.bytes.now) }
    ensures memory { IsErrOf result WrapFault.OutOfMemory
        → written_size wrapping state token.entry.mechanism (length token.entry.message.bytes.now) ≤ limit }
{
    match (wrapping, state) {
        (Wrapping::Bare, _) => encoded(alloc, &token),
        (Wrapping::Negotiated(first), None) => encoded(alloc, &Proposal { first, token }),
        (Wrapping::Negotiated(first), Some(state)) => {
            let response = Response {
                state,
                first: Some(first),
                token: Held(Some(token)),
            };
            encoded(alloc, &response)
        }
    }
}

/// What is written of an answer: its state, and its message with the identifier.
fn parts<'a>(answer: Answer<'a>) -> (u8, Message<'a>)
    ensures state { result.0 ≡ state_of (message_of answer.entry) }
    ensures id { result.1.id ≡ id_of (message_of answer.entry) }
    ensures message { result.1.bytes.now ≡ bytes_of (message_of answer.entry) }
{
    match answer {
        Answer::Reply(bytes) => (0, Message { id: 0x02, bytes }),
        Answer::Error(bytes) => (2, Message { id: 0x03, bytes }),
    }
}

/// Wraps a request in the first token of a client. The request may be any bytes.
///
/// A negotiation names one mechanism, that of `wrapping`, and has no other field than its token.
///
/// # Errors
/// - `TooLong`: the token would have more than 1,048,576 bytes.
/// - `OutOfMemory`.
pub fn wrap_request(
    alloc: Global,
    wrapping: Wrapping,
    mechanism: Mechanism,
    request: &[u8],
) -> Result<Vec<u8>, WrapFault>
    ensures token { IfOk result (λ bytes. IsToken wrapping mechanism request.now bytes.items) }
    ensures written { IfOk result (λ bytes. WritesRequest wrapping mechanism request.now bytes.items) }
    ensures fits { OnOk result (written_size wrapping None mechanism (length request.now) ≤ limit) }
    ensures too_long { IsErrOf result WrapFault.TooLong → limit < written_size wrapping None mechanism (length request.now) }
    ensures memory { IsErrOf result WrapFault.OutOfMemory → written_size wrapping None mechanism (length request.now) ≤ limit }
{
    let message = Message {
        id: 0x01,
        bytes: request,
    };
    wrap(alloc, wrapping, None, Token { mechanism, message })
}

/// Wraps the service's answer as the request was wrapped. The message may be any bytes.
///
/// In a negotiation the answer is a NegTokenResp of three fields: its negState is accept-completed for
/// a reply and reject for an error, and its supportedMech is the mechanism of `wrapping`.
///
/// # Errors
/// - `TooLong`: the token would have more than 1,048,576 bytes.
/// - `OutOfMemory`.
pub fn wrap_answer(
    alloc: Global,
    wrapping: Wrapping,
    mechanism: Mechanism,
    answer: Answer<'_>,
) -> Result<Vec<u8>, WrapFault>
    ensures answer { IfOk result (λ bytes. IsAnswer wrapping mechanism (message_of answer.entry) bytes.items) }
    ensures written { IfOk result (λ bytes. WritesAnswer wrapping mechanism (message_of answer.entry) bytes.items) }
    ensures fits { OnOk result (answer_size wrapping mechanism (length (bytes_of (message_of answer.entry))) ≤ limit) }
    ensures too_long { IsErrOf result WrapFault.TooLong
        → limit < answer_size wrapping mechanism (length (bytes_of (message_of answer.entry))) }
    ensures memory { IsErrOf result WrapFault.OutOfMemory
        → answer_size wrapping mechanism (length (bytes_of (message_of answer.entry))) ≤ limit }
{
    let (state, message) = parts(answer);
    wrap(alloc, wrapping, Some(state), Token { mechanism, message })
}

/// Wraps the service's answer to a later token of a client, which [`Negotiation::take`](crate::Negotiation::take) took. The message
/// may be any bytes.
///
/// It is a NegTokenResp with a negState, accept-completed or reject, and the token.
///
/// # Errors
/// - `TooLong`: the token would have more than 1,048,576 bytes.
/// - `OutOfMemory`.
pub fn wrap_later(
    alloc: Global,
    mechanism: Mechanism,
    answer: Answer<'_>,
) -> Result<Vec<u8>, WrapFault>
    ensures written { IfOk result (λ bytes. WritesLater mechanism (message_of answer.entry) bytes.items) }
    ensures fits { OnOk result (later_size mechanism (length (bytes_of (message_of answer.entry))) ≤ limit) }
    ensures too_long { IsErrOf result WrapFault.TooLong → limit < later_size mechanism (length (bytes_of (message_of answer.entry))) }
    ensures memory { IsErrOf result WrapFault.OutOfMemory → later_size mechanism (length (bytes_of (message_of answer.entry))) ≤ limit }
{
    let (verdict, message) = parts(answer);
    let response = Response {
        state: verdict,
        first: None,
        token: Held(Some(Token { mechanism, message })),
    };
    encoded(alloc, &response)
}

/// What is written of a verdict: its state, and the mechanism that it names.
fn said(verdict: Verdict) -> (u8, Option<Mechanism>)
    ensures state { result.0 ≡ said_state verdict }
    ensures name { result.1 ≡ said_name verdict }
{
    match verdict {
        Verdict::Completed(first) => (0, first),
        Verdict::Incomplete(first) => (1, Some(first)),
        Verdict::Rejected => (2, None),
    }
}

/// Writes the service's answer in a negotiation that has no token of Kerberos.
///
/// # Errors
/// `AllocError`: out of memory.
pub fn wrap_verdict(alloc: Global, verdict: Verdict) -> Result<Vec<u8>, AllocError>
    ensures { IfOk result (λ bytes. WritesVerdict verdict bytes.items) }
{
    let (state, first) = said(verdict);
    without_token(alloc, state, first)
}

/// Asks a client for its token of this mechanism and a mechListMIC (request-mic), after a first token as of
/// [`open_listing`](crate::open_listing).
///
/// # Errors
/// `AllocError`: out of memory.
pub fn wrap_request_mic(alloc: Global, mechanism: Mechanism) -> Result<Vec<u8>, AllocError>
    ensures { IfOk result (λ bytes. WritesRequestMic mechanism bytes.items) }
{
    without_token(alloc, 3, Some(mechanism))
}

/// Writes a NegTokenResp without a token.
fn without_token(alloc: Global, state: u8, first: Option<Mechanism>) -> Result<Vec<u8>, AllocError>
    ensures { IfOk result (λ bytes. IsResponding state first (λ none. none ≡ []) bytes.items) }
{
    let mut out = Writer::new(alloc);
    let response = Response {
        state,
        first,
        token: Held(None),
    };
    response.write_parts(&mut out)?;
    Ok(out.into_bytes())
}
