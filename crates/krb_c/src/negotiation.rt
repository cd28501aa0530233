//! The service's side of a negotiation, and its answers without a token.

ghost use Rattle.std.specs.Prelude.{IfErr, IfOk, length, ◌<◌, ◌≡◌, ◌≤◌};
ghost use Rattle.std.specs.Option.{MatchOption};
ghost use Rattle.krb_c.specs.Answer.{Delivers, Hands};
ghost use Rattle.krb_c.specs.Negotiation.{IsNoStage, IsNoVerdict, IsUnsaid, ReadsVerdict, Returns, SaysVerdict, TakesNext, negotiation_of, verdict_of};
ghost use Rattle.krb_c.specs.Tokens.{later_of};

use crate::answer::hand_over;
use crate::code;
use crate::structs::{Answer, Negotiation, Verdict, Wrapped};
use crate::token::{NAMED, mechanism_of, number_of, token_told, wrapped_of};
use krb_gss::{
    Mechanism, Negotiation as Stage, Taken, Verdict as Said, read_verdict, wrap_verdict,
};
use std::alloc::{AllocError, Global};

/// Takes the next token of a client (`krb_gss::Negotiation::take`): writes its request to the
/// buffer, or the answer that asks for one, and to `wrapped` what it was wrapped in.
#[unsafe(no_mangle)]
pub extern "C" fn fevstunik_negotiation_take(
    negotiation: &mut Negotiation,
    alloc: Global,
    token: &[u8],
    wrapped: &mut Wrapped,
    buffer: &mut [u8],
) -> Answer
    ensures { TakesNext token.now negotiation.old negotiation.new wrapped.old wrapped.new buffer.old buffer.new result }
{
    let Some(mut stage) = stage_of(negotiation) else {
        return Answer::plain(code::BAD_NEGOTIATION);
    };
    match stage.take(token) {
        Ok(taken) => match returned(alloc, taken) {
            Ok((bytes, is)) => {
                *wrapped = is;
                hand_taken(bytes.as_slice(), stage, negotiation, buffer)
            }
            Err(_) => Answer::plain(code::OUT_OF_MEMORY),
        },
        Err(fault) => {
            *negotiation = numbers_of(stage);
            token_told(fault)
        }
    }
}

/// Copies the bytes to the buffer. The negotiation goes on to a stage if there is room.
fn hand_taken(
    bytes: &[u8],
    stage: Stage,
    negotiation: &mut Negotiation,
    buffer: &mut [u8],
) -> Answer
    ensures hands { Hands bytes.now buffer.old buffer.new result }
    ensures fits { length bytes.now ≤ length buffer.old → negotiation.new ≡ negotiation_of stage }
    ensures short { length buffer.old < length bytes.now → negotiation.new ≡ negotiation.old }
{
    if bytes.len() <= buffer.len() {
        *negotiation = numbers_of(stage);
    }
    hand_over(bytes, buffer)
}

fn stage_of(negotiation: &Negotiation) -> Option<Stage>
    ensures { MatchOption result (IsNoStage negotiation.now) (λ stage. negotiation.now ≡ negotiation_of stage) }
{
    match (negotiation.stage, negotiation.asked) {
        (0, 0) => Some(Stage::Begun),
        (1, number) => Some(Stage::Asked(mechanism_of(number)?)),
        (2, 0) => Some(Stage::Ended),
        _ => None,
    }
}

fn numbers_of(stage: Stage) -> Negotiation
    ensures { result ≡ negotiation_of stage }
{
    match stage {
        Stage::Begun => Negotiation { stage: 0, asked: 0 },
        Stage::Asked(first) => Negotiation {
            stage: 1,
            asked: number_of(first),
        },
        Stage::Ended => Negotiation { stage: 2, asked: 0 },
    }
}

/// The bytes that are returned of a token, and what they were wrapped in.
fn returned(alloc: Global, taken: Taken) -> Result<(Vec<u8>, Wrapped), AllocError>
    ensures { IfOk result (λ made. Returns taken.entry made.0.items made.1) }
{
    match taken {
        Taken::First(opened) => Ok((copied(alloc, opened.request)?, wrapped_of(&opened))),
        Taken::Later(later) => Ok((copied(alloc, later.request)?, later_of(later.mechanism))),
        Taken::Asks(first) => {
            let bytes = wrap_verdict(alloc, Said::Incomplete(first))?;
            let wrapped = Wrapped {
                mechanism: 0,
                negotiated: number_of(first),
            };
            Ok((bytes, wrapped))
        }
    }
}

fn copied(alloc: Global, bytes: &[u8]) -> Result<Vec<u8>, AllocError>
    ensures { IfOk result (λ copy. copy.items ≡ bytes.now) }
{
    let mut copy = Vec::new(alloc);
    copy.extend_from_slice(bytes)?;
    Ok(copy)
}

fn later_of(mechanism: Mechanism) -> Wrapped
    ensures { result ≡ later_of mechanism }
{
    Wrapped {
        mechanism: number_of(mechanism),
        negotiated: NAMED,
    }
}

/// Builds a service's answer in a negotiation that holds no token (`krb_gss::wrap_verdict`).
#[unsafe(no_mangle)]
pub extern "C" fn fevstunik_verdict_token(
    verdict: &Verdict,
    alloc: Global,
    buffer: &mut [u8],
) -> Answer
    ensures { Delivers (SaysVerdict verdict.now) (IsUnsaid verdict.now) buffer.old buffer.new result }
{
    match verdict_bytes(alloc, verdict) {
        Ok(bytes) => hand_over(bytes.as_slice(), buffer),
        Err(answer) => answer,
    }
}

fn verdict_bytes(alloc: Global, verdict: &Verdict) -> Result<Vec<u8>, Answer>
    ensures token { IfOk result (λ bytes. SaysVerdict verdict.now bytes.items) }
    ensures fault { IfErr result (IsUnsaid verdict.now) }
{
    let Some(said) = said_of(verdict) else {
        return Err(Answer::plain(code::BAD_VERDICT));
    };
    match wrap_verdict(alloc, said) {
        Ok(bytes) => Ok(bytes),
        Err(_) => Err(Answer::plain(code::OUT_OF_MEMORY)),
    }
}

fn said_of(verdict: &Verdict) -> Option<Said>
    ensures { MatchOption result (IsNoVerdict verdict.now) (λ said. verdict.now ≡ verdict_of said) }
{
    match (verdict.says, verdict.mechanism) {
        (1, 0) => Some(Said::Completed(None)),
        (1, number) => Some(Said::Completed(Some(mechanism_of(number)?))),
        (2, number) => Some(Said::Incomplete(mechanism_of(number)?)),
        (3, 0) => Some(Said::Rejected),
        _ => None,
    }
}

fn verdict_numbers(said: Said) -> Verdict
    ensures { result ≡ verdict_of said }
{
    match said {
        Said::Completed(None) => Verdict {
            says: 1,
            mechanism: 0,
        },
        Said::Completed(Some(first)) => Verdict {
            says: 1,
            mechanism: number_of(first),
        },
        Said::Incomplete(first) => Verdict {
            says: 2,
            mechanism: number_of(first),
        },
        Said::Rejected => Verdict {
            says: 3,
            mechanism: 0,
        },
    }
}

/// Reads a service's answer in a negotiation that holds no token (`krb_gss::read_verdict`). It
/// allocates no memory.
#[unsafe(no_mangle)]
pub extern "C" fn fevstunik_verdict_read(token: &[u8], verdict: &mut Verdict) -> Answer
    ensures { ReadsVerdict token.now verdict.old verdict.new result }
{
    match read_verdict(token) {
        Some(said) => {
            *verdict = verdict_numbers(said);
            Answer::plain(code::OK)
        }
        None => Answer::plain(code::NOTHING_THERE),
    }
}
