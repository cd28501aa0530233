//! What `accept` prints for a line.

ghost use Rattle.std.specs.Prelude.{◌≡◌, ◌≢◌, ◌≤◌, ◌⊎◌, ◌++◌, ◌∷◌, IfOk, IfErr, OnOk, OnErr, codes, string_bytes};
ghost use Rattle.std.specs.Fmt.{decimal, signed_decimal};
ghost use Rattle.std.specs.Io.KnownBytes.{Appends};
ghost use Rattle.krb_file.specs.Flow.{counted, AppendsBeginning};
ghost use Rattle.krb_service_command.specs.Answering.{accepted_line, answer_line, call_status, call_text, mutual_text, outcome_status, refused_line};
ghost use Rattle.krb_service_command.specs.Status.{failed_writes};

use crate::answer_end::{AnswerEnd, LineAnswer, status_of_end, write_end};
use crate::fault::ServiceFault;
use krb_ap::{Accepted, Outcome, Refusal};
use krb_call_lines::bad_token_text;
use krb_file::{Sink, write_all};
use krb_file_commands::{FAILED, REFUSED};
use krb_gss::TokenFault;
use std::alloc::{AllocError, Global};

/// What becomes of a line.
#[derive(Drop)]
pub(crate) enum LineOutcome {
    /// It spells no call.
    BadLine,
    /// What is to be its token isn't one, and has this fault. No call is made.
    BadToken(TokenFault),
    /// Its call is answered.
    Answered(LineAnswer),
}

/// Prints what became of a line.
pub(crate) fn print_answer<K: Sink>(
    alloc: Global,
    outcome: &LineOutcome,
    sink: &mut K,
) -> Result<(), ServiceFault>
    ensures ok { OnOk result (Appends (K.taken sink.old) (K.taken sink.new) (answer_line outcome.now)) }
    ensures err { OnErr result (AppendsBeginning (K.taken sink.old) (K.taken sink.new) (answer_line outcome.now)) }
    ensures which { IfErr result (λ e. (e ≡ ServiceFault.Write) ⊎ (e ≡ ServiceFault.OutOfMemory)) }
    ensures writes { K.failure_count sink.new ≡ counted (K.failure_count sink.old) (failed_writes result) }
{
    let line = answer_text(alloc, outcome)?;
    write_all(sink, line.as_bytes())?;
    Ok(())
}

fn answer_text(alloc: Global, outcome: &LineOutcome) -> Result<String, AllocError>
    ensures { IfOk result (λ text. string_bytes text ≡ answer_line outcome.now) }
{
    match outcome {
        LineOutcome::BadLine => String::from_str(alloc, "bad line\n"),
        LineOutcome::BadToken(fault) => bad_token_text(alloc, fault),
        LineOutcome::Answered(answer) => call_text(alloc, &answer.outcome, &answer.end),
    }
}

fn call_text(alloc: Global, outcome: &Outcome, end: &AnswerEnd) -> Result<String, AllocError>
    ensures { IfOk result (λ text. string_bytes text ≡ call_text outcome.now end.now) }
{
    match outcome {
        Ok(accepted) => accepted_text(alloc, accepted, end),
        Err(refusal) => refused_text(alloc, refusal, end),
    }
}

fn accepted_text(alloc: Global, accepted: &Accepted, end: &AnswerEnd) -> Result<String, AllocError>
    ensures { IfOk result (λ text. string_bytes text ≡ accepted_line accepted.now end.now) }
{
    let client = accepted.client.to_text(alloc)?;
    let mut line = accepted_words(
        alloc,
        client.as_str(),
        accepted.session_key.etype(),
        accepted.ctime.get(),
        accepted.cusec.get(),
        mutual_text(accepted.mutual),
    )?;
    write_end(end, &mut line)?;
    Ok(line)
}

// What the line of an accepted request says before its end.
fn accepted_words(
    alloc: Global,
    client: &str,
    etype: i32,
    ctime: i64,
    cusec: u32,
    asks: &str,
) -> Result<String, AllocError>
    ensures { IfOk result (λ text. string_bytes text ≡ codes "accepted " ++ (client.now
        ++ (32 ∷ (signed_decimal etype ++ (32 ∷ (signed_decimal ctime
        ++ (32 ∷ (decimal cusec ++ (32 ∷ asks.now))))))))) }
{
    let words = format!(in alloc; "accepted {client} {etype} {ctime} {cusec} {asks}")?;
    Ok(words)
}

fn mutual_text(mutual: bool) -> &'static str
    ensures { result.now ≡ mutual_text «mutual» }
{
    if mutual { "mutual" } else { "plain" }
}

fn refused_text(alloc: Global, refusal: &Refusal, end: &AnswerEnd) -> Result<String, AllocError>
    ensures { IfOk result (λ text. string_bytes text ≡ refused_line refusal.now end.now) }
{
    let name = refusal.name();
    let mut line = match refusal.code() {
        Some(code) => format!(in alloc; "refused {code} {name}")?,
        None => format!(in alloc; "refused none {name}")?,
    };
    write_end(end, &mut line)?;
    Ok(line)
}

/// Returns what an outcome makes of the exit status: 0 if a request was accepted, 1 if a line or its token was bad or its
/// request was refused, 3 if memory ran out, for a call or for what follows its answer.
pub(crate) fn status_of_outcome(outcome: &LineOutcome) -> u8
    ensures status { result ≡ outcome_status outcome.now }
    ensures known { result ≤ 3 }
    ensures ran { result ≢ 2 }
{
    match outcome {
        LineOutcome::BadLine | LineOutcome::BadToken(_) => REFUSED,
        LineOutcome::Answered(answer) => status_of_call(&answer.outcome).max(status_of_end(
            &answer.end,
        )),
    }
}

fn status_of_call(outcome: &Outcome) -> u8
    ensures status { result ≡ call_status outcome.now }
    ensures known { result ≤ 3 }
    ensures ran { result ≢ 2 }
{
    match outcome {
        Ok(_) => 0,
        Err(refusal) => match refusal {
            Refusal::OutOfMemory => FAILED,
            _ => REFUSED,
        },
    }
}
