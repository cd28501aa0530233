//! The commands of a client, by the words of the command line, which are read before a file is opened.

ghost use Rattle.std.specs.Prelude.{◌≡◌, ◌≤◌, ◌⊎◌, ℤ, Err, IfErr, IfOk, IfSome, Option, Some};
ghost use Rattle.krb_gss.specs.declared.opening.Wrapping.{Wrapping};
ghost use Rattle.krb_file_commands.specs.Words.{Asks};
ghost use Rattle.krb_client_commands.specs.Inner.Asking.{AsksFinish, AsksRequest};
ghost use Rattle.krb_client_commands.specs.Requesting.{IsTokenWord};
ghost use Rattle.krb_client_commands.specs.Words.{IsMoment, IsUnreadFinish, IsUnreadRequest, LacksMoment, LacksReply, LacksRequest};

use crate::finish::{Replied, read_reply};
use crate::request::{Asked, read_confounder, read_wrapping};
use krb_command_line::{FinishWords, RequestWords};
use krb_file_commands::{
    FAILED, WRONG_WORDS, complain, hex_line, memory_line, run_product, service_of, word_line,
};
use krb_gss::Wrapping;
use krb_msg::Moment;
use std::rt::Files;

/// Makes a request with the credential cache and prints it, and returns the exit status.
///
/// - 0: the request was printed;
/// - 1: the cache's content is refused, or no request can be built;
/// - 2: the moment isn't one, SERVICE isn't a name, the confounder isn't 16 bytes in hexadecimal, or KIND isn't that of a token. This
///   comes before the cache is opened;
/// - 3: the cache can't be opened or read, the output failed, or memory ran out.
///
/// Except for 0, and for a moment that isn't one, what is wrong is printed on standard error.
pub fn run_request<R: AllocGlobal + Files + Print + Eprint>(rt: &R, words: RequestWords<'_>) -> u8
    ensures known { result ≤ 3 }
    ensures words { result ≡ 2 → IsUnreadRequest words.entry 2 }
    ensures moment { LacksMoment words.entry.time.now words.entry.usec.now → result ≡ 2 }
    ensures others { LacksRequest words.entry → (result ≡ 2) ⊎ (result ≡ 3) }
{
    match asked_of(rt, words) {
        Ok(asked) => run_product(rt, &asked, "request", words.file, None),
        Err(status) => status,
    }
}

/// Reads the reply to a request and prints what is agreed, and returns the exit status.
///
/// - 0: what is agreed was printed;
/// - 1: the cache's content or the reply is refused, or no request can be built;
/// - 2: the moment isn't one, SERVICE isn't a name, or the reply isn't hexadecimal. This comes before the cache is opened;
/// - 3: the cache can't be opened or read, the output failed, or memory ran out.
///
/// Except for 0, and for a moment that isn't one, what is wrong is printed on standard error.
pub fn run_finish<R: AllocGlobal + Files + Print + Eprint>(rt: &R, words: FinishWords<'_>) -> u8
    ensures known { result ≤ 3 }
    ensures words { result ≡ 2 → IsUnreadFinish words.entry 2 }
    ensures moment { LacksMoment words.entry.time.now words.entry.usec.now → result ≡ 2 }
    ensures others { LacksReply words.entry → (result ≡ 2) ⊎ (result ≡ 3) }
{
    match replied_of(rt, words) {
        Ok(replied) => run_product(rt, &replied, "finish", words.file, None),
        Err(status) => status,
    }
}

// What is asked for. If the words can't be read, the exit status is the error, and what is wrong is printed unless it is the moment.
fn asked_of<R: AllocGlobal + Eprint>(rt: &R, words: RequestWords<'_>) -> Result<Asked, u8>
    ensures asked { IfOk result (AsksRequest words.entry) }
    ensures moment { LacksMoment words.entry.time.now words.entry.usec.now → result ≡ Err 2 }
    ensures status { IfErr result (λ status. (status ≡ 2) ⊎ (status ≡ 3)) }
    ensures fault { IfErr result (IsUnreadRequest words.entry) }
{
    let Some(at) = moment_of(words.time, words.usec) else {
        return Err(WRONG_WORDS);
    };
    let service = service_of(rt, "service", words.service)?;
    let Some(confounder) = read_confounder(words.confounder) else {
        return Err(complain(rt, hex_line("confounder"), WRONG_WORDS));
    };
    let Some(wrapping) = wrapping_of(words.token) else {
        return Err(complain(rt, word_line("token"), WRONG_WORDS));
    };
    Ok(Asked {
        service,
        at,
        confounder,
        wants_reply: words.mutual,
        wrapping,
    })
}

// The reply that is to be read. If the words can't be read, the exit status is the error, and what is wrong is printed unless it is the
// moment.
fn replied_of<R: AllocGlobal + Eprint>(rt: &R, words: FinishWords<'_>) -> Result<Replied, u8>
    ensures asked { IfOk result (AsksFinish words.entry) }
    ensures moment { LacksMoment words.entry.time.now words.entry.usec.now → result ≡ Err 2 }
    ensures status { IfErr result (λ status. (status ≡ 2) ⊎ (status ≡ 3)) }
    ensures fault { IfErr result (IsUnreadFinish words.entry) }
{
    let Some(at) = moment_of(words.time, words.usec) else {
        return Err(WRONG_WORDS);
    };
    let service = service_of(rt, "service", words.service)?;
    match read_reply(rt.alloc(), words.reply) {
        Ok(Some(reply)) => Ok(Replied { service, at, reply }),
        Ok(None) => Err(complain(rt, hex_line("reply"), WRONG_WORDS)),
        Err(_) => Err(complain(rt, memory_line("reply"), FAILED)),
    }
}

// `None` for a word of no token.
fn wrapping_of(word: Option<&str>) -> Option<Option<Wrapping>>
    ensures asked { IfSome result (Asks IsTokenWord word.entry) }
    ensures all { (wrapping : Option Wrapping) → Asks IsTokenWord word.entry wrapping → result ≡ Some wrapping }
{
    match word {
        Some(word) => Some(Some(read_wrapping(word)?)),
        None => Some(None),
    }
}

// (clap has checked the ranges, so there is such a moment.)
fn moment_of(seconds: &str, micros: &str) -> Option<Moment>
    ensures asked { IfSome result (IsMoment seconds.now micros.now) }
    ensures all { (moment : ℤ) → IsMoment seconds.now micros.now moment → result ≡ Some moment }
{
    Moment::new(seconds.parse::<i64>().ok()?, micros.parse::<u32>().ok()?)
}
