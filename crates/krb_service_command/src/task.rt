//! What the words of `accept` and `explain` ask for.

ghost use Rattle.std.specs.Prelude.{◌≡◌, ◌⊎◌, ℕ, ℤ, IfErr, IfOk, IfSome, Option, Some, Err, if◌then◌else◌};
ghost use Rattle.krb_call_lines.specs.declared.form.Form.TheVariants.{Message, Token};
ghost use Rattle.krb_file_commands.specs.Words.{Asks};
ghost use Rattle.krb_service_command.specs.AnswerEnd.{named};
ghost use Rattle.krb_service_command.specs.Inner.Task.{AsksAccept};
ghost use Rattle.krb_service_command.specs.Words.{IsSecond, IsServiceName, IsSkew, IsStart, IsUnreadAccept, IsUnreadName, LacksTimes};

use crate::accept::AnswerOptions;
use krb_call_lines::Form;
use krb_command_line::AcceptWords;
use krb_file_commands::{WRONG_WORDS, service_of};
use krb_msg::{Moment, Seconds};
use krb_name::Principal;
use krb_replay::Skew;

/// What `accept` is asked for.
#[derive(Drop)]
pub(crate) struct AcceptTask<'a> {
    /// The keytab's file.
    pub(crate) keytab: &'a str,
    pub(crate) times: Times,
    /// What the bytes of a line are.
    pub(crate) form: Form,
    /// The name that errors contain, if there are to be any.
    pub(crate) service: Option<Principal>,
    /// The one name for which requests are accepted; those of the keytab if left out.
    pub(crate) only: Option<Principal>,
}

/// By how much clocks may differ, and when the service was started again.
#[derive(Clone, Copy)]
pub(crate) struct Times {
    pub(crate) skew: Skew,
    pub(crate) start: Option<Moment>,
}

/// Reads what `accept` is asked for. If they can't be read, the exit status is the error; a name that isn't one is printed.
pub(crate) fn accept_task_of<'a, R: AllocGlobal + Eprint>(
    rt: &R,
    words: AcceptWords<'a>,
) -> Result<AcceptTask<'a>, u8>
    ensures asked { IfOk result (AsksAccept words.entry) }
    ensures times { LacksTimes words.entry → result ≡ Err 2 }
    ensures status { IfErr result (λ status. (status ≡ 2) ⊎ (status ≡ 3)) }
    ensures fault { IfErr result (IsUnreadAccept words.entry) }
{
    let Some(times) = times_of(words.skew, words.started) else {
        return Err(WRONG_WORDS);
    };
    let service = name_of(rt, "service", words.service)?;
    let only = name_of(rt, "only", words.only)?;
    Ok(AcceptTask {
        keytab: words.keytab,
        times,
        form: form_of(words.tokens),
        service,
        only,
    })
}

/// How the lines are answered.
pub(crate) fn answer_options_of<'a>(task: &'a AcceptTask<'_>) -> AnswerOptions<'a>
    ensures form { result.form ≡ task.entry.now.form }
    ensures service { named result.service ≡ task.entry.now.service }
{
    AnswerOptions {
        form: task.form,
        service: task.service.as_ref(),
    }
}

/// Reads a name of the command line, if it is there. If it isn't a name, that is printed, and the exit status is the error.
pub(crate) fn name_of<R: AllocGlobal + Eprint>(
    rt: &R,
    argument: &str,
    text: Option<&str>,
) -> Result<Option<Principal>, u8>
    ensures read { IfOk result (Asks IsServiceName text.entry) }
    ensures status { IfErr result (λ status. (status ≡ 2) ⊎ (status ≡ 3)) }
    ensures fault { IfErr result (IsUnreadName text.entry) }
{
    match text {
        Some(text) => Ok(Some(service_of(rt, argument, text)?)),
        None => Ok(None),
    }
}

/// The second that the word writes. (clap has checked the range, so there is one.)
pub(crate) fn second_in(text: &str) -> Option<Seconds>
    ensures asked { IfSome result (IsSecond text.now) }
    ensures all { (second : ℤ) → IsSecond text.now second → result ≡ Some second }
{
    Seconds::new(text.parse::<i64>().ok()?)
}

/// The span that the word writes. (clap has checked the range, so there is one.)
pub(crate) fn skew_of(text: &str) -> Option<Skew>
    ensures asked { IfSome result (IsSkew text.now) }
    ensures all { (skew : ℕ) → IsSkew text.now skew → result ≡ Some skew }
{
    Skew::new(text.parse::<u32>().ok()?)
}

// (clap has checked the ranges, so there are such times.)
fn times_of(skew: &str, started: Option<&str>) -> Option<Times>
    ensures skew { IfSome result (λ times. IsSkew skew.now times.skew) }
    ensures start { IfSome result (λ times. Asks IsStart started.entry times.start) }
    ensures all { (span : ℕ) (start : Option ℤ) → IsSkew skew.now span → Asks IsStart started.entry start
        → result ≡ Some (record { skew = span; start = start }) }
{
    let skew = skew_of(skew)?;
    let start = start_of(started)?;
    Some(Times { skew, start })
}

fn start_of(started: Option<&str>) -> Option<Option<Moment>>
    ensures asked { IfSome result (Asks IsStart started.entry) }
    ensures all { (start : Option ℤ) → Asks IsStart started.entry start → result ≡ Some start }
{
    match started {
        Some(seconds) => Some(Some(Moment::new(seconds.parse::<i64>().ok()?, 0)?)),
        None => Some(None),
    }
}

fn form_of(tokens: bool) -> Form
    ensures { result ≡ (if tokens then Token else Message) }
{
    if tokens { Form::Token } else { Form::Message }
}
