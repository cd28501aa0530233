//! `explain`, by the words of the command line.

ghost use Rattle.std.specs.Prelude.{◌≡◌, ◌≢◌, ◌⊎◌, ◌≤◌, IfErr, IfOk, IfSome, IsSome, Ok, Err, Some};
ghost use Rattle.krb_explain.specs.Input.{read_of};
ghost use Rattle.krb_service_command.specs.Inner.Message.{IsUnreadMessage};
ghost use Rattle.krb_service_command.specs.Inner.Task.{AsksExplain};
ghost use Rattle.krb_service_command.specs.Words.{IsSecond, IsUnreadExplain, IsUnreadSecond, LacksName, LacksSkew};

use crate::explain::Explain;
use crate::explain_keys::ExplainWithKeys;
use crate::opening::opened_source;
use crate::task::{name_of, second_in, skew_of};
use crate::text::read_message;
use krb_command_line::ExplainWords;
use krb_file::{ReadSource, SliceSource, Source, WriteSink};
use krb_file_commands::{
    FAILED, WRONG_WORDS, complain, complain_of, file_line, produce, run_product,
};
use krb_msg::Seconds;
use std::io;
use std::io::Input;
use std::rt::Files;
use std::time::{Clock, SystemTime, UNIX_EPOCH};

// What the message is called in the line of a fault, if it isn't in a file.
const INPUT: &str = "input";

const MESSAGE: &str = "message";

// What the machine's clock is called in the line of a fault.
const CLOCK: &str = "clock";

/// Explains the message of the command line, of a file or of standard input, and returns the exit status.
///
/// - 0: the explanation was printed;
/// - 1: the text doesn't spell bytes or is too long, or the keytab's content is refused;
/// - 2: a keytab is named, and the skew or the second isn't one, or the name isn't a name. This comes before a file is opened;
/// - 3: a file, standard input, the output or the clock failed, or memory ran out.
///
/// Except for 0, and for a wrong skew or second, what is wrong is printed on standard error.
pub fn run_explain<R: AllocGlobal + Files + Clock + Input + Print + Eprint>(
    rt: &R,
    words: ExplainWords<'_>,
) -> u8
    ensures known { result ≤ 3 }
    ensures words { result ≡ 2 → IsSome words.entry.keytab × IsUnreadExplain words.entry 2 }
    ensures skew { IsSome words.entry.keytab → LacksSkew words.entry.skew.now → result ≡ 2 }
    ensures others { IsSome words.entry.keytab → IsUnreadSecond words.entry.at 2 ⊎ LacksName words.entry.only → (result ≡ 2) ⊎ (result ≡ 3) }
{
    match words.keytab {
        Some(path) => explain_by(rt, words, path),
        None => explain_alone(rt, words),
    }
}

// Explains the message without keys.
fn explain_alone<R: AllocGlobal + Files + Input + Print + Eprint>(
    rt: &R,
    words: ExplainWords<'_>,
) -> u8
    ensures known { result ≤ 3 }
    ensures ran { result ≢ 2 }
{
    match (words.message, words.file) {
        (Some(text), _) => explain_source(rt, SliceSource::new(text.as_bytes()), MESSAGE),
        (None, Some(path)) => run_product(rt, &Explain, "explain", path, None),
        (None, None) => explain_source(rt, ReadSource::new(rt.reader()), INPUT),
    }
}

// Explains what the source gives, which has this name.
fn explain_source<R: AllocGlobal + Print + Eprint, S: Source + Drop>(
    rt: &R,
    source: S,
    name: &str,
) -> u8
    ensures known { result ≤ 3 }
    ensures ran { result ≢ 2 }
{
    let mut source = source;
    let mut sink = WriteSink::new(io::writer(rt));
    match produce(rt.alloc(), &mut source, &mut sink, &Explain) {
        Ok(_) => 0,
        Err(fault) => complain_of(rt, &fault, name, "explain"),
    }
}

// Explains the message with the keys of a keytab.
fn explain_by<R: AllocGlobal + Files + Clock + Input + Print + Eprint>(
    rt: &R,
    words: ExplainWords<'_>,
    keytab: &str,
) -> u8
    ensures known { result ≤ 3 }
    ensures words { result ≡ 2 → IsUnreadExplain words.entry 2 }
    ensures skew { LacksSkew words.entry.skew.now → result ≡ 2 }
    ensures others { IsUnreadSecond words.entry.at 2 ⊎ LacksName words.entry.only → (result ≡ 2) ⊎ (result ≡ 3) }
{
    match wanted_of(rt, words) {
        Ok(wanted) => run_product(rt, &wanted, "explain", keytab, None),
        Err(status) => status,
    }
}

// What is asked for with a keytab. If it can't be read, that is printed, and the exit status is the error.
fn wanted_of<R: AllocGlobal + Files + Clock + Input + Eprint>(
    rt: &R,
    words: ExplainWords<'_>,
) -> Result<ExplainWithKeys, u8>
    ensures asked { IfOk result (AsksExplain words.entry) }
    ensures skew { LacksSkew words.entry.skew.now → result ≡ Err 2 }
    ensures known { IfErr result (λ status. status ≤ 3) }
    ensures words { IfErr result (λ status. status ≡ 2 → IsUnreadExplain words.entry status) }
    ensures others { IsUnreadSecond words.entry.at 2 ⊎ LacksName words.entry.only → IfErr result (λ status. (status ≡ 2) ⊎ (status ≡ 3)) }
{
    let Some(skew) = skew_of(words.skew) else {
        return Err(WRONG_WORDS);
    };
    let second = second_of(rt, words.at)?;
    let only = name_of(rt, "only", words.only)?;
    let bytes = message_of(rt, words)?;
    Ok(ExplainWithKeys {
        bytes,
        second,
        skew,
        only,
    })
}

// The second that is asked for, or that of the machine's clock. If the clock can't be read, that is printed, and the exit status is the
// error.
fn second_of<R: Clock + Eprint>(rt: &R, text: Option<&str>) -> Result<Seconds, u8>
    ensures asked { IfOk result (λ second. IfSome text.entry (λ word. IsSecond word.now second)) }
    ensures unread { IfErr result (IsUnreadSecond text.entry) }
{
    match text {
        Some(text) => match second_in(text) {
            Some(second) => Ok(second),
            None => Err(WRONG_WORDS),
        },
        None => match clock_second(rt) {
            Some(second) => Ok(second),
            None => Err(complain(rt, file_line(CLOCK), FAILED)),
        },
    }
}

// The second of the machine's clock, if it is between 1970 and 9999.
fn clock_second<R: Clock>(rt: &R) -> Option<Seconds> {
    let now = SystemTime::now(rt).ok()?;
    let passed = now.duration_since(UNIX_EPOCH).ok()?;
    Seconds::new(i64::try_from(passed.as_secs()).ok()?)
}

// The bytes of the message. If they can't be read, that is printed, and the exit status is the error.
fn message_of<R: AllocGlobal + Files + Input + Eprint>(
    rt: &R,
    words: ExplainWords<'_>,
) -> Result<Vec<u8>, u8>
    ensures bytes { IfSome words.entry.message (λ text. IfOk result (λ bytes. read_of text.now ≡ Ok bytes.items)) }
    ensures fault { IfSome words.entry.message (λ text. IfErr result (IsUnreadMessage (Some text.now))) }
    ensures known { IfErr result (λ status. status ≤ 3) }
    ensures ran { IfErr result (λ status. status ≢ 2) }
{
    match (words.message, words.file) {
        (Some(text), _) => message_from(rt, SliceSource::new(text.as_bytes()), MESSAGE),
        (None, Some(path)) => message_from(rt, opened_source(rt, path, "explain")?, path),
        (None, None) => message_from(rt, ReadSource::new(rt.reader()), INPUT),
    }
}

// The bytes of the message that the source gives, which has this name.
fn message_from<R: AllocGlobal + Eprint, S: Source + Drop>(
    rt: &R,
    source: S,
    name: &str,
) -> Result<Vec<u8>, u8>
    ensures bytes { IfOk result (λ bytes. IfSome (S.remaining source) (λ text. read_of text ≡ Ok bytes.items)) }
    ensures fault { IfErr result (IsUnreadMessage (S.remaining source)) }
    ensures known { IfErr result (λ status. status ≤ 3) }
    ensures ran { IfErr result (λ status. status ≢ 2) }
{
    let mut source = source;
    match read_message(rt.alloc(), &mut source) {
        Ok(bytes) => Ok(bytes),
        Err(fault) => Err(complain_of(rt, &fault, name, "explain")),
    }
}
