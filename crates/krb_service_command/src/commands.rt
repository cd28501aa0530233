//! `accept`, by the words of the command line, which are read before its keytab is opened.

ghost use Rattle.std.specs.Prelude.{◌≡◌, ◌≢◌, ◌≤◌, ◌⊎◌, ℕ, List, [], Some, Ok, Err, IfErr, IfOk, IfSome, OnErr};
ghost use Rattle.krb_keytab.specs.Entry.{KeytabEntry};
ghost use Rattle.krb_keytab.specs.Format.{IsFaultOf};
ghost use Rattle.krb_ap.specs.Service.{Stands};
ghost use Rattle.krb_service_command.specs.Explaining.{IsServedBy};
ghost use Rattle.krb_service_command.specs.Inner.Task.{AnswersCame, AnswersInput, AreEntriesOf, BeginsInput, Serves};
ghost use Rattle.krb_service_command.specs.Words.{IsUnreadAccept, LacksName, LacksTimes};

use crate::accept::{AnswerOptions, accept_lines};
use crate::fault::ServiceFault;
use crate::opening::opened_source;
use crate::task::{AcceptTask, Times, accept_task_of, answer_options_of};
use krb_ap::Acceptor;
use krb_command_line::AcceptWords;
use krb_file::{ReadSource, Sink, Source, WriteSink};
use krb_file_commands::complain_of;
use krb_keytab::{Keytab, KeytabFault};
use krb_name::Principal;
use krb_replay::{ReplayMemory, TimedMemory};
use std::alloc::Global;
use std::io;
use std::io::Input;
use std::rt::Files;

/// Answers the lines of standard input by the keytab, as `accept_lines` does, and returns the exit status.
///
/// - 0, 1 or 3: that of `accept_lines`;
/// - 1: the keytab's content is refused;
/// - 2: the skew or the start isn't one, or a name isn't a name. This comes before the keytab is opened;
/// - 3: the keytab can't be opened or read, standard input or output failed, or memory ran out.
///
/// Except for the first, and for a wrong skew or start, what is wrong is printed on standard error.
pub fn run_accept<R: AllocGlobal + Files + Input + Print + Eprint>(
    rt: &R,
    words: AcceptWords<'_>,
) -> u8
    ensures known { result ≤ 3 }
    ensures words { result ≡ 2 → IsUnreadAccept words.entry 2 }
    ensures times { LacksTimes words.entry → result ≡ 2 }
    ensures names { LacksName words.entry.service ⊎ LacksName words.entry.only → (result ≡ 2) ⊎ (result ≡ 3) }
{
    match accept_task_of(rt, words) {
        Ok(task) => serve(rt, &task),
        Err(status) => status,
    }
}

// Does what is asked for, and returns the exit status. Each answer is written at once, so that another program can wait for it.
fn serve<R: AllocGlobal + Files + Input + Print + Eprint>(rt: &R, task: &AcceptTask<'_>) -> u8
    ensures known { result ≤ 3 }
    ensures ran { result ≢ 2 }
{
    let file = match opened_source(rt, task.keytab, "accept") {
        Ok(file) => file,
        Err(status) => return status,
    };
    let mut file = file;
    let mut lines = ReadSource::new(rt.reader());
    let mut sink = WriteSink::new(io::writer(rt));
    match answer_by(rt.alloc(), task, &mut file, &mut lines, &mut sink) {
        Ok(Ok(status)) => status,
        Ok(Err(fault)) => complain_of(rt, &fault, task.keytab, "accept"),
        Err(fault) => complain_of(rt, &fault, task.keytab, "accept"),
    }
}

// Answers the lines of a source as it is asked for, by the keytab that another source gives, which is read first.
fn answer_by<F: Source, S: Source, K: Sink>(
    alloc: Global,
    task: &AcceptTask<'_>,
    file: &mut F,
    lines: &mut S,
    sink: &mut K,
) -> Result<Result<u8, ServiceFault>, KeytabFault>
    ensures answered { (input : List ℕ) → S.remaining lines.old ≡ Some input → IfOk result (λ answer. IfOk answer (λ status.
        Serves task.now (F.remaining file.old) (λ options setup. AnswersInput options setup input status (K.taken sink.old) (K.taken sink.new)))) }
    ensures unread { (input : List ℕ) → S.remaining lines.old ≡ Some input → result ≡ Ok (Err ServiceFault.Input)
        → Serves task.now (F.remaining file.old) (λ options setup. AnswersCame options setup input (S.remaining lines.new)
        (S.failure_count lines.old) (S.failure_count lines.new) (K.taken sink.old) (K.taken sink.new)) }
    ensures begun { (input : List ℕ) → S.remaining lines.old ≡ Some input → IfOk result (λ answer. OnErr answer
        (Serves task.now (F.remaining file.old) (λ options setup. BeginsInput options setup input (K.taken sink.old) (K.taken sink.new)))) }
    ensures fault { IfErr result (λ e. e ≢ KeytabFault.OutOfMemory → e ≢ KeytabFault.Read
        → IfSome (F.remaining file.old) (λ given. IsFaultOf given e)) }
    ensures kept { OnErr result ((lines.new ≡ lines.old) × (sink.new ≡ sink.old)) }
    ensures known { IfOk result (λ answer. IfOk answer (λ status. status ≤ 3)) }
    ensures ran { IfOk result (λ answer. IfOk answer (λ status. status ≢ 2)) }
{
    let keytab = read_keytab(alloc, file, &task.only)?;
    let options = answer_options_of(task);
    Ok(answer_lines(alloc, keytab, task.times, &options, lines, sink))
}

// The keytab's entries of this name, or all.
fn read_keytab<S: Source>(
    alloc: Global,
    source: &mut S,
    only: &Option<Principal>,
) -> Result<Keytab, KeytabFault>
    ensures served { IfOk result (λ keytab. (entries : List KeytabEntry)
        × (AreEntriesOf (S.remaining source.old) entries × IsServedBy only.now entries keytab)) }
    ensures fault { IfErr result (λ e. e ≢ KeytabFault.OutOfMemory → e ≢ KeytabFault.Read
        → IfSome (S.remaining source.old) (λ given. IsFaultOf given e)) }
{
    let keytab = Keytab::read(alloc, source)?;
    match only {
        Some(name) => Ok(keytab.only(name)),
        None => Ok(keytab),
    }
}

// Answers the lines of a source as a new service.
fn answer_lines<S: Source, K: Sink>(
    alloc: Global,
    keytab: Keytab,
    times: Times,
    options: &AnswerOptions<'_>,
    source: &mut S,
    sink: &mut K,
) -> Result<u8, ServiceFault>
    ensures answered { (input : List ℕ) → S.remaining source.old ≡ Some input
        → IfOk result (λ status. AnswersInput options.now (record { entries = keytab; skew = times.skew; start = times.start }) input status
        (K.taken sink.old) (K.taken sink.new)) }
    ensures unread { (input : List ℕ) → S.remaining source.old ≡ Some input → result ≡ Err ServiceFault.Input
        → AnswersCame options.now (record { entries = keytab; skew = times.skew; start = times.start }) input (S.remaining source.new)
        (S.failure_count source.old) (S.failure_count source.new) (K.taken sink.old) (K.taken sink.new) }
    ensures begun { (input : List ℕ) → S.remaining source.old ≡ Some input
        → OnErr result (BeginsInput options.now (record { entries = keytab; skew = times.skew; start = times.start }) input
        (K.taken sink.old) (K.taken sink.new)) }
    ensures known { IfOk result (λ status. status ≤ 3) }
    ensures ran { IfOk result (λ status. status ≢ 2) }
{
    let mut acceptor = acceptor_of(alloc, keytab, times);
    accept_lines(alloc, &mut acceptor, source, sink, options)
}

fn acceptor_of(alloc: Global, keytab: Keytab, times: Times) -> Acceptor<TimedMemory>
    ensures setup { result.setup ≡ record { entries = keytab; skew = times.skew; start = times.start } }
    ensures stands { Stands ⟦<TimedMemory as ReplayMemory>⟧.has ⟦<TimedMemory as ReplayMemory>⟧.newest result [] }
{
    let memory = TimedMemory::new(alloc);
    match times.start {
        Some(start) => Acceptor::started(keytab, times.skew, memory, start),
        None => Acceptor::new(keytab, times.skew, memory),
    }
}
