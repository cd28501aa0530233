//! The engine of `accept`.

ghost use Rattle.std.specs.Prelude.{◌≡◌, ◌≢◌, ◌⊎◌, ◌<◌, ◌≤◌, ◌++◌, ◌∷◌, [], ℕ, List, All, Ok, Err, Some, IfOk, IfErr, OnOk, OnErr, length, take, is_ok, if◌then◌else◌};
ghost use Rattle.std.specs.Io.KnownBytes.{Consumes, IsAtEnd, Keeps};
ghost use Rattle.krb_file.specs.Flow.{counted};
ghost use Rattle.krb_file.specs.File.{TakesAtMost};
ghost use Rattle.krb_ap.specs.Setup.{Arrival};
ghost use Rattle.krb_ap.specs.History.{StandsFor};
ghost use Rattle.krb_ap.specs.Service.{Stands};
ghost use Rattle.krb_service_command.specs.Answering.{AnswersAll, AnswersBeginning, AnswersWhole, Came, input_limit};
ghost use Rattle.krb_call_lines.specs.CallLine.{SpellsCall};
ghost use Rattle.krb_service_command.specs.Status.{failed_writes};
ghost use Rattle.krb_call_lines.specs.Inner.Held.{Holds};
ghost use Rattle.krb_service_command.specs.Inner.Going.{Answered, BecomesOf, Begun, Going, ReachedEnd, ReachedInput, ReachedStop, Start, Stays, Stopped};

use crate::answer_end::{LineAnswer, end_of};
use crate::answering::{LineOutcome, print_answer, status_of_outcome};
use crate::fault::ServiceFault;
use krb_ap::Acceptor;
use krb_call_lines::{Form, PartLine, SpelledCall, cut_at, take_request};
use krb_file::{Sink, Source};
use krb_name::Principal;
use krb_replay::ReplayMemory;
use std::alloc::{AllocError, Global};

const LINE_END: u8 = b'\n';

// How many bytes are asked of the source at a time.
const PIECE: usize = 65_536;

// How many bytes of input are taken.
const INPUT_LIMIT: usize = 1_099_511_627_776;

/// How the lines of `accept` are read and answered.
#[derive(Clone, Copy)]
pub struct AnswerOptions<'a> {
    /// What the bytes of a line are.
    pub form: Form,
    /// The name that errors contain; without it there are none.
    pub service: Option<&'a Principal>,
}

// Reads some bytes into the front of `piece`, at most so many.
fn read_some<S: Source>(
    source: &mut S,
    piece: &mut [u8],
    most: usize,
) -> Result<usize, ServiceFault>
    requires most { 0 < most }
    requires piece { 0 < length piece.old }
    ensures bound { IfOk result (λ count. (count ≤ most) × (count ≤ length piece.new)) }
    ensures bytes { IfOk result (λ count. Consumes (S.remaining source.old) (S.remaining source.new) (take count piece.new)) }
    ensures end { result ≡ Ok 0 → IsAtEnd (S.remaining source.new) }
    ensures err { OnErr result (Keeps (S.remaining source.old) (S.remaining source.new)) }
    ensures which { IfErr result (λ e. e ≡ ServiceFault.Input) }
    ensures failed { S.failure_count source.new ≡ counted (S.failure_count source.old) (if is_ok result then 0 else 1) }
{
    let wanted = most.min(piece.len());
    let count = source.read(&mut piece[..wanted])?;
    Ok(count)
}

// How far `accept` is: how it answers, the line that is being read, and the exit status so far.
#[derive(Drop)]
struct Session<'a> {
    alloc: Global,
    options: AnswerOptions<'a>,
    part: PartLine,
    status: u8,
}

impl Session<'_> {
    // Makes the call whose request the bytes of a line carry, if they carry one.
    fn answer_call<M: ReplayMemory>(
        &self,
        acceptor: &mut Acceptor<M>,
        call: &SpelledCall,
    ) -> LineOutcome
        ensures becomes { (history : List Arrival) (line : List ℕ) → Stands M.has M.newest acceptor.old history
            → SpellsCall line call.entry.now.bytes.items call.entry.now.now call.entry.now.confounder
            → BecomesOf M.has M.newest self.now.options acceptor.old acceptor.new history line result }
        ensures setup { acceptor.new.setup ≡ acceptor.old.setup }
    {
        match take_request(self.options.form, &call.bytes) {
            Ok(carried) => {
                let outcome = acceptor.accept(self.alloc, carried.request, call.now);
                let end = end_of(
                    self.alloc,
                    carried.envelope,
                    &outcome,
                    call.now,
                    call.confounder,
                    self.options.service,
                );
                LineOutcome::Answered(LineAnswer { outcome, end })
            }
            Err(fault) => LineOutcome::BadToken(fault),
        }
    }

    // Makes the call that the line spells, if any.
    fn outcome<M: ReplayMemory>(
        &self,
        acceptor: &mut Acceptor<M>,
    ) -> Result<LineOutcome, AllocError>
        ensures ok { (history : List Arrival) (line : List ℕ) → Stands M.has M.newest acceptor.old history → Holds self.now.part line
            → IfOk result (BecomesOf M.has M.newest self.now.options acceptor.old acceptor.new history line) }
        ensures err { OnErr result (acceptor.new ≡ acceptor.old) }
        ensures setup { acceptor.new.setup ≡ acceptor.old.setup }
    {
        match self.part.call(self.alloc)? {
            Some(call) => Ok(self.answer_call(acceptor, &call)),
            None => Ok(LineOutcome::BadLine),
        }
    }

    // Answers the line that was read.
    fn answer_line<M: ReplayMemory, K: Sink>(
        &mut self,
        acceptor: &mut Acceptor<M>,
        sink: &mut K,
    ) -> Result<(), ServiceFault>
        ensures ok { (history : List Arrival) (line : List ℕ) → Stands M.has M.newest acceptor.old history → Holds self.old.part line
            → OnOk result (Answered M.has M.newest self.old self.new acceptor.old acceptor.new history line (K.taken sink.old) (K.taken sink.new)) }
        ensures err { (history : List Arrival) (line : List ℕ) → Stands M.has M.newest acceptor.old history → Holds self.old.part line
            → OnErr result (Begun M.has M.newest self.old.options acceptor.old acceptor.new history line (K.taken sink.old) (K.taken sink.new)) }
        ensures stays { Stays self.old self.new acceptor.old acceptor.new }
        ensures which { IfErr result (λ e. (e ≡ ServiceFault.Write) ⊎ (e ≡ ServiceFault.OutOfMemory)) }
        ensures writes { K.failure_count sink.new ≡ counted (K.failure_count sink.old) (failed_writes result) }
    {
        let outcome = self.outcome(acceptor)?;
        print_answer(self.alloc, &outcome, sink)?;
        self.status = self.status.max(status_of_outcome(&outcome));
        Ok(())
    }

    // Answers the line that ends with these bytes, and goes on to the next one.
    fn end_line<M: ReplayMemory, K: Sink>(
        &mut self,
        acceptor: &mut Acceptor<M>,
        bytes: &[u8],
        sink: &mut K,
    ) -> Result<(), ServiceFault>
        requires plain { All (λ byte. byte ≢ 10) bytes.now }
        ensures ok { (start : Start) (came : List ℕ) → Going M.has M.newest start came self.old acceptor.old (K.taken sink.old)
            → OnOk result (Going M.has M.newest start ((came ++ bytes.now) ++ 10 ∷ []) self.new acceptor.new (K.taken sink.new)) }
        ensures err { (start : Start) (came : List ℕ) → Going M.has M.newest start came self.old acceptor.old (K.taken sink.old)
            → OnErr result (Stopped M.has M.newest start ((came ++ bytes.now) ++ 10 ∷ []) acceptor.new (K.taken sink.new)) }
        ensures stays { Stays self.old self.new acceptor.old acceptor.new }
        ensures which { IfErr result (λ e. (e ≡ ServiceFault.Write) ⊎ (e ≡ ServiceFault.OutOfMemory)) }
        ensures writes { K.failure_count sink.new ≡ counted (K.failure_count sink.old) (failed_writes result) }
    {
        self.part.extend(bytes)?;
        self.answer_line(acceptor, sink)?;
        self.part.clear();
        Ok(())
    }

    // Goes on by some bytes.
    fn answer_piece<M: ReplayMemory, K: Sink>(
        &mut self,
        acceptor: &mut Acceptor<M>,
        piece: &[u8],
        sink: &mut K,
    ) -> Result<(), ServiceFault>
        ensures ok { (start : Start) (came : List ℕ) → Going M.has M.newest start came self.old acceptor.old (K.taken sink.old)
            → OnOk result (Going M.has M.newest start (came ++ piece.now) self.new acceptor.new (K.taken sink.new)) }
        ensures err { (start : Start) (came : List ℕ) → Going M.has M.newest start came self.old acceptor.old (K.taken sink.old)
            → OnErr result (Stopped M.has M.newest start (came ++ piece.now) acceptor.new (K.taken sink.new)) }
        ensures stays { Stays self.old self.new acceptor.old acceptor.new }
        ensures which { IfErr result (λ e. (e ≡ ServiceFault.Write) ⊎ (e ≡ ServiceFault.OutOfMemory)) }
        ensures writes { K.failure_count sink.new ≡ counted (K.failure_count sink.old) (failed_writes result) }
    {
        let mut left = piece;
        'lines: while let Some((bytes, rest)) = cut_at(LINE_END, left) {
            self.end_line(acceptor, bytes, sink)?;
            left = rest;
        }
        self.part.extend(left)?;
        Ok(())
    }

    // Answers the whole lines of the source, and keeps what follows the last line end.
    fn answer_source<M: ReplayMemory, S: Source, K: Sink>(
        &mut self,
        acceptor: &mut Acceptor<M>,
        source: &mut S,
        piece: &mut [u8],
        sink: &mut K,
    ) -> Result<(), ServiceFault>
        requires piece { 0 < length piece.old }
        ensures ok { (start : Start) → Going M.has M.newest start [] self.old acceptor.old (K.taken sink.old)
            → OnOk result (ReachedEnd M.has M.newest start (S.remaining source.old) (S.remaining source.new) self.new acceptor.new (K.taken sink.new)) }
        ensures input { (start : Start) → Going M.has M.newest start [] self.old acceptor.old (K.taken sink.old) → result ≡ Err ServiceFault.Input
            → ReachedInput M.has M.newest start (S.remaining source.old) (S.remaining source.new) (S.failure_count source.old) (S.failure_count source.new)
            self.new acceptor.new (K.taken sink.new) }
        ensures stop { (start : Start) → Going M.has M.newest start [] self.old acceptor.old (K.taken sink.old)
            → (result ≡ Err ServiceFault.Write) ⊎ (result ≡ Err ServiceFault.OutOfMemory)
            → ReachedStop M.has M.newest start (S.remaining source.old) (S.remaining source.new) acceptor.new (K.taken sink.new) }
        ensures stays { Stays self.old self.new acceptor.old acceptor.new }
        ensures which { IfErr result (λ e. (e ≡ ServiceFault.Input) ⊎ ((e ≡ ServiceFault.Write) ⊎ (e ≡ ServiceFault.OutOfMemory))) }
        ensures failed { result ≡ Err ServiceFault.Input
            → (S.failure_count source.new ≡ counted (S.failure_count source.old) 1)
            ⊎ ((S.failure_count source.new ≡ S.failure_count source.old) × Came (S.remaining source.old) (S.remaining source.new) input_limit) }
        ensures reads { (result ≡ Err ServiceFault.Input) ⊎ (S.failure_count source.new ≡ S.failure_count source.old) }
        ensures taken { TakesAtMost (S.remaining source.old) (S.remaining source.new) input_limit }
        ensures writes { K.failure_count sink.new ≡ counted (K.failure_count sink.old) (failed_writes result) }
    {
        let mut came = 0;
        while came < INPUT_LIMIT {
            let count = read_some(source, piece, INPUT_LIMIT - came)?;
            if count == 0 {
                return Ok(());
            }
            self.answer_piece(acceptor, &piece[..count], sink)?;
            came += count;
        }
        Err(ServiceFault::Input)
    }
}

/// Answers the lines of a source, one after another, and returns the exit status.
///
/// Lines end in the byte 10; a last line without its end counts unless it is empty. A line is `SECONDS MICROS HEX` or `SECONDS MICROS
/// HEX CONFOUNDER`, with single spaces between: a moment, a request that arrives then, and 16 random bytes for a reply to it, new for
/// each line. By `options.form`, HEX is the request, or the token of GSS-API that holds it. The request is handed to the acceptor, and
/// one line is written:
///
/// - `accepted CLIENT ETYPE CTIME CUSEC mutual`, or `plain`: the client, the enctype of the session key, the client's time, and
///   whether it asks for a reply. If it does and the line has a confounder, ` reply HEX` follows: a reply without subkey and
///   sequence number;
/// - `refused CODE NAME`, or `refused none OutOfMemory` if there was no memory for the call, which then changed nothing. If there
///   is a code and `options.service` is the service's name, ` error HEX` follows: the error that reports it, at the line's moment;
/// - `bad token FAULT at OFFSET`, if HEX is to be a token, and `open_token` doesn't open it. No call is made;
/// - `bad line`, if the line has another form or more than 4,194,304 bytes. No call is made.
///
/// The reply or error after a token is a token too: `wrap_answer` wraps it as the request was.
///
/// A line ends without its reply or error if there was no memory for that, or if the error or its token would have more than
/// 1,048,576 bytes.
///
/// The status is 3 if there was no memory for a call, a reply or an error, else 1 if a line or token was bad or a request refused,
/// else 0.
///
/// Each answer is written before the next line is looked at, and all whole lines at hand are answered before more is read. Of a
/// line that is too long nothing is kept. Bytes are read in pieces of at most 65,536.
///
/// # Errors
/// - `Input`: a read failed, or 1,099,511,627,776 bytes came. The whole lines of what came were answered.
/// - `Write`: the sink failed. It took the answers to all lines that were taken but the last, and a beginning of that.
/// - `OutOfMemory`: there was no room, other than in a call or for a reply or an error. The sink took as much too.
pub fn accept_lines<M: ReplayMemory, S: Source, K: Sink>(
    alloc: Global,
    acceptor: &mut Acceptor<M>,
    source: &mut S,
    sink: &mut K,
    options: &AnswerOptions<'_>,
) -> Result<u8, ServiceFault>

    // For a source whose bytes are known, and each history that the memory stands for.
    ensures answered { (input : List ℕ) (history : List Arrival) → S.remaining source.old ≡ Some input
        → StandsFor acceptor.old.setup (M.has acceptor.old.memory) (M.newest acceptor.old.memory) history
        → IfOk result (λ status. AnswersAll options.now acceptor.old.setup history input status (K.taken sink.old) (K.taken sink.new)
        (M.has acceptor.new.memory) (M.newest acceptor.new.memory)) }
    ensures unread { (input : List ℕ) (history : List Arrival) → S.remaining source.old ≡ Some input
        → StandsFor acceptor.old.setup (M.has acceptor.old.memory) (M.newest acceptor.old.memory) history
        → result ≡ Err ServiceFault.Input
        → AnswersWhole options.now acceptor.old.setup history input (S.remaining source.new) (S.failure_count source.old) (S.failure_count source.new)
        (K.taken sink.old) (K.taken sink.new) (M.has acceptor.new.memory) (M.newest acceptor.new.memory) }
    ensures begun { (input : List ℕ) (history : List Arrival) → S.remaining source.old ≡ Some input
        → StandsFor acceptor.old.setup (M.has acceptor.old.memory) (M.newest acceptor.old.memory) history
        → (result ≡ Err ServiceFault.Write) ⊎ (result ≡ Err ServiceFault.OutOfMemory)
        → AnswersBeginning options.now acceptor.old.setup history input (K.taken sink.old) (K.taken sink.new)
        (M.has acceptor.new.memory) (M.newest acceptor.new.memory) }

    // The keytab and the skew stay. There is no fault of content, and `Input` is a failed read or the limit, whatever is known of the source.
    ensures setup { acceptor.new.setup ≡ acceptor.old.setup }
    ensures which { IfErr result (λ e. (e ≡ ServiceFault.Input) ⊎ ((e ≡ ServiceFault.Write) ⊎ (e ≡ ServiceFault.OutOfMemory))) }
    ensures failed { result ≡ Err ServiceFault.Input
        → (S.failure_count source.new ≡ counted (S.failure_count source.old) 1)
        ⊎ ((S.failure_count source.new ≡ S.failure_count source.old) × Came (S.remaining source.old) (S.remaining source.new) input_limit) }
    ensures reads { (result ≡ Err ServiceFault.Input) ⊎ (S.failure_count source.new ≡ S.failure_count source.old) }
    ensures taken { TakesAtMost (S.remaining source.old) (S.remaining source.new) input_limit }
    ensures writes { K.failure_count sink.new ≡ counted (K.failure_count sink.old) (failed_writes result) }

    // Nor is there another exit status than 0, 1 and 3, whatever is known of the source.
    ensures known { IfOk result (λ status. status ≤ 3) }
    ensures ran { IfOk result (λ status. status ≢ 2) }
{
    let mut piece = vec![in alloc; 0u8; PIECE]?;
    let mut session = Session {
        alloc,
        options: *options,
        part: PartLine::new(alloc),
        status: 0,
    };
    session.answer_source(acceptor, source, &mut piece, sink)?;
    if session.part.is_empty() {
        return Ok(session.status);
    }
    session.answer_line(acceptor, sink)?;
    Ok(session.status)
}
