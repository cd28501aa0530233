//! What a login's handle holds.

ghost use Rattle.std.specs.Prelude.{IfOk, IsTrue, None, Some, ◌≡◌, ◌↔◌};
ghost use Rattle.krb_c.specs.Inner.{IsSettledAlone, SettlesAt, awaited_of};
ghost use Rattle.krb_c.specs.Login.{HandsOutcome, IsAsked, IsConcluded, IsDecided, IsHeld, IsKept, IsServed, IsStepped, IsTaken, StepsTo, TellsAskedIf, TellsOutcome, TellsProgress, asked_in, asked_of, begun_talk, breach_answer, cause_answer, decided_in, kept_of, list_answer, outcome_of, sent, undecided};
ghost use Rattle.krb_c.specs.Service.{nothing_kept};
ghost use Rattle.krb_c.specs.Store.{IsSettled, TellsQuestion, Waits};
ghost use Rattle.krb_c.specs.declared.question.Question.{Question as QuestionValue};
ghost use Rattle.krb_talk.specs.declared.decision.Decision.{Decision as DecisionValue};
ghost use Rattle.krb_name.specs.Text.{text_of};
ghost use Rattle.std.specs.Option.{MatchOption, option_copied};

use crate::accepted_state::AcceptedState;
use crate::answer::{append, hand_over_with};
use crate::cause::breach_code_of;
use crate::code;
use crate::handle::put;
use crate::handles::AcceptedHandle;
use crate::question::Question;
use crate::service_state::ServiceState;
use crate::structs::{Answer, Asked, Time};
use crate::token::token_told;
use krb_ap::{Accepted, ReplyOptions};
use krb_context::{MessageFault, Options, ReceiveFault};
use krb_gss::Negotiation;
use krb_login::{
    Asked as AskedFor, Asking, Breach, Cause, Decision as LoginDecision, Given, Refused, Step,
    StoreSays,
};
use krb_msg::{Moment, error_code};
use krb_replay::ReplayMemory;
use krb_talk::{Decision, ListFault, Talk, Turn};
use std::alloc::{AllocError, Global};
use std::mem::replace;

/// How far a login is, and what was decided last.
#[derive(Drop)]
pub struct LoginState {
    /// How far it is.
    pub talk: Talk,
    /// What became of what the client sent last.
    pub progress: Progress,
}

// A login takes messages in their order, and each one once.
const IN_ORDER: Options = Options {
    rotation: 0,
    is_in_order: true,
    refuses_repeats: true,
};

/// What became of what a client sent.
#[derive(Drop)]
pub enum Progress {
    /// Nothing is decided.
    Nothing,
    /// A store of stamps is asked before it is decided.
    Waiting(Question),
    /// It is decided.
    Decided(Outcome),
}

/// What is answered to a decision.
#[derive(Drop)]
pub struct Outcome {
    /// The answer, but for how many bytes go back.
    pub answer: Answer,
    /// What the request asked for, if it was refused and could be read.
    pub asked: Option<AskedFor>,
    /// The bytes that go back, if any.
    pub bytes: Option<Vec<u8>>,
}

impl LoginState {
    /// A login that begins.
    pub(crate) fn begun() -> LoginState
        ensures { result ≡ record { talk = begun_talk; progress = Progress.Nothing } }
    {
        LoginState {
            talk: Talk::new(IN_ORDER),
            progress: Progress::Nothing,
        }
    }

    /// Decides about what a client sent, or keeps it until a store is asked: then `message` has a copy of
    /// it. `kept` gets what is known of a client that is let in, and otherwise nothing.
    pub(crate) fn judge(
        &mut self,
        alloc: Global,
        service: &mut ServiceState,
        kept: &mut AcceptedState,
        given: Given<'_>,
        message: Option<Vec<u8>>,
    )
        ensures { MatchOption message
            (IsDecided service.old service.new self.old.talk self.new kept.new given.entry.bytes.now given.entry.now given.entry.confounder.now given.entry.choice)
            (λ message. IsStepped service.old service.new self.old.talk self.new kept.new message.items given.entry.now given.entry.confounder.now given.entry.choice) }
    {
        match message {
            Some(message) => self.step(alloc, service, kept, given, message),
            None => self.decide(alloc, service, kept, given),
        }
    }

    fn step(
        &mut self,
        alloc: Global,
        service: &mut ServiceState,
        kept: &mut AcceptedState,
        given: Given<'_>,
        message: Vec<u8>,
    )
        ensures { IsStepped service.old service.new self.old.talk self.new kept.new message.items given.entry.now given.entry.confounder.now given.entry.choice }
    {
        match self.take(alloc, kept, message.as_slice()) {
            None => {}
            Some(negotiation) => {
                kept.clear();
                self.ask(alloc, service, given, negotiation, message);
            }
        }
    }

    // Takes a message, and keeps what is decided on it, or returns the point of the negotiation at which a service is to decide.
    #[inline(never)]
    fn take(&mut self, alloc: Global, kept: &mut AcceptedState, bytes: &[u8]) -> Option<Negotiation>
        ensures { MatchOption result (IsSettledAlone bytes.now self.old.talk self.new kept.new)
            (λ negotiation. IsTaken bytes.now self.old.talk (Turn.Serve negotiation) self.new.talk) }
    {
        match self.talk.take(alloc, bytes) {
            Turn::Decided(decision) => {
                self.keep(kept, decision, false);
                None
            }
            Turn::Serve(negotiation) => Some(negotiation),
        }
    }

    // Asks the service, which lets nobody in before the store is asked.
    #[inline(never)]
    fn ask(
        &mut self,
        alloc: Global,
        service: &mut ServiceState,
        given: Given<'_>,
        negotiation: Negotiation,
        message: Vec<u8>,
    )
        ensures { IsAsked service.old service.new self.old.talk self.new nothing_kept negotiation message.items given.entry.now given.entry.confounder.now given.entry.choice }
    {
        let Given {
            bytes: _,
            now,
            confounder,
            choice,
        } = given;
        let full = service.service.acceptor.memory().refused();
        let mut next = negotiation;
        let step = service
            .service
            .ask(alloc, &mut next, message.as_slice(), now);
        let is_full = service.service.acceptor.memory().refused() != full;
        let drawn = Drawn {
            confounder: *confounder,
            choice,
        };
        self.follow(alloc, step, is_full, next, message, drawn);
    }

    // Goes on by what the service said: it is decided, or the login waits for the store.
    #[inline(never)]
    fn follow(
        &mut self,
        alloc: Global,
        step: Step,
        is_full: bool,
        next: Negotiation,
        message: Vec<u8>,
        drawn: Drawn,
    )
        ensures { StepsTo is_full self.old.talk next message.items drawn.confounder drawn.choice step self.new }
    {
        match step {
            Step::Decided(decided) => {
                self.conclude(alloc, message.as_slice(), &drawn, next, decided, is_full);
            }
            Step::Ask(asking) => self.wait(asking, drawn, next, message),
        }
    }

    // Concludes by what the service decided before a store is asked: what is known of a client is not kept.
    #[inline(never)]
    fn conclude(
        &mut self,
        alloc: Global,
        message: &[u8],
        drawn: &Drawn,
        next: Negotiation,
        decided: LoginDecision,
        is_full: bool,
    )
        ensures { (decision : DecisionValue)
            × (IsConcluded message.now drawn.now.confounder drawn.now.choice self.old.talk next decided decision self.new.talk
            × (self.new.progress ≡ Progress.Decided (outcome_of is_full decision))) }
    {
        let decision = self.talk.conclude(
            alloc,
            message,
            &drawn.confounder,
            &drawn.choice,
            next,
            decided,
        );
        self.keep_outcome(decision, is_full);
    }

    // Keeps what is answered to a decision, and nothing of the client.
    #[inline(never)]
    fn keep_outcome(&mut self, decision: Decision, is_full: bool)
        ensures talk { self.new.talk ≡ self.old.talk }
        ensures progress { self.new.progress ≡ Progress.Decided (outcome_of is_full decision) }
    {
        let (outcome, _) = outcome_of(decision, is_full);
        self.set(Progress::Decided(outcome));
    }

    // Keeps all that a decision needs until the store has spoken.
    #[inline(never)]
    fn wait(&mut self, asking: Asking, drawn: Drawn, next: Negotiation, message: Vec<u8>)
        ensures { IsHeld self.old.talk next message.items drawn.confounder drawn.choice asking self.new }
    {
        let Drawn { confounder, choice } = drawn;
        let mut over = Talk::new(IN_ORDER);
        over.end();
        let talk = replace(&mut self.talk, over);
        self.set(Progress::Waiting(Question {
            asking,
            confounder,
            choice,
            message,
            negotiation: next,
            talk,
        }));
    }

    fn decide(
        &mut self,
        alloc: Global,
        service: &mut ServiceState,
        kept: &mut AcceptedState,
        given: Given<'_>,
    )
        ensures { IsDecided service.old service.new self.old.talk self.new kept.new given.entry.bytes.now given.entry.now given.entry.confounder.now given.entry.choice }
    {
        match self.take(alloc, kept, given.bytes) {
            None => {}
            Some(negotiation) => self.serve(alloc, service, kept, given, negotiation),
        }
    }

    // Concludes by what the service decides.
    #[inline(never)]
    fn serve(
        &mut self,
        alloc: Global,
        service: &mut ServiceState,
        kept: &mut AcceptedState,
        given: Given<'_>,
        negotiation: Negotiation,
    )
        ensures { IsServed service.old service.new self.old.talk self.new kept.new negotiation given.entry.bytes.now given.entry.now given.entry.confounder.now given.entry.choice }
    {
        let bytes = given.bytes;
        let drawn = Drawn {
            confounder: *given.confounder,
            choice: choice_again(&given.choice),
        };
        let full = service.service.acceptor.memory().refused();
        let mut next = negotiation;
        let decided = service.service.answer(alloc, &mut next, given);
        let is_full = service.service.acceptor.memory().refused() != full;
        self.conclude_kept(alloc, kept, bytes, &drawn, next, decided, is_full);
    }

    // Concludes by what a service decided, and keeps that.
    #[inline(never)]
    fn conclude_kept(
        &mut self,
        alloc: Global,
        kept: &mut AcceptedState,
        message: &[u8],
        drawn: &Drawn,
        next: Negotiation,
        decided: LoginDecision,
        is_full: bool,
    )
        ensures { (decision : DecisionValue)
            × (IsConcluded message.now drawn.now.confounder drawn.now.choice self.old.talk next decided decision self.new.talk
            × IsKept is_full decision self.new kept.new) }
    {
        let decision = self.talk.conclude(
            alloc,
            message,
            &drawn.confounder,
            &drawn.choice,
            next,
            decided,
        );
        self.keep(kept, decision, is_full);
    }

    // Keeps a decision, and in `kept` what is known of a client that is let in.
    #[inline(never)]
    fn keep(&mut self, kept: &mut AcceptedState, decision: Decision, is_full: bool)
        ensures talk { self.new.talk ≡ self.old.talk }
        ensures is_kept { IsKept is_full decision self.new kept.new }
    {
        let (outcome, accepted) = outcome_of(decision, is_full);
        self.set(Progress::Decided(outcome));
        *kept = accepted;
    }

    fn set(&mut self, progress: Progress)
        ensures talk { self.new.talk ≡ self.old.talk }
        ensures progress { self.new.progress ≡ progress }
    {
        self.progress = progress;
    }

    /// Decides by what a store said, if the login waits for one. `accepted` gets what is known of a
    /// client that is let in.
    pub(crate) fn settle(
        &mut self,
        alloc: Global,
        accepted: &mut AcceptedHandle,
        said: StoreSays,
        now: Moment,
        out: &mut [u8],
    ) -> Answer
        ensures { SettlesAt self.old self.new accepted.old.value accepted.new.value said now out.old out.new result }
    {
        if !self.waits() {
            return Answer::plain(code::NOT_WAITING);
        }
        let Some(mut kept) = AcceptedState::boxed(alloc) else {
            return Answer::plain(code::OUT_OF_MEMORY);
        };
        self.settle_waiting(alloc, &mut kept, said, now);
        put(accepted, kept);
        self.answer(out)
    }

    // Whether the login waits for a store.
    fn waits(&self) -> bool
        ensures { IsTrue result ↔ Waits self.now.progress }
    {
        matches!(self.progress, Progress::Waiting(_))
    }

    // Decides by what a store said, if the login waits for one.
    #[inline(never)]
    fn settle_waiting(
        &mut self,
        alloc: Global,
        kept: &mut AcceptedState,
        said: StoreSays,
        now: Moment,
    )
        ensures { (question : QuestionValue) → self.old.progress ≡ Progress.Waiting question
            → IsSettled question said now self.new kept.new }
    {
        if let Some(awaited) = self.take_question() {
            self.settle_by(alloc, kept, awaited, said, now);
        }
    }

    // Takes what the login waits with, and goes on with the login that it keeps.
    #[inline(never)]
    fn take_question(&mut self) -> Option<Awaited>
        ensures { (question : QuestionValue) → self.old.progress ≡ Progress.Waiting question
            → (result ≡ Some (awaited_of question)) × (self.new.talk ≡ question.talk) }
    {
        let Progress::Waiting(question) = replace(&mut self.progress, Progress::Nothing) else {
            return None;
        };
        let Question {
            asking,
            confounder,
            choice,
            message,
            negotiation,
            talk,
        } = question;
        self.talk = talk;
        Some(Awaited {
            asking,
            drawn: Drawn { confounder, choice },
            message,
            negotiation,
        })
    }

    #[inline(never)]
    fn settle_by(
        &mut self,
        alloc: Global,
        kept: &mut AcceptedState,
        awaited: Awaited,
        said: StoreSays,
        now: Moment,
    )
        ensures { (question : QuestionValue) → awaited ≡ awaited_of question → self.old.talk ≡ question.talk
            → IsSettled question said now self.new kept.new }
    {
        let Awaited {
            asking,
            drawn,
            message,
            negotiation,
        } = awaited;
        let again = choice_again(&drawn.choice);
        let decided = asking.settle(alloc, said, now, &drawn.confounder, again);
        let message = message.as_slice();
        self.conclude_kept(alloc, kept, message, &drawn, negotiation, decided, false);
    }

    /// Discards what was decided, or waited for.
    pub(crate) fn clear(&mut self)
        ensures { self.new ≡ undecided self.old }
    {
        self.set(Progress::Nothing);
    }

    /// Returns what became of what a client sent, with the bytes that go back.
    pub(crate) fn answer(&self, out: &mut [u8]) -> Answer
        ensures { TellsProgress self.now.progress out.old out.new result }
    {
        match &self.progress {
            Progress::Nothing => Answer::plain(code::NOTHING_THERE),
            Progress::Waiting(_) => Answer::plain(code::ASK_STORE),
            Progress::Decided(outcome) => outcome.hand_over(out),
        }
    }

    /// Returns what to ask the store, if the login waits for one.
    pub(crate) fn tell_question(
        &self,
        alloc: Global,
        keep_until: &mut Time,
        buffer: &mut [u8],
    ) -> Answer
        ensures { TellsQuestion self.now.progress keep_until.old keep_until.new buffer.old buffer.new result }
    {
        match &self.progress {
            Progress::Waiting(question) => question.tell(alloc, keep_until, buffer),
            _ => Answer::plain(code::NOT_WAITING),
        }
    }

    /// Returns what was decided, with the bytes that go back.
    pub(crate) fn tell(&self, out: &mut [u8]) -> Answer
        ensures { TellsOutcome (decided_in self.now.progress) out.old out.new result }
    {
        match &self.progress {
            Progress::Decided(outcome) => outcome.hand_over(out),
            _ => Answer::plain(code::NOTHING_THERE),
        }
    }

    /// Returns what a request asked for that was refused, if it is known.
    pub(crate) fn tell_asked(&self, alloc: Global, asked: &mut Asked, buffer: &mut [u8]) -> Answer
        ensures { TellsAskedIf (asked_in self.now) asked.old asked.new buffer.old buffer.new result }
    {
        match self.asked() {
            Some(found) => hand_over_with(asked_told(alloc, found), asked, buffer),
            None => Answer::plain(code::NOTHING_THERE),
        }
    }

    fn asked(&self) -> Option<&AskedFor>
        ensures { option_copied result ≡ asked_in self.now }
    {
        match &self.progress {
            Progress::Decided(outcome) => outcome.asked.as_ref(),
            _ => None,
        }
    }
}

impl Outcome {
    fn hand_over(&self, out: &mut [u8]) -> Answer
        ensures { HandsOutcome self.now out.old out.new result }
    {
        let bytes = self.sent();
        if out.len() < bytes.len() {
            return Answer::sized(code::SHORT_BUFFER, bytes.len());
        }
        out[..bytes.len()].copy_from_slice(bytes);
        Answer {
            code: self.answer.code,
            kerberos: self.answer.kerberos,
            at: self.answer.at,
            size: bytes.len(),
        }
    }

    fn sent(&self) -> &[u8]
        ensures { result.now ≡ sent self.now }
    {
        match &self.bytes {
            Some(bytes) => bytes.as_slice(),
            None => &[],
        }
    }
}

// What is drawn for a reply. There is no `Debug`, so no log shows a key.
#[derive(Drop)]
struct Drawn {
    confounder: [u8; 16],
    choice: ReplyOptions,
}

// What a login waits with, but for how far it is.
#[derive(Drop)]
struct Awaited {
    asking: Asking,
    drawn: Drawn,
    message: Vec<u8>,
    negotiation: Negotiation,
}

// A copy of what the service chose for a reply.
fn choice_again(choice: &ReplyOptions) -> ReplyOptions
    ensures { result ≡ choice.now }
{
    let subkey = match &choice.subkey {
        Some(key) => Some(key.copy()),
        None => None,
    };
    ReplyOptions {
        subkey,
        seq: choice.seq,
    }
}

// What is answered to a decision, and what is known of a client that is let in.
fn outcome_of(decision: Decision, is_full: bool) -> (Outcome, AcceptedState)
    ensures outcome { result.0 ≡ outcome_of is_full decision }
    ensures kept { result.1 ≡ kept_of decision }
{
    match decision {
        Decision::LetIn(login) => (
            answered(Answer::plain(code::OK), login.answer),
            kept(login.accepted, false),
        ),
        Decision::Shown(login) => (
            answered(Answer::plain(code::OK), login.answer),
            kept(login.accepted, true),
        ),
        Decision::GoOn(bytes) => (
            answered(Answer::plain(code::GO_ON), Some(bytes)),
            AcceptedState::nothing(),
        ),
        Decision::Refused(refused) => (refusal(refused, is_full), AcceptedState::nothing()),
        Decision::Unshown(unshown) => (
            answered(list_told(unshown.fault), unshown.answer),
            AcceptedState::nothing(),
        ),
    }
}

fn answered(answer: Answer, bytes: Option<Vec<u8>>) -> Outcome
    ensures { result ≡ record { answer = answer; asked = None; bytes = bytes } }
{
    Outcome {
        answer,
        asked: None,
        bytes,
    }
}

fn refusal(refused: Refused, is_full: bool) -> Outcome
    ensures { result ≡ record { answer = cause_answer is_full refused.cause; asked = refused.asked; bytes = refused.answer } }
{
    Outcome {
        answer: cause_told(refused.cause, is_full),
        asked: refused.asked,
        bytes: refused.answer,
    }
}

fn kept(accepted: Accepted, has_sent: bool) -> AcceptedState
    ensures { result ≡ record { accepted = Some accepted; has_sent = has_sent } }
{
    AcceptedState {
        accepted: Some(accepted),
        has_sent,
    }
}

fn list_told(fault: ListFault) -> Answer
    ensures { result ≡ list_answer fault }
{
    match fault {
        ListFault::Token(fault) => token_told(fault),
        ListFault::OtherKey => Answer::plain(code::LIST_KEY_TYPE),
        ListFault::Missing => Answer::plain(code::LIST_MIC_MISSING),
        ListFault::Wrong(ReceiveFault::NotAccepted(MessageFault::OtherKey)) => {
            Answer::plain(code::LIST_MIC_OTHER_KEY)
        }
        ListFault::Wrong(_) => Answer::plain(code::LIST_MIC_WRONG),
        ListFault::OutOfMemory => Answer::plain(code::OUT_OF_MEMORY),
    }
}

fn cause_told(cause: Cause, is_full: bool) -> Answer
    ensures { result ≡ cause_answer is_full cause }
{
    match cause {
        Cause::Token(fault) => token_told(fault),
        Cause::Request(refusal) => Answer::refused(&refusal),
        Cause::Breached(breach) => breach_told(breach),
        Cause::StoreFailed => Answer {
            code: code::STORE_FAILED,
            kerberos: error_code::KRB_ERR_GENERIC,
            at: 0,
            size: 0,
        },
        Cause::OutOfMemory => {
            if is_full {
                Answer::plain(code::FULL)
            } else {
                Answer::plain(code::OUT_OF_MEMORY)
            }
        }
    }
}

fn breach_told(breach: Breach) -> Answer
    ensures { result ≡ breach_answer breach }
{
    Answer {
        code: breach_code_of(breach),
        kerberos: breach.code(),
        at: 0,
        size: 0,
    }
}

/// The bytes that are returned of what a request asks for, and the numbers.
pub(crate) fn asked_told(alloc: Global, asked: &AskedFor) -> Result<(Vec<u8>, Asked), AllocError>
    ensures { IfOk result (λ made. (made.0.items ≡ text_of asked.now.service) × (made.1 ≡ asked_of asked.now)) }
{
    let mut bytes = Vec::new(alloc);
    let text = asked.service.to_text(alloc)?;
    let service = append(&mut bytes, text.as_bytes())?;
    let told = Asked {
        service,
        etype: asked.etype,
        kvno: asked.kvno.unwrap_or(0),
        service_type: asked.service.name_type,
        has_kvno: asked.kvno.is_some(),
        wants_reply: asked.wants_reply,
    };
    Ok((bytes, told))
}
