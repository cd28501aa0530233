//! A client's login, one message after another.

ghost use Rattle.std.specs.Prelude.{◌≡◌, List, Err, IfSome, None, Ok, Result};
ghost use Rattle.std.specs.Option.{MatchOption};
ghost use Rattle.krb_ap.specs.Service.{Stands};
ghost use Rattle.krb_ap.specs.Setup.{Arrival};
ghost use Rattle.krb_talk.specs.Inner.{AsksFor, ConcludesUnlisted, LeadsBy, Passes, PreparesBy};
ghost use Rattle.krb_talk.specs.Pending.{Finishes};
ghost use Rattle.krb_talk.specs.Serving.{Serves};
ghost use Rattle.krb_talk.specs.States.{Listing};
ghost use Rattle.krb_talk.specs.Talk.{ConcludesBy, Ends, IsUnshown, Talks, TalksAt, as_decided};
ghost use Rattle.krb_talk.specs.Turns.{ConcludesAt, ConcludesEnded, ConcludesLogin, Takes};
ghost use Rattle.krb_talk.specs.declared.checking.Admitted.{Admitted as AdmittedValue};

use crate::agreeing::choice_again;
use crate::checking::{Admitted, Checking, ListFault, Prepared};
use crate::decision::{Decision, Unshown};
use crate::listed::{Chosen, Listed};
use crate::pending::Pending;
use crate::stage::Stage;
use krb_ap::ReplyOptions;
use krb_context::Options;
use krb_gss::{Negotiation, TokenFault, Verdict, wrap_verdict};
use krb_login::{Decision as LoginDecision, Given, Service, Unsent};
use krb_replay::ReplayMemory;
use std::alloc::Global;
use std::marker::Model;
use std::mem;

/// A client's login, from its first message on.
///
/// It takes one message after another, and at most three. No client is let in whose list of mechanisms, as it arrived at the service,
/// names Kerberos after another mechanism, unless that list is checked by a mechListMIC (RFC 4178, section 5): what is known of it
/// can't be read before. A client whose list arrives with Kerberos first is taken without a look at its mechListMIC.
#[derive(Drop)]
pub struct Talk {
    stage: Stage,
    options: Options,
}

impl Model for Talk {
    ghost use Rattle.krb_talk.specs.Talks.{Talk};

    ghost Value = { Talk };

    ghost view = { λ t. record { stage = t.stage; options = t.options } };
}

impl Talk {
    /// Begins a login. If its list of mechanisms is checked, the context for the messages after the login takes and writes them as
    /// `options` say.
    pub fn new(options: Options) -> Talk
        ensures stage { result.stage ≡ Stage.Login Negotiation.Begun }
        ensures options { result.options ≡ options }
    {
        Talk {
            stage: Stage::Login(Negotiation::Begun),
            options,
        }
    }

    /// Ends the login: it takes no other message, and what is known of its client is freed.
    pub fn end(&mut self)
        ensures options { self.new.options ≡ self.old.options }
        ensures ended { self.new.stage ≡ Stage.Login Negotiation.Ended }
    {
        self.stage = Stage::Login(Negotiation::Ended);
    }

    /// Takes the client's next message: opens it, decides, and makes what goes back.
    ///
    /// A message that is no list, and doesn't follow one, is for [`Service::answer`](krb_login::Service::answer). `given` is the same
    /// as there. After each decision but `GoOn` the login is over.
    pub fn answer<M: ReplayMemory>(
        &mut self,
        alloc: Global,
        service: &mut Service<M>,
        given: Given<'_>,
    ) -> Decision
        ensures options { self.new.options ≡ self.old.options }
        ensures talks { Talks
            (Serves M.has M.newest M.limits M.refusals M.FORGETS service.old.terms service.new.terms service.old.acceptor service.new.acceptor given.entry)
            (service.new ≡ service.old) self.old.options given.entry self.old.stage result self.new.stage }

        // For each history that the memory stands for: the client is let in, asked or refused as defined.
        ensures decided { (history : List Arrival) → Stands M.has M.newest service.old.acceptor history
            → TalksAt (record {
              terms = service.old.terms;
              setup = service.old.acceptor.setup;
              history = history;
              given = given.entry;
            }) self.old.options self.old.stage result self.new.stage }
    {
        let stage = mem::replace(&mut self.stage, Stage::Login(Negotiation::Ended));
        let (decision, stage) = step(alloc, service, self.options, stage, given);
        self.stage = stage;
        decision
    }

    /// Takes the client's next message, without a service: for one that shares a store with others, and is asked in two steps.
    ///
    /// After `Turn::Serve` the service is to decide on the same message, and [`Talk::conclude`] says what follows. The talk is
    /// unchanged until then.
    pub fn take(&mut self, alloc: Global, bytes: &[u8]) -> Turn
        ensures options { self.new.options ≡ self.old.options }
        ensures takes { Takes bytes.now self.old.stage result self.new.stage }
    {
        let stage = mem::replace(&mut self.stage, Stage::Login(Negotiation::Ended));
        let (turn, stage) = turn_of(alloc, stage, bytes);
        self.stage = stage;
        turn
    }

    /// Concludes by what a service decided on the message `bytes`, after [`Talk::take`] said that it is to. `after` is its negotiation
    /// after that, and `confounder` and `choice` are what it was given.
    ///
    /// A client whose message wasn't for a service isn't let in, whatever was decided. A login that is over stays so: after the end a
    /// refusal is as the service decides it, and any other decision is the fault `Token` of a negotiation that is over.
    pub fn conclude(
        &mut self,
        alloc: Global,
        bytes: &[u8],
        confounder: &[u8; 16],
        choice: &ReplyOptions,
        after: Negotiation,
        decided: LoginDecision,
    ) -> Decision
        ensures options { self.new.options ≡ self.old.options }
        ensures concludes { ConcludesAt self.old.stage bytes.now confounder.now choice.now self.old.options after decided result self.new.stage }
    {
        let chosen = Chosen {
            confounder,
            choice,
            options: self.options,
        };
        conclude_at(alloc, &mut self.stage, bytes, chosen, after, decided)
    }
}

/// What a client's message is for.
#[derive(Drop)]
pub enum Turn {
    /// It is decided, without a service.
    Decided(Decision),
    /// A service is to decide on it, at this point of its negotiation.
    Serve(Negotiation),
}

fn turn_of(alloc: Global, stage: Stage, bytes: &[u8]) -> (Turn, Stage)
    ensures { Takes bytes.now stage result.0 result.1 }
{
    match stage {
        Stage::Login(negotiation) => login_turn(alloc, negotiation, bytes),
        Stage::Listed(listed) => (Turn::Serve(listed.negotiation()), Stage::Listed(listed)),
        Stage::Waiting(pending) => (
            Turn::Decided(end(alloc, pending.finish(bytes))),
            Stage::Login(Negotiation::Ended),
        ),
    }
}

fn login_turn(alloc: Global, negotiation: Negotiation, bytes: &[u8]) -> (Turn, Stage)
    ensures { Takes bytes.now (Stage.Login negotiation) result.0 result.1 }
{
    match negotiation {
        Negotiation::Begun => first_turn(alloc, bytes),
        _ => (Turn::Serve(negotiation), Stage::Login(negotiation)),
    }
}

#[inline(never)]
fn first_turn(alloc: Global, bytes: &[u8]) -> (Turn, Stage)
    ensures { Takes bytes.now (Stage.Login Negotiation.Begun) result.0 result.1 }
{
    match Listed::open(alloc, bytes) {
        Ok(None) => (
            Turn::Serve(Negotiation::Begun),
            Stage::Login(Negotiation::Begun),
        ),
        Ok(Some(listed)) => {
            let (decision, stage) = list(alloc, listed);
            (Turn::Decided(decision), stage)
        }
        Err(_) => (
            Turn::Decided(unshown(alloc, ListFault::OutOfMemory)),
            Stage::Login(Negotiation::Ended),
        ),
    }
}

// (The stage is changed in place, so that no frame has room for a second one. What is prepared is made before anything large is moved.)
#[inline(never)]
fn conclude_at(
    alloc: Global,
    stage: &mut Stage,
    bytes: &[u8],
    chosen: Chosen<'_>,
    after: Negotiation,
    decided: LoginDecision,
) -> Decision
    ensures { ConcludesAt stage.old bytes.now chosen.entry.confounder.now chosen.entry.choice.now chosen.entry.options after decided result stage.new }
{
    let listed = take_list(stage);
    let made = prepared_if(alloc, &listed, bytes, chosen, &decided);
    conclude_by(alloc, stage, listed, after, decided, made)
}

// Prepares the answer to a client that has sent a list.
fn prepared_if(
    alloc: Global,
    listed: &Option<Listed>,
    bytes: &[u8],
    chosen: Chosen<'_>,
    decided: &LoginDecision,
) -> Result<Prepared, ListFault>
    ensures { IfSome listed.now (λ listing. PreparesBy listing bytes.now chosen.entry.confounder.now chosen.entry.choice.now chosen.entry.options decided.now result) }
{
    match listed {
        Some(listed) => prepared(alloc, listed, bytes, chosen, decided),
        None => Err(ListFault::Missing),
    }
}

// Concludes by what was prepared for a client with a list, and without one by its negotiation.
#[inline(never)]
fn conclude_by(
    alloc: Global,
    stage: &mut Stage,
    listed: Option<Listed>,
    after: Negotiation,
    decided: LoginDecision,
    made: Result<Prepared, ListFault>,
) -> Decision
    ensures listed { IfSome listed (λ listing. LeadsBy listing made decided result stage.new) }
    ensures other { listed ≡ None → ConcludesUnlisted stage.old after decided result stage.new }
{
    match listed {
        Some(listed) => lead(alloc, stage, listed, decided, made),
        None => {
            drop(made);
            conclude_other(alloc, stage, after, decided)
        }
    }
}

// Takes the list of a client that was asked for its MIC. The login is over then, unless it is concluded.
#[inline(never)]
fn take_list(stage: &mut Stage) -> Option<Listed>
    ensures { MatchOption result ((stage.new ≡ stage.old) × ((listing : Listing) → stage.old ≡ Stage.Listed listing → ⊥))
        (λ listed. stage.old ≡ Stage.Listed listed) }
{
    match mem::replace(stage, Stage::Login(Negotiation::Ended)) {
        Stage::Listed(listed) => Some(listed),
        other => {
            *stage = other;
            None
        }
    }
}

// Concludes a login that has no list to check.
#[inline(never)]
fn conclude_other(
    alloc: Global,
    stage: &mut Stage,
    after: Negotiation,
    decided: LoginDecision,
) -> Decision
    ensures { ConcludesUnlisted stage.old after decided result stage.new }
{
    match mem::replace(stage, Stage::Login(Negotiation::Ended)) {
        Stage::Login(negotiation) => conclude_login(alloc, stage, negotiation, after, decided),
        Stage::Listed(_) => unshown(alloc, ListFault::Missing),
        Stage::Waiting(_) => unshown(alloc, ListFault::Missing),
    }
}

#[inline(never)]
fn conclude_login(
    alloc: Global,
    stage: &mut Stage,
    negotiation: Negotiation,
    after: Negotiation,
    decided: LoginDecision,
) -> Decision
    ensures { ConcludesLogin negotiation after decided result stage.new }
{
    match negotiation {
        Negotiation::Begun => go_on(stage, after, decided),
        Negotiation::Asked(_) => go_on(stage, after, decided),
        Negotiation::Ended => {
            *stage = Stage::Login(Negotiation::Ended);
            conclude_ended(alloc, decided)
        }
    }
}

fn go_on(stage: &mut Stage, after: Negotiation, decided: LoginDecision) -> Decision
    ensures decision { result ≡ as_decided decided }
    ensures stage { stage.new ≡ Stage.Login after }
{
    *stage = Stage::Login(after);
    as_decided(decided)
}

// Lets nobody in after the end.
fn conclude_ended(alloc: Global, decided: LoginDecision) -> Decision
    ensures { ConcludesEnded decided result }
{
    match decided {
        LoginDecision::Refused(refused) => Decision::Refused(refused),
        LoginDecision::LetIn(_) => unshown(alloc, ListFault::Token(TokenFault::Ended)),
        LoginDecision::GoOn(_) => unshown(alloc, ListFault::Token(TokenFault::Ended)),
    }
}

fn step<M: ReplayMemory>(
    alloc: Global,
    service: &mut Service<M>,
    options: Options,
    stage: Stage,
    given: Given<'_>,
) -> (Decision, Stage)
    ensures { Talks
        (Serves M.has M.newest M.limits M.refusals M.FORGETS service.old.terms service.new.terms service.old.acceptor service.new.acceptor given.entry)
        (service.new ≡ service.old) options given.entry stage result.0 result.1 }
{
    match stage {
        Stage::Login(negotiation) => log_in(alloc, service, options, negotiation, given),
        Stage::Listed(listed) => check(alloc, service, options, listed, given),
        Stage::Waiting(pending) => finish(alloc, pending, given),
    }
}

// A message of a client that has sent no list.
fn log_in<M: ReplayMemory>(
    alloc: Global,
    service: &mut Service<M>,
    options: Options,
    negotiation: Negotiation,
    given: Given<'_>,
) -> (Decision, Stage)
    ensures { Talks
        (Serves M.has M.newest M.limits M.refusals M.FORGETS service.old.terms service.new.terms service.old.acceptor service.new.acceptor given.entry)
        (service.new ≡ service.old) options given.entry (Stage.Login negotiation) result.0 result.1 }
{
    match negotiation {
        Negotiation::Begun => begin(alloc, service, options, given),
        _ => pass(alloc, service, negotiation, given),
    }
}

// The first message of a client.
fn begin<M: ReplayMemory>(
    alloc: Global,
    service: &mut Service<M>,
    options: Options,
    given: Given<'_>,
) -> (Decision, Stage)
    ensures { Talks
        (Serves M.has M.newest M.limits M.refusals M.FORGETS service.old.terms service.new.terms service.old.acceptor service.new.acceptor given.entry)
        (service.new ≡ service.old) options given.entry (Stage.Login Negotiation.Begun) result.0 result.1 }
{
    match Listed::open(alloc, given.bytes) {
        Ok(None) => pass(alloc, service, Negotiation::Begun, given),
        Ok(Some(listed)) => list(alloc, listed),
        Err(_) => (
            unshown(alloc, ListFault::OutOfMemory),
            Stage::Login(Negotiation::Ended),
        ),
    }
}

// Asks a client that has sent a list.
fn list(alloc: Global, listed: Listed) -> (Decision, Stage)
    ensures { AsksFor listed result.0 result.1 }
{
    match listed.request_mic(alloc) {
        Ok(sent) => (Decision::GoOn(sent), Stage::Listed(listed)),
        Err(_) => (
            unshown(alloc, ListFault::OutOfMemory),
            Stage::Login(Negotiation::Ended),
        ),
    }
}

// Passes a message on to the service.
fn pass<M: ReplayMemory>(
    alloc: Global,
    service: &mut Service<M>,
    negotiation: Negotiation,
    given: Given<'_>,
) -> (Decision, Stage)
    ensures { Passes
        (Serves M.has M.newest M.limits M.refusals M.FORGETS service.old.terms service.new.terms service.old.acceptor service.new.acceptor given.entry)
        negotiation result.0 result.1 }
{
    let mut negotiation = negotiation;
    let decided = serve(alloc, service, &mut negotiation, given);
    (as_decided(decided), Stage::Login(negotiation))
}

fn serve<M: ReplayMemory>(
    alloc: Global,
    service: &mut Service<M>,
    negotiation: &mut Negotiation,
    given: Given<'_>,
) -> LoginDecision
    ensures { Serves M.has M.newest M.limits M.refusals M.FORGETS service.old.terms service.new.terms service.old.acceptor service.new.acceptor given.entry
        negotiation.old negotiation.new result }
{
    service.answer(alloc, negotiation, given)
}

fn as_decided(decided: LoginDecision) -> Decision
    ensures { result ≡ as_decided decided }
{
    match decided {
        LoginDecision::LetIn(login) => Decision::LetIn(login),
        LoginDecision::GoOn(bytes) => Decision::GoOn(bytes),
        LoginDecision::Refused(refused) => Decision::Refused(refused),
    }
}

// The message that follows a list.
fn check<M: ReplayMemory>(
    alloc: Global,
    service: &mut Service<M>,
    options: Options,
    listed: Listed,
    given: Given<'_>,
) -> (Decision, Stage)
    ensures { Talks
        (Serves M.has M.newest M.limits M.refusals M.FORGETS service.old.terms service.new.terms service.old.acceptor service.new.acceptor given.entry)
        (service.new ≡ service.old) options given.entry (Stage.Listed listed) result.0 result.1 }
{
    let Given {
        bytes,
        now,
        confounder,
        choice,
    } = given;
    let again = choice_again(&choice);
    let chosen = Chosen {
        confounder,
        choice: &again,
        options,
    };
    let given = Given {
        bytes,
        now,
        confounder,
        choice,
    };
    let mut negotiation = listed.negotiation();
    let decided = serve(alloc, service, &mut negotiation, given);
    let mut stage = Stage::Login(Negotiation::Ended);
    let decision = conclude(alloc, &mut stage, listed, bytes, chosen, decided);
    (decision, stage)
}

// Checks the list of a client that the service would let in. All that is large stays in the frames beside the check.
fn conclude(
    alloc: Global,
    stage: &mut Stage,
    listed: Listed,
    bytes: &[u8],
    chosen: Chosen<'_>,
    decided: LoginDecision,
) -> Decision
    ensures { ConcludesBy listed bytes.now chosen.entry.confounder.now chosen.entry.choice.now chosen.entry.options decided result stage.new }
{
    end_login(stage);
    let made = prepared(alloc, &listed, bytes, chosen, &decided);
    lead(alloc, stage, listed, decided, made)
}

// Prepares what a client is answered that the service would let in. For any other one it makes nothing.
#[inline(never)]
fn prepared(
    alloc: Global,
    listed: &Listed,
    bytes: &[u8],
    chosen: Chosen<'_>,
    decided: &LoginDecision,
) -> Result<Prepared, ListFault>
    ensures { PreparesBy listed.now bytes.now chosen.entry.confounder.now chosen.entry.choice.now chosen.entry.options decided.now result }
{
    match decided {
        LoginDecision::LetIn(login) => listed.mark(alloc, bytes, &login.accepted, chosen),
        LoginDecision::GoOn(_) => Err(ListFault::Missing),
        LoginDecision::Refused(_) => Err(ListFault::Missing),
    }
}

// Ends a login. (What it was is freed in a stack frame of its own.)
#[inline(never)]
fn end_login(stage: &mut Stage)
    ensures { stage.new ≡ Stage.Login Negotiation.Ended }
{
    *stage = Stage::Login(Negotiation::Ended);
}

// Goes on by what was prepared for a client that the service would let in.
#[inline(never)]
fn lead(
    alloc: Global,
    stage: &mut Stage,
    listed: Listed,
    decided: LoginDecision,
    made: Result<Prepared, ListFault>,
) -> Decision
    ensures { LeadsBy listed made decided result stage.new }
{
    *stage = Stage::Login(Negotiation::Ended);
    let login = match decided {
        LoginDecision::LetIn(login) => login,
        LoginDecision::GoOn(bytes) => return Decision::GoOn(bytes),
        LoginDecision::Refused(refused) => return Decision::Refused(refused),
    };
    match listed.checking(login.accepted, made) {
        Ok(Checking::Shown(login)) => Decision::Shown(login),
        Ok(Checking::Waits(pending, sent)) => {
            *stage = Stage::Waiting(pending);
            Decision::GoOn(sent)
        }
        Err(fault) => unshown(alloc, fault),
    }
}

// The last message.
fn finish(alloc: Global, pending: Pending, given: Given<'_>) -> (Decision, Stage)
    ensures { (made : Result AdmittedValue ListFault) × Finishes pending given.entry.bytes.now made × Ends made result.0 × (result.1 ≡ Stage.Login Negotiation.Ended) }
{
    (
        end(alloc, pending.finish(given.bytes)),
        Stage::Login(Negotiation::Ended),
    )
}

fn end(alloc: Global, made: Result<Admitted, ListFault>) -> Decision
    ensures { Ends made result }
{
    match made {
        Ok(login) => Decision::Shown(login),
        Err(fault) => unshown(alloc, fault),
    }
}

// Rejects a client for its list.
#[inline(never)]
fn unshown(alloc: Global, fault: ListFault) -> Decision
    ensures { IsUnshown fault result }
{
    match wrap_verdict(alloc, Verdict::Rejected) {
        Ok(sent) => Decision::Unshown(Unshown {
            fault,
            answer: Some(sent),
            unsent: None,
        }),
        Err(_) => Decision::Unshown(Unshown {
            fault,
            answer: None,
            unsent: Some(Unsent::OutOfMemory),
        }),
    }
}
