//! One call for a login.

ghost use Rattle.std.specs.Prelude.{◌≡◌, ◌↔◌, ℕ, List, ◌∷◌, None, Some, IsTrue, IfErr, IfOk, IfSome, OnOk};
ghost use Rattle.krb_replay.specs.Memory.{SameStamps, later_of};
ghost use Rattle.krb_ap.specs.History.{IsShownLately};
ghost use Rattle.krb_login.specs.Inner.{HasRunOut, IsJudged};
ghost use Rattle.krb_login.specs.Limits.{HeedsLimits};
ghost use Rattle.krb_ap.specs.Answer.{taken_of};
ghost use Rattle.krb_ap.specs.Opened.{AsksFor as AsksForService, IsOrdinary};
ghost use Rattle.krb_ap.specs.Service.{HeedsLimits as HeedsLimitsAt, SameMemory, Stands};
ghost use Rattle.krb_ap.specs.Setup.{Arrival, arrival};
ghost use Rattle.krb_ap.specs.Taken.{Accept, Taken};
ghost use Rattle.krb_gss.specs.Negotiation.{IsAsking};
ghost use Rattle.krb_login.specs.Terms.{IsFirstBroken, Meets};
ghost use Rattle.krb_gss.specs.declared.negotiating.Negotiation.{Negotiation as NegotiationValue};
ghost use Rattle.krb_ap.specs.Causes.{Cause as IsCause, IsRemembered, TellsPlaceWithin};
ghost use Rattle.krb_ap.specs.declared.refusal.Refusal.{Refusal as RefusalValue};
ghost use Rattle.krb_ap.specs.declared.reply.ReplyOptions.{ReplyOptions as ReplyOptionsValue};
ghost use Rattle.krb_gss.specs.Answer.{WritesVerdict};
ghost use Rattle.krb_login.specs.Carrying.{Carries, IsNegotiating};
ghost use Rattle.krb_login.specs.Store.{AnswersShared, IsAfterStep, IsJudgedBy, IsSettled, LeadsTo, RanOutBefore, Steps, StepsOn};
ghost use Rattle.krb_login.specs.Login.{Call, Decides, GoesOn, GoesTo, HasCause, HoldsRequest, IsAfter, IsDecided, IsOfRequest, IsUndecided, RanOut, call_for, call_of, call_with};

use crate::asked::asked_of;
use crate::breach::Breach;
use crate::carrier::Carrier;
use crate::cause::Cause;
use crate::decision::{Decision, LetIn, Refused, Unsent};
use crate::opening::{Held, is_negotiating, open};
use crate::question::{Asking, Step};
use crate::response::{answer_of, out_of_memory, refused, refused_as};
use crate::store::Store;
use crate::terms::Terms;
use krb_ap::{Accepted, Acceptor, Refusal, ReplyOptions};
use krb_gss::{Mechanism, Negotiation, TokenFault, Verdict, wrap_verdict};
use krb_msg::{Moment, Principal};
use krb_replay::{ReplayMemory, Skew};
use std::alloc::Global;

/// What a service is given with the bytes of a client. There is no `Debug`, so no log shows a key.
#[derive(Drop)]
pub struct Given<'a> {
    /// The bytes.
    pub bytes: &'a [u8],
    /// The service's clock.
    pub now: Moment,
    /// 16 random bytes, new for each call.
    pub confounder: &'a [u8; 16],
    /// What the service chooses for a reply.
    pub choice: ReplyOptions,
}

/// A service that lets clients in, or says why not.
#[derive(Drop)]
pub struct Service<M: ReplayMemory> {
    /// Decides which requests are accepted.
    pub acceptor: Acceptor<M>,
    /// What it asks of a client whose request is accepted.
    pub terms: Terms,
}

impl<M: ReplayMemory> Service<M> {
    /// Opens what a client sent, decides, and makes what goes back to it.
    ///
    /// `negotiation` is new for each client (`Begun`), and goes on with its next token.
    #[inline(never)]
    pub fn answer(
        &mut self,
        alloc: Global,
        negotiation: &mut Negotiation,
        given: Given<'_>,
    ) -> Decision
        ensures terms { self.new.terms ≡ self.old.terms }
        ensures setup { self.new.acceptor.setup ≡ self.old.acceptor.setup }
        ensures negotiation { GoesTo given.entry.bytes.now result negotiation.new }

        // For each history that the memory stands for: the client is let in, asked or refused as defined.
        ensures decided { (history : List Arrival)
            → Stands M.has M.newest self.old.acceptor history
            → Decides (call_of self.old.terms self.old.acceptor.setup history negotiation.old given.entry) result }

        // And it stands for a history afterwards.
        ensures goes_on { (history : List Arrival)
            → Stands M.has M.newest self.old.acceptor history
            → GoesOn (Stands M.has M.newest self.new.acceptor)
            (call_of self.old.terms self.old.acceptor.setup history negotiation.old given.entry) result }

        // A request that is decided on moves the latest moment to the one that counts. A memory that forgets has then exactly what
        // was shown lately.
        ensures moves { IsDecided result → M.newest self.new.acceptor.memory ≡ Some (later_of (M.newest self.old.acceptor.memory) given.entry.now) }
        ensures forgets { IsTrue M.FORGETS → (history : List Arrival)
            → Stands M.has M.newest self.old.acceptor history → IsDecided result
            → GoesOn (λ after. SameStamps (IsShownLately self.old.acceptor.setup after) (M.has self.new.acceptor.memory))
            (call_of self.old.terms self.old.acceptor.setup history negotiation.old given.entry) result }
        // If the history stays the same, the memory does.
        ensures unchanged { (history : List Arrival)
            → Stands M.has M.newest self.old.acceptor history
            → GoesOn (λ after. after ≡ history → SameMemory M.has M.newest self.old.acceptor.memory self.new.acceptor.memory)
            (call_of self.old.terms self.old.acceptor.setup history negotiation.old given.entry) result }

        // A request past a limit of the memory is answered with out of memory. No other is counted as refused for a limit.
        ensures limit { (history : List Arrival)
            → Stands M.has M.newest self.old.acceptor history
            → HeedsLimits (M.has self.old.acceptor.memory) (M.limits self.old.acceptor.memory) (M.refusals self.old.acceptor.memory) (M.refusals self.new.acceptor.memory)
            (call_of self.old.terms self.old.acceptor.setup history negotiation.old given.entry) (RanOut result) }
        ensures limits { M.limits self.new.acceptor.memory ≡ M.limits self.old.acceptor.memory }
    {
        let stage = *negotiation;
        match open(negotiation, given.bytes) {
            Err(fault) => refused_decision(not_opened(alloc, stage, given.bytes, fault)),
            Ok(Held::Nothing(first)) => go_on(alloc, negotiation, first),
            Ok(Held::Request(carrier, request)) => self.decide(alloc, carrier, request, given),
        }
    }

    /// Opens what a client sent, and decides, but asks a store of stamps before it lets the client in.
    ///
    /// Call it in place of [`Service::answer`] if the service shares a store with others. Then
    /// [`Asking::settle`](crate::Asking::settle) decides by what the store says. The request is
    /// remembered, whatever that is. `now` is the service's clock.
    #[inline(never)]
    pub fn ask(
        &mut self,
        alloc: Global,
        negotiation: &mut Negotiation,
        bytes: &[u8],
        now: Moment,
    ) -> Step
        ensures terms { self.new.terms ≡ self.old.terms }
        ensures setup { self.new.acceptor.setup ≡ self.old.acceptor.setup }
        ensures negotiation { LeadsTo bytes.now result negotiation.new }

        // For each history that the memory stands for: the client is asked or refused as defined, or the store is asked for its stamp.
        ensures steps { (history : List Arrival)
            → Stands M.has M.newest self.old.acceptor history
            → (confounder : List ℕ) (choice : ReplyOptionsValue)
            → Steps (call_for self.old.terms self.old.acceptor.setup history negotiation.old bytes.now now confounder choice) result }

        // And it stands for a history afterwards.
        ensures goes_on { (history : List Arrival)
            → Stands M.has M.newest self.old.acceptor history
            → (confounder : List ℕ) (choice : ReplyOptionsValue)
            → StepsOn (Stands M.has M.newest self.new.acceptor)
            (call_for self.old.terms self.old.acceptor.setup history negotiation.old bytes.now now confounder choice) result }

        // The memory changes as by `answer`.
        ensures moves { IsJudgedBy result → M.newest self.new.acceptor.memory ≡ Some (later_of (M.newest self.old.acceptor.memory) now) }
        ensures forgets { IsTrue M.FORGETS → (history : List Arrival)
            → Stands M.has M.newest self.old.acceptor history
            → (confounder : List ℕ) (choice : ReplyOptionsValue) → IsJudgedBy result
            → StepsOn (λ after. SameStamps (IsShownLately self.old.acceptor.setup after) (M.has self.new.acceptor.memory))
            (call_for self.old.terms self.old.acceptor.setup history negotiation.old bytes.now now confounder choice) result }
        ensures unchanged { (history : List Arrival)
            → Stands M.has M.newest self.old.acceptor history
            → (confounder : List ℕ) (choice : ReplyOptionsValue)
            → StepsOn (λ after. after ≡ history → SameMemory M.has M.newest self.old.acceptor.memory self.new.acceptor.memory)
            (call_for self.old.terms self.old.acceptor.setup history negotiation.old bytes.now now confounder choice) result }
        ensures limit { (history : List Arrival)
            → Stands M.has M.newest self.old.acceptor history
            → (confounder : List ℕ) (choice : ReplyOptionsValue)
            → HeedsLimits (M.has self.old.acceptor.memory) (M.limits self.old.acceptor.memory) (M.refusals self.old.acceptor.memory) (M.refusals self.new.acceptor.memory)
            (call_for self.old.terms self.old.acceptor.setup history negotiation.old bytes.now now confounder choice) (RanOutBefore result) }
        ensures limits { M.limits self.new.acceptor.memory ≡ M.limits self.old.acceptor.memory }
    {
        let stage = *negotiation;
        match open(negotiation, bytes) {
            Err(fault) => refused_step(not_opened(alloc, stage, bytes, fault)),
            Ok(Held::Nothing(first)) => decided_step(go_on(alloc, negotiation, first)),
            Ok(Held::Request(carrier, request)) => self.question(alloc, carrier, request, now),
        }
    }

    /// Answers as [`Service::answer`], and asks a store that it shares before it lets a client in: the
    /// steps of [`Service::ask`] and [`Asking::settle`](crate::Asking::settle), in their order.
    pub fn answer_shared<S: Store>(
        &mut self,
        alloc: Global,
        negotiation: &mut Negotiation,
        store: &mut S,
        given: Given<'_>,
    ) -> Decision
        ensures terms { self.new.terms ≡ self.old.terms }
        ensures setup { self.new.acceptor.setup ≡ self.old.acceptor.setup }

        // For each history that the memory stands for: decided with no question, or the store is asked, and it is decided by what it says.
        ensures answered { (history : List Arrival)
            → Stands M.has M.newest self.old.acceptor history
            → AnswersShared S.adds S.shows (call_of self.old.terms self.old.acceptor.setup history negotiation.old given.entry)
            store.old (Stands M.has M.newest self.new.acceptor) negotiation.new result store.new }

        // The memory changes as by `answer`, whatever the store says.
        ensures moves { (history : List Arrival)
            → Stands M.has M.newest self.old.acceptor history → IsSettled result
            → M.newest self.new.acceptor.memory ≡ Some (later_of (M.newest self.old.acceptor.memory) given.entry.now) }
        ensures forgets { IsTrue M.FORGETS → (history : List Arrival)
            → Stands M.has M.newest self.old.acceptor history → IsSettled result
            → AnswersShared S.adds S.shows (call_of self.old.terms self.old.acceptor.setup history negotiation.old given.entry)
            store.old (λ after. SameStamps (IsShownLately self.old.acceptor.setup after) (M.has self.new.acceptor.memory)) negotiation.new result store.new }
        ensures unchanged { (history : List Arrival)
            → Stands M.has M.newest self.old.acceptor history
            → AnswersShared S.adds S.shows (call_of self.old.terms self.old.acceptor.setup history negotiation.old given.entry)
            store.old (λ after. after ≡ history → SameMemory M.has M.newest self.old.acceptor.memory self.new.acceptor.memory) negotiation.new result store.new }
        ensures limit { (history : List Arrival)
            → Stands M.has M.newest self.old.acceptor history
            → HeedsLimits (M.has self.old.acceptor.memory) (M.limits self.old.acceptor.memory) (M.refusals self.old.acceptor.memory) (M.refusals self.new.acceptor.memory)
            (call_of self.old.terms self.old.acceptor.setup history negotiation.old given.entry) (RanOut result) }
        ensures limits { M.limits self.new.acceptor.memory ≡ M.limits self.old.acceptor.memory }
    {
        let Given {
            bytes,
            now,
            confounder,
            choice,
        } = given;
        match self.ask(alloc, negotiation, bytes, now) {
            Step::Decided(decision) => decision,
            Step::Ask(asking) => asking.settle_by(alloc, store, confounder, choice),
        }
    }

    fn decide(
        &mut self,
        alloc: Global,
        carrier: Carrier,
        request: &[u8],
        given: Given<'_>,
    ) -> Decision
        ensures terms { self.new.terms ≡ self.old.terms }
        ensures setup { self.new.acceptor.setup ≡ self.old.acceptor.setup }
        ensures decided { (history : List Arrival)
            → Stands M.has M.newest self.old.acceptor history
            → (negotiation : NegotiationValue) (bytes : List ℕ)
            → Carries negotiation carrier request.now bytes
            → Decides (call_with self.old.terms self.old.acceptor.setup history negotiation bytes given.entry) result }
        ensures ends { (bytes : List ℕ) → GoesTo bytes result Negotiation.Ended }
        ensures goes_on { (history : List Arrival)
            → Stands M.has M.newest self.old.acceptor history
            → (negotiation : NegotiationValue) (bytes : List ℕ)
            → Carries negotiation carrier request.now bytes
            → GoesOn (Stands M.has M.newest self.new.acceptor) (call_with self.old.terms self.old.acceptor.setup history negotiation bytes given.entry) result }
        ensures moves { IsDecided result → M.newest self.new.acceptor.memory ≡ Some (later_of (M.newest self.old.acceptor.memory) given.entry.now) }
        ensures forgets { IsTrue M.FORGETS → (history : List Arrival)
            → Stands M.has M.newest self.old.acceptor history → IsDecided result
            → (negotiation : NegotiationValue) (bytes : List ℕ)
            → Carries negotiation carrier request.now bytes
            → GoesOn (λ after. SameStamps (IsShownLately self.old.acceptor.setup after) (M.has self.new.acceptor.memory))
            (call_with self.old.terms self.old.acceptor.setup history negotiation bytes given.entry) result }
        ensures unchanged { (history : List Arrival)
            → Stands M.has M.newest self.old.acceptor history
            → (negotiation : NegotiationValue) (bytes : List ℕ)
            → Carries negotiation carrier request.now bytes
            → GoesOn (λ after. after ≡ history → SameMemory M.has M.newest self.old.acceptor.memory self.new.acceptor.memory)
            (call_with self.old.terms self.old.acceptor.setup history negotiation bytes given.entry) result }
        ensures limit { (history : List Arrival)
            → Stands M.has M.newest self.old.acceptor history
            → HeedsLimitsAt (M.has self.old.acceptor.memory) (M.limits self.old.acceptor.memory) (M.refusals self.old.acceptor.memory) (M.refusals self.new.acceptor.memory)
            self.old.acceptor.setup history (arrival request.now given.entry.now) (RanOut result) }
        ensures uncounted { (history : List Arrival) (cause : RefusalValue)
            → Stands M.has M.newest self.old.acceptor history
            → IsCause self.old.acceptor.setup history (arrival request.now given.entry.now) cause → ¬ IsRemembered cause
            → M.refusals self.new.acceptor.memory ≡ M.refusals self.old.acceptor.memory }
        ensures limits { M.limits self.new.acceptor.memory ≡ M.limits self.old.acceptor.memory }
    {
        let Given {
            bytes: _,
            now,
            confounder,
            choice,
        } = given;
        match self.judge(alloc, carrier, request, now) {
            Ok(accepted) => let_in(alloc, carrier, accepted, confounder, choice),
            Err(refused) => refused_decision(refused),
        }
    }

    fn question(&mut self, alloc: Global, carrier: Carrier, request: &[u8], now: Moment) -> Step
        ensures terms { self.new.terms ≡ self.old.terms }
        ensures setup { self.new.acceptor.setup ≡ self.old.acceptor.setup }
        ensures steps { (history : List Arrival)
            → Stands M.has M.newest self.old.acceptor history
            → (negotiation : NegotiationValue) (bytes confounder : List ℕ) (choice : ReplyOptionsValue)
            → Carries negotiation carrier request.now bytes
            → Steps (call_for self.old.terms self.old.acceptor.setup history negotiation bytes now confounder choice) result }
        ensures ends { (bytes : List ℕ) → LeadsTo bytes result Negotiation.Ended }
        ensures goes_on { (history : List Arrival)
            → Stands M.has M.newest self.old.acceptor history
            → (negotiation : NegotiationValue) (bytes confounder : List ℕ) (choice : ReplyOptionsValue)
            → Carries negotiation carrier request.now bytes
            → StepsOn (Stands M.has M.newest self.new.acceptor) (call_for self.old.terms self.old.acceptor.setup history negotiation bytes now confounder choice) result }
        ensures moves { IsJudgedBy result → M.newest self.new.acceptor.memory ≡ Some (later_of (M.newest self.old.acceptor.memory) now) }
        ensures forgets { IsTrue M.FORGETS → (history : List Arrival)
            → Stands M.has M.newest self.old.acceptor history → IsJudgedBy result
            → (negotiation : NegotiationValue) (bytes confounder : List ℕ) (choice : ReplyOptionsValue)
            → Carries negotiation carrier request.now bytes
            → StepsOn (λ after. SameStamps (IsShownLately self.old.acceptor.setup after) (M.has self.new.acceptor.memory))
            (call_for self.old.terms self.old.acceptor.setup history negotiation bytes now confounder choice) result }
        ensures unchanged { (history : List Arrival)
            → Stands M.has M.newest self.old.acceptor history
            → (negotiation : NegotiationValue) (bytes confounder : List ℕ) (choice : ReplyOptionsValue)
            → Carries negotiation carrier request.now bytes
            → StepsOn (λ after. after ≡ history → SameMemory M.has M.newest self.old.acceptor.memory self.new.acceptor.memory)
            (call_for self.old.terms self.old.acceptor.setup history negotiation bytes now confounder choice) result }
        ensures limit { (history : List Arrival)
            → Stands M.has M.newest self.old.acceptor history
            → HeedsLimitsAt (M.has self.old.acceptor.memory) (M.limits self.old.acceptor.memory) (M.refusals self.old.acceptor.memory) (M.refusals self.new.acceptor.memory)
            self.old.acceptor.setup history (arrival request.now now) (RanOutBefore result) }
        ensures uncounted { (history : List Arrival) (cause : RefusalValue)
            → Stands M.has M.newest self.old.acceptor history
            → IsCause self.old.acceptor.setup history (arrival request.now now) cause → ¬ IsRemembered cause
            → M.refusals self.new.acceptor.memory ≡ M.refusals self.old.acceptor.memory }
        ensures limits { M.limits self.new.acceptor.memory ≡ M.limits self.old.acceptor.memory }
    {
        let skew = self.acceptor.skew();
        match self.judge(alloc, carrier, request, now) {
            Ok(accepted) => held(alloc, carrier, request, accepted, skew),
            Err(refused) => refused_step(refused),
        }
    }

    // Accepts a request that meets the terms, or says why its client isn't let in.
    fn judge(
        &mut self,
        alloc: Global,
        carrier: Carrier,
        request: &[u8],
        now: Moment,
    ) -> Result<Accepted, Refused>
        ensures terms { self.new.terms ≡ self.old.terms }
        ensures setup { self.new.acceptor.setup ≡ self.old.acceptor.setup }
        ensures ordinary { OnOk result (IsOrdinary request.now) }
        ensures meets { IfOk result (λ accepted. Meets self.old.terms (taken_of accepted)) }
        ensures accepted { (history : List Arrival)
            → Stands M.has M.newest self.old.acceptor history
            → IfOk result (λ accepted. Accept self.old.acceptor.setup history (arrival request.now now) (taken_of accepted)) }
        ensures remembered { (history : List Arrival)
            → Stands M.has M.newest self.old.acceptor history
            → OnOk result (Stands M.has M.newest self.new.acceptor (arrival request.now now ∷ history)) }
        ensures refused { (history : List Arrival)
            → Stands M.has M.newest self.old.acceptor history
            → (negotiation : NegotiationValue) (bytes confounder : List ℕ) (choice : ReplyOptionsValue)
            → Carries negotiation carrier request.now bytes
            → IfErr result (λ refused. HasCause (call_for self.old.terms self.old.acceptor.setup history negotiation bytes now confounder choice) refused refused.cause) }
        ensures goes_on { (history : List Arrival)
            → Stands M.has M.newest self.old.acceptor history
            → (negotiation : NegotiationValue) (bytes confounder : List ℕ) (choice : ReplyOptionsValue)
            → Carries negotiation carrier request.now bytes
            → IfErr result (λ refused. GoesOn (Stands M.has M.newest self.new.acceptor) (call_for self.old.terms self.old.acceptor.setup history negotiation bytes now confounder choice) (Decision.Refused refused)) }
        ensures moves { IsJudged result → M.newest self.new.acceptor.memory ≡ Some (later_of (M.newest self.old.acceptor.memory) now) }
        ensures forgets { IsTrue M.FORGETS → (history : List Arrival)
            → Stands M.has M.newest self.old.acceptor history → IsJudged result
            → SameStamps (IsShownLately self.old.acceptor.setup (arrival request.now now ∷ history)) (M.has self.new.acceptor.memory) }
        ensures unchanged { IfErr result (λ refused. (IsOfRequest refused.cause → ⊥)
            → SameMemory M.has M.newest self.old.acceptor.memory self.new.acceptor.memory) }
        ensures limit { (history : List Arrival)
            → Stands M.has M.newest self.old.acceptor history
            → HeedsLimitsAt (M.has self.old.acceptor.memory) (M.limits self.old.acceptor.memory) (M.refusals self.old.acceptor.memory) (M.refusals self.new.acceptor.memory)
            self.old.acceptor.setup history (arrival request.now now) (HasRunOut result) }
        ensures uncounted { (history : List Arrival) (cause : RefusalValue)
            → Stands M.has M.newest self.old.acceptor history
            → IsCause self.old.acceptor.setup history (arrival request.now now) cause → ¬ IsRemembered cause
            → M.refusals self.new.acceptor.memory ≡ M.refusals self.old.acceptor.memory }
        ensures limits { M.limits self.new.acceptor.memory ≡ M.limits self.old.acceptor.memory }
    {
        let accepted = match self.acceptor.accept(alloc, request, now) {
            Ok(accepted) => accepted,
            Err(refusal) => {
                if is_memory(&refusal) {
                    return Err(out_of_memory());
                }
                return Err(refuse(alloc, carrier, request, now, refusal));
            }
        };
        if let Some(breach) = self.terms.breach(&accepted) {
            return Err(turn_away(alloc, carrier, request, now, accepted.service, breach));
        }
        Ok(accepted)
    }
}

// Answers a request that the acceptor refuses for a cause.
#[inline(never)]
fn refuse(alloc: Global, carrier: Carrier, request: &[u8], now: Moment, refusal: Refusal) -> Refused
    ensures cause { (call : Call) → HoldsRequest call carrier request.now → call.now ≡ now
        → IsCause call.setup call.history (arrival request.now call.now) refusal → TellsPlaceWithin request.now refusal
        → HasCause call result result.cause }
    ensures decides { IsOfRequest result.cause }
{
    let cause = Cause::Request(refusal);
    refused(alloc, carrier, request, now, cause, &refusal)
}

fn is_memory(refusal: &Refusal) -> bool
    ensures { IsTrue result ↔ (refusal.now ≡ Refusal.OutOfMemory) }
{
    matches!(refusal, Refusal::OutOfMemory)
}

// Answers a request for this service, which the acceptor accepts, and which breaks the terms.
#[inline(never)]
fn turn_away(
    alloc: Global,
    carrier: Carrier,
    request: &[u8],
    now: Moment,
    service: Principal,
    breach: Breach,
) -> Refused
    ensures decides { IsOfRequest result.cause }
    ensures cause { AsksForService request.now service → (call : Call) (taken : Taken) → HoldsRequest call carrier request.now → call.now ≡ now
        → Accept call.setup call.history (arrival request.now call.now) taken
        → IsFirstBroken call.terms taken breach → HasCause call result result.cause }
{
    let cause = Cause::Breached(breach);
    let asked = asked_of(service, request);
    refused_as(alloc, carrier, asked, now, cause, &Refusal::Authorization)
}

// Answers bytes that aren't taken, at this point of a negotiation.
#[inline(never)]
fn not_opened(alloc: Global, negotiation: Negotiation, bytes: &[u8], fault: TokenFault) -> Refused
    ensures cause { result.cause ≡ Cause.Token fault }
    ensures asked { result.asked ≡ None }
    ensures answer { IfSome result.answer (λ sent. IsNegotiating negotiation bytes.now × WritesVerdict Verdict.Rejected sent.items) }
    ensures due { result.answer ≡ None → result.unsent ≡ None → IsNegotiating negotiation bytes.now → ⊥ }
    ensures unsent { IfSome result.unsent (λ why. (why ≡ Unsent.OutOfMemory) × ((result.answer ≡ None) × IsNegotiating negotiation bytes.now)) }
{
    let cause = Cause::Token(fault);
    if !is_negotiating(negotiation, bytes) {
        return Refused {
            cause,
            asked: None,
            answer: None,
            unsent: None,
        };
    }
    match wrap_verdict(alloc, Verdict::Rejected) {
        Ok(bytes) => Refused {
            cause,
            asked: None,
            answer: Some(bytes),
            unsent: None,
        },
        Err(_) => Refused {
            cause,
            asked: None,
            answer: None,
            unsent: Some(Unsent::OutOfMemory),
        },
    }
}

// Asks a client for its token.
#[inline(never)]
fn go_on(alloc: Global, negotiation: &mut Negotiation, first: Mechanism) -> Decision
    ensures leaves { IsUndecided result }
    ensures negotiation { negotiation.old ≡ Negotiation.Asked first
        → (bytes : List ℕ) → IsAsking first bytes → GoesTo bytes result negotiation.new }
    ensures decided { (call : Call) → call.negotiation ≡ Negotiation.Begun → IsAsking first call.bytes → Decides call result }
{
    match wrap_verdict(alloc, Verdict::Incomplete(first)) {
        Ok(bytes) => Decision::GoOn(bytes),
        Err(_) => {
            *negotiation = Negotiation::Ended;
            Decision::Refused(out_of_memory())
        }
    }
}

// (Each of these three has a stack frame of its own, so that the frame in which a request is decided has no room for what they make.)
#[inline(never)]
fn refused_decision(refused: Refused) -> Decision
    ensures { result ≡ Decision.Refused refused }
{
    Decision::Refused(refused)
}

#[inline(never)]
fn refused_step(refused: Refused) -> Step
    ensures { result ≡ Step.Decided (Decision.Refused refused) }
{
    Step::Decided(Decision::Refused(refused))
}

#[inline(never)]
fn decided_step(decided: Decision) -> Step
    ensures { result ≡ Step.Decided decided }
{
    Step::Decided(decided)
}

// (It has a stack frame of its own, so that its size isn't added to its caller's.)
#[inline(never)]
fn let_in(
    alloc: Global,
    carrier: Carrier,
    accepted: Accepted,
    confounder: &[u8; 16],
    choice: ReplyOptions,
) -> Decision
    ensures after { (call : Call) (request : List ℕ) → HoldsRequest call carrier request
        → Accept call.setup call.history (arrival request call.now) (taken_of accepted) → Meets call.terms (taken_of accepted)
        → IsAfter call result (arrival request call.now ∷ call.history) }
    ensures ends { (bytes : List ℕ) → GoesTo bytes result Negotiation.Ended }
    ensures decided { (call : Call) (request : List ℕ) → HoldsRequest call carrier request → IsOrdinary request
        → Accept call.setup call.history (arrival request call.now) (taken_of accepted) → Meets call.terms (taken_of accepted)
        → call.confounder ≡ confounder.now → call.choice ≡ choice → Decides call result }
{
    match answer_of(alloc, carrier, &accepted, confounder, choice) {
        Ok(answer) => Decision::LetIn(LetIn { accepted, answer }),
        Err(_) => Decision::Refused(out_of_memory()),
    }
}

// Holds what is known of an accepted request, to ask the store for its stamp.
#[inline(never)]
fn held(alloc: Global, carrier: Carrier, request: &[u8], accepted: Accepted, skew: Skew) -> Step
    ensures ends { (bytes : List ℕ) → LeadsTo bytes result Negotiation.Ended }
    ensures steps { (call : Call) → HoldsRequest call carrier request.now → IsOrdinary request.now → skew ≡ call.setup.skew
        → Accept call.setup call.history (arrival request.now call.now) (taken_of accepted) → Meets call.terms (taken_of accepted)
        → Steps call result }
    ensures after { (call : Call) → HoldsRequest call carrier request.now → IsOrdinary request.now
        → Accept call.setup call.history (arrival request.now call.now) (taken_of accepted) → Meets call.terms (taken_of accepted)
        → IsAfterStep call result (arrival request.now call.now ∷ call.history) }
{
    match Asking::of(alloc, carrier, request, accepted, skew) {
        Ok(asking) => Step::Ask(asking),
        Err(_) => Step::Decided(Decision::Refused(out_of_memory())),
    }
}
