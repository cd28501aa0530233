//! Laws over the definitions, for proofs to cite. Each function has an empty body: its contract is
//! the law.

ghost use Rattle.std.specs.Prelude.{◌≡◌, ◌≢◌, ◌⊎◌, ℕ, ℤ, Bool, IsTrue, List, Result};
ghost use Rattle.krb_ap.specs.Words.{Accept, Accepted, Arrival, Cache, Credential, FinishFault, Principal, Refusal, RequestFault, RequestOptions, Setup, Stamp, Taken, ValueOf, arrival, enc_ticket_part, part_client, taken_stamp, ticket_kind, ticket_service};
ghost use Rattle.krb_ap.specs.History.{IsShown, Shows, effective};
ghost use Rattle.krb_ap.specs.Request.{Awaited, IsRequest, Prevents};
ghost use Rattle.krb_ap.specs.Finish.{Agreement, FinishCause, IsAgreed, finish_place};
ghost use Rattle.krb_ap.specs.Headline.{Agrees, Built, HasTicket, MayBeRefused, MayBeTaken, built_stamp};
ghost use Rattle.krb_ap.specs.Causes.{Cause, IsRemembered, place};
ghost use Rattle.krb_ap.specs.Answer.{Run};
ghost use Rattle.krb_ap.specs.Living.{Lives, Step, TakesInLife, TakesOnceInLife};
ghost use Rattle.krb_ap.specs.Once.{HasStamp, TakesAmong, TakesOnce};
ghost use Rattle.krb_ap.specs.Sharing.{Asked, AskedAmong, ClocksAgree, Has, InTime, IsLetInNext, LetsInAmong, LetsInOnce, SaysNew, Share, StoreEvent, asked_by, asked_stamp, forgets};
ghost use Rattle.krb_ap.specs.Undecided.{AreDecided, SayTheSame, decided_answers, decided_calls};
ghost use Rattle.krb_ap.specs.UndecidedLife.{DecidesEach, SayTheSameInLife, decided_steps};
ghost use Rattle.krb_ap.specs.World.{BothAgree, Comes, Event, IsHeldInEachWorld, IsHeldOnce, IsOf, World, nothing_yet};
ghost use Rattle.krb_ap.specs.declared.refusal.Refusal.TheVariants.{JustStarted};

use crate::inner_laws::{decisions, facts, writing};

/// States that after each history a call has exactly one answer: the request is accepted, or there
/// is a first cause, but not both. What is known of an accepted request is determined, and so is
/// the first cause (except for which fault a malformed request reports).
pub fn one_answer()
    ensures some { (setup : Setup) (history : List Arrival) (call : Arrival)
        → ((taken : Taken) × Accept setup history call taken) ⊎ ((cause : Refusal) × Cause setup history call cause) }
    ensures apart { (setup : Setup) (history : List Arrival) (call : Arrival) (taken : Taken) (cause : Refusal)
        → Accept setup history call taken → Cause setup history call cause → ⊥ }
    ensures taken { (setup : Setup) (history : List Arrival) (call : Arrival) (one other : Taken)
        → Accept setup history call one → Accept setup history call other → other ≡ one }
    ensures cause { (setup : Setup) (history : List Arrival) (call : Arrival) (one other : Refusal)
        → Cause setup history call one → Cause setup history call other → place one ≡ place other }
{
    facts();
    decisions();
}

/// States which calls add to what was shown. A request that is refused for a cause whose row says
/// that it is remembered is shown, and wasn't shown before unless the cause is `JustStarted`. One
/// that is refused for another cause isn't shown, or was shown before.
pub fn refused_is_remembered()
    ensures remembered { (setup : Setup) (history : List Arrival) (call : Arrival) (cause : Refusal)
        → Cause setup history call cause → IsRemembered cause
        → (stamp : Stamp) × (Shows setup (effective history call.moment) call.bytes stamp
        × (cause ≢ JustStarted → ¬ IsShown setup history stamp)) }
    ensures nothing { (setup : Setup) (history : List Arrival) (call : Arrival) (cause : Refusal)
        → Cause setup history call cause → ¬ IsRemembered cause
        → (stamp : Stamp) → Shows setup (effective history call.moment) call.bytes stamp → IsShown setup history stamp }
{
    facts();
}

/// States that a service accepts a request that a client built, after each history and at each
/// moment that permits it, if the key that its keytab has for the ticket opens the ticket to the
/// credential's client and key. The service then knows what the client awaits, and the service that
/// the ticket is for.
///
/// `make_request` returns such a request. `accept` then accepts it or answers `OutOfMemory`, by its
/// clause `taken`.
pub fn built_is_accepted()
    ensures { (setup : Setup) (history : List Arrival) (moment : ℤ) (bytes : List ℕ) (built : Built setup bytes)
        → MayBeTaken setup history moment built.at built.ticket built.part
        → (taken : Taken) × Accept setup history (arrival bytes moment) taken × (taken.client ≡ part_client built.part)
        × (taken.service ≡ ticket_service built.ticket)
        × (taken.wants_reply ≡ built.options.mutual) × Agrees taken built.awaited }
{
    facts();
}

/// States why a service refuses a request that a client built, if the key that its keytab has for
/// the ticket opens the ticket to the credential's client and key: for a time, as a repeat, or for
/// what is asked of the ticket. It is never malformed, and everything in it opens and matches.
pub fn built_may_be_refused()
    ensures { (setup : Setup) (history : List Arrival) (moment : ℤ) (bytes : List ℕ) (built : Built setup bytes) (cause : Refusal)
        → Cause setup history (arrival bytes moment) cause → MayBeRefused setup history moment built.at built.ticket built.part cause }
{
    facts();
}

/// States that there is exactly one of two: a request, or one fault that prevents it. If no bytes
/// are a request, a fault prevents it. If some bytes are a request, no fault prevents it, and both
/// the bytes and what the client awaits are determined.
pub fn built_or_prevented()
    ensures some { (cache : Cache) (service : Principal) (at : ℤ) (confounder : List ℕ) (options : RequestOptions)
        → ((bytes : List ℕ) (awaited : Awaited) → ¬ IsRequest cache service at confounder options bytes awaited)
        → (fault : RequestFault) × Prevents cache service at confounder options fault }
    ensures one { (cache : Cache) (service : Principal) (at : ℤ) (confounder : List ℕ) (options : RequestOptions)
        (bytes others : List ℕ) (awaited other : Awaited) → IsRequest cache service at confounder options bytes awaited
        → IsRequest cache service at confounder options others other → (bytes ≡ others) × (awaited ≡ other) }
    ensures apart { (cache : Cache) (service : Principal) (at : ℤ) (confounder : List ℕ) (options : RequestOptions) (bytes : List ℕ)
        (awaited : Awaited) (fault : RequestFault) → IsRequest cache service at confounder options bytes awaited
        → Prevents cache service at confounder options fault → ⊥ }
    ensures fault { (cache : Cache) (service : Principal) (at : ℤ) (confounder : List ℕ) (options : RequestOptions)
        (one other : RequestFault) → Prevents cache service at confounder options one
        → Prevents cache service at confounder options other → one ≡ other }
{
    facts();
    decisions();
    writing();
}

/// States that a client has exactly one answer to a reply: it agrees, or there is a first cause to
/// refuse the reply, but not both. What it agrees on is determined, and so is the first cause
/// (except for which fault a malformed reply reports).
pub fn agreed_or_refused()
    ensures some { (awaited : Awaited) (bytes : List ℕ)
        → ((agreement : Agreement) × IsAgreed awaited bytes agreement) ⊎ ((fault : FinishFault) × FinishCause awaited bytes fault) }
    ensures one { (awaited : Awaited) (bytes : List ℕ) (one other : Agreement)
        → IsAgreed awaited bytes one → IsAgreed awaited bytes other → one ≡ other }
    ensures apart { (awaited : Awaited) (bytes : List ℕ) (agreement : Agreement) (fault : FinishFault)
        → IsAgreed awaited bytes agreement → FinishCause awaited bytes fault → ⊥ }
    ensures cause { (awaited : Awaited) (bytes : List ℕ) (one other : FinishFault)
        → FinishCause awaited bytes one → FinishCause awaited bytes other → finish_place one ≡ finish_place other }
{
    facts();
    decisions();
}

/// States that over every list of calls, after each history, no two requests of the same stamp are
/// accepted, and none of a stamp that was shown before.
pub fn no_stamp_twice()
    ensures once { (setup : Setup) (history : List Arrival) (calls : List Arrival) (answers : List (Result Accepted Refusal)) (end : List Arrival)
        → Run setup history calls answers end → TakesOnce setup calls answers }
    ensures before { (setup : Setup) (history : List Arrival) (calls : List Arrival) (answers : List (Result Accepted Refusal)) (end : List Arrival)
        (stamp : Stamp) → Run setup history calls answers end → IsShown setup history stamp → ¬ TakesAmong setup calls answers stamp }
{
    facts();
}

/// States that a call that is answered with `OutOfMemory` changes no other answer. There was no
/// memory, or the memory of what was seen has a limit, which is reached (clause `limit` of
/// `accept`).
///
/// Clause `others`: without these calls, the other calls have right answers too, which are the same
/// ones, and lead to the same history. Clause `alone`: if another service with the same setup and
/// history gets the other calls alone, and decides all of them, its answers say the same.
pub fn undecided_calls_change_nothing()
    ensures others { (setup : Setup) (history : List Arrival) (calls : List Arrival) (answers : List (Result Accepted Refusal)) (end : List Arrival)
        → Run setup history calls answers end → Run setup history (decided_calls calls answers) (decided_answers answers) end }
    ensures alone { (setup : Setup) (history : List Arrival) (calls : List Arrival) (answers others : List (Result Accepted Refusal))
        (end other_end : List Arrival) → Run setup history calls answers end
        → Run setup history (decided_calls calls answers) others other_end → AreDecided others
        → SayTheSame (decided_answers answers) others × (other_end ≡ end) }
{
    facts();
}

/// States the same of a service whose keytab is replaced, however often. In clause `alone`, the
/// other service gets the same keytabs.
pub fn undecided_calls_change_no_life()
    ensures others { (setup : Setup) (history : List Arrival) (steps : List Step)
        → Lives setup history steps → Lives setup history (decided_steps steps) }
    ensures alone { (setup : Setup) (history : List Arrival) (steps others : List Step) → Lives setup history steps
        → Lives setup history others → DecidesEach (decided_steps steps) others → SayTheSameInLife (decided_steps steps) others }
{
    facts();
}

/// States that a service whose keytab is replaced, however often, accepts no two requests of the
/// same stamp, and none of a stamp that was shown before.
pub fn no_stamp_twice_in_a_life()
    ensures once { (setup : Setup) (history : List Arrival) (steps : List Step) → Lives setup history steps → TakesOnceInLife setup steps }
    ensures before { (setup : Setup) (history : List Arrival) (steps : List Step) (stamp : Stamp)
        → Lives setup history steps → IsShown setup history stamp → ¬ TakesInLife setup steps stamp }
{
    facts();
}

/// States that what is known of an accepted request has the request's stamp, and that the request
/// has no other.
pub fn accepted_has_its_stamp()
    ensures stamp { (setup : Setup) (history : List Arrival) (call : Arrival) (taken : Taken)
        → Accept setup history call taken → HasStamp setup call.bytes (taken_stamp taken) }
    ensures one { (setup : Setup) (history : List Arrival) (call : Arrival) (taken : Taken) (stamp : Stamp)
        → Accept setup history call taken → HasStamp setup call.bytes stamp → stamp ≡ taken_stamp taken }
{
    facts();
}

/// States that services that share one store of stamps let no two requests of the same stamp in,
/// and none of a stamp that the store had at first. A request is let in if a service accepts it, the
/// store then says that its stamp is new, and the service's clock, read after that, shows no later
/// time than the request's plus the service's skew.
///
/// Nothing is presupposed of what a service has seen, or of its keytab and its start: it may have
/// been started again, and lose everything. `specs/Sharing` says what is presupposed of the store and
/// of the clocks:
/// - In one step, the store adds a stamp unless it has it, and says whether it is new.
/// - The store forgets a stamp only after its clock is past the stamp's time plus twice the skew,
///   which is what `Tuple::keep_until` returns.
/// - No service's skew is larger. If the store has forgotten a stamp, then its clock, when it did so,
///   was ahead of what the service's clock shows after the answer by at most the skew.
///
/// Clauses `late` and `forgotten` say why the store may forget: if the clocks agree, it is too late
/// for each request whose stamp the store has forgotten, and no service whose clock agrees when it
/// decides accepts it.
pub fn a_store_lets_in_once()
    ensures once { (skew : ℕ) (store : List Stamp) (events : List StoreEvent) → Share skew store events → LetsInOnce events }
    ensures before { (skew : ℕ) (store : List Stamp) (events : List StoreEvent) (stamp : Stamp)
        → Share skew store events → IsOf store stamp → ¬ LetsInAmong events stamp }
    ensures forgotten { (skew : ℕ) (store : List Stamp) (events : List StoreEvent) (asked : Asked) (at : ℤ)
        → Share skew store events → IsOf events (forgets (asked_stamp asked) at)
        → ClocksAgree skew asked (effective asked.history asked.call.moment) at
        → ¬ Accept asked.setup asked.history asked.call asked.taken }
    ensures late { (skew : ℕ) (store : List Stamp) (events : List StoreEvent) (asked : Asked) (shows at : ℤ)
        → Share skew store events → IsOf events (forgets (asked_stamp asked) at)
        → ClocksAgree skew asked shows at → ¬ InTime asked shows }
{
    facts();
}

/// States that a service that shares a store lets a request in that a client built, if the request
/// may be accepted as in `built_is_accepted`, and no service has asked the store for its stamp,
/// whatever became of the answer. The stamp has the names of the ticket's service and client, and
/// the client's moment.
///
/// Clause `new` says this of one question: the service accepts the request, and if the store hasn't
/// got the stamp, the store can only say that it is new. Clause `let_in` says it of everything that
/// has happened at the store: if no service has asked for the stamp, and the store didn't have it at
/// first, then the service may ask next, and lets the request in unless its clock shows after the
/// answer that it is too late. The store's clock doesn't matter for this.
pub fn built_is_let_in()
    ensures new { (setup : Setup) (history : List Arrival) (moment : ℤ) (bytes : List ℕ) (built : Built setup bytes)
        (store : List Stamp) (events : List StoreEvent)
        → MayBeTaken setup history moment built.at built.ticket built.part → ¬ Has store events (built_stamp built)
        → (taken : Taken) × Accept setup history (arrival bytes moment) taken × Agrees taken built.awaited
        × ((is_new : Bool) → SaysNew store events (taken_stamp taken) is_new → IsTrue is_new) }
    ensures let_in { (setup : Setup) (history : List Arrival) (moment : ℤ) (bytes : List ℕ) (built : Built setup bytes)
        (skew : ℕ) (store : List Stamp) (events : List StoreEvent)
        → MayBeTaken setup history moment built.at built.ticket built.part → Share skew store events
        → ¬ IsOf store (built_stamp built) → ¬ AskedAmong events (built_stamp built)
        → (taken : Taken) × Agrees taken built.awaited
        × IsLetInNext skew store events (asked_by setup history (arrival bytes moment) taken) (built_stamp built) }
{
    facts();
}

/// States that a client that agrees to a reply and the service hold the same, whatever the network
/// loses, repeats or reorders, whatever others send to the service, and however often the service
/// is started again. For that request the service holds something, and everything that it holds for
/// it agrees with the client.
///
/// `specs/World` says what may happen. Only what the two sent to each other reaches the client, and
/// no reply to what others sent. No two requests are of the same microsecond. There is at most one
/// reply for each acceptance. The keytab stays the same, no start is earlier than the moment of a
/// call before, and no skew is smaller. The key that the keytab has opens the credential's ticket
/// to its client and key.
///
/// Clause `each` says this of one request and one reply. Clause `once` doesn't presuppose the
/// ticket: no stamp is accepted twice by the service, before and after its starts together, and
/// what it holds of a request is one, as is its reply.
pub fn both_agree()
    ensures once { (setup : Setup) (credential : Credential) (events : List Event) (end : World)
        → Comes credential (nothing_yet setup) events end → IsHeldOnce setup end }
    ensures all { (setup : Setup) (credential : Credential) (ticket : ValueOf ticket_kind) (part : ValueOf enc_ticket_part) (events : List Event) (end : World)
        → HasTicket setup credential ticket part → Comes credential (nothing_yet setup) events end → BothAgree credential end }
    ensures each { (awaited : Awaited) (bytes : List ℕ) (agreement : Agreement)
        → IsAgreed awaited bytes agreement → IsHeldInEachWorld awaited bytes agreement }
{
    facts();
    krb_msg::laws::one_type();
}
