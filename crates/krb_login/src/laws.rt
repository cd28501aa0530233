//! Laws over the definitions, for proofs to cite. Each function does nothing: its contract is the
//! law. Each law begins with what [`Service::answer`](crate::Service::answer) says by its clause
//! `decided`.

ghost use Rattle.std.specs.Prelude.{◌≡◌, ◌≢◌, ℕ, ℤ, Bool, List, false, true};
ghost use Rattle.krb_ap.specs.declared.accepted.Accepted.{Accepted};
ghost use Rattle.krb_login.specs.Laws.{AnswersThat, Gives, IsIn, IsRightlyIn, SaysCompleted, SendsBack, ShowsWhatIsOpen, at_moment};
ghost use Rattle.krb_login.specs.Login.{Call, Decides};
ghost use Rattle.krb_login.specs.declared.decision.Decision.{Decision as DecisionValue};
ghost use Rattle.krb_login.specs.declared.decision.LetIn.{LetIn as LetInValue};
ghost use Rattle.krb_login.specs.declared.decision.Refused.{Refused as RefusedValue};
ghost use Rattle.krb_replay.specs.Stamp.{Stamp};
ghost use Rattle.krb_ap.specs.Setup.{Setup, Arrival};
ghost use Rattle.krb_ap.specs.Sharing.{Asked as Question, ClocksAgree, LetsInAmong, MayHappen, Outcome, SaysNew, Share, StoreEvent, asked_stamp, asks, forgets};
ghost use Rattle.krb_ap.specs.Taken.{Accept, Taken, taken_stamp};
ghost use Rattle.krb_ap.specs.World.{IsOf};
ghost use Rattle.krb_ap.specs.declared.reply.ReplyOptions.{ReplyOptions};
ghost use Rattle.krb_login.specs.Happening.{Happens, IsKnownOf, KeepsPromise, LetsInLast, question_of};
ghost use Rattle.krb_login.specs.Remembering.{IsFromBefore, StartsWith};
ghost use Rattle.krb_login.specs.Store.{IsWaiting, Settles};
ghost use Rattle.krb_login.specs.Waiting.{Waiting};
ghost use Rattle.krb_login.specs.declared.store.StoreSays.{StoreSays as StoreSaysValue};

use crate::decision::Decision;
use crate::store::StoreSays;

/// States that a decision gives a client and its keys only by right: the bytes hold a request that
/// is accepted and meets the terms, and an entry of the keytab opens its ticket, which names the
/// client. A client that is refused or asked for its next token gives neither.
pub fn only_by_right()
    ensures { (call : Call) (decision : DecisionValue) (accepted : Accepted)
        → Decides call decision → Gives decision accepted → IsRightlyIn call accepted }
{}

/// States that the reply to a client that awaits one answers the request that is let in, and no
/// other.
pub fn answers_that()
    ensures { (call : Call) (login : LetInValue)
        → Decides call (Decision.LetIn login) → login.accepted.mutual ≡ true → AnswersThat call login }
{
    krb_msg::laws::one_value();
    krb_enc::laws::one_plain_text();
    krb_keytab::laws::each_choice_is_one();
}

/// States that a refusal shows nothing that is sealed: one that a service decides by itself, and one
/// after a store has spoken.
pub fn shows_what_is_open()
    ensures decided { (call : Call) (refused : RefusedValue)
        → Decides call (Decision.Refused refused) → ShowsWhatIsOpen call refused }
    ensures settled { (call : Call) (waiting : Waiting) (said : StoreSaysValue) (looked : ℤ) (confounder : List ℕ) (choice : ReplyOptions) (refused : RefusedValue)
        → IsWaiting call waiting → Settles waiting said looked confounder choice (Decision.Refused refused)
        → ShowsWhatIsOpen (at_moment call looked) refused }
{}

/// States that what goes back says that a negotiation is completed only if the client is let in. If
/// the client awaits no reply, whatever goes back to it then says so. Both hold as well after a store
/// has spoken.
pub fn completed_if_let_in()
    ensures only { (call : Call) (decision : DecisionValue) (bytes : List ℕ)
        → Decides call decision → SendsBack decision bytes → SaysCompleted bytes → IsIn decision }
    ensures says { (call : Call) (login : LetInValue) (bytes : List ℕ)
        → Decides call (Decision.LetIn login) → login.accepted.mutual ≡ false → SendsBack (Decision.LetIn login) bytes
        → SaysCompleted bytes }
    ensures settled_only { (call : Call) (waiting : Waiting) (said : StoreSaysValue) (looked : ℤ) (confounder : List ℕ) (choice : ReplyOptions)
        (decision : DecisionValue) (bytes : List ℕ)
        → IsWaiting call waiting → Settles waiting said looked confounder choice decision
        → SendsBack decision bytes → SaysCompleted bytes → IsIn decision }
    ensures settled_says { (waiting : Waiting) (said : StoreSaysValue) (looked : ℤ) (confounder : List ℕ) (choice : ReplyOptions) (login : LetInValue) (bytes : List ℕ)
        → Settles waiting said looked confounder choice (Decision.LetIn login) → login.accepted.mutual ≡ false
        → SendsBack (Decision.LetIn login) bytes → SaysCompleted bytes }
{
    krb_gss::laws::verdict_said();
}

/// States what holds of a client that is let in by what a store says that several services share.
///
/// Clause `right`: it is let in as [`Service::answer`](crate::Service::answer) lets clients in, so the
/// laws about that hold, too. Clause `event`: by krb_ap's `specs/Sharing` a request of this stamp is
/// let in at the store. Clause `failed`: if the store failed, nobody is let in there. Clause `kept`:
/// if the store keeps its promise and the clocks agree, this may happen after what happened before.
/// Clause `once`: then no request of the same stamp was let in before, by any service that shares the
/// store. Clause `lost`: whatever a store did that failed, if it keeps its promise, that is among
/// what may happen.
pub fn let_in_by_a_store()
    ensures right { (call : Call) (waiting : Waiting) (said : StoreSaysValue) (looked : ℤ) (login : LetInValue)
        → IsWaiting call waiting → Settles waiting said looked call.confounder call.choice (Decision.LetIn login)
        → Decides call (Decision.LetIn login) }
    ensures event { (before after : List StoreEvent) (call : Call) (waiting : Waiting) (said : StoreSaysValue) (looked : ℤ)
        (confounder : List ℕ) (choice : ReplyOptions) (login : LetInValue)
        → (is : IsWaiting call waiting) → Settles waiting said looked confounder choice (Decision.LetIn login)
        → Happens (question_of call waiting is) said looked before after
        → LetsInLast before after waiting.stamp }
    ensures failed { (before after : List StoreEvent) (call : Call) (waiting : Waiting) (looked : ℤ) (stamp : Stamp)
        → (is : IsWaiting call waiting) → Happens (question_of call waiting is) StoreSays.Failed looked before after
        → ¬ LetsInLast before after stamp }
    ensures kept { (skew : ℕ) (store : List Stamp) (before after : List StoreEvent) (call : Call) (waiting : Waiting) (said : StoreSaysValue) (looked : ℤ)
        → (is : IsWaiting call waiting) → Happens (question_of call waiting is) said looked before after
        → KeepsPromise skew store (question_of call waiting is) before after
        → Share skew store before → Share skew store after }
    ensures once { (skew : ℕ) (store : List Stamp) (before after : List StoreEvent) (call : Call) (waiting : Waiting) (said : StoreSaysValue) (looked : ℤ)
        (confounder : List ℕ) (choice : ReplyOptions) (login : LetInValue)
        → (is : IsWaiting call waiting) → Settles waiting said looked confounder choice (Decision.LetIn login)
        → Happens (question_of call waiting is) said looked before after
        → KeepsPromise skew store (question_of call waiting is) before after
        → Share skew store before → ¬ LetsInAmong before waiting.stamp }
    ensures lost { (skew : ℕ) (store : List Stamp) (before : List StoreEvent) (call : Call) (waiting : Waiting) (is_new : Bool) (looked : ℤ)
        → (is : IsWaiting call waiting) → SaysNew store before (asked_stamp (question_of call waiting is)) is_new
        → ((at : ℤ) → IsOf before (forgets (asked_stamp (question_of call waiting is)) at) → ClocksAgree skew (question_of call waiting is) looked at)
        → (outcome : Outcome) × ((outcome.is_new ≡ is_new)
        × (IsKnownOf (question_of call waiting is) StoreSays.Failed looked outcome
        × MayHappen skew store before (asks (question_of call waiting is) outcome))) }
{
    krb_ap::laws::accepted_has_its_stamp();
    krb_ap::laws::a_store_lets_in_once();
}

/// States that services that start with their store accept no request that was let in before the
/// moment from which the store remembers: neither over another store, as one that was emptied or lost,
/// nor over none. Their start is that moment, or later by as much as their skew is smaller than the
/// largest of all services.
///
/// Nothing is presupposed of the service that let the request in but its skew and its clock: it may
/// have had another keytab, and the two may run side by side up to that moment. Later on, no service
/// may be left that uses another store; [`let_in_by_a_store`] says what holds of those that share
/// this one.
pub fn a_store_starts_its_services()
    ensures { (from : ℤ) (largest : ℕ) (old : Question) (setup : Setup) (history : List Arrival) (call : Arrival) (taken : Taken)
        → IsFromBefore from largest old → StartsWith from largest setup → Accept setup history call taken
        → taken_stamp taken ≢ asked_stamp old }
{}
