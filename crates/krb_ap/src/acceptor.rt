//! The service's side.

ghost use Rattle.std.specs.Prelude.{◌≡◌, ◌⊎◌, List, None, Some, [], IsErr, IsErrAnd, IfOk, IfErr, IsErrOf, IsTrue, map, MatchResult, OnOk, OnErr};
ghost use Rattle.std.specs.List.{AllZip};
ghost use Rattle.krb_ap.specs.Words.{Accept, AddsStamp, Arrival, AsksFor, AsksWithin, IsOrdinary, IsRecent, SameStamps, Stamp, Taken, arrival, later_of};
ghost use Rattle.krb_ap.specs.History.{IsShown, IsShownLately};
ghost use Rattle.krb_ap.specs.Service.{HeedsLimits, SameMemory, Stands};
ghost use Rattle.krb_ap.specs.Counting.{HeedsLimitsInAll};
ghost use Rattle.krb_ap.specs.Causes.{Cause, IsRemembered, TellsPlaceWithin, place};
ghost use Rattle.krb_ap.specs.Inner.GoingOn.{GoesOn, HeedsLimitsFor};
ghost use Rattle.krb_ap.specs.Answer.{Answers, Served, after, arrival_of, taken_of};
ghost use Rattle.krb_ap.specs.Once.{TakesAmong, TakesOnce};
ghost use Rattle.krb_ap.specs.declared.refusal.Refusal.TheVariants.{OutOfMemory};

use crate::accepted::Accepted;
use crate::call::{Call, Outcome};
use crate::inner_laws::facts;
use crate::judging::Rules;
use crate::laws::no_stamp_twice;
use crate::refusal::Refusal;
use crate::session_keys::SessionKeys;
use crate::ticket_keys::TicketKeys;
use krb_keytab::Keytab;
use krb_msg::Moment;
use krb_replay::{ReplayMemory, Skew, Tuple};
use std::alloc::{AllocError, Global};
use std::marker::Model;

/// The service's side of the exchange (RFC 4120, section 3.2.3): a keytab, a skew and a memory of
/// seen requests.
///
/// It caches the keys that it derived from the service key and from the session key that it used
/// last, and the ticket that it opened last, with its plain text. So the next request with the same
/// ticket costs no derivation, and only its authenticator is opened. A contract sees the entries,
/// the skew and the start, by which the service decides, and the memory. Memory aside, no answer
/// depends on what is cached.
#[derive(Drop)]
pub struct Acceptor<M> {
    pub(crate) rules: Rules,
    pub(crate) tickets: TicketKeys,
    pub(crate) session: SessionKeys,
    pub(crate) memory: M,
}

impl<M> Model for Acceptor<M> {
    ghost use Rattle.krb_ap.specs.Service.{Service};

    ghost Value = { Service M };

    ghost view = { λ a. record { setup = a.rules; memory = a.memory } };
}

impl<M: ReplayMemory> Acceptor<M> {
    /// Makes a service that decides by `keytab` and `skew`, and remembers in `memory`.
    ///
    /// Use it only if every key in the keytab is new: no service has used one of them before, with
    /// this or any other software. Otherwise use [`Acceptor::started`], or recorded logins can be
    /// replayed: a request whose time was ahead by the skew stays acceptable for twice the skew (RFC
    /// 4120, section 3.2.3). It may also be used if all instances have always shared a store that
    /// lost nothing.
    ///
    /// Condition: the memory is new. It has no tuple (`len()` is 0), and was given no moment
    /// (`latest()` is `None`).
    pub fn new(keytab: Keytab, skew: Skew, memory: M) -> Acceptor<M>
        requires latest { M.newest memory ≡ None }
        requires empty { (stamp : Stamp) → M.has memory stamp → ⊥ }
        ensures setup { result.setup ≡ record { entries = keytab; skew = skew; start = None } }
        ensures memory { result.memory ≡ memory }
        ensures stands { Stands M.has M.newest result [] }
    {
        Acceptor::of(keytab, skew, memory, None)
    }

    /// Makes a service that is started again when its clock says `start`, and has forgotten what it
    /// accepted before.
    ///
    /// It is quiet at first: it refuses a request as `JustStarted` if the latest moment or the
    /// authenticator's time isn't later than `start` by more than the skew. So no request that was
    /// accepted before the start is accepted again, if the keytab is the same, no moment that was
    /// given before is later than `start`, and the skew isn't smaller than it was (RFC 4120,
    /// section 3.2.3). The start doesn't count as a moment that was given: `latest()` of the memory
    /// is `None` until the first call.
    ///
    /// Condition: the memory is new, as for [`Acceptor::new`].
    pub fn started(keytab: Keytab, skew: Skew, memory: M, start: Moment) -> Acceptor<M>
        requires latest { M.newest memory ≡ None }
        requires empty { (stamp : Stamp) → M.has memory stamp → ⊥ }
        ensures setup { result.setup ≡ record { entries = keytab; skew = skew; start = Some start } }
        ensures memory { result.memory ≡ memory }
        ensures stands { Stands M.has M.newest result [] }
    {
        Acceptor::of(keytab, skew, memory, Some(start))
    }

    fn of(keytab: Keytab, skew: Skew, memory: M, start: Option<Moment>) -> Acceptor<M>
        ensures setup { result.setup ≡ record { entries = keytab; skew = skew; start = start } }
        ensures memory { result.memory ≡ memory }
    {
        Acceptor {
            rules: Rules {
                keytab,
                skew,
                start,
            },
            tickets: TicketKeys::new(),
            session: SessionKeys::default(),
            memory,
        }
    }

    /// Returns the memory.
    pub fn memory(&self) -> &M
        ensures { result.now ≡ self.now.memory }
    {
        &self.memory
    }

    /// Returns how much clocks may differ.
    pub fn skew(&self) -> Skew
        ensures { result ≡ self.now.setup.skew }
    {
        self.rules.skew
    }

    /// Decides whether a request is accepted (RFC 4120, section 3.2.3), and remembers what it must
    /// to recognize a repeat.
    ///
    /// `now` is the service's clock. Time doesn't go back: the latest moment given so far is the
    /// one that counts. After each answer but `OutOfMemory` it is the memory's latest moment. A
    /// request is remembered if it is accepted, if it is refused after the look-up of a repeat, and
    /// if it is refused as `JustStarted`.
    ///
    /// # Errors
    /// The first cause of [`Refusal`] that applies, in our own order; or `OutOfMemory`, and then
    /// nothing has changed but the memory's count of what it refused for a limit, if it reached one.
    pub fn accept(&mut self, alloc: Global, bytes: &[u8], now: Moment) -> Result<Accepted, Refusal>
        ensures setup { self.new.setup ≡ self.old.setup }

        // For each history that the memory stands for: accepted as defined, or the first cause; and what it stands for afterwards.
        ensures answer { (history : List Arrival) → Stands M.has M.newest self.old history
            → Answers self.old.setup history (arrival bytes.now now) result }
        ensures goes_on { (history : List Arrival) → Stands M.has M.newest self.old history
            → Stands M.has M.newest self.new (after history (arrival bytes.now now) result) }

        // What is accepted by the definition is accepted with just that, and what has a cause is refused for it, memory aside.
        ensures taken { (history : List Arrival) (taken : Taken) → Stands M.has M.newest self.old history
            → Accept self.old.setup history (arrival bytes.now now) taken
            → MatchResult result (λ x. taken_of x ≡ taken) (λ r. r ≡ OutOfMemory) }
        ensures refused { (history : List Arrival) (cause : Refusal) → Stands M.has M.newest self.old history
            → Cause self.old.setup history (arrival bytes.now now) cause
            → IsErrAnd result (λ r. (place r ≡ place cause) ⊎ (r ≡ OutOfMemory)) }

        // A memory that keeps all has exactly what was shown, and one that forgets exactly what of that is recent.
        ensures keeps { IsTrue M.KEEPS → (history : List Arrival) → Stands M.has M.newest self.old history
            → SameStamps (IsShown self.old.setup history) (M.has self.old.memory)
            → SameStamps (IsShown self.old.setup (after history (arrival bytes.now now) result)) (M.has self.new.memory) }
        ensures forgets { IsTrue M.FORGETS → (history : List Arrival) → Stands M.has M.newest self.old history
            → (IsErrOf result OutOfMemory → ⊥)
            → SameStamps (IsShownLately self.old.setup (after history (arrival bytes.now now) result)) (M.has self.new.memory) }

        // The service is the one that the ticket is for, whatever the memory stands for.
        ensures service { IfOk result (λ accepted. AsksFor bytes.now accepted.service) }

        // Each answer but out of memory, refusals too, moves the latest moment to the one that counts; time doesn't go back.
        ensures moves { (IsErrOf result OutOfMemory → ⊥)
            → M.newest self.new.memory ≡ Some (later_of (M.newest self.old.memory) now) }

        // The offset in a refusal is that of one of the bytes, or their end.
        ensures offset { IfErr result (TellsPlaceWithin bytes.now) }

        // A request that the memory hasn't yet is answered with out of memory if it is past a limit. No other is counted as
        // refused for a limit, and only the first limit that is reached counts it. One that is refused for a cause that isn't
        // remembered, as a repeat, isn't counted.
        ensures limit { (history : List Arrival) → Stands M.has M.newest self.old history
            → HeedsLimits (M.has self.old.memory) (M.limits self.old.memory) (M.refusals self.old.memory) (M.refusals self.new.memory)
            self.old.setup history (arrival bytes.now now) (IsErrOf result OutOfMemory) }
        ensures uncounted { (history : List Arrival) (cause : Refusal) → Stands M.has M.newest self.old history
            → Cause self.old.setup history (arrival bytes.now now) cause
            → ¬ IsRemembered cause
            → M.refusals self.new.memory ≡ M.refusals self.old.memory }
        ensures limits { M.limits self.new.memory ≡ M.limits self.old.memory }

        // Out of memory is answered for requests of the ordinary kind alone, and not if the name of the service is larger than
        // each name of the keytab. It changes no stamp and no latest moment: only the count of a limit may go up.
        ensures memory { IsErrOf result OutOfMemory → IsOrdinary bytes.now }
        ensures size { IsErrOf result OutOfMemory → AsksWithin self.old.setup bytes.now }
        ensures unchanged { IsErrOf result OutOfMemory → SameMemory M.has M.newest self.old.memory self.new.memory }
    {
        facts();
        self.decide(alloc, bytes, now)
    }

    /// Decides calls one after another, as `accept` does, and returns their outcomes in the same
    /// order.
    ///
    /// Memory for all outcomes is allocated before the first call. A call that is answered with
    /// `OutOfMemory` changes nothing but the count of a limit, and the next call is decided all the
    /// same.
    ///
    /// # Errors
    /// `AllocError`: memory runs out for the outcomes. No call was made.
    pub fn serve(&mut self, alloc: Global, calls: &[Call]) -> Result<Vec<Outcome>, AllocError>
        ensures setup { self.new.setup ≡ self.old.setup }

        // Each outcome is right after the calls before it, for each history that the memory stands for; and what it stands for then.
        ensures served { (history : List Arrival) → Stands M.has M.newest self.old history
            → IfOk result (λ outcomes. Served M.KEEPS M.FORGETS self.old.setup history (map arrival_of calls.now) outcomes.items
            (M.has self.old.memory) (M.has self.new.memory) (M.newest self.new.memory)) }
        // No two requests of one stamp (names of service and client, and the client's time) are accepted.
        ensures once { (history : List Arrival) → Stands M.has M.newest self.old history
            → IfOk result (λ outcomes. TakesOnce self.old.setup (map arrival_of calls.now) outcomes.items) }
        // Nor is one of a stamp that was shown before.
        ensures before { (history : List Arrival) (stamp : Stamp) → Stands M.has M.newest self.old history
            → IsShown self.old.setup history stamp
            → IfOk result (λ outcomes. ¬ TakesAmong self.old.setup (map arrival_of calls.now) outcomes.items stamp) }

        // Each outcome meets these clauses of `accept`.
        ensures offset { IfOk result (λ outcomes.
            AllZip (λ call outcome. IfErr outcome (TellsPlaceWithin call.bytes)) (map arrival_of calls.now) outcomes.items) }
        ensures memory { IfOk result (λ outcomes.
            AllZip (λ call outcome. IsErrOf outcome OutOfMemory → IsOrdinary call.bytes) (map arrival_of calls.now) outcomes.items) }
        ensures size { IfOk result (λ outcomes.
            AllZip (λ call outcome. IsErrOf outcome OutOfMemory → AsksWithin self.old.setup call.bytes) (map arrival_of calls.now) outcomes.items) }
        ensures service { IfOk result (λ outcomes.
            AllZip (λ call outcome. IfOk outcome (λ accepted. AsksFor call.bytes accepted.service)) (map arrival_of calls.now) outcomes.items) }

        // Each request heeds the limits, as `accept` says it, and the counts go on from one call to the next. One that is
        // refused for a cause that isn't remembered isn't counted.
        ensures limit { (history : List Arrival) → Stands M.has M.newest self.old history
            → IfOk result (λ outcomes. HeedsLimitsInAll (M.limits self.old.memory) (M.refusals self.old.memory) (M.refusals self.new.memory)
            self.old.setup history (map arrival_of calls.now) outcomes.items) }
        ensures limits { M.limits self.new.memory ≡ M.limits self.old.memory }

        // If memory runs out for the outcomes, nothing has changed.
        ensures none { OnErr result (self.new ≡ self.old) }
    {
        facts();
        no_stamp_twice();
        let mut outcomes = Vec::with_capacity(alloc, calls.len())?;
        for call in calls {
            let outcome = self.accept(alloc, call.bytes, call.now);
            outcomes.push_reserved(outcome);
        }
        Ok(outcomes)
    }

    fn decide(&mut self, alloc: Global, bytes: &[u8], now: Moment) -> Result<Accepted, Refusal>
        ensures setup { self.new.setup ≡ self.old.setup }
        ensures answer { (history : List Arrival) → Stands M.has M.newest self.old history
            → Answers self.old.setup history (arrival bytes.now now) result }
        ensures goes_on { (history : List Arrival) → Stands M.has M.newest self.old history
            → GoesOn M.KEEPS M.FORGETS self.old.setup self.new.setup history (after history (arrival bytes.now now) result)
            (M.has self.old.memory) (M.has self.new.memory) (M.newest self.new.memory) (IsErrOf result OutOfMemory) }
        ensures moves { (IsErrOf result OutOfMemory → ⊥)
            → M.newest self.new.memory ≡ Some (later_of (M.newest self.old.memory) now) }
        ensures offset { IfErr result (TellsPlaceWithin bytes.now) }
        ensures memory { IsErrOf result OutOfMemory → AsksWithin self.old.setup bytes.now }
        ensures service { IfOk result (λ accepted. AsksFor bytes.now accepted.service) }
        ensures limit { (history : List Arrival) → Stands M.has M.newest self.old history
            → HeedsLimits (M.has self.old.memory) (M.limits self.old.memory) (M.refusals self.old.memory) (M.refusals self.new.memory)
            self.old.setup history (arrival bytes.now now) (IsErrOf result OutOfMemory) }
        ensures limits { M.limits self.new.memory ≡ M.limits self.old.memory }
        ensures unchanged { IsErrOf result OutOfMemory → SameMemory M.has M.newest self.old.memory self.new.memory }
    {
        facts();
        let now = self.effective(now);
        let judged = match self.judge(alloc, bytes, now) {
            Ok(judged) => judged,
            Err(refusal) => {
                if let Refusal::OutOfMemory = refusal {
                    return Err(refusal);
                }
                self.advance(now);
                return Err(refusal);
            }
        };
        match self.remember(judged.tuple, now) {
            Ok(()) => {
                self.advance(now);
                judged.answer
            }
            Err(_) => Err(Refusal::OutOfMemory),
        }
    }

    // The moment that counts.
    fn effective(&self, now: Moment) -> Moment
        ensures { result ≡ later_of (M.newest self.now.memory) now }
    {
        match self.memory.latest() {
            Some(latest) if now <= latest => latest,
            _ => now,
        }
    }

    #[inline(never)]
    fn remember(&mut self, tuple: Tuple, now: Moment) -> Result<(), AllocError>
        ensures setup { self.new.setup ≡ self.old.setup }
        ensures newest { M.newest self.new.memory ≡ M.newest self.old.memory }
        ensures ok { OnOk result (AddsStamp (M.has self.old.memory) (M.has self.new.memory) tuple) }
        ensures err { OnErr result (SameStamps (M.has self.old.memory) (M.has self.new.memory)) }
        ensures heeds { HeedsLimitsFor (M.has self.old.memory) (M.limits self.old.memory) (M.refusals self.old.memory) (M.refusals self.new.memory)
            self.old.setup (later_of (M.newest self.old.memory) now) tuple (IsErr result) }
        ensures limits { M.limits self.new.memory ≡ M.limits self.old.memory }
    {
        self.memory.expect(now, self.rules.skew);
        self.memory.remember(tuple)
    }

    #[inline(never)]
    fn advance(&mut self, now: Moment)
        ensures setup { self.new.setup ≡ self.old.setup }
        ensures newest { M.newest self.new.memory ≡ Some (later_of (M.newest self.old.memory) now) }
        ensures none_added { (stamp : Stamp) → M.has self.new.memory stamp → M.has self.old.memory stamp }
        ensures kept { (stamp : Stamp) → M.has self.old.memory stamp
            → IsRecent (later_of (M.newest self.old.memory) now) self.old.setup.skew stamp → M.has self.new.memory stamp }
        ensures keeps { IsTrue M.KEEPS → SameStamps (M.has self.old.memory) (M.has self.new.memory) }
        ensures forgets { IsTrue M.FORGETS → (stamp : Stamp) → M.has self.new.memory stamp
            → IsRecent (later_of (M.newest self.old.memory) now) self.old.setup.skew stamp }
        ensures limits { M.limits self.new.memory ≡ M.limits self.old.memory }
        ensures refusals { M.refusals self.new.memory ≡ M.refusals self.old.memory }
    {
        self.memory.advance(now, self.rules.skew);
    }
}
