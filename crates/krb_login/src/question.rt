//! A login in two steps: a store of stamps that several services share is asked between them.

ghost use Rattle.std.specs.Prelude.{◌≡◌, ◌↔◌, List, ℕ, IfOk, IsTrue, OnErr, SomeIff};
ghost use Rattle.krb_replay.specs.Bytes.{IsBytesOf};
ghost use Rattle.krb_replay.specs.Keeping.{kept_until};
ghost use Rattle.krb_time.specs.Moments.{IsMoment};
ghost use Rattle.krb_login.specs.Login.{IsRefusedSo};
ghost use Rattle.krb_login.specs.Store.{AsksFor, IsHeldOf, IsInTime, IsAskable, SaysOf, Settles, SettlesBy, SettlesNew};

use crate::asked::{Asked, asked_by};
use crate::carrier::Carrier;
use crate::cause::Cause;
use crate::decision::{Decision, LetIn, Refused};
use crate::response::{answer_of, out_of_memory, refused_as};
use crate::store::{Store, StoreSays};
use krb_ap::{Accepted, Refusal, ReplyOptions};
use krb_msg::Moment;
use krb_replay::{Skew, Tuple};
use std::alloc::{AllocError, Global};
use std::marker::Model;

/// What a service does that shares a store of stamps: it has decided, or asks the store first.
#[derive(Drop)]
pub enum Step {
    /// The client isn't let in: it is asked for its next token, or refused.
    Decided(Decision),
    /// The client is let in if the store says that its stamp is new, and it isn't too late then.
    Ask(Asking),
}

/// What is known of a client that may be let in. None of it can be read before the store has spoken,
/// but what the store is asked. There is no `Debug`, so no log shows a key.
#[derive(Drop)]
pub struct Asking {
    accepted: Accepted,
    asked: Option<Asked>,
    carrier: Carrier,
    tuple: Tuple,
    skew: Skew,
}

impl Model for Asking {
    ghost use Rattle.krb_login.specs.Waiting.{Waiting};

    ghost Value = { Waiting };

    ghost view = { λ a. record {
      accepted = a.accepted;
      asked = a.asked;
      carrier = a.carrier;
      stamp = a.tuple;
      skew = a.skew;
    } };
}

impl Asking {
    /// Keeps what is known of an accepted request, which came in a carrier.
    pub(crate) fn of(
        alloc: Global,
        carrier: Carrier,
        request: &[u8],
        accepted: Accepted,
        skew: Skew,
    ) -> Result<Asking, AllocError>
        ensures { IfOk result (IsHeldOf carrier request.now accepted skew) }
    {
        let asked = asked_by(alloc, request)?;
        let tuple = accepted.tuple(alloc)?;
        Ok(Asking {
            accepted,
            asked,
            carrier,
            tuple,
            skew,
        })
    }

    /// Returns the stamp to ask the store for, as one string of bytes (`krb_replay::Tuple::to_bytes`):
    /// the names of service and client, and the client's time.
    ///
    /// # Errors
    /// `AllocError`: there is no memory for the bytes.
    pub fn stamp(&self, alloc: Global) -> Result<Vec<u8>, AllocError>
        ensures { IfOk result (λ bytes. IsBytesOf self.now.stamp bytes.items) }
    {
        self.tuple.to_bytes(alloc)
    }

    /// Returns the last moment at which the store must still have the stamp, by its own clock: the
    /// client's time plus twice the service's skew. Returns `None` if that is after the year 9999.
    ///
    /// If another service with a larger skew shares the store, the stamp must be kept longer, by
    /// twice the difference.
    pub fn keep_until(&self) -> Option<Moment>
        ensures { SomeIff result (IsMoment (kept_until self.now.stamp self.now.skew)) (kept_until self.now.stamp self.now.skew) }
    {
        self.tuple.keep_until(self.skew)
    }

    /// Decides by what the store said, and makes what goes back to the client.
    ///
    /// `now` is the service's clock, read after the store has spoken. `confounder` is 16 random
    /// bytes, new for each call, and `choice` is what the service chooses for a reply.
    ///
    /// The client is let in if its stamp is new and `now` isn't later than its time by more than the
    /// skew. It is refused as `Skew` if it is too late, as `Repeat` if the store knows the stamp, and
    /// as `StoreFailed` if the store didn't answer.
    #[inline(never)]
    pub fn settle(
        self,
        alloc: Global,
        said: StoreSays,
        now: Moment,
        confounder: &[u8; 16],
        choice: ReplyOptions,
    ) -> Decision
        ensures { Settles self said now confounder.now choice result }
    {
        match said {
            StoreSays::New => {
                if self.is_in_time(now) {
                    return self.let_in(alloc, confounder, choice);
                }
                let cause = Cause::Request(Refusal::Skew);
                Decision::Refused(self.refuse(alloc, now, cause, &Refusal::Skew))
            }
            StoreSays::Known => {
                let cause = Cause::Request(Refusal::Repeat);
                Decision::Refused(self.refuse(alloc, now, cause, &Refusal::Repeat))
            }
            StoreSays::Failed => {
                let cause = Cause::StoreFailed;
                Decision::Refused(self.refuse(alloc, now, cause, &Refusal::Authorization))
            }
        }
    }

    /// Asks the store for the stamp, looks at the clock after that, and decides.
    pub(crate) fn settle_by<S: Store>(
        self,
        alloc: Global,
        store: &mut S,
        confounder: &[u8; 16],
        choice: ReplyOptions,
    ) -> Decision
        ensures { SettlesBy S.adds S.shows self store.old confounder.now choice result store.new }
    {
        let Ok(said) = self.add_to(alloc, store) else {
            return Decision::Refused(out_of_memory());
        };
        let now = store.now();
        self.settle(alloc, said, now, confounder, choice)
    }

    // Asks the store for the stamp. It can't be asked if no moment is the last at which it must have it.
    fn add_to<S: Store>(&self, alloc: Global, store: &mut S) -> Result<StoreSays, AllocError>
        ensures said { IfOk result (λ said. SaysOf S.adds self.now store.old said store.new) }
        ensures memory { OnErr result (IsAskable self.now × (store.new ≡ store.old)) }
    {
        let Some(keep_until) = self.keep_until() else {
            return Ok(StoreSays::Failed);
        };
        let stamp = self.stamp(alloc)?;
        Ok(store.add(stamp.as_slice(), keep_until))
    }

    fn is_in_time(&self, now: Moment) -> bool
        ensures { IsTrue result ↔ IsInTime self.now now }
    {
        now.micros() <= self.tuple.time().micros() + self.skew.micros()
    }

    #[inline(always)]
    fn let_in(self, alloc: Global, confounder: &[u8; 16], choice: ReplyOptions) -> Decision
        ensures { SettlesNew self confounder.now choice result }
    {
        match answer_of(alloc, self.carrier, &self.accepted, confounder, choice) {
            Ok(answer) => Decision::LetIn(LetIn {
                accepted: self.accepted,
                answer,
            }),
            Err(_) => Decision::Refused(out_of_memory()),
        }
    }

    #[inline(always)]
    fn refuse(self, alloc: Global, now: Moment, cause: Cause, refusal: &Refusal) -> Refused
        ensures cause { result.cause ≡ cause }
        ensures asked { result.asked ≡ self.asked }
        ensures so { (request : List ℕ) → AsksFor self request → IsRefusedSo now self.carrier request refusal.now result }
    {
        refused_as(alloc, self.carrier, self.asked, now, cause, refusal)
    }
}
