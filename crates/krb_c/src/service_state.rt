//! What a service's handle holds.

ghost use Rattle.krb_c.specs.Answer.{plain};
ghost use Rattle.std.specs.Prelude.{IsTrue, List, ℕ, false, ◌≡◌, ◌↔◌, ◌⊎◌};
ghost use Rattle.krb_ap.specs.Setup.{arrival};
ghost use Rattle.krb_c.specs.Service.{Decides, DecidesAlone, TellsLatest, TellsUsage, cleared, full_of, kept_by, latest_of, refused_by, told_of, with_refusal};
ghost use Rattle.krb_c.specs.Codes.{ok};
ghost use Rattle.krb_c.specs.Login.{AddsRealm, IsListed};
ghost use Rattle.krb_login.specs.Terms.{IsOfRealms};
ghost use Rattle.krb_c.specs.Refusal.{TellsError};
ghost use Rattle.krb_c.specs.Renewal.{Renews};

use crate::accepted_state::AcceptedState;
use crate::answer::hand_over;
use crate::code;
use crate::error::error_of;
use crate::service_options::{is_named, served};
use crate::structs::{Answer, Time, Usage};
use krb_ap::{Accepted, Refusal};
use krb_login::{Realms, Service};
use krb_msg::Moment;
use krb_name::Bytes;
use krb_replay::{LimitedMemory, ReplayMemory, TimedMemory};
use std::alloc::Global;
use std::mem::replace;

/// A service that accepts requests, and why it refused the last one, if it did.
#[derive(Drop)]
pub struct ServiceState {
    /// Decides, and has the terms that a login must meet.
    pub service: Service<LimitedMemory<TimedMemory>>,
    /// The encryption type of the subkey that a login's reply sends, or 0 for none.
    pub subkey_type: u32,
    /// Whether it shares a store of stamps, which it asks before it lets a client in.
    pub is_shared: bool,
    /// Why the last request was refused that `fevstunik_acceptor_accept` was given.
    pub refusal: Option<Refusal>,
}

impl ServiceState {
    /// Decides about a request, unless a store has to be asked.
    pub(crate) fn accept(
        &mut self,
        alloc: Global,
        kept: &mut AcceptedState,
        bytes: &[u8],
        now: Moment,
    ) -> Answer
        ensures decides { DecidesAlone self.old.is_shared self.old self.new (arrival bytes.now now) kept.new.accepted result }
        ensures sent { kept.new.has_sent ≡ false }
    {
        if self.is_shared {
            self.clear();
            kept.clear();
            return Answer::plain(code::SHARED);
        }
        self.decide(alloc, kept, bytes, now)
    }

    // Decides about a request, and keeps what is accepted, or why it is refused.
    fn decide(
        &mut self,
        alloc: Global,
        kept: &mut AcceptedState,
        bytes: &[u8],
        now: Moment,
    ) -> Answer
        ensures decides { Decides self.old self.new (arrival bytes.now now) kept.new.accepted result }
        ensures sent { kept.new.has_sent ≡ false }
    {
        let full = self.service.acceptor.memory().refused();
        let outcome = self.service.acceptor.accept(alloc, bytes, now);
        self.keep(kept, outcome, full)
    }

    // `full` is how many requests had been refused for a limit before this one.
    fn keep(
        &mut self,
        kept: &mut AcceptedState,
        outcome: Result<Accepted, Refusal>,
        full: u64,
    ) -> Answer
        ensures state { self.new ≡ with_refusal self.old (refused_by outcome) }
        ensures kept { kept.new ≡ kept_by outcome }
        ensures answer { result ≡ told_of full (full_of self.old) outcome }
    {
        match outcome {
            Ok(accepted) => {
                kept.accepted = Some(accepted);
                kept.has_sent = false;
                self.refusal = None;
                Answer::plain(code::OK)
            }
            Err(refusal) => {
                kept.clear();
                self.refusal = Some(refusal);
                match refusal {
                    Refusal::OutOfMemory if self.service.acceptor.memory().refused() != full => {
                        Answer::plain(code::FULL)
                    }
                    _ => Answer::refused(&refusal),
                }
            }
        }
    }

    /// Discards why the last request was refused.
    pub(crate) fn clear(&mut self)
        ensures { self.new ≡ cleared self.old }
    {
        self.refusal = None;
    }

    /// Returns the latest moment, if there is one.
    pub(crate) fn tell_latest(&self, latest: &mut Time) -> Answer
        ensures { TellsLatest (latest_of self.now) latest.old latest.new result }
    {
        match self.service.acceptor.memory().latest() {
            Some(moment) => {
                *latest = Time::of(moment);
                Answer::plain(code::OK)
            }
            None => Answer::plain(code::NOTHING_THERE),
        }
    }

    /// Returns how much is remembered, and the limits.
    pub(crate) fn usage(&self) -> Usage
        ensures { TellsUsage self.now result (plain ok) }
    {
        let memory = self.service.acceptor.memory();
        Usage {
            remembered: memory.len(),
            held: memory.memory().held(),
            bytes: memory.memory().bytes(),
            limit: memory.limit(),
            limit_for_client: memory.limit_for_client(),
            full: memory.refused() as usize,
        }
    }

    /// Builds the error that says why the last request was refused.
    pub(crate) fn error(
        &self,
        alloc: Global,
        service: &[u8],
        name_type: i32,
        now: &Time,
        buffer: &mut [u8],
    ) -> Answer
        ensures { TellsError self.now.refusal service.now name_type now.now buffer.old buffer.new result }
    {
        match &self.refusal {
            Some(refusal) => match error_of(alloc, refusal, service, name_type, now) {
                Ok(bytes) => hand_over(bytes.as_slice(), buffer),
                Err(answer) => answer,
            },
            None => Answer::plain(code::NOTHING_THERE),
        }
    }

    /// Takes the keytab's entries of the wanted service in place of its own.
    pub(crate) fn renew(
        &mut self,
        alloc: Global,
        keytab: &[u8],
        service: &[u8],
        any_name: bool,
    ) -> Answer
        ensures { Renews any_name service.now keytab.now self.old self.new result }
    {
        if !is_named(any_name, service) {
            return Answer::plain(code::NO_NAME);
        }
        match served(alloc, keytab, service) {
            Ok(keytab) => {
                let _old = self.service.acceptor.replace_keytab(keytab);
                Answer::plain(code::OK)
            }
            Err(answer) => answer,
        }
    }

    /// Adds a realm to those whose clients are let in.
    pub(crate) fn add_realm(&mut self, alloc: Global, realm: &[u8]) -> Answer
        ensures { AddsRealm realm.now self.old self.new result }
    {
        let Ok(realm) = Bytes::from_slice(alloc, realm) else {
            return Answer::plain(code::OUT_OF_MEMORY);
        };
        let realms = replace(&mut self.service.terms.realms, Realms::Any);
        let (realms, is_added) = with_realm(alloc, realms, realm);
        self.service.terms.realms = realms;
        if is_added {
            Answer::plain(code::OK)
        } else {
            Answer::plain(code::OUT_OF_MEMORY)
        }
    }
}

// The realms with one more, and whether there was memory for it.
fn with_realm(alloc: Global, realms: Realms, realm: Bytes) -> (Realms, bool)
    ensures added { IsTrue result.1
        → (other : List ℕ) → IsOfRealms result.0 other ↔ ((other ≡ realm) ⊎ IsListed realms other) }
    ensures no_room { ¬ IsTrue result.1 → (other : List ℕ) → IsOfRealms result.0 other ↔ IsOfRealms realms other }
{
    match realms {
        Realms::Any => {
            let mut list = Vec::new(alloc);
            match list.push(realm) {
                Ok(()) => (Realms::Only(list), true),
                Err(_) => (Realms::Any, false),
            }
        }
        Realms::Only(mut list) => {
            let is_added = list.push(realm).is_ok();
            (Realms::Only(list), is_added)
        }
    }
}
