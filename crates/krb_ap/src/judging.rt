//! What a service decides about a request, before it remembers or answers anything.

ghost use Rattle.std.specs.Prelude.{◌≡◌, ◌↔◌, ℕ, IfErr, IfOk, IsErrOf, IsFalse, IsTrue, List, MatchOption, OnOk};
ghost use Rattle.krb_ap.specs.Words.{Asks, AsksFor, AsksWithin, IsChoice, IsNoLarger, IsUsable, ap_req_of, authenticator_of, chosen, enc_ticket_part_of, encrypted_fields, encrypted_of, entry_key, sent_at, service_of, ticket_of, ticket_service};
ghost use Rattle.krb_ap.specs.Quiet.{Settled};
ghost use Rattle.krb_ap.specs.Inner.Judging.{IsDecrypted, IsNamed, IsPlacedWithin, JudgedBy, Judges};
ghost use Rattle.krb_ap.specs.Inner.Stages.{AnswersNew, IsInTime, RefusesNew, Wants, key_in};
ghost use Rattle.krb_ap.specs.declared.refusal.Refusal.TheVariants.{OutOfMemory};

use crate::accepted::Accepted;
use crate::acceptor::Acceptor;
use crate::inner_laws::facts;
use crate::keys::is_usable;
use crate::opened::{Opened, sent_at};
use crate::opening::{
    client, is_larger, is_of_type, read_authenticator, read_request, read_ticket, require, service,
};
use crate::refusal::Refusal;
use crate::times::{is_near, is_past, is_same_client, refusal_of_times};
use krb_keytab::{Entry, Keytab, Picked};
use krb_msg::{ApReqRef, EncTicketRef, EncryptedRef, Moment, Principal, TicketRef};
use krb_replay::{ReplayMemory, Skew, Tuple};
use std::alloc::Global;
use std::marker::Model;

/// A request that is to be remembered, and the answer to it.
#[derive(Drop)]
pub(crate) struct Judged {
    pub(crate) tuple: Tuple,
    pub(crate) answer: Result<Accepted, Refusal>,
}

/// A request whose authenticator is decrypted, at the moment that counts.
#[derive(Drop)]
struct Decrypted<'a> {
    request: &'a ApReqRef<'a>,
    part: &'a EncTicketRef<'a>,
    plain: &'a [u8],
    at: Moment,
}

/// What a service decides by.
#[derive(Drop)]
pub(crate) struct Rules {
    pub(crate) keytab: Keytab,
    pub(crate) skew: Skew,
    // When the service was started again, if it had an earlier life.
    pub(crate) start: Option<Moment>,
}

impl Model for Rules {
    ghost use Rattle.krb_ap.specs.Setup.{Setup};

    ghost Value = { Setup };

    ghost view = { λ r. record { entries = r.keytab; skew = r.skew; start = r.start } };
}

impl<M: ReplayMemory> Acceptor<M> {
    /// What to remember of a request, and the answer to it; or why it is refused without being
    /// remembered. `now` is the moment that counts.
    ///
    /// These are the causes of [`Refusal`] in their order.
    pub(crate) fn judge(
        &mut self,
        alloc: Global,
        bytes: &[u8],
        now: Moment,
    ) -> Result<Judged, Refusal>
        ensures same { self.new ≡ self.old }
        ensures judged { JudgedBy M.has M.newest self.old bytes.now now result }
        ensures named { IsNamed result }
        ensures placed { IsPlacedWithin bytes.now result }
        ensures asks { IfOk result (λ _. AsksWithin self.old.setup bytes.now) }
        ensures memory { IsErrOf result OutOfMemory → AsksWithin self.old.setup bytes.now }
        ensures service { IfOk result (λ j. IfOk j.answer (λ x. AsksFor bytes.now x.service)) }
    {
        facts();
        krb_der::laws::within();
        let request = read_request(bytes)?;
        self.rules.check_size(&request.ticket)?;
        let server = service(alloc, &request.ticket)?;
        let entry = self.rules.chosen_entry(&server, &request.ticket.enc_part)?;
        self.tickets
            .open(alloc, entry, request.ticket.enc_part.cipher)?;
        let part = read_ticket(self.tickets.plain())?;
        require(is_usable(&part.key), Refusal::SessionKey)?;
        require(
            is_of_type(&request.authenticator, &part.key),
            Refusal::AuthenticatorIntegrity,
        )?;
        let plain = self
            .session
            .open(alloc, &part.key, request.authenticator.cipher)?;
        let decrypted = Decrypted {
            request: &request,
            part: &part,
            plain: plain.as_slice(),
            at: now,
        };
        self.rules
            .judge_decrypted(alloc, &decrypted, server, &self.memory)
    }
}

impl Rules {
    /// Refuses a ticket for a service whose name is larger than each of the keytab. It allocates no
    /// memory.
    #[inline(never)]
    fn check_size(&self, ticket: &TicketRef) -> Result<(), Refusal>
        ensures size { OnOk result (IsNoLarger self.now.entries (ticket_service (ticket_of ticket.now))) }
        ensures wanting { IfErr result (Wants self.now.entries (ticket_service (ticket_of ticket.now)) (encrypted_of ticket.now.enc_part)) }
    {
        if is_larger(ticket, self.keytab.largest_name()) {
            Err(Refusal::NotUs)
        } else {
            Ok(())
        }
    }

    /// The entry of the keytab whose key is used for a service's ticket. It allocates no memory.
    #[inline(never)]
    fn chosen_entry(&self, service: &Principal, sealed: &EncryptedRef) -> Result<&Entry, Refusal>
        ensures chosen { IfOk result (λ entry. IsChoice self.now.entries service.now
            (encrypted_fields (encrypted_of sealed.now)).etype (encrypted_fields (encrypted_of sealed.now)).kvno (chosen entry.now)) }
        ensures usable { IfOk result (λ entry. IsUsable (entry_key entry.now)) }
        ensures wanting { IfErr result (Wants self.now.entries service.now (encrypted_of sealed.now)) }
    {
        match self.keytab.pick(service, sealed.etype, sealed.kvno) {
            Picked::Entry(entry) => Ok(entry),
            Picked::NoName => Err(Refusal::NotUs),
            Picked::NoKey => Err(Refusal::NoKey),
            Picked::NoVersion => Err(Refusal::BadKeyVersion),
        }
    }

    // What to remember of a request that is decrypted, and the answer to it; or why it is refused
    // without being remembered. Its stack frame isn't there while keys are derived and texts opened.
    #[inline(never)]
    fn judge_decrypted<M: ReplayMemory>(
        &self,
        alloc: Global,
        decrypted: &Decrypted,
        server: Principal,
        memory: &M,
    ) -> Result<Judged, Refusal>
        requires usable { IsUsable (key_in decrypted.now.part.now.key) }
        requires server { server ≡ service_of (ap_req_of decrypted.now.request.now) }
        ensures judged { (bytes : List ℕ)
            → IsDecrypted self.now bytes (ap_req_of decrypted.now.request.now) (enc_ticket_part_of decrypted.now.part.now) decrypted.now.plain.now
            → Judges self.now (M.has memory.now) (M.newest memory.now) bytes decrypted.now.at result }
        ensures named { IsNamed result }
        ensures placed { (bytes : List ℕ) → IsPlacedWithin bytes result }
        ensures service { (bytes : List ℕ) → Asks bytes (ap_req_of decrypted.now.request.now)
            → IfOk result (λ j. IfOk j.answer (λ x. AsksFor bytes x.service)) }
    {
        facts();
        let now = decrypted.at;
        let auth = read_authenticator(decrypted.plain)?;
        require(is_same_client(decrypted.part, &auth), Refusal::BadMatch)?;
        require(is_near(sent_at(&auth), now, self.skew), Refusal::Skew)?;
        let opened = Opened {
            request: decrypted.request,
            part: decrypted.part,
            auth: &auth,
            server,
            client: client(alloc, decrypted.part)?,
        };
        let tuple = opened.tuple(alloc)?;
        require(self.is_new(&tuple, now, memory), Refusal::Repeat)?;
        self.judge_new(alloc, opened, tuple, now)
    }

    // Whether a request wasn't seen before. During the quiet start each one counts as new.
    fn is_new<M: ReplayMemory>(&self, tuple: &Tuple, now: Moment, memory: &M) -> bool
        ensures new { IsTrue result → Settled self.now now tuple.now.time → ¬ M.has memory.now tuple.now }
        ensures seen { IsFalse result → Settled self.now now tuple.now.time × M.has memory.now tuple.now }
    {
        !(self.is_settled(now, tuple.time()) && memory.contains(tuple))
    }

    /// What to remember of a new request, and the answer to it.
    #[inline(never)]
    fn judge_new(
        &self,
        alloc: Global,
        opened: Opened,
        tuple: Tuple,
        now: Moment,
    ) -> Result<Judged, Refusal>
        requires { IsUsable (key_in opened.part.now.key) }
        ensures tuple { IfOk result (λ j. j.tuple ≡ tuple) }
        ensures answer { IfOk result (λ j.
            AnswersNew self.now now (ap_req_of opened.entry.request.now) (enc_ticket_part_of opened.entry.part.now) (authenticator_of opened.entry.auth.now) j.answer) }
        ensures memory { IfErr result (λ refusal. refusal ≡ OutOfMemory) }
    {
        let answer = match self.refusal_of_new(&opened, now) {
            Some(refusal) => Err(refusal),
            None => Ok(opened.accepted(alloc)?),
        };
        Ok(Judged { tuple, answer })
    }

    // Why a new request is refused all the same, if it is.
    fn refusal_of_new(&self, opened: &Opened, now: Moment) -> Option<Refusal>
        ensures { MatchOption result
            (IsInTime self.now now (ap_req_of opened.now.request.now) (enc_ticket_part_of opened.now.part.now) (authenticator_of opened.now.auth.now))
            (RefusesNew self.now now (ap_req_of opened.now.request.now) (enc_ticket_part_of opened.now.part.now) (authenticator_of opened.now.auth.now)) }
    {
        if !self.is_settled(now, sent_at(opened.auth)) {
            return Some(Refusal::JustStarted);
        }
        refusal_of_times(opened, now, self.skew)
    }

    // Whether both the moment that counts and the client's are past the quiet start.
    fn is_settled(&self, now: Moment, sent: Moment) -> bool
        ensures { IsTrue result ↔ Settled self.now now sent }
    {
        is_past(self.start, now, self.skew) && is_past(self.start, sent, self.skew)
    }
}
