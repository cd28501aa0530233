//! The client's side: reading a reply.

ghost use Rattle.std.specs.Prelude.{◌≡◌, ◌≢◌, ◌≤◌, ◌↔◌, IfOk, IfErr, IfSome, IsTrue, OnOk, length, IsErrOf};
ghost use Rattle.krb_ap.specs.Words.{IsMessage, Opens, ValueOf, ap_rep, ap_rep_of, enc_ap_rep_part, enc_ap_rep_part_of, encrypted_fields, profile_of, reply_enc_part};
ghost use Rattle.krb_ap.specs.Finish.{FinishCause, IsAgreed, IsReplyOfType, OpensReply, agreement_of, finish_offset_of, repeated_at};
ghost use Rattle.krb_ap.specs.Reply.{reply_usage};
ghost use Rattle.krb_ap.specs.Request.{Awaited};
ghost use Rattle.krb_ap.specs.World.{IsHeldInEachWorld};
ghost use Rattle.krb_ap.specs.declared.finish.FinishFault.TheVariants.{Integrity, OutOfMemory};

use crate::inner_laws::facts;
use crate::keys::{own_key, owned_key};
use crate::laws::both_agree;
use crate::opening::begins_otherwise;
use krb_enc::{Key, OpenFault};
use krb_msg::{ApRepRef, EncApRepRef, Fault, Moment, Principal, RawKey, tag, usage};
use std::alloc::{AllocError, Global};
use std::marker::Model;
use thiserror::Error;

/// A request whose reply hasn't come. A contract sees the client, its key, the request's moment,
/// and the subkey and the sequence number that the client chose. There is no `Debug`, so no log
/// shows a key.
#[derive(Drop)]
pub struct Pending {
    pub(crate) client: Principal,
    pub(crate) key: Key,
    pub(crate) at: Moment,
    pub(crate) subkey: Option<Key>,
    pub(crate) seq: Option<u32>,
}

impl Model for Pending {
    ghost Value = { Awaited };

    ghost view = { λ p. record { client = p.client; key = p.key; at = p.at; subkey = p.subkey; seq = p.seq } };
}

/// What a client and a service agree on, as the client holds it. There is no `Debug`, so no log
/// shows a key.
#[derive(Drop)]
pub struct Agreed {
    /// The client.
    pub client: Principal,
    /// The key that client and service share, from the ticket.
    pub session_key: Key,
    /// The key that the client chose for this session.
    pub subkey: Option<Key>,
    /// The client's first sequence number.
    pub seq: Option<u32>,
    /// The key that the service chose for this session, of any type.
    pub service_subkey: Option<RawKey>,
    /// The service's first sequence number.
    pub service_seq: Option<u32>,
}

/// Why a reply is refused (RFC 4120, section 3.2.5): the first that applies, in this order; or
/// `OutOfMemory`.
#[derive(Clone, Copy, Debug, PartialEq, Eq, Error)]
pub enum FinishFault {
    /// There is a first byte, and it isn't that of a reply.
    #[error("the message isn't a reply")]
    MessageType,
    /// The bytes aren't a reply: what is wrong with them, and at which offset.
    #[error("the reply is malformed: {0}")]
    Malformed(Fault),
    /// The session key isn't for the reply's encryption type, doesn't open it, or opens it to
    /// something else.
    #[error("the reply doesn't open")]
    Integrity,
    /// The time in the reply isn't the request's (KRB_AP_ERR_MUT_FAIL, 46).
    #[error("the reply is for another request")]
    Mismatch,
    /// There is no memory.
    #[error("out of memory")]
    OutOfMemory,
}

impl From<AllocError> for FinishFault {
    ghost from_gives = { λ _ fault. fault ≡ OutOfMemory };

    fn from(_: AllocError) -> FinishFault {
        FinishFault::OutOfMemory
    }
}

impl Pending {
    /// Reads the service's reply, and returns what both sides agree on (RFC 4120, section 3.2.5).
    ///
    /// The `Pending` isn't used up: another reply may be read. A reply doesn't show to which of two
    /// requests it belongs if both have the same moment and key.
    ///
    /// # Errors
    /// The first that applies, or `OutOfMemory`:
    /// - `MessageType`: there is a first byte, and it isn't 0x6f.
    /// - `Malformed`: the bytes aren't an `AP-REP`. It has the fault.
    /// - `Integrity`: the reply is sealed for another type than the session key's, or doesn't open
    ///   under that key to exactly one `EncAPRepPart`.
    /// - `Mismatch`: its time isn't the request's, to the microsecond.
    pub fn finish(&self, alloc: Global, reply: &[u8]) -> Result<Agreed, FinishFault>
        ensures agreed { IfOk result (λ agreed. IsAgreed self.now reply.now (agreement_of agreed)) }
        // In each world of `specs/World` in which the request was sent and these bytes are a packet, if the key that the
        // keytab has opens the ticket to the credential's client and key: the service held for it what is agreed.
        ensures held { IfOk result (λ agreed. IsHeldInEachWorld self.now reply.now (agreement_of agreed)) }
        ensures fault { IfErr result (λ fault. fault ≢ OutOfMemory → FinishCause self.now reply.now fault) }
        ensures offset { IfErr result (λ fault. IfSome (finish_offset_of fault) (λ at. at ≤ length reply.now)) }
        // Memory is asked for only to open a reply of the session key's type.
        ensures memory { IsErrOf result OutOfMemory → IsReplyOfType self.now reply.now }
    {
        facts();
        krb_der::laws::within();
        both_agree();
        let message = read_reply(reply)?;
        let plain = open_reply(alloc, &self.key, &message)?;
        let part = match EncApRepRef::parse(plain.as_slice()) {
            Ok(part) => part,
            Err(_) => return Err(FinishFault::Integrity),
        };
        if !is_at(&part, self.at) {
            return Err(FinishFault::Mismatch);
        }
        Ok(Agreed {
            client: self.client.clone()?,
            session_key: self.key.copy(),
            subkey: own_key(&self.subkey),
            seq: self.seq,
            service_subkey: owned_key(alloc, &part.subkey)?,
            service_seq: part.seq_number,
        })
    }
}

// It takes no memory.
fn read_reply<'a>(bytes: &'a [u8]) -> Result<ApRepRef<'a>, FinishFault>
    ensures read { IfOk result (λ reply. IsMessage ap_rep (ap_rep_of reply) bytes.entry.now) }
    ensures refused { IfErr result (λ fault. (awaited : Awaited) → FinishCause awaited bytes.entry.now fault) }
{
    if begins_otherwise(bytes, tag::AP_REP) {
        return Err(FinishFault::MessageType);
    }
    match ApRepRef::parse(bytes) {
        Ok(reply) => Ok(reply),
        Err(fault) => Err(FinishFault::Malformed(fault)),
    }
}

// What a reply opens to.
fn open_reply(alloc: Global, key: &Key, reply: &ApRepRef) -> Result<Vec<u8>, FinishFault>
    ensures same_type { OnOk result ((encrypted_fields (reply_enc_part (ap_rep_of reply.now))).etype ≡ key.now.etype) }
    ensures opened { IfOk result (λ plain.
        Opens (profile_of key.now) key.now.bytes reply_usage (encrypted_fields (reply_enc_part (ap_rep_of reply.now))).cipher plain.items) }
    ensures shut { IfErr result (λ fault. fault ≢ OutOfMemory → (fault ≡ Integrity)
        × ((part : ValueOf enc_ap_rep_part) → ¬ OpensReply key.now (ap_rep_of reply.now) part)) }
    ensures memory { IsErrOf result OutOfMemory → (encrypted_fields (reply_enc_part (ap_rep_of reply.now))).etype ≡ key.now.etype }
{
    if reply.enc_part.etype != key.etype() {
        return Err(FinishFault::Integrity);
    }
    match key.open(alloc, usage::AP_REP, reply.enc_part.cipher) {
        Ok(plain) => Ok(plain),
        Err(OpenFault::OutOfMemory) => Err(FinishFault::OutOfMemory),
        Err(OpenFault::Short) => Err(FinishFault::Integrity),
        Err(OpenFault::Integrity) => Err(FinishFault::Integrity),
    }
}

fn is_at(part: &EncApRepRef, at: Moment) -> bool
    ensures { IsTrue result ↔ (repeated_at (enc_ap_rep_part_of part.now) ≡ at) }
{
    Moment::at(part.ctime, part.cusec).micros() == at.micros()
}
