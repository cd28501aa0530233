//! The client's side: building a request.

ghost use Rattle.std.specs.Prelude.{◌≡◌, ◌≢◌, ℕ, List, IfOk, IfErr, IsErrOf};
ghost use Rattle.krb_ap.specs.Words.{option_map, owned_typed_of};
ghost use Rattle.krb_ap.specs.Request.{HasGoodTicket, IsAuthenticator, IsBuilt, IsPlain, IsRequest, Prevents, awaited_for, context_checksum, context_flags, options_for};
ghost use Rattle.krb_ap.specs.Inner.Requests.{HasReadableTicket, IsUnbuilt};
ghost use Rattle.krb_ap.specs.declared.request.RequestFault.TheVariants.{TooLong, OutOfMemory};

use crate::credentials::used;
use crate::finish::Pending;
use crate::inner_laws::{facts, writing};
use crate::keys::{encrypted, raw_key, seal};
use crate::ready_key::{ReadyCredential, ReadyKey};
use krb_ccache::CCache;
use krb_enc::Key;
use krb_gss::{CHECKSUM_TYPE, Checksum, ChecksumWriteFault, ContextFlags};
use krb_msg::{
    ApReqOver, Authenticator, EncodeFault, Flags, MUTUAL_REQUIRED, Moment, Principal,
    SpelledTicket, Typed,
};
use std::alloc::{AllocError, Global};
use thiserror::Error;

/// What a client chooses for a request. There is no `Debug`, so no log shows a key.
#[derive(Drop)]
pub struct RequestOptions {
    /// Whether the client asks for a reply (mutual-required of RFC 4120, section 5.5.1).
    pub mutual: bool,
    /// A key for this session.
    pub subkey: Option<Key>,
    /// The client's first sequence number.
    pub seq: Option<u32>,
    /// What a client of GSS-API asks for. Such a client sends `seq`, too, which isn't checked. Other
    /// clients leave this out.
    pub context: Option<ContextRequest>,
}

/// What a client of GSS-API asks for in its authenticator's checksum, of type 0x8003 (RFC 4121,
/// section 4.1.1).
#[derive(Clone, Copy, Debug, PartialEq, Eq)]
pub struct ContextRequest {
    /// The flags of section 4.1.1.1: 4 replay, 8 sequence, 16 confidentiality, 32 integrity. The
    /// bits 1 (delegation) and 2 (mutual) don't count: no credentials are delegated, and mutual is
    /// set exactly if the request asks for a reply.
    pub flags: u32,
    /// The MD5 hash of the channel's bindings, or 16 zeros if there are none (section 4.1.1.2).
    pub bindings: [u8; 16],
}

/// Why no request is built: the one that applies, or `OutOfMemory`.
#[derive(Clone, Copy, Debug, PartialEq, Eq, Error)]
pub enum RequestFault {
    /// The cache has no ticket of its default principal for the service. Configuration entries
    /// aren't tickets.
    #[error("there is no ticket for the service")]
    NoCredential,
    /// There are such tickets, but none has a session key of type 19 or 20 and of that type's
    /// length.
    #[error("there is no ticket for the service with a usable session key")]
    NoUsableKey,
    /// There are such tickets with usable keys, but none expires later than the moment.
    #[error("the ticket has expired")]
    Expired,
    /// The bytes of the used credential's ticket aren't a ticket.
    #[error("the ticket is malformed")]
    BadTicket,
    /// The request would have more than 1,048,576 bytes.
    #[error("the request would be longer than 1048576 bytes")]
    TooLong,
    /// There is no memory.
    #[error("out of memory")]
    OutOfMemory,
}

impl From<AllocError> for RequestFault {
    ghost from_gives = { λ _ fault. fault ≡ OutOfMemory };

    fn from(_: AllocError) -> RequestFault {
        RequestFault::OutOfMemory
    }
}

/// Builds a request for `service` from the first credential of `cache` that fits. It fits if it has
/// a ticket of the cache's default principal for the service (no configuration entry), its session
/// key is usable, and it expires later than `at`.
///
/// `at` is the client's clock. Never use a moment twice for one client and service, not even with
/// another ticket: the service refuses the second request as a repeat, and a reply doesn't show to
/// which of two requests of one moment it belongs. `confounder` is 16 random bytes, new for each
/// call. The authenticator contains the credential's client, `at`, and the options' subkey, sequence
/// number and context. The request has the ticket, and no option but mutual-required.
///
/// # Errors
/// The one that applies, or `OutOfMemory`:
/// - `NoCredential`: the cache has no ticket of its default principal for the service.
/// - `NoUsableKey`: none of these tickets has a usable session key.
/// - `Expired`: of those with a usable key, none expires later than `at`.
/// - `BadTicket`: the bytes of the credential's ticket aren't a ticket.
/// - `TooLong`: the request, or its authenticator, would have more than 1,048,576 bytes.
///
/// Source: RFC 4120, sections 3.2.2 and 5.5.1.
pub fn make_request(
    alloc: Global,
    cache: &CCache,
    service: &Principal,
    at: Moment,
    confounder: &[u8; 16],
    options: RequestOptions,
) -> Result<(Vec<u8>, Pending), RequestFault>
    ensures request { IfOk result (λ made. IsRequest cache.now service.now at confounder.now options made.0.items made.1) }
    ensures fault { IfErr result (λ fault. fault ≢ OutOfMemory
        → Prevents cache.now service.now at confounder.now options fault) }
    // Memory is asked for only once a credential is chosen and its ticket was read.
    ensures memory { IsErrOf result OutOfMemory → HasGoodTicket cache.now service.now at }
{
    let credential = used(cache, service, at)?;
    let key = &ReadyKey::of(credential);
    let ready = ReadyCredential { credential, key };
    ready.request(alloc, at, confounder, options)
}

impl ReadyCredential<'_> {
    /// The request with this credential, and what is kept of it.
    pub(crate) fn request(
        &self,
        alloc: Global,
        at: Moment,
        confounder: &[u8; 16],
        options: RequestOptions,
    ) -> Result<(Vec<u8>, Pending), RequestFault>
        ensures built { IfOk result (λ made. IsBuilt self.now.credential.now at confounder.now options made.0.items) }
        ensures awaited { IfOk result (λ made. made.1 ≡ awaited_for self.now.credential.now at options) }
        ensures fault { IfErr result (λ fault. fault ≢ OutOfMemory
            → IsUnbuilt self.now.credential.now at confounder.now options fault) }
        ensures memory { IsErrOf result OutOfMemory → HasReadableTicket self.now.credential.now }
    {
        facts();
        writing();
        let ticket = match SpelledTicket::parse(self.credential.ticket.as_slice()) {
            Ok(ticket) => ticket,
            Err(_) => return Err(RequestFault::BadTicket),
        };
        let (cipher, client) = self.authenticator(alloc, at, confounder, &options)?;
        let request = ApReqOver {
            options: flags(options.mutual),
            ticket,
            authenticator: encrypted(&self.key.key, cipher),
        };
        let bytes = match request.encode(alloc) {
            Ok(bytes) => bytes,
            Err(EncodeFault::TooLong) => return Err(RequestFault::TooLong),
            Err(EncodeFault::OutOfMemory) => return Err(RequestFault::OutOfMemory),
        };
        let pending = Pending {
            client,
            key: self.key.key.copy(),
            at,
            subkey: options.subkey,
            seq: options.seq,
        };
        Ok((bytes, pending))
    }

    // The sealed authenticator, and the copy of the credential's client that it was made of.
    fn authenticator(
        &self,
        alloc: Global,
        at: Moment,
        confounder: &[u8; 16],
        options: &RequestOptions,
    ) -> Result<(Vec<u8>, Principal), RequestFault>
        ensures sealed { IfOk result (λ made. IsAuthenticator self.now.credential.now at confounder.now options.now made.0.items) }
        ensures client { IfOk result (λ made. made.1 ≡ self.now.credential.now.client) }
        ensures fault { IfErr result (λ fault. fault ≢ OutOfMemory → (fault ≡ TooLong)
            × ((plain : List ℕ) → ¬ IsPlain self.now.credential.now at options.now plain)) }
    {
        writing();
        let (ctime, cusec) = at.parts();
        prove!(cusec.get() < 1_000_000);
        let authenticator = Authenticator {
            client: self.credential.client.clone()?,
            checksum: checksum_of(alloc, options.mutual, options.context)?,
            cusec,
            ctime,
            subkey: raw_key(alloc, &options.subkey)?,
            seq_number: options.seq,
            authorization: None,
        };
        let plain = match authenticator.encode(alloc) {
            Ok(plain) => plain,
            Err(EncodeFault::TooLong) => return Err(RequestFault::TooLong),
            Err(EncodeFault::OutOfMemory) => return Err(RequestFault::OutOfMemory),
        };
        let cipher = seal(alloc, &self.key.keys, confounder, &plain)?;
        Ok((cipher, authenticator.client))
    }
}

fn flags(wants_reply: bool) -> Flags
    ensures { result.0 ≡ options_for wants_reply }
{
    if wants_reply {
        Flags::only(MUTUAL_REQUIRED)
    } else {
        Flags::none()
    }
}

// The flags that are written: the client's own, but for delegation and mutual.
fn context_flags(is_mutual: bool, flags: u32) -> u32
    ensures { result ≡ context_flags is_mutual flags }
{
    let others = flags / 4 * 4;
    if is_mutual { others + 2 } else { others }
}

fn checksum_of(
    alloc: Global,
    is_mutual: bool,
    context: Option<ContextRequest>,
) -> Result<Option<Typed>, AllocError>
    ensures { IfOk result (λ made. option_map owned_typed_of made ≡ option_map (context_checksum is_mutual) context) }
{
    let Some(context) = context else {
        return Ok(None);
    };
    let bindings = context.bindings;
    let checksum = Checksum {
        flags: ContextFlags(context_flags(is_mutual, context.flags)),
        bindings,
        delegation: None,
        extensions: &[],
    };
    match checksum.encode(alloc) {
        Ok(bytes) => Ok(Some(Typed {
            kind: CHECKSUM_TYPE,
            bytes,
        })),
        Err(ChecksumWriteFault::OutOfMemory) => Err(AllocError),
        // No credentials are delegated, and the flags say so.
        Err(ChecksumWriteFault::Delegation | ChecksumWriteFault::TooLong) => unreachable!(),
    }
}
