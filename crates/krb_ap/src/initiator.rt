//! Clients that build many requests.

ghost use Rattle.std.specs.Prelude.{◌≡◌, ◌≢◌, IfOk, IfErr, IfSome, IsErrOf};
ghost use Rattle.krb_ap.specs.Credentials.{credential_key};
ghost use Rattle.krb_ap.specs.Request.{HasGoodTicket, IsRequest, Prevents};
ghost use Rattle.krb_ap.specs.declared.request.RequestFault.TheVariants.{OutOfMemory};

use crate::credentials::used;
use crate::finish::Pending;
use crate::ready_key::{ReadyCredential, ReadyKey};
use crate::request::{RequestFault, RequestOptions};
use krb_ccache::{CCache, Credential};
use krb_msg::{Moment, Principal};
use std::alloc::Global;
use std::marker::Model;

/// A credential cache for building many requests. It keeps the keys that it derived, so only the
/// first request with a credential derives them (RFC 8009, section 3).
///
/// A contract sees the cache. There is no `Debug`, so no log shows a key.
#[derive(Drop)]
pub struct Initiator {
    cache: CCache,
    keys: Vec<ReadyKey>,
}

impl Model for Initiator {
    ghost use Rattle.krb_ccache.specs.Value.{Cache};

    ghost Value = { Cache };

    ghost view = { λ i. i.cache };
}

impl Initiator {
    /// Takes a credential cache. Allocates no memory and derives nothing.
    pub fn new(alloc: Global, cache: CCache) -> Initiator
        ensures { result ≡ cache }
    {
        Initiator {
            cache,
            keys: Vec::new(alloc),
        }
    }

    /// Returns the credential cache.
    pub fn cache(&self) -> &CCache
        ensures { result.now ≡ self.now }
    {
        &self.cache
    }

    /// Builds a request for `service`, as [`make_request`](crate::make_request) does with the cache.
    ///
    /// # Errors
    /// Those of [`make_request`](crate::make_request).
    ///
    /// Source: RFC 4120, sections 3.2.2 and 5.5.1.
    pub fn make_request(
        &mut self,
        alloc: Global,
        service: &Principal,
        at: Moment,
        confounder: &[u8; 16],
        options: RequestOptions,
    ) -> Result<(Vec<u8>, Pending), RequestFault>
        ensures request { IfOk result (λ made. IsRequest self.old service.now at confounder.now options made.0.items made.1) }
        ensures fault { IfErr result (λ fault. fault ≢ OutOfMemory
            → Prevents self.old service.now at confounder.now options fault) }
        // Memory is asked for only once a credential is chosen and its ticket was read.
        ensures memory { IsErrOf result OutOfMemory → HasGoodTicket self.old service.now at }
        ensures kept { self.new ≡ self.old }
    {
        let credential = used(&self.cache, service, at)?;
        if let Some(key) = key_of(&self.keys, credential) {
            let ready = ReadyCredential { credential, key };
            return ready.request(alloc, at, confounder, options);
        }
        let derived = ReadyKey::of(credential);
        let key = &derived;
        let ready = ReadyCredential { credential, key };
        let made = ready.request(alloc, at, confounder, options);
        // If there is no memory to keep the key, the next request derives it again.
        let _ = self.keys.push(derived);
        made
    }
}

// The credential's session key, if it is among the keys.
fn key_of<'a>(keys: &'a [ReadyKey], credential: &Credential) -> Option<&'a ReadyKey>
    ensures { IfSome result (λ key. key.now.key ≡ credential_key credential.now) }
{
    for key in keys {
        if key.is_of(credential) {
            return Some(key);
        }
    }
    None
}
