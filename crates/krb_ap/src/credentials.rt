//! The choice of a credential of a cache. It allocates no memory.

ghost use Rattle.std.specs.Prelude.{◌↔◌, All, IsTrue, IfOk, IfErr, IfSome, IfNone};
ghost use Rattle.krb_ap.specs.Credentials.{IsFor, IsUsableFor, IsFit, IsUsed, IsWanting};
ghost use Rattle.krb_ap.specs.Inner.Wanted.{IsWanted, IsFirstOf};

use crate::request::RequestFault;
use krb_ccache::{CCache, Credential};
use krb_enc::Key;
use krb_msg::{Moment, Principal};

/// Which credentials for a service are looked for.
#[derive(Drop)]
pub(crate) enum Wanted {
    /// Any.
    Any,
    /// Those with a usable session key.
    Usable,
    /// Those that fit at this moment.
    Fit(Moment),
}

/// The credential that is used for a service at a moment, or what is missing.
pub(crate) fn used<'a>(
    cache: &'a CCache,
    service: &Principal,
    at: Moment,
) -> Result<&'a Credential, RequestFault>
    ensures used { IfOk result (λ credential. IsUsed cache.now service.now at credential.now) }
    ensures wanting { IfErr result (IsWanting cache.now service.now at) }
{
    if let Some(credential) = first(cache, service, &Wanted::Fit(at)) {
        return Ok(credential);
    }
    if let Some(_) = first(cache, service, &Wanted::Usable) {
        return Err(RequestFault::Expired);
    }
    if let Some(_) = first(cache, service, &Wanted::Any) {
        return Err(RequestFault::NoUsableKey);
    }
    Err(RequestFault::NoCredential)
}

// The first credential for a service that is wanted.
fn first<'a>(cache: &'a CCache, service: &Principal, wanted: &Wanted) -> Option<&'a Credential>
    ensures some { IfSome result (λ credential.
        IsFirstOf (IsWanted cache.now service.now wanted.now) cache.now.credentials credential.now) }
    ensures none { IfNone result
        (All (λ one. ¬ IsWanted cache.now service.now wanted.now one) cache.now.credentials) }
{
    let mut next = 0;
    while let Some(place) = cache.find_server(service, next) {
        let credential = &cache.credentials()[place];
        if is_wanted(cache, service, wanted, credential) {
            return Some(credential);
        }
        next = place + 1;
    }
    None
}

fn is_wanted(cache: &CCache, service: &Principal, wanted: &Wanted, credential: &Credential) -> bool
    ensures { IsTrue result ↔ IsWanted cache.now service.now wanted.now credential.now }
{
    match *wanted {
        Wanted::Any => is_for(cache, service, credential),
        Wanted::Usable => is_usable_for(cache, service, credential),
        Wanted::Fit(at) => is_fit(cache, service, at, credential),
    }
}

fn is_fit(cache: &CCache, service: &Principal, at: Moment, credential: &Credential) -> bool
    ensures { IsTrue result ↔ IsFit cache.now service.now at credential.now }
{
    is_usable_for(cache, service, credential)
        && at.micros() < 1_000_000 * i64::from(credential.endtime)
}

fn is_usable_for(cache: &CCache, service: &Principal, credential: &Credential) -> bool
    ensures { IsTrue result ↔ IsUsableFor cache.now service.now credential.now }
{
    is_for(cache, service, credential)
        && Key::is_usable(i32::from(credential.etype), credential.key.as_slice())
}

fn is_for(cache: &CCache, service: &Principal, credential: &Credential) -> bool
    ensures { IsTrue result ↔ IsFor cache.now service.now credential.now }
{
    credential.server.same_name(service)
        && credential.client.same_name(cache.default_principal())
        && !CCache::is_configuration(credential)
}
