//! A credential cache.

ghost use Rattle.std.specs.Prelude.{IfErr, IfOk, None, Ok, length, ◌≡◌, ◌⊎◌};
ghost use Rattle.krb_ccache.specs.Format.{IsCache, IsFaultOf as IsCacheFaultOf};
ghost use Rattle.krb_ccache.specs.Value.{Cache};
ghost use Rattle.krb_ccache.specs.declared.fault.CacheFault.{CacheFault as CacheFaultValue};
ghost use Rattle.krb_c.specs.Answer.{plain, sized};
ghost use Rattle.krb_c.specs.Request.{HasCacheFault, Keeps, cache_answer};
ghost use Rattle.krb_c.specs.Codes.{ok, out_of_memory};
ghost use Rattle.krb_c.specs.Entries.{ListsCredential, ListsOwner, TellsCredentialIf, TellsOwner, credential_bytes, credential_of};
ghost use Rattle.std.specs.List.{slice_get};

use crate::answer::{append, hand_over, hand_over_with};
use crate::code;
use crate::handle::{empty, put, with_held};
use crate::handles::CacheHandle;
use crate::structs::{Answer, CacheEntry, Owner, Span};
use krb_ap::Initiator;
use krb_ccache::laws::each_file_has_one_answer;
use krb_ccache::{CCache, CacheFault, Credential};
use std::alloc::{AllocError, Global};

/// Checks whether the bytes of a file are a credential cache, and returns how many credentials it
/// has, including configuration entries.
#[unsafe(no_mangle)]
pub extern "C" fn fevstunik_cache_check(alloc: Global, cache: &[u8]) -> Answer
    ensures credentials { (value : Cache) → IsCache cache.now value
        → (result ≡ sized ok (length value.credentials)) ⊎ (result ≡ plain out_of_memory) }
    ensures fault { (fault : CacheFaultValue) → IsCacheFaultOf cache.now fault → result ≡ cache_answer fault }
{
    match CCache::parse(alloc, cache) {
        Ok(cache) => Answer::sized(code::OK, cache.credentials().len()),
        Err(fault) => cache_told(fault),
    }
}

/// Reads a credential cache from the bytes of its file, keeps it in the handle, and returns how many
/// credentials it has. What the handle held is freed. If no cache is read, the handle is unchanged.
#[unsafe(no_mangle)]
pub extern "C" fn fevstunik_cache_new(cache: &mut CacheHandle, alloc: Global, file: &[u8]) -> Answer
    ensures { Keeps file.now cache.old.value cache.new.value result }
{
    match kept_of(alloc, file) {
        Ok(kept) => {
            let count = kept.cache().credentials().len();
            put(cache, kept);
            Answer::sized(code::OK, count)
        }
        Err(answer) => answer,
    }
}

fn kept_of(alloc: Global, file: &[u8]) -> Result<Box<Initiator>, Answer>
    ensures cache { IfOk result (λ kept. IsCache file.now kept.value) }
    ensures fault { IfErr result (λ answer. HasCacheFault file.now answer) }
{
    let cache = cache_of(alloc, file)?;
    match Box::new(alloc, Initiator::new(alloc, cache)) {
        Ok(kept) => Ok(kept),
        Err(_) => Err(cache_told(CacheFault::OutOfMemory)),
    }
}

/// Reads one credential of a cache that is kept; `index` counts from 0. Writes the client's text,
/// the service's text, the session key and the ticket to the buffer, and their places and the
/// numbers to `credential`.
#[unsafe(no_mangle)]
pub extern "C" fn fevstunik_cache_credential(
    cache: &mut CacheHandle,
    alloc: Global,
    index: usize,
    credential: &mut CacheEntry,
    buffer: &mut [u8],
) -> Answer
    ensures credential { ListsCredential cache.old.value index credential.old credential.new buffer.old buffer.new result }
    ensures stays { cache.new.value ≡ cache.old.value }
{
    with_held!(cache, alloc, held => tell_credential_at(alloc, held.cache(), index, credential, buffer))
}

fn tell_credential_at(
    alloc: Global,
    cache: &CCache,
    index: usize,
    credential: &mut CacheEntry,
    buffer: &mut [u8],
) -> Answer
    ensures { TellsCredentialIf (slice_get cache.now.credentials index) credential.old credential.new buffer.old buffer.new result }
{
    match cache.credentials().get(index) {
        Some(found) => hand_over_with(credential_told(alloc, found), credential, buffer),
        None => Answer::plain(code::NO_SUCH_ENTRY),
    }
}

fn credential_told(alloc: Global, found: &Credential) -> Result<(Vec<u8>, CacheEntry), AllocError>
    ensures { IfOk result (λ made. (made.0.items ≡ credential_bytes found.now) × (made.1 ≡ credential_of found.now)) }
{
    let mut bytes = Vec::new(alloc);
    let text = found.client.to_text(alloc)?;
    let client = append(&mut bytes, text.as_bytes())?;
    let text = found.server.to_text(alloc)?;
    let server = append(&mut bytes, text.as_bytes())?;
    let key = append(&mut bytes, found.key.as_slice())?;
    let ticket = append(&mut bytes, found.ticket.as_slice())?;
    let told = CacheEntry {
        client,
        server,
        key,
        ticket,
        authtime: found.authtime,
        starttime: found.starttime,
        endtime: found.endtime,
        renew_till: found.renew_till,
        flags: found.ticket_flags,
        client_type: found.client.name_type,
        server_type: found.server.name_type,
        key_type: found.etype,
        is_skey: found.is_skey,
    };
    Ok((bytes, told))
}

/// Reads the owner of a cache that is kept. Writes the default principal's text to the buffer, and
/// the numbers to `owner`, with the KDC's clock offset if the cache has one.
#[unsafe(no_mangle)]
pub extern "C" fn fevstunik_cache_owner(
    cache: &mut CacheHandle,
    alloc: Global,
    owner: &mut Owner,
    buffer: &mut [u8],
) -> Answer
    ensures owner { ListsOwner cache.old.value owner.old owner.new buffer.old buffer.new result }
    ensures stays { cache.new.value ≡ cache.old.value }
{
    with_held!(cache, alloc, held => tell_owner(alloc, held.cache(), owner, buffer))
}

fn tell_owner(alloc: Global, cache: &CCache, owner: &mut Owner, buffer: &mut [u8]) -> Answer
    ensures { TellsOwner cache.now owner.old owner.new buffer.old buffer.new result }
{
    let text = match cache.default_principal().to_text(alloc) {
        Ok(text) => text,
        Err(_) => return Answer::plain(code::OUT_OF_MEMORY),
    };
    let offset = cache.kdc_offset();
    let (offset_seconds, offset_micros) = offset.unwrap_or((0, 0));
    *owner = Owner {
        name: Span {
            at: 0,
            size: text.len(),
        },
        name_type: cache.default_principal().name_type,
        offset_seconds,
        offset_micros,
        has_offset: offset.is_some(),
    };
    hand_over(text.as_bytes(), buffer)
}

/// Frees what the handle holds. The handle is empty then.
#[unsafe(no_mangle)]
pub extern "C" fn fevstunik_cache_free(cache: &mut CacheHandle, alloc: Global)
    ensures { cache.new.value ≡ None }
{
    *cache = empty(alloc);
}

/// Reads a cache from the bytes of its file.
pub(crate) fn cache_of(alloc: Global, bytes: &[u8]) -> Result<CCache, Answer>
    ensures cache { IfOk result (λ cache. IsCache bytes.now cache) }
    ensures fault { IfErr result (λ answer. HasCacheFault bytes.now answer) }
{
    each_file_has_one_answer();
    match CCache::parse(alloc, bytes) {
        Ok(cache) => Ok(cache),
        Err(fault) => Err(cache_told(fault)),
    }
}

pub(crate) fn cache_told(fault: CacheFault) -> Answer
    ensures { result ≡ cache_answer fault }
{
    match fault {
        CacheFault::Version => Answer::plain(code::FILE_VERSION),
        CacheFault::Header => Answer::plain(code::FILE_HEADER),
        CacheFault::BadItem { at } => Answer::placed(code::FILE_BAD_ITEM, at),
        CacheFault::TooLong => Answer::plain(code::TOO_LONG),
        CacheFault::Read => Answer::plain(code::NOT_READ),
        CacheFault::OutOfMemory => Answer::plain(code::OUT_OF_MEMORY),
    }
}
