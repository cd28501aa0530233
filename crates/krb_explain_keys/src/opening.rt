//! Opening a ticket and an authenticator.

ghost use Rattle.std.specs.Prelude.{◌≡◌, ◌↔◌, IfOk, IsTrue, MatchOption};
ghost use Rattle.krb_enc.specs.Key.{IsUsable, profile_of};
ghost use Rattle.krb_enc.specs.Opens.{Opens};
ghost use Rattle.krb_msg.specs.Borrowed.{ap_req_of, enc_ticket_part_of};
ghost use Rattle.krb_ap.specs.Inner.Stages.{IsShut};
ghost use Rattle.krb_ap.specs.Opened.{entry_key, session_key, ticket_usage};
ghost use Rattle.krb_explain_keys.specs.Seen.{IsAuthenticatorShut};
ghost use Rattle.krb_explain_keys.specs.Inner.Shut.{OpensText};

use krb_enc::{Key, OpenFault};
use krb_keytab::Entry;
use krb_msg::{ApReqRef, EncTicketRef, usage};
use std::alloc::{AllocError, Global};

// The plain text of a sealed text. `None` if nothing opens.
fn opened(
    alloc: Global,
    key: &Key,
    usage: u32,
    cipher: &[u8],
) -> Result<Option<Vec<u8>>, AllocError>
    ensures { IfOk result (λ plain. MatchOption plain (IsShut key.now usage cipher.now)
        (λ plain. Opens (profile_of key.now) key.now.bytes usage cipher.now plain.items)) }
{
    match key.open(alloc, usage, cipher) {
        Ok(plain) => Ok(Some(plain)),
        Err(OpenFault::OutOfMemory) => Err(AllocError),
        Err(OpenFault::Short) => Ok(None),
        Err(OpenFault::Integrity) => Ok(None),
    }
}

// The key of an entry.
fn key_of_entry(entry: &Entry) -> Key
    requires { IsUsable (entry_key entry.now) }
    ensures { result ≡ entry_key entry.now }
{
    match Key::new(i32::from(entry.etype()), entry.key()) {
        Ok(key) => key,
        Err(_) => unreachable!(),
    }
}

// The session key of a ticket, if it is usable.
fn session_key_of(part: &EncTicketRef) -> Option<Key>
    ensures { MatchOption result (¬ IsUsable (session_key (enc_ticket_part_of part.now)))
        (λ key. (key ≡ session_key (enc_ticket_part_of part.now)) × IsUsable (session_key (enc_ticket_part_of part.now))) }
{
    match Key::new(part.key.etype, part.key.bytes) {
        Ok(key) => Some(key),
        Err(_) => None,
    }
}

/// Whether the session key of a ticket is usable.
pub(crate) fn has_usable_key(part: &EncTicketRef) -> bool
    ensures { IsTrue result ↔ IsUsable (session_key (enc_ticket_part_of part.now)) }
{
    match session_key_of(part) {
        Some(_) => true,
        None => false,
    }
}

/// Opens a ticket with the key of an entry. `None` if it doesn't open it.
pub(crate) fn ticket_text(
    alloc: Global,
    entry: &Entry,
    cipher: &[u8],
) -> Result<Option<Vec<u8>>, AllocError>
    requires { IsUsable (entry_key entry.now) }
    ensures { IfOk result (λ plain. MatchOption plain (IsShut (entry_key entry.now) ticket_usage cipher.now)
        (λ plain. Opens (profile_of (entry_key entry.now)) entry.now.key ticket_usage cipher.now plain.items)) }
{
    let key = key_of_entry(entry);
    opened(alloc, &key, usage::TICKET, cipher)
}

/// Opens the authenticator of a request with the session key of its ticket. `None` if it isn't usable or doesn't open it.
pub(crate) fn authenticator_text(
    alloc: Global,
    request: &ApReqRef,
    part: &EncTicketRef,
) -> Result<Option<Vec<u8>>, AllocError>
    ensures { IfOk result (λ plain. MatchOption plain (IsAuthenticatorShut (ap_req_of request.now) (enc_ticket_part_of part.now))
        (λ plain. OpensText (ap_req_of request.now) (enc_ticket_part_of part.now) plain.items)) }
{
    let Some(key) = session_key_of(part) else {
        return Ok(None);
    };
    if request.authenticator.etype != part.key.etype {
        return Ok(None);
    }
    opened(
        alloc,
        &key,
        usage::AUTHENTICATOR,
        request.authenticator.cipher,
    )
}
