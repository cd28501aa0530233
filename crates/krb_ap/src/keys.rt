//! Copies of keys, and sealing under a key.

ghost use Rattle.std.specs.Prelude.{◌≡◌, ◌↔◌, ◌≤◌, ◌+◌, None, IfOk, IfSome, IsTrue, OnOk, length};
ghost use Rattle.krb_ap.specs.Words.{IsUsable, encrypted_value, key_of, option_map, owned_encrypted_of, owned_key_of};
ghost use Rattle.krb_ap.specs.Inner.Stages.{key_in};
ghost use Rattle.krb_ap.specs.Written.{IsSealed, key_value};

use krb_enc::{Key, UsageKey};
use krb_msg::{Encrypted, KeyRef, RawKey};
use std::alloc::{AllocError, Global};

/// A copy of a key, if there is one, in the form that messages have.
pub(crate) fn raw_key(alloc: Global, key: &Option<Key>) -> Result<Option<RawKey>, AllocError>
    ensures value { IfOk result (λ made. option_map owned_key_of made ≡ option_map key_value key.now) }
    ensures usable { OnOk result (IfSome key.now IsUsable) }
{
    match key {
        Some(key) => Ok(Some(RawKey {
            etype: key.etype(),
            bytes: key.bytes().to_vec(alloc)?,
        })),
        None => Ok(None),
    }
}

/// A copy of a message's key, if there is one.
pub(crate) fn owned_key(alloc: Global, key: &Option<KeyRef>) -> Result<Option<RawKey>, AllocError>
    ensures { IfOk result (λ made. option_map owned_key_of made ≡ option_map key_of key.now) }
{
    key.as_ref().map(|key| key.to_owned(alloc)).transpose()
}

/// A copy of a key, if there is one. It allocates no memory.
pub(crate) fn own_key(key: &Option<Key>) -> Option<Key>
    ensures { result ≡ key.now }
{
    key.as_ref().map(Key::copy)
}

/// Returns whether a message's key has one of the two types, and the length of that type's keys. It
/// allocates no memory.
pub(crate) fn is_usable(key: &KeyRef) -> bool
    ensures { IsTrue result ↔ IsUsable (key_in key.now) }
{
    Key::is_usable(key.etype, key.bytes)
}

/// The key of this type and these bytes. It allocates no memory.
pub(crate) fn usable_key(etype: i32, bytes: &[u8]) -> Key
    requires { IsUsable (record { etype = etype; bytes = bytes.now }) }
    ensures { result ≡ record { etype = etype; bytes = bytes.now } }
{
    match Key::new(etype, bytes) {
        Ok(key) => key,
        Err(_) => unreachable!(),
    }
}

/// Seals a plain text.
pub(crate) fn seal(
    alloc: Global,
    keys: &UsageKey,
    confounder: &[u8; 16],
    plain: &[u8],
) -> Result<Vec<u8>, AllocError>
    ensures sealed { IfOk result (λ text. IsSealed keys.now.key keys.now.usage confounder.now plain.now text.items) }
    ensures length { IfOk result (λ text. length text.items ≤ 40 + length plain.now) }
{
    krb_enc::laws::each_profile_is_known();
    krb_enc::laws::sealed_lengths();
    Ok(keys.seal(alloc, confounder, plain)?)
}

/// Seals a plain text with keys that are used once. By value, since they are large: one copy of them
/// is on the stack while they are derived.
#[inline(never)]
pub(crate) fn seal_once(
    alloc: Global,
    keys: UsageKey,
    confounder: &[u8; 16],
    plain: &[u8],
) -> Result<Vec<u8>, AllocError>
    ensures sealed { IfOk result (λ text. IsSealed keys.key keys.usage confounder.now plain.now text.items) }
    ensures length { IfOk result (λ text. length text.items ≤ 40 + length plain.now) }
{
    seal(alloc, &keys, confounder, plain)
}

/// The sealed text for a key: with the key's type, and without a version number.
pub(crate) fn encrypted(key: &Key, cipher: Vec<u8>) -> Encrypted
    ensures { owned_encrypted_of result ≡ encrypted_value (record { etype = key.now.etype; kvno = None; cipher = cipher.items }) }
{
    Encrypted {
        etype: key.etype(),
        kvno: None,
        cipher,
    }
}
