//! The keys that are derived from a base key for one key usage (RFC 8009, section 5).
//!
//! `derived`, `key_bytes` and `schedule` are never inlined: each step has a stack frame of its own, so
//! that one frame follows another and their sizes don't add up.

ghost use Rattle.std.specs.Prelude.{◌≡◌};
ghost use Rattle.krb_kdf.specs.Hmac.{block_key};
ghost use Rattle.krb_kdf.specs.declared.purpose.Purpose.TheVariants.{Ki};
ghost use Rattle.krb_enc.specs.Sealed.{encryption_key, mac_key};
ghost use Rattle.krb_enc.specs.Key.{profile_of};
ghost use Rattle.krb_enc.specs.Inner.BaseKey.{base_of};
ghost use Rattle.krb_enc.specs.Inner.Derived.{key_of, integrity_of, encryption_of};
ghost use Rattle.krb_enc.specs.Inner.KeyBytes.{value_of, mac_of};

use crate::enctype::{Enctype, Inside};
use crate::key::BaseKey;
use crate::key_bytes::KeyBytes;
use crate::profiles::{Sha256Aes128, Sha384Aes256};

/// A base key, and its keys Ki and Ke of one usage. Other crates can't write its name.
#[derive(Drop)]
pub enum Derived {
    Short {
        base: [u8; 16],
        integrity: [u8; 16],
        encryption: [u8; 16],
    },
    Long {
        base: [u8; 32],
        integrity: [u8; 24],
        encryption: [u8; 32],
    },
}

impl Derived {
    /// Derives Ki and Ke of a usage.
    pub(crate) fn new(key: &BaseKey, usage: u32) -> Derived
        ensures key { key_of result ≡ base_of key.now }
        ensures integrity { integrity_of result
            ≡ mac_key (profile_of (base_of key.now)) (base_of key.now).bytes usage Ki }
        ensures encryption { encryption_of result
            ≡ encryption_key (profile_of (base_of key.now)) (base_of key.now).bytes usage }
    {
        match key {
            BaseKey::Short(key) => Sha256Aes128::derived(Inside, key, usage),
            BaseKey::Long(key) => Sha384Aes256::derived(Inside, key, usage),
        }
    }

    /// Prepares Ki as a key of HMAC.
    #[inline(never)]
    pub(crate) fn key_bytes(&self) -> KeyBytes
        ensures key { value_of result ≡ key_of self.now }
        ensures mac { mac_of result
            ≡ block_key (profile_of (key_of self.now)).hash (integrity_of self.now) }
    {
        match self {
            Derived::Short {
                base,
                integrity,
                ..
            } => Sha256Aes128::prepared(Inside, base, integrity),
            Derived::Long {
                base,
                integrity,
                ..
            } => Sha384Aes256::prepared(Inside, base, integrity),
        }
    }
}
