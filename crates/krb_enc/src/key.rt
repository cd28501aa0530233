//! Keys.

ghost use Rattle.std.specs.Prelude.{◌≡◌, ◌↔◌, ◌⊎◌, ◌≤◌, ◌<◌, ◌+◌, ℕ, List, length, vec_len, Some, IsTrue, IfOk, IsOk, IsErrOf, MatchResult};

use crate::checksum_key::ChecksumKey;
use crate::enctype::{Enctype, Inside};
use crate::etype::{AES128_CTS_HMAC_SHA256_128, AES256_CTS_HMAC_SHA384_192};
use crate::fault::{KeyFault, OpenFault};
use crate::profiles::{Sha256Aes128, Sha384Aes256};
use crate::tag::Tag;
use std::alloc::{AllocError, Global};
use std::fmt;
use std::marker::Model;

// The bytes of a base key.
#[derive(Drop)]
pub(crate) enum BaseKey {
    Short([u8; 16]),
    Long([u8; 32]),
}

/// A base key of one of the two encryption types: 16 bytes of type 19 (aes128-cts-hmac-sha256-128)
/// or 32 bytes of type 20 (aes256-cts-hmac-sha384-192). The bytes are held in place, and nothing
/// else, so that a key is quickly moved.
///
/// Its `Debug` shows the type's number and no byte, so no log shows a key.
#[derive(Drop)]
pub struct Key {
    pub(crate) bytes: BaseKey,
}

impl Model for Key {
    ghost use Rattle.krb_enc.specs.Key.{KeyValue, IsUsable};
    ghost use Rattle.krb_enc.specs.Inner.BaseKey.{base_of};

    ghost Value = { KeyValue };

    ghost view = { λ k. base_of k.bytes };

    ghost invariant = { λ k. IsUsable (base_of k.bytes) };
}

impl Key {
    ghost use Rattle.krb_enc.specs.Key.{KeyValue, IsKnown, IsUsable, profile_of};
    ghost use Rattle.krb_enc.specs.Sealed.{sealed, checksum_of};
    ghost use Rattle.krb_enc.specs.Opens.{IsShort, HasTag, Opens, OpensOnlyTo, OpensToNothing};

    /// Makes a key of the encryption type `etype` from `bytes`.
    ///
    /// # Errors
    /// The first that applies:
    /// - `UnknownEtype`: `etype` is neither 19 nor 20.
    /// - `WrongLength`: there aren't 16 bytes (type 19) or 32 (type 20).
    ///
    /// Source: RFC 8009, sections 2 and 7.
    pub fn new(etype: i32, bytes: &[u8]) -> Result<Key, KeyFault>
        ensures made { IfOk result (λ key. key ≡ record { etype = etype; bytes = bytes.now }) }
        ensures usable { IsOk result ↔ IsUsable (record { etype = etype; bytes = bytes.now }) }
        ensures unknown { IsErrOf result KeyFault.UnknownEtype ↔ (IsKnown etype → ⊥) }
        ensures wrong_length { IsErrOf result KeyFault.WrongLength
            ↔ (IsKnown etype × (IsUsable (record { etype = etype; bytes = bytes.now }) → ⊥)) }
    {
        let bytes = match etype {
            AES128_CTS_HMAC_SHA256_128 => {
                BaseKey::Short(bytes.try_into().map_err(|_| KeyFault::WrongLength)?)
            }
            AES256_CTS_HMAC_SHA384_192 => {
                BaseKey::Long(bytes.try_into().map_err(|_| KeyFault::WrongLength)?)
            }
            _ => return Err(KeyFault::UnknownEtype),
        };
        Ok(Key { bytes })
    }

    /// Returns whether these make a key: 16 bytes of type 19, or 32 of type 20. Derives nothing.
    pub fn is_usable(etype: i32, bytes: &[u8]) -> bool
        ensures { IsTrue result ↔ IsUsable (record { etype = etype; bytes = bytes.now }) }
    {
        match etype {
            AES128_CTS_HMAC_SHA256_128 => bytes.len() == Sha256Aes128::KEY_LEN,
            AES256_CTS_HMAC_SHA384_192 => bytes.len() == Sha384Aes256::KEY_LEN,
            _ => false,
        }
    }

    /// Returns a copy of this key. Allocates no memory and derives nothing.
    pub fn copy(&self) -> Key
        ensures { result ≡ self.now }
    {
        let bytes = match &self.bytes {
            BaseKey::Short(bytes) => BaseKey::Short(*bytes),
            BaseKey::Long(bytes) => BaseKey::Long(*bytes),
        };
        Key { bytes }
    }

    /// Returns the number of the encryption type: 19 or 20.
    pub fn etype(&self) -> i32
        ensures value { result ≡ self.now.etype }
        ensures usable { IsUsable self.now }
    {
        match &self.bytes {
            BaseKey::Short(_) => Sha256Aes128::ETYPE,
            BaseKey::Long(_) => Sha384Aes256::ETYPE,
        }
    }

    /// Returns the bytes: 16 or 32.
    pub fn bytes(&self) -> &[u8]
        ensures value { result.now ≡ self.now.bytes }
        ensures usable { IsUsable self.now }
    {
        match &self.bytes {
            BaseKey::Short(bytes) => bytes,
            BaseKey::Long(bytes) => bytes,
        }
    }

    /// Prepares the key of checksums of `usage`, for many texts.
    ///
    /// Source: RFC 8009, section 6.
    pub fn for_checksums(&self, usage: u32) -> ChecksumKey
        ensures { result ≡ record { key = self.now; usage = usage } }
    {
        let bytes = match &self.bytes {
            BaseKey::Short(key) => Sha256Aes128::checksum_key(Inside, key, usage),
            BaseKey::Long(key) => Sha384Aes256::checksum_key(Inside, key, usage),
        };
        ChecksumKey::new(bytes, usage)
    }

    /// Seals `plain` under this key for `usage`: encrypts the confounder and the plain text, and
    /// appends the tag of 16 bytes (type 19) or 24 (type 20).
    ///
    /// `confounder` is 16 random bytes, new for each call.
    ///
    /// # Errors
    /// `AllocError`: there is no memory for the sealed text.
    ///
    /// Source: RFC 8009, section 5.
    pub fn seal(
        &self,
        alloc: Global,
        usage: u32,
        confounder: &[u8; 16],
        plain: &[u8],
    ) -> Result<Vec<u8>, AllocError>
        ensures sealed { IfOk result (λ text.
            text.items ≡ sealed (profile_of self.now) self.now.bytes usage confounder.now plain.now) }
        ensures length { IfOk result (λ text.
            vec_len text ≡ 16 + length plain.now + (profile_of self.now).tag_len) }
        ensures opens { IfOk result (λ text.
            OpensOnlyTo (profile_of self.now) self.now.bytes usage text.items plain.now) }
    {
        self.for_usage(usage).seal(alloc, confounder, plain)
    }

    /// Opens `text`, which was sealed under this key for `usage`, and returns the plain text.
    ///
    /// The tag is checked before anything is decrypted.
    ///
    /// # Errors
    /// The first that applies:
    /// - `Short`: there are fewer than 32 bytes (type 19) or 40 (type 20).
    /// - `Integrity`: the last 16 or 24 bytes aren't the tag of the rest.
    /// - `OutOfMemory`: there is no memory for the plain text.
    ///
    /// Source: RFC 8009, section 5.
    pub fn open(&self, alloc: Global, usage: u32, text: &[u8]) -> Result<Vec<u8>, OpenFault>
        ensures opened { IfOk result (λ plain.
            Opens (profile_of self.now) self.now.bytes usage text.now plain.items) }
        // A text that opens is answered by its plain text, memory aside.
        ensures found { (plain : List ℕ)
            → Opens (profile_of self.now) self.now.bytes usage text.now plain
            → MatchResult result
            (λ answer. answer.items ≡ plain) (λ fault. fault ≡ OpenFault.OutOfMemory) }
        // Short or Integrity is answered exactly if nothing opens.
        ensures refused { (IsErrOf result OpenFault.Short ⊎ IsErrOf result OpenFault.Integrity)
            ↔ OpensToNothing (profile_of self.now) self.now.bytes usage text.now }
        ensures short { IsErrOf result OpenFault.Short ↔ IsShort (profile_of self.now) text.now }
        ensures integrity { IsErrOf result OpenFault.Integrity
            ↔ ((16 + (profile_of self.now).tag_len ≤ length text.now)
            × (HasTag (profile_of self.now) self.now.bytes usage text.now → ⊥)) }
        ensures memory { IsErrOf result OpenFault.OutOfMemory
            → (16 + (profile_of self.now).tag_len ≤ length text.now)
            × HasTag (profile_of self.now) self.now.bytes usage text.now }
    {
        self.for_usage(usage).open(alloc, text)
    }

    /// Returns the checksum of `text` under this key for `usage`: 16 bytes (type 19) or 24 (type
    /// 20).
    ///
    /// Source: RFC 8009, section 6.
    pub fn checksum(&self, usage: u32, text: &[u8]) -> Tag
        ensures { result ≡ checksum_of (profile_of self.now) self.now.bytes usage text.now }
    {
        match &self.bytes {
            BaseKey::Short(key) => Sha256Aes128::checksum(key, usage, text),
            BaseKey::Long(key) => Sha384Aes256::checksum(key, usage, text),
        }
    }

    /// Returns whether `tag` is the whole checksum of `text` under this key for `usage`.
    ///
    /// Source: RFC 8009, section 6.
    pub fn verify_checksum(&self, usage: u32, text: &[u8], tag: &[u8]) -> bool
        ensures { IsTrue result
            ↔ (tag.now ≡ checksum_of (profile_of self.now) self.now.bytes usage text.now) }
    {
        self.checksum(usage, text).is(tag)
    }
}

impl fmt::Debug for Key {
    ghost use Rattle.krb_enc.specs.Key.{shown};

    ghost debug_output = { λ key. Some (shown key.etype) };

    fn fmt<W: fmt::Write>(&self, f: &mut fmt::Formatter<W>) -> fmt::Result {
        let etype = self.etype();
        write!(f, "Key({etype})")
    }
}
