//! Keys of checksums of one usage.

ghost use Rattle.std.specs.Prelude.{◌≡◌, ◌↔◌, IsTrue};
ghost use Rattle.krb_kdf.specs.Hmac.{joined};
ghost use Rattle.krb_enc.specs.Key.{UsageKeyValue, profile_of};
ghost use Rattle.krb_enc.specs.Sealed.{checksum_of};
ghost use Rattle.krb_enc.specs.Inner.KeyBytes.{value_of, IsReadyForChecksums};

use crate::key_bytes::KeyBytes;
use crate::tag::Tag;
use std::marker::Model;

/// The key of checksums (Kc) of a base key for one key usage, prepared once for many texts. It is
/// held in place.
///
/// A contract sees the base key and the usage. The type has no `Debug`, so no log shows a key.
#[derive(Drop)]
pub struct ChecksumKey {
    bytes: KeyBytes,
    usage: u32,
}

impl Model for ChecksumKey {
    ghost Value = { UsageKeyValue };

    ghost view = { λ k. record { key = value_of k.bytes; usage = k.usage } };

    ghost invariant = { λ k. IsReadyForChecksums k.bytes k.usage };
}

impl ChecksumKey {
    pub(crate) fn new(bytes: KeyBytes, usage: u32) -> ChecksumKey
        requires { IsReadyForChecksums bytes usage }
        ensures { result ≡ record { key = value_of bytes; usage = usage } }
    {
        ChecksumKey { bytes, usage }
    }

    /// Returns the checksum of a text under the base key for the usage: 16 bytes (type 19) or 24
    /// (type 20).
    ///
    /// The text is the parts joined in order. There may be no parts, and each part may be empty.
    ///
    /// Source: RFC 8009, section 6.
    #[tactic(auto, unfolding(crate::specs::Sealed::checksum_of, krb_kdf::specs::Hmac::hmac))]
    pub fn checksum(&self, parts: &[&[u8]]) -> Tag
        ensures { result
            ≡ checksum_of (profile_of self.now.key) self.now.key.bytes self.now.usage (joined parts.now) }
    {
        self.bytes.short_mac(parts)
    }

    /// Returns whether `tag` is the whole checksum of the parts joined in order. Compares all bytes,
    /// even after the first difference.
    ///
    /// Source: RFC 8009, section 6.
    pub fn verify(&self, parts: &[&[u8]], tag: &[u8]) -> bool
        ensures { IsTrue result
            ↔ (tag.now ≡ checksum_of (profile_of self.now.key) self.now.key.bytes self.now.usage (joined parts.now)) }
    {
        self.checksum(parts).is(tag)
    }
}
