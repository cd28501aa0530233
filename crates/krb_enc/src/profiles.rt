//! The two encryption types: all that differs between them.

ghost use Rattle.std.specs.Prelude.{◌≡◌, pos, refl, length};
ghost use Rattle.std.proofs.Common.{inl, inr};
ghost use Rattle.krb_enc.specs.Sealed.{aes128_sha256, aes256_sha384};

use crate::derived::Derived;
use crate::enctype::{Enctype, Inside};
use crate::etype::{AES128_CTS_HMAC_SHA256_128, AES256_CTS_HMAC_SHA384_192};
use crate::key::{BaseKey, Key};
use crate::key_bytes::KeyBytes;
use crate::tag::Tag;
use krb_aes::KeySchedule;
use krb_kdf::{HmacSha256, HmacSha384, MacPurpose, Purpose, hmac_sha256, hmac_sha384};

/// aes128-cts-hmac-sha256-128: AES with keys of 128 bits, and tags of 128 bits by HMAC with
/// SHA-256.
#[derive(Clone, Copy, Debug)]
pub struct Sha256Aes128;

impl Enctype for Sha256Aes128 {
    const ETYPE: i32 = AES128_CTS_HMAC_SHA256_128;

    const KEY_LEN: usize = 16;

    const TAG_LEN: usize = 16;

    ghost profile = { aes128_sha256 };

    ghost ETYPE = { pos 19 };

    ghost KEY_LEN = { 16 };

    ghost TAG_LEN = { 16 };

    fn base_key(_: Inside, key: &[u8]) -> Key {
        let bytes = BaseKey::Short(array_of(key));
        Key { bytes }
    }

    #[tactic(auto, unfolding(krb_kdf::specs::Kdf::kdf, krb_kdf::specs::Kdf::kdf_of, krb_kdf::specs::Hmac::hmac))]
    #[inline(never)]
    fn derived(_: Inside, key: &[u8], usage: u32) -> Derived {
        let base = HmacSha256::new(key);
        Derived::Short {
            base: array_of(key),
            integrity: base.derive_19(usage, Purpose::Ki),
            encryption: base.derive_19(usage, Purpose::Ke),
        }
    }

    #[inline(never)]
    fn prepared(_: Inside, key: &[u8], mac_key: &[u8]) -> KeyBytes {
        KeyBytes::Short(array_of(key), HmacSha256::new(mac_key))
    }

    #[inline(never)]
    fn schedule(_: Inside, encryption_key: &[u8]) -> KeySchedule {
        KeySchedule::new_128(&array_of(encryption_key))
    }

    #[tactic(auto, unfolding(krb_kdf::specs::Kdf::kdf, krb_kdf::specs::Kdf::kdf_of, krb_kdf::specs::Hmac::hmac))]
    fn checksum_key(_: Inside, key: &[u8], usage: u32) -> KeyBytes {
        let checksum_key = HmacSha256::new(key).derive_19(usage, Purpose::Kc);
        Self::prepared(Inside, key, &checksum_key)
    }

    #[tactic(auto, unfolding(krb_kdf::specs::Kdf::kdf, krb_kdf::specs::Kdf::kdf_of, krb_kdf::specs::Hmac::hmac))]
    fn short_mac(_: Inside, key: &[u8], usage: u32, purpose: MacPurpose, parts: &[&[u8]]) -> Tag {
        let mac_key = HmacSha256::new(key).derive_19(usage, purpose.into());
        Tag::new(&hmac_sha256(&mac_key, parts)[..Self::TAG_LEN])
    }

    ghost is_profile = { inl refl };

    ghost etype_is = { refl };

    ghost numbered_is = { refl };

    ghost key_len_is = { refl };

    ghost tag_len_is = { refl };
}

/// aes256-cts-hmac-sha384-192: AES with keys of 256 bits, and tags of 192 bits by HMAC with
/// SHA-384.
#[derive(Clone, Copy, Debug)]
pub struct Sha384Aes256;

impl Enctype for Sha384Aes256 {
    const ETYPE: i32 = AES256_CTS_HMAC_SHA384_192;

    const KEY_LEN: usize = 32;

    const TAG_LEN: usize = 24;

    ghost profile = { aes256_sha384 };

    ghost ETYPE = { pos 20 };

    ghost KEY_LEN = { 32 };

    ghost TAG_LEN = { 24 };

    fn base_key(_: Inside, key: &[u8]) -> Key {
        let bytes = BaseKey::Long(array_of(key));
        Key { bytes }
    }

    #[tactic(auto, unfolding(krb_kdf::specs::Kdf::kdf, krb_kdf::specs::Kdf::kdf_of, krb_kdf::specs::Hmac::hmac))]
    #[inline(never)]
    fn derived(_: Inside, key: &[u8], usage: u32) -> Derived {
        let base = HmacSha384::new(key);
        Derived::Long {
            base: array_of(key),
            integrity: base.derive_20(usage, MacPurpose::Ki),
            encryption: base.derive_20_ke(usage),
        }
    }

    #[inline(never)]
    fn prepared(_: Inside, key: &[u8], mac_key: &[u8]) -> KeyBytes {
        KeyBytes::Long(array_of(key), HmacSha384::new(mac_key))
    }

    #[inline(never)]
    fn schedule(_: Inside, encryption_key: &[u8]) -> KeySchedule {
        KeySchedule::new_256(&array_of(encryption_key))
    }

    #[tactic(auto, unfolding(krb_kdf::specs::Kdf::kdf, krb_kdf::specs::Kdf::kdf_of, krb_kdf::specs::Hmac::hmac))]
    fn checksum_key(_: Inside, key: &[u8], usage: u32) -> KeyBytes {
        let checksum_key = HmacSha384::new(key).derive_20(usage, MacPurpose::Kc);
        Self::prepared(Inside, key, &checksum_key)
    }

    #[tactic(auto, unfolding(krb_kdf::specs::Kdf::kdf, krb_kdf::specs::Kdf::kdf_of, krb_kdf::specs::Hmac::hmac))]
    fn short_mac(_: Inside, key: &[u8], usage: u32, purpose: MacPurpose, parts: &[&[u8]]) -> Tag {
        let mac_key = HmacSha384::new(key).derive_20(usage, purpose);
        Tag::new(&hmac_sha384(&mac_key, parts)[..Self::TAG_LEN])
    }

    ghost is_profile = { inr refl };

    ghost etype_is = { refl };

    ghost numbered_is = { refl };

    ghost key_len_is = { refl };

    ghost tag_len_is = { refl };
}

fn array_of<const N: usize>(bytes: &[u8]) -> [u8; N]
    requires { length bytes.now ≡ N }
    ensures { result ≡ bytes.now }
{
    let mut array = [0; N];
    array.copy_from_slice(bytes);
    array
}
