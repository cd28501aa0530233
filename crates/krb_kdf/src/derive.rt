ghost use Rattle.std.specs.Prelude.{◌≡◌, ◌≤◌, take};
ghost use Rattle.krb_kdf.specs.Hmac.{sha256_hash, sha384_hash};
ghost use Rattle.krb_kdf.specs.Kdf.{kdf, kdf_of, kdf_text, label, purpose_of};
ghost use Rattle.krb_kdf.specs.declared.purpose.Purpose.TheVariants.{Ke};

use crate::hmac::{HmacSha256, HmacSha384};
use crate::purpose::{MacPurpose, Purpose};

impl HmacSha256 {
    /// Derives the key of `purpose` for the key usage `usage` from this base key of encryption type
    /// 19: 16 bytes.
    ///
    /// Source: RFC 8009, sections 3 and 5.
    pub fn derive_19(&self, usage: u32, purpose: Purpose) -> [u8; 16]
        ensures { result ≡ kdf_of sha256_hash self.now (label usage purpose) 128 }
    {
        first_bytes(&self.code(&[&kdf_text(usage, purpose, 128)]))
    }
}

impl HmacSha384 {
    /// Derives the encryption key Ke for the key usage `usage` from this base key of encryption
    /// type 20: 32 bytes.
    ///
    /// Source: RFC 8009, sections 3 and 5.
    pub fn derive_20_ke(&self, usage: u32) -> [u8; 32]
        ensures { result ≡ kdf_of sha384_hash self.now (label usage Ke) 256 }
    {
        first_bytes(&self.code(&[&kdf_text(usage, Purpose::Ke, 256)]))
    }

    /// Derives the key of `purpose` for the key usage `usage` from this base key of encryption type
    /// 20: 24 bytes.
    ///
    /// Source: RFC 8009, sections 3 and 5.
    pub fn derive_20(&self, usage: u32, purpose: MacPurpose) -> [u8; 24]
        ensures { result ≡ kdf_of sha384_hash self.now (label usage (purpose_of purpose)) 192 }
    {
        first_bytes(&self.code(&[&kdf_text(usage, purpose.into(), 192)]))
    }
}

/// Derives the key of `purpose` for the key usage `usage` from a base key of encryption type 19:
/// 16 bytes.
///
/// Source: RFC 8009, sections 3 and 5.
#[tactic(auto, unfolding(crate::specs::Kdf::kdf, crate::specs::Kdf::kdf_of, crate::specs::Hmac::hmac))]
pub fn derive_19(base_key: &[u8; 16], usage: u32, purpose: Purpose) -> [u8; 16]
    ensures { result ≡ kdf sha256_hash base_key.now (label usage purpose) 128 }
{
    HmacSha256::new(base_key).derive_19(usage, purpose)
}

/// Derives the encryption key Ke for the key usage `usage` from a base key of encryption type 20:
/// 32 bytes.
///
/// Source: RFC 8009, sections 3 and 5.
#[tactic(auto, unfolding(crate::specs::Kdf::kdf, crate::specs::Kdf::kdf_of, crate::specs::Hmac::hmac))]
pub fn derive_20_ke(base_key: &[u8; 32], usage: u32) -> [u8; 32]
    ensures { result ≡ kdf sha384_hash base_key.now (label usage Ke) 256 }
{
    HmacSha384::new(base_key).derive_20_ke(usage)
}

/// Derives the key of `purpose` for the key usage `usage` from a base key of encryption type 20:
/// 24 bytes.
///
/// Source: RFC 8009, sections 3 and 5.
#[tactic(auto, unfolding(crate::specs::Kdf::kdf, crate::specs::Kdf::kdf_of, crate::specs::Hmac::hmac))]
pub fn derive_20(base_key: &[u8; 32], usage: u32, purpose: MacPurpose) -> [u8; 24]
    ensures { result ≡ kdf sha384_hash base_key.now (label usage (purpose_of purpose)) 192 }
{
    HmacSha384::new(base_key).derive_20(usage, purpose)
}

// The text that a key of `bits` bits is derived by.
fn kdf_text(usage: u32, purpose: Purpose, bits: u32) -> [u8; 14]
    ensures { result ≡ kdf_text (label usage purpose) bits }
{
    let [u0, u1, u2, u3] = usage.to_be_bytes();
    let constant = purpose.byte();
    let [k0, k1, k2, k3] = bits.to_be_bytes();
    [0, 0, 0, 1, u0, u1, u2, u3, constant, 0, k0, k1, k2, k3]
}

fn first_bytes<const N: usize, const M: usize>(digest: &[u8; M]) -> [u8; N]
    requires { N ≤ M }
    ensures { result ≡ take N digest.now }
{
    let mut bytes = [0u8; N];
    bytes.copy_from_slice(&digest[..N]);
    bytes
}
