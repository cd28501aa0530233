//! Laws about the definitions, for the crates above.

ghost use Rattle.std.specs.Prelude.{◌≡◌, ℕ, ◌/◌, ◌≤◌, List, length};
ghost use Rattle.krb_kdf.specs.Hmac.{sha256_hash, sha384_hash, hmac};
ghost use Rattle.krb_kdf.specs.Kdf.{kdf};

/// An HMAC has the length of a digest: 32 bytes with SHA-256, 48 bytes with SHA-384.
///
/// Does nothing: its contract is the law.
pub fn hmac_lengths()
    ensures sha256 { (key text : List ℕ) → length (hmac sha256_hash key text) ≡ 32 }
    ensures sha384 { (key text : List ℕ) → length (hmac sha384_hash key text) ≡ 48 }
{}

/// A derived key has as many bytes as were asked for, if it has at most as many bits as an HMAC.
///
/// Does nothing: its contract is the law.
pub fn derived_key_lengths()
    ensures sha256 { (key label : List ℕ) (bits : ℕ) → bits / 8 ≤ 32
        → length (kdf sha256_hash key label bits) ≡ bits / 8 }
    ensures sha384 { (key label : List ℕ) (bits : ℕ) → bits / 8 ≤ 48
        → length (kdf sha384_hash key label bits) ≡ bits / 8 }
{}
