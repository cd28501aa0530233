ghost use Rattle.std.specs.Prelude.{◌≡◌, ◌^◌, ◌<◌, ◌≤◌, ◌++◌, List, ℕ};
ghost use Rattle.krb_kdf.specs.Hmac.{sha256_hash, sha384_hash, block_key, masked, hmac, hmac_of, joined};
ghost use Rattle.sha2.specs.Hashers.{Holds256, Holds384};

use crate::block_hash::BlockHash;
use sha2::{Sha256, Sha384};
use std::marker::Model;

const INNER_PAD: u8 = 0x36;

const OUTER_PAD: u8 = 0x5c;

/// A prepared key of HMAC with SHA-256: the block of the key, and the two hashers that have
/// processed it under each pad. It is held in place.
///
/// In a clause it is the list of the block's 64 bytes.
#[derive(Drop)]
pub struct HmacSha256 {
    block: [u8; 64],
    inner: Sha256,
    outer: Sha256,
}

impl Model for HmacSha256 {
    ghost Value = { List ℕ };

    ghost view = { λ k. k.block };

    ghost invariant = { λ k. Holds256 k.inner (masked 0x36 k.block)
        × Holds256 k.outer (masked 0x5c k.block) };
}

impl HmacSha256 {
    /// Prepares a key of any length. A key longer than 64 bytes is replaced by its digest.
    ///
    /// Source: RFC 2104, sections 2 and 4.
    pub fn new(key: &[u8]) -> HmacSha256
        ensures { result ≡ block_key sha256_hash key.now }
    {
        let block = block_key::<Sha256, 32, 64>(key);
        HmacSha256 {
            block,
            inner: padded(&block, INNER_PAD),
            outer: padded(&block, OUTER_PAD),
        }
    }

    /// Returns a copy of this key, which is prepared too. Hashes nothing.
    pub fn copy(&self) -> HmacSha256
        ensures { result ≡ self.now }
    {
        HmacSha256 {
            block: self.block,
            inner: copied::<Sha256, 32>(&self.inner),
            outer: copied::<Sha256, 32>(&self.outer),
        }
    }

    /// Returns the HMAC of a text under this key: 32 bytes.
    ///
    /// The text is the parts joined in order. There may be no parts, and each part may be empty.
    ///
    /// Source: RFC 2104, section 2.
    #[tactic(auto, unfolding(crate::specs::Hmac::hmac_of))]
    pub fn code(&self, parts: &[&[u8]]) -> [u8; 32]
        ensures { result ≡ hmac_of sha256_hash self.now (joined parts.now) }
    {
        code::<Sha256, 32>(&self.inner, &self.outer, parts)
    }
}

/// A prepared key of HMAC with SHA-384: the block of the key, and the two hashers that have
/// processed it under each pad. It is held in place.
///
/// In a clause it is the list of the block's 128 bytes.
#[derive(Drop)]
pub struct HmacSha384 {
    block: [u8; 128],
    inner: Sha384,
    outer: Sha384,
}

impl Model for HmacSha384 {
    ghost Value = { List ℕ };

    ghost view = { λ k. k.block };

    ghost invariant = { λ k. Holds384 k.inner (masked 0x36 k.block)
        × Holds384 k.outer (masked 0x5c k.block) };
}

impl HmacSha384 {
    /// Prepares a key of any length. A key longer than 128 bytes is replaced by its digest.
    ///
    /// Source: RFC 2104, sections 2 and 4.
    pub fn new(key: &[u8]) -> HmacSha384
        ensures { result ≡ block_key sha384_hash key.now }
    {
        let block = block_key::<Sha384, 48, 128>(key);
        HmacSha384 {
            block,
            inner: padded(&block, INNER_PAD),
            outer: padded(&block, OUTER_PAD),
        }
    }

    /// Returns a copy of this key, which is prepared too. Hashes nothing.
    pub fn copy(&self) -> HmacSha384
        ensures { result ≡ self.now }
    {
        HmacSha384 {
            block: self.block,
            inner: copied::<Sha384, 48>(&self.inner),
            outer: copied::<Sha384, 48>(&self.outer),
        }
    }

    /// Returns the HMAC of a text under this key: 48 bytes.
    ///
    /// The text is the parts joined in order. There may be no parts, and each part may be empty.
    ///
    /// Source: RFC 2104, section 2.
    #[tactic(auto, unfolding(crate::specs::Hmac::hmac_of))]
    pub fn code(&self, parts: &[&[u8]]) -> [u8; 48]
        ensures { result ≡ hmac_of sha384_hash self.now (joined parts.now) }
    {
        code::<Sha384, 48>(&self.inner, &self.outer, parts)
    }
}

/// Returns the HMAC with SHA-256 of a text under `key`: 32 bytes.
///
/// The text is the parts joined in order. There may be no parts, and each part may be empty. The
/// key may have any length. If it is longer than 64 bytes, it is replaced by its digest.
///
/// Source: RFC 2104, section 2.
#[tactic(auto, unfolding(crate::specs::Hmac::hmac))]
pub fn hmac_sha256(key: &[u8], parts: &[&[u8]]) -> [u8; 32]
    ensures { result ≡ hmac sha256_hash key.now (joined parts.now) }
{
    HmacSha256::new(key).code(parts)
}

/// Returns the HMAC with SHA-384 of a text under `key`: 48 bytes.
///
/// The text is the parts joined in order. There may be no parts, and each part may be empty. The
/// key may have any length. If it is longer than 128 bytes, it is replaced by its digest.
///
/// Source: RFC 2104, section 2.
#[tactic(auto, unfolding(crate::specs::Hmac::hmac))]
pub fn hmac_sha384(key: &[u8], parts: &[&[u8]]) -> [u8; 48]
    ensures { result ≡ hmac sha384_hash key.now (joined parts.now) }
{
    HmacSha384::new(key).code(parts)
}

// A hasher that has taken a block under a pad. (Never inlined: its stack frame is gone before the next.)
#[inline(never)]
fn padded<D: BlockHash<N>, const N: usize, const B: usize>(block: &[u8; B], pad: u8) -> D
    requires memory { B < 2 ^ 63 }
    ensures { D.holds result (masked pad block.now) }
{
    let mut hasher = D::new();
    hasher.update(masked(block, pad));
    hasher
}

// The digest of what `outer` holds and the digest of what `inner` holds and the parts.
fn code<D: BlockHash<N>, const N: usize>(inner: &D, outer: &D, parts: &[&[u8]]) -> [u8; N]
    ensures { (front back : List ℕ) → D.holds inner.now front → D.holds outer.now back
        → result ≡ D.hash.digest (back ++ D.hash.digest (front ++ joined parts.now)) }
{
    let mut hasher = copied(inner);
    for part in parts {
        hasher.update(part);
    }
    let mut whole = copied(outer);
    whole.update(hasher.finalize());
    whole.finalize()
}

fn copied<D: BlockHash<N>, const N: usize>(hasher: &D) -> D
    ensures { result ≡ hasher.now }
{
    match hasher.clone() {
        Ok(copy) => copy,
        Err(_) => unreachable!(),
    }
}

// The key as one block.
fn block_key<D: BlockHash<N>, const N: usize, const B: usize>(key: &[u8]) -> [u8; B]
    requires block { D.hash.block_len ≡ B }
    requires digest_fits { N ≤ B }
    ensures { result ≡ block_key D.hash key.now }
{
    let mut block = [0u8; B];
    if key.len() <= B {
        block[..key.len()].copy_from_slice(key);
    } else {
        block[..N].copy_from_slice(&D::digest(key));
    }
    block
}

fn masked<const B: usize>(block: &[u8; B], pad: u8) -> [u8; B]
    ensures { result ≡ masked pad block.now }
{
    let mut bytes = *block;
    for byte in bytes.iter_mut() {
        *byte ^= pad;
    }
    bytes
}
