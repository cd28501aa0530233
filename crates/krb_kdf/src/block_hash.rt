ghost use Rattle.std.specs.Prelude.{◌≡◌, ℕ, List};
ghost use Rattle.krb_kdf.specs.Hmac.{Hash, sha256_hash, sha384_hash};

use sha2::{Digest, Sha256, Sha384};

/// A hash function of `sha2` with digests of `N` bytes over which HMAC is known to be defined.
pub(crate) trait BlockHash<const N: usize>: Digest<Output = [u8; N]> + Clone {
    // The function, with the length of its blocks.
    ghost hash: { Hash };

    // What the hasher answers is that function's digest.
    ghost digest_is: { (message digest : List ℕ) → Self.digest_of message digest
        → digest ≡ hash.digest message };

    // Cloning a hasher never fails, and gives the same hasher.
    ghost copy_is_had: { (hasher : Self) → Self.is_infallible hasher };

    ghost copy_is: { (hasher copy : Self) → Self.is_clone hasher copy → copy ≡ hasher };
}

impl BlockHash<32> for Sha256 {
    ghost hash = { sha256_hash };

    ghost digest_is = { λ message digest given. given };

    ghost copy_is_had = { λ hasher. tt };

    ghost copy_is = { λ hasher copy given. given };
}

impl BlockHash<48> for Sha384 {
    ghost hash = { sha384_hash };

    ghost digest_is = { λ message digest given. given };

    ghost copy_is_had = { λ hasher. tt };

    ghost copy_is = { λ hasher copy given. given };
}
