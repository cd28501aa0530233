//! Laws of the cipher, for all keys and blocks. Each function has an empty body: its contract is
//! the law.

ghost use Rattle.std.specs.Prelude.{◌≡◌, ℕ, List};
ghost use Rattle.krb_aes.specs.KeyExpansion.{IsKey};
ghost use Rattle.krb_aes.specs.Cipher.{IsBlock, cipher, inv_cipher};

/// Decryption undoes encryption, for keys of both sizes.
#[tactic(auto, using(crate::proofs::LawRules::laws))]
pub fn decryption_undoes_encryption()
    ensures { (key block : List ℕ) → IsKey key → IsBlock block
        → inv_cipher key (cipher key block) ≡ block }
{}

/// Encryption undoes decryption, for keys of both sizes.
#[tactic(auto, using(crate::proofs::LawRules::laws))]
pub fn encryption_undoes_decryption()
    ensures { (key block : List ℕ) → IsKey key → IsBlock block
        → cipher key (inv_cipher key block) ≡ block }
{}

/// Encryption and decryption of blocks give blocks.
#[tactic(auto, using(crate::proofs::LawRules::laws))]
pub fn blocks_stay_blocks()
    ensures encrypted { (key block : List ℕ) → IsKey key → IsBlock block → IsBlock (cipher key block) }
    ensures decrypted { (key block : List ℕ) → IsKey key → IsBlock block → IsBlock (inv_cipher key block) }
{}
