//! Laws of the definitions, for all keys and texts. Each function has an empty body: its contract
//! is the law.

ghost use Rattle.std.specs.Prelude.{◌≡◌, ◌≤◌, ℕ, List, length};
ghost use Rattle.krb_aes.specs.KeyExpansion.{IsKey};
ghost use Rattle.krb_cts.specs.Stealing.{IsText, cts};
ghost use Rattle.krb_cts.specs.Undo.{undo};

/// Decrypting an encrypted text returns the original, for keys of both sizes.
#[tactic(auto, using(crate::proofs::LawRules::laws))]
pub fn decryption_undoes_encryption()
    ensures { (key text : List ℕ) → IsKey key → IsText text → undo key (cts key text) ≡ text }
{}

/// Encrypting a decrypted text returns the original, for keys of both sizes.
#[tactic(auto, using(crate::proofs::LawRules::laws))]
pub fn encryption_undoes_decryption()
    ensures { (key text : List ℕ) → IsKey key → IsText text → cts key (undo key text) ≡ text }
{}

/// Encryption is one to one and onto at each length from 16 bytes.
#[tactic(auto, using(crate::proofs::LawRules::laws))]
pub fn encryption_is_one_to_one_and_onto()
    ensures one_to_one { (key one other : List ℕ) → IsKey key → IsText one → IsText other
        → cts key one ≡ cts key other → one ≡ other }
    ensures onto { (key text : List ℕ) → IsKey key → IsText text
        → (plain : List ℕ) × IsText plain × (length plain ≡ length text) × (cts key plain ≡ text) }
{}

/// Encrypting keeps the length of a text.
#[tactic(auto, using(crate::proofs::LawRules::laws))]
pub fn encrypting_keeps_the_length()
    ensures { (key text : List ℕ) → 16 ≤ length text → length (cts key text) ≡ length text }
{}

/// Decrypting keeps the length of a text.
#[tactic(auto, using(crate::proofs::LawRules::laws))]
pub fn undoing_keeps_the_length()
    ensures { (key text : List ℕ) → 16 ≤ length text → length (undo key text) ≡ length text }
{}

/// Encryption and decryption of bytes give bytes.
#[tactic(auto, using(crate::proofs::LawRules::laws))]
pub fn texts_stay_texts()
    ensures encrypted { (key text : List ℕ) → IsKey key → IsText text → IsText (cts key text) }
    ensures decrypted { (key text : List ℕ) → IsKey key → IsText text → IsText (undo key text) }
{}
