//! The trait of encryption types.

ghost use Rattle.std.specs.Prelude.{◌≡◌, ◌↔◌, ◌⊎◌, ◌≤◌, ◌<◌, ◌+◌, ℕ, ℤ, List, length, All, IfOk, IsErrOf, MatchResult, vec_len};
ghost use Rattle.krb_aes.specs.Cipher.{IsBlock};
ghost use Rattle.krb_kdf.specs.Hmac.{block_key, joined};
ghost use Rattle.krb_kdf.specs.Kdf.{purpose_of};
ghost use Rattle.krb_kdf.specs.declared.purpose.Purpose.TheVariants.{Kc, Ki};
ghost use Rattle.krb_enc.specs.Sealed.{Profile, IsProfile, encryption_key, mac_key, short_mac, tag_of, checksum_of, sealed};
ghost use Rattle.krb_enc.specs.Key.{numbered};
ghost use Rattle.krb_enc.specs.Inner.Derived.{key_of, integrity_of, encryption_of};
ghost use Rattle.krb_enc.specs.Inner.KeyBytes.{value_of, mac_of};
ghost use Rattle.krb_enc.specs.Opens.{HasTag, Opens, OpensOnlyTo, OpensToNothing};
ghost use Rattle.krb_enc.specs.Backwards.{OpensBackOnlyTo};

use crate::derived::Derived;
use crate::fault::OpenFault;
use crate::key::Key;
use crate::key_bytes::KeyBytes;
use crate::tag::Tag;
use crate::texts::INITIAL_VECTOR;
use crate::usage_key::UsageKey;
use krb_aes::KeySchedule;
use krb_kdf::MacPurpose;
use std::alloc::{AllocError, Global};

/// A token that only this crate can make, because other crates can't write its name. What takes it
/// is called only here.
#[derive(Clone, Copy)]
pub struct Inside;

/// An encryption type of RFC 8009: what differs between the two types, and what is made of it for
/// both. Its calls take the bytes of a base key, or Ke, which must be `KEY_LEN` long.
///
/// Other crates can't implement the trait.
pub trait Enctype {
    /// The type's number (RFC 8009, section 7).
    const ETYPE: i32;

    /// The length of a base key, in bytes: 16 or 32.
    const KEY_LEN: usize;

    /// The length of a tag, in bytes: 16 or 24.
    const TAG_LEN: usize;

    /// The type, as the definitions of the contracts name it.
    ghost profile: { Profile };

    ghost ETYPE: { ℤ };

    ghost KEY_LEN: { ℕ };

    ghost TAG_LEN: { ℕ };

    /// Makes a base key of these bytes.
    fn base_key(inside: Inside, key: &[u8]) -> Key
        requires { length key.now ≡ KEY_LEN }
        ensures { result ≡ record { etype = ETYPE; bytes = key.now } };

    /// Derives Ki and Ke of a usage.
    ///
    /// Source: RFC 8009, section 5.
    fn derived(inside: Inside, key: &[u8], usage: u32) -> Derived
        requires { length key.now ≡ KEY_LEN }
        ensures key { key_of result ≡ record { etype = ETYPE; bytes = key.now } }
        ensures integrity { integrity_of result ≡ mac_key profile key.now usage Ki }
        ensures encryption { encryption_of result ≡ encryption_key profile key.now usage };

    /// Prepares Kc or Ki as a key of HMAC.
    fn prepared(inside: Inside, key: &[u8], mac_key: &[u8]) -> KeyBytes
        requires { length key.now ≡ KEY_LEN }
        ensures key { value_of result ≡ record { etype = ETYPE; bytes = key.now } }
        ensures mac { mac_of result ≡ block_key profile.hash mac_key.now };

    /// Expands Ke.
    fn schedule(inside: Inside, encryption_key: &[u8]) -> KeySchedule
        requires { length encryption_key.now ≡ KEY_LEN }
        ensures { result ≡ encryption_key.now };

    /// Derives Kc of a usage, and prepares it as a key of HMAC.
    ///
    /// Source: RFC 8009, section 5.
    fn checksum_key(inside: Inside, key: &[u8], usage: u32) -> KeyBytes
        requires { length key.now ≡ KEY_LEN }
        ensures key { value_of result ≡ record { etype = ETYPE; bytes = key.now } }
        ensures mac { mac_of result ≡ block_key profile.hash (mac_key profile key.now usage Kc) };

    /// Returns the first bytes of the HMAC, under Kc or Ki of a usage, of the parts joined in order: as
    /// many as a tag has.
    ///
    /// Source: RFC 8009, section 5.
    fn short_mac(
        inside: Inside,
        key: &[u8],
        usage: u32,
        purpose: MacPurpose,
        parts: &[&[u8]],
    ) -> Tag
        requires { length key.now ≡ KEY_LEN }
        ensures { result
            ≡ short_mac profile (mac_key profile key.now usage (purpose_of purpose)) (joined parts.now) };

    /// Prepares the keys of a usage. Other crates use `Key::for_usage`.
    ///
    /// Source: RFC 8009, section 5.
    final fn usage_key(_: Inside, key: &[u8], usage: u32) -> UsageKey
        requires { length key.now ≡ KEY_LEN }
        ensures { result ≡ record { key = record { etype = ETYPE; bytes = key.now }; usage = usage } }
    {
        Self::base_key(Inside, key).for_usage(usage)
    }

    /// Returns the tag of a ciphertext: 16 or 24 bytes.
    ///
    /// Source: RFC 8009, section 5.
    #[tactic(auto, unfolding(crate::specs::Sealed::tag_of))]
    final fn tag(key: &[u8], usage: u32, text: &[u8]) -> Tag
        requires { length key.now ≡ KEY_LEN }
        ensures { result ≡ tag_of profile key.now usage text.now }
    {
        Self::short_mac(Inside, key, usage, MacPurpose::Ki, &[&INITIAL_VECTOR, text])
    }

    /// Returns the checksum of a text: 16 or 24 bytes.
    ///
    /// Source: RFC 8009, section 6.
    #[tactic(auto, unfolding(crate::specs::Sealed::checksum_of))]
    final fn checksum(key: &[u8], usage: u32, text: &[u8]) -> Tag
        requires { length key.now ≡ KEY_LEN }
        ensures { result ≡ checksum_of profile key.now usage text.now }
    {
        Self::short_mac(Inside, key, usage, MacPurpose::Kc, &[text])
    }

    /// Seals `plain`: encrypts the confounder (16 random bytes, new for each call) and the plain
    /// text, and appends the tag.
    ///
    /// # Errors
    /// `AllocError`: there is no memory for the sealed text.
    ///
    /// Source: RFC 8009, section 5.
    final fn seal(
        alloc: Global,
        key: &[u8],
        usage: u32,
        confounder: &[u8; 16],
        plain: &[u8],
    ) -> Result<Vec<u8>, AllocError>
        requires { length key.now ≡ KEY_LEN }
        ensures sealed { IfOk result (λ text. text.items ≡ sealed profile key.now usage confounder.now plain.now) }
        ensures length { IfOk result (λ text. vec_len text ≡ 16 + length plain.now + TAG_LEN) }
        ensures opens { IfOk result (λ text.
            OpensOnlyTo profile key.now usage text.items plain.now) }
    {
        Self::usage_key(Inside, key, usage).seal(alloc, confounder, plain)
    }

    /// Opens the sealed `text` and returns the plain text. The tag is checked before anything is
    /// decrypted.
    ///
    /// # Errors
    /// The first that applies:
    /// - `Short`: there are fewer bytes than a confounder (16 bytes) and a tag have.
    /// - `Integrity`: the last bytes aren't the tag of the rest.
    /// - `OutOfMemory`: there is no memory for the plain text.
    ///
    /// Source: RFC 8009, section 5.
    final fn open(alloc: Global, key: &[u8], usage: u32, text: &[u8]) -> Result<Vec<u8>, OpenFault>
        requires { length key.now ≡ KEY_LEN }
        ensures opened { IfOk result (λ plain. Opens profile key.now usage text.now plain.items) }
        // A text that opens is answered by its plain text, memory aside.
        ensures found { (plain : List ℕ) → Opens profile key.now usage text.now plain
            → MatchResult result
            (λ answer. answer.items ≡ plain) (λ fault. fault ≡ OpenFault.OutOfMemory) }
        // Short or Integrity is answered exactly if nothing opens.
        ensures refused { (IsErrOf result OpenFault.Short ⊎ IsErrOf result OpenFault.Integrity)
            ↔ OpensToNothing profile key.now usage text.now }
        ensures short { IsErrOf result OpenFault.Short ↔ (length text.now < 16 + TAG_LEN) }
        ensures integrity { IsErrOf result OpenFault.Integrity
            ↔ ((16 + TAG_LEN ≤ length text.now) × (HasTag profile key.now usage text.now → ⊥)) }
        ensures memory { IsErrOf result OpenFault.OutOfMemory
            → (16 + TAG_LEN ≤ length text.now) × HasTag profile key.now usage text.now }
    {
        Self::usage_key(Inside, key, usage).open(alloc, text)
    }

    /// States that a sealed text opens to its plain text and to no other, by sealing and by
    /// decryption. It does nothing: its contract is the law.
    final fn sealed_opens()
        ensures sealed { (key : List ℕ) (usage : ℕ) (confounder plain : List ℕ)
            → IsBlock confounder → All (λ byte. byte < 256) plain
            → OpensOnlyTo profile key usage (sealed profile key usage confounder plain) plain }
        ensures undone { (key : List ℕ) (usage : ℕ) (confounder plain : List ℕ)
            → IsBlock confounder → All (λ byte. byte < 256) plain
            → OpensBackOnlyTo profile key usage (sealed profile key usage confounder plain) plain }
    {}

    /// The type is one of the two, with these numbers.
    ghost is_profile: { IsProfile profile };

    ghost etype_is: { profile.etype ≡ ETYPE };

    ghost numbered_is: { numbered ETYPE ≡ profile };

    ghost key_len_is: { profile.key_len ≡ KEY_LEN };

    ghost tag_len_is: { profile.tag_len ≡ TAG_LEN };
}
