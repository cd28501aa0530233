//! Keys of one usage.

ghost use Rattle.std.specs.Prelude.{◌≡◌, ◌↔◌, ◌⊎◌, ◌≤◌, ◌<◌, ◌+◌, ℕ, List, length, take, drop, vec_len, IfOk, IfErr, IsErr, IsErrOf, IsTrue, MatchResult};
ghost use Rattle.krb_enc.specs.Key.{UsageKeyValue, profile_of};
ghost use Rattle.krb_enc.specs.Sealed.{encryption_key, tag_of, sealed};
ghost use Rattle.krb_enc.specs.Opens.{IsShort, HasTag, Opens, OpensOnlyTo, OpensToNothing, body_of};
ghost use Rattle.krb_cts.specs.Undo.{undo};
ghost use Rattle.krb_enc.specs.Written.{IsWritten};
ghost use Rattle.krb_enc.specs.Inner.KeyBytes.{value_of, IsReadyFor};

use crate::derived::Derived;
use crate::enctype::{Enctype, Inside};
use crate::fault::{NotSealed, OpenFault, OpenToFault, ShortSlice};
use crate::key::Key;
use crate::key_bytes::KeyBytes;
use crate::profiles::{Sha256Aes128, Sha384Aes256};
use crate::tag::{Tag, are_same};
use crate::texts::{CONFOUNDER_LEN, INITIAL_VECTOR, decrypted, encrypt_to, encrypted};
use krb_aes::KeySchedule;
use std::alloc::{AllocError, Global};
use std::marker::Model;

/// The keys of a base key for one key usage, prepared once for many texts: Ke with its round keys,
/// and Ki as a key of HMAC. They are held in place.
///
/// A contract sees the base key and the usage. The type has no `Debug`, so no log shows a key.
#[derive(Drop)]
pub struct UsageKey {
    bytes: KeyBytes,
    usage: u32,
    schedule: KeySchedule,
}

impl Model for UsageKey {
    ghost Value = { UsageKeyValue };

    ghost view = { λ k. record { key = value_of k.bytes; usage = k.usage } };

    ghost invariant = { λ k. IsReadyFor k.bytes k.usage k.schedule };
}

impl Key {
    /// Prepares the keys of `usage`, for sealing or opening many texts.
    ///
    /// Source: RFC 8009, section 5.
    #[inline(never)]
    pub fn for_usage(&self, usage: u32) -> UsageKey
        ensures { result ≡ record { key = self.now; usage = usage } }
    {
        let keys = Derived::new(&self.bytes, usage);
        UsageKey {
            bytes: keys.key_bytes(),
            usage,
            // (A function that chose would hold the schedule once more on the stack.)
            schedule: match &keys {
                Derived::Short { encryption, .. } => Sha256Aes128::schedule(Inside, encryption),
                Derived::Long { encryption, .. } => Sha384Aes256::schedule(Inside, encryption),
            },
        }
    }
}

impl UsageKey {
    /// Returns whether these are the keys of the base key of type `etype` with the bytes `key`, for
    /// `usage`.
    ///
    /// Compares all bytes, even after the first difference.
    pub fn is_for(&self, etype: i32, key: &[u8], usage: u32) -> bool
        ensures { IsTrue result
            ↔ (self.now ≡ record { key = record { etype = etype; bytes = key.now }; usage = usage }) }
    {
        let is_same_key = match &self.bytes {
            KeyBytes::Short(bytes, _) => etype == Sha256Aes128::ETYPE && are_same(bytes, key),
            KeyBytes::Long(bytes, _) => etype == Sha384Aes256::ETYPE && are_same(bytes, key),
        };
        is_same_key && self.usage == usage
    }

    /// Seals `plain` under the base key for the usage: encrypts the confounder and the plain text,
    /// and appends the tag of 16 bytes (type 19) or 24 (type 20).
    ///
    /// `confounder` is 16 random bytes, new for each call.
    ///
    /// # Errors
    /// `AllocError`: there is no memory for the sealed text.
    ///
    /// Source: RFC 8009, section 5.
    pub fn seal(
        &self,
        alloc: Global,
        confounder: &[u8; 16],
        plain: &[u8],
    ) -> Result<Vec<u8>, AllocError>
        ensures sealed { IfOk result (λ text. text.items
            ≡ sealed (profile_of self.now.key) self.now.key.bytes self.now.usage confounder.now plain.now) }
        ensures length { IfOk result (λ text.
            vec_len text ≡ 16 + length plain.now + (profile_of self.now.key).tag_len) }
        ensures opens { IfOk result (λ text.
            OpensOnlyTo (profile_of self.now.key) self.now.key.bytes self.now.usage text.items plain.now) }
    {
        let mut text = encrypted(alloc, self.schedule(), confounder, plain, self.tag_len())?;
        let tag = self.tag(&text);
        text.extend_from_slice(tag.as_slice())?;
        Ok(text)
    }

    /// Seals `plain` as `seal` does, writes the sealed text to the start of `text` and returns its
    /// length. The rest of `text` is unchanged. Allocates no memory.
    ///
    /// # Errors
    /// `ShortSlice`: the sealed text is longer than `text`, which is unchanged.
    ///
    /// Source: RFC 8009, section 5.
    pub fn seal_to(
        &self,
        confounder: &[u8; 16],
        plain: &[u8],
        text: &mut [u8],
    ) -> Result<usize, ShortSlice>
        ensures sealed { IsWritten ShortSlice (λ needed. record { needed = needed })
            (sealed (profile_of self.now.key) self.now.key.bytes self.now.usage confounder.now plain.now)
            text.old text.new result }
        ensures length { IfOk result (λ size.
            size ≡ 16 + length plain.now + (profile_of self.now.key).tag_len) }
        ensures opens { IfOk result (λ size.
            OpensOnlyTo (profile_of self.now.key) self.now.key.bytes self.now.usage (take size text.new) plain.now) }
    {
        let body_len = CONFOUNDER_LEN + plain.len();
        let tag_len = self.tag_len();
        let needed = body_len + tag_len;
        if text.len() < needed {
            return Err(ShortSlice { needed });
        }
        let (body, rest) = text.split_at_mut(body_len);
        encrypt_to(self.schedule(), confounder, plain, body);
        rest[..tag_len].copy_from_slice(self.tag(body).as_slice());
        Ok(needed)
    }

    /// Opens `text`, which was sealed under the base key for the usage, and returns the plain text.
    ///
    /// The tag is checked before anything is decrypted.
    ///
    /// # Errors
    /// The first that applies:
    /// - `Short`: there are fewer than 32 bytes (type 19) or 40 (type 20).
    /// - `Integrity`: the last 16 or 24 bytes aren't the tag of the rest.
    /// - `OutOfMemory`: there is no memory for the plain text.
    ///
    /// Source: RFC 8009, section 5.
    pub fn open(&self, alloc: Global, text: &[u8]) -> Result<Vec<u8>, OpenFault>
        ensures opened { IfOk result (λ plain.
            Opens (profile_of self.now.key) self.now.key.bytes self.now.usage text.now plain.items) }
        // A text that opens is answered by its plain text, memory aside.
        ensures found { (plain : List ℕ)
            → Opens (profile_of self.now.key) self.now.key.bytes self.now.usage text.now plain
            → MatchResult result
            (λ answer. answer.items ≡ plain) (λ fault. fault ≡ OpenFault.OutOfMemory) }
        // Short or Integrity is answered exactly if nothing opens.
        ensures refused { (IsErrOf result OpenFault.Short ⊎ IsErrOf result OpenFault.Integrity)
            ↔ OpensToNothing (profile_of self.now.key) self.now.key.bytes self.now.usage text.now }
        ensures short { IsErrOf result OpenFault.Short ↔ IsShort (profile_of self.now.key) text.now }
        ensures integrity { IsErrOf result OpenFault.Integrity
            ↔ ((16 + (profile_of self.now.key).tag_len ≤ length text.now)
            × (HasTag (profile_of self.now.key) self.now.key.bytes self.now.usage text.now → ⊥)) }
        ensures memory { IsErrOf result OpenFault.OutOfMemory
            → (16 + (profile_of self.now.key).tag_len ≤ length text.now)
            × HasTag (profile_of self.now.key) self.now.key.bytes self.now.usage text.now }
    {
        let body = self.body(text)?;
        Ok(decrypted(alloc, self.schedule(), body)?)
    }

    /// Opens `text` as `open` does, writes the plain text to the start of `plain` and returns its
    /// length. The rest of `plain` is unchanged. Allocates no memory.
    ///
    /// # Errors
    /// The first that applies. In each case `plain` is unchanged, and nothing is decrypted.
    /// - `Short`: there are fewer than 32 bytes (type 19) or 40 (type 20).
    /// - `Integrity`: the last 16 or 24 bytes aren't the tag of the rest.
    /// - `ShortSlice`: the plain text is longer than `plain`.
    ///
    /// Source: RFC 8009, section 5.
    pub fn open_to(&self, text: &[u8], plain: &mut [u8]) -> Result<usize, OpenToFault>
        // What a text opens to is written, if there is room.
        ensures found { (opened : List ℕ)
            → Opens (profile_of self.now.key) self.now.key.bytes self.now.usage text.now opened
            → IsWritten OpenToFault OpenToFault.ShortSlice opened plain.old plain.new result }
        ensures opened { IfOk result (λ size.
            Opens (profile_of self.now.key) self.now.key.bytes self.now.usage text.now (take size plain.new)) }
        // Short or Integrity is answered exactly if nothing opens.
        ensures refused { (IsErrOf result OpenToFault.Short ⊎ IsErrOf result OpenToFault.Integrity)
            ↔ OpensToNothing (profile_of self.now.key) self.now.key.bytes self.now.usage text.now }
        ensures short { IsErrOf result OpenToFault.Short ↔ IsShort (profile_of self.now.key) text.now }
        ensures integrity { IsErrOf result OpenToFault.Integrity
            ↔ ((16 + (profile_of self.now.key).tag_len ≤ length text.now)
            × (HasTag (profile_of self.now.key) self.now.key.bytes self.now.usage text.now → ⊥)) }
        ensures room { (needed : ℕ) → IsErrOf result (OpenToFault.ShortSlice needed)
            → (opened : List ℕ) × (needed ≡ length opened)
            × Opens (profile_of self.now.key) self.now.key.bytes self.now.usage text.now opened }
        ensures unchanged { IfErr result (λ _. plain.new ≡ plain.old) }
    {
        let body = self.body(text)?;
        let needed = body.len() - CONFOUNDER_LEN;
        if plain.len() < needed {
            return Err(OpenToFault::ShortSlice { needed });
        }
        krb_cts::decrypt_after_first(self.schedule(), body, &mut plain[..needed]);
        Ok(needed)
    }

    /// Seals a plain text in place: what stands in `text` after the first 16 bytes and before the
    /// last 16 (type 19) or 24 (type 20). The confounder takes the first bytes and the tag the last.
    /// Allocates no memory.
    ///
    /// # Errors
    /// `ShortSlice`: there are fewer bytes than a sealed empty text has. `text` is unchanged.
    ///
    /// Source: RFC 8009, section 5.
    pub fn seal_in_place(&self, confounder: &[u8; 16], text: &mut [u8]) -> Result<(), ShortSlice>
        ensures sealed { IfOk result (λ _. text.new
            ≡ sealed (profile_of self.now.key) self.now.key.bytes self.now.usage confounder.now
            (drop 16 (body_of (profile_of self.now.key) text.old))) }
        ensures length { length text.new ≡ length text.old }
        ensures short { IsErr result ↔ IsShort (profile_of self.now.key) text.old }
        ensures needed { IfErr result (λ short. short.needed ≡ 16 + (profile_of self.now.key).tag_len) }
        ensures unchanged { IfErr result (λ _. text.new ≡ text.old) }
    {
        let tag_len = self.tag_len();
        let needed = CONFOUNDER_LEN + tag_len;
        if text.len() < needed {
            return Err(ShortSlice { needed });
        }
        let body_len = text.len() - tag_len;
        let (body, end) = text.split_at_mut(body_len);
        body[..CONFOUNDER_LEN].copy_from_slice(confounder);
        krb_cts::encrypt(self.schedule(), body);
        end.copy_from_slice(self.tag(body).as_slice());
        Ok(())
    }

    /// Opens a text in place: leaves the plain text after the first 16 bytes and before the last 16
    /// (type 19) or 24 (type 20). The first bytes are the confounder then, and the last still the
    /// tag. Allocates no memory.
    ///
    /// # Errors
    /// The first that applies. In each case `text` is unchanged, and nothing is decrypted.
    /// - `Short`: there are fewer than 32 bytes (type 19) or 40 (type 20).
    /// - `Integrity`: the last 16 or 24 bytes aren't the tag of the rest.
    ///
    /// Source: RFC 8009, section 5.
    pub fn open_in_place(&self, text: &mut [u8]) -> Result<(), NotSealed>
        ensures opened { IfOk result (λ _.
            Opens (profile_of self.now.key) self.now.key.bytes self.now.usage text.old
            (drop 16 (body_of (profile_of self.now.key) text.new))) }
        ensures length { length text.new ≡ length text.old }
        // An error is returned exactly if nothing opens.
        ensures refused { IsErr result
            ↔ OpensToNothing (profile_of self.now.key) self.now.key.bytes self.now.usage text.old }
        ensures short { IsErrOf result NotSealed.Short ↔ IsShort (profile_of self.now.key) text.old }
        ensures integrity { IsErrOf result NotSealed.Integrity
            ↔ ((16 + (profile_of self.now.key).tag_len ≤ length text.old)
            × (HasTag (profile_of self.now.key) self.now.key.bytes self.now.usage text.old → ⊥)) }
        ensures unchanged { IfErr result (λ _. text.new ≡ text.old) }
    {
        let _ = self.body(text)?;
        let body_len = text.len() - self.tag_len();
        krb_cts::decrypt(self.schedule(), &mut text[..body_len]);
        Ok(())
    }

    // What comes before the tag of a text that has its tag.
    fn body<'t>(&self, text: &'t [u8]) -> Result<&'t [u8], NotSealed>
        ensures is { IfOk result (λ body. body.now ≡ body_of (profile_of self.now.key) text.now) }
        ensures opens { IfOk result (λ body.
            Opens (profile_of self.now.key) self.now.key.bytes self.now.usage text.now
            (drop 16 (undo (encryption_key (profile_of self.now.key) self.now.key.bytes self.now.usage) body.now))) }
        ensures confounder { IfOk result (λ body. 16 ≤ length body.now) }
        ensures long { IfOk result (λ _. 16 + (profile_of self.now.key).tag_len ≤ length text.now) }
        ensures tagged { IfOk result (λ _.
            HasTag (profile_of self.now.key) self.now.key.bytes self.now.usage text.now) }
        ensures refused { IfErr result (λ _.
            OpensToNothing (profile_of self.now.key) self.now.key.bytes self.now.usage text.now) }
        ensures short { IsErrOf result NotSealed.Short ↔ IsShort (profile_of self.now.key) text.now }
        ensures integrity { IsErrOf result NotSealed.Integrity
            ↔ ((16 + (profile_of self.now.key).tag_len ≤ length text.now)
            × (HasTag (profile_of self.now.key) self.now.key.bytes self.now.usage text.now → ⊥)) }
    {
        let tag_len = self.tag_len();
        if text.len() < CONFOUNDER_LEN + tag_len {
            return Err(NotSealed::Short);
        }
        let (body, end) = text.split_at(text.len() - tag_len);
        if self.tag(body).is(end) {
            Ok(body)
        } else {
            Err(NotSealed::Integrity)
        }
    }

    fn schedule(&self) -> &KeySchedule
        ensures { result.now
            ≡ encryption_key (profile_of self.now.key) self.now.key.bytes self.now.usage }
    {
        &self.schedule
    }

    /// Returns the length of a tag: 16 bytes (type 19) or 24 (type 20).
    pub fn tag_len(&self) -> usize
        ensures value { result ≡ (profile_of self.now.key).tag_len }
        ensures most { result ≤ 24 }
    {
        self.bytes.tag_len()
    }

    #[tactic(auto, unfolding(crate::specs::Sealed::tag_of, krb_kdf::specs::Hmac::hmac))]
    fn tag(&self, text: &[u8]) -> Tag
        ensures { result
            ≡ tag_of (profile_of self.now.key) self.now.key.bytes self.now.usage text.now }
    {
        self.bytes.short_mac(&[&INITIAL_VECTOR, text])
    }
}
