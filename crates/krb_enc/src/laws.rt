//! Laws of keys and of opening, for all keys and texts. Each function has an empty body: its
//! contract is the law.

ghost use Rattle.std.specs.Prelude.{◌≡◌, ◌⊎◌, ◌<◌, ◌+◌, ℕ, List, All, length};
ghost use Rattle.krb_aes.specs.Cipher.{IsBlock};
ghost use Rattle.krb_enc.specs.Sealed.{Profile, IsProfile, tag_of, checksum_of, sealed};
ghost use Rattle.krb_enc.specs.Opens.{Opens, OpensOnlyTo, OpensToNothing};
ghost use Rattle.krb_enc.specs.Backwards.{OpensBack, OpensBackOnlyTo};
ghost use Rattle.krb_enc.specs.Key.{KeyValue, IsKnown, IsUsable, profile_of};

/// What was sealed opens to its plain text and to no other, by sealing and by decryption.
pub fn sealed_text_opens()
    ensures sealed { (p : Profile) (key : List ℕ) (usage : ℕ) (confounder plain : List ℕ)
        → IsProfile p → IsBlock confounder → All (λ byte. byte < 256) plain
        → OpensOnlyTo p key usage (sealed p key usage confounder plain) plain }
    ensures undone { (p : Profile) (key : List ℕ) (usage : ℕ) (confounder plain : List ℕ)
        → IsProfile p → IsBlock confounder → All (λ byte. byte < 256) plain
        → OpensBackOnlyTo p key usage (sealed p key usage confounder plain) plain }
{}

/// For texts of bytes, a text opens exactly to what decryption makes of it: the definition by
/// sealing and the one by decryption are the same relation.
pub fn one_relation()
    ensures undone { (p : Profile) (key : List ℕ) (usage : ℕ) (text plain : List ℕ)
        → IsProfile p → Opens p key usage text plain → OpensBack p key usage text plain }
    ensures sealed { (p : Profile) (key : List ℕ) (usage : ℕ) (text plain : List ℕ)
        → IsProfile p → All (λ byte. byte < 256) text
        → OpensBack p key usage text plain → Opens p key usage text plain }
{}

/// A sealed text opens to at most one plain text.
pub fn one_plain_text()
    ensures profile { (p : Profile) (key : List ℕ) (usage : ℕ) (text one other : List ℕ)
        → IsProfile p → Opens p key usage text one → Opens p key usage text other → one ≡ other }
    ensures key { (key : KeyValue) (usage : ℕ) (text one other : List ℕ)
        → Opens (profile_of key) key.bytes usage text one
        → Opens (profile_of key) key.bytes usage text other → one ≡ other }
{}

/// Whether a text opens to some plain text is decidable.
pub fn opening_is_decided()
    ensures profile { (p : Profile) (key : List ℕ) (usage : ℕ) (text : List ℕ) → IsProfile p
        → ((plain : List ℕ) × Opens p key usage text plain)
        ⊎ OpensToNothing p key usage text }
    ensures key { (key : KeyValue) (usage : ℕ) (text : List ℕ)
        → ((plain : List ℕ) × Opens (profile_of key) key.bytes usage text plain)
        ⊎ OpensToNothing (profile_of key) key.bytes usage text }
{}

/// The profile of a key is one of the two. If the key's type is known, the profile has its number,
/// and a usable key has as many bytes as the profile asks for.
pub fn each_profile_is_known()
    ensures known { (key : KeyValue) → IsProfile (profile_of key) }
    ensures etype { (key : KeyValue) → IsKnown key.etype → (profile_of key).etype ≡ key.etype }
    ensures key_len { (key : KeyValue) → IsUsable key
        → length key.bytes ≡ (profile_of key).key_len }
{}

/// Whether a key is usable is decidable.
pub fn usable_is_decided()
    ensures { (key : KeyValue) → IsUsable key ⊎ (IsUsable key → ⊥) }
{}

/// A tag and a checksum have the length that their type says: 16 or 24 bytes.
#[tactic(auto, using(crate::proofs::Tags::lengths))]
pub fn tag_lengths()
    ensures tag { (p : Profile) (key : List ℕ) (usage : ℕ) (text : List ℕ) → IsProfile p
        → length (tag_of p key usage text) ≡ p.tag_len }
    ensures checksum { (p : Profile) (key : List ℕ) (usage : ℕ) (text : List ℕ) → IsProfile p
        → length (checksum_of p key usage text) ≡ p.tag_len }
{}

/// A sealed text is as long as its confounder (16), its plain text and its tag (16 or 24) together.
pub fn sealed_lengths()
    ensures { (p : Profile) (key : List ℕ) (usage : ℕ) (confounder plain : List ℕ) → IsProfile p
        → length confounder ≡ 16
        → length (sealed p key usage confounder plain) ≡ 16 + length plain + p.tag_len }
{}
