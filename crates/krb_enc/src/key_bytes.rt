//! A base key beside a prepared key of HMAC.

ghost use Rattle.std.specs.Prelude.{◌≡◌, ◌≤◌, take};
ghost use Rattle.krb_kdf.specs.Hmac.{hmac_of, joined};
ghost use Rattle.krb_enc.specs.Key.{profile_of};
ghost use Rattle.krb_enc.specs.Inner.KeyBytes.{value_of, mac_of};

use crate::enctype::Enctype;
use crate::profiles::{Sha256Aes128, Sha384Aes256};
use crate::tag::Tag;
use krb_kdf::{HmacSha256, HmacSha384};

/// The bytes of a base key, and a prepared key of HMAC with its type's hash function. Other crates
/// can't write its name.
#[derive(Drop)]
pub enum KeyBytes {
    Short([u8; 16], HmacSha256),
    Long([u8; 32], HmacSha384),
}

impl KeyBytes {
    /// Returns the first bytes of the HMAC of the parts joined in order, as many as a tag has.
    pub(crate) fn short_mac(&self, parts: &[&[u8]]) -> Tag
        ensures { result ≡ take (profile_of (value_of self.now)).tag_len
            (hmac_of (profile_of (value_of self.now)).hash (mac_of self.now) (joined parts.now)) }
    {
        match self {
            KeyBytes::Short(_, hmac) => Tag::new(&hmac.code(parts)[..Sha256Aes128::TAG_LEN]),
            KeyBytes::Long(_, hmac) => Tag::new(&hmac.code(parts)[..Sha384Aes256::TAG_LEN]),
        }
    }

    /// Returns the length of a tag.
    pub(crate) fn tag_len(&self) -> usize
        ensures value { result ≡ (profile_of (value_of self.now)).tag_len }
        ensures most { result ≤ 24 }
    {
        match self {
            KeyBytes::Short(..) => Sha256Aes128::TAG_LEN,
            KeyBytes::Long(..) => Sha384Aes256::TAG_LEN,
        }
    }
}
