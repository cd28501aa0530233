//! Tags.

ghost use Rattle.std.specs.Prelude.{◌≡◌, ◌⊎◌, ◌↔◌, List, ℕ, IsTrue, length, take};
ghost use Rattle.krb_enc.specs.Sealed.{IsTag};

use std::marker::Model;

const LONGEST: usize = 24;

/// A tag of 16 bytes (type 19) or 24 (type 20), held in place. A contract sees it as the list of
/// its bytes.
#[derive(Drop)]
pub struct Tag {
    bytes: [u8; LONGEST],
    len: usize,
}

impl Model for Tag {
    ghost Value = { List ℕ };

    ghost view = { λ t. take t.len t.bytes };

    ghost invariant = { λ t. (t.len ≡ 16) ⊎ (t.len ≡ 24) };
}

impl Tag {
    pub(crate) fn new(bytes: &[u8]) -> Tag
        requires { IsTag bytes.now }
        ensures { result ≡ bytes.now }
    {
        let mut all = [0; LONGEST];
        all[..bytes.len()].copy_from_slice(bytes);
        Tag {
            bytes: all,
            len: bytes.len(),
        }
    }

    /// Returns the bytes: 16 or 24.
    pub fn as_slice(&self) -> &[u8]
        ensures value { result.now ≡ self.now }
        ensures length { IsTag self.now }
    {
        &self.bytes[..self.len]
    }

    /// Returns whether these are the bytes of the tag. Compares all of them, even after the first
    /// difference.
    pub(crate) fn is(&self, bytes: &[u8]) -> bool
        ensures { IsTrue result ↔ (bytes.now ≡ self.now) }
    {
        are_same(self.as_slice(), bytes)
    }
}

/// Whether two texts are the same. The bits in which bytes differ are collected, and checked at the
/// end.
pub(crate) fn are_same(one: &[u8], other: &[u8]) -> bool
    ensures { IsTrue result ↔ (other.now ≡ one.now) }
{
    if one.len() != other.len() {
        return false;
    }
    let mut differing = 0u8;
    for i in 0..one.len() {
        let bits = one[i] ^ other[i];
        differing |= bits;
    }
    differing == 0
}
