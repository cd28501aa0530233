//! A string of bytes of a name.

ghost use Rattle.std.specs.Prelude.{◌≡◌, ◌==◌, ℕ, List, [], ◌∷◌, ◌++◌, length, IfOk, OnErr, OnOk};
ghost use Rattle.std.specs.Cmp.Lexicographic.{pointwise};
ghost use Rattle.std.proofs.Common.{rules};
ghost use Rattle.std.specs.Cmp.Rules.{comparing};

use smallvec::SmallVec;
use std::alloc::{AllocError, Global};
use std::convert::AsSlice;
use std::marker::Model;

/// A string of bytes: a realm, or one component of a name (`KerberosString`, RFC 4120, section
/// 5.2.1). Any bytes are allowed. A contract sees it as their list.
///
/// Up to 24 bytes are held in place, without an allocation. Bytes that are made from a `Vec` with
/// room for more keep its allocation.
#[derive(Debug)]
pub struct Bytes {
    bytes: SmallVec<u8, 24>,
}

impl Model for Bytes {
    ghost Value = { List ℕ };

    ghost view = { λ b. b.bytes.items };
}

impl Bytes {
    /// Makes an empty string of bytes. Allocates no memory yet.
    pub fn new(alloc: Global) -> Self
        ensures { result ≡ [] }
    {
        Bytes {
            bytes: SmallVec::new(alloc),
        }
    }

    /// Makes a copy of `bytes`.
    ///
    /// # Errors
    /// `AllocError`: there is no memory for the copy.
    pub fn from_slice(alloc: Global, bytes: &[u8]) -> Result<Self, AllocError>
        ensures { IfOk result (λ made. made ≡ bytes.now) }
    {
        Ok(Bytes {
            bytes: SmallVec::from_slice(alloc, bytes)?,
        })
    }

    /// Returns the bytes.
    pub fn as_slice(&self) -> &[u8]
        ensures { result.now ≡ self.now }
    {
        self.bytes.as_slice()
    }

    /// Returns the number of bytes.
    pub fn len(&self) -> usize
        ensures { result ≡ length self.now }
    {
        self.as_slice().len()
    }

    /// Returns whether there are no bytes.
    pub fn is_empty(&self) -> bool
        ensures { result ≡ (length self.now == 0) }
    {
        self.as_slice().is_empty()
    }

    /// Appends `byte`. If there is no memory, the bytes are unchanged.
    pub fn push(&mut self, byte: u8) -> Result<(), AllocError>
        ensures ok { OnOk result (self.new ≡ self.old ++ byte ∷ []) }
        ensures err { OnErr result (self.new ≡ self.old) }
    {
        Ok(self.bytes.push(byte)?)
    }
}

// Written by hand, so that callers see a call and not the cases of a `SmallVec`.
impl Drop for Bytes {
    fn drop(self) {
        let Bytes { bytes } = self;
        drop(bytes);
    }
}

impl AsSlice<u8> for Bytes {
    ghost items = { λ b. b };

    fn as_slice(&self) -> &[u8] {
        Bytes::as_slice(self)
    }
}

impl From<Vec<u8>> for Bytes {
    ghost from_gives = { λ bytes made. made ≡ bytes.items };

    fn from(bytes: Vec<u8>) -> Bytes {
        Bytes {
            bytes: SmallVec::from_vec(bytes),
        }
    }
}

impl Clone for Bytes {
    ghost is_clone = { λ old made. made ≡ old };

    fn clone(&self) -> Result<Bytes, AllocError> {
        Ok(Bytes {
            bytes: self.bytes.clone()?,
        })
    }
}

impl PartialEq for Bytes {
    ghost eq = { pointwise ◌==◌ };

    ghost laws = { Prim.search (comparing, rules) };

    fn eq(&self, other: &Bytes) -> bool {
        self.as_slice() == other.as_slice()
    }
}

impl Eq for Bytes {
    ghost laws = { Prim.search (comparing, rules) };
}
