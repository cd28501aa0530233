//! The bytes of a key.

ghost use Rattle.std.specs.Prelude.{◌≡◌, ℕ, List, IfOk};

use smallvec::SmallVec;
use std::alloc::{AllocError, Global};
use std::marker::Model;

/// The bytes of a key. Up to 16 are held in place, as many as a key of enctype 17 or 19 has. A
/// contract sees them as their list.
pub(crate) struct KeyBytes {
    bytes: SmallVec<u8, 16>,
}

impl Model for KeyBytes {
    ghost Value = { List ℕ };

    ghost view = { λ k. k.bytes.items };
}

impl KeyBytes {
    /// Makes a copy of `bytes`.
    pub(crate) fn from_slice(alloc: Global, bytes: &[u8]) -> Result<KeyBytes, AllocError>
        ensures { IfOk result (λ key. key ≡ bytes.now) }
    {
        Ok(KeyBytes {
            bytes: SmallVec::from_slice(alloc, bytes)?,
        })
    }

    /// Returns the bytes.
    pub(crate) fn as_slice(&self) -> &[u8]
        ensures { result.now ≡ self.now }
    {
        self.bytes.as_slice()
    }
}

impl From<Vec<u8>> for KeyBytes {
    ghost from_gives = { λ bytes key. key ≡ bytes.items };

    fn from(bytes: Vec<u8>) -> KeyBytes {
        KeyBytes {
            bytes: SmallVec::from_vec(bytes),
        }
    }
}

// Written by hand, so that callers see a call and not the cases of a `SmallVec`.
impl Drop for KeyBytes {
    fn drop(self) {
        let KeyBytes { bytes } = self;
        drop(bytes);
    }
}
