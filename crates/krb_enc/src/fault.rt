//! Why a key can't be made, and why a text can't be opened.

ghost use Rattle.std.specs.Prelude.{◌≡◌};
ghost use Rattle.krb_enc.specs.declared.fault.OpenFault.TheVariants.{OutOfMemory};
ghost use Rattle.krb_enc.specs.Inner.NotSealed.{fault_of, slice_fault_of};

use std::alloc::AllocError;
use thiserror::Error;

/// Why bytes aren't a key.
#[derive(Clone, Copy, Debug, PartialEq, Eq, Error)]
pub enum KeyFault {
    /// The encryption type is neither 19 nor 20.
    #[error("the encryption type is not known")]
    UnknownEtype,
    /// The length is wrong: a key of type 19 has 16 bytes, and one of type 20 has 32.
    #[error("the key has the wrong length")]
    WrongLength,
}

/// Why a sealed text can't be opened.
#[derive(Clone, Copy, Debug, PartialEq, Eq, Error)]
pub enum OpenFault {
    /// The text is shorter than a sealed empty text: 32 bytes (type 19) or 40 (type 20).
    #[error("the sealed text is too short")]
    Short,
    /// The last bytes aren't the tag of the rest.
    #[error("the tag is wrong")]
    Integrity,
    /// There is no memory for the plain text.
    #[error("out of memory")]
    OutOfMemory,
}

/// Why a sealed text can't be opened into a slice.
#[derive(Clone, Copy, Debug, PartialEq, Eq, Error)]
pub enum OpenToFault {
    /// The text is shorter than a sealed empty text: 32 bytes (type 19) or 40 (type 20).
    #[error("the sealed text is too short")]
    Short,
    /// The last bytes aren't the tag of the rest.
    #[error("the tag is wrong")]
    Integrity,
    /// The slice is shorter than the plain text, which has this many bytes.
    #[error("the slice has fewer than {needed} bytes")]
    ShortSlice {
        /// The length of the plain text.
        needed: usize,
    },
}

/// The slice that a sealed text is to be written to is too short.
#[derive(Clone, Copy, Debug, PartialEq, Eq, Error)]
#[error("the slice has fewer than {needed} bytes")]
pub struct ShortSlice {
    /// The length of the sealed text.
    pub needed: usize,
}

/// Why a text isn't a sealed one.
#[derive(Clone, Copy, Debug, PartialEq, Eq, Error)]
pub enum NotSealed {
    /// The text is shorter than a sealed empty text: 32 bytes (type 19) or 40 (type 20).
    #[error("the sealed text is too short")]
    Short,
    /// The last bytes aren't the tag of the rest.
    #[error("the tag is wrong")]
    Integrity,
}

impl From<NotSealed> for OpenFault {
    ghost from_gives = { λ not_sealed fault. fault ≡ fault_of not_sealed };

    fn from(not_sealed: NotSealed) -> OpenFault {
        match not_sealed {
            NotSealed::Short => OpenFault::Short,
            NotSealed::Integrity => OpenFault::Integrity,
        }
    }
}

impl From<NotSealed> for OpenToFault {
    ghost from_gives = { λ not_sealed fault. fault ≡ slice_fault_of not_sealed };

    fn from(not_sealed: NotSealed) -> OpenToFault {
        match not_sealed {
            NotSealed::Short => OpenToFault::Short,
            NotSealed::Integrity => OpenToFault::Integrity,
        }
    }
}

impl From<AllocError> for OpenFault {
    ghost from_gives = { λ _ fault. fault ≡ OutOfMemory };

    fn from(_: AllocError) -> OpenFault {
        OpenFault::OutOfMemory
    }
}
