//! Why bytes aren't a message, and why a value wasn't encoded.

ghost use Rattle.std.specs.Prelude.{◌≡◌};

use std::alloc::AllocError;
use thiserror::Error;

/// What is wrong with the bytes.
#[derive(Clone, Copy, Debug, PartialEq, Eq)]
pub enum FaultKind {
    /// The bytes end before the element does.
    Truncated,
    /// Another element is required here.
    Tag,
    /// The length is invalid, or not in its shortest form.
    Length,
    /// A whole number is empty, not in its shortest form, out of its range, or not the constant.
    Integer,
    /// A time isn't of the form, or not in the calendar.
    Time,
    /// Flags aren't 32 bits.
    Flags,
    /// There are bytes after the last element.
    Trailing,
    /// The message has more than 1,048,576 bytes.
    TooLong,
}

/// What is wrong with the bytes, and at which offset. Displayed as `Truncated at 12`.
#[derive(Clone, Copy, Debug, PartialEq, Eq, Error)]
#[error("{kind:?} at {at}")]
pub struct Fault {
    /// The broken rule.
    pub kind: FaultKind,
    /// An offset in the input, at most its length.
    pub at: usize,
}

/// Why a value wasn't encoded.
#[derive(Debug, Drop, Error)]
pub enum EncodeFault {
    /// The message would have more than 1,048,576 bytes.
    #[error("the message would be longer than 1048576 bytes")]
    TooLong,
    /// There is no memory.
    #[error("out of memory")]
    OutOfMemory,
}

impl From<AllocError> for EncodeFault {
    ghost use Rattle.krb_der.specs.declared.fault.EncodeFault.TheVariants.{OutOfMemory};

    ghost from_gives = { λ _ e. e ≡ OutOfMemory };

    fn from(_error: AllocError) -> EncodeFault {
        EncodeFault::OutOfMemory
    }
}
