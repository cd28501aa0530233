//! Why bytes aren't a credential cache, or no cache can be returned.

ghost use Rattle.std.specs.Prelude.{◌≡◌};
ghost use Rattle.krb_ccache.specs.Types.{OutOfMemory};

use std::alloc::{AllocError, AllocFailed};
use thiserror::Error;

/// Why bytes aren't a credential cache, or no cache can be returned.
///
/// If several apply, `TooLong` comes before all others, then `Version`, then `Header`, then the
/// first item from the left that has a fault. An offset counts bytes from the start of the file. It
/// is that of the item's first byte, and is at most the length of the file.
#[derive(Clone, Copy, Debug, PartialEq, Eq, Error)]
pub enum CacheFault {
    /// The file doesn't begin with 0x05 0x04 or 0x05 0x03.
    #[error("the file isn't a credential cache of version 0x0503 or 0x0504")]
    Version,
    /// The file is of version 0x0504, and ends before its header does, or fields don't fill the
    /// header, or a field of tag 1 doesn't have 8 bytes.
    #[error("the header of the file is malformed")]
    Header,
    /// There is no principal or credential at this offset.
    #[error("there is no principal or credential at offset {at}")]
    BadItem {
        /// Where the default principal or the credential would begin, in bytes.
        at: usize,
    },
    /// The file has, or would have, more than 16,777,216 bytes.
    #[error("the file is longer than 16777216 bytes")]
    TooLong,
    /// The source couldn't be read.
    #[error("the file could not be read")]
    Read,
    /// There is no memory.
    #[error("out of memory")]
    OutOfMemory,
}

impl CacheFault {
    ghost use Rattle.krb_ccache.specs.Fault.{offset_of};

    /// Returns the offset of the faulty item, in bytes: that of `BadItem`.
    pub fn at(&self) -> Option<usize>
        ensures { result ≡ offset_of self.now }
    {
        match *self {
            CacheFault::BadItem { at } => Some(at),
            _ => None,
        }
    }
}

impl From<AllocError> for CacheFault {
    ghost from_gives = { λ _ fault. fault ≡ OutOfMemory };

    fn from(_: AllocError) -> CacheFault {
        CacheFault::OutOfMemory
    }
}

impl<T: Drop> From<AllocFailed<T>> for CacheFault {
    ghost from_gives = { λ _ fault. fault ≡ OutOfMemory };

    fn from(_: AllocFailed<T>) -> CacheFault {
        CacheFault::OutOfMemory
    }
}
