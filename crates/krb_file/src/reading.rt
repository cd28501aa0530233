//! Why bytes of a source couldn't be read.

ghost use Rattle.std.specs.Prelude.{◌≡◌};
ghost use Rattle.krb_file.specs.declared.reading.ReadFault.TheVariants.{OutOfMemory, Read as ReadFailed};

use crate::source::SourceFailed;
use std::alloc::AllocError;
use thiserror::Error;

/// Why bytes of a source couldn't be read.
#[derive(Clone, Copy, Debug, PartialEq, Eq, Error)]
pub enum ReadFault {
    /// A read failed.
    #[error("the source could not be read")]
    Read,
    /// There is no memory for the bytes.
    #[error("out of memory")]
    OutOfMemory,
}

impl From<AllocError> for ReadFault {
    ghost from_gives = { λ _ fault. fault ≡ OutOfMemory };

    fn from(_: AllocError) -> ReadFault {
        ReadFault::OutOfMemory
    }
}

impl From<SourceFailed> for ReadFault {
    ghost from_gives = { λ _ fault. fault ≡ ReadFailed };

    fn from(_: SourceFailed) -> ReadFault {
        ReadFault::Read
    }
}
