//! Why a text isn't a name's.

ghost use Rattle.std.specs.Prelude.{◌≡◌};
ghost use Rattle.krb_name.specs.declared.text_fault.TextFault.TheVariants.{OutOfMemory};

use std::alloc::AllocError;
use thiserror::Error;

/// Why a text couldn't be read as a name.
#[derive(Clone, Copy, Debug, PartialEq, Eq, Error)]
pub enum TextFault {
    /// From this offset on the text isn't the text of a name.
    #[error("bad text at {at}")]
    BadText {
        /// The offset in bytes.
        at: usize,
    },
    /// There is no bare `@` in the text.
    #[error("no realm")]
    NoRealm,
    /// There is no memory for the name.
    #[error("out of memory")]
    OutOfMemory,
}

impl From<AllocError> for TextFault {
    ghost from_gives = { λ _ fault. fault ≡ OutOfMemory };

    fn from(_: AllocError) -> TextFault {
        TextFault::OutOfMemory
    }
}
