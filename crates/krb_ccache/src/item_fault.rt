//! Why a part of a cache couldn't be read.

ghost use Rattle.std.specs.Prelude.{◌≡◌};
ghost use Rattle.krb_ccache.specs.declared.item_fault.ItemFault.TheVariants.{Missing, OutOfMemory};

use krb_file::Short;
use std::alloc::AllocError;

/// Why a part of a cache couldn't be read.
#[derive(Clone, Copy)]
pub(crate) enum ItemFault {
    /// The part isn't there.
    Missing,
    /// There is no memory.
    OutOfMemory,
}

impl From<Short> for ItemFault {
    ghost from_gives = { λ _ fault. fault ≡ Missing };

    fn from(_: Short) -> ItemFault {
        ItemFault::Missing
    }
}

impl From<AllocError> for ItemFault {
    ghost from_gives = { λ _ fault. fault ≡ OutOfMemory };

    fn from(_: AllocError) -> ItemFault {
        ItemFault::OutOfMemory
    }
}
