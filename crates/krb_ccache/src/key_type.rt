//! The encryption type of a key.

ghost use Rattle.std.specs.Prelude.{FitsSigned};
ghost use Rattle.std.specs.Int.{w16};
ghost use Rattle.krb_file.specs.Cursor.{signed_bytes};
ghost use Rattle.krb_ccache.specs.Inner.Row.{signed_field, second_field, both_fields};

use crate::field::Field;
use crate::item_fault::ItemFault;
use crate::layout::Layout;
use crate::part::Part;
use crate::walking::{Left, TakeFault, leave};
use crate::writing::write_u16;
use krb_file::{Feed, FileCursor};
use std::alloc::{AllocError, Global};

// How many bytes one copy has.
const SIZE: usize = 2;

/// The encryption type of a key. Version 0x0503 has a second copy of it, which may be any bytes.
#[derive(Drop)]
pub(crate) struct KeyType {
    pub(crate) etype: i16,
}

impl Field for KeyType {
    ghost fields = { both_fields signed_field second_field };

    ghost value = { λ raw. record { etype = raw.0 } };

    fn read(_: Global, layout: Layout, cursor: &mut FileCursor<'_>) -> Result<KeyType, ItemFault> {
        let etype = cursor.read_i16()?;
        cursor.read_bytes(layout.second_size())?;
        Ok(KeyType { etype })
    }

    #[tactic(auto, using(crate::proofs::WalkParts::key_type_passed))]
    fn take<T: Feed>(layout: Layout, feed: &mut T, left: Left) -> Result<Left, TakeFault> {
        Ok(leave(feed, left, SIZE + layout.second_size()))
    }
}

// The second copy isn't written.
impl Part for KeyType {
    ghost spelled = { λ key_type. signed_bytes w16 key_type.etype };

    ghost Fits = { λ _. Unit {0} };

    ghost InRange = { λ key_type. FitsSigned w16 key_type.etype };

    fn fits(&self) -> bool {
        let _etype = self.etype;
        true
    }

    #[tactic(auto, using(crate::proofs::RoomLaws::sizes))]
    fn behind(&self, left: usize) -> Option<usize> {
        left.checked_sub(SIZE)
    }

    fn write(&self, out: &mut Vec<u8>) -> Result<(), AllocError> {
        write_u16(out, self.etype.cast_unsigned())
    }
}
