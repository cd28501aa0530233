//! The components of a name as they lie in a record.

ghost use Rattle.std.specs.Prelude.{◌≡◌, ◌<◌, ◌^◌, IfOk, OnOk, OnErr, None, length};
ghost use Rattle.std.specs.Int.{w16};
ghost use Rattle.krb_file.specs.Cursor.{data_at, data_bytes, times_at};
ghost use Rattle.krb_file.proofs.CursorLaws.{IsField-data16};
ghost use Rattle.krb_file.proofs.Repeated.{IsField-times};
ghost use Rattle.krb_file.proofs.Rows.{spelling};
ghost use Rattle.krb_keytab.specs.Inner.Entry.{listed, IsRead, IsPassed};

use crate::field::Field;
use krb_file::{FileCursor, Short};
use krb_name::Components;
use std::alloc::{AllocError, Global};
use std::marker::Model;

/// Components that borrow the bytes of a record, one after another.
#[derive(Drop)]
pub(crate) struct Listed<'a> {
    count: u16,
    // How many bytes they take, with their lengths.
    len: usize,
    // The components, and what comes after them.
    bytes: &'a [u8],
}

impl<'a> Model for Listed<'a> {
    ghost use Rattle.std.specs.Prelude.{ℕ, List};
    ghost use Rattle.krb_keytab.specs.Inner.Entry.{components_at, listed, IsRead};

    ghost Value = { List (List ℕ) };

    ghost view = { λ l. listed (components_at l.count l.bytes.now) };

    ghost invariant = { λ l. IsRead (components_at l.count l.bytes.now) };
}

impl<'a> Field<'a> for Listed<'a> {
    ghost way = { λ count. spelling (IsField-times (data_at w16) (data_bytes w16) (λ bytes. length bytes < 2 ^ 16) IsField-data16 count) };

    fn read(cursor: &mut FileCursor<'a>, count: u16) -> Result<Listed<'a>, Short> {
        let bytes = cursor.rest();
        skip_components(cursor, count)?;
        let len = bytes.len().saturating_sub(cursor.rest().len());
        Ok(Listed { count, len, bytes })
    }
}

impl<'a> Listed<'a> {
    /// Copies the components.
    #[tactic(auto, using(krb_file::proofs::Repeated::times_goes_on, krb_file::proofs::Repeated::times_stops, krb_file::proofs::Repeated::times_done))]
    pub(crate) fn to_components(&self, alloc: Global) -> Result<Components, AllocError>
        ensures { IfOk result (λ components. components ≡ self.now) }
    {
        let count = self.count;
        let mut cursor = FileCursor::new(self.bytes);
        let lengths = usize::from(count) * 2;
        let mut components = Components::with_room(
            alloc,
            usize::from(count),
            self.len.saturating_sub(lengths),
        )?;
        for _ in 0..count {
            // Can't fail: the invariant says that `count` components are here.
            let Ok(component) = cursor.read_data16() else {
                break;
            };
            components.push(component)?;
        }
        Ok(components)
    }
}

fn skip_components(cursor: &mut FileCursor<'_>, count: u16) -> Result<(), Short>
    ensures ok { OnOk result (IsPassed (times_at (data_at w16) count cursor.old) cursor.new) }
    ensures short { OnErr result (times_at (data_at w16) count cursor.old ≡ None) }
{
    for _ in 0..count {
        cursor.read_data16()?;
    }
    Ok(())
}
