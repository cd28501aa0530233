//! Fields that stand one after another, read in place.

ghost use Rattle.std.specs.Prelude.{◌≡◌, ◌<◌, ℕ, IfOk, OnErr, None, Some};
ghost use Rattle.krb_file.proofs.CursorLaws.{IsField-u8, IsField-u16, IsField-u32, IsField-i16, IsField-i32, IsField-data16};
ghost use Rattle.krb_file.proofs.Rows.{Spelling, spelling, followed};

use krb_file::{FileCursor, Short};
use std::marker::Model;

/// A field of a record, or a row of fields in nested pairs, that borrows the record's bytes.
pub(crate) trait Field<'a>: Sized {
    /// How it is read and spelled, if its row began with this count.
    ghost way: { ℕ → Spelling Self };

    /// Reads the field that begins here, and moves past it. On an error the position is unspecified.
    fn read(cursor: &mut FileCursor<'a>, count: u16) -> Result<Self, Short>
        ensures read { IfOk result (λ field. (way count).read cursor.old ≡ Some (field, cursor.new)) }
        ensures short { OnErr result ((way count).read cursor.old ≡ None) };
}

impl<'a, A: Field<'a> + Drop, B: Field<'a> + Drop> Field<'a> for (A, B) {
    ghost way = { λ count. followed (A.way count) (λ _. B.way count) };

    fn read(cursor: &mut FileCursor<'a>, count: u16) -> Result<(A, B), Short> {
        let first = A::read(cursor, count)?;
        let others = B::read(cursor, count)?;
        Ok((first, others))
    }
}

impl<'a> Field<'a> for u8 {
    ghost way = { λ _. spelling IsField-u8 };

    fn read(cursor: &mut FileCursor<'a>, _: u16) -> Result<u8, Short> {
        cursor.read_u8()
    }
}

/// A count, and a row of fields, one of which has so many parts.
#[derive(Drop)]
pub(crate) struct Counted<R> {
    pub(crate) count: u16,
    pub(crate) others: R,
}

impl<R> Model for Counted<R> {
    ghost use Rattle.std.specs.Prelude.{ℕ};

    ghost Value = { ℕ × R };

    ghost view = { λ c. (c.count, c.others) };
}

impl<'a, R: Field<'a> + Drop> Field<'a> for Counted<R> {
    ghost way = { λ _. followed (spelling IsField-u16) R.way };

    fn read(cursor: &mut FileCursor<'a>, _: u16) -> Result<Counted<R>, Short> {
        let count = cursor.read_u16()?;
        let others = R::read(cursor, count)?;
        Ok(Counted { count, others })
    }
}

/// Bytes after their length, a number of 16 bits.
#[derive(Drop)]
pub(crate) struct Data<'a> {
    pub(crate) bytes: &'a [u8],
}

impl<'a> Model for Data<'a> {
    ghost use Rattle.std.specs.Prelude.{ℕ, List};

    ghost Value = { List ℕ };

    ghost view = { λ d. d.bytes.now };
}

impl<'a> Field<'a> for Data<'a> {
    ghost way = { λ _. spelling IsField-data16 };

    fn read(cursor: &mut FileCursor<'a>, _: u16) -> Result<Data<'a>, Short> {
        let bytes = cursor.read_data16()?;
        Ok(Data { bytes })
    }
}

impl<'a> Field<'a> for i32 {
    ghost way = { λ _. spelling IsField-i32 };

    fn read(cursor: &mut FileCursor<'a>, _: u16) -> Result<i32, Short> {
        cursor.read_i32()
    }
}

impl<'a> Field<'a> for u32 {
    ghost way = { λ _. spelling IsField-u32 };

    fn read(cursor: &mut FileCursor<'a>, _: u16) -> Result<u32, Short> {
        cursor.read_u32()
    }
}

impl<'a> Field<'a> for i16 {
    ghost way = { λ _. spelling IsField-i16 };

    fn read(cursor: &mut FileCursor<'a>, _: u16) -> Result<i16, Short> {
        cursor.read_i16()
    }
}
