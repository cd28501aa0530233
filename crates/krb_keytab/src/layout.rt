//! The layout of an entry: its fields in the order in which they stand in a record.

ghost use Rattle.std.specs.Prelude.{◌≡◌, ◌%◌, ◌^◌, ◌++◌, IfOk, OnErr};
ghost use Rattle.std.specs.Int.{w8, w16, w32};
ghost use Rattle.krb_file.specs.Cursor.{number_bytes, signed_bytes, data_bytes};
ghost use Rattle.krb_file.proofs.Rows.{Spelling};
ghost use Rattle.krb_keytab.specs.Entry.{LengthsFit, FitsEntry};
ghost use Rattle.krb_keytab.specs.Inner.Entry.{HoldsEntry, HoldsNone};
ghost use Rattle.krb_keytab.specs.Inner.Putting.{body_bytes};

use crate::entry::Entry;
use crate::field::{Counted, Data, Field};
use crate::listed::Listed;
use crate::part::{Part, bytes_of_u16, bytes_of_u32};
use crate::view::{EntryView, counting_kvno};
use krb_file::{FileCursor, Short};
use krb_name::Components;

/// The fields of an entry after the number of its components, which are a `C`: the realm, the
/// components and a `D`. The rest of the record follows.
type FieldsOf<'a, C, D> = (Data<'a>, (C, D));

/// The name type, the timestamp, the version number in 8 bits, the encryption type and the key.
type DatedOf<'a, N, T, V, E> = (N, (T, (V, (E, Data<'a>))));

type Row<'a> = Counted<FieldsOf<'a, Listed<'a>, DatedOf<'a, i32, u32, u8, i16>>>;

type Dated<'a> = DatedOf<'a, [u8; 4], [u8; 4], [u8; 1], [u8; 2]>;

/// What is written of an entry after the size of its record, with numbers as bytes: the version
/// number in 32 bits is the rest.
type Body<'a> = (([u8; 2], FieldsOf<'a, &'a Components, Dated<'a>>), [u8; 4]);

/// What has a layout: how its fields are read and spelled.
pub(crate) trait Laid {
    type Fields;

    ghost way: { Spelling Self.Fields };
}

impl<'a> Laid for EntryView<'a> {
    type Fields = Row<'a>;

    ghost way = { ⟦<Row<'static> as Field<'static>>⟧.way 0 };
}

impl<'a> EntryView<'a> {
    /// Reads the entry at the start of the bytes of a record.
    pub(crate) fn read(body: &'a [u8]) -> Result<EntryView<'a>, Short>
        ensures read { IfOk result (λ entry. HoldsEntry body.now entry) }
        ensures short { OnErr result (HoldsNone body.now) }
    {
        let mut cursor = FileCursor::new(body);
        let row = Row::read(&mut cursor, 0)?;
        Ok(EntryView::from_row(row, cursor.rest()))
    }

    // Makes an entry of its fields, and of what follows them in its record.
    fn from_row(row: Row<'a>, rest: &'a [u8]) -> EntryView<'a>
        requires { ⟦<EntryView<'static> as Laid>⟧.way.InRange row }
        ensures { HoldsEntry (⟦<EntryView<'static> as Laid>⟧.way.bytes row.entry ++ rest.now) result }
    {
        let (realm, (components, (name_type, dated))) = row.others;
        let (timestamp, (short_kvno, (etype, key))) = dated;
        EntryView {
            realm: realm.bytes,
            components,
            name_type,
            timestamp,
            kvno: counting_kvno(short_kvno, rest),
            etype,
            key: key.bytes,
        }
    }
}

impl Entry {
    /// Returns what is written of the entry after the size of its record.
    pub(crate) fn body(&self) -> Body<'_>
        requires { LengthsFit self.now.principal self.now.key }
        ensures spelled { ⟦<Body<'static> as Part>⟧.spelled result ≡ body_bytes self.now }
        ensures lengths { ⟦<Body<'static> as Part>⟧.Fits result }
        ensures fits { FitsEntry self.now }
    {
        let name = self.principal();
        let bytes = name.realm.as_slice();
        let components = &name.components;
        let count = bytes_of_u16(components.len() as u16);
        let others = (Data { bytes }, (components, self.dated()));
        ((count, others), bytes_of_u32(self.kvno()))
    }

    // What is written of it from the name type on to the key.
    fn dated(&self) -> Dated<'_>
        requires { LengthsFit self.now.principal self.now.key }
        ensures spelled { ⟦<Dated<'static> as Part>⟧.spelled result
            ≡ signed_bytes w32 self.now.principal.name_type ++ (number_bytes w32 self.now.timestamp
            ++ (number_bytes w8 (self.now.kvno % 2 ^ 8) ++ (signed_bytes w16 self.now.etype
            ++ data_bytes w16 self.now.key))) }
        ensures lengths { ⟦<Dated<'static> as Part>⟧.Fits result }
        ensures fits { FitsEntry self.now }
    {
        let key = Data { bytes: self.key() };
        let etype = bytes_of_u16(self.etype().cast_unsigned());
        let short_kvno = [(self.kvno() % 256) as u8];
        let timestamp = bytes_of_u32(self.timestamp());
        let name_type = bytes_of_u32(self.name_type().cast_unsigned());
        (name_type, (timestamp, (short_kvno, (etype, key))))
    }
}
