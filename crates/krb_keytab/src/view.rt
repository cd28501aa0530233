//! An entry as it lies in its record.

ghost use Rattle.std.specs.Prelude.{◌≡◌, IfOk};
ghost use Rattle.krb_keytab.specs.Entry.{KeytabEntry, LengthsFit};
ghost use Rattle.krb_keytab.specs.Format.{full_kvno};

use crate::entry::Entry;
use crate::key_bytes::KeyBytes;
use crate::listed::Listed;
use krb_name::{Bytes, Principal};
use std::alloc::{AllocError, Global};
use std::marker::Model;

/// An entry that borrows the bytes of its record; nothing of it has been copied.
#[derive(Drop)]
pub(crate) struct EntryView<'a> {
    pub(crate) realm: &'a [u8],
    pub(crate) components: Listed<'a>,
    pub(crate) name_type: i32,
    pub(crate) timestamp: u32,
    pub(crate) kvno: u32,
    pub(crate) etype: i16,
    pub(crate) key: &'a [u8],
}

impl<'a> Model for EntryView<'a> {
    ghost Value = { KeytabEntry };

    ghost view = { λ e. record {
      principal = record {
        realm = e.realm.now;
        name_type = e.name_type;
        components = e.components;
      };
      timestamp = e.timestamp;
      kvno = e.kvno;
      etype = e.etype;
      key = e.key.now;
    } };

    ghost invariant = { λ e. LengthsFit (record {
      realm = e.realm.now;
      name_type = e.name_type;
      components = e.components;
    }) e.key.now };
}

impl<'a> EntryView<'a> {
    /// Copies the entry.
    pub(crate) fn to_entry(&self, alloc: Global) -> Result<Entry, AllocError>
        ensures { IfOk result (λ entry. entry ≡ self.now) }
    {
        let principal = Principal {
            realm: Bytes::from_slice(alloc, self.realm)?,
            name_type: self.name_type,
            components: self.components.to_components(alloc)?,
        };
        let key = KeyBytes::from_slice(alloc, self.key)?;
        Ok(Entry::from_parts(principal, self.timestamp, self.kvno, self.etype, key))
    }
}

/// The version number: that of 32 bits in the rest of a record, if it is there and isn't 0.
pub(crate) fn counting_kvno(short_kvno: u8, rest: &[u8]) -> u32
    ensures { result ≡ full_kvno short_kvno rest.now }
{
    match rest {
        [a, b, c, d, ..] => match u32::from_be_bytes([*a, *b, *c, *d]) {
            0 => u32::from(short_kvno),
            kvno => kvno,
        },
        _ => u32::from(short_kvno),
    }
}
