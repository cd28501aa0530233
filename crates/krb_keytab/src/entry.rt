//! An entry of a keytab.

ghost use Rattle.std.specs.Prelude.{◌≡◌, ◌↔◌, ◌<◌, ◌^◌, length, All, IsTrue, SomeIff, Some};
ghost use Rattle.krb_keytab.specs.Entry.{KeytabEntry, LengthsFit};
ghost use Rattle.krb_keytab.specs.Inner.KeyHash.{key_hash};
ghost use Rattle.krb_keytab.specs.Size.{name_size};
ghost use Rattle.krb_keytab.specs.Written.{record_length};

use crate::key_bytes::KeyBytes;
use crate::part::Part;
use crate::step::SIZE_LENGTH;
use krb_name::{Components, Named, Principal};
use std::fmt;
use std::hash::{FoldHasher, Hasher};
use std::marker::Model;

/// An entry of a keytab: one key of a principal. A contract sees it as the record of its parts.
///
/// It has at most 65,535 components, and each text and the key have at most 65,535 bytes, so a
/// keytab has room for it. Its `Debug` shows the version number and the encryption type, and no
/// byte of the key.
#[derive(Drop)]
pub struct Entry {
    principal: Principal,
    timestamp: u32,
    kvno: u32,
    etype: i16,
    key: KeyBytes,
}

impl Model for Entry {
    ghost Value = { KeytabEntry };

    ghost view = { λ e. record {
      principal = e.principal;
      timestamp = e.timestamp;
      kvno = e.kvno;
      etype = e.etype;
      key = e.key;
    } };

    ghost invariant = { λ e. LengthsFit e.principal e.key };
}

// The greatest count, and the greatest length in bytes, of a field of 16 bits.
const MOST: usize = 65_535;

impl Entry {
    /// Makes an entry from its parts: whose key it is, when it was written (seconds since
    /// 1970-01-01), the key's version number, its encryption type and its bytes.
    ///
    /// Returns `None` if `principal` has more than 65,535 components, or if a component, the realm
    /// or the key has more than 65,535 bytes.
    pub fn new(
        principal: Principal,
        timestamp: u32,
        kvno: u32,
        etype: i16,
        key: Vec<u8>,
    ) -> Option<Entry>
        ensures { SomeIff result (LengthsFit principal key.items) (record {
          principal = principal;
          timestamp = timestamp;
          kvno = kvno;
          etype = etype;
          key = key.items;
        }) }
    {
        if !lengths_fit(&principal, &key) {
            return None;
        }
        Some(Entry::from_parts(principal, timestamp, kvno, etype, KeyBytes::from(key)))
    }

    // Makes an entry of parts whose lengths fit.
    pub(crate) fn from_parts(
        principal: Principal,
        timestamp: u32,
        kvno: u32,
        etype: i16,
        key: KeyBytes,
    ) -> Entry
        requires { LengthsFit principal key }
        ensures { result ≡ record {
          principal = principal;
          timestamp = timestamp;
          kvno = kvno;
          etype = etype;
          key = key;
        } }
    {
        Entry {
            principal,
            timestamp,
            kvno,
            etype,
            key,
        }
    }

    /// Returns the principal whose key it is.
    pub fn principal(&self) -> &Principal
        ensures { result.now ≡ self.now.principal }
    {
        &self.principal
    }

    // How large the principal's name is.
    pub(crate) fn name_size(&self) -> usize
        ensures { result ≡ name_size self.now.principal }
    {
        let mut size = self.principal.realm.len();
        for component in self.principal.components.iter() {
            size += component.len() + 1;
        }
        size
    }

    // The type of the principal's name.
    pub(crate) fn name_type(&self) -> i32
        ensures { result ≡ self.now.principal.name_type }
    {
        self.principal.name_type
    }

    /// Returns when the entry was written, in seconds since 1970-01-01.
    pub fn timestamp(&self) -> u32
        ensures { result ≡ self.now.timestamp }
    {
        self.timestamp
    }

    /// Returns the key's version number.
    pub fn kvno(&self) -> u32
        ensures { result ≡ self.now.kvno }
    {
        self.kvno
    }

    /// Returns the key's encryption type (RFC 3961, section 8; 19 and 20 are those of RFC 8009).
    pub fn etype(&self) -> i16
        ensures { result ≡ self.now.etype }
    {
        self.etype
    }

    // The hash of the whole key.
    #[tactic(auto, unfolding(crate::specs::Inner::KeyHash::key_hash))]
    pub(crate) fn key_hash(&self) -> u32
        ensures { result ≡ key_hash self.now }
    {
        let mut hasher = FoldHasher::default();
        hasher.write_u32(self.principal.name_hash());
        hasher.write_i16(self.etype);
        hasher.write_u32(self.kvno);
        hasher.write(self.key.as_slice());
        (hasher.finish() % (1 << 32)) as u32
    }

    // How many bytes its record has, the size at its front among them.
    pub(crate) fn record_length(&self) -> usize
        ensures length { result ≡ record_length self.now }
        ensures lengths { LengthsFit self.now.principal self.now.key }
    {
        let _key = &self.key;
        SIZE_LENGTH + self.body().size()
    }

    /// Returns the bytes of the key.
    pub fn key(&self) -> &[u8]
        ensures { result.now ≡ self.now.key }
    {
        self.key.as_slice()
    }
}

impl Named for Entry {
    ghost name_of = { λ entry. entry.principal };

    fn name(&self) -> &Principal {
        &self.principal
    }
}

impl fmt::Debug for Entry {
    ghost use Rattle.krb_keytab.specs.Entry.{shown};

    ghost debug_output = { λ entry. Some (shown entry) };

    fn fmt<W: fmt::Write>(&self, f: &mut fmt::Formatter<W>) -> fmt::Result {
        let kvno = self.kvno();
        let etype = self.etype();
        write!(f, "Entry(kvno {kvno}, etype {etype})")
    }
}

fn lengths_fit(principal: &Principal, key: &[u8]) -> bool
    ensures { IsTrue result ↔ LengthsFit principal.now key.now }
{
    principal.components.len() <= MOST
        && principal.realm.len() <= MOST
        && key.len() <= MOST
        && components_fit(&principal.components)
}

fn components_fit(components: &Components) -> bool
    ensures { IsTrue result ↔ All (λ component. length component < 2 ^ 16) components.now }
{
    for component in components.iter() {
        if component.len() > MOST {
            return false;
        }
    }
    true
}
