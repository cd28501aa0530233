//! Which entries can be used.

ghost use Rattle.std.specs.Prelude.{◌≡◌, ◌↔◌, IsTrue, IfSome};
ghost use Rattle.krb_keytab.specs.Inner.Pick.{Counts};
ghost use Rattle.krb_keytab.specs.Usable.{IsUsable};

use crate::entry::Entry;

// The encryption types of RFC 8009, and how long their keys are in bytes.
const AES128_SHA256: i16 = 19;

const AES128_KEY_LENGTH: usize = 16;

const AES256_SHA384: i16 = 20;

const AES256_KEY_LENGTH: usize = 32;

/// Which keys count.
#[derive(Clone, Copy)]
pub(crate) enum Counted {
    /// Only those that are usable with their encryption type.
    Usable,
    /// Any, whatever its length.
    Any,
}

/// Returns whether the entry has this encryption type and a key that counts.
pub(crate) fn is_key(entry: &Entry, etype: i32, counted: Counted) -> bool
    ensures { IsTrue result ↔ ((entry.now.etype ≡ etype) × Counts counted entry.now) }
{
    i32::from(entry.etype()) == etype && counts(entry, counted)
}

fn counts(entry: &Entry, counted: Counted) -> bool
    ensures { IsTrue result ↔ Counts counted entry.now }
{
    match counted {
        Counted::Usable => is_usable(entry),
        Counted::Any => true,
    }
}

fn is_usable(entry: &Entry) -> bool
    ensures { IsTrue result ↔ IsUsable entry.now }
{
    match entry.etype() {
        AES128_SHA256 => entry.key().len() == AES128_KEY_LENGTH,
        AES256_SHA384 => entry.key().len() == AES256_KEY_LENGTH,
        _ => false,
    }
}

/// Returns whether the entry has the requested version number, if one is given.
pub(crate) fn has_version(entry: &Entry, kvno: Option<u32>) -> bool
    ensures { IsTrue result ↔ IfSome kvno (λ number. entry.now.kvno ≡ number) }
{
    match kvno {
        Some(number) => entry.kvno() == number,
        None => true,
    }
}
