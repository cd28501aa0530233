//! The choice of an entry of an encryption type, usable or not.

ghost use Rattle.std.specs.Prelude.{◌↔◌, IsTrue};
ghost use Rattle.krb_keytab.specs.Pick.{choice_of};
ghost use Rattle.krb_file_commands.specs.OfType.{IsChoiceFor, IsUsableType};

use krb_keytab::{Keytab, Picked};
use krb_name::Principal;

// The encryption types of RFC 8009.
const AES128_SHA256: i32 = 19;

const AES256_SHA384: i32 = 20;

/// Returns whether a key of this encryption type can open a ticket.
pub(crate) fn is_usable_type(etype: i32) -> bool
    ensures { IsTrue result ↔ IsUsableType etype }
{
    etype == AES128_SHA256 || etype == AES256_SHA384
}

/// Picks an entry: as `Keytab::pick` does if the type is usable, else as `Keytab::pick_of_type` does.
pub(crate) fn pick_of<'a>(
    keytab: &'a Keytab,
    name: &Principal,
    etype: i32,
    kvno: Option<u32>,
) -> Picked<'a>
    ensures { IsChoiceFor keytab.entry.now name.now etype kvno (choice_of result) }
{
    if is_usable_type(etype) {
        keytab.pick(name, etype, kvno)
    } else {
        keytab.pick_of_type(name, etype, kvno)
    }
}
