//! What a cache contains beside its tickets: the KDC's clock offset, and configuration entries.

ghost use Rattle.std.specs.Prelude.{◌≡◌, ◌↔◌, All, IsTrue, IfNone, IfSome, codes, length};
ghost use Rattle.krb_ccache.specs.Configuration.{IsOffset, BeginsWith, IsConfiguration};
ghost use Rattle.krb_ccache.specs.Offset.{IsOffsetOf};

use crate::credential::{Credential, HeaderField};
use crate::header::OFFSET_TAG;
use krb_file::FileCursor;
use krb_name::Components;

// The realm and the first component of the server of a configuration entry.
const CONFIGURATION_REALM: &[u8] = b"X-CACHECONF:";

const CONFIGURATION_NAME: &[u8] = b"krb5_ccache_conf_data";

/// Returns the clock offset that the first field of tag 1 holds.
pub(crate) fn offset_in(header: &[HeaderField]) -> Option<(i32, i32)>
    requires { All (λ field. field.tag ≡ 1 → length field.value ≡ 8) header.now }
    ensures { IsOffsetOf header.now result }
{
    for field in header {
        if field.tag == OFFSET_TAG {
            return offset_of(field.value.as_slice());
        }
    }
    None
}

#[tactic(auto, using(crate::proofs::OffsetLaws::offset_read, crate::proofs::OffsetLaws::offset_answered, crate::proofs::OffsetLaws::first_there, crate::proofs::OffsetLaws::second_there))]
fn offset_of(value: &[u8]) -> Option<(i32, i32)>
    requires { length value.now ≡ 8 }
    ensures some { IfSome result (λ offset. IsOffset value.now offset.0 offset.1) }
    ensures none { IfNone result ⊥ }
{
    let mut cursor = FileCursor::new(value);
    let Ok(seconds) = cursor.read_i32() else {
        return None;
    };
    let Ok(microseconds) = cursor.read_i32() else {
        return None;
    };
    Some((seconds, microseconds))
}

/// Returns whether `credential` is a configuration entry.
pub(crate) fn is_entry(credential: &Credential) -> bool
    ensures { IsTrue result ↔ IsConfiguration credential.now }
{
    credential.server.realm.as_slice() == CONFIGURATION_REALM
        && has_name(&credential.server.components)
}

fn has_name(components: &Components) -> bool
    ensures { IsTrue result ↔ BeginsWith components.now (codes "krb5_ccache_conf_data") }
{
    match components.iter().next() {
        Some(first) => first == CONFIGURATION_NAME,
        None => false,
    }
}
