//! The hash of channel bindings.

ghost use Rattle.std.specs.Prelude.{◌≡◌, ◌++◌};
ghost use Rattle.krb_c.specs.BindingsHash.{HashesBindings, no_address, number};
ghost use Rattle.md5.specs.Md5.{md5};

use crate::answer::hand_over;
use crate::code;
use crate::structs::Answer;
use md5::{Digest, Md5};

// The type of an address and its length, if there is none.
const NO_ADDRESS: [u8; 8] = [0; 8];

/// Returns the hash of channel bindings that are an application's data, such as
/// `tls-server-end-point:` and a hash (RFC 4121, section 4.1.1.2). It allocates no memory.
#[unsafe(no_mangle)]
pub extern "C" fn fevstunik_bindings_hash(bindings: &[u8], buffer: &mut [u8]) -> Answer
    ensures { HashesBindings bindings.now buffer.old buffer.new result }
{
    match u32::try_from(bindings.len()) {
        Ok(size) => hand_over(&hash_of(size, bindings), buffer),
        Err(_) => Answer::plain(code::TOO_LONG),
    }
}

fn hash_of(size: u32, bindings: &[u8]) -> [u8; 16]
    ensures { result ≡ md5 (no_address ++ (no_address ++ (number size ++ bindings.now))) }
{
    let mut hasher = Md5::new();
    hasher.update(NO_ADDRESS);
    hasher.update(NO_ADDRESS);
    hasher.update(size.to_le_bytes());
    hasher.update(bindings);
    hasher.finalize()
}
