//! The names of encryption types.

ghost use Rattle.std.specs.Prelude.{◌≡◌, IfOk, string_bytes};
ghost use Rattle.std.specs.Option.{option_map};
ghost use Rattle.krb_readable.specs.Enctype.{enctype_called, enctype_name, enctype_number, enctype_text};

use crate::named::{Named, name_in, number_called, number_in};
use std::alloc::{AllocError, Global};

// IANA's registry "Kerberos Encryption Type Numbers".
static REGISTERED: [Named; 22] = [
    Named(1, "des-cbc-crc"),
    Named(2, "des-cbc-md4"),
    Named(3, "des-cbc-md5"),
    Named(5, "des3-cbc-md5"),
    Named(7, "des3-cbc-sha1"),
    Named(9, "dsaWithSHA1-CmsOID"),
    Named(10, "md5WithRSAEncryption-CmsOID"),
    Named(11, "sha1WithRSAEncryption-CmsOID"),
    Named(12, "rc2CBC-EnvOID"),
    Named(13, "rsaEncryption-EnvOID"),
    Named(14, "rsaES-OAEP-ENV-OID"),
    Named(15, "des-ede3-cbc-Env-OID"),
    Named(16, "des3-cbc-sha1-kd"),
    Named(17, "aes128-cts-hmac-sha1-96"),
    Named(18, "aes256-cts-hmac-sha1-96"),
    Named(19, "aes128-cts-hmac-sha256-128"),
    Named(20, "aes256-cts-hmac-sha384-192"),
    Named(23, "rc4-hmac"),
    Named(24, "rc4-hmac-exp"),
    Named(25, "camellia128-cts-cmac"),
    Named(26, "camellia256-cts-cmac"),
    Named(65, "subkey-keymaterial"),
];

/// Returns the name of an encryption type in IANA's registry "Kerberos Encryption Type Numbers", if it has one there.
#[tactic(auto, unfolding(crate::specs::Enctype::enctype_name))]
pub fn enctype_name(etype: i32) -> Option<&'static str>
    ensures { option_map (λ name. name.now) result ≡ enctype_name etype }
{
    name_in(&REGISTERED, etype)
}

/// Returns the encryption type that has this name in that registry, if there is one.
#[tactic(auto, unfolding(crate::specs::Enctype::enctype_number))]
pub fn enctype_number(name: &str) -> Option<i32>
    ensures { result ≡ enctype_number name.now }
{
    number_in(&REGISTERED, name)
}

/// Returns the encryption type that has this name in that registry if the case of letters is ignored, if there is one.
#[tactic(auto, unfolding(crate::specs::Enctype::enctype_called))]
pub fn enctype_called(name: &str) -> Option<i32>
    ensures { result ≡ enctype_called name.now }
{
    number_called(&REGISTERED, name)
}

/// Returns the name of an encryption type, or its number in decimal if it has none.
pub(crate) fn enctype_text(alloc: Global, etype: i16) -> Result<String, AllocError>
    ensures { IfOk result (λ text. string_bytes text ≡ enctype_text etype) }
{
    match enctype_name(i32::from(etype)) {
        Some(name) => String::from_str(alloc, name),
        None => format!(in alloc; "{etype}"),
    }
}
