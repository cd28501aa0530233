//! The numbers of the encryption types (RFC 8009, section 7).

ghost use Rattle.std.specs.Prelude.{◌↔◌, IsTrue};
ghost use Rattle.krb_enc.specs.Key.{IsKnown};

/// aes128-cts-hmac-sha256-128: keys of 16 bytes, tags of 16.
pub const AES128_CTS_HMAC_SHA256_128: i32 = 19;

/// aes256-cts-hmac-sha384-192: keys of 32 bytes, tags of 24.
pub const AES256_CTS_HMAC_SHA384_192: i32 = 20;

/// Returns whether the number is that of one of the two types.
pub fn is_known(number: i32) -> bool
    ensures { IsTrue result ↔ IsKnown number }
{
    number == AES128_CTS_HMAC_SHA256_128 || number == AES256_CTS_HMAC_SHA384_192
}
