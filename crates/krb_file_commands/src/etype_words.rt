//! The encryption type that a word of the command line stands for.

ghost use Rattle.std.specs.Prelude.{◌≡◌, IfSome, Some, ℤ, FitsSigned};
ghost use Rattle.std.specs.Int.{w32};
ghost use Rattle.krb_file_commands.specs.Words.{IsEtype, etype_named, other_number};

use krb_readable::{Named, enctype_called, number_called};

// The names that MIT krb5 reads or prints, but for those that stand for the same type in IANA's registry.
static OTHER_NAMES: [Named; 17] = [
    Named(4, "des-cbc-raw"),
    Named(6, "des3-cbc-raw"),
    Named(8, "des-hmac-sha1"),
    Named(16, "des3-cbc-sha1"),
    Named(16, "des3-hmac-sha1"),
    Named(17, "aes128-cts"),
    Named(17, "aes128-sha1"),
    Named(18, "aes256-cts"),
    Named(18, "aes256-sha1"),
    Named(19, "aes128-sha2"),
    Named(20, "aes256-sha2"),
    Named(23, "arcfour-hmac"),
    Named(23, "arcfour-hmac-md5"),
    Named(24, "arcfour-hmac-exp"),
    Named(24, "arcfour-hmac-md5-exp"),
    Named(25, "camellia128-cts"),
    Named(26, "camellia256-cts"),
];

/// Returns the encryption type that has this name, in MIT krb5 or else in IANA's registry, or else this number in decimal, with or
/// without a sign. The case of letters is ignored. `None` if there is no such type, or the number doesn't fit in 32 bits.
pub(crate) fn etype_of(text: &str) -> Option<i32>
    ensures known { IfSome result (IsEtype text.now) }
    ensures all { (etype : ℤ) → FitsSigned w32 etype → IsEtype text.now etype → result ≡ Some etype }
{
    match named(text) {
        Some(etype) => Some(etype),
        None => text.parse::<i32>().ok(),
    }
}

fn named(text: &str) -> Option<i32>
    ensures { result ≡ etype_named text.now }
{
    match other_number(text) {
        Some(number) => Some(number),
        None => enctype_called(text),
    }
}

#[tactic(auto, unfolding(crate::specs::Words::other_number))]
fn other_number(text: &str) -> Option<i32>
    ensures { result ≡ other_number text.now }
{
    number_called(&OTHER_NAMES, text)
}
