//! The hash of channel bindings.

ghost use Rattle.std.specs.Prelude.{◌≡◌, ◌≢◌, ◌↔◌, IsTrue, SomeIff};
ghost use Rattle.krb_login.specs.NoBindings.{none_sent};

use std::marker::Model;

/// The MD5 hash of channel bindings (RFC 4121, section 4.1.1.2). It isn't 16 zeros, which say that a
/// client has no bindings.
#[derive(Clone, Copy, Debug, PartialEq, Eq)]
pub struct BindingsHash {
    bytes: [u8; 16],
}

impl Model for BindingsHash {
    ghost use Rattle.std.specs.Prelude.{◌≢◌, ℕ, List};
    ghost use Rattle.krb_login.specs.NoBindings.{none_sent};

    ghost Value = { List ℕ };

    ghost view = { λ hash. hash.bytes };

    ghost invariant = { λ hash. hash.bytes ≢ none_sent };

    ghost inverse = { λ bytes. record { bytes = bytes } };
}

impl BindingsHash {
    /// Returns the hash with these bytes, or none if they are 16 zeros.
    pub fn new(bytes: [u8; 16]) -> Option<BindingsHash>
        ensures { SomeIff result (bytes ≢ none_sent) bytes }
    {
        if is_none_sent(&bytes) {
            return None;
        }
        Some(BindingsHash { bytes })
    }

    /// Returns the bytes.
    pub fn bytes(&self) -> &[u8; 16]
        ensures value { result.now ≡ self.now }
        ensures some { self.now ≢ none_sent }
    {
        &self.bytes
    }
}

fn is_none_sent(bytes: &[u8; 16]) -> bool
    ensures { IsTrue result ↔ (bytes.now ≡ none_sent) }
{
    *bytes == [0; 16]
}
