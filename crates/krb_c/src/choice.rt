//! What a side chooses.

ghost use Rattle.std.specs.Prelude.{IfErr, IfOk, pos, ◌≡◌, ◌≢◌};
ghost use Rattle.krb_c.specs.Choice.{IsChosen, IsKeyFault, seq_of};

use crate::key::key_or_none_of;
use crate::structs::{Answer, Choice};
use krb_enc::Key;

impl Choice {
    /// The sequence number, if one is sent.
    pub(crate) fn seq(&self) -> Option<u32>
        ensures { result ≡ seq_of self.now }
    {
        if self.has_seq { Some(self.seq) } else { None }
    }

    /// The subkey, if there is one.
    pub(crate) fn subkey(&self, bytes: &[u8]) -> Result<Option<Key>, Answer>
        ensures chosen { IfOk result (λ key. IsChosen self.now.subkey_type bytes.now key) }
        ensures fault { IfErr result (λ answer. (self.now.subkey_type ≢ pos 0) × IsKeyFault self.now.subkey_type bytes.now answer) }
    {
        key_or_none_of(self.subkey_type, bytes)
    }
}
