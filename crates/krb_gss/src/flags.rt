//! Flags of a context (RFC 4121, section 4.1.1.1).

ghost use Rattle.std.specs.Prelude.{◌≡◌, ◌↔◌, IsTrue};
ghost use Rattle.krb_gss.specs.Checksum.{bit_of, HasFlag};

/// A flag by its name in RFC 4121, section 4.1.1.1.
#[derive(Clone, Copy, Debug, PartialEq, Eq)]
pub enum ContextFlag {
    /// The client delegates credentials (GSS_C_DELEG_FLAG, 1).
    Delegation,
    /// The client wants a reply (GSS_C_MUTUAL_FLAG, 2).
    Mutual,
    /// Repeated messages are to be found (GSS_C_REPLAY_FLAG, 4).
    Replay,
    /// Messages out of order are to be found (GSS_C_SEQUENCE_FLAG, 8).
    Sequence,
    /// Messages can be encrypted (GSS_C_CONF_FLAG, 16).
    Confidentiality,
    /// Messages can be protected from changes (GSS_C_INTEG_FLAG, 32).
    Integrity,
}

impl ContextFlag {
    /// Returns the number that stands for the flag.
    pub fn bit(self) -> u32
        ensures { result ≡ bit_of self }
    {
        match self {
            ContextFlag::Delegation => 1,
            ContextFlag::Mutual => 2,
            ContextFlag::Replay => 4,
            ContextFlag::Sequence => 8,
            ContextFlag::Confidentiality => 16,
            ContextFlag::Integrity => 32,
        }
    }
}

/// 32 flags. Those without a name may be set too.
#[derive(Clone, Copy, Debug, PartialEq, Eq)]
pub struct ContextFlags(pub u32);

impl ContextFlags {
    /// Returns whether the flag is set.
    pub fn has(self, flag: ContextFlag) -> bool
        ensures { IsTrue result ↔ HasFlag self.0 flag }
    {
        match flag {
            ContextFlag::Delegation => self.0 % 2 == 1,
            ContextFlag::Mutual => self.0 / 2 % 2 == 1,
            ContextFlag::Replay => self.0 / 4 % 2 == 1,
            ContextFlag::Sequence => self.0 / 8 % 2 == 1,
            ContextFlag::Confidentiality => self.0 / 16 % 2 == 1,
            ContextFlag::Integrity => self.0 / 32 % 2 == 1,
        }
    }
}
