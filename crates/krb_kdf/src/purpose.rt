ghost use Rattle.std.specs.Prelude.{◌≡◌};

/// What a key of encryption type 19 is derived for (RFC 8009, section 5).
#[derive(Clone, Copy, Debug, PartialEq, Eq)]
pub enum Purpose {
    /// Checksums.
    Kc,
    /// Encryption.
    Ke,
    /// The integrity of encrypted data.
    Ki,
}

impl Purpose {
    ghost use Rattle.krb_kdf.specs.Kdf.{purpose_byte};

    // The last byte of the label.
    pub(crate) fn byte(self) -> u8
        ensures { result ≡ purpose_byte self }
    {
        match self {
            Purpose::Kc => 0x99,
            Purpose::Ke => 0xaa,
            Purpose::Ki => 0x55,
        }
    }
}

/// What a key of encryption type 20 is derived for, except encryption, whose key is longer (RFC
/// 8009, section 5).
#[derive(Clone, Copy, Debug, PartialEq, Eq)]
pub enum MacPurpose {
    /// Checksums.
    Kc,
    /// The integrity of encrypted data.
    Ki,
}

impl From<MacPurpose> for Purpose {
    ghost use Rattle.krb_kdf.specs.Kdf.{purpose_of};

    ghost from_gives = { λ mac purpose. purpose ≡ purpose_of mac };

    fn from(purpose: MacPurpose) -> Purpose {
        match purpose {
            MacPurpose::Kc => Purpose::Kc,
            MacPurpose::Ki => Purpose::Ki,
        }
    }
}
