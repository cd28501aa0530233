//! Mechanisms, and the OBJECT IDENTIFIERs that name them.

ghost use Rattle.std.specs.Prelude.{◌≡◌};
ghost use Rattle.krb_gss.specs.Mechanism.{oid_of, named_of, foreign_of};

/// Kerberos, by the name that a token gives it.
#[derive(Clone, Copy, Debug, PartialEq, Eq)]
pub enum Mechanism {
    /// 1.2.840.113554.1.2.2 (RFC 4121, section 1).
    Kerberos,
    /// 1.2.840.48018.1.2.2, which clients of Windows name before the other.
    Microsoft,
    /// 1.3.5.1.5.2, which implementations of the drafts before RFC 1964 use.
    Draft,
}

/// A mechanism that isn't Kerberos.
#[derive(Clone, Copy, Debug, PartialEq, Eq)]
pub enum Foreign {
    /// SPNEGO, 1.3.6.1.5.5.2 (RFC 4178, section 4).
    Negotiation,
    /// NTLM, 1.3.6.1.4.1.311.2.2.10.
    Ntlm,
    /// IAKERB, 1.3.6.1.5.2.5.
    IaKerb,
    /// Another.
    Unknown,
}

const KERBEROS: &[u8] = &[0x2a, 0x86, 0x48, 0x86, 0xf7, 0x12, 0x01, 0x02, 0x02];

const MICROSOFT: &[u8] = &[0x2a, 0x86, 0x48, 0x82, 0xf7, 0x12, 0x01, 0x02, 0x02];

const DRAFT: &[u8] = &[0x2b, 0x05, 0x01, 0x05, 0x02];

pub const SPNEGO: &[u8] = &[0x2b, 0x06, 0x01, 0x05, 0x05, 0x02];

const NTLM: &[u8] = &[0x2b, 0x06, 0x01, 0x04, 0x01, 0x82, 0x37, 0x02, 0x02, 0x0a];

const IAKERB: &[u8] = &[0x2b, 0x06, 0x01, 0x05, 0x02, 0x05];

impl Mechanism {
    /// Returns the content of the OBJECT IDENTIFIER that names it.
    pub fn oid(self) -> &'static [u8]
        ensures { result.now ≡ oid_of self }
    {
        match self {
            Mechanism::Kerberos => KERBEROS,
            Mechanism::Microsoft => MICROSOFT,
            Mechanism::Draft => DRAFT,
        }
    }
}

/// Returns the mechanism that the OBJECT IDENTIFIER with this content names.
pub fn named(oid: &[u8]) -> Result<Mechanism, Foreign>
    ensures { result ≡ named_of oid.now }
{
    if oid == KERBEROS {
        return Ok(Mechanism::Kerberos);
    }
    if oid == MICROSOFT {
        return Ok(Mechanism::Microsoft);
    }
    if oid == DRAFT {
        return Ok(Mechanism::Draft);
    }
    Err(not_kerberos(oid))
}

fn not_kerberos(oid: &[u8]) -> Foreign
    ensures { result ≡ foreign_of oid.now }
{
    if oid == SPNEGO {
        Foreign::Negotiation
    } else if oid == NTLM {
        Foreign::Ntlm
    } else if oid == IAKERB {
        Foreign::IaKerb
    } else {
        Foreign::Unknown
    }
}
