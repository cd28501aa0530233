//! What is written of a token, as parts of a message.

ghost use Rattle.std.specs.Prelude.{◌≡◌, ◌+◌, ◌∷◌, length};
ghost use Rattle.krb_gss.specs.Mechanism.{oid_of};
ghost use Rattle.krb_gss.specs.Wrapping.{IsOid, IsPlain, IsProposal, IsResponding, oid_size, plain_size, proposal_size, responding_size};
ghost use Rattle.krb_gss.specs.Inner.Putting.{of_token, HasToken, held_size};

use crate::Mechanism;
use crate::mechanism::SPNEGO;
use krb_der::{EncodeParts, Field, Last, MESSAGE_LIMIT, Maybe, Octets, Writer};
use std::alloc::AllocError;

/// The content of the OBJECT IDENTIFIER that names a mechanism.
#[derive(Clone, Copy)]
pub struct Name(pub Mechanism);

impl EncodeParts for Name {
    ghost writes = { λ n bytes. bytes ≡ oid_of n.0 };

    ghost size = { λ n. length (oid_of n.0) };

    fn size_within(&self) -> Option<usize> {
        Octets(self.0.oid()).size_within()
    }

    fn write_parts(&self, out: &mut Writer) -> Result<(), AllocError> {
        out.raw(self.0.oid())
    }
}

/// The OBJECT IDENTIFIER itself.
impl EncodeParts for Mechanism {
    ghost writes = { λ m. IsOid (oid_of m) };

    ghost size = { oid_size };

    fn size_within(&self) -> Option<usize> {
        Last::<0x06, _>(Name(*self)).size_within()
    }

    fn write_parts(&self, out: &mut Writer) -> Result<(), AllocError> {
        Last::<0x06, _>(Name(*self)).write_parts(out)
    }
}

/// A message of Kerberos, and the first byte of the identifier before it.
#[derive(Clone, Copy)]
pub struct Message<'a> {
    pub id: u8,
    pub bytes: &'a [u8],
}

impl EncodeParts for Message<'_> {
    ghost writes = { λ m bytes. bytes ≡ m.id ∷ 0 ∷ m.bytes.now };

    ghost size = { λ m. 2 + length m.bytes.now };

    fn size_within(&self) -> Option<usize> {
        let size = Octets(self.bytes).size_within()?;
        if size + 2 > MESSAGE_LIMIT {
            return None;
        }
        Some(size + 2)
    }

    fn write_parts(&self, out: &mut Writer) -> Result<(), AllocError> {
        out.raw(&[self.id, 0])?;
        out.raw(self.bytes)
    }
}

/// A token of Kerberos.
#[derive(Clone, Copy)]
pub struct Token<'a> {
    pub mechanism: Mechanism,
    pub message: Message<'a>,
}

impl EncodeParts for Token<'_> {
    ghost writes = { of_token IsPlain };

    ghost size = { λ t. plain_size t.mechanism (length t.message.bytes.now) };

    fn size_within(&self) -> Option<usize> {
        Last::<0x60, _>((Field::<0x06, _>(Name(self.mechanism)), self.message)).size_within()
    }

    fn write_parts(&self, out: &mut Writer) -> Result<(), AllocError> {
        Last::<0x60, _>((Field::<0x06, _>(Name(self.mechanism)), self.message)).write_parts(out)
    }
}

/// A token of SPNEGO with a NegTokenInit, which names one mechanism and holds a token of Kerberos.
#[derive(Clone, Copy)]
pub struct Proposal<'a> {
    pub first: Mechanism,
    pub token: Token<'a>,
}

impl EncodeParts for Proposal<'_> {
    ghost writes = { λ p. of_token (IsProposal p.first) p.token };

    ghost size = { λ p. proposal_size p.first p.token.mechanism (length p.token.message.bytes.now) };

    fn size_within(&self) -> Option<usize> {
        let types = Field::<0xa0, _>(Last::<0x30, _>(self.first));
        let fields = (types, Last::<0xa2, _>(Last::<0x04, _>(self.token)));
        let init = Last::<0xa0, _>(Last::<0x30, _>(fields));
        Last::<0x60, _>((Field::<0x06, _>(Octets(SPNEGO)), init)).size_within()
    }

    fn write_parts(&self, out: &mut Writer) -> Result<(), AllocError> {
        let types = Field::<0xa0, _>(Last::<0x30, _>(self.first));
        let fields = (types, Last::<0xa2, _>(Last::<0x04, _>(self.token)));
        let init = Last::<0xa0, _>(Last::<0x30, _>(fields));
        Last::<0x60, _>((Field::<0x06, _>(Octets(SPNEGO)), init)).write_parts(out)
    }
}

/// A responseToken, if there is a token of Kerberos.
#[derive(Clone, Copy)]
pub struct Held<'a>(pub Option<Token<'a>>);

impl EncodeParts for Held<'_> {
    ghost writes = { λ h. HasToken h.0 };

    ghost size = { λ h. held_size h.0 };

    fn size_within(&self) -> Option<usize> {
        match self.0 {
            Some(token) => Last::<0xa2, _>(Last::<0x04, _>(token)).size_within(),
            None => Some(0),
        }
    }

    fn write_parts(&self, out: &mut Writer) -> Result<(), AllocError> {
        match self.0 {
            Some(token) => Last::<0xa2, _>(Last::<0x04, _>(token)).write_parts(out),
            None => Ok(()),
        }
    }
}

/// A NegTokenResp.
#[derive(Clone, Copy)]
pub struct Response<'a> {
    pub state: u8,
    pub first: Option<Mechanism>,
    pub token: Held<'a>,
}

impl EncodeParts for Response<'_> {
    ghost writes = { λ r. IsResponding r.state r.first (HasToken r.token.0) };

    ghost size = { λ r. responding_size r.first (held_size r.token.0) };

    fn size_within(&self) -> Option<usize> {
        let state = [self.state];
        let name = Maybe::<0xa1, _>(self.first);
        let fields = (
            Field::<0xa0, _>(Last::<0x0a, _>(Octets(&state))),
            (name, self.token),
        );
        Last::<0xa1, _>(Last::<0x30, _>(fields)).size_within()
    }

    fn write_parts(&self, out: &mut Writer) -> Result<(), AllocError> {
        let state = [self.state];
        let name = Maybe::<0xa1, _>(self.first);
        let fields = (
            Field::<0xa0, _>(Last::<0x0a, _>(Octets(&state))),
            (name, self.token),
        );
        Last::<0xa1, _>(Last::<0x30, _>(fields)).write_parts(out)
    }
}
