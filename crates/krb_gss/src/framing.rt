//! Tokens of a mechanism.

ghost use Rattle.std.specs.Prelude.{◌≡◌};
ghost use Rattle.krb_der.specs.Place.{begins as begins_with};
ghost use Rattle.krb_der.specs.Computed.Parts.{parts_at};
ghost use Rattle.krb_gss.specs.Module.{initial_context_token};
ghost use Rattle.krb_gss.specs.Inner.Reading.{begun, name_at, kerberos_at};

use crate::mechanism::named;
use crate::messages::InitialContextToken;
use crate::{Mechanism, TokenFault};
use krb_der::{Cursor, Fault};

/// The tag of an InitialContextToken.
pub const FRAME: u8 = 0x60;

/// The tag of a message AP-REQ.
pub const REQUEST: u8 = 0x6e;

/// Whether an element with this tag begins here.
pub fn begins(bytes: &[u8], tag: u8) -> bool
    ensures { result ≡ begins_with tag bytes.now }
{
    bytes.first() == Some(&tag)
}

/// Begins to read a token.
#[tactic(auto, unfolding(crate::specs::Inner::Reading::begun))]
pub fn begin<'a>(bytes: &'a [u8]) -> Result<Cursor<'a>, TokenFault>
    ensures { result ≡ begun bytes.entry.now }
{
    Ok(Cursor::new(bytes)?)
}

/// Enters an InitialContextToken: the name of its mechanism, and what is after it.
pub fn framed<'a>(cursor: Cursor<'a>) -> Result<(Cursor<'a>, Cursor<'a>), Fault>
    ensures { result ≡ parts_at initial_context_token cursor.entry }
{
    match cursor.parts::<InitialContextToken>() {
        Ok(token) => Ok((token.mechanism, token.inner)),
        Err(fault) => Err(fault),
    }
}

/// Returns the mechanism of Kerberos that is named here.
pub fn name(oid: &Cursor) -> Result<Mechanism, TokenFault>
    ensures { result ≡ name_at oid.now }
{
    match named(oid.rest()) {
        Ok(mechanism) => Ok(mechanism),
        Err(other) => Err(TokenFault::OtherMechanism(other, oid.at())),
    }
}

/// Reads a token of Kerberos up to its identifier.
#[tactic(auto, unfolding(crate::specs::Inner::Reading::kerberos_at))]
pub fn kerberos<'a>(cursor: Cursor<'a>) -> Result<(Mechanism, Cursor<'a>), TokenFault>
    ensures { result ≡ kerberos_at cursor.entry }
{
    let (oid, inner) = framed(cursor)?;
    let mechanism = name(&oid)?;
    Ok((mechanism, inner))
}
