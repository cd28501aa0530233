//! What the bytes of a client hold.

ghost use Rattle.std.specs.Prelude.{◌≡◌, ◌↔◌, IfErr, IfOk, OnErr, IsTrue};
ghost use Rattle.krb_gss.specs.Mechanism.{spnego};
ghost use Rattle.krb_login.specs.Carrying.{BeginsNegotiation, BeginsRequest, IsNegotiating};
ghost use Rattle.krb_login.specs.Login.{IsFaultOf};
ghost use Rattle.krb_login.specs.Inner.{GoesTo, Holds};

use crate::carrier::Carrier;
use krb_der::Cursor;
use krb_gss::{Mechanism, Negotiation, Taken, TokenFault};

/// What the bytes of a client hold.
pub(crate) enum Held<'a> {
    /// A request, in a carrier.
    Request(Carrier, &'a [u8]),
    /// No request yet: the client named Kerberos first, by this name, and sent no token.
    Nothing(Mechanism),
}

/// Takes the bytes of a client, at this point of a negotiation.
#[inline(never)]
pub(crate) fn open<'a>(
    negotiation: &mut Negotiation,
    bytes: &'a [u8],
) -> Result<Held<'a>, TokenFault>
    ensures held { IfOk result (λ held. Holds negotiation.old bytes.entry.now held) }
    ensures faulty { IfErr result (IsFaultOf negotiation.old bytes.entry.now) }
    ensures goes_on { IfOk result (GoesTo negotiation.new) }
    ensures ended { OnErr result (negotiation.new ≡ Negotiation.Ended) }
{
    if *negotiation == Negotiation::Begun && begins_request(bytes) {
        *negotiation = Negotiation::Ended;
        return Ok(Held::Request(Carrier::Alone, bytes));
    }
    match negotiation.take(bytes) {
        Ok(Taken::First(opened)) => Ok(Held::Request(
            Carrier::First(opened.wrapping, opened.mechanism),
            opened.request,
        )),
        Ok(Taken::Later(later)) => Ok(Held::Request(
            Carrier::Later(later.mechanism),
            later.request,
        )),
        Ok(Taken::Asks(first)) => Ok(Held::Nothing(first)),
        Err(fault) => Err(fault),
    }
}

fn begins_request(bytes: &[u8]) -> bool
    ensures { IsTrue result ↔ BeginsRequest bytes.now }
{
    matches!(bytes, [0x6e, ..])
}

/// Whether the bytes belong to a negotiation, at this point of it.
pub(crate) fn is_negotiating(negotiation: Negotiation, bytes: &[u8]) -> bool
    ensures { IsTrue result ↔ IsNegotiating negotiation bytes.now }
{
    match negotiation {
        Negotiation::Begun => begins_negotiation(bytes),
        Negotiation::Asked(_) => true,
        Negotiation::Ended => false,
    }
}

/// The content of the OBJECT IDENTIFIER of SPNEGO, 1.3.6.1.5.5.2 (RFC 4178, section 4).
const SPNEGO: &[u8] = &[0x2b, 0x06, 0x01, 0x05, 0x05, 0x02];

fn begins_negotiation(bytes: &[u8]) -> bool
    ensures { IsTrue result ↔ BeginsNegotiation bytes.now }
{
    let Ok(mut token) = Cursor::new(bytes) else {
        return false;
    };
    let Ok(mut frame) = token.enter(0x60) else {
        return false;
    };
    let Ok(name) = frame.enter(0x06) else {
        return false;
    };
    is_spnego(name.rest())
}

fn is_spnego(oid: &[u8]) -> bool
    ensures { IsTrue result ↔ (oid.now ≡ spnego) }
{
    oid == SPNEGO
}
