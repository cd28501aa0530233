//! The messages of a negotiation, NegTokenInit and NegTokenResp (RFC 4178, section 4.2).

ghost use Rattle.std.specs.Prelude.{◌≡◌};
ghost use Rattle.std.specs.Option.{option_map};
ghost use Rattle.krb_der.specs.Computed.Parts.{parts_at};
ghost use Rattle.krb_gss.specs.Module.{negotiation_token};
ghost use Rattle.krb_gss.specs.Listing.{mech_type_names};
ghost use Rattle.krb_gss.specs.Inner.Reading.{init_at, response_at, later_at, said_at, held_at, held_from, named_at, negotiated_by, going_on_at, mic_at, types_at};

use crate::framing::{REQUEST, begins, kerberos, name};
use crate::messages::{BareResponse, FirstResponse, LaterResponse, NegTokenInit};
use crate::{Mechanism, TokenFault};
use krb_der::{Cursor, Fault, Field, Last};

/// Where the fields stand of the message with this tag.
fn fields<'a, const TAG: u8>(cursor: Cursor<'a>) -> Result<Cursor<'a>, Fault>
    ensures { result ≡ parts_at (negotiation_token TAG) cursor.entry }
{
    match cursor.parts::<Last<TAG, Last<0x30, Cursor>>>() {
        Ok(choice) => Ok(choice.0.0),
        Err(fault) => Err(fault),
    }
}

/// The content of a field, if it is there.
fn content<'a, const TAG: u8>(field: Option<Last<TAG, Cursor<'a>>>) -> Option<Cursor<'a>>
    ensures { result ≡ option_map (λ f. f.0) field.entry }
{
    match field {
        Some(field) => Some(field.0),
        None => None,
    }
}

/// Reads a NegTokenInit: the name of the first mechanism, and the mechToken.
#[tactic(auto, unfolding(crate::specs::Inner::Reading::fields_at))]
pub fn init<'a>(cursor: Cursor<'a>) -> Result<(Cursor<'a>, Option<Cursor<'a>>), Fault>
    ensures { result ≡ init_at cursor.entry }
{
    let fields = fields::<0xa0>(cursor)?;
    match fields.parts::<NegTokenInit>() {
        Ok(init) => Ok((init.mechanisms.first, content(init.token))),
        Err(fault) => Err(fault),
    }
}

/// Reads where the list of a NegTokenInit stands: its mechTypes.
#[tactic(auto, unfolding(crate::specs::Inner::Reading::fields_at))]
pub fn types<'a>(cursor: Cursor<'a>) -> Result<Cursor<'a>, Fault>
    ensures { result ≡ types_at cursor.entry }
{
    let fields = fields::<0xa0>(cursor)?;
    match fields.parts::<(Field<0xa0, Cursor>, Cursor)>() {
        Ok((list, _)) => Ok(list.0),
        Err(fault) => Err(fault),
    }
}

/// Reads where the names of a list stand.
pub fn names<'a>(list: Cursor<'a>) -> Result<Cursor<'a>, Fault>
    ensures { result ≡ parts_at mech_type_names list.entry }
{
    match list.parts::<Last<0x30, Cursor>>() {
        Ok(names) => Ok(names.0),
        Err(fault) => Err(fault),
    }
}

/// Reads a service's first NegTokenResp: the supportedMech and the responseToken.
#[tactic(auto, unfolding(crate::specs::Inner::Reading::fields_at))]
fn response<'a>(cursor: Cursor<'a>) -> Result<(Cursor<'a>, Option<Cursor<'a>>), Fault>
    ensures { result ≡ response_at cursor.entry }
{
    let fields = fields::<0xa1>(cursor)?;
    match fields.parts::<FirstResponse>() {
        Ok(response) => Ok((response.mechanism, content(response.token))),
        Err(fault) => Err(fault),
    }
}

/// Reads a client's later NegTokenResp: where its fields stand, and the responseToken.
#[tactic(auto, unfolding(crate::specs::Inner::Reading::fields_at))]
fn later<'a>(cursor: Cursor<'a>) -> Result<(Cursor<'a>, Option<Cursor<'a>>), Fault>
    ensures { result ≡ later_at cursor.entry }
{
    let fields = fields::<0xa1>(cursor)?;
    match fields.again().parts::<LaterResponse>() {
        Ok(response) => Ok((fields, content(response.token))),
        Err(fault) => Err(fault),
    }
}

/// Reads the mechListMIC of a client's later NegTokenResp.
#[tactic(auto, unfolding(crate::specs::Inner::Reading::fields_at))]
pub fn mic<'a>(cursor: Cursor<'a>) -> Result<Option<Cursor<'a>>, Fault>
    ensures { result ≡ mic_at cursor.entry }
{
    let fields = fields::<0xa1>(cursor)?;
    match fields.parts::<LaterResponse>() {
        Ok(response) => Ok(content(response.mic)),
        Err(fault) => Err(fault),
    }
}

/// Reads a NegTokenResp without a responseToken: its negState and its supportedMech.
#[tactic(auto, unfolding(crate::specs::Inner::Reading::fields_at))]
pub fn said<'a>(cursor: Cursor<'a>) -> Result<(Cursor<'a>, Option<Cursor<'a>>), Fault>
    ensures { result ≡ said_at cursor.entry }
{
    let fields = fields::<0xa1>(cursor)?;
    match fields.parts::<BareResponse>() {
        Ok(response) => Ok((response.state, content(response.mechanism))),
        Err(fault) => Err(fault),
    }
}

/// Reads a token of Kerberos that a negotiation holds.
#[tactic(auto, unfolding(crate::specs::Inner::Reading::held_at))]
fn held_token<'a>(token: Cursor<'a>) -> Result<(Mechanism, Cursor<'a>), TokenFault>
    ensures { result ≡ held_at token.entry }
{
    if begins(token.rest(), REQUEST) {
        return Err(TokenFault::Unframed(token.at()));
    }
    kerberos(token)
}

/// Reads the token of a message whose mechanism is named at `oid`.
fn held<'a>(oid: &Cursor, token: Option<Cursor<'a>>) -> Result<(Mechanism, Cursor<'a>), TokenFault>
    ensures { result ≡ held_from oid.now token.entry }
{
    match token {
        Some(token) => held_token(token),
        None => Err(TokenFault::NoToken(oid.at())),
    }
}

/// The negotiated mechanism, the token's own, and where the token's identifier begins.
#[tactic(auto, unfolding(crate::specs::Inner::Reading::named_at))]
fn named<'a>(
    oid: Cursor,
    token: Option<Cursor<'a>>,
) -> Result<(Mechanism, Mechanism, Cursor<'a>), TokenFault>
    ensures { result ≡ named_at oid.entry token.entry }
{
    let first = name(&oid)?;
    let (mechanism, inner) = held(&oid, token)?;
    Ok((first, mechanism, inner))
}

/// Reads a negotiation for Kerberos up to the identifier of its token: the mechanism that it names first, and that of the token.
#[tactic(auto, unfolding(crate::specs::Inner::Reading::negotiated_by))]
pub fn proposed<'a>(cursor: Cursor<'a>) -> Result<(Mechanism, Mechanism, Cursor<'a>), TokenFault>
    ensures { result ≡ negotiated_by (init_at cursor.entry) }
{
    let (oid, token) = init(cursor)?;
    named(oid, token)
}

/// The same of a negotiation's answer, with the mechanism that it names.
#[tactic(auto, unfolding(crate::specs::Inner::Reading::negotiated_by))]
pub fn accepted<'a>(cursor: Cursor<'a>) -> Result<(Mechanism, Mechanism, Cursor<'a>), TokenFault>
    ensures { result ≡ negotiated_by (response_at cursor.entry) }
{
    let (oid, token) = response(cursor)?;
    named(oid, token)
}

/// Reads a client's later message up to the identifier of its token.
#[tactic(auto, unfolding(crate::specs::Inner::Reading::going_on_at))]
pub fn going_on<'a>(cursor: Cursor<'a>) -> Result<(Mechanism, Cursor<'a>), TokenFault>
    ensures { result ≡ going_on_at cursor.entry }
{
    let (fields, token) = later(cursor)?;
    held(&fields, token)
}
