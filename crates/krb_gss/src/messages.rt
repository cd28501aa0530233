// Made from messages.toml by tools/generate/messages.py. Don't edit this file.
//! The messages of tokens: where their fields stand.

ghost use Rattle.krb_gss.specs.Module.{initial_context_token, mech_type_list, neg_token_init, first_response, later_response, bare_response};
ghost use Rattle.krb_gss.specs.Found.{initial_context_token_of, mech_type_list_of, neg_token_init_of, first_response_of, later_response_of, bare_response_of};

use krb_der::{Cursor, Each, Fault, Field, Last, Maybe, Placed, Unknown};

/// InitialContextToken (RFC 2743, section 3.1).
#[derive(Debug, Drop)]
pub struct InitialContextToken<'a> {
    /// The name of the mechanism.
    pub mechanism: Cursor<'a>,
    /// What the mechanism makes of the rest.
    pub inner: Cursor<'a>,
}

impl<'a> Placed<'a> for InitialContextToken<'a> {
    ghost parts = { initial_context_token };

    ghost view = { initial_context_token_of };

    fn find(content: Cursor<'a>) -> Result<InitialContextToken<'a>, Fault> {
        match content.parts() {
            Ok(row) => {
                let Last::<0x60, _>(row) = row;
                let (Field::<0x06, Cursor>(mechanism), row) = row;
                let inner: Cursor = row;
                Ok(InitialContextToken { mechanism, inner })
            }
            Err(fault) => Err(fault),
        }
    }
}

/// MechTypeList (RFC 4178, section 4.1).
#[derive(Debug, Drop)]
pub struct MechTypeList<'a> {
    /// The name of the first mechanism.
    pub first: Cursor<'a>,
}

impl<'a> Placed<'a> for MechTypeList<'a> {
    ghost parts = { mech_type_list };

    ghost view = { mech_type_list_of };

    fn find(content: Cursor<'a>) -> Result<MechTypeList<'a>, Fault> {
        match content.parts() {
            Ok(row) => {
                let Last::<0x30, _>(row) = row;
                let (Field::<0x06, Cursor>(first), row) = row;
                let Each::<0x06> = row;
                Ok(MechTypeList { first })
            }
            Err(fault) => Err(fault),
        }
    }
}

/// NegTokenInit (RFC 4178, section 4.2.1).
#[derive(Debug, Drop)]
pub struct NegTokenInit<'a> {
    /// The mechanisms, in the client's order.
    pub mechanisms: MechTypeList<'a>,
    /// What the client asks of the context.
    pub flags: Option<Last<0x03, Cursor<'a>>>,
    /// The first mechanism's token.
    pub token: Option<Last<0x04, Cursor<'a>>>,
    /// A checksum of the mechanisms.
    pub mic: Option<Last<0x04, Cursor<'a>>>,
}

impl<'a> Placed<'a> for NegTokenInit<'a> {
    ghost parts = { neg_token_init };

    ghost view = { neg_token_init_of };

    fn find(content: Cursor<'a>) -> Result<NegTokenInit<'a>, Fault> {
        match content.parts() {
            Ok(row) => {
                let (Field::<0xa0, MechTypeList>(mechanisms), row) = row;
                let (Maybe::<0xa1, Last<0x03, Cursor>>(flags), row) = row;
                let (Maybe::<0xa2, Last<0x04, Cursor>>(token), row) = row;
                let (Maybe::<0xa3, Last<0x04, Cursor>>(mic), Unknown::<0xa0, 0xa3>) = row;
                Ok(NegTokenInit {
                    mechanisms,
                    flags,
                    token,
                    mic,
                })
            }
            Err(fault) => Err(fault),
        }
    }
}

/// NegTokenResp (RFC 4178, section 4.2.2), as the first answer of a service.
#[derive(Debug, Drop)]
pub struct FirstResponse<'a> {
    /// How far the negotiation is.
    pub state: Option<Last<0x0a, Cursor<'a>>>,
    /// The mechanism that the service chose.
    pub mechanism: Cursor<'a>,
    /// That mechanism's token.
    pub token: Option<Last<0x04, Cursor<'a>>>,
    /// A checksum of the mechanisms.
    pub mic: Option<Last<0x04, Cursor<'a>>>,
}

impl<'a> Placed<'a> for FirstResponse<'a> {
    ghost parts = { first_response };

    ghost view = { first_response_of };

    fn find(content: Cursor<'a>) -> Result<FirstResponse<'a>, Fault> {
        match content.parts() {
            Ok(row) => {
                let (Maybe::<0xa0, Last<0x0a, Cursor>>(state), row) = row;
                let (Field::<0xa1, Last<0x06, Cursor>>(mechanism), row) = row;
                let (Maybe::<0xa2, Last<0x04, Cursor>>(token), row) = row;
                let (Maybe::<0xa3, Last<0x04, Cursor>>(mic), Unknown::<0xa0, 0xa3>) = row;
                Ok(FirstResponse {
                    state,
                    mechanism: mechanism.0,
                    token,
                    mic,
                })
            }
            Err(fault) => Err(fault),
        }
    }
}

/// NegTokenResp (RFC 4178, section 4.2.2), as a later message of a client.
#[derive(Debug, Drop)]
pub struct LaterResponse<'a> {
    /// How far the negotiation is.
    pub state: Option<Last<0x0a, Cursor<'a>>>,
    /// That mechanism's token.
    pub token: Option<Last<0x04, Cursor<'a>>>,
    /// A checksum of the mechanisms.
    pub mic: Option<Last<0x04, Cursor<'a>>>,
}

impl<'a> Placed<'a> for LaterResponse<'a> {
    ghost parts = { later_response };

    ghost view = { later_response_of };

    fn find(content: Cursor<'a>) -> Result<LaterResponse<'a>, Fault> {
        match content.parts() {
            Ok(row) => {
                let (Maybe::<0xa0, Last<0x0a, Cursor>>(state), row) = row;
                let (Maybe::<0xa2, Last<0x04, Cursor>>(token), row) = row;
                let (Maybe::<0xa3, Last<0x04, Cursor>>(mic), Unknown::<0xa0, 0xa3>) = row;
                Ok(LaterResponse { state, token, mic })
            }
            Err(fault) => Err(fault),
        }
    }
}

/// NegTokenResp (RFC 4178, section 4.2.2), as an answer without a token.
#[derive(Debug, Drop)]
pub struct BareResponse<'a> {
    /// How far the negotiation is.
    pub state: Cursor<'a>,
    /// The mechanism that the service chose.
    pub mechanism: Option<Last<0x06, Cursor<'a>>>,
    /// A checksum of the mechanisms.
    pub mic: Option<Last<0x04, Cursor<'a>>>,
}

impl<'a> Placed<'a> for BareResponse<'a> {
    ghost parts = { bare_response };

    ghost view = { bare_response_of };

    fn find(content: Cursor<'a>) -> Result<BareResponse<'a>, Fault> {
        match content.parts() {
            Ok(row) => {
                let (Field::<0xa0, Last<0x0a, Cursor>>(state), row) = row;
                let (Maybe::<0xa1, Last<0x06, Cursor>>(mechanism), row) = row;
                let (Maybe::<0xa3, Last<0x04, Cursor>>(mic), Unknown::<0xa0, 0xa3>) = row;
                Ok(BareResponse {
                    state: state.0,
                    mechanism,
                    mic,
                })
            }
            Err(fault) => Err(fault),
        }
    }
}
