//! What the bytes of a line of `accept` are: a request, or a token that holds one.

ghost use Rattle.std.specs.Prelude.{IfErr, IfOk};
ghost use Rattle.krb_call_lines.specs.Forms.{Carries, IsUnopened};

use krb_gss::{Mechanism, TokenFault, Wrapping, open_token};

/// What the bytes of a line are.
#[derive(Clone, Copy)]
pub enum Form {
    /// A request: a message AP-REQ.
    Message,
    /// The first token of a client of GSS-API, which holds the request.
    Token,
}

/// What a request was wrapped in, and its answer is wrapped in too.
#[derive(Clone, Copy)]
pub struct Envelope {
    /// What the token of Kerberos stands in.
    pub wrapping: Wrapping,
    /// The name that the token of Kerberos has.
    pub mechanism: Mechanism,
}

/// A request, and what it was wrapped in; a message has no envelope.
#[derive(Clone, Copy)]
pub struct Carried<'a> {
    pub request: &'a [u8],
    pub envelope: Option<Envelope>,
}

/// Takes the request out of the bytes of a line.
///
/// # Errors
/// That of `open_token`: the bytes are to be a token, and aren't one.
pub fn take_request<'a>(form: Form, bytes: &'a [u8]) -> Result<Carried<'a>, TokenFault>
    ensures found { IfOk result (λ carried. Carries form bytes.entry.now carried.envelope carried.request.now) }
    ensures fault { IfErr result (IsUnopened form bytes.entry.now) }
{
    match form {
        Form::Message => Ok(Carried {
            request: bytes,
            envelope: None,
        }),
        Form::Token => opened_request(bytes),
    }
}

fn opened_request<'a>(token: &'a [u8]) -> Result<Carried<'a>, TokenFault>
    ensures found { IfOk result (λ carried. Carries Form.Token token.entry.now carried.envelope carried.request.now) }
    ensures fault { IfErr result (IsUnopened Form.Token token.entry.now) }
{
    let opened = open_token(token)?;
    Ok(Carried {
        request: opened.request,
        envelope: Some(Envelope {
            wrapping: opened.wrapping,
            mechanism: opened.mechanism,
        }),
    })
}
