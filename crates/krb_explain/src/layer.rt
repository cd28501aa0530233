//! What bytes are from the outside.

ghost use Rattle.std.specs.Prelude.{◌≡◌, if◌then◌else◌};
ghost use Rattle.std.specs.Option.{option_map};
ghost use Rattle.krb_der.specs.Place.{begins};
ghost use Rattle.krb_gss.specs.Answer.{bytes_of, message_of};
ghost use Rattle.krb_explain.specs.Layer.{IsLayer, carried, form_of, judged, judged_in};
ghost use Rattle.krb_explain.specs.Inner.Borrowed.{layer_of, message_in};

use crate::form::Form;
use krb_gss::{
    Answer, Answered, Opened, TokenFault, Verdict, open_answer, open_token, read_verdict,
};

/// What bytes are from the outside.
#[derive(Clone, Copy)]
pub(crate) enum Layer<'a> {
    /// A message alone.
    Alone(Form, &'a [u8]),
    /// A client's first token.
    Asks(Opened<'a>),
    /// A service's answer.
    Answers(Answered<'a>),
    /// A service's answer in a negotiation, which holds no token.
    Says(Verdict),
    /// None of these.
    Other(TokenFault),
}

impl<'a> Layer<'a> {
    /// Returns what the bytes are.
    pub(crate) fn of(bytes: &'a [u8]) -> Layer<'a>
        ensures { IsLayer bytes.entry.now (layer_of result) }
    {
        if let Some(form) = Form::of(bytes) {
            return Layer::Alone(form, bytes);
        }
        match open_token(bytes) {
            Ok(opened) => Layer::Asks(opened),
            Err(fault) => match open_answer(bytes) {
                Ok(answered) => Layer::Answers(answered),
                Err(other) => match read_verdict(bytes) {
                    Some(verdict) => Layer::Says(verdict),
                    None => Layer::Other(fault_of(bytes, other, fault)),
                },
            },
        }
    }

    /// Returns the message inside, if there is one, and what kind of message it is to be.
    pub(crate) fn carried(&self) -> Option<(Form, &'a [u8])>
        ensures { option_map message_in result ≡ carried (layer_of self.now) }
    {
        match *self {
            Layer::Alone(form, message) => Some((form, message)),
            Layer::Asks(opened) => Some((Form::Request, opened.request)),
            Layer::Answers(answered) => Some(message_of(answered.answer)),
            Layer::Says(_) => None,
            Layer::Other(_) => None,
        }
    }

    /// Returns what a service that takes requests judges of these bytes, if they are neither another service's answer nor a token
    /// with a fault.
    pub(crate) fn judged(&self, bytes: &'a [u8]) -> Option<&'a [u8]>
        ensures { option_map (λ x. x.now) result ≡ judged bytes.entry.now (layer_of self.now) }
    {
        match *self {
            Layer::Alone(_, message) => Some(message),
            Layer::Asks(opened) => Some(opened.request),
            Layer::Answers(_) => None,
            Layer::Says(_) => None,
            Layer::Other(fault) => judged_in(bytes, fault),
        }
    }
}

// The bytes, if they don't begin as a token.
fn judged_in<'a>(bytes: &'a [u8], fault: TokenFault) -> Option<&'a [u8]>
    ensures { option_map (λ x. x.now) result ≡ judged_in bytes.entry.now fault }
{
    match fault {
        TokenFault::NotToken => Some(bytes),
        TokenFault::Malformed(_) => None,
        TokenFault::Response => None,
        TokenFault::OtherMechanism(_, _) => None,
        TokenFault::NoToken(_) => None,
        TokenFault::TokenId(_) => None,
        TokenFault::Unframed(_) => None,
        TokenFault::Ended => None,
    }
}

fn message_of<'a>(answer: Answer<'a>) -> (Form, &'a [u8])
    ensures form { result.0 ≡ form_of (message_of answer.entry) }
    ensures bytes { result.1.now ≡ bytes_of (message_of answer.entry) }
{
    match answer {
        Answer::Reply(bytes) => (Form::Reply, bytes),
        Answer::Error(bytes) => (Form::Error, bytes),
    }
}

// The fault of an answer, if the bytes begin as one, or else that of a token.
fn fault_of(bytes: &[u8], answer: TokenFault, token: TokenFault) -> TokenFault
    ensures { result ≡ (if begins 0xa1 bytes.now then answer else token) }
{
    if begins_response(bytes) {
        answer
    } else {
        token
    }
}

fn begins_response(bytes: &[u8]) -> bool
    ensures { result ≡ begins 0xa1 bytes.now }
{
    bytes.first() == Some(&0xa1)
}
