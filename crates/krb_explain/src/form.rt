//! The kinds of messages.

ghost use Rattle.std.specs.Prelude.{◌≡◌, true, IfSome};
ghost use Rattle.krb_der.specs.Place.{begins};
ghost use Rattle.krb_explain.specs.Layer.{first_of};
ghost use Rattle.krb_explain.specs.Message.{form_name};

use krb_msg::tag;

/// A kind of message.
#[derive(Clone, Copy, Debug, PartialEq, Eq)]
pub enum Form {
    /// A client's request, `AP-REQ` (RFC 4120, section 5.5.1).
    Request,
    /// A service's reply, `AP-REP` (RFC 4120, section 5.5.2).
    Reply,
    /// An error, `KRB-ERROR` (RFC 4120, section 5.9.1).
    Error,
}

impl Form {
    /// Returns the kind of message that the bytes begin as. `None` if they begin as none.
    pub(crate) fn of(bytes: &[u8]) -> Option<Form>
        ensures found { IfSome result (λ form. begins (first_of form) bytes.now ≡ true) }
    {
        match bytes.first() {
            Some(&tag::AP_REQ) => Some(Form::Request),
            Some(&tag::AP_REP) => Some(Form::Reply),
            Some(&tag::KRB_ERROR) => Some(Form::Error),
            _ => None,
        }
    }

    /// Returns the name of the message.
    pub(crate) fn name(self) -> &'static str
        ensures { result.now ≡ form_name self }
    {
        match self {
            Form::Request => "AP-REQ",
            Form::Reply => "AP-REP",
            Form::Error => "KRB-ERROR",
        }
    }
}
