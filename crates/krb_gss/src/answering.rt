//! The service's answer to the first token of a client.

ghost use Rattle.std.specs.Prelude.{◌≡◌};
ghost use Rattle.krb_gss.specs.Answer.{message_of, bytes_of};

/// What a service answers.
#[derive(Clone, Copy, Debug, PartialEq, Eq)]
pub enum Answer<'a> {
    /// The client is accepted: a message AP-REP.
    Reply(&'a [u8]),
    /// The client is refused: a message KRB-ERROR.
    Error(&'a [u8]),
}

impl<'a> Answer<'a> {
    /// Returns the bytes of the message.
    pub fn bytes(self) -> &'a [u8]
        ensures { result.now ≡ bytes_of (message_of self.entry) }
    {
        match self {
            Answer::Reply(bytes) => bytes,
            Answer::Error(bytes) => bytes,
        }
    }
}
