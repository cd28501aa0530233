//! Why a token isn't one of the text, or of the context; and why none is written.

ghost use Rattle.std.specs.Prelude.{◌≡◌};
ghost use Rattle.krb_context.specs.declared.fault.ReceiveFault.TheVariants.{NotAccepted};

use crate::order::Order;
use std::error::Error;
use std::fmt;

/// Why a token isn't accepted.
#[derive(Clone, Copy, Debug, PartialEq, Eq)]
pub enum MessageFault {
    /// The bytes aren't a token of this kind: they are too few, they don't begin with its identifier
    /// (TOK_ID) and its filler, a MIC token says that it is sealed, or EC doesn't fit the token.
    Defective,
    /// The flag SentByAcceptor is that of the other side: the token was sent back.
    Direction,
    /// The flag AcceptorSubkey says that the token is under another key than the context's.
    OtherKey,
    /// The checksum or the tag is wrong, or the sealed header differs from the token's.
    Integrity,
}

/// Why a side of a context sends no token.
#[derive(Clone, Copy, Debug, PartialEq, Eq)]
pub enum SendFault {
    /// The slice is shorter than the token, which has this many bytes.
    ShortSlice {
        /// The length of the token.
        needed: usize,
    },
    /// The side has sent a token with the number 2^64 - 1, the last one.
    NumbersUsedUp,
}

/// Why a side of a context doesn't take a token.
#[derive(Clone, Copy, Debug, PartialEq, Eq)]
pub enum ReceiveFault {
    /// It isn't a token of the other side, or not of the text.
    NotAccepted(MessageFault),
    /// It is a token of the other side, but not one that the options take: it isn't the next one, and
    /// the side takes tokens only in order; or it is a repeat or too old to know, and the side refuses
    /// repeats.
    OutOfOrder(Order),
}

impl From<MessageFault> for ReceiveFault {
    ghost from_gives = { λ fault refusal. refusal ≡ NotAccepted fault };

    fn from(fault: MessageFault) -> ReceiveFault {
        ReceiveFault::NotAccepted(fault)
    }
}

impl fmt::Display for MessageFault {
    ghost use Rattle.std.specs.Prelude.{Some};
    ghost use Rattle.krb_context.specs.Texts.{text_of};

    ghost output = { λ fault. Some (text_of fault) };

    fn fmt<W: fmt::Write>(&self, f: &mut fmt::Formatter<W>) -> fmt::Result {
        match self {
            MessageFault::Defective => write!(f, "the bytes are no token of this kind"),
            MessageFault::Direction => {
                write!(
                    f,
                    "the token was sent back: it is of the side that reads it"
                )
            }
            MessageFault::OtherKey => write!(f, "the token is under another key"),
            MessageFault::Integrity => write!(f, "the checksum is wrong"),
        }
    }
}

impl Error for MessageFault {}

impl fmt::Display for SendFault {
    ghost use Rattle.std.specs.Prelude.{Some};
    ghost use Rattle.krb_context.specs.Texts.{send_text};

    ghost output = { λ fault. Some (send_text fault) };

    fn fmt<W: fmt::Write>(&self, f: &mut fmt::Formatter<W>) -> fmt::Result {
        match self {
            SendFault::ShortSlice { needed } => {
                write!(f, "the slice has fewer than {needed} bytes")
            }
            SendFault::NumbersUsedUp => write!(f, "all sequence numbers are used up"),
        }
    }
}

impl Error for SendFault {}

impl fmt::Display for ReceiveFault {
    ghost use Rattle.std.specs.Prelude.{Some};
    ghost use Rattle.krb_context.specs.Texts.{receive_text};

    ghost output = { λ fault. Some (receive_text fault) };

    fn fmt<W: fmt::Write>(&self, f: &mut fmt::Formatter<W>) -> fmt::Result {
        match self {
            ReceiveFault::NotAccepted(fault) => write!(f, "{fault}"),
            ReceiveFault::OutOfOrder(_) => write!(f, "the token isn't the next one"),
        }
    }
}

impl Error for ReceiveFault {}
