//! Whole messages.

ghost use Rattle.krb_der.specs.Reading.{Parses};
ghost use Rattle.krb_der.specs.Computed.Gives.{Fills};
ghost use Rattle.krb_der.specs.Computed.Read.{message_of};

use crate::element::is_clear;
use crate::{Cursor, Element, Fault};

/// A type whose values are those of one kind of message.
pub trait Message<'a>: Element<'a> {}

/// Reads a message that takes up all of the bytes.
///
/// # Errors
/// `TooLong` at offset 0 above 1,048,576 bytes. Otherwise a fault by the rules of `specs::Fault`,
/// at its offset.
#[tactic(auto, using(crate::proofs::Messages::parses))]
pub fn parse<'a, T: Message<'a> + Drop>(bytes: &'a [u8]) -> Result<T, Fault>
    ensures { Parses T.kind T.view result bytes.entry.now }
{
    is_clear::<T>();
    all(bytes)
}

#[tactic(auto, unfolding(crate::specs::Computed::Read::message_of))]
fn all<'a, T: Element<'a> + Drop>(bytes: &'a [u8]) -> Result<T, Fault>
    ensures { Fills T.view result (message_of T.kind bytes.entry.now) }
{
    let mut cursor = Cursor::new(bytes)?;
    let value = T::read(&mut cursor)?;
    cursor.finish_here()?;
    Ok(value)
}
