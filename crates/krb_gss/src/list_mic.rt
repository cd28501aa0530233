//! The mechListMIC of a negotiation: a client's, and the answers of a service with its own.

ghost use Rattle.std.specs.Prelude.{◌≡◌, ◌<◌, ◌≤◌, List, ℕ, length, Option, IfOk, IfErr, IsOkAnd, OnOk, IsErrOf};
ghost use Rattle.krb_der.specs.Size.{element_size};
ghost use Rattle.krb_der.specs.Spells.{IsElement, limit};
ghost use Rattle.krb_gss.specs.Checksum.{bytes_if};
ghost use Rattle.krb_gss.specs.ListMic.{HoldsMic, IsMicFault, WritesChecked, checked_size, checked_state, rest_if};
ghost use Rattle.krb_gss.specs.Wrapping.{IsPlain, plain_size};
ghost use Rattle.krb_gss.specs.Inner.Reading.{mic_whole};

use crate::framing::begin;
use crate::negotiation::mic;
use crate::putting::{Message, Token};
use crate::wrapping::encoded;
use crate::{Mechanism, TokenFault, WrapFault};
use krb_der::{Cursor, EncodeParts, Field, Last, Maybe, Octets, Writer};
use std::alloc::{AllocError, Global};

/// Reads the mechListMIC of a client's later message; `None` if it has none.
///
/// A responseToken in it isn't looked at: [`open_later`](crate::open_later) opens that.
///
/// # Errors
/// `Malformed`: the bytes aren't such a message. The fault is one by the rules of `specs::ListMic`.
pub fn later_mic<'a>(bytes: &'a [u8]) -> Result<Option<&'a [u8]>, TokenFault>
    ensures found { IfOk result (λ mic. HoldsMic (bytes_if mic) bytes.entry.now) }
    ensures only { (mic : Option (List ℕ)) → HoldsMic mic bytes.entry.now → IsOkAnd result (λ it. bytes_if it ≡ mic) }
    ensures faulty { IfErr result (IsMicFault bytes.entry.now) }
{
    match whole(bytes) {
        Ok(place) => Ok(content(place)),
        Err(fault) => Err(fault),
    }
}

fn content<'a>(place: Option<Cursor<'a>>) -> Option<&'a [u8]>
    ensures { bytes_if result ≡ rest_if place.entry }
{
    match place {
        Some(cursor) => Some(cursor.rest()),
        None => None,
    }
}

#[tactic(auto, unfolding(crate::specs::Inner::Reading::mic_whole))]
fn whole<'a>(bytes: &'a [u8]) -> Result<Option<Cursor<'a>>, TokenFault>
    ensures { result ≡ mic_whole bytes.entry.now }
{
    let cursor = begin(bytes)?;
    Ok(mic(cursor)?)
}

/// A message AP-REP, and the name that its token gives Kerberos.
#[derive(Clone, Copy, Debug, PartialEq, Eq)]
pub struct Reply<'a> {
    /// The name.
    pub mechanism: Mechanism,
    /// The message.
    pub message: &'a [u8],
}

impl EncodeParts for Reply<'_> {
    ghost writes = { λ r. IsElement 0x04 (IsPlain 0x02 r.mechanism r.message.now) };

    ghost size = { λ r. element_size (plain_size r.mechanism (length r.message.now)) };

    fn size_within(&self) -> Option<usize> {
        let message = Message {
            id: 0x02,
            bytes: self.message,
        };
        let mechanism = self.mechanism;
        Last::<0x04, _>(Token { mechanism, message }).size_within()
    }

    fn write_parts(&self, out: &mut Writer) -> Result<(), AllocError> {
        let message = Message {
            id: 0x02,
            bytes: self.message,
        };
        let mechanism = self.mechanism;
        Last::<0x04, _>(Token { mechanism, message }).write_parts(out)
    }
}

/// A service's later answer in a negotiation whose list of mechanisms is checked.
///
/// If a mechListMIC is required, an answer with a reply is accept-incomplete until the client's mechListMIC has been checked (RFC 4178,
/// section 5 (b)). Whether it has been is the caller's to say: [`wrap_checked`] writes the state that it is given.
#[derive(Clone, Copy, Debug, PartialEq, Eq)]
pub struct Checked<'a> {
    /// Whether the client is accepted (accept-completed), or its mechListMIC is still wanted (accept-incomplete).
    pub is_completed: bool,
    /// The reply, if one is due.
    pub reply: Option<Reply<'a>>,
    /// The mechListMIC: the service's MIC of the list that the client sent.
    pub mic: &'a [u8],
}

impl Checked<'_> {
    fn state(&self) -> u8
        ensures { result ≡ checked_state self.now.is_completed }
    {
        if self.is_completed { 0 } else { 1 }
    }
}

impl EncodeParts for Checked<'_> {
    ghost writes = { WritesChecked };

    ghost size = { checked_size };

    fn size_within(&self) -> Option<usize> {
        let state = [self.state()];
        let mic = Last::<0xa3, _>(Last::<0x04, _>(Octets(self.mic)));
        let fields = (
            Field::<0xa0, _>(Last::<0x0a, _>(Octets(&state))),
            (Maybe::<0xa2, _>(self.reply), mic),
        );
        Last::<0xa1, _>(Last::<0x30, _>(fields)).size_within()
    }

    fn write_parts(&self, out: &mut Writer) -> Result<(), AllocError> {
        let state = [self.state()];
        let mic = Last::<0xa3, _>(Last::<0x04, _>(Octets(self.mic)));
        let fields = (
            Field::<0xa0, _>(Last::<0x0a, _>(Octets(&state))),
            (Maybe::<0xa2, _>(self.reply), mic),
        );
        Last::<0xa1, _>(Last::<0x30, _>(fields)).write_parts(out)
    }
}

/// Writes a service's later answer with a mechListMIC. The messages in it may be any bytes.
///
/// It is a NegTokenResp with a negState, the token if there is a reply, and the mechListMIC.
///
/// # Errors
/// - `TooLong`: the answer would have more than 1,048,576 bytes.
/// - `OutOfMemory`.
pub fn wrap_checked(alloc: Global, checked: Checked<'_>) -> Result<Vec<u8>, WrapFault>
    ensures written { IfOk result (λ bytes. WritesChecked checked.entry bytes.items) }
    ensures fits { OnOk result (checked_size checked.entry ≤ limit) }
    ensures too_long { IsErrOf result WrapFault.TooLong → limit < checked_size checked.entry }
    ensures memory { IsErrOf result WrapFault.OutOfMemory → checked_size checked.entry ≤ limit }
{
    encoded(alloc, &checked)
}
