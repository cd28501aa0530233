//! What the handle of an accepted request holds.

ghost use Rattle.std.specs.Prelude.{IfErr, IfOk, IfSome, ◌≡◌};
ghost use Rattle.krb_c.specs.Choice.{IsReplyFault, Replied, TellsReply};
ghost use Rattle.krb_c.specs.Known.{TellsKnown, known_of, told_bytes};
ghost use Rattle.krb_c.specs.Messages.{CountsSent};
ghost use Rattle.krb_c.specs.Service.{nothing_kept};

use crate::answer::{append, hand_over, hand_over_with};
use crate::code;
use crate::key::{block_of, bytes_of, type_of};
use crate::structs::{Answer, Choice, Known};
use krb_ap::{Accepted, ReplyOptions};
use std::alloc::{AllocError, Global};

/// What was accepted, if anything was.
#[derive(Drop)]
pub struct AcceptedState {
    /// What is known of it.
    pub accepted: Option<Accepted>,
    /// Whether each side has sent its first message already: the MIC of the client's list of mechanisms.
    pub has_sent: bool,
}

impl AcceptedState {
    /// Keeps nothing.
    pub(crate) fn nothing() -> AcceptedState
        ensures { result ≡ nothing_kept }
    {
        AcceptedState {
            accepted: None,
            has_sent: false,
        }
    }

    /// Keeps nothing, in a box; none if there is no memory for it. It has a stack frame of its own.
    #[inline(never)]
    pub(crate) fn boxed(alloc: Global) -> Option<Box<AcceptedState>>
        ensures { IfSome result (λ it. it.value ≡ nothing_kept) }
    {
        match Box::new(alloc, AcceptedState::nothing()) {
            Ok(it) => Some(it),
            Err(_) => None,
        }
    }

    /// Discards what was accepted.
    pub(crate) fn clear(&mut self)
        ensures { self.new ≡ nothing_kept }
    {
        *self = AcceptedState::nothing();
    }

    /// Counts the messages that each side has sent in the login.
    pub(crate) fn count_sent(&self) -> Answer
        ensures { CountsSent self.now result }
    {
        if self.accepted.is_none() {
            return Answer::plain(code::NOTHING_THERE);
        }
        Answer::sized(code::OK, usize::from(self.has_sent))
    }

    /// Returns what was accepted.
    pub(crate) fn tell(&self, alloc: Global, known: &mut Known, buffer: &mut [u8]) -> Answer
        ensures { TellsKnown self.now.accepted known.old known.new buffer.old buffer.new result }
    {
        match &self.accepted {
            Some(accepted) => hand_over_with(tell(alloc, accepted), known, buffer),
            None => Answer::plain(code::NOTHING_THERE),
        }
    }

    /// Builds the reply to what was accepted.
    pub(crate) fn reply(
        &self,
        alloc: Global,
        confounder: &[u8],
        choice: &Choice,
        subkey: &[u8],
        buffer: &mut [u8],
    ) -> Answer
        ensures { TellsReply self.now.accepted confounder.now choice.now subkey.now buffer.old buffer.new result }
    {
        match &self.accepted {
            Some(accepted) => match replied(alloc, accepted, confounder, choice, subkey) {
                Ok(bytes) => hand_over(bytes.as_slice(), buffer),
                Err(answer) => answer,
            },
            None => Answer::plain(code::NOTHING_THERE),
        }
    }
}

// The reply to what was accepted.
fn replied(
    alloc: Global,
    accepted: &Accepted,
    confounder: &[u8],
    choice: &Choice,
    subkey: &[u8],
) -> Result<Vec<u8>, Answer>
    ensures reply { IfOk result (λ bytes. Replied accepted.now confounder.now choice.now subkey.now bytes.items) }
    ensures fault { IfErr result (λ answer. IsReplyFault confounder.now choice.now subkey.now answer) }
{
    let confounder = block_of(confounder)?;
    let subkey = choice.subkey(subkey)?;
    let options = ReplyOptions {
        subkey,
        seq: choice.seq(),
    };
    match accepted.reply(alloc, &confounder, options) {
        Ok(bytes) => Ok(bytes),
        Err(_) => Err(Answer::plain(code::OUT_OF_MEMORY)),
    }
}

/// The bytes that are returned, and the place of each part.
pub(crate) fn tell(alloc: Global, accepted: &Accepted) -> Result<(Vec<u8>, Known), AllocError>
    ensures { IfOk result (λ made. (made.0.items ≡ told_bytes accepted.now) × (made.1 ≡ known_of accepted.now)) }
{
    let mut bytes = Vec::new(alloc);
    let text = accepted.client.to_text(alloc)?;
    let client = append(&mut bytes, text.as_bytes())?;
    let session_key = append(&mut bytes, accepted.session_key.bytes())?;
    let subkey = append(&mut bytes, bytes_of(&accepted.subkey))?;
    let text = accepted.service.to_text(alloc)?;
    let service = append(&mut bytes, text.as_bytes())?;
    let known = Known {
        client,
        session_key,
        subkey,
        service,
        authtime: accepted.authtime.get(),
        endtime: accepted.endtime.get(),
        ctime: accepted.ctime.get(),
        cusec: accepted.cusec.get(),
        flags: accepted.flags.0,
        seq: accepted.seq.unwrap_or(0),
        name_type: accepted.client.name_type,
        service_type: accepted.service.name_type,
        session_type: accepted.session_key.etype(),
        subkey_type: type_of(&accepted.subkey),
        has_subkey: accepted.subkey.is_some(),
        has_seq: accepted.seq.is_some(),
        wants_reply: accepted.mutual,
    };
    Ok((bytes, known))
}
