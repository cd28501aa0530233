//! The MICs of a list of mechanisms, and what they go back with.

ghost use Rattle.std.specs.Prelude.{◌≡◌, Option, Some, IfOk, IfErr, OnOk, OnErr, ◌≤◌, take, length};
ghost use Rattle.krb_ap.specs.Answer.{taken_of};
ghost use Rattle.krb_context.specs.Context.{IsMicRefusal};
ghost use Rattle.krb_talk.specs.Inner.{HasNext, IsInToken};
ghost use Rattle.krb_talk.specs.ListMic.{MakesReply, Marks, MarksIn, RepliesIf, Shows};

use crate::agreeing::choice_again;
use crate::checking::ListFault;
use krb_ap::{Accepted, ReplyOptions};
use krb_context::{Context, ReceiveFault};
use krb_gss::{Checked, Mechanism, Reply, wrap_checked};
use std::alloc::{AllocError, Global};

/// Checks the client's MIC of the list, and takes it.
#[inline(never)]
pub(crate) fn show(context: &mut Context, list: &[u8], mic: &[u8]) -> Result<(), ReceiveFault>
    ensures shown { OnOk result (Shows list.now mic.now context.old context.new) }
    ensures wrong { IfErr result (IsMicRefusal context.old list.now mic.now) }
    ensures unchanged { OnErr result (context.new ≡ context.old) }
{
    match context.verify_mic(list, mic) {
        Ok(_) => Ok(()),
        Err(fault) => Err(fault),
    }
}

/// What a service's answer is made of, with its reply. There is no `Debug`, so no log shows a key.
#[derive(Clone, Copy)]
pub(crate) struct Replying<'a> {
    /// The name of Kerberos in the client's token.
    pub(crate) mechanism: Mechanism,
    /// 16 random bytes.
    pub(crate) confounder: &'a [u8; 16],
    /// What the service chose for the reply.
    pub(crate) choice: &'a ReplyOptions,
}

/// Makes the reply for a client that awaits one.
#[inline(never)]
fn reply_if(
    alloc: Global,
    accepted: &Accepted,
    replying: Replying<'_>,
) -> Result<Option<Vec<u8>>, AllocError>
    ensures { IfOk result (MakesReply accepted.now.mutual (taken_of accepted.now) replying.entry.confounder.now replying.entry.choice.now) }
{
    if !accepted.mutual {
        return Ok(None);
    }
    let message = accepted.reply(alloc, replying.confounder, choice_again(replying.choice))?;
    Ok(Some(message))
}

/// The reply in a token of this name of Kerberos.
fn in_token<'a>(mechanism: Mechanism, made: &'a Option<Vec<u8>>) -> Option<Reply<'a>>
    ensures { IsInToken mechanism made.entry.now result }
{
    match made {
        None => None,
        Some(message) => Some(Reply {
            mechanism,
            message: message.as_slice(),
        }),
    }
}

/// Writes what goes back to the client of an accepted request, with the service's own MIC of the list.
pub(crate) fn marked(
    alloc: Global,
    context: &mut Context,
    list: &[u8],
    is_completed: bool,
    accepted: &Accepted,
    replying: Replying<'_>,
) -> Result<Vec<u8>, ListFault>
    requires { HasNext context.old }
    ensures marked { IfOk result (λ sent. MarksIn list.now is_completed
        (RepliesIf accepted.now.mutual (taken_of accepted.now) replying.entry.mechanism replying.entry.confounder.now replying.entry.choice.now)
        context.old context.new sent.items) }
    ensures memory { IfErr result (λ fault. fault ≡ ListFault.OutOfMemory) }
{
    let Ok(made) = reply_if(alloc, accepted, replying) else {
        return Err(ListFault::OutOfMemory);
    };
    mark(
        alloc,
        context,
        list,
        is_completed,
        in_token(replying.mechanism, &made),
    )
}

/// Writes the service's own MIC of the list to the start of `room`, and returns its length.
#[inline(never)]
fn own_mic(context: &mut Context, list: &[u8], room: &mut [u8]) -> usize
    requires next { HasNext context.old }
    requires room { length room.old ≡ 40 }
    ensures fits { result ≤ length room.new }
    ensures marks { Marks list.now context.old (take result room.new) context.new }
{
    krb_context::laws::token_lengths();
    krb_context::laws::what_is_written_is_read();
    let Ok(size) = context.mic_to(list, room) else {
        unreachable!();
    };
    size
}

/// Writes the service's answer with its own MIC of the list.
#[inline(never)]
fn mark(
    alloc: Global,
    context: &mut Context,
    list: &[u8],
    is_completed: bool,
    reply: Option<Reply<'_>>,
) -> Result<Vec<u8>, ListFault>
    requires { HasNext context.old }
    ensures marked { IfOk result (λ sent. MarksIn list.now is_completed (λ it. it ≡ reply.entry) context.old context.new sent.items) }
    ensures memory { IfErr result (λ fault. fault ≡ ListFault.OutOfMemory) }
{
    let mut room = [0u8; 40];
    let size = own_mic(context, list, &mut room);
    let checked = Checked {
        is_completed,
        reply,
        mic: &room[..size],
    };
    match wrap_checked(alloc, checked) {
        Ok(sent) => Ok(sent),
        Err(_) => Err(ListFault::OutOfMemory),
    }
}
