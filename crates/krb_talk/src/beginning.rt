//! The context of a client whose list is checked. It is made in a stack frame of its own, and kept in a box.

ghost use Rattle.std.specs.Prelude.{◌≡◌, IfErr, IfOk};
ghost use Rattle.krb_gss.specs.Checksum.{bytes_if};
ghost use Rattle.krb_talk.specs.Beginning.{IsAskedIn, IsContextFor, IsNoContextFor, IsNotAsked, IsNotShown, IsShownIn};

use crate::agreeing::context_of;
use crate::checking::ListFault;
use crate::mic::show;
use krb_ap::{Accepted, ReplyOptions};
use krb_context::{Context, Options};
use std::alloc::Global;

/// Makes the context of a client whose MIC came with its token, or didn't.
pub(crate) fn context_for(
    alloc: Global,
    accepted: &Accepted,
    choice: &ReplyOptions,
    options: Options,
    list: &[u8],
    mic: Option<&[u8]>,
) -> Result<Box<Context>, ListFault>
    ensures begun { IfOk result (λ it. IsContextFor accepted.now choice.now options list.now (bytes_if mic.entry) it.value) }
    ensures fault { IfErr result (IsNoContextFor accepted.now choice.now options list.now (bytes_if mic.entry)) }
{
    match mic {
        Some(mic) => shown_context(alloc, accepted, choice, options, list, mic),
        None => asked_context(alloc, accepted, choice, options),
    }
}

// Makes the context of a client that has shown its list by a MIC which came with its token.
#[inline(never)]
fn shown_context(
    alloc: Global,
    accepted: &Accepted,
    choice: &ReplyOptions,
    options: Options,
    list: &[u8],
    mic: &[u8],
) -> Result<Box<Context>, ListFault>
    ensures shown { IfOk result (λ it. IsShownIn accepted.now choice.now options list.now mic.now it.value) }
    ensures fault { IfErr result (IsNotShown accepted.now choice.now options list.now mic.now) }
{
    let Some(mut context) = context_of(accepted, choice, options) else {
        return Err(ListFault::OtherKey);
    };
    match show(&mut context, list, mic) {
        Ok(()) => boxed(alloc, context),
        Err(fault) => Err(ListFault::Wrong(fault)),
    }
}

// Makes the context of a client that is asked for its MIC, if it awaits a reply.
#[inline(never)]
fn asked_context(
    alloc: Global,
    accepted: &Accepted,
    choice: &ReplyOptions,
    options: Options,
) -> Result<Box<Context>, ListFault>
    ensures asked { IfOk result (λ it. IsAskedIn accepted.now choice.now options it.value) }
    ensures fault { IfErr result (IsNotAsked accepted.now choice.now options) }
{
    let Some(context) = context_of(accepted, choice, options) else {
        return Err(ListFault::OtherKey);
    };
    if !accepted.mutual {
        return Err(ListFault::Missing);
    }
    boxed(alloc, context)
}

fn boxed(alloc: Global, context: Context) -> Result<Box<Context>, ListFault>
    ensures same { IfOk result (λ it. it.value ≡ context) }
    ensures memory { IfErr result (λ fault. fault ≡ ListFault.OutOfMemory) }
{
    match Box::new(alloc, context) {
        Ok(it) => Ok(it),
        Err(_) => Err(ListFault::OutOfMemory),
    }
}
