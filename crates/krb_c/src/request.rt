//! A client's request, from a credential of its cache.

ghost use Rattle.std.specs.Prelude.{IfErr, IfOk, None, Ok, Some, ◌≡◌};
ghost use Rattle.std.specs.Option.{MatchOption};
ghost use Rattle.krb_c.specs.Answer.{plain};
ghost use Rattle.krb_c.specs.Request.{IsAskFault, IsRequestFor, Sends, ask, context_for, request_answer};
ghost use Rattle.krb_c.specs.Codes.{empty_handle};

use crate::answer::hand_over;
use crate::code;
use crate::handle::{put, with_held};
use crate::handles::{CacheHandle, PendingHandle};
use crate::key::block_of;
use crate::name::name_of;
use crate::structs::{Answer, Choice, ContextChoice, Time};
use krb_ap::{ContextRequest, Initiator, Pending, RequestFault, RequestOptions};
use std::alloc::Global;

/// Builds a request for a service from the first credential of a cache that fits
/// (`krb_ap::Initiator::make_request`), and keeps in the handle `pending` what is needed to read the
/// reply. What that held is freed. If no request is built, `pending` is unchanged.
#[unsafe(no_mangle)]
pub extern "C" fn fevstunik_request(
    cache: &mut CacheHandle,
    pending: &mut PendingHandle,
    alloc: Global,
    service: &[u8],
    at: &Time,
    confounder: &[u8],
    choice: &Choice,
    subkey: &[u8],
    buffer: &mut [u8],
) -> Answer
    ensures sent { MatchOption cache.old.value
        ((result ≡ plain empty_handle) × ((pending.new.value ≡ pending.old.value) × (buffer.new ≡ buffer.old)))
        (λ held. Sends (ask held service.now at.now choice.now subkey.now None) confounder.now pending.old.value pending.new.value buffer.old buffer.new result) }
    ensures stays { cache.new.value ≡ cache.old.value }
{
    let given = Arguments {
        service,
        at,
        confounder,
        choice,
        subkey,
        context: None,
    };
    request_by(cache, pending, alloc, &given, buffer)
}

/// Does the same as `fevstunik_request` for a client of GSS-API: the authenticator has the checksum
/// of type 0x8003.
#[unsafe(no_mangle)]
pub extern "C" fn fevstunik_context_request(
    cache: &mut CacheHandle,
    pending: &mut PendingHandle,
    service: &[u8],
    at: &Time,
    confounder: &[u8],
    choice: &Choice,
    subkey: &[u8],
    alloc: Global,
    context: &ContextChoice,
    buffer: &mut [u8],
) -> Answer
    ensures sent { MatchOption cache.old.value
        ((result ≡ plain empty_handle) × ((pending.new.value ≡ pending.old.value) × (buffer.new ≡ buffer.old)))
        (λ held. Sends (ask held service.now at.now choice.now subkey.now (Some (context_for context.now))) confounder.now pending.old.value pending.new.value buffer.old buffer.new result) }
    ensures stays { cache.new.value ≡ cache.old.value }
{
    let context = ContextRequest {
        flags: context.flags,
        bindings: context.bindings,
    };
    let given = Arguments {
        service,
        at,
        confounder,
        choice,
        subkey,
        context: Some(context),
    };
    request_by(cache, pending, alloc, &given, buffer)
}

// What C passes for a request, besides the handles and the buffer.
#[derive(Drop)]
struct Arguments<'a> {
    service: &'a [u8],
    at: &'a Time,
    confounder: &'a [u8],
    choice: &'a Choice,
    subkey: &'a [u8],
    context: Option<ContextRequest>,
}

fn request_by(
    cache: &mut CacheHandle,
    pending: &mut PendingHandle,
    alloc: Global,
    given: &Arguments<'_>,
    buffer: &mut [u8],
) -> Answer
    ensures sent { MatchOption cache.old.value
        ((result ≡ plain empty_handle) × ((pending.new.value ≡ pending.old.value) × (buffer.new ≡ buffer.old)))
        (λ held. Sends (ask held given.now.service.now given.now.at.now given.now.choice.now given.now.subkey.now given.now.context)
        given.now.confounder.now pending.old.value pending.new.value buffer.old buffer.new result) }
    ensures stays { cache.new.value ≡ cache.old.value }
{
    with_held!(cache, alloc, held => send(alloc, &mut held, pending, given, buffer))
}

fn send(
    alloc: Global,
    cache: &mut Initiator,
    pending: &mut PendingHandle,
    given: &Arguments<'_>,
    buffer: &mut [u8],
) -> Answer
    ensures sent { Sends (ask cache.old given.now.service.now given.now.at.now given.now.choice.now given.now.subkey.now given.now.context) given.now.confounder.now pending.old.value pending.new.value buffer.old buffer.new result }
    ensures kept { cache.new ≡ cache.old }
{
    match asked(alloc, cache, given) {
        Ok((bytes, kept)) => {
            put(pending, kept);
            hand_over(bytes.as_slice(), buffer)
        }
        Err(answer) => answer,
    }
}

// The request and what is kept of it.
fn asked(
    alloc: Global,
    cache: &mut Initiator,
    given: &Arguments<'_>,
) -> Result<(Vec<u8>, Box<Pending>), Answer>
    ensures asks { IfOk result (λ made. IsRequestFor (ask cache.old given.now.service.now given.now.at.now given.now.choice.now given.now.subkey.now given.now.context) given.now.confounder.now made.0.items made.1.value) }
    ensures fault { IfErr result (λ answer. IsAskFault (ask cache.old given.now.service.now given.now.at.now given.now.choice.now given.now.subkey.now given.now.context) given.now.confounder.now answer) }
    ensures kept { cache.new ≡ cache.old }
{
    let service = name_of(alloc, given.service)?;
    let now = match given.at.moment() {
        Some(now) => now,
        None => return Err(Answer::plain(code::BAD_MOMENT)),
    };
    let confounder = block_of(given.confounder)?;
    let subkey = given.choice.subkey(given.subkey)?;
    let options = RequestOptions {
        mutual: given.choice.wants_reply,
        subkey,
        seq: given.choice.seq(),
        context: given.context,
    };
    let (bytes, pending) = match cache.make_request(alloc, &service, now, &confounder, options) {
        Ok(made) => made,
        Err(fault) => return Err(request_told(fault)),
    };
    match Box::new(alloc, pending) {
        Ok(pending) => Ok((bytes, pending)),
        Err(_) => Err(request_told(RequestFault::OutOfMemory)),
    }
}

fn request_told(fault: RequestFault) -> Answer
    ensures { result ≡ request_answer fault }
{
    match fault {
        RequestFault::NoCredential => Answer::plain(code::NO_CREDENTIAL),
        RequestFault::NoUsableKey => Answer::plain(code::NO_USABLE_KEY),
        RequestFault::Expired => Answer::plain(code::CREDENTIAL_EXPIRED),
        RequestFault::BadTicket => Answer::plain(code::BAD_TICKET),
        RequestFault::TooLong => Answer::plain(code::TOO_LONG),
        RequestFault::OutOfMemory => Answer::plain(code::OUT_OF_MEMORY),
    }
}
