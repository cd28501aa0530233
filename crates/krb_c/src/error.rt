//! The error that says why a request was refused.

ghost use Rattle.std.specs.Prelude.{IfErr, IfOk, None, Some, ◌≡◌};
ghost use Rattle.std.specs.Option.{MatchOption};
ghost use Rattle.krb_c.specs.Refusal.{Errors, IsErrorFault, TellsError, TellsErrorOf, error_answer};
ghost use Rattle.krb_c.specs.Answer.{plain};
ghost use Rattle.krb_c.specs.Codes.{empty_handle};

use crate::answer::hand_over;
use crate::cause::cause_of;
use crate::code;
use crate::handle::with_held;
use crate::handles::ServiceHandle;
use crate::name::typed_name_of;
use crate::service::fevstunik_acceptor_accept;
use crate::structs::{Answer, Time};
use krb_ap::{Refusal, ReplyFault, error_reply};
use std::alloc::Global;

/// Builds the error that says why the last call of `fevstunik_acceptor_accept` refused a request,
/// with the service's name of this type and its time (`krb_ap::error_reply`).
#[unsafe(no_mangle)]
pub extern "C" fn fevstunik_acceptor_error(
    handle: &mut ServiceHandle,
    alloc: Global,
    service: &[u8],
    name_type: i32,
    now: &Time,
    buffer: &mut [u8],
) -> Answer
    ensures error { MatchOption handle.old.value ((result ≡ plain empty_handle) × (buffer.new ≡ buffer.old))
        (λ state. TellsError state.refusal service.now name_type now.now buffer.old buffer.new result) }
    ensures stays { handle.new.value ≡ handle.old.value }
{
    with_held!(handle, alloc, state => state.error(alloc, service, name_type, now, buffer))
}

/// Builds the error of the cause that has this code, with the service's name of this type and its
/// time (`krb_ap::error_reply`). It depends on the arguments alone, so another request's cause
/// can't get into it.
#[unsafe(no_mangle)]
pub extern "C" fn fevstunik_error(
    alloc: Global,
    code: u32,
    service: &[u8],
    name_type: i32,
    now: &Time,
    buffer: &mut [u8],
) -> Answer
    ensures { TellsErrorOf code service.now name_type now.now buffer.old buffer.new result }
{
    match cause_of(code) {
        Some(refusal) => match error_of(alloc, &refusal, service, name_type, now) {
            Ok(bytes) => hand_over(bytes.as_slice(), buffer),
            Err(answer) => answer,
        },
        None => Answer::plain(code::NO_CODE),
    }
}

/// The error that says why a request was refused.
pub(crate) fn error_of(
    alloc: Global,
    refusal: &Refusal,
    service: &[u8],
    name_type: i32,
    now: &Time,
) -> Result<Vec<u8>, Answer>
    ensures error { IfOk result (λ bytes. Errors refusal.now service.now name_type now.now bytes.items) }
    ensures fault { IfErr result (λ answer. IsErrorFault refusal.now service.now name_type now.now answer) }
{
    let service = typed_name_of(alloc, service, name_type)?;
    let now = match now.moment() {
        Some(now) => now,
        None => return Err(Answer::plain(code::BAD_MOMENT)),
    };
    match error_reply(alloc, refusal, now, &service) {
        Ok(bytes) => Ok(bytes),
        Err(fault) => Err(error_told(fault)),
    }
}

fn error_told(fault: ReplyFault) -> Answer
    ensures { result ≡ error_answer fault }
{
    match fault {
        ReplyFault::NoCode => Answer::plain(code::NO_CODE),
        ReplyFault::TooLong => Answer::plain(code::TOO_LONG),
        ReplyFault::OutOfMemory => Answer::plain(code::OUT_OF_MEMORY),
    }
}
