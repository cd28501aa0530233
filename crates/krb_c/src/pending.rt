//! A request whose reply is awaited, and what the reply agrees on.

ghost use Rattle.std.specs.Prelude.{IfOk, None, ◌≡◌};
ghost use Rattle.std.specs.Option.{MatchOption};
ghost use Rattle.krb_c.specs.Answer.{plain};
ghost use Rattle.krb_c.specs.Codes.{empty_handle};
ghost use Rattle.krb_c.specs.Reply.{Ends, agreed_bytes, agreement_told, finish_answer};

use crate::answer::{append, hand_over_with};
use crate::code;
use crate::handle::{empty, with_held};
use crate::handles::PendingHandle;
use crate::key::{bytes_of, type_of};
use crate::structs::{Agreement, Answer};
use krb_ap::{Agreed, FinishFault, Pending};
use krb_msg::error_code;
use std::alloc::{AllocError, Global};

/// Reads the reply to the request that `fevstunik_request` built with this handle, and returns what
/// both sides agree on (`krb_ap::Pending::finish`). The handle is unchanged, so another reply may
/// be read.
#[unsafe(no_mangle)]
pub extern "C" fn fevstunik_finish(
    pending: &mut PendingHandle,
    alloc: Global,
    reply: &[u8],
    agreement: &mut Agreement,
    buffer: &mut [u8],
) -> Answer
    ensures ends { MatchOption pending.old.value ((result ≡ plain empty_handle) × ((agreement.new ≡ agreement.old) × (buffer.new ≡ buffer.old)))
        (λ awaited. Ends awaited reply.now agreement.old agreement.new buffer.old buffer.new result) }
    ensures stays { pending.new.value ≡ pending.old.value }
{
    with_held!(pending, alloc, held => finish(alloc, &held, reply, agreement, buffer))
}

fn finish(
    alloc: Global,
    pending: &Pending,
    reply: &[u8],
    agreement: &mut Agreement,
    buffer: &mut [u8],
) -> Answer
    ensures { Ends pending.now reply.now agreement.old agreement.new buffer.old buffer.new result }
{
    match pending.finish(alloc, reply) {
        Ok(agreed) => hand_over_with(told(alloc, &agreed), agreement, buffer),
        Err(fault) => finish_told(fault),
    }
}

fn finish_told(fault: FinishFault) -> Answer
    ensures { result ≡ finish_answer fault }
{
    match fault {
        FinishFault::MessageType => Answer::plain(code::REPLY_TYPE),
        FinishFault::Malformed(fault) => Answer::placed(code::REPLY_MALFORMED, fault.at),
        FinishFault::Integrity => Answer::plain(code::REPLY_INTEGRITY),
        FinishFault::Mismatch => Answer {
            code: code::REPLY_MISMATCH,
            kerberos: error_code::KRB_AP_ERR_MUT_FAIL,
            at: 0,
            size: 0,
        },
        FinishFault::OutOfMemory => Answer::plain(code::OUT_OF_MEMORY),
    }
}

// The bytes that are returned, and the place of each part.
fn told(alloc: Global, agreed: &Agreed) -> Result<(Vec<u8>, Agreement), AllocError>
    ensures { IfOk result (λ made. (made.0.items ≡ agreed_bytes agreed.now) × (made.1 ≡ agreement_told agreed.now)) }
{
    let mut bytes = Vec::new(alloc);
    let text = agreed.client.to_text(alloc)?;
    let client = append(&mut bytes, text.as_bytes())?;
    let session_key = append(&mut bytes, agreed.session_key.bytes())?;
    let service_subkey = append(&mut bytes, bytes_of(&agreed.service_subkey))?;
    let told = Agreement {
        client,
        session_key,
        service_subkey,
        service_seq: agreed.service_seq.unwrap_or(0),
        name_type: agreed.client.name_type,
        session_type: agreed.session_key.etype(),
        service_subkey_type: type_of(&agreed.service_subkey),
        has_service_subkey: agreed.service_subkey.is_some(),
        has_service_seq: agreed.service_seq.is_some(),
    };
    Ok((bytes, told))
}

/// Frees what the handle holds. The handle is empty then.
#[unsafe(no_mangle)]
pub extern "C" fn fevstunik_pending_free(pending: &mut PendingHandle, alloc: Global)
    ensures { pending.new.value ≡ None }
{
    *pending = empty(alloc);
}
