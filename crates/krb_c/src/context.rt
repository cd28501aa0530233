//! What a client of GSS-API asks for in its authenticator's checksum.

ghost use Rattle.krb_c.specs.Contexts.{ReadsContext, bytes_or_none, context_answer, context_bytes, context_of};
ghost use Rattle.std.specs.Prelude.{IfOk, ◌≡◌};
ghost use Rattle.krb_gss.specs.Checksum.{bytes_if, content_of};
ghost use Rattle.krb_c.specs.Known.{is_there};

use crate::answer::{append, hand_over_with};
use crate::code;
use crate::structs::{Answer, Context};
use krb_gss::{Checksum, ChecksumFault};
use std::alloc::{AllocError, Global};

/// Reads the authenticator's checksum of type 0x8003 (`krb_gss::Checksum::parse`). Writes the
/// bindings, the delegation and the extensions to the buffer, and their places and the flags to
/// `context`. The places are written even if the buffer is too short.
#[unsafe(no_mangle)]
pub extern "C" fn fevstunik_context_read(
    alloc: Global,
    checksum: &[u8],
    context: &mut Context,
    buffer: &mut [u8],
) -> Answer
    ensures { ReadsContext checksum.now
        context.old context.new buffer.old buffer.new result }
{
    match Checksum::parse(checksum) {
        Ok(found) => hand_over_with(told(alloc, &found), context, buffer),
        Err(fault) => context_told(fault),
    }
}

fn context_told(fault: ChecksumFault) -> Answer
    ensures { result ≡ context_answer fault }
{
    match fault {
        ChecksumFault::Truncated => Answer::plain(code::CONTEXT_TRUNCATED),
        ChecksumFault::BindingsLength => Answer::plain(code::CONTEXT_BINDINGS),
        ChecksumFault::DelegationOption => Answer::plain(code::CONTEXT_DELEGATION),
    }
}

// The bytes that are returned, and the place of each part.
fn told(alloc: Global, found: &Checksum) -> Result<(Vec<u8>, Context), AllocError>
    ensures { IfOk result (λ made. (made.0.items ≡ context_bytes (content_of found.now)) × (made.1 ≡ context_of (content_of found.now))) }
{
    let mut bytes = Vec::new(alloc);
    let bindings = append(&mut bytes, &found.bindings)?;
    let delegation = append(&mut bytes, delegated(found))?;
    let extensions = append(&mut bytes, found.extensions)?;
    let told = Context {
        bindings,
        delegation,
        extensions,
        flags: found.flags.0,
        has_delegation: has_delegation(found),
    };
    Ok((bytes, told))
}

fn delegated<'a>(found: &Checksum<'a>) -> &'a [u8]
    ensures { result.now ≡ bytes_or_none (bytes_if found.now.delegation) }
{
    match found.delegation {
        Some(bytes) => bytes,
        None => &[],
    }
}

fn has_delegation(found: &Checksum) -> bool
    ensures { result ≡ is_there (bytes_if found.now.delegation) }
{
    found.delegation.is_some()
}
