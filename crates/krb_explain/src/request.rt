//! The lines of requests and replies.

ghost use Rattle.std.specs.Prelude.{◌≡◌, ◌++◌, IfOk, codes};
ghost use Rattle.krb_msg.specs.Borrowed.{ap_rep_of, ap_req_of};
ghost use Rattle.krb_explain.specs.Message.{reply_lines, request_lines};
ghost use Rattle.krb_explain.specs.Registry.{flags_text, option_names};

use crate::flags::options_text;
use crate::line::listed;
use crate::parts::{add_type_notes, head_line, name_line, sealed_line};
use krb_der::Flags;
use krb_msg::{ApRepRef, ApReqRef};
use krb_readable::Text;
use std::alloc::{AllocError, Global};

/// Makes the lines of a request of so many bytes.
pub(crate) fn request_lines(
    alloc: Global,
    size: usize,
    request: &ApReqRef,
) -> Result<Vec<Text>, AllocError>
    ensures { IfOk result (λ lines. lines.items ≡ request_lines size (ap_req_of request.now)) }
{
    let ticket = &request.ticket;
    let head = head_line(alloc, "AP-REQ", size)?;
    let options = options_line(alloc, request.options)?;
    let service = name_line(alloc, "service", ticket.realm, &ticket.sname)?;
    let sealed = sealed_line(alloc, "ticket", &ticket.enc_part)?;
    let authenticator = sealed_line(alloc, "authenticator", &request.authenticator)?;
    let mut lines = listed(alloc, [head, options, service, sealed, authenticator])?;
    add_type_notes(alloc, &mut lines, ticket.enc_part.etype)?;
    Ok(lines)
}

fn options_line(alloc: Global, options: Flags) -> Result<Text, AllocError>
    ensures { IfOk result (λ line. line ≡ codes "options: " ++ flags_text option_names options.0) }
{
    let text = options_text(alloc, options)?;
    Ok(Text::new(format!(in alloc; "options: {text}")?))
}

/// Makes the lines of a reply of so many bytes.
pub(crate) fn reply_lines(
    alloc: Global,
    size: usize,
    reply: &ApRepRef,
) -> Result<Vec<Text>, AllocError>
    ensures { IfOk result (λ lines. lines.items ≡ reply_lines size (ap_rep_of reply.now)) }
{
    let head = head_line(alloc, "AP-REP", size)?;
    let sealed = sealed_line(alloc, "reply", &reply.enc_part)?;
    listed(alloc, [head, sealed])
}
