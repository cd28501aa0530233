//! The lines of an opened ticket.

ghost use Rattle.std.specs.Prelude.{◌≡◌, IfOk, string_bytes};
ghost use Rattle.krb_msg.specs.Borrowed.{enc_ticket_part_of, typed_of};
ghost use Rattle.krb_explain_keys.specs.Ticket.{AreTicketLines, AreTicketTimes, ticket_end, ticket_head, transited_line, transited_text};

use crate::data::{date_lines, types_text};
use krb_explain::{listed, name_line, ticket_flags_text, type_text, write_shown};
use krb_msg::{EncTicketRef, TypedRef};
use krb_readable::Text;
use std::alloc::{AllocError, Global};

// The type of transited realms that RFC 4120, section 3.3.3.2, defines.
const DOMAIN_X500_COMPRESS: i32 = 1;

/// Makes the lines of an opened ticket.
pub(crate) fn ticket_lines(alloc: Global, part: &EncTicketRef) -> Result<Vec<Text>, AllocError>
    ensures { IfOk result (λ lines. AreTicketLines (enc_ticket_part_of part.now) lines.items) }
{
    let mut lines = ticket_head(alloc, part)?;
    lines.append(&mut ticket_times(alloc, part)?)?;
    lines.append(&mut ticket_end(alloc, part)?)?;
    Ok(lines)
}

// The client, the flags and the session key's type.
fn ticket_head(alloc: Global, part: &EncTicketRef) -> Result<Vec<Text>, AllocError>
    ensures { IfOk result (λ lines. lines.items ≡ ticket_head (enc_ticket_part_of part.now)) }
{
    let client = name_line(alloc, "ticket's client", part.crealm, &part.cname)?;
    let flags = ticket_flags_text(alloc, part.flags)?;
    let flags = Text::new(format!(in alloc; "ticket's flags: {flags}")?);
    let etype = type_text(alloc, part.key.etype)?;
    let key = Text::new(format!(in alloc; "ticket's session key: type {etype}")?);
    listed(alloc, [client, flags, key])
}

fn ticket_times(alloc: Global, part: &EncTicketRef) -> Result<Vec<Text>, AllocError>
    ensures { IfOk result (λ lines. AreTicketTimes (enc_ticket_part_of part.now) lines.items) }
{
    let mut lines = date_lines(
        alloc,
        "ticket's authtime: ",
        part.authtime,
        "ticket's starttime: ",
        part.starttime,
    )?;
    lines.append(&mut date_lines(
        alloc,
        "ticket's endtime: ",
        part.endtime,
        "ticket's renew-till: ",
        part.renew_till,
    )?)?;
    Ok(lines)
}

// The realms between client and service, and the types of authorization data.
fn ticket_end(alloc: Global, part: &EncTicketRef) -> Result<Vec<Text>, AllocError>
    ensures { IfOk result (λ lines. lines.items ≡ ticket_end (enc_ticket_part_of part.now)) }
{
    let transited = transited_line(alloc, &part.transited)?;
    let types = types_text(alloc, &part.authorization)?;
    let data = Text::new(format!(in alloc; "ticket's authorization data:{types}")?);
    listed(alloc, [transited, data])
}

fn transited_line(alloc: Global, transited: &TypedRef) -> Result<Text, AllocError>
    ensures { IfOk result (λ line. line ≡ transited_line (typed_of transited.now)) }
{
    let kind = transited.kind;
    let text = transited_text(alloc, kind, transited.bytes)?;
    Ok(Text::new(format!(in alloc; "ticket's transited realms: type {kind}, {text}")?))
}

// The realms of an encoding of type 1; the size of another.
fn transited_text(alloc: Global, kind: i32, bytes: &[u8]) -> Result<String, AllocError>
    ensures { IfOk result (λ text. string_bytes text ≡ transited_text kind bytes.now) }
{
    if kind == DOMAIN_X500_COMPRESS {
        let mut realms = String::new(alloc);
        write_shown(&mut realms, bytes)?;
        format!(in alloc; "'{realms}'")
    } else {
        let size = bytes.len();
        format!(in alloc; "{size} bytes")
    }
}
