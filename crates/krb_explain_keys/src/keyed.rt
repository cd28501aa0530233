//! The page that explains bytes with the keys of a keytab.

ghost use Rattle.std.specs.Prelude.{IfOk, string_bytes};
ghost use Rattle.std.specs.Option.{option_map};
ghost use Rattle.krb_explain_keys.specs.Keyed.{AreJudgedLines, AreRequestLines, IsKeyedExplanation, new_service};

use crate::causes::verdict_lines;
use crate::sight::{Clock, seen_of};
use crate::verdict::verdict;
use krb_explain::{date_line, explain_lines, page};
use krb_keytab::Keytab;
use krb_msg::{Moment, Seconds};
use krb_readable::Text;
use krb_replay::Skew;
use std::alloc::{AllocError, Global};

/// Explains bytes as `krb_explain::explain` does; and what a service with these keys sees of a request, and whether it accepts it at
/// the start of a second of its clock.
///
/// The page says which entry of the keytab is picked, or why none is and which entries of the name there are; if its key opens the
/// ticket, what the ticket says; and if the session key opens the authenticator, what that says, and how far its time is from the
/// service's. (A session key of another type than 19 and 20 opens nothing: then the page names its type; nor does one that hasn't the
/// size of its type: then the page has its size.) Then come the service's time, and the first cause for refusing the request, as an
/// acceptor of `krb_ap` reports it that has seen nothing before. After it comes each later cause of that order which holds: those of
/// the name, the type and the choice of an entry for each request, and the others as far as ticket and authenticator open. With each
/// cause it says what to look at. `specs/Keyed` says which lines there are, and `specs/Seen` which causes hold.
///
/// # Errors
/// `AllocError` if there is no memory for the page.
pub fn explain_with_keys(
    alloc: Global,
    bytes: &[u8],
    keytab: Keytab,
    second: Seconds,
    skew: Skew,
) -> Result<String, AllocError>
    ensures { IfOk result (λ text. IsKeyedExplanation (new_service keytab skew) second bytes.now (string_bytes text)) }
{
    let explained = explain_lines(alloc, bytes)?;
    let mut others = judged_lines(alloc, explained.request, keytab, second, skew)?;
    let mut lines = explained.lines;
    lines.append(&mut others)?;
    page(alloc, lines.as_slice())
}

fn judged_lines(
    alloc: Global,
    request: Option<&[u8]>,
    keytab: Keytab,
    second: Seconds,
    skew: Skew,
) -> Result<Vec<Text>, AllocError>
    ensures { IfOk result (λ lines. AreJudgedLines (new_service keytab skew) second (option_map (λ x. x.now) request.entry) lines.items) }
{
    match request {
        Some(request) => request_lines(alloc, request, keytab, second, skew),
        None => Ok(Vec::new(alloc)),
    }
}

// The lines of what a service judges.
fn request_lines(
    alloc: Global,
    request: &[u8],
    keytab: Keytab,
    second: Seconds,
    skew: Skew,
) -> Result<Vec<Text>, AllocError>
    ensures { IfOk result (λ lines. AreRequestLines (new_service keytab skew) second request.now lines.items) }
{
    let now = Moment::start_of(second);
    let clock = Clock { now, skew };
    let seen = seen_of(alloc, request, &keytab, clock);
    let first = verdict(alloc, request, keytab, clock);
    let seen = seen?;
    let date = date_line(alloc, "service's clock: ", second)?;
    let mut judged = verdict_lines(alloc, first?, &seen)?;
    let mut lines = seen.lines;
    lines.push(date)?;
    lines.append(&mut judged)?;
    Ok(lines)
}
