//! The lines of causes for refusing a request.

ghost use Rattle.std.specs.Prelude.{◌≡◌, ◌++◌, Some, IfOk, OnOk, string_bytes, map};
ghost use Rattle.std.specs.Option.{option_map};
ghost use Rattle.krb_explain_keys.specs.CauseLines.{cause_lines, code_text, follows, following, look_lines, looked_at, next_lines, verdict_lines};
ghost use Rattle.krb_explain_keys.specs.Inner.Seen.{looked_of, sight_of};

use crate::look_at::look_at;
use crate::sight::Seen;
use krb_ap::Refusal;
use krb_explain::{error_name, listed, with_name};
use krb_readable::Text;
use std::alloc::{AllocError, Global};

/// A cause, and whether it holds of what is seen.
#[derive(Clone, Copy)]
pub(crate) struct Looked(pub(crate) Refusal, pub(crate) bool);

/// Makes the lines of the first cause for refusing a request, if there is one, and of those that would follow.
pub(crate) fn verdict_lines(
    alloc: Global,
    first: Option<Refusal>,
    seen: &Seen,
) -> Result<Vec<Text>, AllocError>
    ensures { IfOk result (λ lines. lines.items ≡ verdict_lines first (sight_of seen.now)) }
{
    match first {
        Some(cause) => refused_lines(alloc, cause, seen),
        None => listed(
            alloc,
            [Text::of(
                alloc,
                "accepted, unless it was seen before, the service has just started, or its terms refuse the client",
            )?],
        ),
    }
}

fn refused_lines(alloc: Global, first: Refusal, seen: &Seen) -> Result<Vec<Text>, AllocError>
    ensures { IfOk result (λ lines. lines.items ≡ verdict_lines (Some first) (sight_of seen.now)) }
{
    let causes = looked_at(seen);
    let mut lines = Vec::new(alloc);
    add_cause(alloc, &mut lines, "refused", first)?;
    add_following(alloc, &mut lines, first.place(), &causes)?;
    Ok(lines)
}

// The causes that are looked at, in the order of the table, and whether each holds of what is seen.
fn looked_at(seen: &Seen) -> [Looked; 13]
    ensures { map looked_of result ≡ looked_at (sight_of seen.now) }
{
    [
        Looked(Refusal::TicketEtype, seen.of_request.other_type),
        Looked(Refusal::NotUs, seen.of_request.no_name),
        Looked(Refusal::NoKey, seen.of_request.no_key),
        Looked(Refusal::BadKeyVersion, seen.of_request.no_version),
        Looked(Refusal::TicketIntegrity, seen.of_ticket.shut),
        Looked(Refusal::SessionKey, seen.of_authenticator.unusable),
        Looked(Refusal::AuthenticatorIntegrity, seen.of_authenticator.shut),
        Looked(Refusal::BadMatch, seen.of_authenticator.mismatched),
        Looked(Refusal::Skew, seen.of_authenticator.skewed),
        Looked(Refusal::NotYetValid, seen.of_ticket.early),
        Looked(Refusal::Expired, seen.of_ticket.late),
        Looked(Refusal::Transited, seen.of_ticket.untrusted),
        Looked(Refusal::Authorization, seen.of_authenticator.unignorable),
    ]
}

// Adds the lines of those causes that hold and come after a place.
fn add_following(
    alloc: Global,
    lines: &mut Vec<Text>,
    first: u32,
    causes: &[Looked],
) -> Result<(), AllocError>
    ensures { OnOk result (lines.new.items ≡ lines.old.items ++ following first (map looked_of causes.now)) }
{
    for cause in causes {
        add_next(alloc, lines, first, *cause)?;
    }
    Ok(())
}

// Adds the lines of a cause, if it follows.
fn add_next(
    alloc: Global,
    lines: &mut Vec<Text>,
    first: u32,
    cause: Looked,
) -> Result<(), AllocError>
    ensures { OnOk result (lines.new.items ≡ lines.old.items ++ next_lines first (looked_of cause)) }
{
    if follows(first, cause) {
        return add_cause(alloc, lines, "refused next", cause.0);
    }
    Ok(())
}

fn follows(first: u32, cause: Looked) -> bool
    ensures { result ≡ follows first (looked_of cause) }
{
    cause.1 && first < cause.0.place()
}

// Adds the lines of a cause.
fn add_cause(
    alloc: Global,
    lines: &mut Vec<Text>,
    label: &str,
    cause: Refusal,
) -> Result<(), AllocError>
    ensures { OnOk result (lines.new.items ≡ lines.old.items ++ cause_lines label.now cause) }
{
    let name = cause.name();
    let code = code_text(alloc, cause.code())?;
    let line = Text::new(format!(in alloc; "{label}: {name}{code}")?);
    lines.push(line)?;
    lines.append(&mut look_lines(alloc, look_at(cause.place()))?)
}

fn code_text(alloc: Global, code: Option<i32>) -> Result<String, AllocError>
    ensures { IfOk result (λ text. string_bytes text ≡ code_text code) }
{
    match code {
        Some(code) => {
            let named = with_name(alloc, code, error_name(code))?;
            format!(in alloc; ", code {named}")
        }
        None => Ok(String::new(alloc)),
    }
}

fn look_lines(alloc: Global, look: Option<&str>) -> Result<Vec<Text>, AllocError>
    ensures { IfOk result (λ lines. lines.items ≡ look_lines (option_map (λ x. x.now) look.entry)) }
{
    match look {
        Some(look) => listed(alloc, [Text::new(format!(in alloc; "look at: {look}")?)]),
        None => Ok(Vec::new(alloc)),
    }
}
