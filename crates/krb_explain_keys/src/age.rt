//! How long before a service's time an authenticator was made, or how long after it.

ghost use Rattle.std.specs.Prelude.{◌≡◌, ◌-ℤ◌, IfOk, string_bytes};
ghost use Rattle.krb_explain_keys.specs.Age.{age_text, minutes_text, order_text, seconds_text, span_text};

use krb_msg::Moment;
use std::alloc::{AllocError, Global};

const MICROS_IN_SECOND: u64 = 1_000_000;

const MICROS_IN_MINUTE: u64 = 60_000_000;

/// Returns by how much a time is before the service's, or after it.
pub(crate) fn age_text(alloc: Global, sent: Moment, now: Moment) -> Result<String, AllocError>
    ensures { IfOk result (λ text. string_bytes text ≡ age_text (sent -ℤ now)) }
{
    difference_text(alloc, sent.micros() - now.micros())
}

fn difference_text(alloc: Global, difference: i64) -> Result<String, AllocError>
    ensures { IfOk result (λ text. string_bytes text ≡ age_text difference) }
{
    if difference == 0 {
        return String::from_str(alloc, "the same as the service's clock");
    }
    let span = span_text(alloc, difference.unsigned_abs())?;
    let order = order_text(difference);
    format!(in alloc; "{span} {order} the service's clock")
}

fn order_text(difference: i64) -> &'static str
    ensures { result.now ≡ order_text difference }
{
    if difference < 0 { "before" } else { "after" }
}

fn span_text(alloc: Global, micros: u64) -> Result<String, AllocError>
    ensures { IfOk result (λ text. string_bytes text ≡ span_text micros) }
{
    let minutes = minutes_text(alloc, micros / MICROS_IN_MINUTE)?;
    let seconds = seconds_text(alloc, micros % MICROS_IN_MINUTE)?;
    format!(in alloc; "{minutes}{seconds}")
}

fn minutes_text(alloc: Global, minutes: u64) -> Result<String, AllocError>
    ensures { IfOk result (λ text. string_bytes text ≡ minutes_text minutes) }
{
    if minutes == 0 {
        Ok(String::new(alloc))
    } else if minutes < 60 {
        format!(in alloc; "{minutes} min ")
    } else {
        let hours = minutes / 60;
        let rest = minutes % 60;
        format!(in alloc; "{hours} h {rest} min ")
    }
}

fn seconds_text(alloc: Global, micros: u64) -> Result<String, AllocError>
    ensures { IfOk result (λ text. string_bytes text ≡ seconds_text micros) }
{
    let seconds = micros / MICROS_IN_SECOND;
    let rest = micros % MICROS_IN_SECOND;
    format!(in alloc; "{seconds}.{rest:06} s")
}
