//! A date and time as text.

ghost use Rattle.std.specs.Prelude.{◌≡◌, ◌++◌, ◌<◌, ◌^◌, IfOk, OnOk, string_bytes};
ghost use Rattle.krb_readable.specs.Date.{two, part, day_text, clock_text, date_text};

use crate::date::date_of;
use std::alloc::{AllocError, Global};

/// Returns a time, in seconds since 1970-01-01T00:00:00Z, as a date in UTC: `2026-11-24T01:31:49Z`.
#[tactic(auto, unfolding(crate::specs::Date::date_text))]
pub(crate) fn date_text(alloc: Global, seconds: u32) -> Result<String, AllocError>
    ensures { IfOk result (λ text. string_bytes text ≡ date_text seconds) }
{
    let mut text = String::with_capacity(alloc, 20)?;
    write_day(&mut text, seconds / 86_400)?;
    text.push('T')?;
    write_clock(&mut text, seconds % 86_400)?;
    text.push('Z')?;
    Ok(text)
}

fn write_day(text: &mut String, day: u32) -> Result<(), AllocError>
    requires { day < 2 ^ 16 }
    ensures { OnOk result (string_bytes text.new ≡ string_bytes text.old ++ day_text day) }
{
    let date = date_of(day);
    write_two(text, (date.year / 100) as u8)?;
    write_two(text, (date.year % 100) as u8)?;
    write_part(text, '-', date.month)?;
    write_part(text, '-', date.day)
}

fn write_clock(text: &mut String, second: u32) -> Result<(), AllocError>
    requires { second < 86_400 }
    ensures { OnOk result (string_bytes text.new ≡ string_bytes text.old ++ clock_text second) }
{
    write_two(text, (second / 3_600) as u8)?;
    write_part(text, ':', (second / 60 % 60) as u8)?;
    write_part(text, ':', (second % 60) as u8)
}

// Writes a character and two digits.
fn write_part(text: &mut String, before: char, number: u8) -> Result<(), AllocError>
    requires ascii { before < 128 }
    requires small { number < 100 }
    ensures { OnOk result (string_bytes text.new ≡ string_bytes text.old ++ part before number) }
{
    text.push(before)?;
    write_two(text, number)
}

// Writes two digits.
fn write_two(text: &mut String, number: u8) -> Result<(), AllocError>
    requires { number < 100 }
    ensures { OnOk result (string_bytes text.new ≡ string_bytes text.old ++ two number) }
{
    text.push(char::from(b'0' + number / 10))?;
    text.push(char::from(b'0' + number % 10))
}
