//! Dates and texts of messages in a line.

ghost use Rattle.std.specs.Prelude.{◌≡◌, ◌++◌, ◌<◌, IfOk, OnOk, string_bytes};
ghost use Rattle.krb_name.specs.Text.{hex_escape};
ghost use Rattle.krb_explain.specs.Date.{IsDateLine, clock_of, date_of, day_of, is_plain, part, shown, shown_byte};

use krb_msg::Seconds;
use krb_readable::Text;
use std::alloc::{AllocError, Global};
use std::fmt::Write;

/// Makes a line of what comes before a date, and the date.
pub fn date_line(alloc: Global, before: &str, seconds: Seconds) -> Result<Text, AllocError>
    ensures { IfOk result (λ line. IsDateLine before.now seconds line) }
{
    let digits = seconds.to_text();
    let date = date_text(alloc, &digits)?;
    Ok(Text::new(format!(in alloc; "{before}{date}")?))
}

// The date of these digits.
fn date_text(alloc: Global, digits: &[u8; 15]) -> Result<String, AllocError>
    ensures { IfOk result (λ text. string_bytes text ≡ date_of digits.now) }
{
    let mut text = String::new(alloc);
    write_day(&mut text, digits)?;
    write_clock(&mut text, digits)?;
    Ok(text)
}

fn write_day(text: &mut String, digits: &[u8; 15]) -> Result<(), AllocError>
    ensures { OnOk result (string_bytes text.new ≡ string_bytes text.old ++ day_of digits.now) }
{
    write_shown(text, &digits[0..4])?;
    write_part(text, '-', &digits[4..6])?;
    write_part(text, '-', &digits[6..8])
}

fn write_clock(text: &mut String, digits: &[u8; 15]) -> Result<(), AllocError>
    ensures { OnOk result (string_bytes text.new ≡ string_bytes text.old ++ clock_of digits.now) }
{
    write_part(text, 'T', &digits[8..10])?;
    write_part(text, ':', &digits[10..12])?;
    write_part(text, ':', &digits[12..15])
}

// Writes a character, and digits.
fn write_part(text: &mut String, before: char, digits: &[u8]) -> Result<(), AllocError>
    requires { before < 128 }
    ensures { OnOk result (string_bytes text.new ≡ string_bytes text.old ++ part before digits.now) }
{
    text.push(before)?;
    write_shown(text, digits)
}

/// Writes bytes of a message: those that aren't printable, and the backslash, as `\x` and two hexadecimal digits.
pub fn write_shown(text: &mut String, bytes: &[u8]) -> Result<(), AllocError>
    ensures { OnOk result (string_bytes text.new ≡ string_bytes text.old ++ shown bytes.now) }
{
    for byte in bytes {
        write_byte(text, *byte)?;
    }
    Ok(())
}

fn write_byte(text: &mut String, byte: u8) -> Result<(), AllocError>
    ensures { OnOk result (string_bytes text.new ≡ string_bytes text.old ++ shown_byte byte) }
{
    if is_plain(byte) {
        text.push(char::from(byte))
    } else {
        write_hex(text, byte)
    }
}

fn is_plain(byte: u8) -> bool
    ensures { result ≡ is_plain byte }
{
    0x20 <= byte && byte <= 0x7e && byte != b'\\'
}

#[tactic(auto, using(std::proofs::lemmas::Fmt::hex_byte))]
fn write_hex(text: &mut String, byte: u8) -> Result<(), AllocError>
    ensures { OnOk result (string_bytes text.new ≡ string_bytes text.old ++ hex_escape byte) }
{
    write!(text, "\\x{byte:02x}")
}
