//! Writing the text of a name.

ghost use Rattle.std.specs.Prelude.{◌≡◌, ◌<◌, ◌≤◌, ◌++◌, All, IsTrue, OnErr, OnOk, length, string_bytes, map, take};
ghost use Rattle.std.specs.List.{join_with_byte};
ghost use Rattle.krb_name.specs.Text.{escaped_byte, escaped, hex_digit, hex_escape};
ghost use Rattle.krb_name.specs.Inner.Components.{behind_slashes, Continues, IsPlain};

use crate::components::{Components, ComponentsIter};
use std::alloc::AllocError;

/// Writes the components with a `/` between each two.
#[tactic(auto, using(crate::proofs::Continued::unchanged, crate::proofs::Continued::goes_on))]
pub(crate) fn write_components(text: &mut String, components: &Components) -> Result<(), AllocError>
    ensures ok { OnOk result (string_bytes text.new
        ≡ string_bytes text.old ++ join_with_byte 0x2f (map escaped components.now)) }
    ensures err { OnErr result (Continues (string_bytes text.old) (string_bytes text.new)) }
{
    let mut others = components.iter();
    let Some(first) = others.next() else {
        return Ok(());
    };
    write_escaped(text, first)?;
    write_others(text, others)
}

#[tactic(auto, using(crate::proofs::Continued::unchanged, crate::proofs::Continued::further, crate::proofs::Continued::written))]
fn write_others(text: &mut String, others: ComponentsIter) -> Result<(), AllocError>
    ensures ok { OnOk result (string_bytes text.new
        ≡ string_bytes text.old ++ behind_slashes others.entry) }
    ensures err { OnErr result (Continues (string_bytes text.old) (string_bytes text.new)) }
{
    for component in others {
        text.push('/')?;
        write_escaped(text, component)?;
    }
    Ok(())
}

/// Writes the bytes of a realm or a component.
#[tactic(auto, using(crate::proofs::Continued::unchanged, crate::proofs::Continued::goes_on))]
pub(crate) fn write_escaped(text: &mut String, bytes: &[u8]) -> Result<(), AllocError>
    ensures ok { OnOk result (string_bytes text.new ≡ string_bytes text.old ++ escaped bytes.now) }
    ensures err { OnErr result (Continues (string_bytes text.old) (string_bytes text.new)) }
{
    let (plain, rest) = bytes.split_at(plain_len(bytes));
    write_plain(text, plain)?;
    write_bytes(text, rest)
}

// How many bytes there are before the first that may need an escape.
fn plain_len(bytes: &[u8]) -> usize
    ensures within { result ≤ length bytes.now }
    ensures plain { All IsPlain (take result bytes.now) }
{
    let mut len = 0;
    while len < bytes.len() && is_plain(bytes[len]) {
        len += 1;
    }
    len
}

// Whether the byte is written as it is.
fn is_plain(byte: u8) -> bool
    ensures { IsTrue result → IsPlain byte }
{
    match byte {
        b'/' | b'@' | b'\\' => false,
        0x21..=0x7e => true,
        _ => false,
    }
}

#[tactic(auto, using(crate::proofs::Continued::unchanged, crate::proofs::Continued::goes_on))]
fn write_plain(text: &mut String, bytes: &[u8]) -> Result<(), AllocError>
    requires { All IsPlain bytes.now }
    ensures ok { OnOk result (string_bytes text.new ≡ string_bytes text.old ++ bytes.now) }
    ensures err { OnErr result (Continues (string_bytes text.old) (string_bytes text.new)) }
{
    match str::from_utf8(bytes) {
        Ok(plain) => text.push_str(plain),
        Err(_) => unreachable!(),
    }
}

#[tactic(auto, using(crate::proofs::Continued::unchanged, crate::proofs::Continued::goes_on))]
fn write_bytes(text: &mut String, bytes: &[u8]) -> Result<(), AllocError>
    ensures ok { OnOk result (string_bytes text.new ≡ string_bytes text.old ++ escaped bytes.now) }
    ensures err { OnErr result (Continues (string_bytes text.old) (string_bytes text.new)) }
{
    for byte in bytes {
        write_byte(text, *byte)?;
    }
    Ok(())
}

#[tactic(auto, using(crate::proofs::Continued::unchanged, crate::proofs::Continued::goes_on))]
fn write_byte(text: &mut String, byte: u8) -> Result<(), AllocError>
    ensures ok { OnOk result (string_bytes text.new ≡ string_bytes text.old ++ escaped_byte byte) }
    ensures err { OnErr result (Continues (string_bytes text.old) (string_bytes text.new)) }
{
    match byte {
        b'/' | b'@' | b'\\' => {
            text.push('\\')?;
            text.push(char::from(byte))
        }
        0x21..=0x7e => text.push(char::from(byte)),
        _ => write_hex(text, byte),
    }
}

#[tactic(auto, using(crate::proofs::Continued::unchanged, crate::proofs::Continued::goes_on))]
fn write_hex(text: &mut String, byte: u8) -> Result<(), AllocError>
    ensures ok { OnOk result (string_bytes text.new ≡ string_bytes text.old ++ hex_escape byte) }
    ensures err { OnErr result (Continues (string_bytes text.old) (string_bytes text.new)) }
{
    text.push('\\')?;
    text.push('x')?;
    text.push(hex_digit(byte / 16))?;
    text.push(hex_digit(byte % 16))
}

fn hex_digit(digit: u8) -> char
    requires { digit < 16 }
    ensures value { result ≡ hex_digit digit }
    ensures ascii { result < 128 }
{
    if digit < 10 {
        char::from(b'0' + digit)
    } else {
        char::from(b'a' - 10 + digit)
    }
}
