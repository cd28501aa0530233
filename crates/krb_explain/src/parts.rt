//! The lines of the parts of messages.

ghost use Rattle.std.specs.Prelude.{◌≡◌, ◌++◌, IfOk, OnOk, string_bytes};
ghost use Rattle.std.specs.Option.{option_map};
ghost use Rattle.krb_msg.specs.Borrowed.{encrypted_of, name_of};
ghost use Rattle.krb_msg.specs.Fields.{principal_in};
ghost use Rattle.krb_explain.specs.Parts.{head_line, is_usable_type, name_line, sealed_line, sealed_text, type_notes, type_text, version_text};
ghost use Rattle.krb_explain.specs.Named.{with_name};

use krb_msg::{EncryptedRef, NameRef};
use krb_readable::{Text, enctype_name};
use std::alloc::{AllocError, Global};

/// Makes the line that says what a message is, and how many bytes it has.
pub(crate) fn head_line(alloc: Global, name: &str, size: usize) -> Result<Text, AllocError>
    ensures { IfOk result (λ line. line ≡ head_line name.now size) }
{
    Ok(Text::new(format!(in alloc; "message: {name}, {size} bytes")?))
}

/// Makes the line of a principal: a label, and the name in a realm.
pub fn name_line(
    alloc: Global,
    label: &str,
    realm: &[u8],
    name: &NameRef,
) -> Result<Text, AllocError>
    ensures { IfOk result (λ line. line ≡ name_line label.now (principal_in realm.now (name_of name.now))) }
{
    let principal = name.to_principal(alloc, realm)?;
    let text = principal.to_text(alloc)?;
    Ok(Text::new(format!(in alloc; "{label}: {text}")?))
}

/// Makes the line of a sealed part: a label, the encryption type, the version number of the key and the size.
pub(crate) fn sealed_line(
    alloc: Global,
    label: &str,
    sealed: &EncryptedRef,
) -> Result<Text, AllocError>
    ensures { IfOk result (λ line. line ≡ sealed_line label.now (encrypted_of sealed.now)) }
{
    let etype = type_text(alloc, sealed.etype)?;
    let version = version_text(alloc, sealed.kvno)?;
    sealed_text(alloc, label, &etype, &version, sealed.cipher.len())
}

fn sealed_text(
    alloc: Global,
    label: &str,
    etype: &str,
    version: &str,
    size: usize,
) -> Result<Text, AllocError>
    ensures { IfOk result (λ line. line ≡ sealed_text label.now etype.now version.now size) }
{
    Ok(Text::new(format!(in alloc;
        "{label}: sealed under a key of type {etype}{version}{size} bytes"
    )?))
}

/// Returns the number of an encryption type, and its name in parentheses if it has one.
pub fn type_text(alloc: Global, etype: i32) -> Result<String, AllocError>
    ensures { IfOk result (λ text. string_bytes text ≡ type_text etype) }
{
    with_name(alloc, etype, enctype_name(etype))
}

/// Returns a number, and its name in parentheses if it has one.
pub fn with_name(alloc: Global, number: i32, name: Option<&str>) -> Result<String, AllocError>
    ensures { IfOk result (λ text. string_bytes text ≡ with_name number (option_map (λ x. x.now) name.entry)) }
{
    match name {
        Some(name) => format!(in alloc; "{number} ({name})"),
        None => format!(in alloc; "{number}"),
    }
}

fn version_text(alloc: Global, kvno: Option<u32>) -> Result<String, AllocError>
    ensures { IfOk result (λ text. string_bytes text ≡ version_text kvno) }
{
    match kvno {
        Some(number) => format!(in alloc; ", version number {number}, "),
        None => String::from_str(alloc, ", no version number, "),
    }
}

/// Adds a note if a ticket is sealed under a key of a type that isn't usable.
pub(crate) fn add_type_notes(
    alloc: Global,
    lines: &mut Vec<Text>,
    etype: i32,
) -> Result<(), AllocError>
    ensures { OnOk result (lines.new.items ≡ lines.old.items ++ type_notes etype) }
{
    if is_usable_type(etype) {
        return Ok(());
    }
    let note = Text::of(
        alloc,
        "note: the service needs keys of types 19 and 20 alone",
    )?;
    lines.push(note)?;
    Ok(())
}

// RFC 8009's types.
fn is_usable_type(etype: i32) -> bool
    ensures { result ≡ is_usable_type etype }
{
    etype == 19 || etype == 20
}
