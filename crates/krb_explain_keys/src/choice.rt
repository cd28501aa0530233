//! The lines on a keytab.

ghost use Rattle.std.specs.Prelude.{◌≡◌, IfOk, OnOk, string_bytes};
ghost use Rattle.krb_keytab.specs.Pick.{IsChoice, choice_of};
ghost use Rattle.krb_msg.specs.Borrowed.{encrypted_of};
ghost use Rattle.krb_msg.specs.Fields.{encrypted_fields};
ghost use Rattle.krb_explain_keys.specs.Choice.{AreChoiceLines, ListsEntries, chosen_line, key_text, no_key_line, no_name_line, no_version_line, there_line, version_words};
ghost use Rattle.krb_explain_keys.specs.Inner.Added.{AddsEntries};

use krb_explain::{listed, type_text};
use krb_keytab::{Entry, Keytab, Picked};
use krb_msg::EncryptedRef;
use krb_name::Principal;
use krb_readable::Text;
use std::alloc::{AllocError, Global};

/// Picks the entry of a keytab for a ticket of this service.
pub(crate) fn pick_for<'a>(
    keytab: &'a Keytab,
    service: &Principal,
    sealed: &EncryptedRef,
) -> Picked<'a>
    ensures { IsChoice keytab.entry.now service.now (encrypted_fields (encrypted_of sealed.now)).etype
        (encrypted_fields (encrypted_of sealed.now)).kvno (choice_of result) }
{
    keytab.pick(service, sealed.etype, sealed.kvno)
}

/// Makes the lines of what a keytab has for a ticket of this service, encryption type and version number.
pub(crate) fn choice_lines(
    alloc: Global,
    keytab: &Keytab,
    service: &Principal,
    sealed: &EncryptedRef,
    picked: Picked<'_>,
) -> Result<Vec<Text>, AllocError>
    ensures { IfOk result (λ lines. AreChoiceLines keytab.now service.now (encrypted_fields (encrypted_of sealed.now)).etype
        (encrypted_fields (encrypted_of sealed.now)).kvno (choice_of picked.entry) lines.items) }
{
    match picked {
        Picked::Entry(entry) => listed(alloc, [chosen_line(alloc, entry)?]),
        Picked::NoName => listed(alloc, [no_name_line(alloc, service)?]),
        Picked::NoKey => entry_lines(alloc, keytab, service, no_key_line(alloc, sealed.etype)?),
        Picked::NoVersion => entry_lines(
            alloc,
            keytab,
            service,
            no_version_line(alloc, sealed.kvno)?,
        ),
    }
}

fn chosen_line(alloc: Global, entry: &Entry) -> Result<Text, AllocError>
    ensures { IfOk result (λ line. line ≡ chosen_line entry.now) }
{
    let key = key_text(alloc, entry)?;
    Ok(Text::new(format!(in alloc; "keytab's entry: {key}")?))
}

fn there_line(alloc: Global, entry: &Entry) -> Result<Text, AllocError>
    ensures { IfOk result (λ line. line ≡ there_line entry.now) }
{
    let key = key_text(alloc, entry)?;
    Ok(Text::new(format!(in alloc; "keytab has: {key}")?))
}

fn key_text(alloc: Global, entry: &Entry) -> Result<String, AllocError>
    ensures { IfOk result (λ text. string_bytes text ≡ key_text entry.now) }
{
    let number = entry.kvno();
    let etype = type_text(alloc, i32::from(entry.etype()))?;
    format!(in alloc; "version number {number}, type {etype}")
}

fn no_name_line(alloc: Global, service: &Principal) -> Result<Text, AllocError>
    ensures { IfOk result (λ line. line ≡ no_name_line service.now) }
{
    let name = service.to_text(alloc)?;
    Ok(Text::new(format!(in alloc;
        "keytab's entry: none, since the service doesn't have the name {name}"
    )?))
}

fn no_key_line(alloc: Global, etype: i32) -> Result<Text, AllocError>
    ensures { IfOk result (λ line. line ≡ no_key_line etype) }
{
    let etype = type_text(alloc, etype)?;
    Ok(Text::new(format!(in alloc;
        "keytab's entry: none, since none of this name has a usable key of type {etype}"
    )?))
}

fn no_version_line(alloc: Global, kvno: Option<u32>) -> Result<Text, AllocError>
    ensures { IfOk result (λ line. line ≡ no_version_line kvno) }
{
    let version = version_words(alloc, kvno)?;
    Ok(Text::new(format!(in alloc; "keytab's entry: none, since no such key has {version}")?))
}

fn version_words(alloc: Global, kvno: Option<u32>) -> Result<String, AllocError>
    ensures { IfOk result (λ text. string_bytes text ≡ version_words kvno) }
{
    match kvno {
        Some(number) => format!(in alloc; "version number {number}"),
        None => String::from_str(alloc, "any version number"),
    }
}

// A line, and then one for each entry of the service.
fn entry_lines(
    alloc: Global,
    keytab: &Keytab,
    service: &Principal,
    line: Text,
) -> Result<Vec<Text>, AllocError>
    ensures { IfOk result (λ lines. ListsEntries keytab.now service.now line lines.items) }
{
    let mut lines = listed(alloc, [line])?;
    add_entries(alloc, &mut lines, keytab.entries(), service)?;
    Ok(lines)
}

// Adds a line for each of the entries that is of the service.
fn add_entries(
    alloc: Global,
    lines: &mut Vec<Text>,
    entries: &[Entry],
    service: &Principal,
) -> Result<(), AllocError>
    ensures { OnOk result (AddsEntries service.now entries.now lines.old.items lines.new.items) }
{
    for entry in entries {
        if entry.principal().same_name(service) {
            lines.push(there_line(alloc, entry)?)?;
        }
    }
    Ok(())
}
