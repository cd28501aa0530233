//! The bytes of a keytab's file, with an entry more or less.

ghost use Rattle.krb_keytab.specs.Edit.{MakesHole};
ghost use Rattle.krb_c.specs.Answer.{Delivers};
ghost use Rattle.krb_c.specs.KeytabFile.{Adds, IsAddFault, IsEntryFault, IsEntryOf, IsRemoveFault, IsWriteFault, WritesAnew};
ghost use Rattle.std.specs.Prelude.{IfErr, IfOk};

use crate::answer::hand_over;
use crate::code;
use crate::keytab::keytab_of;
use crate::name::typed_name_of;
use crate::structs::{Answer, KeyParts};
use krb_keytab::{Entry, Keytab};
use std::alloc::Global;

/// Removes one entry, counted from 0, from the bytes of a keytab's file, and returns the bytes of
/// the new file (`krb_keytab::Keytab::remove_in`).
#[unsafe(no_mangle)]
pub extern "C" fn fevstunik_keytab_remove(
    alloc: Global,
    keytab: &[u8],
    index: usize,
    buffer: &mut [u8],
) -> Answer
    ensures { Delivers (λ file. MakesHole keytab.now index file) (λ answer. IsRemoveFault keytab.now index answer) buffer.old buffer.new result }
{
    match removed(alloc, keytab, index) {
        Ok(file) => hand_over(file.as_slice(), buffer),
        Err(answer) => answer,
    }
}

fn removed(alloc: Global, keytab: &[u8], index: usize) -> Result<Vec<u8>, Answer>
    ensures removed { IfOk result (λ file. MakesHole keytab.now index file.items) }
    ensures fault { IfErr result (λ answer. IsRemoveFault keytab.now index answer) }
{
    let mut file = match Vec::from_slice(alloc, keytab) {
        Ok(file) => file,
        Err(_) => return Err(Answer::plain(code::OUT_OF_MEMORY)),
    };
    match Keytab::remove_in(&mut file, index) {
        Ok(()) => Ok(file),
        Err(fault) => Err(Answer::keytab(fault)),
    }
}

/// Adds an entry to the bytes of a keytab's file, and returns the bytes of the new file
/// (`krb_keytab::Keytab::add_in`).
#[unsafe(no_mangle)]
pub extern "C" fn fevstunik_keytab_add(
    alloc: Global,
    keytab: &[u8],
    name: &[u8],
    key: &[u8],
    parts: &KeyParts,
    buffer: &mut [u8],
) -> Answer
    ensures { Delivers (λ file. Adds keytab.now name.now key.now parts.now file)
        (λ answer. IsAddFault keytab.now name.now key.now parts.now answer) buffer.old buffer.new result }
{
    match added(alloc, keytab, name, key, parts) {
        Ok(file) => hand_over(file.as_slice(), buffer),
        Err(answer) => answer,
    }
}

fn added(
    alloc: Global,
    keytab: &[u8],
    name: &[u8],
    key: &[u8],
    parts: &KeyParts,
) -> Result<Vec<u8>, Answer>
    ensures added { IfOk result (λ file. Adds keytab.now name.now key.now parts.now file.items) }
    ensures fault { IfErr result (λ answer. IsAddFault keytab.now name.now key.now parts.now answer) }
{
    let entry = entry_made(alloc, name, key, parts)?;
    let mut file = match Vec::from_slice(alloc, keytab) {
        Ok(file) => file,
        Err(_) => return Err(Answer::plain(code::OUT_OF_MEMORY)),
    };
    match Keytab::add_in(&mut file, &entry) {
        Ok(()) => Ok(file),
        Err(fault) => Err(Answer::keytab(fault)),
    }
}

fn entry_made(alloc: Global, name: &[u8], key: &[u8], parts: &KeyParts) -> Result<Entry, Answer>
    ensures made { IfOk result (λ entry. IsEntryOf name.now key.now parts.now entry) }
    ensures fault { IfErr result (λ answer. IsEntryFault name.now key.now answer) }
{
    let name = typed_name_of(alloc, name, parts.name_type)?;
    let key = match Vec::from_slice(alloc, key) {
        Ok(key) => key,
        Err(_) => return Err(Answer::plain(code::OUT_OF_MEMORY)),
    };
    match Entry::new(name, parts.timestamp, parts.kvno, parts.key_type, key) {
        Some(entry) => Ok(entry),
        None => Err(Answer::plain(code::TOO_LONG)),
    }
}

/// Returns the bytes of a new file with a keytab's entries, without the holes of the old one
/// (`krb_keytab::Keytab::to_bytes`).
#[unsafe(no_mangle)]
pub extern "C" fn fevstunik_keytab_write(alloc: Global, keytab: &[u8], buffer: &mut [u8]) -> Answer
    ensures { Delivers (λ file. WritesAnew keytab.now file) (λ answer. IsWriteFault keytab.now answer) buffer.old buffer.new result }
{
    match rewritten(alloc, keytab) {
        Ok(file) => hand_over(file.as_slice(), buffer),
        Err(answer) => answer,
    }
}

fn rewritten(alloc: Global, keytab: &[u8]) -> Result<Vec<u8>, Answer>
    ensures written { IfOk result (λ file. WritesAnew keytab.now file.items) }
    ensures fault { IfErr result (λ answer. IsWriteFault keytab.now answer) }
{
    let keytab = keytab_of(alloc, keytab)?;
    match keytab.to_bytes(alloc) {
        Ok(file) => Ok(file),
        Err(fault) => Err(Answer::keytab(fault)),
    }
}
