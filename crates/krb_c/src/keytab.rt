//! A keytab.

ghost use Rattle.std.specs.Prelude.{IfErr, IfOk, List, None, length, ◌≡◌, ◌⊎◌};
ghost use Rattle.krb_keytab.specs.Entry.{KeytabEntry};
ghost use Rattle.krb_keytab.specs.Format.{IsFaultOf, IsKeytab};
ghost use Rattle.krb_keytab.specs.declared.fault.KeytabFault.{KeytabFault};
ghost use Rattle.krb_c.specs.Answer.{keytab_answer, plain, sized};
ghost use Rattle.krb_c.specs.Codes.{ok, out_of_memory};
ghost use Rattle.krb_c.specs.KeytabFile.{HasKeytabFault, KeepsKeytab};
ghost use Rattle.krb_c.specs.Entries.{ListsEntry, TellsEntryIf, entry_bytes, entry_of};
ghost use Rattle.std.specs.List.{slice_get};

use crate::answer::{append, hand_over_with};
use crate::code;
use crate::handle::{empty, put, with_held};
use crate::handles::KeytabHandle;
use crate::structs::{Answer, KeyEntry};
use krb_keytab::laws::each_file_has_one_answer;
use krb_keytab::{Entry, Keytab, KeytabFault};
use std::alloc::{AllocError, Global};

/// Checks whether the bytes of a file are a keytab, and returns how many entries it has.
#[unsafe(no_mangle)]
pub extern "C" fn fevstunik_keytab_check(alloc: Global, keytab: &[u8]) -> Answer
    ensures entries { (entries : List KeytabEntry) → IsKeytab keytab.now entries
        → (result ≡ sized ok (length entries)) ⊎ (result ≡ plain out_of_memory) }
    ensures fault { (fault : KeytabFault) → IsFaultOf keytab.now fault → result ≡ keytab_answer fault }
{
    match Keytab::parse(alloc, keytab) {
        Ok(keytab) => Answer::sized(code::OK, keytab.entries().len()),
        Err(fault) => Answer::keytab(fault),
    }
}

/// Reads a keytab from the bytes of its file, keeps it in the handle, and returns how many entries
/// it has. What the handle held is freed. If no keytab is read, the handle is unchanged.
#[unsafe(no_mangle)]
pub extern "C" fn fevstunik_keytab_new(
    keytab: &mut KeytabHandle,
    alloc: Global,
    file: &[u8],
) -> Answer
    ensures { KeepsKeytab file.now keytab.old.value keytab.new.value result }
{
    match kept_of(alloc, file) {
        Ok(kept) => {
            let count = kept.entries().len();
            put(keytab, kept);
            Answer::sized(code::OK, count)
        }
        Err(answer) => answer,
    }
}

fn kept_of(alloc: Global, file: &[u8]) -> Result<Box<Keytab>, Answer>
    ensures keytab { IfOk result (λ kept. IsKeytab file.now kept.value) }
    ensures fault { IfErr result (λ answer. HasKeytabFault file.now answer) }
{
    let keytab = keytab_of(alloc, file)?;
    match Box::new(alloc, keytab) {
        Ok(kept) => Ok(kept),
        Err(_) => Err(Answer::keytab(KeytabFault::OutOfMemory)),
    }
}

/// Reads a keytab from the bytes of its file.
pub(crate) fn keytab_of(alloc: Global, bytes: &[u8]) -> Result<Keytab, Answer>
    ensures keytab { IfOk result (λ keytab. IsKeytab bytes.now keytab) }
    ensures fault { IfErr result (λ answer. HasKeytabFault bytes.now answer) }
{
    each_file_has_one_answer();
    match Keytab::parse(alloc, bytes) {
        Ok(keytab) => Ok(keytab),
        Err(fault) => Err(Answer::keytab(fault)),
    }
}

/// Reads one entry of a keytab that is kept; `index` counts from 0. Writes the text of its name and
/// its key to the buffer, and their places and the numbers to `entry`.
#[unsafe(no_mangle)]
pub extern "C" fn fevstunik_keytab_entry(
    keytab: &mut KeytabHandle,
    index: usize,
    entry: &mut KeyEntry,
    alloc: Global,
    buffer: &mut [u8],
) -> Answer
    ensures entry { ListsEntry keytab.old.value index entry.old entry.new buffer.old buffer.new result }
    ensures stays { keytab.new.value ≡ keytab.old.value }
{
    with_held!(keytab, alloc, held => tell_entry_at(alloc, &held, index, entry, buffer))
}

fn tell_entry_at(
    alloc: Global,
    keytab: &Keytab,
    index: usize,
    entry: &mut KeyEntry,
    buffer: &mut [u8],
) -> Answer
    ensures { TellsEntryIf (slice_get keytab.now index) entry.old entry.new buffer.old buffer.new result }
{
    match keytab.entries().get(index) {
        Some(found) => hand_over_with(entry_told(alloc, found), entry, buffer),
        None => Answer::plain(code::NO_SUCH_ENTRY),
    }
}

fn entry_told(alloc: Global, found: &Entry) -> Result<(Vec<u8>, KeyEntry), AllocError>
    ensures { IfOk result (λ made. (made.0.items ≡ entry_bytes found.now) × (made.1 ≡ entry_of found.now)) }
{
    let mut bytes = Vec::new(alloc);
    let text = found.principal().to_text(alloc)?;
    let name = append(&mut bytes, text.as_bytes())?;
    let key = append(&mut bytes, found.key())?;
    let told = KeyEntry {
        name,
        key,
        timestamp: found.timestamp(),
        kvno: found.kvno(),
        name_type: found.principal().name_type,
        key_type: found.etype(),
    };
    Ok((bytes, told))
}

/// Frees what the handle holds. The handle is empty then.
#[unsafe(no_mangle)]
pub extern "C" fn fevstunik_keytab_free(keytab: &mut KeytabHandle, alloc: Global)
    ensures { keytab.new.value ≡ None }
{
    *keytab = empty(alloc);
}
