//! What `add-keys` makes: a keytab with the keys of another that it lacks.

ghost use Rattle.std.specs.Prelude.{◌≡◌, ◌≢◌, ◌⊎◌, ◌++◌, ◌≤◌, ◌↔◌, ℕ, List, Some, IsTrue, IfOk, IfErr, IfSome, OnOk, length, take};
ghost use Rattle.krb_file.specs.Flow.{counted};
ghost use Rattle.krb_keytab.specs.Edit.{WouldPass};
ghost use Rattle.krb_keytab.specs.Entry.{KeytabEntry};
ghost use Rattle.krb_keytab.specs.Format.{IsFaultOf, IsKeytab};
ghost use Rattle.krb_keytab.specs.SameKey.{HasKeyOf};
ghost use Rattle.krb_keytab.specs.declared.fault.KeytabFault.{KeytabFault};
ghost use Rattle.krb_file.specs.File.{TakesFile};
ghost use Rattle.krb_file_commands.specs.Adding.{Extends, IsExtended, IsOfHeld, IsUnextended, PassesLimit};
ghost use Rattle.krb_file_commands.specs.Engine.{failed_by};
ghost use Rattle.krb_file_commands.specs.Inner.Adding.{TakesEntry};
ghost use Rattle.krb_file_commands.specs.Inner.Reading.{ReadsKeytab};
ghost use Rattle.krb_file_commands.specs.Status as status;

use crate::fault::AddFault;
use crate::whole::read_bytes;
use krb_file::Source;
use krb_keytab::laws::each_file_has_one_answer;
use krb_keytab::{Entry, EntryAdder, KeyIndex, Keytab, KeytabFault};
use std::alloc::Global;

/// Reads a keytab and another, and returns the bytes of the first with the keys of the other that it lacks.
///
/// An entry of `others` is added unless the keytab, or an earlier entry of `others`, has its name,
/// encryption type, version number and key. Each goes into the first hole that is long enough, else
/// to the end, as by `Keytab::add_in`. All other bytes stay the same. Looks for keys by an index of
/// each keytab, and finds the holes once.
///
/// # Errors
/// The first that applies:
/// - `Keytab`: what was read of `source` isn't a keytab, or couldn't be read, or memory ran out.
/// - `Added`: the same of `others`.
/// - `Keytab`: `TooLong` if the keytab would have more than 16,777,216 bytes; `OutOfMemory` if
///   there is no memory for them.
pub fn add_keys<S: Source, F: Source>(
    alloc: Global,
    source: &mut S,
    others: &mut F,
) -> Result<Vec<u8>, AddFault>
    ensures added { IfOk result (λ new. Extends (S.remaining source.old) (F.remaining others.old) new.items) }

    // A fault of the content is there; and if there is one, nothing is made. That of `source` goes first.
    ensures fault { IfErr result (λ e. status.of_adding e ≢ 3 → IsUnextended (S.remaining source.old) (F.remaining others.old) e) }
    ensures held { (given : List ℕ) (fault : KeytabFault) → S.remaining source.old ≡ Some given → IsFaultOf given fault
        → OnOk result ⊥ × IfErr result IsOfHeld }
    ensures others { (given : List ℕ) (fault : KeytabFault) → F.remaining others.old ≡ Some given → IsFaultOf given fault → OnOk result ⊥ }
    ensures reads { S.failure_count source.new ≡ counted (S.failure_count source.old) (failed_by status.held_reads result) }
    ensures reads_others { F.failure_count others.new ≡ counted (F.failure_count others.old) (failed_by status.added_reads result) }
    ensures taken { TakesFile (S.remaining source.old) (S.remaining source.new) }
    ensures taken_others { TakesFile (F.remaining others.old) (F.remaining others.new) }
{
    let (file, held) = read_held(alloc, source)?;
    match Keytab::read(alloc, others) {
        Ok(others) => Ok(add_each(alloc, file, &held, &others)?),
        Err(fault) => Err(AddFault::Added(fault)),
    }
}

// Reads a keytab, and returns its bytes and its entries.
fn read_held<S: Source>(alloc: Global, source: &mut S) -> Result<(Vec<u8>, Keytab), KeytabFault>
    ensures found { IfOk result (λ read. IsKeytab read.0.items read.1) }
    ensures whole { IfOk result (λ read. IfSome (S.remaining source.old) (λ bytes. bytes ≡ read.0.items)) }
    ensures reads { ReadsKeytab (S.remaining source.old) (S.remaining source.new)
        (S.failure_count source.old) (S.failure_count source.new) (λ read entries. read.1 ≡ entries) result }
{
    let file = read_bytes(alloc, source)?;
    let held = Keytab::parse(alloc, &file)?;
    Ok((file, held))
}

// Adds those keys of a keytab that a file lacks, which has the keys of `held`.
fn add_each(
    alloc: Global,
    file: Vec<u8>,
    held: &Keytab,
    others: &Keytab,
) -> Result<Vec<u8>, KeytabFault>
    requires { IsKeytab file.items held.now }
    ensures added { IfOk result (λ new. IsExtended file.items others.now new.items) }
    ensures fault { IfErr result (λ fault. (fault ≡ KeytabFault.OutOfMemory)
        ⊎ ((fault ≡ KeytabFault.TooLong) × PassesLimit file.items others.now)) }
{
    let mut adder = adder_of(alloc, file)?;
    add_all(alloc, &mut adder, held, others)?;
    Ok(adder.into_bytes())
}

fn add_all(
    alloc: Global,
    adder: &mut EntryAdder,
    held: &Keytab,
    others: &Keytab,
) -> Result<(), KeytabFault>
    requires { IsKeytab adder.old held.now }
    ensures added { OnOk result (IsExtended adder.old others.now adder.new) }
    ensures fault { IfErr result (λ fault. (fault ≡ KeytabFault.OutOfMemory)
        ⊎ ((fault ≡ KeytabFault.TooLong) × PassesLimit adder.old others.now)) }
{
    let held_keys = KeyIndex::new(alloc, held.entries())?;
    let other_keys = KeyIndex::new(alloc, others.entries())?;
    add_in_order(adder, &held_keys, &other_keys, others.entries())
}

// Adds those of the entries, whose keys are `keys`, that a file lacks, which has the keys `held`.
fn add_in_order(
    adder: &mut EntryAdder,
    held: &KeyIndex,
    keys: &KeyIndex,
    entries: &[Entry],
) -> Result<(), KeytabFault>
    requires held { IsKeytab adder.old held.now }
    requires keys { keys.now ≡ entries.now }
    ensures added { OnOk result (IsExtended adder.old entries.now adder.new) }
    ensures fault { IfErr result (λ fault. (fault ≡ KeytabFault.OutOfMemory)
        ⊎ ((fault ≡ KeytabFault.TooLong) × PassesLimit adder.old entries.now)) }
{
    for (at, entry) in entries.iter().enumerate() {
        add_lacking(adder, held, keys, at, entry)?;
    }
    Ok(())
}

fn adder_of(alloc: Global, file: Vec<u8>) -> Result<EntryAdder, KeytabFault>
    requires { (entries : List KeytabEntry) × IsKeytab file.items entries }
    ensures kept { IfOk result (λ adder. adder ≡ file.items) }
    ensures memory { IfErr result (λ fault. fault ≡ KeytabFault.OutOfMemory) }
{
    each_file_has_one_answer();
    EntryAdder::new(alloc, file)
}

// Adds the entry, unless `held`, or an earlier entry of `others`, has its key.
fn add_lacking(
    adder: &mut EntryAdder,
    held: &KeyIndex,
    others: &KeyIndex,
    at: usize,
    entry: &Entry,
) -> Result<(), KeytabFault>
    requires { at ≤ length others.now }
    ensures taken { OnOk result
        (TakesEntry (held.now ++ take at others.now) adder.old entry.now adder.new) }
    ensures fault { IfErr result (λ fault. (fault ≡ KeytabFault.OutOfMemory)
        ⊎ ((fault ≡ KeytabFault.TooLong) × ((¬ HasKeyOf (held.now ++ take at others.now) entry.now)
        × WouldPass adder.old entry.now))) }
{
    if is_known(held, others, at, entry) {
        return Ok(());
    }
    adder.add(entry)
}

fn is_known(held: &KeyIndex, others: &KeyIndex, at: usize, entry: &Entry) -> bool
    requires { at ≤ length others.now }
    ensures { IsTrue result ↔ HasKeyOf (held.now ++ take at others.now) entry.now }
{
    held.has(entry) || others.has_before(at, entry)
}
