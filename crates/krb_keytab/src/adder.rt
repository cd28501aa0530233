//! Adding entries one after another to the bytes of a keytab.

ghost use Rattle.std.specs.Prelude.{◌≡◌, ◌≢◌, List, IfOk, IfErr, OnOk, OnErr, Err};
ghost use Rattle.krb_keytab.specs.Edit.{AddsEntry, GainsEntry, IsUnadded, WouldPass};
ghost use Rattle.krb_keytab.specs.Entry.{KeytabEntry};
ghost use Rattle.krb_keytab.specs.Format.{IsFaultOf, IsKeytab};
ghost use Rattle.krb_keytab.specs.Inner.Room.{KnowsRoom};
ghost use Rattle.krb_keytab.specs.declared.fault.KeytabFault.{KeytabFault};

use crate::entry::Entry;
use crate::fault::KeytabFault;
use crate::finding::{Extent, Room, read_all};
use crate::holes::Holes;
use crate::keytab::fault_of;
use crate::writing::put_in;
use std::alloc::Global;
use std::marker::Model;

/// The bytes of a keytab, to which entries are added one after another. A contract sees it as the
/// bytes.
///
/// The bytes become the same as by `Keytab::add_in`, which reads the whole file for each entry. The
/// time for an entry grows with its length, and hardly with the number of holes.
#[derive(Drop)]
pub struct EntryAdder {
    file: Vec<u8>,
    holes: Holes,
    // Where the records end.
    end: usize,
}

impl Model for EntryAdder {
    ghost use Rattle.std.specs.Prelude.{ℕ, List};
    ghost use Rattle.krb_keytab.specs.Inner.Room.{KnowsRoom};

    ghost Value = { List ℕ };

    ghost view = { λ a. a.file.items };

    ghost invariant = { λ a. KnowsRoom a.file.items a.holes a.end };
}

impl EntryAdder {
    /// Takes the bytes of a file, and reads where its holes are.
    ///
    /// Allocates memory for the list of holes, 40 bytes or more for each. It frees 8 of these before
    /// it returns.
    ///
    /// # Errors
    /// The bytes are freed.
    /// - Those of `Keytab::parse` except `OutOfMemory`, if the bytes aren't a keytab.
    /// - `OutOfMemory`: they are one, and there is no memory for the list.
    ///
    /// Source: MIT krb5, "Keytab file format".
    pub fn new(alloc: Global, file: Vec<u8>) -> Result<EntryAdder, KeytabFault>
        ensures kept { IfOk result (λ adder. adder ≡ file.items) }
        ensures keytab { IfOk result (λ adder.
            (entries : List KeytabEntry) × IsKeytab adder entries) }
        ensures fault { IfErr result (λ fault.
            fault ≢ KeytabFault.OutOfMemory → IsFaultOf file.items fault) }
        // Out of memory never takes the place of a fault.
        ensures faulty { (fault : KeytabFault) → IsFaultOf file.items fault → result ≡ Err fault }
    {
        let (holes, end) = read_room(alloc, &file)?;
        Ok(EntryAdder { file, holes, end })
    }

    /// Adds `entry`, as `Keytab::add_in` does: to the first hole that is at least as long, else to
    /// the end.
    ///
    /// # Errors
    /// The bytes are then unchanged.
    /// - `TooLong`: no hole is long enough, and the longer file would have more than 16,777,216
    ///   bytes.
    /// - `OutOfMemory`: no hole is long enough, and there is no memory for the longer file.
    #[tactic(auto, using(crate::proofs::AddLaws::adds_gains))]
    pub fn add(&mut self, entry: &Entry) -> Result<(), KeytabFault>
        ensures ok { OnOk result (AddsEntry self.old entry.now self.new) }
        ensures list { OnOk result (GainsEntry self.old entry.now self.new) }
        ensures too_long { WouldPass self.old entry.now → result ≡ Err KeytabFault.TooLong }
        ensures unadded { IfErr result (IsUnadded self.old entry.now) }
        ensures err { OnErr result (self.new ≡ self.old) }
    {
        let size = entry.record_length();
        match self.holes.take(size) {
            Some(hole) => {
                let to = hole.from + hole.size;
                let from = hole.from;
                put_in(&mut self.file, Room::Hole(Extent { from, to }), size, entry)
            }
            None => {
                put_in(&mut self.file, Room::End(self.end), size, entry)?;
                self.end += size;
                Ok(())
            }
        }
    }

    /// Returns the bytes.
    pub fn into_bytes(self) -> Vec<u8>
        ensures { result.items ≡ self }
    {
        self.file
    }
}

// Finds the holes of a keytab, and where its records end. Looks for a fault again if there was no
// memory, so that none is hidden.
fn read_room(alloc: Global, bytes: &[u8]) -> Result<(Holes, usize), KeytabFault>
    ensures room { IfOk result (λ found. KnowsRoom bytes.now found.0 found.1) }
    ensures fault { IfErr result (λ fault.
        fault ≢ KeytabFault.OutOfMemory → IsFaultOf bytes.now fault) }
    ensures faulty { (fault : KeytabFault) → IsFaultOf bytes.now fault → result ≡ Err fault }
{
    let mut holes = Vec::new(alloc);
    match read_all(bytes, &mut holes) {
        Ok(end) => Ok((Holes::new(alloc, holes)?, end)),
        Err(_) => Err(fault_of(bytes)),
    }
}
