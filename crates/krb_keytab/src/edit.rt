//! Editing the bytes of a keytab in place.

ghost use Rattle.std.specs.Prelude.{◌≡◌, ◌≢◌, ◌↔◌, ◌<◌, vec_capacity, Ok, Err, IfErr, OnOk, OnErr, length};
ghost use Rattle.std.specs.Vec.{VecUnchanged};
ghost use Rattle.krb_keytab.specs.Format.{IsFaultOf};
ghost use Rattle.krb_keytab.specs.Edit.{MakesHole, LosesEntry, LacksEntry, AddsEntry, GainsEntry, WouldGrow, WouldPass, IsRefusal};
ghost use Rattle.krb_keytab.specs.declared.fault.KeytabFault.{KeytabFault};

use crate::entry::Entry;
use crate::fault::KeytabFault;
use crate::finding::{find_entry, find_room};
use crate::keytab::Keytab;
use crate::writing::{clear_in, put_in};

impl Keytab {
    /// Removes the entry `index`, counted from 0 among the entries, from the bytes of a file. Its
    /// record becomes a hole of the same size: the size is negated, and the other bytes of the
    /// record are set to zero.
    ///
    /// Reads the whole file before it changes a byte. Allocates no memory.
    ///
    /// # Errors
    /// The first that applies. The bytes are then unchanged.
    /// - Those of `parse` except `OutOfMemory`, if the bytes aren't a keytab.
    /// - `NoSuchEntry`: the keytab has no entry of this index.
    ///
    /// Source: MIT krb5, "Keytab file format".
    pub fn remove_in(file: &mut Vec<u8>, index: usize) -> Result<(), KeytabFault>
        ensures ok { OnOk result (MakesHole file.old.items index file.new.items) }
        ensures list { OnOk result (LosesEntry file.old.items index file.new.items) }
        ensures length { length file.new.items ≡ length file.old.items }
        ensures missing { (result ≡ Err KeytabFault.NoSuchEntry) ↔ LacksEntry file.old.items index }

        // A fault of the file goes before a missing entry, and is the one that `parse` answers.
        ensures fault { (fault : KeytabFault) → fault ≢ KeytabFault.NoSuchEntry
            → (result ≡ Err fault) ↔ IsFaultOf file.old.items fault }
        ensures err { OnErr result (VecUnchanged file.old file.new) }
    {
        match find_entry(file, index)? {
            None => Err(KeytabFault::NoSuchEntry),
            Some(place) => {
                clear_in(file, place.from, place.to);
                Ok(())
            }
        }
    }

    /// Adds `entry` to the bytes of a file.
    ///
    /// The first hole that is at least as long as the entry takes it: the hole's size becomes that
    /// of the entry's record, and what is left of the hole is set to zero. An end of the records
    /// stays, with what follows it, and no memory is allocated. If no hole is long enough, the end
    /// is cut off, and a record of exactly the entry's length is put there.
    ///
    /// Reads the whole file before it changes a byte.
    ///
    /// # Errors
    /// The first that applies. The bytes are then unchanged.
    /// - Those of `parse` except `OutOfMemory`, if the bytes aren't a keytab.
    /// - `TooLong`: no hole is long enough, and the longer file would have more than 16,777,216
    ///   bytes.
    /// - `OutOfMemory`: no hole is long enough, `file` doesn't have the capacity for the longer
    ///   file, and there is no memory for it.
    ///
    /// Source: MIT krb5, "Keytab file format".
    #[tactic(auto, using(crate::proofs::AddLaws::adds_gains))]
    pub fn add_in(file: &mut Vec<u8>, entry: &Entry) -> Result<(), KeytabFault>
        ensures ok { OnOk result (AddsEntry file.old.items entry.now file.new.items) }
        ensures list { OnOk result (GainsEntry file.old.items entry.now file.new.items) }

        // A fault of the file goes first, and is the one that `parse` answers.
        ensures fault { (fault : KeytabFault) → IsFaultOf file.old.items fault
            → result ≡ Err fault }
        ensures too_long { WouldPass file.old.items entry.now → result ≡ Err KeytabFault.TooLong }
        ensures refusal { IfErr result (IsRefusal file.old.items entry.now) }
        ensures memory { result ≡ Err KeytabFault.OutOfMemory
            → WouldGrow file.old.items entry.now (λ count. vec_capacity file.old < count) }
        ensures err { OnErr result (VecUnchanged file.old file.new) }
    {
        let size = entry.record_length();
        let room = find_room(file, size)?;
        put_in(file, room, size, entry)
    }
}
