//! A keytab: the list of its entries.

ghost use Rattle.std.specs.Prelude.{◌≡◌, ◌≢◌, ◌⊎◌, ◌≤◌, ◌<◌, ℕ, List, All, IfOk, IfErr, IfSome, OnOk, Some, Err, Result, length};
ghost use Rattle.krb_file.specs.Flow.{counted};
ghost use Rattle.krb_keytab.specs.Entry.{KeytabEntry};
ghost use Rattle.krb_keytab.specs.Fault.{offset_of, failed_reads};
ghost use Rattle.krb_keytab.specs.Only.{KeepsOnly};
ghost use Rattle.krb_keytab.specs.Pick.{IsPicked, IsPickedOfType};
ghost use Rattle.krb_keytab.specs.Size.{HasSizesWithin, IsLargestSize};
ghost use Rattle.krb_name.specs.Name.{SameName};
ghost use Rattle.krb_file.specs.File.{file_limit, ReadsFile};
ghost use Rattle.krb_keytab.specs.Format.{IsKeytab, IsFaultOf, IsAnswerOf};
ghost use Rattle.krb_keytab.specs.Written.{written};

use crate::entry::Entry;
use crate::fault::KeytabFault;
use crate::finding::find_entry;
use crate::pick::{Picked, pick_entry};
use crate::step::{VERSION, read_entries};
use crate::usable::Counted;
use crate::writing::put_record;
use krb_file::{FILE_LIMIT, Feed, Slice, Source, Window};
use krb_name::{NamedList, NamedListBuilder, Principal};
use std::alloc::{AllocError, Global};
use std::fmt;
use std::marker::Model;

/// A keytab: the entries of a file, in their order. A contract sees it as their list.
#[derive(Drop)]
pub struct Keytab {
    entries: NamedList<Entry>,
    // The size of the largest name.
    largest: usize,
}

impl Model for Keytab {
    ghost use Rattle.std.specs.Prelude.{List};
    ghost use Rattle.krb_keytab.specs.Entry.{KeytabEntry};
    ghost use Rattle.krb_keytab.specs.Size.{IsLargestSize};

    ghost Value = { List KeytabEntry };

    ghost view = { λ k. k.entries };

    ghost invariant = { λ k. IsLargestSize k.entries k.largest };
}

// As many entries have no index. They are looked at one by one.
const FEW: usize = 8;

impl Keytab {
    /// Parses the bytes of a file.
    ///
    /// Allocates memory as entries are read, and never because of a count or a length that the
    /// bytes don't bear out. Beside each entry it keeps a hash of its name, of 4 bytes. After the last
    /// entry it allocates the rest of an index by name, of 8 bytes for each entry and 4 more. A keytab
    /// of at most 8 entries has no index.
    ///
    /// # Errors
    /// `OutOfMemory` if the bytes are a keytab and there is no memory for it; else the first that
    /// applies:
    /// - `TooLong`: there are more than 16,777,216 bytes.
    /// - `Version`: they don't begin with 0x05 0x02.
    /// - `Truncated` or `BadEntry`, with the offset of the first record that has too few bytes, or
    ///   that no entry fits into.
    ///
    /// Source: MIT krb5, "Keytab file format".
    pub fn parse(alloc: Global, bytes: &[u8]) -> Result<Keytab, KeytabFault>
        ensures found { IfOk result (λ keytab. IsKeytab bytes.now keytab) }
        ensures fault { IfErr result (λ fault.
            fault ≢ KeytabFault.OutOfMemory → IsFaultOf bytes.now fault) }

        // If the bytes are a keytab, or have a fault, that is the answer.
        ensures only { (answer : Result (List KeytabEntry) KeytabFault) → IsAnswerOf bytes.now answer
            → (result ≡ answer) ⊎ (result ≡ Err KeytabFault.OutOfMemory) }

        // Out of memory never takes the place of a fault.
        ensures faulty { (fault : KeytabFault) → IsFaultOf bytes.now fault → result ≡ Err fault }
        ensures offset { IfErr result (λ fault.
            IfSome (offset_of fault) (λ at. at ≤ length bytes.now)) }
    {
        if bytes.len() > FILE_LIMIT {
            return Err(KeytabFault::TooLong);
        }
        match Keytab::read_from(alloc, &mut Slice::new(bytes)) {
            Ok(keytab) => Ok(keytab),
            Err(_) => Err(fault_of(bytes)),
        }
    }

    /// Reads a keytab from a source, to its end or to one byte past 16,777,216, as `parse` does
    /// from bytes.
    ///
    /// Holds the entries, their hashes, and the bytes of one record at a time. A hole's bytes aren't
    /// kept. After the last entry it allocates an index, as `parse` does.
    ///
    /// # Errors
    /// - `Read`: a read of the source failed. The source counted a failure, as it does for no other
    ///   answer.
    /// - Those of `parse`, for all the bytes that the source still had. But `OutOfMemory` may be
    ///   reported instead of a fault that comes later.
    ///
    /// Source: MIT krb5, "Keytab file format".
    pub fn read<S: Source>(alloc: Global, source: &mut S) -> Result<Keytab, KeytabFault>
        ensures reads { ReadsFile IsAnswerOf KeytabFault.OutOfMemory KeytabFault.Read
            (S.remaining source.old) (S.remaining source.new) result }
        ensures failed { S.failure_count source.new ≡ counted (S.failure_count source.old) (failed_reads result) }
    {
        let mut window = Window::new(alloc, source);
        let answer = Keytab::read_from(alloc, &mut window);
        let _source = window.into_source();
        answer
    }

    // Reads a keytab to its end.
    fn read_from<F: Feed>(alloc: Global, feed: &mut F) -> Result<Keytab, KeytabFault>
        requires start { (F.hand feed.old).given ≡ 0 }
        ensures reads { ReadsFile IsAnswerOf KeytabFault.OutOfMemory KeytabFault.Read
            (F.hand feed.old).source (F.hand feed.new).source result }
        ensures failed { F.failure_count feed.new ≡ counted (F.failure_count feed.old) (failed_reads result) }
        ensures lent { F.lender feed.new ≡ F.lender feed.old }
    {
        match read_entries(alloc, feed) {
            Ok(entries) => Ok(Keytab::of_entries(alloc, entries)?),
            Err(fault) => Err(fault),
        }
    }

    fn of_entries(alloc: Global, entries: NamedListBuilder<Entry>) -> Result<Keytab, AllocError>
        ensures { IfOk result (λ keytab. keytab ≡ entries) }
    {
        let entries = if entries.len() > FEW {
            entries.finish(alloc)?
        } else {
            entries.finish_plain()
        };
        Ok(Keytab::of_list(entries))
    }

    fn of_list(entries: NamedList<Entry>) -> Keytab
        ensures { result ≡ entries }
    {
        let largest = largest_size(entries.as_slice());
        Keytab { entries, largest }
    }

    /// Writes the entries as the bytes of a file: their records, without holes and without an end.
    ///
    /// Writes the low 8 bits of a version number, and all 32 bits after the key.
    ///
    /// # Errors
    /// - `TooLong`: there would be more than 16,777,216 bytes.
    /// - `OutOfMemory`: there is no memory for them.
    ///
    /// Source: MIT krb5, "Keytab file format".
    pub fn to_bytes(&self, alloc: Global) -> Result<Vec<u8>, KeytabFault>
        ensures written { IfOk result (λ bytes. bytes.items ≡ written self.now) }
        ensures read_back { IfOk result (λ bytes. IsKeytab bytes.items self.now) }
        ensures within { OnOk result (length (written self.now) ≤ file_limit) }
        ensures fault { IfErr result (λ fault. fault ≢ KeytabFault.OutOfMemory
            → (fault ≡ KeytabFault.TooLong) × (file_limit < length (written self.now))) }
    {
        let mut bytes = Vec::from_slice(alloc, &VERSION)?;
        for entry in self.entries() {
            let at = bytes.len();
            let size = entry.record_length();
            if FILE_LIMIT - at < size {
                return Err(KeytabFault::TooLong);
            }
            put_record(&mut bytes, at, size, entry)?;
        }
        Ok(bytes)
    }

    /// Returns the entries, in the order of the file.
    pub fn entries(&self) -> &[Entry]
        ensures { result.now ≡ self.now }
    {
        self.entries.as_slice()
    }

    /// Keeps only the entries of the principal `name`, in their order; the other keys are freed.
    ///
    /// A service that answers to one name uses this keytab, so that it doesn't accept a ticket for
    /// another name of the same file. Names are compared as by `Principal::same_name`: realm and
    /// components, but not the name type. Allocates no memory. If no entry has the name, none is
    /// left.
    pub fn only(self, name: &Principal) -> Keytab
        ensures only { KeepsOnly name.now self result }
        ensures named { All (λ entry. SameName entry.principal name.now) result }
    {
        let Keytab { mut entries, .. } = self;
        entries.retain_named(name);
        Keytab::of_list(entries)
    }

    /// Returns the size of the largest name of the entries: the bytes of the realm and of the
    /// components, and one more for each component. Returns 0 if there are no entries.
    ///
    /// A larger name is that of no entry, so a caller can turn it away before it copies it.
    pub fn largest_name(&self) -> usize
        ensures within { HasSizesWithin result self.now }
        ensures least { (most : ℕ) → HasSizesWithin most self.now → result ≤ most }
    {
        self.largest
    }

    /// Picks the entry for the principal `name`, the encryption type `etype` and the version number
    /// `kvno`, if one is given.
    ///
    /// Only usable keys count: of type 19 and 16 bytes, or of type 20 and 32 bytes (RFC 8009). With
    /// a version number, the first such entry of that number is picked; without one, the first of
    /// the highest number. Names are compared as by `Principal::same_name`. Decrypts nothing and
    /// allocates no memory.
    ///
    /// If there are more than 8 entries, it looks only at those whose name has the same hash, and
    /// passes over those that share its place in the index. These are few, unless the keytab's names
    /// were chosen so that many share a place.
    pub fn pick(&self, name: &Principal, etype: i32, kvno: Option<u32>) -> Picked<'_>
        ensures { IsPicked self.now name.now etype kvno result }
    {
        pick_entry(&self.entries, name, etype, kvno, Counted::Usable)
    }

    /// Picks an entry as `pick` does, except that every key of the encryption type `etype` counts,
    /// whatever its length. The type can be any, also one whose keys open no ticket.
    pub fn pick_of_type(&self, name: &Principal, etype: i32, kvno: Option<u32>) -> Picked<'_>
        ensures { IsPickedOfType self.now name.now etype kvno result }
    {
        pick_entry(&self.entries, name, etype, kvno, Counted::Any)
    }
}

fn largest_size(entries: &[Entry]) -> usize
    ensures { IsLargestSize entries.now result }
{
    let mut largest = 0;
    for entry in entries {
        largest = entry.name_size().max(largest);
    }
    largest
}

// Why bytes weren't read: their fault, or `OutOfMemory` if they have none.
pub(crate) fn fault_of(bytes: &[u8]) -> KeytabFault
    ensures fault { result ≢ KeytabFault.OutOfMemory → IsFaultOf bytes.now result }
    ensures exact { (fault : KeytabFault) → IsFaultOf bytes.now fault → result ≡ fault }
{
    match find_entry(bytes, 0) {
        Ok(_) => KeytabFault::OutOfMemory,
        Err(fault) => fault,
    }
}

impl fmt::Debug for Keytab {
    ghost use Rattle.krb_keytab.specs.Entry.{shown_keytab};

    ghost debug_output = { λ keytab. Some (shown_keytab keytab) };

    fn fmt<W: fmt::Write>(&self, f: &mut fmt::Formatter<W>) -> fmt::Result {
        let count = self.entries().len();
        write!(f, "Keytab({count} entries)")
    }
}
