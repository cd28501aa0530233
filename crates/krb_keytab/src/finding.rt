//! Finding the record to edit. Each file is read to its end, so its faults come first.

ghost use Rattle.std.specs.Prelude.{◌≡◌, ◌⊎◌, ◌≤◌, ◌∷◌, ◌++◌, [], ℕ, List, IfOk, IfErr, OnOk, OnErr, MatchResult, Some};
ghost use Rattle.krb_keytab.specs.Entry.{KeytabEntry};
ghost use Rattle.krb_keytab.specs.Format.{version, KeytabRecord, hole, entry, IsFaultOf};
ghost use Rattle.krb_keytab.specs.Inner.Finding.{LiesAt, HasGathered, KeepsEntry, KeepsHole, IsFoundEntry, IsFoundRoom};

use crate::fault::KeytabFault;
use crate::found::{Found, Nothing};
use crate::step::{read_record, read_version};
use krb_file::{FILE_LIMIT, Feed, Slice};
use std::alloc::AllocError;

/// Where a record lies in a file: the offset of its size, and the offset after its last byte.
#[derive(Drop)]
pub(crate) struct Extent {
    pub(crate) from: usize,
    pub(crate) to: usize,
}

/// Where there is room for a record.
#[derive(Drop)]
pub(crate) enum Room {
    /// In a hole.
    Hole(Extent),
    /// Nowhere; the records end at this offset.
    End(usize),
}

/// What is gathered of the records of a file, one after another.
pub(crate) trait Gather {
    /// What these records made of it: how it began, the records, and how it is now.
    ghost has: { Self → List KeytabRecord → Self → Type 0 };

    /// That memory may be lacking.
    ghost allocates: { Type 0 };

    /// Takes the next record, which is a hole.
    fn hole(&mut self, place: Extent) -> Result<(), AllocError>
        requires { place.from ≤ place.to }
        ensures has { OnOk result ((start : Self) (before : List KeytabRecord) (ignored : List ℕ)
            → LiesAt before (hole ignored) place → has start before self.old
            → has start (before ++ hole ignored ∷ []) self.new) }
        ensures memory { OnErr result allocates };

    /// Takes the next record, which is that of an entry.
    fn entry(&mut self, place: Extent) -> Result<(), AllocError>
        ensures has { OnOk result ((start : Self) (before : List KeytabRecord) (e : KeytabEntry)
            (short_kvno : ℕ) (rest : List ℕ) → LiesAt before (entry e short_kvno rest) place
            → has start before self.old
            → has start (before ++ entry e short_kvno rest ∷ []) self.new) }
        ensures memory { OnErr result allocates };
}

/// Gives the records of a keytab to `gathered`, one after another, and returns the offset at which
/// they end.
///
/// # Errors
/// Those of `Keytab::parse`; `OutOfMemory` only if `gathered` lacks memory.
pub(crate) fn read_all<G: Gather>(bytes: &[u8], gathered: &mut G) -> Result<usize, KeytabFault>
    requires { G.has gathered.old [] gathered.old }
    ensures all { IfOk result (λ at.
        HasGathered (G.has gathered.old) bytes.now at gathered.new) }
    ensures fault { IfErr result (λ fault. IsFaultOf bytes.now fault
        ⊎ ((fault ≡ KeytabFault.OutOfMemory) × G.allocates)) }
{
    let mut slice = open(bytes)?;
    'each_record: loop {
        let from = slice.given();
        let found = read_record(&mut slice, &Nothing)?;
        let to = slice.given();
        match found {
            Found::End => return Ok(from),
            Found::Hole => gathered.hole(Extent { from, to })?,
            Found::Entry(()) => gathered.entry(Extent { from, to })?,
        }
    }
}

// Moves past the version of a keytab, or returns `TooLong` or `Version`.
fn open<'a>(bytes: &'a [u8]) -> Result<Slice<'a>, KeytabFault>
    ensures at { IfOk result (λ slice. slice.given ≡ 2) }
    ensures rest { IfOk result (λ slice. bytes.now ≡ version ++ slice.source) }
    ensures fault { IfErr result (λ fault. IsFaultOf bytes.now fault) }
{
    if bytes.len() > FILE_LIMIT {
        return Err(KeytabFault::TooLong);
    }
    let mut slice = Slice::new(bytes);
    read_version(&mut slice)?;
    Ok(slice)
}

// The entry of this index, once more entries than that were counted.
#[derive(Drop)]
struct EntryAt {
    index: usize,
    count: usize,
    found: Option<Extent>,
}

impl Gather for EntryAt {
    ghost has = { KeepsEntry };

    ghost allocates = { ⊥ };

    fn hole(&mut self, _place: Extent) -> Result<(), AllocError> {
        Ok(())
    }

    fn entry(&mut self, place: Extent) -> Result<(), AllocError> {
        if self.count < self.index {
            self.count += 1;
        } else if self.found.is_none() {
            self.found = Some(place);
        }
        Ok(())
    }
}

/// Finds the record of the entry of this index, counted among the entries alone.
///
/// # Errors
/// Those of `Keytab::parse` except `OutOfMemory`.
pub(crate) fn find_entry(bytes: &[u8], index: usize) -> Result<Option<Extent>, KeytabFault>
    ensures { MatchResult result (IsFoundEntry bytes.now index) (IsFaultOf bytes.now) }
{
    let mut entry = EntryAt {
        index,
        count: 0,
        found: None,
    };
    read_all(bytes, &mut entry)?;
    Ok(entry.found)
}

// The first hole of at least so many bytes.
#[derive(Drop)]
struct HoleFor {
    size: usize,
    found: Option<Extent>,
}

impl Gather for HoleFor {
    ghost has = { KeepsHole };

    ghost allocates = { ⊥ };

    fn hole(&mut self, place: Extent) -> Result<(), AllocError> {
        if self.found.is_none() && self.size <= place.to - place.from {
            self.found = Some(place);
        }
        Ok(())
    }

    fn entry(&mut self, _place: Extent) -> Result<(), AllocError> {
        Ok(())
    }
}

/// Finds the first hole that has room for a record of so many bytes, or the end of the records.
///
/// # Errors
/// Those of `Keytab::parse` except `OutOfMemory`.
pub(crate) fn find_room(bytes: &[u8], size: usize) -> Result<Room, KeytabFault>
    ensures { MatchResult result (IsFoundRoom bytes.now size) (IsFaultOf bytes.now) }
{
    let mut hole = HoleFor { size, found: None };
    let end = read_all(bytes, &mut hole)?;
    match hole.found {
        Some(place) => Ok(Room::Hole(place)),
        None => Ok(Room::End(end)),
    }
}
