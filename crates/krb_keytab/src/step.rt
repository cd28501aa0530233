//! Reading a keytab record by record, with one record in memory.

ghost use Rattle.std.specs.Prelude.{◌≡◌, ◌≢◌, ◌⊎◌, ◌+◌, ◌^◌, ◌<◌, ◌≤◌, [], pos, neg_ℤ, true, false, FitsSigned, unsigned_abs, length, IfOk, IfErr, OnErr, MatchOption, None, Some, Err};
ghost use Rattle.std.specs.Int.{w32};
ghost use Rattle.krb_file.specs.Flow.{counted, failed_reads as read_failures};
ghost use Rattle.krb_file.specs.Window.{Fills};
ghost use Rattle.krb_file.specs.Cursor.{signed_bytes};
ghost use Rattle.krb_keytab.specs.Entry.{KeytabEntry};
ghost use Rattle.krb_keytab.specs.Inner.Entry.{HoldsEntry, HoldsNone};
ghost use Rattle.krb_keytab.specs.Items.{LacksVersion};
ghost use Rattle.krb_keytab.specs.Fault.{failed_reads};
ghost use Rattle.krb_file.specs.File.{file_limit, TakesFile};
ghost use Rattle.krb_keytab.specs.Format.{version};
ghost use Rattle.krb_keytab.specs.Inner.Meeting.{MeetsOne, MeetsSizeAt, MeetsNext, MeetsKept, MeetsPast, OpensAt, RunsOutTo, MeetsBody, IsFewAt, IsFound, IsFaulty};

use crate::entry::Entry;
use crate::fault::KeytabFault;
use crate::found::{Found, Keep, Nothing};
use crate::view::EntryView;
use krb_file::{FILE_LIMIT, Feed, FileCursor, ReadFault, Short, SourceFailed};
use krb_name::NamedListBuilder;
use std::alloc::{AllocError, Global};

/// The version of the format that is read and written. A keytab begins with it.
pub(crate) const VERSION: [u8; 2] = [0x05, 0x02];

/// How many bytes the size of a record has.
pub(crate) const SIZE_LENGTH: usize = 4;

/// Reads the version of a file.
pub(crate) fn read_version<F: Feed>(feed: &mut F) -> Result<(), KeytabFault>
    requires start { (F.hand feed.old).given ≡ 0 }
    ensures opens { OpensAt (F.hand feed.old) (F.hand feed.new) result }
    ensures memory { result ≡ Err KeytabFault.OutOfMemory → F.allocates }
    ensures failed { F.failure_count feed.new ≡ counted (F.failure_count feed.old) (failed_reads result) }
    ensures lent { F.lender feed.new ≡ F.lender feed.old }
{
    let whole = hold(feed, VERSION.len())?;
    if is_version(feed.bytes()) {
        Ok(())
    } else if whole {
        conclude(feed, Err(KeytabFault::Version))
    } else {
        Err(KeytabFault::Version)
    }
}

/// Reads a keytab to its end, and returns its entries.
pub(crate) fn read_entries<F: Feed>(
    alloc: Global,
    feed: &mut F,
) -> Result<NamedListBuilder<Entry>, KeytabFault>
    requires start { (F.hand feed.old).given ≡ 0 }
    ensures found { IfOk result (λ entries. IsFound
        (F.hand feed.old).source (F.hand feed.new).source entries) }
    ensures fault { IfErr result (IsFaulty (F.hand feed.old).source (F.hand feed.new).source) }
    ensures taken { TakesFile (F.hand feed.old).source (F.hand feed.new).source }
    ensures failed { F.failure_count feed.new ≡ counted (F.failure_count feed.old) (failed_reads result) }
    ensures lent { F.lender feed.new ≡ F.lender feed.old }
{
    read_version(feed)?;
    let mut entries = NamedListBuilder::new(alloc);
    while let Some(entry) = read_entry(alloc, feed)? {
        let Ok(()) = entries.push(entry) else {
            return Err(KeytabFault::OutOfMemory);
        };
    }
    Ok(entries)
}

/// Reads records up to the next entry and returns it, or none if the records have ended.
pub(crate) fn read_entry<F: Feed>(alloc: Global, feed: &mut F) -> Result<Option<Entry>, KeytabFault>
    requires limit { (F.hand feed.old).given ≤ file_limit }
    ensures meets { MeetsNext (F.hand feed.old) (F.hand feed.new) result }
    ensures failed { F.failure_count feed.new ≡ counted (F.failure_count feed.old) (failed_reads result) }
    ensures lent { F.lender feed.new ≡ F.lender feed.old }
{
    next_entry(feed, &alloc)
}

/// Reads records up to the next entry, and returns whether there is one. There is none if the
/// records have ended.
pub(crate) fn pass_entry<F: Feed>(feed: &mut F) -> Result<bool, KeytabFault>
    requires limit { (F.hand feed.old).given ≤ file_limit }
    ensures meets { MeetsPast (F.hand feed.old) (F.hand feed.new) result }
    ensures failed { F.failure_count feed.new ≡ counted (F.failure_count feed.old) (failed_reads result) }
    ensures lent { F.lender feed.new ≡ F.lender feed.old }
{
    Ok(next_entry(feed, &Nothing)?.is_some())
}

// Reads records up to the next entry, and returns what is kept of it, or none if the records have
// ended.
fn next_entry<F: Feed, K: Keep>(feed: &mut F, keep: &K) -> Result<Option<K::Kept>, KeytabFault>
    requires limit { (F.hand feed.old).given ≤ file_limit }
    ensures meets { MeetsKept K.kept_of (F.hand feed.old) (F.hand feed.new) result }
    ensures failed { F.failure_count feed.new ≡ counted (F.failure_count feed.old) (failed_reads result) }
    ensures lent { F.lender feed.new ≡ F.lender feed.old }
{
    loop {
        match read_record(feed, keep)? {
            Found::End => return Ok(None),
            Found::Hole => {}
            Found::Entry(kept) => return Ok(Some(kept)),
        }
    }
}

/// Reads the record that begins here, and returns what is kept of an entry.
pub(crate) fn read_record<F: Feed, K: Keep>(
    feed: &mut F,
    keep: &K,
) -> Result<Found<K::Kept>, KeytabFault>
    requires limit { (F.hand feed.old).given ≤ file_limit }
    ensures meets { MeetsOne K.kept_of (F.hand feed.old) (F.hand feed.new) result }
    ensures memory { result ≡ Err KeytabFault.OutOfMemory → F.allocates ⊎ K.allocates }
    ensures failed { F.failure_count feed.new ≡ counted (F.failure_count feed.old) (failed_reads result) }
    ensures lent { F.lender feed.new ≡ F.lender feed.old }
{
    let at = feed.given();
    let Some(size) = read_size(feed)? else {
        return Ok(Found::End);
    };
    let count = size.unsigned_abs() as usize;
    if count > FILE_LIMIT - feed.given() {
        return conclude(feed, Err(KeytabFault::Truncated { at }));
    }
    if size < 0 {
        pass_hole(feed, at, count)
    } else {
        read_content(feed, at, count, keep)
    }
}

// Reads the size of a record; none if the records have ended.
fn read_size<F: Feed>(feed: &mut F) -> Result<Option<i32>, KeytabFault>
    requires limit { (F.hand feed.old).given ≤ file_limit }
    ensures meets { MeetsSizeAt (F.hand feed.old) (F.hand feed.new) result }
    ensures memory { result ≡ Err KeytabFault.OutOfMemory → F.allocates }
    ensures failed { F.failure_count feed.new ≡ counted (F.failure_count feed.old) (failed_reads result) }
    ensures lent { F.lender feed.new ≡ F.lender feed.old }
{
    let at = feed.given();
    let whole = hold(feed, SIZE_LENGTH.min(FILE_LIMIT - at))?;
    let Ok(size) = size_of(feed.bytes()) else {
        let last = last_behind(feed.bytes(), at);
        return if whole { conclude(feed, last) } else { last };
    };
    if size == 0 {
        return conclude(feed, Ok(None));
    }
    Ok(Some(size))
}

// What is answered if fewer bytes than a size has are left.
fn last_behind(few: &[u8], at: usize) -> Result<Option<i32>, KeytabFault>
    ensures { IsFewAt at few.now result }
{
    if few.is_empty() {
        Ok(None)
    } else {
        Err(KeytabFault::Truncated { at })
    }
}

// Takes the next `count` bytes, holds them alone, and returns whether so many came.
fn hold<F: Feed>(feed: &mut F, count: usize) -> Result<bool, ReadFault>
    requires count { (F.hand feed.old).given + count < 2 ^ 64 }
    ensures fills { Fills (F.hand feed.old).source (F.hand feed.new).source
        (record (F.hand feed.old) { bytes = [] }) (F.hand feed.new) count result }
    ensures memory { result ≡ Err ReadFault.OutOfMemory → F.allocates }
    ensures failed { F.failure_count feed.new ≡ counted (F.failure_count feed.old) (read_failures result) }
    ensures lent { F.lender feed.new ≡ F.lender feed.old }
{
    feed.clear();
    feed.fill(count)
}

// Whether these are the bytes of the version.
fn is_version(bytes: &[u8]) -> bool
    requires { length bytes.now ≤ 2 }
    ensures is { result ≡ true → bytes.now ≡ version }
    ensures other { result ≡ false → LacksVersion bytes.now }
{
    bytes == VERSION.as_slice()
}

// The size in the first four bytes.
fn size_of(bytes: &[u8]) -> Result<i32, Short>
    requires { length bytes.now ≤ 4 }
    ensures size { IfOk result (λ size.
        (bytes.now ≡ signed_bytes w32 size) × FitsSigned w32 size) }
    ensures short { OnErr result (length bytes.now < 4) }
{
    FileCursor::new(bytes).read_i32()
}

// Takes the `count` bytes of a hole.
fn pass_hole<F: Feed, E: Drop>(
    feed: &mut F,
    at: usize,
    count: usize,
) -> Result<Found<E>, KeytabFault>
    requires at { (F.hand feed.old).given ≡ at + 4 }
    requires some { 0 < count }
    requires limit { at + 4 + count ≤ file_limit }
    ensures meets { (of_entry : KeytabEntry → E)
        → MeetsBody of_entry (F.hand feed.old) (F.hand feed.new) at (neg_ℤ (pos count)) result }
    ensures memory { result ≢ Err KeytabFault.OutOfMemory }
    ensures failed { F.failure_count feed.new ≡ counted (F.failure_count feed.old) (failed_reads result) }
    ensures lent { F.lender feed.new ≡ F.lender feed.old }
{
    match feed.skip(count) {
        Ok(true) => Ok(Found::Hole),
        Ok(false) => Err(KeytabFault::Truncated { at }),
        Err(SourceFailed) => Err(KeytabFault::Read),
    }
}

// Reads the `count` bytes of an entry.
fn read_content<F: Feed, K: Keep>(
    feed: &mut F,
    at: usize,
    count: usize,
    keep: &K,
) -> Result<Found<K::Kept>, KeytabFault>
    requires at { (F.hand feed.old).given ≡ at + 4 }
    requires some { 0 < count }
    requires limit { at + 4 + count ≤ file_limit }
    ensures meets { MeetsBody K.kept_of (F.hand feed.old) (F.hand feed.new) at (pos count) result }
    ensures memory { result ≡ Err KeytabFault.OutOfMemory → F.allocates ⊎ K.allocates }
    ensures failed { F.failure_count feed.new ≡ counted (F.failure_count feed.old) (failed_reads result) }
    ensures lent { F.lender feed.new ≡ F.lender feed.old }
{
    if !hold(feed, count)? {
        return Err(KeytabFault::Truncated { at });
    }
    match keep_of(feed.bytes(), keep)? {
        Some(kept) => Ok(Found::Entry(kept)),
        None => conclude(feed, Err(KeytabFault::BadEntry { at })),
    }
}

// What is kept of the entry at the front of the bytes of a record, if there is one.
fn keep_of<K: Keep>(body: &[u8], keep: &K) -> Result<Option<K::Kept>, AllocError>
    ensures kept { IfOk result (λ kept. MatchOption kept (HoldsNone body.now) (λ one.
        (entry : KeytabEntry) × HoldsEntry body.now entry × (one ≡ K.kept_of entry))) }
    ensures memory { OnErr result K.allocates }
{
    match EntryView::read(body) {
        Ok(view) => Ok(Some(keep.keep(&view)?)),
        Err(Short) => Ok(None),
    }
}

// Answers `last` once the source has run out, and otherwise that there are too many bytes.
fn conclude<F: Feed, T: Drop>(feed: &mut F, last: Result<T, KeytabFault>) -> Result<T, KeytabFault>
    requires limit { (F.hand feed.old).given ≤ file_limit }
    requires last { failed_reads last ≡ 0 }
    ensures runs_out { RunsOutTo (F.hand feed.old) (F.hand feed.new) last result }
    ensures memory { result ≡ Err KeytabFault.OutOfMemory → last ≡ Err KeytabFault.OutOfMemory }
    ensures failed { F.failure_count feed.new ≡ counted (F.failure_count feed.old) (failed_reads result) }
    ensures lent { F.lender feed.new ≡ F.lender feed.old }
{
    match feed.skip(FILE_LIMIT + 1 - feed.given()) {
        Ok(false) => last,
        Ok(true) => Err(KeytabFault::TooLong),
        Err(SourceFailed) => Err(KeytabFault::Read),
    }
}
