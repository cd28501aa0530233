//! Entries, one at a time.

ghost use Rattle.std.specs.Prelude.{◌≡◌, ◌+◌, ◌<◌, ◌≤◌, ℕ, true, List, [], ◌++◌, Option, None, Result, Ok, IfSome, if◌then◌else◌, is_some};
ghost use Rattle.std.specs.Io.KnownBytes.{Consumes};
ghost use Rattle.krb_file.specs.Flow.{counted};
ghost use Rattle.krb_keytab.specs.Entry.{KeytabEntry};
ghost use Rattle.krb_keytab.specs.Fault.{failed_reads};
ghost use Rattle.krb_file.specs.File.{file_limit};
ghost use Rattle.krb_keytab.specs.Items.{HasRead, passed, stage_after, stage_passed, entries_after, last_answer, GivesMore};
ghost use Rattle.krb_keytab.specs.Inner.Meeting.{MeetsFirst};

use crate::entry::Entry;
use crate::fault::KeytabFault;
use crate::stage::Stage;
use crate::step::{pass_entry, read_entry, read_version};
use krb_file::{Feed, Source, Window};
use std::alloc::Global;
use std::marker::Model;

/// Reads the entries of a keytab from a source, one at a time.
///
/// Holds the bytes of one record at a time, in one buffer. The buffer grows as the bytes come, by
/// at most 65,536 bytes before they are there, whatever length a record gives. A hole's bytes
/// aren't kept. A contract sees the source, how many bytes of it were held at most, how many it
/// gave, and where the reader is.
///
/// ```rust
/// let mut reader = EntryReader::new(alloc, ReadSource::new(file));
/// while let Some(entry) = reader.next(alloc)? {
///     let kvno = entry.kvno();
///     println!(rt; "{kvno}")?;
/// }
/// ```
#[derive(Drop)]
pub struct EntryReader<S> {
    window: Window<S>,
    stage: Stage,
}

impl<S> Model for EntryReader<S> {
    ghost use Rattle.std.specs.Prelude.{◌≤◌};
    ghost use Rattle.krb_file.specs.File.{file_limit};
    ghost use Rattle.krb_keytab.specs.Items.{EntriesRead};
    ghost use Rattle.krb_keytab.specs.Inner.Meeting.{IsWithin};

    ghost Value = { EntriesRead S };

    ghost view = { λ r. record {
      source = r.window.source;
      held = r.window.peak;
      given = r.window.given;
      stage = r.stage;
    } };

    ghost invariant = { λ r. (r.window.peak ≤ file_limit) × IsWithin r.stage r.window.given };
}

impl<S: Source> EntryReader<S> {
    /// Reads from `source`. Nothing of it has been read yet. Allocates no memory.
    pub fn new(alloc: Global, source: S) -> Self
        ensures source { result.source ≡ source }
        ensures start { HasRead (S.remaining source) result [] [] }
        ensures open { last_answer result.stage ≡ None }
    {
        EntryReader {
            window: Window::new(alloc, source),
            stage: Stage::Start,
        }
    }

    /// Returns the source.
    pub fn source(&self) -> &S
        ensures { result.now ≡ self.now.source }
    {
        self.window.source()
    }

    /// Returns the source itself. Whatever it gave after the last entry is lost.
    pub fn into_source(self) -> S
        ensures { result ≡ self.source }
    {
        let EntryReader { window, stage: _ } = self;
        window.into_source()
    }

    /// Returns how many bytes of the source were held at once at most: no more than the version
    /// has, or the longest record of an entry so far, and no more than 16,777,216. At a fault, the
    /// record has as many bytes as were there. The end of the records and a hole count as records
    /// of 4 bytes. After an entry, the number is at least the length of its record after the size.
    /// It never falls.
    pub fn held(&self) -> usize
        ensures held { result ≡ self.now.held }
        ensures limit { result ≤ file_limit }
    {
        self.window.held()
    }

    /// Reads on to the next entry and returns it, or `None` if the entries have ended.
    ///
    /// After an entry, the source has given exactly the bytes up to the end of its record, and none
    /// of a hole that follows. The bytes after the record's size were held at once. Before the end
    /// or a fault of the content is returned, the source is read to its end or to one byte past
    /// 16,777,216, and nothing of this is kept; so the last answer is that of `Keytab::parse` for
    /// all the bytes. The end and each fault, including `Read` and `OutOfMemory`, are returned
    /// again by each later call, which reads nothing.
    ///
    /// # Errors
    /// - `Read`: a read of the source failed. The source counted a failure, as it does for no other
    ///   answer.
    /// - `OutOfMemory`: there is no memory for a record or its entry.
    /// - Else the first that applies to all the bytes: `TooLong`, `Version`, and `Truncated` or
    ///   `BadEntry` with the offset of the first record that has too few bytes, or that no entry
    ///   fits into.
    ///
    /// Source: MIT krb5, "Keytab file format".
    pub fn next(&mut self, alloc: Global) -> Result<Option<Entry>, KeytabFault>

        // Whatever was read and given before: what the source gave now comes after it.
        ensures reads { (bytes : List ℕ) (entries : List KeytabEntry)
            → HasRead (S.remaining self.old.source) self.old bytes entries
            → (piece : List ℕ) × Consumes (S.remaining self.old.source) (S.remaining self.new.source) piece
            × HasRead (S.remaining self.new.source) self.new (bytes ++ piece) (entries_after entries result) }
        ensures stage { self.new.stage ≡ stage_after result }

        ensures more { GivesMore result self.old.given self.new.given }
        ensures limit { self.new.given ≤ file_limit + 1 }
        ensures grows { self.old.held ≤ self.new.held }

        // What was answered last is answered again, and nothing is read.
        ensures again { IfSome (last_answer self.old.stage) (λ answer.
            (result ≡ answer) × (self.new ≡ self.old)) }
        ensures failed { S.failure_count self.new.source ≡ counted (S.failure_count self.old.source)
            (if is_some (last_answer self.old.stage) then 0 else failed_reads result) }
        ensures lent { S.lender self.new.source ≡ S.lender self.old.source }
    {
        let answer = match self.stage {
            Stage::End => return Ok(None),
            Stage::Failed(fault) => return Err(fault),
            Stage::Start => read_first(alloc, &mut self.window),
            Stage::Records => read_entry(alloc, &mut self.window),
        };
        self.stage = Stage::after(&answer);
        answer
    }

    /// Reads on to the next entry as `next` does, and returns whether there is one. The entry isn't
    /// made, and memory is allocated only for the bytes of its record.
    ///
    /// At an entry, at the end and at a fault the reader is where `next` would have left it. After
    /// an entry the source has given exactly the bytes up to the end of its record, and the bytes
    /// after the record's size were held at once. The two calls can be mixed.
    ///
    /// # Errors
    /// Those of `next`; `OutOfMemory` only if there is no memory for a record.
    ///
    /// Source: MIT krb5, "Keytab file format".
    pub fn pass(&mut self) -> Result<bool, KeytabFault>

        // It is as if `next` had answered, and only whether there is an entry is said of it.
        ensures reads { (bytes : List ℕ) (entries : List KeytabEntry)
            → HasRead (S.remaining self.old.source) self.old bytes entries
            → (answer : Result (Option KeytabEntry) KeytabFault) × (result ≡ passed answer)
            × (piece : List ℕ) × Consumes (S.remaining self.old.source) (S.remaining self.new.source) piece
            × HasRead (S.remaining self.new.source) self.new (bytes ++ piece) (entries_after entries answer) }
        ensures stage { self.new.stage ≡ stage_passed result }

        ensures more { result ≡ Ok true
            → (self.old.given < self.new.given) × (self.new.given ≤ file_limit) }
        ensures limit { self.new.given ≤ file_limit + 1 }
        ensures grows { self.old.held ≤ self.new.held }

        // What was answered last is answered again, and nothing is read.
        ensures again { IfSome (last_answer self.old.stage) (λ answer.
            (result ≡ passed answer) × (self.new ≡ self.old)) }
        ensures failed { S.failure_count self.new.source ≡ counted (S.failure_count self.old.source)
            (if is_some (last_answer self.old.stage) then 0 else failed_reads result) }
        ensures lent { S.lender self.new.source ≡ S.lender self.old.source }
    {
        let answer = match self.stage {
            Stage::End => return Ok(false),
            Stage::Failed(fault) => return Err(fault),
            Stage::Start => pass_first(&mut self.window),
            Stage::Records => pass_entry(&mut self.window),
        };
        self.stage = Stage::after_pass(&answer);
        answer
    }
}

// Reads the version, and then on to the first entry.
fn read_first<F: Feed>(alloc: Global, feed: &mut F) -> Result<Option<Entry>, KeytabFault>
    requires start { (F.hand feed.old).given ≡ 0 }
    ensures meets { MeetsFirst (F.hand feed.old) (F.hand feed.new) result }
    ensures failed { F.failure_count feed.new ≡ counted (F.failure_count feed.old) (failed_reads result) }
    ensures lent { F.lender feed.new ≡ F.lender feed.old }
{
    read_version(feed)?;
    read_entry(alloc, feed)
}

// Reads the version, and then on to the first entry, and returns whether there is one.
fn pass_first<F: Feed>(feed: &mut F) -> Result<bool, KeytabFault>
    requires start { (F.hand feed.old).given ≡ 0 }
    ensures meets { (answer : Result (Option KeytabEntry) KeytabFault) × (result ≡ passed answer)
        × MeetsFirst (F.hand feed.old) (F.hand feed.new) answer }
    ensures failed { F.failure_count feed.new ≡ counted (F.failure_count feed.old) (failed_reads result) }
    ensures lent { F.lender feed.new ≡ F.lender feed.old }
{
    read_version(feed)?;
    pass_entry(feed)
}
