//! What the words of a command ask for: what is made, of which file, and into which it is written.

ghost use Rattle.std.specs.Prelude.{◌≡◌, ◌<◌, ◌^◌, ℕ, IfErr, IfSome, IsSome, IfOk, Option, Some};
ghost use Rattle.krb_file_commands.specs.Words.{Asks, AsksListing, FitsListing, IsNumber};
ghost use Rattle.krb_file_commands.specs.Tasks.{AsksPick, IsUnreadPick, faulty_file, out_of, to_of};
ghost use Rattle.krb_file_commands.specs.declared.listing.CacheListing.{CacheListing};

use crate::etype_words::etype_of;
use crate::fault::AddFault;
use crate::listing::{CacheListing, ListKeytab};
use crate::pick::PickKey;
use crate::remove::RemoveKey;
use crate::service::read_service;
use crate::store::Out;
use krb_command_line::{AddWords, CacheForm, PickWords, RemoveWords};
use krb_name::TextFault;
use std::alloc::Global;

/// The file that a command writes.
#[derive(Clone, Copy)]
pub(crate) enum To<'a> {
    /// The file of this name, which is made or emptied first.
    Emptied(&'a str),
    /// A new file in place of this.
    Replaced(Out<'a>),
}

/// What a command makes, and of which file.
#[derive(Drop)]
pub(crate) struct Task<'a, P> {
    pub(crate) product: P,
    pub(crate) file: &'a str,
}

/// The files of `add-keys`.
#[derive(Clone, Copy)]
pub(crate) struct Addition<'a> {
    /// The keytab.
    pub(crate) keytab: &'a str,
    /// The keytab whose keys are added.
    pub(crate) from: &'a str,
    /// What is written.
    pub(crate) out: Out<'a>,
}

/// Why the words of `pick-key` ask for no key: the first that holds.
#[derive(Clone, Copy)]
pub(crate) enum UnreadPick {
    /// ETYPE isn't an encryption type.
    Etype,
    /// The version number isn't one. The words of the command line were read as one before.
    Version,
    /// NAME isn't a principal's name.
    Name(TextFault),
}

impl<'a> To<'a> {
    /// Where a copy is written: into OUT, which is emptied first, or replaced.
    pub(crate) fn of(out: &'a str, replace: bool) -> To<'a>
        ensures { result ≡ to_of out.entry replace }
    {
        if replace {
            To::Replaced(Out::Named(out))
        } else {
            To::Emptied(out)
        }
    }
}

impl<'a> Addition<'a> {
    /// The file that the fault is of.
    pub(crate) fn faulty(self, fault: &AddFault) -> &'a str
        ensures { result ≡ faulty_file self.entry fault.now }
    {
        match fault {
            AddFault::Keytab(_) => self.keytab,
            AddFault::Added(_) => self.from,
        }
    }
}

/// What `list-keytab` is asked for.
pub(crate) fn keytab_listing_of<'a>(file: &'a str, readable: bool) -> Task<'a, ListKeytab>
    ensures form { result.product.readable ≡ readable }
    ensures file { result.file ≡ file.entry }
{
    Task {
        product: ListKeytab { readable },
        file,
    }
}

/// What `list-ccache` is asked for. `None` if the moment isn't a number. The words of the command line were read as one before.
pub(crate) fn ccache_listing_of<'a>(
    file: &'a str,
    form: CacheForm<'_>,
) -> Option<Task<'a, CacheListing>>
    ensures form { IfSome result (λ task. AsksListing form.entry task.product) }
    ensures file { IfSome result (λ task. task.file ≡ file.entry) }
    ensures all { (listing : CacheListing) → FitsListing listing → AsksListing form.entry listing → IsSome result }
{
    Some(Task {
        product: listing_of(form)?,
        file,
    })
}

fn listing_of(form: CacheForm<'_>) -> Option<CacheListing>
    ensures asked { IfSome result (AsksListing form.entry) }
    ensures all { (listing : CacheListing) → FitsListing listing → AsksListing form.entry listing → result ≡ Some listing }
{
    match form {
        CacheForm::Lines => Some(CacheListing::Lines),
        CacheForm::Table { now } => Some(CacheListing::Table {
            now: moment_of(now)?,
        }),
    }
}

fn moment_of(text: Option<&str>) -> Option<Option<u64>>
    ensures asked { IfSome result (Asks IsNumber text.entry) }
    ensures all { (moment : Option ℕ) → IfSome moment (λ number. number < 2 ^ 64) → Asks IsNumber text.entry moment → result ≡ Some moment }
{
    match text {
        Some(text) => Some(Some(text.parse::<u64>().ok()?)),
        None => Some(None),
    }
}

/// A copy: of FILE into OUT, which is emptied first, or replaced.
pub(crate) fn copy_of<'a, P>(
    product: P,
    file: &'a str,
    out: &'a str,
    replace: bool,
) -> (Task<'a, P>, To<'a>)
    ensures product { result.0.product ≡ product }
    ensures file { result.0.file ≡ file.entry }
    ensures to { result.1 ≡ to_of out.entry replace }
{
    (Task { product, file }, To::of(out, replace))
}

/// What `pick-key` is asked for.
///
/// # Errors
/// Those of `UnreadPick`.
pub(crate) fn pick_of_words<'a>(
    alloc: Global,
    words: PickWords<'a>,
) -> Result<Task<'a, PickKey>, UnreadPick>
    ensures asked { IfOk result (λ task. AsksPick words.entry task.product) }
    ensures file { IfOk result (λ task. task.file ≡ words.entry.keytab) }
    ensures fault { IfErr result (IsUnreadPick words.entry) }
{
    let Some(etype) = etype_of(words.etype) else {
        return Err(UnreadPick::Etype);
    };
    let Some(kvno) = version_of(words.kvno) else {
        return Err(UnreadPick::Version);
    };
    match read_service(alloc, words.name) {
        Ok(name) => Ok(Task {
            product: PickKey { name, etype, kvno },
            file: words.keytab,
        }),
        Err(fault) => Err(UnreadPick::Name(fault)),
    }
}

fn version_of(text: Option<&str>) -> Option<Option<u32>>
    ensures asked { IfSome result (Asks IsNumber text.entry) }
    ensures all { (version : Option ℕ) → IfSome version (λ number. number < 2 ^ 32) → Asks IsNumber text.entry version → result ≡ Some version }
{
    match text {
        Some(text) => Some(Some(text.parse::<u32>().ok()?)),
        None => Some(None),
    }
}

/// What `add-keys` is asked for: the keytab, the one whose keys are added, and what is written.
pub(crate) fn addition_of<'a>(words: AddWords<'a>) -> Addition<'a>
    ensures keytab { result.keytab ≡ words.entry.keytab }
    ensures from { result.from ≡ words.entry.from }
    ensures out { result.out ≡ out_of words.entry.out words.entry.keytab }
{
    Addition {
        keytab: words.keytab,
        from: words.from,
        out: Out::of(words.out, words.keytab),
    }
}

/// What `remove-key` is asked for. `None` if INDEX isn't a number. The words of the command line were read as one before.
pub(crate) fn removal_of<'a>(words: RemoveWords<'a>) -> Option<(Task<'a, RemoveKey>, Out<'a>)>
    ensures asked { IfSome result (λ removal. IsNumber words.entry.index.now removal.0.product.index) }
    ensures file { IfSome result (λ removal. removal.0.file ≡ words.entry.keytab) }
    ensures out { IfSome result (λ removal. removal.1 ≡ out_of words.entry.out words.entry.keytab) }
    ensures all { (index : ℕ) → index < 2 ^ 64 → IsNumber words.entry.index.now index → IsSome result }
{
    let index = index_of(words.index)?;
    let task = Task {
        product: RemoveKey { index },
        file: words.keytab,
    };
    Some((task, Out::of(words.out, words.keytab)))
}

fn index_of(text: &str) -> Option<usize>
    ensures asked { IfSome result (IsNumber text.now) }
    ensures all { (index : ℕ) → index < 2 ^ 64 → IsNumber text.now index → result ≡ Some index }
{
    text.parse::<usize>().ok()
}
