//! Reading the parts of a cache from a source, one at a time.

ghost use Rattle.std.specs.Prelude.{All, Option, ℕ, List, [], length, max, ◌≡◌, ◌≢◌, ◌⊎◌, ◌≤◌, IfOk, IfErr, OnOk, OnErr, Result, Err};
ghost use Rattle.krb_file.specs.Flow.{counted};
ghost use Rattle.krb_ccache.specs.Fault.{failed_reads};
ghost use Rattle.krb_file.specs.File.{file_limit, GivesWithin};
ghost use Rattle.krb_ccache.specs.Format.{version_of, head_bytes, Spelled, Spells};
ghost use Rattle.krb_ccache.specs.Reader.{HasTaken, HeldPart, GaveCache, GaveFault, passed};
ghost use Rattle.krb_ccache.specs.Spelling.{name_bytes};
ghost use Rattle.krb_ccache.specs.Value.{cache_of, FitsHeader, FitsName, FitsCredential};
ghost use Rattle.krb_ccache.specs.Types.{Principal as PrincipalValue, Credential as CredentialValue, HeaderField as HeaderFieldValue, Layout as LayoutValue, CacheFault as CacheFaultValue, BadItem};
ghost use Rattle.krb_ccache.specs.Inner.Standing.{bytes_of};
ghost use Rattle.krb_ccache.specs.Inner.Walking.{stop_reads};
ghost use Rattle.krb_ccache.specs.Inner.Stepping.{Any, Stands, Comes, IsPassed, IsTold, IsNone, Misses, IsStep, IsAtHand};

use crate::credential::{Credential, HeaderField, Row};
use crate::fault::CacheFault;
use crate::field::{Field, take_all};
use crate::item_fault::ItemFault;
use crate::layout::{Layout, read_layout};
use crate::leading::{Leading, are_bytes};
use crate::walking::TakeFault;
use krb_file::{FILE_LIMIT, Feed, FileCursor};
use krb_name::{NamedListBuilder, Principal};
use std::alloc::{AllocError, Global};

/// What comes before the credentials of a file.
#[derive(Drop)]
pub(crate) struct Start {
    /// How the file is laid out.
    pub(crate) layout: Layout,
    /// The fields of its header.
    pub(crate) header: Vec<HeaderField>,
    /// Its default principal.
    pub(crate) default_principal: Principal,
}

// Makes the credential that is at the front of the bytes.
fn credential_of(alloc: Global, layout: Layout, bytes: &[u8]) -> Result<Credential, AllocError>
    requires { (one : Spelled) × Stands bytes_of (Spells layout) bytes.now one }
    ensures { (one : Spelled) → Stands bytes_of (Spells layout) bytes.now one
        → IfOk result (λ made. made ≡ one.credential) }
{
    let mut cursor = FileCursor::new(bytes);
    match Row::read(alloc, layout, &mut cursor) {
        Ok(row) => Ok(Credential::from_row(row)),
        Err(ItemFault::Missing) => unreachable!(),
        Err(ItemFault::OutOfMemory) => Err(AllocError),
    }
}

// Answers the fault of a part that didn't come, when the source was read out, or TooLong in its place.
fn told<F: Feed>(feed: &mut F, stop: TakeFault, fault: CacheFault) -> CacheFault
    requires within { (F.hand feed.old).given ≤ file_limit }
    requires content { failed_reads {T = Unit {0}} (Err fault) ≡ 0 }
    ensures told { IsTold (F.hand feed.old) (F.hand feed.new) stop fault result }
    ensures memory { result ≡ CacheFault.OutOfMemory
        → (fault ≡ CacheFault.OutOfMemory) ⊎ (stop ≡ TakeFault.OutOfMemory) }
    ensures failed { (before : ℕ) → F.failure_count feed.old ≡ counted before (stop_reads stop)
        → F.failure_count feed.new ≡ counted before (failed_reads {T = Unit {0}} (Err result)) }
    ensures lent { F.lender feed.new ≡ F.lender feed.old }
{
    match stop {
        TakeFault::End => fault,
        TakeFault::Long => match feed.skip(FILE_LIMIT + 1 - feed.given()) {
            Ok(false) => fault,
            Ok(true) => CacheFault::TooLong,
            Err(_) => CacheFault::Read,
        },
        TakeFault::Read => CacheFault::Read,
        TakeFault::OutOfMemory => CacheFault::OutOfMemory,
    }
}

// Takes the bytes of a part, and no more; or reads the source to its end and returns why there is
// none: the fault, or TooLong in its place.
fn pass<L: Leading, F: Feed>(
    layout: Layout,
    feed: &mut F,
    fault: CacheFault,
) -> Result<(), CacheFault>
    requires within { (F.hand feed.old).given ≤ file_limit }
    requires content { failed_reads {T = Unit {0}} (Err fault) ≡ 0 }
    requires named { fault ≢ CacheFault.OutOfMemory }
    ensures passed { OnOk result (IsPassed (L.spelled layout) (L.InRange layout) (F.hand feed.old) (F.hand feed.new)) }
    ensures misses { IfErr result (Misses (L.spelled layout) (L.InRange layout) (F.hand feed.old) (F.hand feed.new) fault) }
    ensures memory { result ≡ Err CacheFault.OutOfMemory → F.allocates }
    ensures failed { F.failure_count feed.new ≡ counted (F.failure_count feed.old) (failed_reads result) }
    ensures lent { F.lender feed.new ≡ F.lender feed.old }
{
    feed.clear();
    match L::take(layout, feed) {
        Ok(true) => Ok(()),
        Ok(false) => Err(told(feed, TakeFault::Long, fault)),
        Err(stop) => Err(told(feed, stop, fault)),
    }
}

// Makes the part that is at the front of the bytes.
fn made<L: Leading>(alloc: Global, layout: Layout, bytes: &[u8]) -> Result<L, AllocError>
    requires { (part : L.Raw) × Stands (L.spelled layout) (L.InRange layout) bytes.now part }
    ensures { IfOk result (λ made. Stands (L.spelled layout) (L.InRange layout) bytes.now (L.raw made)) }
{
    let mut cursor = FileCursor::new(bytes);
    match L::read(alloc, layout, &mut cursor) {
        Ok(part) => Ok(part),
        Err(ItemFault::Missing) => unreachable!(),
        Err(ItemFault::OutOfMemory) => Err(AllocError),
    }
}

// Takes the bytes of a part as `pass` does, and makes it.
#[tactic(auto, using(crate::proofs::StepLaws::not_kept))]
fn come<L: Leading, F: Feed>(
    alloc: Global,
    layout: Layout,
    feed: &mut F,
    fault: CacheFault,
) -> Result<L, CacheFault>
    requires within { (F.hand feed.old).given ≤ file_limit }
    requires content { failed_reads {T = Unit {0}} (Err fault) ≡ 0 }
    requires named { fault ≢ CacheFault.OutOfMemory }
    ensures comes { IfOk result (λ part.
        Comes (L.spelled layout) (L.InRange layout) (F.hand feed.old) (F.hand feed.new) (L.raw part)) }
    ensures misses { IfErr result (Misses (L.spelled layout) (L.InRange layout) (F.hand feed.old) (F.hand feed.new) fault) }
    ensures failed { F.failure_count feed.new ≡ counted (F.failure_count feed.old) (failed_reads result) }
    ensures lent { F.lender feed.new ≡ F.lender feed.old }
{
    pass::<L, F>(layout, feed, fault)?;
    Ok(made(alloc, layout, feed.bytes())?)
}

/// Reads the version, the header and the default principal.
#[tactic(auto, using(crate::proofs::StepLaws::misses_gives, crate::proofs::ReaderLaws::begun, crate::proofs::ReaderLaws::begun_peak, crate::proofs::LayoutLaws::head_fits))]
pub(crate) fn begin<F: Feed>(alloc: Global, feed: &mut F) -> Result<Start, CacheFault>
    requires start { (F.hand feed.old).given ≡ 0 }
    ensures taken { IfOk result (λ begun. HasTaken begun.layout (F.hand feed.old).source
        (F.hand feed.new).source (F.hand feed.new).given (cache_of begun.header.items begun.default_principal [])) }
    ensures peak { IfOk result (λ begun. (F.hand feed.new).peak ≡ max (F.hand feed.old).peak
        (max (length (head_bytes begun.layout begun.header.items)) (length (name_bytes begun.default_principal)))) }
    ensures within { OnOk result ((F.hand feed.new).given ≤ file_limit) }
    ensures fits { IfOk result (λ begun.
        FitsHeader begun.header.items × FitsName begun.default_principal) }
    ensures limit { OnOk result ((F.hand feed.old).peak ≤ file_limit → (F.hand feed.new).peak ≤ file_limit) }
    ensures fault { IfErr result (GaveFault (F.hand feed.old).source (F.hand feed.new).source) }
    ensures gave { GivesWithin (F.hand feed.old).source (F.hand feed.new).source
        (F.hand feed.old).given (F.hand feed.new).given }
    ensures failed { F.failure_count feed.new
        ≡ counted (F.failure_count feed.old) (failed_reads result) }
    ensures lent { F.lender feed.new ≡ F.lender feed.old }
{
    // The layout isn't known yet. The version is read in the same way in both, so either can be
    // passed.
    let layout = come(alloc, Layout::Version4, feed, CacheFault::Version)?;
    let header = come(alloc, layout, feed, CacheFault::Header)?;
    let at = feed.given();
    let default_principal = come(alloc, layout, feed, CacheFault::BadItem { at })?;
    Ok(Start {
        layout,
        header,
        default_principal,
    })
}

/// Passes over the version, the header and the default principal.
pub(crate) fn pass_start<F: Feed>(feed: &mut F) -> Result<Layout, CacheFault>
    requires start { (F.hand feed.old).given ≡ 0 }
    ensures taken { IfOk result (λ layout. (header : List HeaderFieldValue) × (name : PrincipalValue) × HasTaken layout
        (F.hand feed.old).source (F.hand feed.new).source (F.hand feed.new).given (cache_of header name [])) }
    ensures within { OnOk result ((F.hand feed.new).given ≤ file_limit) }
    ensures fault { IfErr result (GaveFault (F.hand feed.old).source (F.hand feed.new).source) }
    ensures memory { result ≡ Err CacheFault.OutOfMemory → F.allocates }
    ensures failed { F.failure_count feed.new ≡ counted (F.failure_count feed.old) (failed_reads result) }
{
    pass::<Layout, F>(Layout::Version4, feed, CacheFault::Version)?;
    let layout = version_in(feed.bytes());
    pass::<Vec<HeaderField>, F>(layout, feed, CacheFault::Header)?;
    let at = feed.given();
    pass::<Principal, F>(layout, feed, CacheFault::BadItem { at })?;
    Ok(layout)
}

// The version that is at the front of the bytes.
fn version_in(bytes: &[u8]) -> Layout
    requires { (layout : LayoutValue) × Stands version_of Any bytes.now layout }
    ensures { Stands version_of Any bytes.now result }
{
    let mut cursor = FileCursor::new(bytes);
    let Ok(layout) = read_layout(&mut cursor) else {
        unreachable!()
    };
    layout
}

/// Reads the next credential, or finds that the source is at its end.
#[tactic(auto, using(crate::proofs::StepLaws::not_made))]
pub(crate) fn step<F: Feed>(
    alloc: Global,
    layout: Layout,
    feed: &mut F,
) -> Result<Option<Credential>, CacheFault>
    requires within { (F.hand feed.old).given ≤ file_limit }
    ensures step { IsStep layout (F.hand feed.old) (F.hand feed.new) result }
    ensures part { OnErr result (HeldPart layout (F.hand feed.old).source (F.hand feed.new).source
        (F.hand feed.old).peak (F.hand feed.new).peak) }
    ensures failed { F.failure_count feed.new
        ≡ counted (F.failure_count feed.old) (failed_reads result) }
    ensures lent { F.lender feed.new ≡ F.lender feed.old }
{
    if step_past(layout, feed)? {
        Ok(Some(credential_of(alloc, layout, feed.bytes())?))
    } else {
        Ok(None)
    }
}

/// Reads the bytes of the next credential into the buffer, and returns whether there is one. There
/// is none if the source is at its end.
pub(crate) fn step_past<F: Feed>(layout: Layout, feed: &mut F) -> Result<bool, CacheFault>
    requires within { (F.hand feed.old).given ≤ file_limit }
    ensures step { (answer : Result (Option CredentialValue) CacheFault) × (result ≡ passed answer)
        × IsStep layout (F.hand feed.old) (F.hand feed.new) answer × IsAtHand layout (F.hand feed.new).bytes answer }
    ensures memory { result ≡ Err CacheFault.OutOfMemory → F.allocates }
    ensures part { HeldPart layout (F.hand feed.old).source (F.hand feed.new).source
        (F.hand feed.old).peak (F.hand feed.new).peak }
    ensures failed { F.failure_count feed.new
        ≡ counted (F.failure_count feed.old) (failed_reads result) }
    ensures lent { F.lender feed.new ≡ F.lender feed.old }
{
    let at = feed.given();
    feed.clear();
    match take_all::<Row, _>(layout, feed) {
        Ok(good) => {
            are_bytes(feed.bytes());
            if good {
                Ok(true)
            } else {
                none_past(feed, TakeFault::Long, at)
            }
        }
        Err(stop) => none_past(feed, stop, at),
    }
}

// Answers that no credential came at an offset: the credentials have ended if no byte is there. Else
// a fault.
fn none_past<F: Feed>(feed: &mut F, stop: TakeFault, at: usize) -> Result<bool, CacheFault>
    requires within { (F.hand feed.old).given ≤ file_limit }
    ensures none { (told : CacheFaultValue) × IsTold (F.hand feed.old) (F.hand feed.new) stop (BadItem at) told
        × IsNone at (F.hand feed.new).given told result }
    ensures memory { result ≡ Err CacheFault.OutOfMemory → stop ≡ TakeFault.OutOfMemory }
    ensures failed { (before : ℕ) → F.failure_count feed.old ≡ counted before (stop_reads stop)
        → F.failure_count feed.new ≡ counted before (failed_reads result) }
    ensures lent { F.lender feed.new ≡ F.lender feed.old }
{
    let fault = told(feed, stop, CacheFault::BadItem { at });
    if fault == (CacheFault::BadItem { at }) && feed.given() == at {
        Ok(false)
    } else {
        Err(fault)
    }
}

/// Reads the credentials to the end of the source. Allocates memory for so many of them at once, and
/// for others as they are read.
#[tactic(auto, using(crate::proofs::StepLaws::gives_step))]
pub(crate) fn steps<F: Feed>(
    alloc: Global,
    layout: Layout,
    feed: &mut F,
    expected: usize,
) -> Result<NamedListBuilder<Credential>, CacheFault>
    requires within { (F.hand feed.old).given ≤ file_limit }
    ensures end { IfOk result (λ credentials.
        (from : Option (List ℕ)) (header : List HeaderFieldValue) (name : PrincipalValue)
        → HasTaken layout from (F.hand feed.old).source (F.hand feed.old).given (cache_of header name [])
        → GaveCache from (F.hand feed.new).source (cache_of header name credentials)) }
    ensures fits { IfOk result (λ credentials. All FitsCredential credentials) }
    ensures fault { IfErr result (λ fault.
        (from : Option (List ℕ)) (header : List HeaderFieldValue) (name : PrincipalValue)
        → HasTaken layout from (F.hand feed.old).source (F.hand feed.old).given (cache_of header name [])
        → GaveFault from (F.hand feed.new).source fault) }
    ensures gave { GivesWithin (F.hand feed.old).source (F.hand feed.new).source
        (F.hand feed.old).given (F.hand feed.new).given }
    ensures failed { F.failure_count feed.new
        ≡ counted (F.failure_count feed.old) (failed_reads result) }
    ensures lent { F.lender feed.new ≡ F.lender feed.old }
{
    let mut credentials = NamedListBuilder::with_room(alloc, expected)?;
    while let Some(credential) = step(alloc, layout, feed)? {
        credentials.push(credential)?;
    }
    Ok(credentials)
}
