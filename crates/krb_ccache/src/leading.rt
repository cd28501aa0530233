//! What comes before the credentials of a file: how the bytes of each part are taken, and what they
//! are.

ghost use Rattle.std.specs.Prelude.{◌≡◌, ◌≤◌, ℕ, List, [], IfOk, IfErr, OnOk, OnErr, MatchBool, Err};
ghost use Rattle.krb_file.specs.Flow.{counted};
ghost use Rattle.krb_file.specs.Field.{IsBytes};
ghost use Rattle.krb_file.specs.File.{file_limit};
ghost use Rattle.krb_ccache.specs.Types.{Principal as PrincipalValue, HeaderField as HeaderFieldValue, Layout as LayoutValue};
ghost use Rattle.krb_ccache.specs.Format.{version_of, head_bytes, FitsHead};
ghost use Rattle.krb_ccache.specs.Spelling.{header_bytes, name_bytes};
ghost use Rattle.krb_ccache.specs.Value.{FitsHeader, FitsName};
ghost use Rattle.krb_ccache.specs.Inner.Standing.{Lies, IsMissing};
ghost use Rattle.krb_ccache.specs.Inner.Stepping.{Any, Stands};
ghost use Rattle.krb_ccache.specs.Inner.Walking.{Walks, Halts, stopped_reads};

use crate::credential::HeaderField;
use crate::field::{Field, take_all};
use crate::header::{check_header, read_header};
use crate::item_fault::ItemFault;
use crate::layout::{Layout, read_layout};
use crate::walking::{TakeFault, take, take_header};
use krb_file::{Feed, FileCursor, Short};
use krb_name::Principal;
use std::alloc::Global;

/// A part of a file that comes before its credentials.
pub(crate) trait Leading: Sized {
    /// The value that it has in a contract.
    ghost Raw: { Type 0 };

    /// That of a part in memory.
    ghost raw: { Self → Raw };

    /// How it is spelled.
    ghost spelled: { LayoutValue → Raw → List ℕ };

    /// Whether it can be spelled.
    ghost InRange: { LayoutValue → Raw → Type 0 };

    /// Takes as many bytes as it has, and returns whether they are such a part.
    fn take<F: Feed>(layout: Layout, feed: &mut F) -> Result<bool, TakeFault>
        requires within { (F.hand feed.old).given ≤ file_limit }
        requires none { (F.hand feed.old).bytes ≡ [] }
        ensures walks { OnOk result (Walks (spelled layout) (InRange layout) (F.hand feed.old) (F.hand feed.new)) }
        ensures there { IfOk result (λ there. MatchBool there
            ((part : Raw) × Stands (spelled layout) (InRange layout) (F.hand feed.new).bytes part)
            (IsMissing (spelled layout) (InRange layout) (F.hand feed.new).bytes)) }
        ensures halts { IfErr result (Halts (spelled layout) (InRange layout) F.allocates (F.hand feed.old) (F.hand feed.new)) }
        ensures failed { F.failure_count feed.new ≡ counted (F.failure_count feed.old) (stopped_reads result) }
        ensures lent { F.lender feed.new ≡ F.lender feed.old };

    /// Reads the part that begins here, and moves past it. On an error the position is unspecified.
    fn read(alloc: Global, layout: Layout, cursor: &mut FileCursor<'_>) -> Result<Self, ItemFault>
        requires { IsBytes cursor.old.rest }
        ensures read { IfOk result (λ part.
            Lies (spelled layout) (InRange layout) cursor.old (raw part) cursor.new) }
        ensures missing { result ≡ Err ItemFault.Missing
            → IsMissing (spelled layout) (InRange layout) cursor.old.rest };
}

/// States that each byte is one, which a proof knows when it is passed them.
pub(crate) fn are_bytes(bytes: &[u8])
    ensures { IsBytes bytes.now }
{}

impl Leading for Layout {
    ghost Raw = { LayoutValue };

    ghost raw = { λ version. version };

    ghost spelled = { λ _. version_of };

    ghost InRange = { λ _. Any };

    fn take<F: Feed>(_: Layout, feed: &mut F) -> Result<bool, TakeFault> {
        take(feed, 2)?;
        let bytes = feed.bytes();
        are_bytes(bytes);
        let mut cursor = FileCursor::new(bytes);
        Ok(check_version(&mut cursor).is_ok())
    }

    fn read(_: Global, _: Layout, cursor: &mut FileCursor<'_>) -> Result<Layout, ItemFault> {
        Ok(read_layout(cursor)?)
    }
}

// Moves past the version that begins here.
fn check_version(cursor: &mut FileCursor<'_>) -> Result<(), Short>
    requires { IsBytes cursor.old.rest }
    ensures ok { OnOk result ((layout : LayoutValue) × Lies version_of Any cursor.old layout cursor.new) }
    ensures missing { OnErr result (IsMissing version_of Any cursor.old.rest) }
{
    read_layout(cursor)?;
    Ok(())
}

impl Leading for Vec<HeaderField> {
    ghost Raw = { List HeaderFieldValue };

    ghost raw = { λ header. header.items };

    ghost spelled = { head_bytes };

    ghost InRange = { FitsHead };

    #[tactic(auto, using(crate::proofs::WalkEnds::no_header_walks, crate::proofs::WalkEnds::no_header_stands))]
    fn take<F: Feed>(layout: Layout, feed: &mut F) -> Result<bool, TakeFault> {
        match layout {
            Layout::Version3 => Ok(true),
            Layout::Version4 => header_taken(feed),
        }
    }

    fn read(
        alloc: Global,
        layout: Layout,
        cursor: &mut FileCursor<'_>,
    ) -> Result<Vec<HeaderField>, ItemFault> {
        match layout {
            Layout::Version3 => Ok(Vec::new(alloc)),
            Layout::Version4 => read_header(alloc, cursor),
        }
    }
}

// Takes a header, and returns whether it is one.
fn header_taken<F: Feed>(feed: &mut F) -> Result<bool, TakeFault>
    requires within { (F.hand feed.old).given ≤ file_limit }
    requires none { (F.hand feed.old).bytes ≡ [] }
    ensures walks { OnOk result (Walks header_bytes FitsHeader (F.hand feed.old) (F.hand feed.new)) }
    ensures there { IfOk result (λ there. MatchBool there
        ((header : List HeaderFieldValue) × Stands header_bytes FitsHeader (F.hand feed.new).bytes header)
        (IsMissing header_bytes FitsHeader (F.hand feed.new).bytes)) }
    ensures halts { IfErr result (Halts header_bytes FitsHeader F.allocates (F.hand feed.old) (F.hand feed.new)) }
    ensures failed { F.failure_count feed.new ≡ counted (F.failure_count feed.old) (stopped_reads result) }
    ensures lent { F.lender feed.new ≡ F.lender feed.old }
{
    take_header(feed)?;
    let bytes = feed.bytes();
    are_bytes(bytes);
    let mut cursor = FileCursor::new(bytes);
    Ok(check_header(&mut cursor).is_ok())
}

impl Leading for Principal {
    ghost Raw = { PrincipalValue };

    ghost raw = { λ name. name };

    ghost spelled = { λ _. name_bytes };

    ghost InRange = { λ _. FitsName };

    fn take<F: Feed>(layout: Layout, feed: &mut F) -> Result<bool, TakeFault> {
        let there = take_all::<Principal, _>(layout, feed)?;
        are_bytes(feed.bytes());
        Ok(there)
    }

    fn read(
        alloc: Global,
        layout: Layout,
        cursor: &mut FileCursor<'_>,
    ) -> Result<Principal, ItemFault> {
        <Principal as Field>::read(alloc, layout, cursor)
    }
}
