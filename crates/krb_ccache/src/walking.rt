//! Taking as many bytes as a part of a cache has, by its lengths and counts as they come. What the
//! bytes mean doesn't matter here.

ghost use Rattle.std.specs.Prelude.{◌≡◌, ◌+◌, ◌≤◌, ◌<◌, ◌^◌, Bool, true, length, drop, IfOk, OnOk};
ghost use Rattle.std.specs.Int.{w16, from_be_bytes};
ghost use Rattle.krb_file.specs.Flow.{counted};
ghost use Rattle.krb_file.specs.Cursor.{data_at};
ghost use Rattle.krb_file.specs.File.{file_limit};
ghost use Rattle.krb_ccache.specs.Inner.Walking.{Goes, IsTaken, IsWalk, IsWhole, Pass, Same, passed_at, skip_at, and_then, left_at, pass_times, pass_data, stopped_reads};

use krb_file::{FILE_LIMIT, Feed, ReadFault};

/// What is left of the parts that were taken so far.
#[derive(Clone, Copy)]
pub(crate) struct Left {
    /// How many of their bytes are still to be taken.
    pub(crate) skip: usize,
    /// Whether their flags are flags.
    pub(crate) good: bool,
}

impl Left {
    /// Before the first part.
    pub(crate) fn none() -> Left
        ensures { result ≡ record { skip = 0; good = true } }
    {
        Left {
            skip: 0,
            good: true,
        }
    }
}

/// Why the bytes of a part weren't taken.
#[derive(Clone, Copy)]
pub(crate) enum TakeFault {
    /// There are no more.
    End,
    /// They would pass the limit of a file, or aren't those of a part.
    Long,
    /// A read failed.
    Read,
    /// There is no memory for them.
    OutOfMemory,
}

/// Takes the next `count` bytes of a file, and holds them after the others.
#[tactic(auto, using(crate::proofs::WalkEnds::nothing_comes))]
pub(crate) fn take<T: Feed>(feed: &mut T, count: usize) -> Result<(), TakeFault>
    requires within { (T.hand feed.old).given ≤ file_limit }
    ensures taken { IsTaken T.allocates count (T.hand feed.old) (T.hand feed.new) result }
    ensures count { OnOk result (length (T.hand feed.new).bytes ≡ length (T.hand feed.old).bytes + count) }
    ensures failed { T.failure_count feed.new ≡ counted (T.failure_count feed.old) (stopped_reads result) }
    ensures lent { T.lender feed.new ≡ T.lender feed.old }
{
    let _held = feed.bytes();
    if count > FILE_LIMIT - feed.given() {
        return Err(TakeFault::Long);
    }
    match feed.fill(count) {
        Ok(true) => Ok(()),
        Ok(false) => Err(TakeFault::End),
        Err(ReadFault::Read) => Err(TakeFault::Read),
        Err(ReadFault::OutOfMemory) => Err(TakeFault::OutOfMemory),
    }
}

/// Takes `skip` bytes and `N` more, and returns these `N`.
pub(crate) fn take_last<const N: usize, T: Feed>(
    feed: &mut T,
    skip: usize,
) -> Result<[u8; N], TakeFault>
    requires few { skip + N < 2 ^ 64 }
    requires within { (T.hand feed.old).given ≤ file_limit }
    ensures taken { IsTaken T.allocates (skip + N) (T.hand feed.old) (T.hand feed.new) result }
    ensures last { IfOk result (λ last. last ≡ drop (length (T.hand feed.old).bytes + skip) (T.hand feed.new).bytes) }
    ensures failed { T.failure_count feed.new ≡ counted (T.failure_count feed.old) (stopped_reads result) }
    ensures lent { T.lender feed.new ≡ T.lender feed.old }
{
    take(feed, skip + N)?;
    let taken = feed.bytes();
    let mut last = [0; N];
    last.copy_from_slice(&taken[taken.len() - N..]);
    Ok(last)
}

/// Takes `skip` bytes, and then `count` times a gap of bytes, and bytes after their length. The last
/// bytes are left.
#[tactic(auto, using(crate::proofs::WalkLaws::front_none, crate::proofs::WalkLaws::front_more, crate::proofs::WalkLaws::front_all))]
pub(crate) fn take_many<T: Feed>(
    feed: &mut T,
    skip: u32,
    gap: usize,
    count: u32,
    good: bool,
) -> Result<Left, TakeFault>
    requires few { gap < 2 ^ 32 }
    requires within { (T.hand feed.old).given ≤ file_limit }
    ensures few { IfOk result (λ left. left.skip < 2 ^ 32) }
    ensures good { IfOk result (λ left. left.good ≡ good) }
    ensures walk { IsWalk (and_then (skip_at skip) (pass_times count (pass_data gap))) (λ left. skip_at left.skip)
        T.allocates (T.hand feed.old) (T.hand feed.new) result }
    ensures failed { T.failure_count feed.new ≡ counted (T.failure_count feed.old) (stopped_reads result) }
    ensures lent { T.lender feed.new ≡ T.lender feed.old }
{
    let _held = feed.bytes();
    let mut last = skip;
    for _ in 0..count {
        last = u32::from_be_bytes(take_last(feed, last as usize + gap)?);
    }
    Ok(Left {
        skip: last as usize,
        good,
    })
}

/// Leaves a part of `size` bytes, to be taken together with what comes after it.
pub(crate) fn leave<T: Feed>(feed: &T, left: Left, size: usize) -> Left
    requires few { left.skip + size < 2 ^ 64 }
    requires within { (T.hand feed.now).given ≤ file_limit }
    ensures few { result.skip ≡ left.skip + size }
    ensures walk { (pass : Pass) → Same pass (skip_at size) → (strict : Bool)
        → Goes (and_then (left_at strict left) pass) (left_at strict result) (T.hand feed.now) (T.hand feed.now) }
{
    let _held = feed.bytes();
    Left {
        skip: left.skip + size,
        ..left
    }
}

/// Takes all bytes of a header.
#[tactic(auto, using(crate::proofs::WalkParts::data_then, crate::proofs::WalkParts::data_first))]
pub(crate) fn take_header<T: Feed>(feed: &mut T) -> Result<(), TakeFault>
    requires within { (T.hand feed.old).given ≤ file_limit }
    ensures walk { IsWhole (passed_at (data_at w16)) T.allocates (T.hand feed.old) (T.hand feed.new) result }
    ensures failed { T.failure_count feed.new ≡ counted (T.failure_count feed.old) (stopped_reads result) }
    ensures lent { T.lender feed.new ≡ T.lender feed.old }
{
    let count = u16::from_be_bytes(take_last(feed, 0)?);
    take(feed, usize::from(count))
}
