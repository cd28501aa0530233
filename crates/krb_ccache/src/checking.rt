//! Whether the bytes of a file are a cache. Allocates no memory, so no fault is hidden by the lack
//! of it.

ghost use Rattle.std.specs.Prelude.{◌≤◌, OnOk, IfErr, IfOk, length};
ghost use Rattle.krb_ccache.specs.Value.{Cache};
ghost use Rattle.krb_ccache.specs.Format.{IsCache, IsFaultOf};

use crate::fault::CacheFault;
use crate::stepping::{pass_start, step_past};
use krb_file::{FILE_LIMIT, Slice};

/// Returns how many credentials the bytes have, if they are a cache.
///
/// # Errors
/// Those of `CCache::parse` except `OutOfMemory`.
pub(crate) fn check(bytes: &[u8]) -> Result<usize, CacheFault>
    ensures ok { OnOk result ((cache : Cache) × IsCache bytes.now cache) }
    ensures count { IfOk result (λ count. count ≤ length bytes.now) }
    ensures fault { IfErr result (IsFaultOf bytes.now) }
{
    if bytes.len() > FILE_LIMIT {
        return Err(CacheFault::TooLong);
    }
    let mut slice = Slice::new(bytes);
    let layout = pass_start(&mut slice)?;
    let mut count: usize = 0;
    while step_past(layout, &mut slice)? {
        count += 1;
    }
    Ok(count)
}
