//! Whether a service that has seen nothing accepts a request, or the first cause for refusing it.

ghost use Rattle.std.specs.Prelude.{◌≡◌, ◌≢◌, Some, IfOk};
ghost use Rattle.krb_ap.specs.declared.refusal.Refusal.TheVariants.{OutOfMemory};
ghost use Rattle.krb_explain_keys.specs.Keyed.{IsVerdict, new_service};

use crate::sight::Clock;
use krb_ap::{Acceptor, Refusal};
use krb_keytab::Keytab;
use krb_replay::TimedMemory;
use std::alloc::{AllocError, Global};

/// The first cause for refusing a request, as an acceptor of `krb_ap` reports it that has seen nothing. `None` if it accepts it.
pub(crate) fn verdict(
    alloc: Global,
    bytes: &[u8],
    keytab: Keytab,
    clock: Clock,
) -> Result<Option<Refusal>, AllocError>
    ensures { IfOk result (IsVerdict (new_service keytab clock.skew) clock.now bytes.now) }
{
    let mut acceptor = Acceptor::new(keytab, clock.skew, TimedMemory::new(alloc));
    match acceptor.accept(alloc, bytes, clock.now) {
        Ok(_) => Ok(None),
        Err(refusal) => named(refusal),
    }
}

// The cause, unless memory ran out.
fn named(refusal: Refusal) -> Result<Option<Refusal>, AllocError>
    ensures { IfOk result (λ cause. (cause ≡ Some refusal) × (refusal ≢ OutOfMemory)) }
{
    match refusal {
        Refusal::OutOfMemory => Err(AllocError),
        _ => Ok(Some(refusal)),
    }
}
