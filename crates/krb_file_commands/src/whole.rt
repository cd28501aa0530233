//! The bytes of a whole keytab.

ghost use Rattle.std.specs.Prelude.{◌≡◌, ◌⊎◌, [], IfOk, IfErr, IfSome};
ghost use Rattle.krb_file.specs.Flow.{counted};
ghost use Rattle.krb_file.specs.File.{TakesFile};
ghost use Rattle.krb_file_commands.specs.Engine.{failed_by};
ghost use Rattle.krb_file_commands.specs.Inner.Whole.{HoldsFile};
ghost use Rattle.krb_file_commands.specs.Status.{keytab_reads};

use krb_file::{FILE_LIMIT, Source, Window};
use krb_keytab::KeytabFault;
use std::alloc::Global;

/// Reads the bytes of a keytab from a source, to its end or to one byte past 16,777,216.
///
/// # Errors
/// - `Read`: a read of the source failed.
/// - `OutOfMemory`: there is no memory for the bytes.
pub(crate) fn read_bytes<S: Source>(alloc: Global, source: &mut S) -> Result<Vec<u8>, KeytabFault>
    ensures bytes { IfOk result (λ bytes.
        IfSome (S.remaining source.old) (λ whole. HoldsFile whole bytes.items)) }
    ensures which { IfErr result (λ fault.
        (fault ≡ KeytabFault.OutOfMemory) ⊎ (fault ≡ KeytabFault.Read)) }
    ensures taken { TakesFile (S.remaining source.old) (S.remaining source.new) }
    ensures failed { S.failure_count source.new
        ≡ counted (S.failure_count source.old) (failed_by keytab_reads result) }
{
    let mut window = Window::new(alloc, source);
    let bytes = window_bytes(alloc, &mut window);
    let _source = window.into_source();
    bytes
}

// Reads the bytes through a window that holds none yet.
fn window_bytes<S: Source>(alloc: Global, window: &mut Window<S>) -> Result<Vec<u8>, KeytabFault>
    requires start { window.old.given ≡ 0 }
    requires empty { window.old.bytes ≡ [] }
    ensures bytes { IfOk result (λ bytes.
        IfSome (S.remaining window.old.source) (λ whole. HoldsFile whole bytes.items)) }
    ensures which { IfErr result (λ fault.
        (fault ≡ KeytabFault.OutOfMemory) ⊎ (fault ≡ KeytabFault.Read)) }
    ensures taken { TakesFile (S.remaining window.old.source) (S.remaining window.new.source) }
    ensures failed { S.failure_count window.new.source
        ≡ counted (S.failure_count window.old.source) (failed_by keytab_reads result) }
    ensures lent { S.lender window.new.source ≡ S.lender window.old.source }
{
    window.fill(FILE_LIMIT + 1)?;
    Ok(Vec::from_slice(alloc, window.bytes())?)
}
