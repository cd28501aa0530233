//! Writing all bytes of a slice.

ghost use Rattle.std.specs.Prelude.{◌≡◌, OnOk, OnErr, is_ok, if◌then◌else◌};
ghost use Rattle.std.specs.Io.KnownBytes.{Appends};
ghost use Rattle.krb_file.specs.Flow.{counted, AppendsPart};

use crate::sink::{Sink, SinkFailed};

/// Writes all of `bytes`, in as many writes as that takes.
///
/// # Errors
/// `SinkFailed` at the first write that fails. The sink then took a beginning of `bytes`, and not
/// all of them.
pub fn write_all<S: Sink>(sink: &mut S, bytes: &[u8]) -> Result<(), SinkFailed>
    ensures ok { OnOk result (Appends (S.taken sink.old) (S.taken sink.new) bytes.now) }
    ensures err { OnErr result (AppendsPart (S.taken sink.old) (S.taken sink.new) bytes.now) }
    ensures failed { S.failure_count sink.new
        ≡ counted (S.failure_count sink.old) (if is_ok result then 0 else 1) }
{
    let mut done = 0;
    while done < bytes.len() {
        done += sink.write(&bytes[done..])?;
    }
    Ok(())
}
