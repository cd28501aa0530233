//! The text that is given to `explain`.

ghost use Rattle.std.specs.Prelude.{◌≡◌, [], IfOk, IfErr, IfSome};
ghost use Rattle.krb_file.specs.Flow.{counted};
ghost use Rattle.krb_file.specs.File.{TakesFile};
ghost use Rattle.krb_file_commands.specs.Engine.{failed_by};
ghost use Rattle.krb_service_command.specs.Explaining.{IsUnread, IsWholeText, explain_reads};
ghost use Rattle.krb_service_command.specs.Inner.Message.{ReadsMessage};

use crate::explain_fault::ExplainFault;
use krb_explain::message_bytes;
use krb_file::{FILE_LIMIT, Source, Window};
use std::alloc::Global;

/// Reads a text from a source, and returns the bytes that it spells.
///
/// # Errors
/// - `TooLong`: the text has more than 16,777,216 bytes.
/// - `Read`: a read of the source failed.
/// - `Text`: that of `message_bytes`, or there is no memory for the text.
pub(crate) fn read_message<S: Source>(
    alloc: Global,
    source: &mut S,
) -> Result<Vec<u8>, ExplainFault>
    ensures { ReadsMessage (S.remaining source.old) (S.remaining source.new)
        (S.failure_count source.old) (S.failure_count source.new) (λ message. message.items) result }
{
    let text = read_text(alloc, source)?;
    let bytes = message_bytes(alloc, &text)?;
    Ok(bytes)
}

// Reads a text from a source, to its end or to one byte past 16,777,216.
fn read_text<S: Source>(alloc: Global, source: &mut S) -> Result<Vec<u8>, ExplainFault>
    ensures text { IfOk result (λ text. IfSome (S.remaining source.old) (λ whole. IsWholeText whole text.items)) }
    ensures unread { IfErr result (IsUnread (S.remaining source.old)) }
    ensures taken { TakesFile (S.remaining source.old) (S.remaining source.new) }
    ensures failed { S.failure_count source.new ≡ counted (S.failure_count source.old) (failed_by explain_reads result) }
{
    let mut window = Window::new(alloc, source);
    let text = window_text(alloc, &mut window);
    let _source = window.into_source();
    text
}

// Reads the text through a window that holds none yet.
fn window_text<S: Source>(alloc: Global, window: &mut Window<S>) -> Result<Vec<u8>, ExplainFault>
    requires start { window.old.given ≡ 0 }
    requires empty { window.old.bytes ≡ [] }
    ensures text { IfOk result (λ text. IfSome (S.remaining window.old.source) (λ whole. IsWholeText whole text.items)) }
    ensures unread { IfErr result (IsUnread (S.remaining window.old.source)) }
    ensures taken { TakesFile (S.remaining window.old.source) (S.remaining window.new.source) }
    ensures failed { S.failure_count window.new.source ≡ counted (S.failure_count window.old.source) (failed_by explain_reads result) }
    ensures lent { S.lender window.new.source ≡ S.lender window.old.source }
{
    if window.fill(FILE_LIMIT + 1)? {
        return Err(ExplainFault::TooLong);
    }
    Ok(Vec::from_slice(alloc, window.bytes())?)
}
