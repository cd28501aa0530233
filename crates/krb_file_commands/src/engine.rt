//! The engine of the commands that write what they make of a file: it makes the bytes, and then writes them.

ghost use Rattle.std.specs.Prelude.{◌≡◌, ◌≢◌, ⊤, ℕ, List, Option, Some, Err, IfOk, IfSome, length};
ghost use Rattle.std.specs.Io.KnownBytes.{Appends, Keeps};
ghost use Rattle.krb_file.specs.File.{TakesFile};
ghost use Rattle.krb_file.specs.Flow.{counted, AppendsPart};
ghost use Rattle.krb_file_commands.specs.Engine.{IfUnmade, IsUnmade, Makes, failed_reads, failed_writes};

use crate::failure::Failure;
use krb_file::{Sink, Source, write_all};
use std::alloc::Global;

/// Why a command ended early.
#[derive(Clone, Copy)]
pub enum Ended<E> {
    /// Nothing was made, for this reason.
    Unmade(E),
    /// The sink failed.
    Write,
}

/// What a command makes of the file that it reads.
pub trait Product {
    /// Why it makes nothing.
    type Fault: Failure;

    // These bytes are made of a source that had these to come, if they are known.
    ghost makes: { Self → Option (List ℕ) → List ℕ → Type 0 };

    // Why nothing is made of a file with these bytes.
    ghost faults: { Self → List ℕ → Self.Fault → Type 0 };

    // What else holds if nothing is made for this reason.
    ghost allows: { Self → Option (List ℕ) → Self.Fault → Type 0 } = { λ _ _ _. ⊤ };

    // How many reads of the file failed, if nothing is made for this reason.
    ghost failed_reads: { Self.Fault → ℕ };

    /// Reads a file to its end, or to one byte past 16,777,216, and returns what is made of it.
    fn make<S: Source>(&self, alloc: Global, source: &mut S) -> Result<Vec<u8>, Self::Fault>
        ensures { Makes (λ made. makes self.now (S.remaining source.old) made.items) (faults self.now)
            (allows self.now (S.remaining source.old)) Self.Fault.exit_status failed_reads (S.remaining source.old)
            (S.remaining source.new) (S.failure_count source.old) (S.failure_count source.new) result };
}

/// Makes what a command makes of a file, writes it, and returns how many bytes it has.
///
/// The whole source is read, and everything made, before a byte is written.
///
/// # Errors
/// - `Unmade`: nothing was made, and nothing written. A fault with another exit status than 3 is one that the file has.
/// - `Write`: the sink failed; it took a beginning of the bytes.
pub fn produce<P: Product, S: Source, T: Sink>(
    alloc: Global,
    source: &mut S,
    sink: &mut T,
    product: &P,
) -> Result<usize, Ended<P::Fault>>
    ensures written { IfOk result (λ count. (bytes : List ℕ) × (P.makes product.now (S.remaining source.old) bytes
        × (Appends (T.taken sink.old) (T.taken sink.new) bytes × (count ≡ length bytes)))) }

    // A fault of the content is one that the file has; and if it has one, nothing is made.
    ensures fault { IfUnmade result (λ e. P.Fault.exit_status e ≢ 3
        → IfSome (S.remaining source.old) (λ given. P.faults product.now given e)) }
    ensures faulty { (given : List ℕ) (e : P.Fault)
        → S.remaining source.old ≡ Some given → P.faults product.now given e → IsUnmade result }
    ensures allowed { IfUnmade result (P.allows product.now (S.remaining source.old)) }

    // If nothing is made, the sink is unchanged; if it fails, it took a part.
    ensures unmade { IfUnmade result (λ _. Keeps (T.taken sink.old) (T.taken sink.new)) }
    ensures begun { result ≡ Err Ended.Write → (bytes : List ℕ) × (P.makes product.now (S.remaining source.old) bytes
        × AppendsPart (T.taken sink.old) (T.taken sink.new) bytes) }
    ensures reads { S.failure_count source.new ≡ counted (S.failure_count source.old) (failed_reads P.failed_reads result) }
    ensures taken { TakesFile (S.remaining source.old) (S.remaining source.new) }
    ensures writes { T.failure_count sink.new ≡ counted (T.failure_count sink.old) (failed_writes result) }
{
    match product.make(alloc, source) {
        Ok(bytes) => match write_all(sink, &bytes) {
            Ok(()) => Ok(bytes.len()),
            Err(_) => Err(Ended::Write),
        },
        Err(fault) => Err(Ended::Unmade(fault)),
    }
}
