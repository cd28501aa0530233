//! What `list-keytab` and `list-ccache` make.

ghost use Rattle.std.specs.Prelude.{◌≡◌};
ghost use Rattle.krb_ccache.specs.Format as in_cache;
ghost use Rattle.krb_keytab.specs.Format as in_keytab;
ghost use Rattle.krb_readable.specs.Readable.{cache_table, keytab_table};
ghost use Rattle.krb_file_commands.specs.Engine.{OfFile};
ghost use Rattle.krb_file_commands.specs.Inner.Reading.{ReadsCache, ReadsKeytab};
ghost use Rattle.krb_file_commands.specs.Lines.{cache_listing, keytab_listing};
ghost use Rattle.krb_file_commands.specs.Status.{cache_reads, keytab_reads};

use crate::engine::Product;
use crate::lines::Lines;
use crate::walk::{walk_ccache, walk_keytab};
use krb_ccache::{CCache, CacheFault};
use krb_file::Source;
use krb_keytab::{Keytab, KeytabFault};
use krb_readable::{readable_ccache, readable_keytab};
use std::alloc::Global;

/// `list-keytab` makes a line for each entry, in the order of the file, with its key version number, encryption type,
/// timestamp (seconds since 1970-01-01) and principal; or a table for people, as `readable_keytab` says.
#[derive(Clone, Copy)]
pub struct ListKeytab {
    /// Whether a table is made.
    pub readable: bool,
}

impl Product for ListKeytab {
    type Fault = KeytabFault;

    ghost makes = { λ list from bytes. OfFile in_keytab.IsKeytab from (λ entries. bytes ≡ keytab_listing list.readable entries) };

    ghost faults = { λ _ given fault. in_keytab.IsFaultOf given fault };

    ghost failed_reads = { keytab_reads };

    fn make<S: Source>(&self, alloc: Global, source: &mut S) -> Result<Vec<u8>, KeytabFault> {
        if self.readable {
            table_of_keytab(alloc, source)
        } else {
            walk_keytab::<Lines, S>(alloc, source)
        }
    }
}

// Reads a whole keytab, since the width of a column is known only then, and returns its table.
fn table_of_keytab<S: Source>(alloc: Global, source: &mut S) -> Result<Vec<u8>, KeytabFault>
    ensures { ReadsKeytab (S.remaining source.old) (S.remaining source.new)
        (S.failure_count source.old) (S.failure_count source.new)
        (λ table entries. table.items ≡ keytab_table entries) result }
{
    krb_keytab::laws::each_file_has_one_answer();
    let keytab = Keytab::read(alloc, source)?;
    let table = readable_keytab(alloc, &keytab)?;
    Ok(table.into_bytes())
}

/// How a credential cache is listed.
#[derive(Clone, Copy)]
pub enum CacheListing {
    /// In lines for programs.
    Lines,
    /// As a table for people.
    Table {
        /// When tickets are looked at, if that is known: seconds since 1970-01-01.
        now: Option<u64>,
    },
}

/// `list-ccache` makes a line for the cache's default principal, one for the KDC's clock offset if the cache holds one, and
/// one for each credential, in the order of the file; or a table for people, as `readable_ccache` says.
///
/// The line of a configuration entry names its server. That of a ticket has the session key's encryption type, authtime,
/// starttime, endtime and renew_till (seconds since 1970-01-01, 0 if there is none), the ticket's flags as 8 hexadecimal
/// digits, client and server.
impl Product for CacheListing {
    type Fault = CacheFault;

    ghost makes = { λ list from bytes. OfFile in_cache.IsCache from (λ cache. bytes ≡ cache_listing list cache) };

    ghost faults = { λ _ given fault. in_cache.IsFaultOf given fault };

    ghost failed_reads = { cache_reads };

    fn make<S: Source>(&self, alloc: Global, source: &mut S) -> Result<Vec<u8>, CacheFault> {
        match *self {
            CacheListing::Lines => walk_ccache::<Lines, S>(alloc, source),
            CacheListing::Table { now } => table_of_ccache(alloc, source, now),
        }
    }
}

// Reads a whole cache, for the same reason, and returns its table.
fn table_of_ccache<S: Source>(
    alloc: Global,
    source: &mut S,
    now: Option<u64>,
) -> Result<Vec<u8>, CacheFault>
    ensures { ReadsCache (S.remaining source.old) (S.remaining source.new)
        (S.failure_count source.old) (S.failure_count source.new)
        (λ table cache. table.items ≡ cache_table now cache) result }
{
    krb_ccache::laws::each_file_has_one_answer();
    let cache = CCache::read(alloc, source)?;
    let table = readable_ccache(alloc, &cache, now)?;
    Ok(table.into_bytes())
}
