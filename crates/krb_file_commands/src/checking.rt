//! What `check-keytab` and `check-ccache` make: the line `ok N`.

ghost use Rattle.std.specs.Prelude.{◌≡◌, length};
ghost use Rattle.krb_ccache.specs.Format as in_cache;
ghost use Rattle.krb_keytab.specs.Format as in_keytab;
ghost use Rattle.krb_file_commands.specs.Engine.{OfFile};
ghost use Rattle.krb_file_commands.specs.Lines.{ok_line};
ghost use Rattle.krb_file_commands.specs.Status.{cache_reads, keytab_reads};

use crate::count::Count;
use crate::engine::Product;
use crate::walk::{walk_ccache, walk_keytab};
use krb_ccache::CacheFault;
use krb_file::Source;
use krb_keytab::KeytabFault;
use std::alloc::Global;

/// `check-keytab` makes the line `ok N`: N is how many entries the keytab has. Holes aren't counted.
#[derive(Clone, Copy)]
pub struct CheckKeytab;

impl Product for CheckKeytab {
    type Fault = KeytabFault;

    ghost makes = { λ _ from bytes. OfFile in_keytab.IsKeytab from (λ entries. bytes ≡ ok_line (length entries)) };

    ghost faults = { λ _ given fault. in_keytab.IsFaultOf given fault };

    ghost failed_reads = { keytab_reads };

    fn make<S: Source>(&self, alloc: Global, source: &mut S) -> Result<Vec<u8>, KeytabFault> {
        walk_keytab::<Count, S>(alloc, source)
    }
}

/// `check-ccache` makes the line `ok N`: N is how many credentials the cache has, configuration entries among them.
#[derive(Clone, Copy)]
pub struct CheckCcache;

impl Product for CheckCcache {
    type Fault = CacheFault;

    ghost makes = { λ _ from bytes. OfFile in_cache.IsCache from (λ cache. bytes ≡ ok_line (length cache.credentials)) };

    ghost faults = { λ _ given fault. in_cache.IsFaultOf given fault };

    ghost failed_reads = { cache_reads };

    fn make<S: Source>(&self, alloc: Global, source: &mut S) -> Result<Vec<u8>, CacheFault> {
        walk_ccache::<Count, S>(alloc, source)
    }
}
