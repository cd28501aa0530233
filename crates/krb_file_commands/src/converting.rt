//! What `convert-keytab` and `convert-ccache` make: the file, written again.

ghost use Rattle.std.specs.Prelude.{◌≡◌};
ghost use Rattle.krb_ccache.specs.Format as in_cache;
ghost use Rattle.krb_ccache.specs.declared.fault.CacheFault.TheVariants.{TooLong as LongCache};
ghost use Rattle.krb_keytab.specs.Format as in_keytab;
ghost use Rattle.krb_keytab.specs.Written.{written};
ghost use Rattle.krb_keytab.specs.declared.fault.KeytabFault.TheVariants.{TooLong as LongKeytab};
ghost use Rattle.krb_file_commands.specs.Converting.{IsUnwritten};
ghost use Rattle.krb_file_commands.specs.Engine.{OfFile};
ghost use Rattle.krb_file_commands.specs.Status.{cache_reads, keytab_reads};

use crate::engine::Product;
use krb_ccache::{CCache, CacheFault};
use krb_file::Source;
use krb_keytab::{Keytab, KeytabFault};
use std::alloc::Global;

/// `convert-keytab` makes the keytab's bytes, without holes and without what follows its entries. The entries and their order
/// stay.
#[derive(Clone, Copy)]
pub struct ConvertKeytab;

impl Product for ConvertKeytab {
    type Fault = KeytabFault;

    ghost makes = { λ _ from bytes. OfFile in_keytab.IsKeytab from (λ entries. bytes ≡ written entries) };

    ghost faults = { λ _ given fault. IsUnwritten in_keytab.IsKeytab in_keytab.IsFaultOf LongKeytab written given fault };

    ghost failed_reads = { keytab_reads };

    fn make<S: Source>(&self, alloc: Global, source: &mut S) -> Result<Vec<u8>, KeytabFault> {
        krb_keytab::laws::each_file_has_one_answer();
        let keytab = Keytab::read(alloc, source)?;
        keytab.to_bytes(alloc)
    }
}

/// `convert-ccache` makes the bytes of a cache of version 0x0504. Nothing of its value is lost; if it was of that version, they
/// are the bytes that were read.
#[derive(Clone, Copy)]
pub struct ConvertCcache;

impl Product for ConvertCcache {
    type Fault = CacheFault;

    ghost makes = { λ _ from bytes. OfFile in_cache.IsCache from (λ cache. bytes ≡ in_cache.written cache) };

    ghost faults = { λ _ given fault. IsUnwritten in_cache.IsCache in_cache.IsFaultOf LongCache in_cache.written given fault };

    ghost failed_reads = { cache_reads };

    fn make<S: Source>(&self, alloc: Global, source: &mut S) -> Result<Vec<u8>, CacheFault> {
        krb_ccache::laws::each_file_has_one_answer();
        let cache = CCache::read(alloc, source)?;
        cache.to_bytes(alloc)
    }
}
