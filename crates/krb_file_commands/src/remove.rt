//! What `remove-key` makes: the keytab with a hole in place of an entry.

ghost use Rattle.std.specs.Prelude.{IfSome};
ghost use Rattle.krb_file_commands.specs.Removing.{IsRemoved, IsUnremoved};
ghost use Rattle.krb_file_commands.specs.Status.{keytab_reads};

use crate::engine::Product;
use crate::whole::read_bytes;
use krb_file::Source;
use krb_keytab::{Keytab, KeytabFault};
use std::alloc::Global;

/// `remove-key` makes the keytab's bytes with a hole in place of the entry `index`, which has the size of the entry's record and only
/// zero bytes. Entries are counted from 0, as `list-keytab` lists them. All other bytes stay the same.
#[derive(Clone, Copy)]
pub struct RemoveKey {
    /// The entry's index.
    pub index: usize,
}

impl Product for RemoveKey {
    type Fault = KeytabFault;

    ghost makes = { λ removal from bytes. IfSome from (λ given. IsRemoved given removal.index bytes) };

    ghost faults = { λ removal given fault. IsUnremoved given removal.index fault };

    ghost failed_reads = { keytab_reads };

    fn make<S: Source>(&self, alloc: Global, source: &mut S) -> Result<Vec<u8>, KeytabFault> {
        let mut file = read_bytes(alloc, source)?;
        Keytab::remove_in(&mut file, self.index)?;
        Ok(file)
    }
}
