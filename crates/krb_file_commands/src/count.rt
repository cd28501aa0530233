//! The line `ok N` for a keytab of so many entries, or a cache of so many credentials. None of them is made.

ghost use Rattle.std.specs.Prelude.{◌≡◌, IfOk, length, string_bytes};
ghost use Rattle.krb_file_commands.specs.Lines.{ok_line};

use crate::walk::{FromCredentials, FromEntries};
use krb_ccache::{CacheFault, CredentialReader};
use krb_file::Source;
use krb_keytab::{EntryReader, KeytabFault};
use std::alloc::{AllocError, Global};

/// Makes the line.
pub(crate) struct Count;

impl FromEntries for Count {
    ghost of_entries = { λ entries. ok_line (length entries) };

    fn from_entries<S: Source>(
        alloc: Global,
        reader: &mut EntryReader<S>,
    ) -> Result<Vec<u8>, KeytabFault> {
        krb_keytab::laws::each_file_has_one_answer();
        krb_keytab::laws::a_reader_tells_the_file();
        let mut count = 0;
        while reader.pass()? {
            count += 1;
        }
        Ok(ok_line(alloc, count)?.into_bytes())
    }
}

// Configuration entries are counted, too.
impl FromCredentials for Count {
    ghost of_cache = { λ cache. ok_line (length cache.credentials) };

    fn from_credentials<S: Source>(
        alloc: Global,
        reader: &mut CredentialReader<S>,
    ) -> Result<Vec<u8>, CacheFault> {
        krb_ccache::laws::each_file_has_one_answer();
        krb_ccache::laws::a_source_tells_its_file();
        let mut count = 0;
        while reader.pass()? {
            count += 1;
        }
        Ok(ok_line(alloc, count)?.into_bytes())
    }
}

fn ok_line(alloc: Global, count: usize) -> Result<String, AllocError>
    ensures { IfOk result (λ line. string_bytes line ≡ ok_line count) }
{
    format!(in alloc; "ok {count}\n")
}
