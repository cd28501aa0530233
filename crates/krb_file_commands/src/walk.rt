//! Reading a keytab or a cache, with one entry or credential at hand at a time, and making bytes of it.

ghost use Rattle.std.specs.Prelude.{◌≡◌, ℕ, List, [], Option, None};
ghost use Rattle.krb_ccache.specs.Value.{Cache};
ghost use Rattle.krb_keytab.specs.Entry.{KeytabEntry};
ghost use Rattle.krb_keytab.specs.Items.{HasRead, last_answer};
ghost use Rattle.krb_file_commands.specs.Inner.Reading.{ReadsKeytab, ReadsCache};
ghost use Rattle.krb_file_commands.specs.Inner.Walk.{IsOpened};

use krb_ccache::{CacheFault, CredentialReader};
use krb_file::Source;
use krb_keytab::{EntryReader, KeytabFault};
use std::alloc::Global;

/// What is made of the entries of a keytab.
pub(crate) trait FromEntries {
    // The bytes that are made of these.
    ghost of_entries: { List KeytabEntry → List ℕ };

    /// Makes it of the entries to come, of a reader that has given none.
    fn from_entries<S: Source>(
        alloc: Global,
        reader: &mut EntryReader<S>,
    ) -> Result<Vec<u8>, KeytabFault>
        requires start { HasRead (S.remaining reader.old.source) reader.old [] [] }
        requires going { last_answer reader.old.stage ≡ None }
        ensures made { ReadsKeytab (S.remaining reader.old.source) (S.remaining reader.new.source)
            (S.failure_count reader.old.source) (S.failure_count reader.new.source)
            (λ made entries. made.items ≡ of_entries entries) result }
        ensures lent { S.lender reader.new.source ≡ S.lender reader.old.source };
}

/// What is made of a credential cache and its credentials.
pub(crate) trait FromCredentials {
    // The bytes that are made of this cache.
    ghost of_cache: { Cache → List ℕ };

    /// Makes it of the credentials to come, of a reader that has given none.
    fn from_credentials<S: Source>(
        alloc: Global,
        reader: &mut CredentialReader<S>,
    ) -> Result<Vec<u8>, CacheFault>
        requires going { reader.old.ended ≡ None }
        ensures made { (from : Option (List ℕ)) → IsOpened S.remaining from reader.old
            → ReadsCache from (S.remaining reader.new.source)
            (S.failure_count reader.old.source) (S.failure_count reader.new.source)
            (λ made cache. made.items ≡ of_cache cache) result }
        ensures lent { S.lender reader.new.source ≡ S.lender reader.old.source };
}

/// Reads a keytab, and makes this of its entries.
///
/// # Errors
/// Those of `Keytab::read`; `OutOfMemory` also if there is no memory for what is made.
pub(crate) fn walk_keytab<M: FromEntries, S: Source>(
    alloc: Global,
    source: &mut S,
) -> Result<Vec<u8>, KeytabFault>
    ensures { ReadsKeytab (S.remaining source.old) (S.remaining source.new)
        (S.failure_count source.old) (S.failure_count source.new)
        (λ made entries. made.items ≡ M.of_entries entries) result }
{
    let mut reader = EntryReader::new(alloc, source);
    let made = M::from_entries(alloc, &mut reader);
    let _source = reader.into_source();
    made
}

/// Reads a credential cache, and makes this of it.
///
/// # Errors
/// Those of `CCache::read`; `OutOfMemory` also if there is no memory for what is made.
pub(crate) fn walk_ccache<M: FromCredentials, S: Source>(
    alloc: Global,
    source: &mut S,
) -> Result<Vec<u8>, CacheFault>
    ensures { ReadsCache (S.remaining source.old) (S.remaining source.new)
        (S.failure_count source.old) (S.failure_count source.new)
        (λ made cache. made.items ≡ M.of_cache cache) result }
{
    krb_ccache::laws::each_file_has_one_answer();
    krb_ccache::laws::a_source_tells_its_file();
    match CredentialReader::open(alloc, &mut *source) {
        Ok(reader) => {
            let mut reader = reader;
            let made = M::from_credentials(alloc, &mut reader);
            let _source = reader.into_source();
            made
        }
        Err(back) => Err(back.1),
    }
}
