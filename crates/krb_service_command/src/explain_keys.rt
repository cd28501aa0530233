//! What `explain --keytab` makes of a keytab, for bytes that were read before.

ghost use Rattle.krb_keytab.specs.Format.{IsFaultOf};
ghost use Rattle.krb_file_commands.specs.Inner.Reading.{ReadsKeytab};
ghost use Rattle.krb_file_commands.specs.Status.{keytab_reads};
ghost use Rattle.krb_service_command.specs.Explaining.{IsKeyedPage, IsServedBy, MakesKeyedPage};

use krb_explain_keys::explain_with_keys;
use krb_file::Source;
use krb_file_commands::Product;
use krb_keytab::{Keytab, KeytabFault};
use krb_msg::Seconds;
use krb_name::Principal;
use krb_replay::Skew;
use std::alloc::Global;

/// `explain --keytab` makes a page about bytes with the keys of a keytab, which is the file (`krb_explain_keys`).
#[derive(Drop)]
pub struct ExplainWithKeys {
    /// The bytes that are explained.
    pub bytes: Vec<u8>,
    /// The second of the service's clock.
    pub second: Seconds,
    /// By how much clocks may differ.
    pub skew: Skew,
    /// The one name that the service has; those of the keytab if left out.
    pub only: Option<Principal>,
}

impl Product for ExplainWithKeys {
    type Fault = KeytabFault;

    ghost makes = { MakesKeyedPage };

    ghost faults = { λ _ given fault. IsFaultOf given fault };

    ghost failed_reads = { keytab_reads };

    fn make<S: Source>(&self, alloc: Global, source: &mut S) -> Result<Vec<u8>, KeytabFault> {
        page_by(alloc, self, source)
    }
}

// Reads the keytab, and returns the page.
fn page_by<S: Source>(
    alloc: Global,
    wanted: &ExplainWithKeys,
    source: &mut S,
) -> Result<Vec<u8>, KeytabFault>
    ensures { ReadsKeytab (S.remaining source.old) (S.remaining source.new)
        (S.failure_count source.old) (S.failure_count source.new)
        (λ page entries. IsKeyedPage wanted.now entries page.items) result }
{
    krb_keytab::laws::each_file_has_one_answer();
    let keytab = Keytab::read(alloc, source)?;
    let served = served_by(keytab, &wanted.only);
    let page = explain_with_keys(alloc, &wanted.bytes, served, wanted.second, wanted.skew)?;
    Ok(page.into_bytes())
}

// The keytab's entries of this name, or all.
fn served_by(keytab: Keytab, only: &Option<Principal>) -> Keytab
    ensures { IsServedBy only.now keytab result }
{
    match only {
        Some(name) => keytab.only(name),
        None => keytab,
    }
}
