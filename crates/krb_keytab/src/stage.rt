//! How far a reader of entries has come.

ghost use Rattle.std.specs.Prelude.{◌≡◌};

use crate::entry::Entry;
use crate::fault::KeytabFault;

/// Where a reader of entries is.
#[derive(Clone, Copy, Debug, Drop)]
pub(crate) enum Stage {
    /// Before the version.
    Start,
    /// After the version and whole records.
    Records,
    /// The entries have ended.
    End,
    /// A fault was returned, and is the answer from now on.
    Failed(KeytabFault),
}

impl Stage {
    ghost use Rattle.krb_keytab.specs.Items.{stage_after, stage_passed};

    /// Where a reader is after it has given this answer.
    pub(crate) fn after(answer: &Result<Option<Entry>, KeytabFault>) -> Stage
        ensures { result ≡ stage_after answer.now }
    {
        match answer {
            Ok(Some(_)) => Stage::Records,
            Ok(None) => Stage::End,
            Err(fault) => Stage::Failed(*fault),
        }
    }

    /// Where a reader is after it has answered whether it passed an entry.
    pub(crate) fn after_pass(answer: &Result<bool, KeytabFault>) -> Stage
        ensures { result ≡ stage_passed answer.now }
    {
        match answer {
            Ok(true) => Stage::Records,
            Ok(false) => Stage::End,
            Err(fault) => Stage::Failed(*fault),
        }
    }
}
