//! What a service says in a negotiation without a token of Kerberos.

ghost use Rattle.std.specs.Prelude.{◌≡◌, None};
ghost use Rattle.std.specs.Option.{MatchOption};
ghost use Rattle.krb_gss.specs.Said.{named_if, Means, Says};
ghost use Rattle.krb_gss.specs.Inner.Reading.{said_whole};

use crate::framing::begin;
use crate::mechanism::named;
use crate::negotiation::said;
use crate::{Foreign, Mechanism};
use krb_der::Cursor;

/// What a service says in a negotiation without a token of Kerberos.
#[derive(Clone, Copy, Debug, PartialEq, Eq)]
pub enum Verdict {
    /// The client is accepted, and no reply is wanted (accept-completed). The first answer to a client
    /// names the mechanism that the negotiation names first, and later answers name none.
    Completed(Option<Mechanism>),
    /// The client is to send its token of this mechanism (accept-incomplete).
    Incomplete(Mechanism),
    /// The client is refused (reject).
    Rejected,
}

/// Reads a service's answer that has no token of Kerberos. What its mechListMIC holds isn't looked at.
///
/// Returns `None` for bytes that say nothing of the kind: an answer with a token, one that asks for a mechListMIC (request-mic), and
/// what is no answer. `open_answer` says which of these it is.
pub fn read_verdict(bytes: &[u8]) -> Option<Verdict>
    ensures { MatchOption result ((verdict : Verdict) → Says verdict bytes.now → ⊥) (λ verdict. Says verdict bytes.now) }
{
    match said_in(bytes) {
        Some((state, name)) => verdict_of(state.rest(), name_of(name)),
        None => None,
    }
}

/// The negState and the supportedMech of an answer without a responseToken.
#[tactic(auto, unfolding(crate::specs::Inner::Reading::said_whole))]
fn said_in<'a>(bytes: &'a [u8]) -> Option<(Cursor<'a>, Option<Cursor<'a>>)>
    ensures { result ≡ said_whole bytes.entry.now }
{
    let Ok(cursor) = begin(bytes) else {
        return None;
    };
    match said(cursor) {
        Ok(found) => Some(found),
        Err(_) => None,
    }
}

fn name_of(name: Option<Cursor>) -> Option<Result<Mechanism, Foreign>>
    ensures { result ≡ named_if name.entry }
{
    match name {
        Some(oid) => Some(named(oid.rest())),
        None => None,
    }
}

fn verdict_of(state: &[u8], name: Option<Result<Mechanism, Foreign>>) -> Option<Verdict>
    ensures { MatchOption result ((verdict : Verdict) → Means verdict state.now name → ⊥) (λ verdict. Means verdict state.now name) }
{
    match (state, name) {
        ([0], None) => Some(Verdict::Completed(None)),
        ([0], Some(Ok(first))) => Some(Verdict::Completed(Some(first))),
        ([1], Some(Ok(first))) => Some(Verdict::Incomplete(first)),
        ([2], _) => Some(Verdict::Rejected),
        _ => None,
    }
}
