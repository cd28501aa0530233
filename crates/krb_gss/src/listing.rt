//! A client's first token that names another mechanism first, and Kerberos after it.

ghost use Rattle.std.specs.Prelude.{◌≡◌, List, ℕ};
ghost use Rattle.std.specs.Option.{MatchOption};
ghost use Rattle.krb_gss.specs.Listing.{Names, IsListing};
ghost use Rattle.krb_gss.specs.Inner.Reading.{listing_at, negotiation_from};

use crate::framing::{begin, framed};
use crate::mechanism::named;
use crate::negotiation::{init, names, types};
use crate::{Foreign, Mechanism};
use krb_der::Cursor;

/// The mechanisms of a client that names another one first, and Kerberos after it.
#[derive(Clone, Copy, Debug, PartialEq, Eq)]
pub struct Listing<'a> {
    /// The first of the names of Kerberos in the list.
    pub mechanism: Mechanism,
    /// The list as the client sent it, with its tag and length: what a mechListMIC is over.
    pub list: &'a [u8],
}

/// Opens a client's first token that names another mechanism first, and Kerberos after it.
///
/// A mechToken in it is for the other mechanism, and isn't looked at. [`wrap_request_mic`](crate::wrap_request_mic) asks the client for
/// its token of Kerberos. A negotiation that goes on so is safe only if both sides then show by a mechListMIC that they saw the same
/// list (RFC 4178, section 5).
///
/// Returns `None` for other bytes. [`open_token`](crate::open_token) says what these are.
pub fn open_listing<'a>(bytes: &'a [u8]) -> Option<Listing<'a>>
    ensures { MatchOption result ((mechanism : Mechanism) (list : List ℕ) → IsListing mechanism list bytes.entry.now → ⊥)
        (λ l. IsListing l.mechanism l.list.now bytes.entry.now) }
{
    match listed(bytes) {
        Some((list, names)) => listing_of(list, &names),
        None => None,
    }
}

fn listing_of<'a>(list: Cursor<'a>, names: &Cursor) -> Option<Listing<'a>>
    ensures { MatchOption result ((mechanism : Mechanism) → Names mechanism names.now → ⊥)
        (λ l. (list.entry.rest ≡ l.list.now) × Names l.mechanism names.now) }
{
    match kerberos_among(names) {
        Some(mechanism) => Some(Listing {
            mechanism,
            list: list.rest(),
        }),
        None => None,
    }
}

/// Where a list stands whose first mechanism isn't Kerberos, and where its names do.
#[tactic(auto, unfolding(crate::specs::Inner::Reading::listing_at))]
fn listed<'a>(bytes: &'a [u8]) -> Option<(Cursor<'a>, Cursor<'a>)>
    ensures { result ≡ listing_at bytes.entry.now }
{
    let after = negotiation(bytes)?;
    let Ok((oid, _)) = init(after.again()) else {
        return None;
    };
    let Err(_) = named(oid.rest()) else {
        return None;
    };
    let Ok(list) = types(after) else {
        return None;
    };
    let Ok(names) = names(list.again()) else {
        return None;
    };
    Some((list, names))
}

/// What is after the name of SPNEGO in a token.
#[tactic(auto, unfolding(crate::specs::Inner::Reading::negotiation_from))]
fn negotiation<'a>(bytes: &'a [u8]) -> Option<Cursor<'a>>
    ensures { result ≡ negotiation_from bytes.entry.now }
{
    let Ok(cursor) = begin(bytes) else {
        return None;
    };
    let Ok((name, after)) = framed(cursor) else {
        return None;
    };
    let Err(Foreign::Negotiation) = named(name.rest()) else {
        return None;
    };
    Some(after)
}

/// The first of these names that is one of Kerberos.
fn kerberos_among(names: &Cursor) -> Option<Mechanism>
    ensures { MatchOption result ((mechanism : Mechanism) → Names mechanism names.now → ⊥) (λ mechanism. Names mechanism names.now) }
{
    let mut left = names.again();
    while let Ok(oid) = left.enter(0x06) {
        match named(oid.rest()) {
            Ok(mechanism) => return Some(mechanism),
            Err(_) => {}
        }
    }
    None
}
