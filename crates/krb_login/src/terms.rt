//! What a service asks of a client beyond what makes its request acceptable.

ghost use Rattle.std.specs.Prelude.{◌≡◌, ◌↔◌, ℕ, List, IsTrue, IsSomeAnd};
ghost use Rattle.std.specs.Option.{MatchOption};
ghost use Rattle.krb_ap.specs.Answer.{taken_of};
ghost use Rattle.krb_msg.specs.PartsOwned.{owned_typed_of};
ghost use Rattle.krb_login.specs.Terms.{HasBindings, HasWanted, IsAnonymous, IsFirstBroken, IsOfGss, IsOfRealms, Meets, Sends, SendsGss, anonymous_name};

use crate::bindings_hash::BindingsHash;
use crate::breach::Breach;
use krb_ap::Accepted;
use krb_gss::{CHECKSUM_TYPE, Checksum};
use krb_msg::Typed;
use krb_name::{Bytes, Principal};

/// Which channel bindings a client has to send.
#[derive(Clone, Copy, Debug, PartialEq, Eq)]
pub enum Bindings {
    /// Whatever a client sends isn't looked at.
    Ignored,
    /// A client that sends a checksum of GSS-API has to send these in it, or 16 zeros, which say that it
    /// has none.
    IfSent(BindingsHash),
    /// Each client has to send these.
    Required(BindingsHash),
}

/// The realms whose clients are let in.
#[derive(Debug, Drop)]
pub enum Realms {
    /// Any: a KDC has to have checked the realms between it and the service's.
    Any,
    /// Those of the list.
    Only(Vec<Bytes>),
}

/// What a service asks of a client beyond what makes its request acceptable.
#[derive(Debug, Drop)]
pub struct Terms {
    /// Whether a client may be anonymous (RFC 8062).
    pub anonymous: bool,
    /// The realms whose clients are let in.
    pub realms: Realms,
    /// The channel bindings.
    pub bindings: Bindings,
}

/// The flag of a ticket that says that its client is anonymous.
const ANONYMOUS: u32 = 16;

impl Terms {
    /// Returns the first of the terms that an accepted request breaks, in the order of [`Breach`];
    /// or none if it meets them all.
    pub fn breach(&self, accepted: &Accepted) -> Option<Breach>
        ensures { MatchOption result (Meets self.now (taken_of accepted.now)) (λ breach. IsFirstBroken self.now (taken_of accepted.now) breach) }
    {
        if !self.anonymous && is_anonymous(accepted) {
            return Some(Breach::AnonymousClient);
        }
        if !self.realms.has(&accepted.client.realm) {
            return Some(Breach::ForeignRealm);
        }
        if !self.bindings.are_met(accepted) {
            return Some(Breach::ChannelBindings);
        }
        None
    }
}

impl Realms {
    fn has(&self, realm: &Bytes) -> bool
        ensures { IsTrue result ↔ IsOfRealms self.now realm.now }
    {
        match self {
            Realms::Any => true,
            Realms::Only(realms) => realms.contains(realm),
        }
    }
}

impl Bindings {
    fn are_met(&self, accepted: &Accepted) -> bool
        ensures { IsTrue result ↔ HasWanted self.now (taken_of accepted.now) }
    {
        match self {
            Bindings::Ignored => true,
            Bindings::IfSent(wanted) => are_met_if_sent(accepted, wanted.bytes()),
            Bindings::Required(wanted) => is_some_of(&sent(accepted), wanted.bytes()),
        }
    }
}

fn are_met_if_sent(accepted: &Accepted, wanted: &[u8; 16]) -> bool
    ensures { IsTrue result ↔ HasWanted (Bindings.IfSent wanted.now) (taken_of accepted.now) }
{
    if !sends_gss(accepted) {
        return true;
    }
    let sent = sent(accepted);
    is_some_of(&sent, &[0; 16]) || is_some_of(&sent, wanted)
}

fn sends_gss(accepted: &Accepted) -> bool
    ensures { IsTrue result ↔ SendsGss (taken_of accepted.now) }
{
    match &accepted.checksum {
        Some(checksum) => is_of_gss(checksum),
        None => false,
    }
}

fn is_of_gss(checksum: &Typed) -> bool
    ensures { IsTrue result ↔ IsOfGss (owned_typed_of checksum.now) }
{
    checksum.kind == CHECKSUM_TYPE
}

fn is_some_of(sent: &Option<[u8; 16]>, wanted: &[u8; 16]) -> bool
    ensures { IsTrue result ↔ IsSomeAnd sent.now (λ it. it ≡ wanted.now) }
{
    match sent {
        None => false,
        Some(sent) => are_same(sent, wanted),
    }
}

fn are_same(one: &[u8; 16], other: &[u8; 16]) -> bool
    ensures { IsTrue result ↔ (one.now ≡ other.now) }
{
    one == other
}

/// The bindings that a client sent, if its checksum is that of GSS-API and can be read.
fn sent(accepted: &Accepted) -> Option<[u8; 16]>
    ensures { (bindings : List ℕ) → Sends (taken_of accepted.now) bindings ↔ IsSomeAnd result (λ it. it ≡ bindings) }
{
    match &accepted.checksum {
        Some(checksum) => bindings_of(checksum),
        None => None,
    }
}

fn bindings_of(checksum: &Typed) -> Option<[u8; 16]>
    ensures { (bindings : List ℕ) → HasBindings bindings (owned_typed_of checksum.now) ↔ IsSomeAnd result (λ it. it ≡ bindings) }
{
    if !is_of_gss(checksum) {
        return None;
    }
    match Checksum::parse(&checksum.bytes) {
        Ok(checksum) => Some(checksum.bindings),
        Err(_) => None,
    }
}

fn is_anonymous(accepted: &Accepted) -> bool
    ensures { IsTrue result ↔ IsAnonymous (taken_of accepted.now) }
{
    accepted.flags.has(ANONYMOUS) || is_named_anonymous(&accepted.client)
}

fn is_named_anonymous(client: &Principal) -> bool
    ensures { IsTrue result ↔ (client.now.components ≡ anonymous_name) }
{
    let mut components = client.components.iter();
    match (components.next(), components.next(), components.next()) {
        (Some(first), Some(second), None) => { is(first, b"WELLKNOWN") && is(second, b"ANONYMOUS") }
        _ => false,
    }
}

fn is(component: &[u8], wanted: &[u8]) -> bool
    ensures { IsTrue result ↔ (component.now ≡ wanted.now) }
{
    component == wanted
}
