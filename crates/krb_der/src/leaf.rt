//! Elements without parts.
#![tactic(auto, using(crate::proofs::Found::found))]

ghost use Rattle.std.specs.Prelude.{◌≡◌, refl};
ghost use Rattle.krb_der.specs.Kind.{leaf};
ghost use Rattle.krb_der.specs.Content.{Content, ContentValue, leaf_of, int32, uint32, seq_number, microseconds, constant, octets, string, flags, time};
ghost use Rattle.krb_der.specs.Computed.Gives.{Finds};
ghost use Rattle.krb_der.specs.Computed.Read.{content_of};

use crate::element::Element;
use crate::value::{Constant, Flags, Octets, SeqNumber, Text};
use crate::whole::{flags_in, seq_number_in, whole};
use crate::{Cursor, Fault, FaultKind, tag};
use krb_time::{Microseconds, Seconds};

/// A type whose values are those of one kind of element without parts.
pub trait Leaf<'a>: Sized {
    ghost content: { Content };

    ghost view: { Self → ContentValue content };

    /// The tag, and the fault of a content that spells no value.
    fn rule() -> (u8, FaultKind)
        ensures tag { result.0 ≡ (leaf_of content).tag }
        ensures fault { result.1 ≡ (leaf_of content).fault };

    /// The value that the content spells.
    fn value_in(bytes: &'a [u8]) -> Option<Self>
        ensures { Finds view result (content_of content bytes.now) };
}

impl<'a, L: Leaf<'a>> Element<'a> for L {
    ghost kind = { leaf L.content };

    ghost view = { L.view };

    ghost clear = { refl };

    #[tactic(auto, unfolding(crate::specs::Computed::Read::element_at))]
    fn read(cursor: &mut Cursor<'a>) -> Result<L, Fault> {
        let (tag, fault) = L::rule();
        let (inside, after) = cursor.head(tag)?;
        let Some(value) = L::value_in(inside.rest()) else {
            return Err(cursor.fault(fault));
        };
        *cursor = after;
        Ok(value)
    }
}

impl<'a> Leaf<'a> for i32 {
    ghost content = { int32 };

    ghost view = { λ z. z };

    fn rule() -> (u8, FaultKind) {
        (tag::INTEGER, FaultKind::Integer)
    }

    fn value_in(bytes: &'a [u8]) -> Option<i32> {
        i32::try_from(whole(bytes)?).ok()
    }
}

impl<'a> Leaf<'a> for u32 {
    ghost content = { uint32 };

    ghost view = { λ n. n };

    fn rule() -> (u8, FaultKind) {
        (tag::INTEGER, FaultKind::Integer)
    }

    fn value_in(bytes: &'a [u8]) -> Option<u32> {
        u32::try_from(whole(bytes)?).ok()
    }
}

impl<'a> Leaf<'a> for SeqNumber {
    ghost content = { seq_number };

    ghost view = { λ s. s.0 };

    fn rule() -> (u8, FaultKind) {
        (tag::INTEGER, FaultKind::Integer)
    }

    fn value_in(bytes: &'a [u8]) -> Option<SeqNumber> {
        Some(SeqNumber(seq_number_in(bytes)?))
    }
}

impl<'a> Leaf<'a> for Microseconds {
    ghost content = { microseconds };

    ghost view = { λ n. n };

    fn rule() -> (u8, FaultKind) {
        (tag::INTEGER, FaultKind::Integer)
    }

    fn value_in(bytes: &'a [u8]) -> Option<Microseconds> {
        Microseconds::new(u32::try_from(whole(bytes)?).ok()?)
    }
}

impl<'a, const N: u32> Leaf<'a> for Constant<N> {
    ghost content = { constant N };

    ghost view = { λ _. tt };

    fn rule() -> (u8, FaultKind) {
        (tag::INTEGER, FaultKind::Integer)
    }

    fn value_in(bytes: &'a [u8]) -> Option<Constant<N>> {
        if whole(bytes)? != i64::from(N) {
            return None;
        }
        Some(Constant)
    }
}

impl<'a> Leaf<'a> for Octets<'a> {
    ghost content = { octets };

    ghost view = { λ o. o.0.now };

    fn rule() -> (u8, FaultKind)
        ensures tag { result.0 ≡ (leaf_of octets).tag }
        ensures fault { result.1 ≡ (leaf_of octets).fault }
    {
        (tag::OCTET_STRING, FaultKind::Length)
    }

    fn value_in(bytes: &'a [u8]) -> Option<Octets<'a>> {
        Some(Octets(bytes))
    }
}

impl<'a> Leaf<'a> for Text<'a> {
    ghost content = { string };

    ghost view = { λ t. t.0.now };

    fn rule() -> (u8, FaultKind)
        ensures tag { result.0 ≡ (leaf_of string).tag }
        ensures fault { result.1 ≡ (leaf_of string).fault }
    {
        (tag::GENERAL_STRING, FaultKind::Length)
    }

    fn value_in(bytes: &'a [u8]) -> Option<Text<'a>> {
        Some(Text(bytes))
    }
}

impl<'a> Leaf<'a> for Flags {
    ghost content = { flags };

    ghost view = { λ f. f.0 };

    fn rule() -> (u8, FaultKind) {
        (tag::BIT_STRING, FaultKind::Flags)
    }

    fn value_in(bytes: &'a [u8]) -> Option<Flags> {
        Some(Flags(flags_in(bytes)?))
    }
}

impl<'a> Leaf<'a> for Seconds {
    ghost content = { time };

    ghost view = { λ s. s };

    fn rule() -> (u8, FaultKind) {
        (tag::GENERALIZED_TIME, FaultKind::Time)
    }

    fn value_in(bytes: &'a [u8]) -> Option<Seconds> {
        Seconds::from_text(bytes)
    }
}
