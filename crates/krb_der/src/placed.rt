//! Messages whose parts are found in place: each is a cursor over what stands there.

ghost use Rattle.std.specs.Prelude.{◌≡◌};
ghost use Rattle.std.specs.Option.{option_map};
ghost use Rattle.krb_der.specs.Parts.{Parts, PlacesOf, ended, anything, each_of, unknown, last, must, may};
ghost use Rattle.krb_der.specs.PartsFault.{Finds};
ghost use Rattle.krb_der.specs.Computed.Gives.{Fills};
ghost use Rattle.krb_der.specs.Computed.Read.{enter_at};
ghost use Rattle.krb_der.specs.Computed.Parts.{is_unknown, unknown_at, all_at, parts_at};

use crate::{Cursor, Fault, FaultKind, Field, Maybe};
use std::fmt;

/// A type whose values are the places of the parts of a message, as `specs::Parts` has them: a row of [`Field`] and [`Maybe`] in nested
/// pairs, whose last is one of the types here. A [`Cursor`] is whatever is left, and `()` is nothing.
pub trait Placed<'a>: Sized {
    ghost parts: { Parts };

    ghost view: { Self → PlacesOf parts };

    /// Finds the parts, up to the end of the content, as `specs::Computed` has it.
    fn find(content: Cursor<'a>) -> Result<Self, Fault>
        ensures { Fills view result (parts_at parts content.entry) };
}

/// An element with the tag `TAG` that is all that is left, and what is in it.
#[derive(Clone, Copy, PartialEq, Eq)]
pub struct Last<const TAG: u8, P>(pub P);

// What is in it may be a key, so it isn't shown.
impl<const TAG: u8, P> fmt::Debug for Last<TAG, P> {
    ghost use Rattle.std.specs.Prelude.{Some, codes};

    ghost debug_output = { λ _. Some (codes "Last(..)") };

    fn fmt<W: fmt::Write>(&self, f: &mut fmt::Formatter<W>) -> fmt::Result {
        f.write_str("Last(..)")
    }
}

/// Elements with the tag `TAG`, as many as there are.
#[derive(Clone, Copy, Debug, PartialEq, Eq)]
pub struct Each<const TAG: u8>;

/// The remaining elements, whatever they are: their tags have one byte and aren't those from `FROM` to `TO`.
#[derive(Clone, Copy, Debug, PartialEq, Eq)]
pub struct Unknown<const FROM: u8, const TO: u8>;

impl<'a> Cursor<'a> {
    /// Finds the parts of a message in what is left.
    ///
    /// # Errors
    /// A fault by the rules of `specs::PartsFault`.
    pub fn parts<P: Placed<'a>>(self) -> Result<P, Fault>
        ensures found { Finds P.parts P.view result self.entry }
        ensures computed { Fills P.view result (parts_at P.parts self.entry) }
    {
        P::find(self)
    }

    /// Checks that elements with this tag are all that is left.
    #[tactic(auto, using(crate::proofs::Repeats::each_step, crate::proofs::Repeats::each_end, crate::proofs::Repeats::enter_shrinks))]
    fn skip_each(&self, tag: u8) -> Result<(), Fault>
        ensures { result ≡ all_at (enter_at tag) self.now }
    {
        let mut left = self.again();
        while !left.is_at_end() {
            match left.head(tag) {
                Ok((_, after)) => left = after,
                Err(fault) => return Err(fault),
            }
        }
        Ok(())
    }

    /// Checks that elements that aren't known are all that is left.
    #[tactic(auto, using(crate::proofs::Repeats::unknown_step, crate::proofs::Repeats::unknown_end, crate::proofs::Repeats::unknown_shrinks))]
    fn skip_unknown(&self, from: u8, to: u8) -> Result<(), Fault>
        ensures { result ≡ all_at (unknown_at from to) self.now }
    {
        let mut left = self.again();
        while !left.is_at_end() {
            match left.unknown(from, to) {
                Ok((_, after)) => left = after,
                Err(fault) => return Err(fault),
            }
        }
        Ok(())
    }

    /// The content of the next element, which must be one that isn't known, and what comes after it.
    #[tactic(auto, unfolding(crate::specs::Computed::Parts::unknown_at))]
    fn unknown(&self, from: u8, to: u8) -> Result<(Cursor<'a>, Cursor<'a>), Fault>
        ensures { result ≡ unknown_at from to self.now }
    {
        match self.rest().first() {
            Some(tag) if is_unknown(*tag, from, to) => self.head(*tag),
            _ => Err(self.fault(FaultKind::Trailing)),
        }
    }
}

/// Whether a tag has one byte and isn't one of those from `from` to `to`.
fn is_unknown(tag: u8, from: u8, to: u8) -> bool
    ensures { result ≡ is_unknown from to tag }
{
    (tag < from || tag > to) && tag % 32 != 31
}

impl<'a> Placed<'a> for () {
    ghost parts = { ended };

    ghost view = { λ _. tt };

    #[tactic(auto, unfolding(crate::specs::Computed::Parts::parts_at))]
    fn find(content: Cursor<'a>) -> Result<(), Fault> {
        content.finish_here()
    }
}

impl<'a> Placed<'a> for Cursor<'a> {
    ghost parts = { anything };

    ghost view = { λ c. c };

    #[tactic(auto, unfolding(crate::specs::Computed::Parts::parts_at))]
    fn find(content: Cursor<'a>) -> Result<Cursor<'a>, Fault> {
        Ok(content)
    }
}

impl<'a, const TAG: u8> Placed<'a> for Each<TAG> {
    ghost parts = { each_of TAG };

    ghost view = { λ _. tt };

    #[tactic(auto, unfolding(crate::specs::Computed::Parts::parts_at))]
    fn find(content: Cursor<'a>) -> Result<Each<TAG>, Fault> {
        content.skip_each(TAG)?;
        Ok(Each)
    }
}

impl<'a, const FROM: u8, const TO: u8> Placed<'a> for Unknown<FROM, TO> {
    ghost parts = { unknown FROM TO };

    ghost view = { λ _. tt };

    #[tactic(auto, unfolding(crate::specs::Computed::Parts::parts_at))]
    fn find(content: Cursor<'a>) -> Result<Unknown<FROM, TO>, Fault> {
        content.skip_unknown(FROM, TO)?;
        Ok(Unknown)
    }
}

impl<'a, const TAG: u8, P: Placed<'a>> Placed<'a> for Last<TAG, P> {
    ghost parts = { last TAG P.parts };

    ghost view = { λ l. P.view l.0 };

    #[tactic(auto, unfolding(crate::specs::Computed::Parts::parts_at))]
    fn find(content: Cursor<'a>) -> Result<Last<TAG, P>, Fault> {
        let (inside, after) = content.head(TAG)?;
        after.finish_here()?;
        let inside = P::find(inside)?;
        Ok(Last(inside))
    }
}

impl<'a, const TAG: u8, P: Placed<'a> + Drop, R: Placed<'a>> Placed<'a> for (Field<TAG, P>, R) {
    ghost parts = { must TAG P.parts R.parts };

    ghost view = { λ r. (P.view r.0.0, R.view r.1) };

    #[tactic(auto, unfolding(crate::specs::Computed::Parts::parts_at))]
    fn find(content: Cursor<'a>) -> Result<(Field<TAG, P>, R), Fault> {
        let (inside, after) = content.head(TAG)?;
        let inside = P::find(inside)?;
        let others = R::find(after)?;
        Ok((Field(inside), others))
    }
}

impl<'a, const TAG: u8, P: Placed<'a> + Drop, R: Placed<'a>> Placed<'a> for (Maybe<TAG, P>, R) {
    ghost parts = { may TAG P.parts R.parts };

    ghost view = { λ r. (option_map P.view r.0.0, R.view r.1) };

    #[tactic(auto, unfolding(crate::specs::Computed::Parts::parts_at))]
    fn find(content: Cursor<'a>) -> Result<(Maybe<TAG, P>, R), Fault> {
        if !content.begins(TAG) {
            let others = R::find(content)?;
            return Ok((Maybe(None), others));
        }
        let (inside, after) = content.head(TAG)?;
        let inside = P::find(inside)?;
        let others = R::find(after)?;
        Ok((Maybe(Some(inside)), others))
    }
}
