//! The fields of a SEQUENCE, read as one row in nested pairs.

ghost use Rattle.std.specs.Option.{option_map};
ghost use Rattle.krb_der.specs.Kind.{Fields, FieldsOf, ends, must, may, wrapped};
ghost use Rattle.krb_der.specs.Computed.Gives.{Fills};
ghost use Rattle.krb_der.specs.Computed.Read.{element_at, fields_at};

use crate::{Cursor, Element, Fault};
use std::fmt;

/// An element with the tag `TAG` around it.
#[derive(Clone, Copy, PartialEq, Eq)]
pub struct Field<const TAG: u8, T>(pub T);

// What is in a field may be a key, so it isn't shown, here and below.
impl<const TAG: u8, T> fmt::Debug for Field<TAG, T> {
    ghost use Rattle.std.specs.Prelude.{Some, codes};

    ghost debug_output = { λ _. Some (codes "Field(..)") };

    fn fmt<W: fmt::Write>(&self, f: &mut fmt::Formatter<W>) -> fmt::Result {
        f.write_str("Field(..)")
    }
}

/// The same, if it is optional.
#[derive(Clone, Copy, PartialEq, Eq)]
pub struct Maybe<const TAG: u8, T>(pub Option<T>);

impl<const TAG: u8, T> fmt::Debug for Maybe<TAG, T> {
    ghost use Rattle.std.specs.Prelude.{Some, codes};

    ghost debug_output = { λ _. Some (codes "Maybe(..)") };

    fn fmt<W: fmt::Write>(&self, f: &mut fmt::Formatter<W>) -> fmt::Result {
        f.write_str("Maybe(..)")
    }
}

/// The same, by reference, for writing.
#[derive(Clone, Copy, PartialEq, Eq)]
pub struct MaybeRef<'a, const TAG: u8, T>(pub &'a Option<T>);

impl<const TAG: u8, T> fmt::Debug for MaybeRef<'_, TAG, T> {
    ghost use Rattle.std.specs.Prelude.{Some, codes};

    ghost debug_output = { λ _. Some (codes "MaybeRef(..)") };

    fn fmt<W: fmt::Write>(&self, f: &mut fmt::Formatter<W>) -> fmt::Result {
        f.write_str("MaybeRef(..)")
    }
}

/// A type whose values are those of a row of fields.
pub trait Row<'a>: Sized {
    ghost fields: { Fields };

    ghost view: { Self → FieldsOf fields };

    /// Reads the fields, up to the end of the content, as `specs::Computed` has it.
    fn read_row(content: Cursor<'a>) -> Result<Self, Fault>
        ensures { Fills view result (fields_at fields content.entry) };
}

impl<'a> Row<'a> for () {
    ghost fields = { ends };

    ghost view = { λ _. tt };

    #[tactic(auto, unfolding(crate::specs::Computed::Read::element_at))]
    fn read_row(content: Cursor<'a>) -> Result<(), Fault> {
        content.finish_here()
    }
}

impl<'a, const TAG: u8, T: Element<'a> + Drop> Element<'a> for Field<TAG, T> {
    ghost kind = { wrapped TAG T.kind };

    ghost view = { λ f. T.view f.0 };

    ghost clear = { T.clear };

    fn read(cursor: &mut Cursor<'a>) -> Result<Field<TAG, T>, Fault> {
        let value = cursor.wrapped_here(TAG)?;
        Ok(Field(value))
    }
}

impl<'a, const TAG: u8, T: Element<'a> + Drop, R: Row<'a>> Row<'a> for (Field<TAG, T>, R) {
    ghost fields = { must (wrapped TAG T.kind) R.fields };

    ghost view = { λ r. (T.view r.0.0, R.view r.1) };

    #[tactic(auto, unfolding(crate::specs::Computed::Read::element_at))]
    fn read_row(content: Cursor<'a>) -> Result<(Field<TAG, T>, R), Fault> {
        let mut content = content;
        let value = content.wrapped_here(TAG)?;
        let others = R::read_row(content)?;
        Ok((Field(value), others))
    }
}

impl<'a, const TAG: u8, T: Element<'a> + Drop, R: Row<'a>> Row<'a> for (Maybe<TAG, T>, R) {
    ghost fields = { may (wrapped TAG T.kind) R.fields };

    ghost view = { λ r. (option_map T.view r.0.0, R.view r.1) };

    #[tactic(auto, unfolding(crate::specs::Computed::Read::element_at))]
    fn read_row(content: Cursor<'a>) -> Result<(Maybe<TAG, T>, R), Fault> {
        let mut content = content;
        if !content.begins(TAG) {
            let others = R::read_row(content)?;
            return Ok((Maybe(None), others));
        }
        let value = content.wrapped_here(TAG)?;
        let others = R::read_row(content)?;
        Ok((Maybe(Some(value)), others))
    }
}
