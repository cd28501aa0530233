//! Elements with parts, read as rows of fields.

ghost use Rattle.std.specs.Prelude.{◌≡◌, true};
ghost use Rattle.krb_der.specs.Kind.{wrapped, sequence};
ghost use Rattle.krb_der.specs.Reading.{Reads};
ghost use Rattle.krb_der.specs.Clear.{are_clear};
ghost use Rattle.krb_der.specs.Computed.Gives.{Gives};
ghost use Rattle.krb_der.specs.Computed.Read.{element_at};

use crate::element::is_clear;
use crate::row::Row;
use crate::{Cursor, Element, Fault, tag};

impl<'a> Cursor<'a> {
    /// Reads a SEQUENCE of these fields. Errors as of [`read`](Self::read).
    pub fn sequence<R: Row<'a> + Drop>(&mut self) -> Result<R, Fault>
        ensures reads { are_clear R.fields ≡ true → Reads (sequence R.fields) R.view result self.old self.new }
        ensures computed { Gives R.view result self.old self.new (element_at (sequence R.fields) self.old) }
    {
        self.sequence_here()
    }

    #[tactic(auto, unfolding(crate::specs::Computed::Read::element_at))]
    fn sequence_here<R: Row<'a> + Drop>(&mut self) -> Result<R, Fault>
        ensures { Gives R.view result self.old self.new (element_at (sequence R.fields) self.old) }
    {
        let (content, after) = self.head(tag::SEQUENCE)?;
        let row = R::read_row(content)?;
        *self = after;
        Ok(row)
    }

    /// Reads a SEQUENCE of these fields with this tag around it; the tag of `[APPLICATION 2]` is 62
    /// (hexadecimal). Errors as of [`read`](Self::read).
    pub fn application<R: Row<'a> + Drop>(&mut self, tag: u8) -> Result<R, Fault>
        ensures reads { are_clear R.fields ≡ true → Reads (wrapped tag (sequence R.fields)) R.view result self.old self.new }
        ensures computed { Gives R.view result self.old self.new (element_at (wrapped tag (sequence R.fields)) self.old) }
    {
        self.application_here(tag)
    }

    #[tactic(auto, unfolding(crate::specs::Computed::Read::element_at))]
    fn application_here<R: Row<'a> + Drop>(&mut self, tag: u8) -> Result<R, Fault>
        ensures { Gives R.view result self.old self.new (element_at (wrapped tag (sequence R.fields)) self.old) }
    {
        let (mut content, after) = self.head(tag)?;
        let row = content.sequence_here()?;
        content.finish_here()?;
        *self = after;
        Ok(row)
    }

    /// Reads an element with this tag around it. Errors as of [`read`](Self::read).
    pub fn wrapped<T: Element<'a> + Drop>(&mut self, tag: u8) -> Result<T, Fault>
        ensures reads { Reads (wrapped tag T.kind) T.view result self.old self.new }
        ensures computed { Gives T.view result self.old self.new (element_at (wrapped tag T.kind) self.old) }
    {
        is_clear::<T>();
        self.wrapped_here(tag)
    }

    #[tactic(auto, unfolding(crate::specs::Computed::Read::element_at))]
    pub(crate) fn wrapped_here<T: Element<'a> + Drop>(&mut self, tag: u8) -> Result<T, Fault>
        ensures { Gives T.view result self.old self.new (element_at (wrapped tag T.kind) self.old) }
    {
        let (mut content, after) = self.head(tag)?;
        let value = T::read(&mut content)?;
        content.finish_here()?;
        *self = after;
        Ok(value)
    }
}
