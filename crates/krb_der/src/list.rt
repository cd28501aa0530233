//! A SEQUENCE OF: read as a cursor over its content, and written from a slice.

ghost use Rattle.std.specs.Prelude.{◌≡◌, [], ◌∷◌, map, IfOk, IfSome, IfNone};
ghost use Rattle.krb_der.specs.Kind.{Kind, ValueOf, sequence, each, leaf, string};
ghost use Rattle.krb_der.specs.Content.{Elementary};
ghost use Rattle.krb_der.specs.Fault.{HasHead};
ghost use Rattle.krb_der.specs.Spells.{StandsAt};
ghost use Rattle.krb_der.specs.Reading.{Reads, ReadsList};
ghost use Rattle.krb_der.specs.Writing.{EncodesValue};
ghost use Rattle.krb_der.specs.Computed.Gives.{Gives, checked};
ghost use Rattle.krb_der.specs.Computed.Listed.{AreListed, listed};
ghost use Rattle.krb_der.specs.Computed.Read.{element_at, fields_at};

use crate::element::is_clear;
use crate::{
    Cursor, Element, Encode, EncodeFault, EncodeRow, Fault, Text, Writer, tag, write_sequence,
};
use std::convert::AsSlice;

impl<'a> Cursor<'a> {
    /// Checks that everything that is left are elements of the type's kind, one after another, as
    /// in a SEQUENCE OF. The cursor is unchanged.
    ///
    /// # Errors
    /// A fault of what is left, by the rules of `specs::Fault`.
    pub fn check_each<T: Element<'a> + Drop>(&self) -> Result<(), Fault>
        ensures checks { ReadsList T.kind result self.now }
        ensures computed { result ≡ checked (fields_at (each T.kind) self.now) }
    {
        is_clear::<T>();
        self.check_each_here::<T>()
    }

    #[tactic(auto, using(crate::proofs::Lists::list_step, crate::proofs::Lists::list_fault, crate::proofs::Lists::list_end, crate::proofs::Lists::element_at_shrinks))]
    fn check_each_here<T: Element<'a> + Drop>(&self) -> Result<(), Fault>
        ensures { result ≡ checked (fields_at (each T.kind) self.now) }
    {
        let mut left = self.again();
        while !left.is_at_end() {
            match T::read(&mut left) {
                Ok(value) => drop(value),
                Err(fault) => return Err(fault),
            }
        }
        Ok(())
    }

    /// Reads a SEQUENCE OF elements of the type's kind: returns a cursor over its content, for
    /// [`next`](Self::next).
    ///
    /// # Errors
    /// As of [`read`](Self::read), and the fault of one of the elements. The cursor is then
    /// unchanged.
    #[tactic(auto, using(crate::proofs::Reading::reads))]
    pub fn list<T: Element<'a> + Drop>(&mut self) -> Result<Cursor<'a>, Fault>
        ensures reads { Reads (sequence (each T.kind)) (listed T.kind) result self.old self.new }
        ensures inside { IfOk result (λ content. HasHead 0x30 self.old content self.new) }
        ensures listed { IfOk result (AreListed T.kind) }
        ensures computed { Gives (listed T.kind) result self.old self.new (element_at (sequence (each T.kind)) self.old) }
    {
        is_clear::<T>();
        self.list_here::<T>()
    }

    #[tactic(auto, using(crate::proofs::Lists::list_ok, crate::proofs::Lists::list_err, crate::proofs::ElementSteps::enter_at_read), unfolding(crate::specs::Computed::Read::element_at))]
    fn list_here<T: Element<'a> + Drop>(&mut self) -> Result<Cursor<'a>, Fault>
        ensures inside { IfOk result (λ content. HasHead 0x30 self.old content self.new) }
        ensures listed { IfOk result (AreListed T.kind) }
        ensures computed { Gives (listed T.kind) result self.old self.new (element_at (sequence (each T.kind)) self.old) }
    {
        let (content, after) = self.head(tag::SEQUENCE)?;
        content.check_each_here::<T>()?;
        *self = after;
        Ok(content)
    }

    /// Reads the next element of a [`list`](Self::list) and moves past it; returns `None` at the
    /// end.
    #[tactic(auto, using(crate::proofs::Lists::listed_end, crate::proofs::Lists::listed_next, crate::proofs::Lists::listed_some, crate::proofs::Reading::element_at_found))]
    pub fn next<T: Element<'a>>(&mut self) -> Option<T>
        requires { AreListed T.kind self.old }
        ensures end { IfNone result ((listed T.kind self.old ≡ []) × (self.new ≡ self.old)) }
        ensures stands { IfSome result (λ x. StandsAt Elementary T.kind (T.view x) self.old self.new) }
        ensures some { IfSome result (λ x. listed T.kind self.old ≡ T.view x ∷ listed T.kind self.new) }
        ensures listed { AreListed T.kind self.new }
    {
        if self.is_at_end() {
            return None;
        }
        match T::read(self) {
            Ok(value) => Some(value),
            Err(_) => unreachable!(),
        }
    }
}

/// How the items of a slice are written.
trait Item<T> {
    ghost kind: { Kind };

    ghost view: { T → ValueOf kind };

    fn write_item(item: &T, out: &mut Writer) -> Result<(), EncodeFault>
        ensures { EncodesValue kind (view item.now) result out.old out.new };
}

/// As the elements that they are.
#[derive(Drop)]
struct AsElements;

impl<T: Encode> Item<T> for AsElements {
    ghost kind = { T.kind };

    ghost view = { T.view };

    fn write_item(item: &T, out: &mut Writer) -> Result<(), EncodeFault> {
        item.write(out)
    }
}

/// As GeneralStrings of their bytes.
#[derive(Drop)]
struct AsTexts;

impl<T: AsSlice<u8>> Item<T> for AsTexts {
    ghost kind = { leaf string };

    ghost view = { T.items };

    fn write_item(item: &T, out: &mut Writer) -> Result<(), EncodeFault> {
        Text(item.as_slice()).write(out)
    }
}

/// The items of a slice, one after another.
#[derive(Drop)]
struct Items<'a, T, As>(&'a [T], As);

impl<T, As: Item<T>> EncodeRow for Items<'_, T, As> {
    ghost fields = { each As.kind };

    ghost view = { λ row. map As.view row.0.now };

    fn write_row(&self, out: &mut Writer) -> Result<(), EncodeFault> {
        let start = out.len();
        for item in self.0 {
            if let Err(fault) = As::write_item(item, out) {
                return out.settle(start, Err(fault));
            }
        }
        out.limited(start, Ok(()))
    }
}

impl<T: Encode> Encode for &[T] {
    ghost kind = { sequence (each T.kind) };

    ghost view = { λ items. map T.view items.now };

    fn write(&self, out: &mut Writer) -> Result<(), EncodeFault> {
        write_sequence(&Items(*self, AsElements), out)
    }
}

impl<T: Encode> Encode for Vec<T> {
    ghost kind = { sequence (each T.kind) };

    ghost view = { λ list. map T.view list.items };

    fn write(&self, out: &mut Writer) -> Result<(), EncodeFault> {
        write_sequence(&Items(self.as_slice(), AsElements), out)
    }
}

/// Texts of another type, to be written as a SEQUENCE OF GeneralString.
#[derive(Clone, Copy, Debug)]
pub struct TextList<'a, T>(pub &'a [T]);

impl<T: AsSlice<u8>> Encode for TextList<'_, T> {
    ghost kind = { sequence (each (leaf string)) };

    ghost view = { λ texts. map T.items texts.0.now };

    fn write(&self, out: &mut Writer) -> Result<(), EncodeFault> {
        write_sequence(&Items(self.0, AsTexts), out)
    }
}
