//! What can be written as a row of fields.

ghost use Rattle.std.specs.Option.{option_map};
ghost use Rattle.krb_der.specs.Kind.{Fields, FieldsOf, wrapped, sequence, ends, must, may};
ghost use Rattle.krb_der.specs.Writing.{EncodesFields, EncodesValue};

use crate::row::{Field, Maybe, MaybeRef};
use crate::{Encode, EncodeFault, Writer, tag};

/// A type whose values are written as a row of fields.
pub trait EncodeRow {
    ghost fields: { Fields };

    ghost view: { Self → FieldsOf fields };

    /// Writes the fields one after another. Errors as of [`Encode::write`].
    fn write_row(&self, out: &mut Writer) -> Result<(), EncodeFault>
        ensures { EncodesFields fields (view self.now) result out.old out.new };
}

/// Writes a SEQUENCE of these fields. Errors as of [`Encode::write`].
pub fn write_sequence<R: EncodeRow>(row: &R, out: &mut Writer) -> Result<(), EncodeFault>
    ensures { EncodesValue (sequence R.fields) (R.view row.now) result out.old out.new }
{
    let start = out.len();
    out.open()?;
    if let Err(fault) = row.write_row(out) {
        return out.settle(start, Err(fault));
    }
    let written = out.close(tag::SEQUENCE, start);
    out.limited(start, written)
}

/// Writes a SEQUENCE of these fields with this tag around it. Errors as of [`Encode::write`].
pub fn write_application<R: EncodeRow>(
    row: &R,
    tag: u8,
    out: &mut Writer,
) -> Result<(), EncodeFault>
    ensures { EncodesValue (wrapped tag (sequence R.fields)) (R.view row.now) result out.old out.new }
{
    let start = out.len();
    out.open()?;
    if let Err(fault) = write_sequence(row, out) {
        return out.settle(start, Err(fault));
    }
    let written = out.close(tag, start);
    out.limited(start, written)
}

impl<const TAG: u8, T: Encode> Encode for Field<TAG, T> {
    ghost kind = { wrapped TAG T.kind };

    ghost view = { λ f. T.view f.0 };

    fn write(&self, out: &mut Writer) -> Result<(), EncodeFault> {
        let start = out.len();
        out.open()?;
        if let Err(fault) = self.0.write(out) {
            return out.settle(start, Err(fault));
        }
        let written = out.close(TAG, start);
        out.limited(start, written)
    }
}

impl<R: EncodeRow> EncodeRow for &R {
    ghost fields = { R.fields };

    ghost view = { λ r. R.view r.now };

    fn write_row(&self, out: &mut Writer) -> Result<(), EncodeFault> {
        (**self).write_row(out)
    }
}

impl EncodeRow for () {
    ghost fields = { ends };

    ghost view = { λ _. tt };

    fn write_row(&self, out: &mut Writer) -> Result<(), EncodeFault> {
        let start = out.len();
        out.limited(start, Ok(()))
    }
}

impl<const TAG: u8, T: Encode, R: EncodeRow> EncodeRow for (Field<TAG, T>, R) {
    ghost fields = { must (wrapped TAG T.kind) R.fields };

    ghost view = { λ r. (T.view r.0.0, R.view r.1) };

    fn write_row(&self, out: &mut Writer) -> Result<(), EncodeFault> {
        let start = out.len();
        self.0.write(out)?;
        let written = self.1.write_row(out);
        out.settle(start, written)
    }
}

impl<const TAG: u8, T: Encode, R: EncodeRow> EncodeRow for (Maybe<TAG, T>, R) {
    ghost fields = { may (wrapped TAG T.kind) R.fields };

    ghost view = { λ r. (option_map T.view r.0.0, R.view r.1) };

    fn write_row(&self, out: &mut Writer) -> Result<(), EncodeFault> {
        (MaybeRef::<TAG, _>(&self.0.0), &self.1).write_row(out)
    }
}

impl<const TAG: u8, T: Encode, R: EncodeRow> EncodeRow for (MaybeRef<'_, TAG, T>, R) {
    ghost fields = { may (wrapped TAG T.kind) R.fields };

    ghost view = { λ r. (option_map T.view r.0.0.now, R.view r.1) };

    fn write_row(&self, out: &mut Writer) -> Result<(), EncodeFault> {
        match self.0.0 {
            Some(value) => (Field::<TAG, _>(value), &self.1).write_row(out),
            None => self.1.write_row(out),
        }
    }
}
