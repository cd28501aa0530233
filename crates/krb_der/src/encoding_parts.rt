//! What can be written as the parts of a message.

ghost use Rattle.std.specs.Prelude.{◌≡◌, ℕ, ◌+◌, ◌<◌, ◌≤◌, List, [], length, IfOk, OnOk, IsErrOf};
ghost use Rattle.std.specs.Option.{MatchOption};
ghost use Rattle.krb_der.specs.Spells.{IsElement, IsJoined, IfPresent, limit};
ghost use Rattle.krb_der.specs.Size.{element_size, size_if};
ghost use Rattle.krb_der.specs.Writing.{Appends};

use crate::cursor::MESSAGE_LIMIT;
use crate::{EncodeFault, Field, Last, Maybe, Octets, Writer};
use std::alloc::{AllocError, Global};

/// A type whose values are written as the parts of a message: a row as of [`Placed`](crate::Placed), with [`Octets`] for bytes.
pub trait EncodeParts {
    /// Which bytes are written for a value, and how many.
    ghost writes: { Self → List ℕ → Type 0 };

    ghost size: { Self → ℕ };

    /// Returns how many bytes are written, if they are at most 1,048,576.
    fn size_within(&self) -> Option<usize>
        ensures { MatchOption result (limit < size self.now) (λ n. (n ≡ size self.now) × (n ≤ limit)) };

    /// Writes them.
    ///
    /// # Errors
    /// `AllocError`: there is no memory, or an element's content would have more than 1,048,576
    /// bytes. The writer can then have some of them.
    fn write_parts(&self, out: &mut Writer) -> Result<(), AllocError>
        ensures written { OnOk result (Appends (writes self.now) out.old out.new) }
        ensures sized { OnOk result (length out.new ≡ length out.old + size self.now) };
}

/// Returns the message with these parts.
///
/// # Errors
/// - `TooLong`: it would have more than 1,048,576 bytes.
/// - `OutOfMemory`.
pub fn encoded_parts<P: EncodeParts>(alloc: Global, value: &P) -> Result<Vec<u8>, EncodeFault>
    ensures written { IfOk result (λ bytes. P.writes value.now bytes.items) }
    ensures size { IfOk result (λ bytes. length bytes.items ≡ P.size value.now) }
    ensures fits { OnOk result (P.size value.now ≤ limit) }
    ensures too_long { IsErrOf result EncodeFault.TooLong → limit < P.size value.now }
    ensures memory { IsErrOf result EncodeFault.OutOfMemory → P.size value.now ≤ limit }
{
    if value.size_within().is_none() {
        return Err(EncodeFault::TooLong);
    }
    let mut out = Writer::new(alloc);
    value.write_parts(&mut out)?;
    Ok(out.into_bytes())
}

/// The sum, if it is within the limit.
fn sum_within(first: usize, others: usize) -> Option<usize>
    requires first { first ≤ limit }
    requires others { others ≤ limit }
    ensures { MatchOption result (limit < first + others) (λ n. (n ≡ first + others) × (n ≤ limit)) }
{
    if first + others > MESSAGE_LIMIT {
        return None;
    }
    Some(first + others)
}

/// How many bytes an element has with such a content, if they are within the limit.
fn element_within(content: usize) -> Option<usize>
    requires { content ≤ limit }
    ensures { MatchOption result (limit < element_size content) (λ n. (n ≡ element_size content) × (n ≤ limit)) }
{
    let head = if content < 0x80 {
        2
    } else if content < 0x100 {
        3
    } else if content < 0x1_0000 {
        4
    } else {
        5
    };
    sum_within(head, content)
}

/// How many bytes an element has with these parts, if they are within the limit.
fn size_around<P: EncodeParts>(parts: &P) -> Option<usize>
    ensures { MatchOption result (limit < element_size (P.size parts.now)) (λ n. (n ≡ element_size (P.size parts.now)) × (n ≤ limit)) }
{
    element_within(parts.size_within()?)
}

/// Writes an element with this tag and these parts.
fn write_around<P: EncodeParts>(parts: &P, tag: u8, out: &mut Writer) -> Result<(), AllocError>
    ensures written { OnOk result (Appends (IsElement tag (P.writes parts.now)) out.old out.new) }
    ensures sized { OnOk result (length out.new ≡ length out.old + element_size (P.size parts.now)) }
{
    let Some(size) = parts.size_within() else {
        return Err(AllocError);
    };
    out.head(tag, size as u32)?;
    parts.write_parts(out)
}

impl EncodeParts for () {
    ghost writes = { λ _ bytes. bytes ≡ [] };

    ghost size = { λ _. 0 };

    fn size_within(&self) -> Option<usize> {
        Some(0)
    }

    fn write_parts(&self, _out: &mut Writer) -> Result<(), AllocError> {
        Ok(())
    }
}

impl EncodeParts for Octets<'_> {
    ghost writes = { λ o bytes. bytes ≡ o.0.now };

    ghost size = { λ o. length o.0.now };

    fn size_within(&self) -> Option<usize> {
        if self.0.len() > MESSAGE_LIMIT {
            return None;
        }
        Some(self.0.len())
    }

    fn write_parts(&self, out: &mut Writer) -> Result<(), AllocError> {
        out.raw(self.0)
    }
}

impl<const TAG: u8, P: EncodeParts> EncodeParts for Last<TAG, P> {
    ghost writes = { λ l. IsElement TAG (P.writes l.0) };

    ghost size = { λ l. element_size (P.size l.0) };

    fn size_within(&self) -> Option<usize> {
        size_around(&self.0)
    }

    fn write_parts(&self, out: &mut Writer) -> Result<(), AllocError> {
        write_around(&self.0, TAG, out)
    }
}

impl<const TAG: u8, P: EncodeParts, R: EncodeParts> EncodeParts for (Field<TAG, P>, R) {
    ghost writes = { λ r. IsJoined (IsElement TAG (P.writes r.0.0)) (R.writes r.1) };

    ghost size = { λ r. element_size (P.size r.0.0) + R.size r.1 };

    fn size_within(&self) -> Option<usize> {
        let first = size_around(&self.0.0)?;
        sum_within(first, self.1.size_within()?)
    }

    fn write_parts(&self, out: &mut Writer) -> Result<(), AllocError> {
        write_around(&self.0.0, TAG, out)?;
        self.1.write_parts(out)
    }
}

impl<const TAG: u8, P: EncodeParts, R: EncodeParts> EncodeParts for (Maybe<TAG, P>, R) {
    ghost writes = { λ r. IsJoined (IfPresent (λ x. IsElement TAG (P.writes x)) r.0.0) (R.writes r.1) };

    ghost size = { λ r. size_if (λ x. element_size (P.size x)) r.0.0 + R.size r.1 };

    fn size_within(&self) -> Option<usize> {
        let others = self.1.size_within()?;
        match &self.0.0 {
            Some(parts) => sum_within(size_around(parts)?, others),
            None => Some(others),
        }
    }

    fn write_parts(&self, out: &mut Writer) -> Result<(), AllocError> {
        match &self.0.0 {
            Some(parts) => {
                write_around(parts, TAG, out)?;
                self.1.write_parts(out)
            }
            None => self.1.write_parts(out),
        }
    }
}
