//! What can be written as one element.

ghost use Rattle.krb_der.specs.Kind.{Kind, ValueOf, leaf, int32, uint32, seq_number, microseconds, constant, octets, string, flags, time};
ghost use Rattle.krb_der.specs.Writing.{EncodesValue, IsEncoded};

use crate::cursor::MESSAGE_LIMIT;
use crate::{Constant, EncodeFault, Flags, Microseconds, Octets, Seconds, SeqNumber, Text, Writer};
use std::alloc::Global;

/// A type whose values are written as one kind of element.
pub trait Encode {
    ghost kind: { Kind };

    ghost view: { Self → ValueOf kind };

    /// Writes the bytes of the value.
    ///
    /// # Errors
    /// The writer is then unchanged.
    /// - `TooLong`: it would hold more than 1,048,576 bytes.
    /// - `OutOfMemory`: there is no memory.
    fn write(&self, out: &mut Writer) -> Result<(), EncodeFault>
        ensures { EncodesValue kind (view self.now) result out.old out.new };
}

impl<T: Encode> Encode for &T {
    ghost kind = { T.kind };

    ghost view = { λ r. T.view r.now };

    fn write(&self, out: &mut Writer) -> Result<(), EncodeFault> {
        (**self).write(out)
    }
}

impl Encode for i32 {
    ghost kind = { leaf int32 };

    ghost view = { λ z. z };

    fn write(&self, out: &mut Writer) -> Result<(), EncodeFault> {
        let start = out.len();
        let written = out.int32(*self);
        out.limited(start, written)
    }
}

impl Encode for u32 {
    ghost kind = { leaf uint32 };

    ghost view = { λ n. n };

    fn write(&self, out: &mut Writer) -> Result<(), EncodeFault> {
        let start = out.len();
        let written = out.uint32(*self);
        out.limited(start, written)
    }
}

impl Encode for SeqNumber {
    ghost kind = { leaf seq_number };

    ghost view = { λ s. s.0 };

    fn write(&self, out: &mut Writer) -> Result<(), EncodeFault> {
        let start = out.len();
        let written = out.uint32(self.0);
        out.limited(start, written)
    }
}

impl Encode for Microseconds {
    ghost kind = { leaf microseconds };

    ghost view = { λ n. n };

    fn write(&self, out: &mut Writer) -> Result<(), EncodeFault> {
        let start = out.len();
        let written = out.microseconds(*self);
        out.limited(start, written)
    }
}

impl<const N: u32> Encode for Constant<N> {
    ghost kind = { leaf (constant N) };

    ghost view = { λ _. tt };

    fn write(&self, out: &mut Writer) -> Result<(), EncodeFault> {
        let start = out.len();
        let written = out.constant::<N>();
        out.limited(start, written)
    }
}

impl Encode for Flags {
    ghost kind = { leaf flags };

    ghost view = { λ f. f.0 };

    #[tactic(auto, using(crate::proofs::EncodeLaws::encodes_leaf))]
    fn write(&self, out: &mut Writer) -> Result<(), EncodeFault> {
        let start = out.len();
        let written = out.flags(*self);
        out.limited(start, written)
    }
}

impl Encode for Seconds {
    ghost kind = { leaf time };

    ghost view = { λ s. s };

    #[tactic(auto, using(crate::proofs::EncodeLaws::encodes_leaf))]
    fn write(&self, out: &mut Writer) -> Result<(), EncodeFault> {
        let start = out.len();
        let written = out.time(*self);
        out.limited(start, written)
    }
}

impl Encode for Octets<'_> {
    ghost kind = { leaf octets };

    ghost view = { λ o. o.0.now };

    fn write(&self, out: &mut Writer) -> Result<(), EncodeFault> {
        if self.0.len() > MESSAGE_LIMIT {
            return Err(EncodeFault::TooLong);
        }
        let start = out.len();
        let written = out.octets(self.0);
        out.limited(start, written)
    }
}

impl Encode for Text<'_> {
    ghost kind = { leaf string };

    ghost view = { λ t. t.0.now };

    fn write(&self, out: &mut Writer) -> Result<(), EncodeFault> {
        if self.0.len() > MESSAGE_LIMIT {
            return Err(EncodeFault::TooLong);
        }
        let start = out.len();
        let written = out.string(self.0);
        out.limited(start, written)
    }
}

/// The first capacity of a message, in bytes. Most messages need no more.
const FIRST_ROOM: usize = 512;

/// Returns the message that has this value.
///
/// # Errors
/// `TooLong` if it would have more than 1,048,576 bytes; `OutOfMemory`.
pub fn encoded<T: Encode>(alloc: Global, value: &T) -> Result<Vec<u8>, EncodeFault>
    ensures { IsEncoded T.kind (T.view value.now) result }
{
    let mut out = Writer::with_room(alloc, FIRST_ROOM)?;
    value.write(&mut out)?;
    Ok(out.into_bytes())
}
