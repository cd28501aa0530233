//! Elements without parts, read call by call.

ghost use Rattle.krb_der.specs.Kind.{leaf, int32, uint32, seq_number, microseconds, constant, octets, string, flags, time};
ghost use Rattle.krb_der.specs.Reading.{Reads};

use crate::{Constant, Cursor, Fault, Flags, Microseconds, Octets, Seconds, SeqNumber, Text};

impl<'a> Cursor<'a> {
    /// Reads a whole number from -2,147,483,648 to 2,147,483,647 (RFC 4120, section 5.2.4).
    ///
    /// # Errors
    /// Those of [`enter`](Self::enter), then `Integer` here: empty, not in its shortest form, or
    /// out of range.
    pub fn int32(&mut self) -> Result<i32, Fault>
        ensures { Reads (leaf int32) (λ z. z) result self.old self.new }
    {
        self.read::<i32>()
    }

    /// Reads a whole number from 0 to 4,294,967,295 (RFC 4120, section 5.2.4). Errors as of
    /// [`int32`](Self::int32).
    pub fn uint32(&mut self) -> Result<u32, Fault>
        ensures { Reads (leaf uint32) (λ n. n) result self.old self.new }
    {
        self.read::<u32>()
    }

    /// Reads a sequence number: a whole number from -2,147,483,648 to 4,294,967,295. A negative one
    /// is read as the number of the same 32 bits, which is 4,294,967,296 more (RFC 4120, sections
    /// 5.2.4 and 5.5.1). Errors as of [`int32`](Self::int32).
    pub fn seq_number(&mut self) -> Result<u32, Fault>
        ensures { Reads (leaf seq_number) (λ n. n) result self.old self.new }
    {
        match self.read::<SeqNumber>() {
            Ok(number) => Ok(number.0),
            Err(fault) => Err(fault),
        }
    }

    /// Reads a whole number from 0 to 999,999 (RFC 4120, section 5.2.4). Errors as of
    /// [`int32`](Self::int32).
    pub fn microseconds(&mut self) -> Result<Microseconds, Fault>
        ensures { Reads (leaf microseconds) (λ n. n) result self.old self.new }
    {
        self.read::<Microseconds>()
    }

    /// Reads the whole number `N`. Errors as of [`int32`](Self::int32), and `Integer` for any other
    /// number.
    pub fn constant<const N: u32>(&mut self) -> Result<Constant<N>, Fault>
        ensures { Reads (leaf (constant N)) (λ _. tt) result self.old self.new }
    {
        self.read::<Constant<N>>()
    }

    /// Reads an OCTET STRING, and returns a slice of the input. Errors as of
    /// [`enter`](Self::enter).
    pub fn octets(&mut self) -> Result<&'a [u8], Fault>
        ensures { Reads (leaf octets) (λ s. s.now) result self.old self.new }
    {
        match self.read::<Octets>() {
            Ok(octets) => Ok(octets.0),
            Err(fault) => Err(fault),
        }
    }

    /// Reads a GeneralString of any bytes, and returns a slice of the input. Errors as of
    /// [`enter`](Self::enter).
    pub fn string(&mut self) -> Result<&'a [u8], Fault>
        ensures { Reads (leaf string) (λ s. s.now) result self.old self.new }
    {
        match self.read::<Text>() {
            Ok(text) => Ok(text.0),
            Err(fault) => Err(fault),
        }
    }

    /// Reads a BIT STRING of 32 bits (RFC 4120, section 5.2.8).
    ///
    /// # Errors
    /// Those of [`enter`](Self::enter), then `Flags` here: not 32 bits.
    pub fn flags(&mut self) -> Result<Flags, Fault>
        ensures { Reads (leaf flags) (λ f. f.0) result self.old self.new }
    {
        self.read::<Flags>()
    }

    /// Reads a GeneralizedTime of the form `YYYYMMDDHHMMSSZ` (RFC 4120, section 5.2.3).
    ///
    /// # Errors
    /// Those of [`enter`](Self::enter), then `Time` here: not of the form, or not in the calendar.
    pub fn time(&mut self) -> Result<Seconds, Fault>
        ensures { Reads (leaf time) (λ s. s) result self.old self.new }
    {
        self.read::<Seconds>()
    }
}
